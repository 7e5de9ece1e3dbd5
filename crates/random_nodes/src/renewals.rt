//! Renewals of a node's range, and closes that are refused.

use crate::node::{Node, Parts, Rest, SEATS};
use crate::steps::Renewal;
use plain_model::plain::Fault;
use plain_model::trouble::{Trouble, expect};
use ring_node::{NotClosed, RenewedRange};
use std::alloc::Global;
use std::sync::Wait;
use std::sync::ledger::Ledger;
use vclock::Refusal;

/// Renews the range of a node, with its hints, or closes it in a way that is refused. Compares the node afterwards.
pub(crate) fn renewed<L: Ledger, R: Wait>(
    rt: &R,
    alloc: Global,
    node: Node<L>,
    renewal: Renewal,
) -> Result<Node<L>, Trouble> {
    let (parts, mut rest) = node.into_parts(alloc)?;
    let parts = match renewal {
        Renewal::At { seat, limit } => renew_at(rt, alloc, parts, &mut rest, seat, limit)?,
        Renewal::Short => close_short(alloc, parts)?,
    };
    let node = Node::from_parts(alloc, parts, rest)?;
    node.check_all(rt, alloc)?;
    Ok(node)
}

/// Renews a range at a seat, with its current limit if `limit` is `None`, and its hints, unless the renewal is refused.
fn renew_at<L: Ledger, R: Wait>(
    rt: &R,
    alloc: Global,
    parts: Parts<L>,
    rest: &mut Rest,
    seat: u16,
    limit: Option<u64>,
) -> Result<Parts<L>, Trouble> {
    let limit = limit.unwrap_or(rest.mirror.plain.limit);
    let wanted = if seat < SEATS {
        rest.mirror.plain.renewal_fault(alloc, limit)?
    } else {
        Some(Fault::Stranger)
    };
    let (parts, refusal) = renew_parts(alloc, parts, seat, limit);
    match (refusal, wanted) {
        (Some(refusal), Some(fault)) => expect(fault.is(&refusal), "the refusal of a renewal")?,
        (None, None) => {
            rest.hints.renew(rt, alloc)?;
            rest.mirror.renew(alloc, seat, limit)?;
        }
        _ => return Err(Trouble::Differs("whether a range is renewed")),
    }
    Ok(parts)
}

/// Renews a range, or returns it with the refusal.
fn renew_parts<L: Ledger>(
    alloc: Global,
    parts: Parts<L>,
    seat: u16,
    limit: u64,
) -> (Parts<L>, Option<Refusal>) {
    let Parts { range, passes } = parts;
    match range.renew(alloc, passes, seat, limit) {
        Ok(renewed) => {
            let RenewedRange {
                range,
                passes,
                kept: _kept,
            } = renewed;
            (Parts { range, passes }, None)
        }
        Err(refused) => {
            let NotClosed {
                range,
                passes,
                refusal,
            } = refused;
            (Parts { range, passes }, Some(refusal))
        }
    }
}

/// Tries to close a range without its last pass, which is refused, and returns the range.
fn close_short<L: Ledger>(alloc: Global, parts: Parts<L>) -> Result<Parts<L>, Trouble> {
    let Parts { range, mut passes } = parts;
    let Some(last) = passes.pop() else {
        return Err(Trouble::Differs("the number of seats"));
    };
    match range.close(alloc, passes) {
        Ok(_) => Err(Trouble::Differs("whether a range is closed")),
        Err(refused) => {
            let NotClosed {
                range,
                mut passes,
                refusal,
            } = refused;
            expect(Fault::Stranger.is(&refusal), "the refusal of a close")?;
            passes.push(last)?;
            Ok(Parts { range, passes })
        }
    }
}
