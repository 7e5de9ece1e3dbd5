//! Deliveries of hints.

use crate::mirror::Mirror;
use crate::node::Node;
use admission::Slot;
use caller_pass::Pass;
use plain_model::plain::{PlainEntry, key_bytes};
use plain_model::trouble::{Trouble, expect};
use range_journal::Source;
use ring_node::{DeliverReport, deliver};
use std::alloc::Global;
use std::sync::Wait;
use std::sync::ledger::Ledger;
use vclock::Refusal;

/// Delivers the hints of a carrier to their owner in a number of turns, and compares the report.
pub(crate) fn deliver_hints<L: Ledger, M: Ledger, C: Ledger, R: Wait>(
    rt: &R,
    alloc: Global,
    (carrier, owner): (&Node<L>, &Node<M>),
    seat: u16,
    slot: &Slot<C>,
    turns: u64,
) -> Result<(), Trouble> {
    let mut from = carrier.mirror().lock(rt);
    let mut to = owner.mirror().lock(rt);
    let mut pass = owner.pass(seat)?.lock(rt);
    let stranger = deliver_in(
        rt,
        alloc,
        (carrier, owner),
        slot,
        &mut *pass,
        from.number,
        turns,
    );
    let is_due = matches!(stranger, Err(Refusal::Stranger));
    expect(is_due, "the refusal of another node's hints")?;
    let wanted = deliver_plainly(&mut *from, &mut *to, seat, turns)?;
    let report = deliver_in(
        rt,
        alloc,
        (carrier, owner),
        slot,
        &mut *pass,
        to.number,
        turns,
    )?;
    expect(report == wanted, "the report of a delivery")?;
    carrier.check_hints(rt, &from)?;
    owner.check_counts(rt, &to)
}

/// Delivers hints.
fn deliver_in<L: Ledger, M: Ledger, C: Ledger, R: Wait>(
    rt: &R,
    alloc: Global,
    (carrier, owner): (&Node<L>, &Node<M>),
    slot: &Slot<C>,
    pass: &mut Pass<M>,
    number: u16,
    turns: u64,
) -> Result<DeliverReport, Refusal> {
    let (hints, range) = (carrier.hints(), owner.range());
    deliver(rt, alloc, slot, hints, range, pass, number, turns)
}

/// Delivers the pending hints of a carrier for an owner, by ascending number, and returns the report.
fn deliver_plainly(
    from: &mut Mirror,
    to: &mut Mirror,
    seat: u16,
    turns: u64,
) -> Result<DeliverReport, Trouble> {
    let mut report = DeliverReport {
        delivered: 0,
        known: 0,
        kept: 0,
    };
    let mut used = 0u64;
    for hint in from.hints.iter_mut() {
        if hint.owner != to.number || !hint.is_pending || used >= turns {
            continue;
        }
        used = used.wrapping_add(1);
        match to.plain.accept(hint.key, &hint.version) {
            Ok(true) => {
                report.delivered = report.delivered.wrapping_add(1);
                hint.is_pending = false;
                to.plain.entries.push(PlainEntry {
                    seat,
                    key: hint.key,
                    version: hint.version,
                    source: Source::Hint,
                })?;
            }
            Ok(false) => {
                report.known = report.known.wrapping_add(1);
                hint.is_pending = false;
            }
            Err(_) => report.kept = report.kept.wrapping_add(1),
        }
    }
    Ok(report)
}

/// Compares the hints that are pending at a carrier for an owner.
pub(crate) fn check_pending<L: Ledger, R: Wait>(
    rt: &R,
    alloc: Global,
    carrier: &Node<L>,
    owner: u16,
) -> Result<(), Trouble> {
    let mirror = carrier.mirror().lock(rt);
    let mut after = 0u32;
    for (place, hint) in mirror.hints.iter().enumerate() {
        if hint.owner != owner || !hint.is_pending {
            continue;
        }
        let Some(found) = carrier.hints().next(rt, alloc, owner, after)? else {
            return Err(Trouble::Differs("the number of pending hints"));
        };
        let same = found.id as usize == place.wrapping_add(1)
            && found.owner == owner
            && found.key.as_slice() == key_bytes(hint.key)
            && hint.version.is(&found.version);
        expect(same, "a pending hint")?;
        after = found.id;
    }
    let none = carrier.hints().next(rt, alloc, owner, after)?;
    expect(none.is_none(), "the number of pending hints")
}
