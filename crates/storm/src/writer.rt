//! Writers.
use crate::node::{Node, Plan};
use caller_pass::Pass;
use ring_node::{Gate, SharedRange, Step};
use std::alloc::Global;
use std::sync::Wait;
use std::sync::ledger::Ledger;
use vclock::{Bytes, Clock, Refusal};
use version_set::Kind;

/// Puts the keys `w-0`, `w-1` and so on at a node, w being its number, each with its number as the value, and passes
/// the gate after each. Refused as [`ring_node::SharedRange::put`] is.
pub(crate) fn write<L: Ledger, C: Ledger, R: Wait, G: Gate>(
    rt: &R,
    alloc: Global,
    node: &Node<'_, L>,
    plan: &Plan<'_, C, G>,
    pass: &mut Pass<L>,
) -> Result<(), Refusal> {
    let context = Clock::from_pairs(alloc, &[])?;
    for number in 0..plan.puts {
        put(rt, alloc, &node.range, pass, &context, number)?;
        node.tally.count_put(rt);
        plan.gate.pass(rt, Step::Put);
    }
    Ok(())
}

/// Puts the key of a number.
fn put<L: Ledger, R: Wait>(
    rt: &R,
    alloc: Global,
    range: &SharedRange<L>,
    pass: &mut Pass<L>,
    context: &Clock,
    number: u64,
) -> Result<(), Refusal> {
    let writer = range.node();
    let key = format!(in alloc; "{writer}-{number}")?;
    let value = number_bytes(alloc, number)?;
    range.put(rt, alloc, pass, key.as_bytes(), context, Kind::Live, value)?;
    Ok(())
}

/// Returns the digits of a number.
fn number_bytes(alloc: Global, number: u64) -> Result<Bytes, Refusal> {
    let digits = format!(in alloc; "{number}")?;
    Ok(Bytes::copy_of(alloc, digits.as_bytes())?)
}
