//! Rehash and sync workers.
use crate::node::{Node, Plan};
use caller_pass::Pass;
use ring_node::{ChannelLink, Gate, Link, Step};
use std::alloc::Global;
use std::sync::Wait;
use std::sync::ledger::Ledger;
use vclock::Refusal;

/// The number of turns of a rehash worker: enough for the 273 nodes of a tree, and for finding it clean.
const REHASH_TURNS: u64 = 300;

/// The number of turns of a sync worker: enough to ask for each node twice.
const SYNC_TURNS: u64 = 600;

/// The maximum number of rounds of a worker.
const ROUNDS_MAX: u64 = 100;

/// Rehashes a node's tree, and publishes a snapshot if the tree is clean, in one round for each put, but at most 100.
/// Refused: NoMemory, SessionsFull.
pub(crate) fn rehash_rounds<L: Ledger, C: Ledger, R: Wait, G: Gate>(
    rt: &R,
    alloc: Global,
    node: &Node<'_, L>,
    plan: &Plan<'_, C, G>,
) -> Result<(), Refusal> {
    for _ in 0..plan.puts.min(ROUNDS_MAX) {
        pass_over(rehash(rt, alloc, node, plan))?;
    }
    Ok(())
}

/// Syncs a node over a link, in one round for each put, but at most 100, and stops the link. Refused as
/// [`ring_node::SharedRange::sync_worker`] is, except that NoSlot, Dirty, Gone and LinkLost are ignored.
pub(crate) fn sync_rounds<L: Ledger, C: Ledger, R: Wait, G: Gate>(
    rt: &R,
    alloc: Global,
    node: &Node<'_, L>,
    plan: &Plan<'_, C, G>,
    pass: &mut Pass<L>,
    mut link: ChannelLink,
) -> Result<(), Refusal> {
    let ended = sync_over(rt, alloc, node, plan, pass, &mut link);
    link.stop(rt);
    ended
}

/// Does all rounds over a link.
fn sync_over<L: Ledger, C: Ledger, R: Wait, G: Gate>(
    rt: &R,
    alloc: Global,
    node: &Node<'_, L>,
    plan: &Plan<'_, C, G>,
    pass: &mut Pass<L>,
    link: &mut ChannelLink,
) -> Result<(), Refusal> {
    for _ in 0..plan.puts.min(ROUNDS_MAX) {
        plan.gate.pass(rt, Step::Round);
        pass_over(sync(rt, alloc, node, plan, link, pass))?;
    }
    Ok(())
}

/// Rehashes a node's tree with a slot, and publishes a snapshot if the tree is clean.
///
/// Refused: NoSlot, Dirty (there was a put after the rehash), SessionsFull, NoMemory.
pub(crate) fn rehash<L: Ledger, C: Ledger, R: Wait, G: Gate>(
    rt: &R,
    alloc: Global,
    node: &Node<'_, L>,
    plan: &Plan<'_, C, G>,
) -> Result<(), Refusal> {
    let slot = plan.slots.lend(rt)?;
    let report = node
        .range
        .rehash_worker(rt, alloc, &slot, plan.gate, 0, REHASH_TURNS);
    plan.slots.give_back(rt, slot);
    let report = report?;
    node.tally.count_rehash(rt, &report);
    if report.clean {
        let snapshot = node.range.snapshot(rt, alloc)?;
        node.pool.publish(rt, snapshot)?;
        node.tally.count_snapshot(rt);
    }
    Ok(())
}

/// Fetches the other node's versions that this one is missing over a link, with a slot. Refused: NoSlot, or as
/// [`ring_node::SharedRange::sync_worker`] is.
pub(crate) fn sync<L: Ledger, C: Ledger, R: Wait, G: Gate, K: Link>(
    rt: &R,
    alloc: Global,
    node: &Node<'_, L>,
    plan: &Plan<'_, C, G>,
    link: &mut K,
    pass: &mut Pass<L>,
) -> Result<(), Refusal> {
    let slot = plan.slots.lend(rt)?;
    let (range, partner) = (&node.range, node.partner);
    let report = range.sync_worker(rt, alloc, &slot, link, pass, partner, SYNC_TURNS);
    plan.slots.give_back(rt, slot);
    node.tally.count_sync(rt, &report?);
    Ok(())
}

/// Ignores NoSlot, Dirty, Gone and LinkLost, and returns any other refusal of a round.
fn pass_over(round: Result<(), Refusal>) -> Result<(), Refusal> {
    match round {
        Err(Refusal::NoSlot | Refusal::Dirty | Refusal::Gone | Refusal::LinkLost) => Ok(()),
        other => other,
    }
}
