//! Turns. In each turn, one key goes from one replica to the other.
use crate::calls::pace::Paces;
use crate::calls::phase::put;
use crate::calls::plan::{CallPlan, TURNS};
use crate::calls::round::Round;
use crate::calls::walk::{Walk, sync};
use crate::entries::Shape;
use crate::fault::Fault;
use crate::ranges::{rehash, snapshot};
use range_state::RangeState;
use snapshot::Snapshot;
use std::alloc::Global;
use std::sync::Arc;
use std::thread::Threads;
use std::time::{Clock, Instant};

/// Runs all turns on two replicas that hold equal versions and have clean trees.
pub(crate) fn run_turns(
    rt: &(impl Threads + Clock + Sync),
    alloc: Global,
    plan: CallPlan,
    first: &mut RangeState,
    second: &mut RangeState,
    paces: &mut Paces,
) -> Result<(), Fault> {
    let mut latest = snapshot(alloc, first)?;
    for turn in 0..TURNS {
        // (a number after the numbers of all keys and of all values)
        let number = plan.keys.wrapping_mul(2).wrapping_add(turn);
        offer_key(rt, alloc, first, plan.shape, number, &mut latest, paces)?;
        take_key(rt, alloc, second, plan.shape, &latest, paces)?;
    }
    Ok(())
}

/// Puts one more key, rehashes, and makes a snapshot that replaces the latest one. The latest snapshot is held until
/// then, so the put finds its leaf shared.
fn offer_key(
    rt: &(impl Threads + Clock + Sync),
    alloc: Global,
    range: &mut RangeState,
    shape: Shape,
    number: u64,
    latest: &mut Arc<Snapshot, Global>,
    paces: &mut Paces,
) -> Result<(), Fault> {
    let from = Instant::now(rt)?;
    put(alloc, range, shape, Round::First, number, number)?;
    paces.puts_after_snapshot.add(from.elapsed(rt)?);
    let from = Instant::now(rt)?;
    rehash(rt, alloc, range)?;
    paces.rehashes.add(from.elapsed(rt)?);
    let from = Instant::now(rt)?;
    let offered = snapshot(alloc, range)?;
    paces.snapshots.add(from.elapsed(rt)?);
    *latest = offered;
    Ok(())
}

/// Takes over the one key of a snapshot that is missing from the range, and rehashes.
fn take_key(
    rt: &(impl Threads + Clock + Sync),
    alloc: Global,
    range: &mut RangeState,
    shape: Shape,
    latest: &Snapshot,
    paces: &mut Paces,
) -> Result<(), Fault> {
    let from = Instant::now(rt)?;
    let walk = sync(alloc, range, latest)?;
    paces.syncs.add(from.elapsed(rt)?);
    if walk != Walk::of_one_key(shape.format) {
        return Err(Fault::NotOneKey);
    }
    rehash(rt, alloc, range)?;
    Ok(())
}
