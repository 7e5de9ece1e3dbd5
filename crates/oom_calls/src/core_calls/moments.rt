//! Moments of ranges.
use crate::core_calls::ranges::put_at;
use crate::core_calls::snapshots::{Snapshots, clean_range};
use crate::lines::{show, unchanged};
use range_state::{LocalRows, RangeState};
use snapshot::Snapshot;
use std::alloc::Global;
use std::io;
use std::thread::Threads;
use vclock::Refusal;

/// Shows the calls on the moment of a range.
pub(crate) fn show_all<R: Print + AllocGlobal + Threads + Sync>(
    rt: &R,
    both: &Snapshots,
) -> io::Result<()> {
    let (alloc, partner) = (rt.alloc(), &both.partner);
    show(rt, "RangeState::hold_moment", hold(rt, alloc))?;
    show(rt, "RangeState::take_moment_jobs", take_jobs(rt, alloc))?;
    show(
        rt,
        "RangeState::take_portion and RangeState::hash_moment",
        hash(rt, alloc),
    )?;
    show(
        rt,
        "RangeState::snapshot_of and RangeState::moment",
        offer(rt, alloc),
    )?;
    show(
        rt,
        "RangeState::open_session_by and RangeState::open_session_at_moment",
        open(rt, alloc, partner),
    )
}

/// Returns the clean range, which keeps its rows as its moment.
pub(crate) fn held_range(rt: &(impl Threads + Sync), alloc: Global) -> Result<RangeState, Refusal> {
    let mut state = clean_range(rt, alloc)?;
    state.hold_moment(alloc)?;
    Ok(state)
}

/// Returns true if the moment of a range is whole.
fn is_whole(alloc: Global, state: &RangeState) -> Result<bool, Refusal> {
    match state.moment(alloc) {
        Ok(_) => Ok(true),
        Err(Refusal::Dirty) => Ok(false),
        Err(refusal) => Err(refusal),
    }
}

/// Keeps another moment after a put, which isn't whole. A refused call leaves the first one.
fn hold(rt: &(impl Threads + Sync), alloc: Global) -> Result<u64, Refusal> {
    let mut state = held_range(rt, alloc)?;
    put_at(alloc, &mut state, 2)?;
    match state.hold_moment(alloc) {
        Ok(_before) => Ok(u64::from(is_whole(alloc, &state)?)),
        Err(refusal) => Err(unchanged(refusal, is_whole(alloc, &state))),
    }
}

/// Returns a range that keeps a moment whose leaf and the nodes above it are dirty.
fn dirty_moment(rt: &(impl Threads + Sync), alloc: Global) -> Result<RangeState, Refusal> {
    let mut state = clean_range(rt, alloc)?;
    put_at(alloc, &mut state, 2)?;
    state.hold_moment(alloc)?;
    Ok(state)
}

/// Returns the number of jobs of such a moment.
fn take_jobs(rt: &(impl Threads + Sync), alloc: Global) -> Result<u64, Refusal> {
    let state = dirty_moment(rt, alloc)?;
    Ok(state.take_moment_jobs(alloc, 20)?.len() as u64)
}

/// Hashes the leaf of such a moment as a portion, then the node above it. Returns the number of nodes that are still
/// dirty.
fn hash(rt: &(impl Threads + Sync), alloc: Global) -> Result<u64, Refusal> {
    let mut state = dirty_moment(rt, alloc)?;
    let mut portion = state.take_portion(alloc, 20)?;
    portion.run(alloc);
    let left = state.install_portion(portion);
    match state.hash_moment(alloc, 20) {
        Ok(left) => Ok(left as u64),
        Err(refusal) => Err(unchanged(refusal, Ok(left == 2))),
    }
}

/// Offers a moment, and returns the number of its ring's bits.
fn offer(rt: &(impl Threads + Sync), alloc: Global) -> Result<u64, Refusal> {
    let state = held_range(rt, alloc)?;
    Ok(u64::from(state.snapshot_of(alloc, LocalRows::Moment)?.bits()))
}

/// Opens sessions at the moment of a range until its records have grown.
fn open(rt: &(impl Threads + Sync), alloc: Global, partner: &Snapshot) -> Result<u64, Refusal> {
    let mut state = held_range(rt, alloc)?;
    for sessions in 0..6usize {
        if let Err(refusal) = state.open_session_by(alloc, LocalRows::Moment, 2, partner.offer(1)) {
            return Err(unchanged(refusal, Ok(state.records().len() == sessions)));
        }
    }
    Ok(state.records().len() as u64)
}
