//! Renewals alongside puts.
use crate::core_calls::moments::held_range;
use crate::core_calls::ranges::put_at;
use crate::lines::{show, unchanged};
use range_state::{RangeState, Renewal};
use std::alloc::Global;
use std::io;
use std::thread::Threads;
use vclock::Refusal;

/// The limit of the new ranges.
const LIMIT: u64 = 100;

/// Shows the calls of a renewal alongside puts.
pub(crate) fn show_all<R: Print + AllocGlobal + Threads + Sync>(rt: &R) -> io::Result<()> {
    let alloc = rt.alloc();
    show(
        rt,
        "RangeState::begin_renewal, RenewalStart::renewal and RenewalBasis::renewed",
        begin(rt, alloc),
    )?;
    show(rt, "Renewal::catch_up", catch_up(rt, alloc))?;
    show(rt, "Renewal::finish", finish(rt, alloc))
}

/// Makes a new range from a moment, and returns its number of entries.
fn begin(rt: &(impl Threads + Sync), alloc: Global) -> Result<u64, Refusal> {
    let state = held_range(rt, alloc)?;
    let renewal = begun(alloc, &state)?;
    Ok(renewal.state().journal().len())
}

/// Makes a new range from a range's moment.
fn begun(alloc: Global, state: &RangeState) -> Result<Renewal, Refusal> {
    state.begin_renewal(alloc)?.renewal(alloc, 0, LIMIT)
}

/// Returns a range after a put, and a renewal without the put.
fn late_renewal(
    rt: &(impl Threads + Sync),
    alloc: Global,
) -> Result<(RangeState, Renewal), Refusal> {
    let mut state = held_range(rt, alloc)?;
    let renewal = begun(alloc, &state)?;
    put_at(alloc, &mut state, 2)?;
    Ok((state, renewal))
}

/// Catches up with the put, and returns the number of entries left.
fn catch_up(rt: &(impl Threads + Sync), alloc: Global) -> Result<u64, Refusal> {
    let (state, mut renewal) = late_renewal(rt, alloc)?;
    let before = renewal.state().journal().len();
    match renewal.catch_up(alloc, 0, &state, 1) {
        Ok(left) => Ok(left),
        Err(refusal) => {
            let is_unchanged = renewal.state().journal().len() == before;
            Err(unchanged(refusal, Ok(is_unchanged)))
        }
    }
}

/// Finishes the renewal, and returns the number of the new range's entries.
fn finish(rt: &(impl Threads + Sync), alloc: Global) -> Result<u64, Refusal> {
    let (mut state, renewal) = late_renewal(rt, alloc)?;
    let before = renewal.state().journal().len();
    match renewal.finish(alloc, 0, &mut state) {
        Ok(_old) => Ok(state.journal().len()),
        Err(unfinished) => {
            let is_unchanged = unfinished.renewal.state().journal().len() == before;
            Err(unchanged(unfinished.refusal, Ok(is_unchanged)))
        }
    }
}
