//! A worker that makes snapshots alongside the puts.
use crate::fault::Fault;
use crate::loads::plan::{LoadPlan, Worker};
use crate::loads::writer::wait_until;
use crate::times::Times;
use admission::Slot;
use ring_node::{OpenGate, SharedRange};
use std::alloc::Global;
use std::sync::ledger::Ledger;
use std::sync::{Mutex, Wait};
use std::time::{Clock, Duration, Instant};
use vclock::Refusal;

/// The time from the start of one snapshot to the start of the next, in milliseconds.
const PERIOD: u64 = 500;

/// The maximum number of snapshots.
const SNAPSHOTS_MAX: u64 = 10_000;

/// The maximum number of rounds for one snapshot.
const ROUNDS_MAX: u64 = 1_000_000;

/// More turns than any worker needs.
const TURNS: u64 = 1_000_000;

/// Makes snapshots until the puts end, and returns the time that each took.
pub(crate) fn make_snapshots<L: Ledger, C: Ledger, R: Wait + Clock>(
    rt: &R,
    alloc: Global,
    range: &SharedRange<L>,
    slot: &Slot<C>,
    plan: &LoadPlan,
    is_over: &Mutex<bool>,
) -> Result<Times, Fault> {
    let mut times = Times::new(alloc, SNAPSHOTS_MAX as usize)?;
    for _ in 0..SNAPSHOTS_MAX {
        if has_ended(rt, is_over) {
            break;
        }
        let begin = Instant::now(rt)?;
        if make(rt, alloc, range, slot, plan.worker, is_over)? {
            times.note(begin.elapsed(rt)?);
        }
        wait_until(rt, begin, Duration::from_millis(PERIOD))?;
    }
    Ok(times)
}

/// Returns true if the puts have ended.
fn has_ended<R: Wait>(rt: &R, is_over: &Mutex<bool>) -> bool {
    *is_over.lock(rt)
}

/// Makes a snapshot. Returns false if it made none before the puts ended.
fn make<L: Ledger, C: Ledger, R: Wait>(
    rt: &R,
    alloc: Global,
    range: &SharedRange<L>,
    slot: &Slot<C>,
    worker: Worker,
    is_over: &Mutex<bool>,
) -> Result<bool, Refusal> {
    match worker {
        Worker::Nothing => Ok(false),
        Worker::Moments => {
            let report = range.moment_worker(rt, alloc, slot, &OpenGate, TURNS)?;
            // (its rows are freed with the snapshot, not by the next one under the lock)
            range.drop_moment(rt);
            Ok(report.snapshot.is_some())
        }
        Worker::Rounds => {
            for _ in 0..ROUNDS_MAX {
                if has_ended(rt, is_over) {
                    break;
                }
                hash_all(rt, alloc, range, slot)?;
                match range.snapshot(rt, alloc) {
                    Ok(_) => return Ok(true),
                    Err(Refusal::Dirty) => {}
                    Err(refusal) => return Err(refusal),
                }
            }
            Ok(false)
        }
    }
}

/// Hashes dirty nodes until it finds none.
pub(crate) fn hash_all<L: Ledger, C: Ledger, R: Wait>(
    rt: &R,
    alloc: Global,
    range: &SharedRange<L>,
    slot: &Slot<C>,
) -> Result<(), Refusal> {
    range.rehash_worker(rt, alloc, slot, &OpenGate, 0, TURNS)?;
    Ok(())
}
