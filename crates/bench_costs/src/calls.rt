//! The calls of a range in one thread, and the number of each that are done in a second.
//
/// Keys are put into a range, got, put again with the context of the first put, and accepted as copies at another
/// replica. If a journal is too small for two versions of each key, no key is put again. Turns follow: one more key is
/// put, the tree is rehashed, a snapshot is made, and the other replica takes the key over by messages. The measured
/// time includes making each call's key and value. Standard output has the number of each call. In the figures, 0 means
/// that a call wasn't made.
mod pace;
mod phase;
pub(crate) mod plan;
mod round;
mod turns;
mod walk;

use crate::fault::Fault;
use crate::ranges::{new_range, rehash};
use pace::Paces;
use phase::Phase;
use plan::CallPlan;
use range_state::RangeState;
use round::Round;
use std::alloc::Global;
use std::io;
use std::thread::Threads;
use std::time::Clock;
use turns::run_turns;

/// Makes all calls of a plan, and reports them.
pub(crate) fn run<R: Threads + Clock + Print + Eprint + AllocGlobal + Sync>(
    rt: &R,
    plan: CallPlan,
) -> Result<bool, Fault> {
    tell(rt, &make_all(rt, rt.alloc(), plan)?)?;
    Ok(true)
}

/// Makes all calls of a plan.
fn make_all(
    rt: &(impl Threads + Clock + Sync),
    alloc: Global,
    plan: CallPlan,
) -> Result<Paces, Fault> {
    let format = plan.shape.format;
    let (mut first, mut second) = (new_range(alloc, format)?, new_range(alloc, format)?);
    make_calls(rt, alloc, plan, &mut first, &mut second)
}

/// Makes all calls of a plan on two replicas, which have accepted nothing.
fn make_calls(
    rt: &(impl Threads + Clock + Sync),
    alloc: Global,
    plan: CallPlan,
    first: &mut RangeState,
    second: &mut RangeState,
) -> Result<Paces, Fault> {
    let last = plan.last_round();
    let mut paces = Paces::default();
    paces.puts = Phase::Puts(Round::First).time(rt, alloc, first, plan)?;
    paces.gets = Phase::Gets.time(rt, alloc, first, plan)?;
    if last == Round::Second {
        paces.rewrites = Phase::Puts(last).time(rt, alloc, first, plan)?;
    }
    paces.accepts = Phase::Accepts(last).time(rt, alloc, second, plan)?;
    rehash(rt, alloc, first)?;
    rehash(rt, alloc, second)?;
    run_turns(rt, alloc, plan, first, second, &mut paces)?;
    Ok(paces)
}

/// Prints the number of each call, and the figures on standard error.
fn tell(rt: &(impl Print + Eprint), paces: &Paces) -> io::Result<()> {
    println!(rt;
        "{} put, {} got, {} put again, {} accepted, {} turns",
        paces.puts.calls,
        paces.gets.calls,
        paces.rewrites.calls,
        paces.accepts.calls,
        paces.syncs.calls
    )?;
    eprintln!(rt;
        "{{\"puts_per_s\":{},\"gets_per_s\":{},\"rewrites_per_s\":{},\"accepts_per_s\":{},\
         \"put_after_snapshot_per_s\":{},\"rehash_after_put_per_s\":{},\"snapshots_per_s\":{},\
         \"sync_one_key_per_s\":{}}}",
        paces.puts.a_second(),
        paces.gets.a_second(),
        paces.rewrites.a_second(),
        paces.accepts.a_second(),
        paces.puts_after_snapshot.a_second(),
        paces.rehashes.a_second(),
        paces.snapshots.a_second(),
        paces.syncs.a_second()
    )
}
