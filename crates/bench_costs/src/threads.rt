//! Threads that put keys into ranges that they share, and get them, and the numbers of puts and gets done in a second.
//
/// All threads write one range, or each writes a range of its own. Each has its part of the keys. It puts all of them
/// once all threads have reached this phase, then gets all of them once all threads have reached the second phase. A
/// phase lasts from the first start to the last end. Standard output says whether the ranges were closed.
mod calls;
pub(crate) mod plan;
pub(crate) mod ranges;
mod spans;
mod start;

use crate::fault::Fault;
use plan::ThreadPlan;
use ranges::{Done, run_plan};
use spans::Span;
use std::io;
use std::sync::Wait;
use std::thread::Threads;
use std::time::Clock;

/// Runs all threads of a plan, and reports them. Returns true if the ranges were closed.
pub(crate) fn run<R: Threads + Wait + Clock + Print + Eprint + AllocGlobal + Sync>(
    rt: &R,
    plan: ThreadPlan,
) -> Result<bool, Fault> {
    let done = run_plan(rt, rt.alloc(), &plan)?;
    tell(rt, &plan, &done)?;
    Ok(done.closed)
}

/// Prints a summary that says whether the ranges were closed, and the figures on standard error.
fn tell(rt: &(impl Print + Eprint), plan: &ThreadPlan, done: &Done) -> io::Result<()> {
    let closed = if done.closed { "closed" } else { "not closed" };
    let ThreadPlan { keys, threads, .. } = *plan;
    println!(rt;
        "keys {keys}, threads {threads}, ranges {}, {closed}",
        plan.ranges()
    )?;
    eprintln!(rt;
        "{{\"puts_per_s\":{},\"gets_per_s\":{},\"close_ms\":{}}}",
        a_second(keys, done.spans.puts),
        a_second(keys, done.spans.gets),
        done.closing.length().as_millis()
    )
}

/// Returns the number of calls done in a second. A time of zero counts as a nanosecond.
fn a_second(calls: u64, span: Span) -> u128 {
    u128::from(calls) * 1_000_000_000 / span.length().as_nanos().max(1)
}
