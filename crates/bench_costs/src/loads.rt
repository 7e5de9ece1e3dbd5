//! Puts at a pace alongside a worker that makes snapshots, and the time that each takes. Standard output has a summary.
pub(crate) mod plan;
mod ranges;
mod snapshots;
mod writer;

use crate::fault::Fault;
use plan::LoadPlan;
use ranges::{Done, run_load};
use std::io;
use std::sync::Wait;
use std::thread::Threads;
use std::time::Clock;

/// Runs a load, and reports it. Returns true.
pub(crate) fn run<R: Threads + Wait + Clock + Print + Eprint + AllocGlobal + Sync>(
    rt: &R,
    plan: LoadPlan,
) -> Result<bool, Fault> {
    let done = run_load(rt, rt.alloc(), &plan)?;
    tell(rt, &plan, &done)?;
    Ok(true)
}

/// Prints a summary, and the figures on standard error.
fn tell(rt: &(impl Print + Eprint), plan: &LoadPlan, done: &Done) -> io::Result<()> {
    let Done {
        alone,
        whole,
        puts,
        snapshots,
    } = done;
    let count = puts.len() as u128;
    println!(rt; "keys {}, puts {count}", plan.keys)?;
    eprintln!(rt;
        "{{\"alone_ms\":{},\"snapshots\":{},\"snapshot_ms\":{},\"longest_ms\":{},\"puts_per_s\":{},\
         \"put_p9999_us\":{},\"longest_put_us\":{}}}",
        alone.as_millis(),
        snapshots.len(),
        snapshots.at(5_000) / 1_000_000,
        snapshots.at(10_000) / 1_000_000,
        count.saturating_mul(1_000_000_000) / whole.as_nanos().max(1),
        puts.at(9_999) / 1_000,
        puts.at(10_000) / 1_000
    )
}
