//! The measurements of `bench/`, one for each first argument. Most have a plain Rust program to compare with.
//!
//! - `snapshots KEYS COUNT` makes a range of KEYS keys, then COUNT snapshots of it in turn; `snapshots KEYS migrate`
//!   migrates it to format 2 (`bench/snapshot`).
//! - `reconciles KEYS DIFFER TURNS` makes two replicas with the same KEYS keys. In each turn it gives each replica
//!   DIFFER keys that the other doesn't have, and reconciles them (`bench/reconcile`).
//! - `calls [KEYS [KEY_BYTES VALUE_BYTES [FORMAT]]]` makes the calls of a range in one thread (`bench/calls`).
//! - `threads KEYS THREADS one|each [KEY_BYTES VALUE_BYTES [FORMAT]]` puts keys into ranges that threads share, and
//!   gets them (`bench/threads`).
//! - `storms PUTS beside|alone` runs a storm (`bench/storm`).
//! - `loads KEYS PUTS_PER_S SECONDS nothing|moments|rounds [KEY_BYTES VALUE_BYTES [FORMAT]]` puts keys at a pace
//!   alongside a worker that makes snapshots (`bench/load`).
//!
//! KEY_BYTES is 0 to 255. Keys of 0 bytes, the default, are `key-N`. Others have at least 13 bytes and are in no order:
//! `user:` and 16 hexadecimal digits, cut or filled up with `z`. VALUE_BYTES is 32 by default, and at most 4,096, or
//! 65,536 in format 2. FORMAT is 1 by default.
//!
//! Standard output has a summary. The figures, except for snapshots, are a line of JSON on standard error.
#![tactic(auto)]

mod calls;
mod entries;
mod fault;
mod loads;
mod ranges;
mod reconciles;
mod snapshots;
mod storms;
mod threads;
mod times;

use calls::plan::CallPlan;
use fault::Fault;
use loads::plan::LoadPlan;
use reconciles::ReconcilePlan;
use snapshots::SnapshotPlan;
use std::env;
use std::env::Env;
use std::process::ExitCode;
use std::sync::Wait;
use std::thread::Threads;
use std::time::Clock;
use storms::StormPlan;
use threads::plan::ThreadPlan;

/// The usage lines.
const USAGE: &str =
    "usage: bench_costs snapshots KEYS COUNT|migrate\n       bench_costs reconciles KEYS DIFFER TURNS\n       \
                     bench_costs calls [KEYS [KEY_BYTES VALUE_BYTES [FORMAT]]]\n       \
                     bench_costs threads KEYS THREADS one|each [KEY_BYTES VALUE_BYTES [FORMAT]]\n       \
                     bench_costs storms PUTS beside|alone\n       \
                     bench_costs loads KEYS PUTS_PER_S SECONDS nothing|moments|rounds [KEY_BYTES VALUE_BYTES [FORMAT]]";

/// A measurement.
#[derive(Clone, Copy)]
enum Measure {
    Snapshots(SnapshotPlan),
    Reconciles(ReconcilePlan),
    Calls(CallPlan),
    Threads(ThreadPlan),
    Storms(StormPlan),
    Loads(LoadPlan),
}

fn main(rt: HostRuntime) -> ExitCode {
    let Some(measure) = read_words(&rt) else {
        let _ = eprintln!(rt; "{USAGE}");
        return ExitCode::from(2);
    };
    match measure.run(&rt) {
        Ok(true) => ExitCode::SUCCESS,
        Ok(false) => ExitCode::FAILURE,
        Err(fault) => {
            let _ = eprintln!(rt; "bench_costs: {fault}");
            ExitCode::FAILURE
        }
    }
}

/// Reads the arguments. Returns `None` if they don't name a measurement.
fn read_words(rt: &(impl Env + AllocGlobal)) -> Option<Measure> {
    let words: Vec<String> = env::args(rt).ok()?.collect(rt.alloc()).ok()?;
    let [_, name, words @ ..] = words.as_slice() else {
        return None;
    };
    match name.as_str() {
        "snapshots" => Some(Measure::Snapshots(SnapshotPlan::of_words(words)?)),
        "reconciles" => Some(Measure::Reconciles(ReconcilePlan::of_words(words)?)),
        "calls" => Some(Measure::Calls(CallPlan::of_words(words)?)),
        "threads" => Some(Measure::Threads(ThreadPlan::of_words(words)?)),
        "storms" => Some(Measure::Storms(StormPlan::of_words(words)?)),
        "loads" => Some(Measure::Loads(LoadPlan::of_words(words)?)),
        _ => None,
    }
}

impl Measure {
    /// Takes the measurement, and prints a summary. Returns true if it ended as expected.
    fn run<R: Threads + Wait + Clock + Print + Eprint + AllocGlobal + Sync>(
        self,
        rt: &R,
    ) -> Result<bool, Fault> {
        match self {
            Measure::Snapshots(plan) => snapshots::run(rt, plan),
            Measure::Reconciles(plan) => reconciles::run(rt, plan),
            Measure::Calls(plan) => calls::run(rt, plan),
            Measure::Threads(plan) => threads::run(rt, plan),
            Measure::Storms(plan) => storms::run(rt, plan),
            Measure::Loads(plan) => loads::run(rt, plan),
        }
    }
}
