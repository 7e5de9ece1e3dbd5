//! A store of two nodes, to read and to copy: a program that uses these crates in the order of its days.
//! `docs/EMBEDDING.md` goes through it.
//!
//! The ring has two ranges, and both nodes keep each of them. Each range has its days, with its ledgers.
#![tactic(auto)]

mod checkpoint;
mod client;
mod closing;
mod days;
mod fault;
mod handoff;
mod links;
mod replica;
mod rounds;
mod routes;
mod slots;
mod store;

use days::run_days;
use fault::Fault;
use key_ring::Ring;
use std::alloc::Global;
use std::process::ExitCode;
use std::sync::Wait;
use std::thread::Threads;

fn main(rt: HostRuntime) -> ExitCode {
    match run(&rt, rt.alloc()) {
        Ok(()) => ExitCode::SUCCESS,
        Err(fault) => {
            let _ = eprintln!(rt; "example_store: {fault}");
            ExitCode::FAILURE
        }
    }
}

/// Runs the days of each range.
fn run<R: Threads + Wait + Print + Sync>(rt: &R, alloc: Global) -> Result<(), Fault> {
    let ring = Ring::new(alloc, 1, &[1, 2], 2)?;
    for range in 0..ring.ranges() {
        run_days(rt, alloc, &ring, range)?;
    }
    Ok(())
}
