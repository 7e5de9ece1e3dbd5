//! Runs lists of random steps on three nodes, with their real workers, in one thread. At each point of a rehash worker,
//! before each call of a sync worker's link, and before a load takes its lock, the gate may take the next steps of the
//! list, three deep. Each list is one interleaving of whole nodes, which its seed repeats. At the end the nodes are
//! closed, and each takes from the next one by an exchange with random events; some nodes are renewed alongside. All
//! results and states are compared with a plain program written from the definitions.
//!
//! The arguments are the seed of the first list, the number of lists, and the number of steps of a list. The defaults
//! are 0, 1,000 and 60.
#![tactic(auto)]

mod book;
mod catch_ups;
mod deliveries;
mod exchanges;
mod failures;
mod forger;
mod inner;
mod lies;
mod lists;
mod loads;
mod mirror;
mod moments;
mod node;
mod outlines;
mod pairs;
mod partner;
mod points;
mod ranges;
mod rehashes;
mod renewals;
mod schedule;
mod slots;
mod steps;
mod syncs;
mod tally;
mod trial;
mod walking;
mod world;

use std::env::Env;
use std::process::ExitCode;
use std::sync::Wait;
use std::{env, io};
use tally::Tally;

/// The usage line.
const USAGE: &str = "usage: random_nodes [SEED LISTS STEPS]";

/// The lists to run.
#[derive(Clone, Copy)]
struct Run {
    /// The seed of the first list. The seeds of the others follow.
    seed: u64,
    /// The number of lists.
    lists: u64,
    /// The number of steps of each list.
    steps: u64,
}

fn main(rt: HostRuntime) -> ExitCode {
    let Some(run) = read_words(&rt) else {
        let _ = eprintln!(rt; "{USAGE}");
        return ExitCode::from(2);
    };
    match run_lists(&rt, run) {
        Ok(true) => ExitCode::SUCCESS,
        Ok(false) | Err(_) => ExitCode::FAILURE,
    }
}

/// Reads the arguments.
fn read_words(rt: &(impl Env + AllocGlobal)) -> Option<Run> {
    let words: Vec<String> = env::args(rt).ok()?.collect(rt.alloc()).ok()?;
    match words.as_slice() {
        [_] => Some(Run {
            seed: 0,
            lists: 1_000,
            steps: 60,
        }),
        [_, seed, lists, steps] => Some(Run {
            seed: seed.parse::<u64>().ok()?,
            lists: lists.parse::<u64>().ok()?,
            steps: steps.parse::<u64>().ok()?,
        }),
        _ => None,
    }
}

/// Runs lists up to the first one with a difference. Returns true if no list has one.
fn run_lists<R>(rt: &R, run: Run) -> io::Result<bool>
where
    R: Print + Eprint + AllocGlobal + Wait,
{
    let mut tally = Tally::new();
    for number in 0..run.lists {
        if !lists::run_list(rt, run.seed.wrapping_add(number), run.steps, &mut tally) {
            return Ok(false);
        }
    }
    println!(rt; "{} lists, {tally}, no differences", run.lists)?;
    Ok(true)
}
