//! A storm, and the time that its puts took. Standard output has the end of the storm.
mod latencies;
mod watch;

use crate::fault::Fault;
use crate::times::Times;
use std::alloc::Global;
use std::io;
use std::sync::Wait;
use std::thread::Threads;
use std::time::{Clock, Duration, Instant};
use storm::{PUTS_MAX, StormEnd, Tallies, run_storm};
use watch::Watch;

/// The time when the rehash and sync workers run.
#[derive(Clone, Copy, PartialEq, Eq)]
enum Workers {
    /// While the writers run.
    Beside,
    /// After both writers have ended.
    Afterwards,
}

/// The plan of a storm.
#[derive(Clone, Copy)]
pub(crate) struct StormPlan {
    /// The number of puts of each writer, 1 to 10,000.
    puts: u64,
    /// The time when the workers run.
    workers: Workers,
}

impl StormPlan {
    /// Returns the plan from these arguments, or `None` if they are invalid: the number of puts, and `beside` if the
    /// workers run while the writers do, or `alone` if they wait until both writers have ended.
    pub(crate) fn of_words(words: &[String]) -> Option<StormPlan> {
        let [puts, workers] = words else {
            return None;
        };
        let puts = puts.parse::<u64>().ok()?;
        let workers = Workers::of_word(workers)?;
        if 1 <= puts && puts <= PUTS_MAX {
            Some(StormPlan { puts, workers })
        } else {
            None
        }
    }
}

impl Workers {
    /// Returns the time named by an argument.
    fn of_word(word: &str) -> Option<Workers> {
        match word {
            "beside" => Some(Workers::Beside),
            "alone" => Some(Workers::Afterwards),
            _ => None,
        }
    }
}

/// Runs the storm, and reports it. Returns true if both nodes agree and both ranges are settled.
pub(crate) fn run<R: Threads + Wait + Clock + Print + Eprint + AllocGlobal + Sync>(
    rt: &R,
    plan: StormPlan,
) -> Result<bool, Fault> {
    let tallies = Tallies::new();
    let watch = Watch::new(rt.alloc(), rt, &tallies, plan)?;
    let (end, took) = time_storm(rt, rt.alloc(), plan, &watch, &tallies)?;
    tell_end(rt, &end)?;
    tell_figures(rt, took, &watch.into_times(), &tallies)?;
    Ok(end.equal && end.settled)
}

/// Runs the storm, and returns its end and the time that it took.
fn time_storm<R: Threads + Wait + Clock + Sync>(
    rt: &R,
    alloc: Global,
    plan: StormPlan,
    watch: &Watch<'_, R>,
    tallies: &Tallies,
) -> Result<(StormEnd, Duration), Fault> {
    let start = Instant::now(rt)?;
    let end = run_storm(rt, alloc, plan.puts.min(PUTS_MAX), watch, tallies)?;
    Ok((end, start.elapsed(rt)?))
}

/// Prints the end of the storm.
fn tell_end(rt: &impl Print, end: &StormEnd) -> io::Result<()> {
    let roots = if end.equal { "equal" } else { "differ" };
    let settled = if end.settled { "settled" } else { "unsettled" };
    println!(rt; "puts {}, roots {roots}, {settled}", end.puts)
}

/// Prints the figures. The counts are the workers' tallies, with the last rehashes and syncs.
fn tell_figures<R: Eprint + Wait>(
    rt: &R,
    took: Duration,
    puts: &Times,
    tallies: &Tallies,
) -> io::Result<()> {
    let (one, two) = (tallies.one.look(rt), tallies.two.look(rt));
    eprintln!(rt;
        "{{\"wall_ms\":{},\"put_p50_ns\":{},\"put_p99_ns\":{},\"syncs\":{},\"stale\":{},\"installed\":{},\
         \"published\":{},\"taken\":{}}}",
        took.as_millis(),
        puts.at(5_000),
        puts.at(9_900),
        one.syncs.saturating_add(two.syncs),
        one.stale.saturating_add(two.stale),
        one.installed.saturating_add(two.installed),
        one.published.saturating_add(two.published),
        one.taken.saturating_add(two.taken)
    )
}
