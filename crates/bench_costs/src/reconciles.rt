//! Two replicas of a range that reconcile, turn by turn. Standard output has the numbers of nodes asked and of versions
//! accepted, of both replicas and all turns. The figures are the number of leaves that differed in all turns, and the
//! time that the calls of `reconcile` took.
mod pair;

use crate::fault::Fault;
use pair::Pair;
use range_state::Reconciled;
use std::alloc::Global;
use std::io;
use std::thread::Threads;
use std::time::{Clock, Duration, Instant};

/// The plan of the turns.
#[derive(Clone, Copy)]
pub(crate) struct ReconcilePlan {
    /// The number of keys that both ranges have at first.
    keys: u64,
    /// The number of keys that each gets in a turn and the other doesn't have.
    differ: u64,
    /// The number of turns.
    turns: u64,
}

/// The counts of all turns.
#[derive(Clone, Copy, Default)]
struct Done {
    /// The number of leaves that differed.
    leaves: u64,
    /// The number of nodes that both asked.
    asked: u64,
    /// The number of versions that both accepted.
    accepted: u64,
    /// The time that the calls took, in nanoseconds.
    nanos: u128,
}

impl ReconcilePlan {
    /// Returns the plan from these arguments, or `None` if they aren't three numbers.
    pub(crate) fn of_words(words: &[String]) -> Option<ReconcilePlan> {
        let [keys, differ, turns] = words else {
            return None;
        };
        Some(ReconcilePlan {
            keys: keys.parse::<u64>().ok()?,
            differ: differ.parse::<u64>().ok()?,
            turns: turns.parse::<u64>().ok()?,
        })
    }
}

/// Does all turns, and reports them.
pub(crate) fn run<R: Threads + Clock + Print + Eprint + AllocGlobal + Sync>(
    rt: &R,
    plan: ReconcilePlan,
) -> Result<bool, Fault> {
    tell(rt, &do_turns(rt, rt.alloc(), plan)?)?;
    Ok(true)
}

/// Makes the pair, and does all turns.
fn do_turns(
    rt: &(impl Threads + Clock + Sync),
    alloc: Global,
    plan: ReconcilePlan,
) -> Result<Done, Fault> {
    let mut pair = Pair::new(alloc, plan.keys)?;
    let mut done = Done::default();
    for _ in 0..plan.turns {
        pair.part(rt, alloc, plan.differ)?;
        let from = Instant::now(rt)?;
        let report = pair.reconcile(alloc)?;
        done.count(&report, Instant::now(rt)?.duration_since(from));
        done.leaves = done.leaves.wrapping_add(pair.leaves());
    }
    Ok(done)
}

/// Prints the counts of the turns.
fn tell(rt: &(impl Print + Eprint), done: &Done) -> io::Result<()> {
    println!(rt; "{} asked, {} accepted", done.asked, done.accepted)?;
    eprintln!(rt;
        "{{\"leaves\":{},\"reconciled_ns\":{}}}",
        done.leaves, done.nanos
    )
}

impl Done {
    /// Adds a turn.
    fn count(&mut self, report: &Reconciled, took: Duration) {
        for asked in [report.asked_a, report.asked_b] {
            self.asked = self.asked.wrapping_add(asked);
        }
        for accepted in [report.accepted_a, report.accepted_b] {
            self.accepted = self.accepted.wrapping_add(accepted);
        }
        self.nanos = self.nanos.wrapping_add(took.as_nanos());
    }
}
