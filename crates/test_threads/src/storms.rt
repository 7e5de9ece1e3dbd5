//! Storms, and gates that make their threads meet.
ghost use Rattle.std.specs.Prelude.{◌≤◌};

use ring_node::{Gate, OpenGate, Step};
use std::alloc::Global;
use std::sync::Wait;
use std::sync::atomic::{AtomicU64, Ordering};
use std::test::Fail;
use std::thread;
use std::thread::Threads;
use storm::{PUTS_MAX, Tallies, run_storm};
use test_values::checks::expect;

/// The maximum number of times that a thread checks if it may continue.
const LOOKS_MAX: u64 = 10_000_000;

/// The minimum number of puts of each writer before it is held.
const EARLY_PUTS: u64 = 1_000;

/// The number of rounds of a rehash worker.
const ROUNDS: u64 = 100;

/// Runs a storm of this number of puts at each node, and expects that it settles.
fn expect_settled<R: Threads + Wait + Sync, G: Gate + Sync>(
    rt: &R,
    alloc: Global,
    puts: u64,
    gate: &G,
    tallies: &Tallies,
) -> Result<(), Fail>
    requires { puts ≤ PUTS_MAX }
{
    let end = run_storm(rt, alloc, puts, gate, tallies)?;
    expect(end.puts == 2 * puts, "each put is counted")?;
    expect(
        end.equal && end.settled,
        "both nodes agree, and their passes with them",
    )
}

#[test]
fn a_storm_of_two_puts_settles(rt: HostRuntime) -> Result<(), Fail> {
    expect_settled(&rt, rt.alloc(), 1, &OpenGate, &Tallies::new())
}

/// A gate that holds each rehash worker with a job until some put has passed, and each writer after its first put until
/// some rehash worker has a job.
#[derive(Drop)]
struct Overlap {
    puts: AtomicU64,
    jobs: AtomicU64,
    gave_up: AtomicU64,
}

impl Overlap {
    /// Waits until the word is set, or gives up.
    fn wait_for(&self, word: &AtomicU64) {
        for _ in 0..LOOKS_MAX {
            if word.load(Ordering::SeqCst) > 0 {
                return;
            }
            thread::yield_now();
        }
        self.gave_up.store(1, Ordering::SeqCst);
    }
}

impl Gate for Overlap {
    fn pass<R: Wait>(&self, _rt: &R, step: Step) {
        match step {
            Step::Taken => {
                self.jobs.store(1, Ordering::SeqCst);
                self.wait_for(&self.puts);
            }
            Step::Put => {
                self.puts.store(1, Ordering::SeqCst);
                self.wait_for(&self.jobs);
            }
            Step::Hashed | Step::Round | Step::Written | Step::Read => {}
        }
    }
}

#[test]
fn a_storm_overlaps(rt: HostRuntime) -> Result<(), Fail> {
    let gate = Overlap {
        puts: AtomicU64::new(0),
        jobs: AtomicU64::new(0),
        gave_up: AtomicU64::new(0),
    };
    expect_settled(&rt, rt.alloc(), 100, &gate, &Tallies::new())?;
    expect(
        gate.gave_up.load(Ordering::SeqCst) == 0,
        "no thread waits in vain",
    )
}

/// A gate with which each rehash worker makes a late digest, and each sync worker finishes a session, while both
/// writers have more to write.
///
/// Each rehash worker is held with its first job, for the first leaf, until both writers are held, after 1,000 puts
/// each. Each writer is held until both nodes have finished a session. Each sync worker is held before its first round
/// until both rehash workers have done all of theirs, so that both trees are clean.
#[derive(Drop)]
struct Meeting<'a> {
    tallies: &'a Tallies,
    jobs: AtomicU64,
    held: AtomicU64,
    gave_up: AtomicU64,
}

impl<'a> Meeting<'a> {
    /// Returns true if both rehash workers have done all their rounds.
    fn is_rehashed<R: Wait>(&self, rt: &R) -> bool {
        let (one, two) = (self.tallies.one.look(rt), self.tallies.two.look(rt));
        one.published >= ROUNDS && two.published >= ROUNDS
    }

    /// Returns true if both writers have done enough puts to be held.
    fn is_time<R: Wait>(&self, rt: &R) -> bool {
        let (one, two) = (self.tallies.one.look(rt), self.tallies.two.look(rt));
        one.puts >= EARLY_PUTS && two.puts >= EARLY_PUTS
    }

    /// Returns true if both nodes have finished a session.
    fn is_synced<R: Wait>(&self, rt: &R) -> bool {
        let (one, two) = (self.tallies.one.look(rt), self.tallies.two.look(rt));
        one.syncs >= 1 && two.syncs >= 1
    }

    /// Waits until the word is at least that number, or gives up.
    fn wait_for(&self, word: &AtomicU64, least: u64) {
        for _ in 0..LOOKS_MAX {
            if word.load(Ordering::SeqCst) >= least {
                return;
            }
            thread::yield_now();
        }
        self.gave_up.store(1, Ordering::SeqCst);
    }

    /// Holds a writer until both nodes have finished a session, or gives up.
    fn hold_writer<R: Wait>(&self, rt: &R) {
        self.held.fetch_add(1, Ordering::SeqCst);
        for _ in 0..LOOKS_MAX {
            if self.is_synced(rt) {
                return;
            }
            thread::yield_now();
        }
        self.gave_up.store(1, Ordering::SeqCst);
    }

    /// Holds a sync worker until both rehash workers have ended, or gives up.
    fn hold_syncer<R: Wait>(&self, rt: &R) {
        for _ in 0..LOOKS_MAX {
            if self.is_rehashed(rt) {
                return;
            }
            thread::yield_now();
        }
        self.gave_up.store(1, Ordering::SeqCst);
    }
}

impl<'a> Gate for Meeting<'a> {
    fn pass<R: Wait>(&self, rt: &R, step: Step) {
        match step {
            Step::Taken => {
                self.jobs.fetch_add(1, Ordering::SeqCst);
                self.wait_for(&self.held, 2);
            }
            Step::Put => {
                self.wait_for(&self.jobs, 2);
                if self.is_time(rt) && !self.is_synced(rt) {
                    self.hold_writer(rt);
                }
            }
            Step::Round => self.hold_syncer(rt),
            Step::Hashed | Step::Written | Step::Read => {}
        }
    }
}

#[test]
fn each_node_syncs_while_writers_write(rt: HostRuntime) -> Result<(), Fail> {
    let tallies = Tallies::new();
    let gate = Meeting {
        tallies: &tallies,
        jobs: AtomicU64::new(0),
        held: AtomicU64::new(0),
        gave_up: AtomicU64::new(0),
    };
    expect_settled(&rt, rt.alloc(), 10_000, &gate, &tallies)?;
    expect(
        gate.gave_up.load(Ordering::SeqCst) == 0,
        "no thread waits in vain",
    )?;
    for tally in [tallies.one.look(&rt), tallies.two.look(&rt)] {
        expect(tally.stale >= 1, "a digest is too late")?;
        expect(tally.syncs >= 1, "a session is finished")?;
        expect(tally.puts == 10_000, "each put is counted")?;
    }
    Ok(())
}
