//! The progress of a storm, on standard error.
ghost use Rattle.std.specs.Prelude.{◌≤◌};

use ring_node::{Gate, Step};
use std::sync::{Mutex, Wait};
use storm::{Tallies, Tally};

/// The maximum number of progress lines of a storm, for each of its two writers.
const TELLINGS: u64 = 10;

/// A gate that holds no worker, and prints the progress of the storm on standard error, at most twenty times.
#[derive(Drop)]
pub(crate) struct Teller<'a, R: Eprint> {
    rt: &'a R,
    tallies: &'a Tallies,
    passed: Mutex<u64>,
    every: u64,
    ghost positive: { 1 ≤ every },
}

impl<'a, R: Eprint> Teller<'a, R> {
    /// Makes a gate for a storm of `puts` puts at each node.
    pub(crate) fn new(rt: &'a R, tallies: &'a Tallies, puts: u64) -> Teller<'a, R> {
        Teller {
            rt,
            tallies,
            passed: Mutex::new(0),
            every: puts.div_ceil(TELLINGS).max(1),
        }
    }

    /// Counts a put, and returns the number of puts so far.
    fn count<W: Wait>(&self, rt: &W) -> u64 {
        let mut passed = self.passed.lock(rt);
        *passed = (*passed).wrapping_add(1);
        *passed
    }

    /// Prints the tallies of both nodes at the end of the storm.
    pub(crate) fn tell_end<W: Wait>(&self, rt: &W) {
        self.tell(
            "in the end: ",
            self.tallies.one.look(rt),
            self.tallies.two.look(rt),
        );
    }

    /// Prints the tallies of both nodes. A storm continues even if the line can't be written.
    fn tell(&self, when: &str, one: Tally, two: Tally) {
        let _ = eprintln!(self.rt;
            "{when}puts {} and {}, digests {} and {}, stale {} and {}, snapshots {} and {}, syncs {} and {}, \
             entries taken {} and {}",
            one.puts,
            two.puts,
            one.installed,
            two.installed,
            one.stale,
            two.stale,
            one.published,
            two.published,
            one.syncs,
            two.syncs,
            one.taken,
            two.taken
        );
    }
}

impl<'a, R: Eprint> Gate for Teller<'a, R> {
    fn pass<W: Wait>(&self, rt: &W, step: Step) {
        if step != Step::Put {
            return;
        }
        if self.count(rt) % self.every == 0 {
            self.tell("", self.tallies.one.look(rt), self.tallies.two.look(rt));
        }
    }
}
