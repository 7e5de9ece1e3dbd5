//! Random versions, and limits of journals.
ghost use Rattle.std.specs.Prelude.{◌<◌, ◌≤◌};
ghost use Rattle.plain_model.specs.declared.draws.TheConstants.{LAST};

use crate::plain::{NODES, PlainVersion};
use crate::random::Random;
use version_set::Kind;

/// The maximum number of a crowd's version.
pub const LAST: u64 = 79;

impl Random {
    /// Returns the limit of a journal: a small one with probability 1 in `times`, otherwise more entries than a list
    /// makes.
    pub fn limit(&mut self, times: u64) -> u64
        requires { 0 < times }
    {
        if self.once_in(times) {
            2 + self.below(8)
        } else {
            1_000
        }
    }

    /// Returns a clock of small counters, rarely with the maximum counter.
    fn counters(&mut self) -> [u64; NODES] {
        let mut counters = [0; NODES];
        for i in 0..NODES {
            counters[i] = if self.once_in(2) { 0 } else { self.below(4) };
            if self.once_in(100) {
                counters[i] = u64::MAX;
            }
        }
        counters
    }

    /// Returns a version with such a clock. One in eight is a tombstone, which rarely has a value.
    pub fn version(&mut self) -> PlainVersion {
        let counters = self.counters();
        let (kind, has_value) = if self.once_in(8) {
            (Kind::Tombstone, self.once_in(8))
        } else {
            (Kind::Live, !self.once_in(8))
        };
        let letter = if self.once_in(2) { b'x' } else { b'y' };
        PlainVersion {
            counters,
            kind,
            value: if has_value { Some(letter) } else { None },
        }
    }
}

/// Returns a version of the crowd by its number, at most `LAST`. None is below another.
pub fn crowd_version(number: u64) -> PlainVersion
    requires { number ≤ LAST }
{
    PlainVersion {
        counters: [number, LAST - number, 0, 0],
        kind: Kind::Live,
        value: Some(b'x'),
    }
}
