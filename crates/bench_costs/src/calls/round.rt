//! The version of each key that is written.
use std::alloc::Global;
use vclock::{Clock, Refusal};

/// The version of each key that is written, at node 1.
#[derive(Clone, Copy, PartialEq, Eq)]
pub(crate) enum Round {
    /// The first.
    First,
    /// The second, which replaces the first.
    Second,
}

impl Round {
    /// Returns the context of its puts: the clock that was read. Refused: NoMemory.
    pub(crate) fn context(self, alloc: Global) -> Result<Clock, Refusal> {
        match self {
            Round::First => Clock::from_pairs(alloc, &[]),
            Round::Second => Round::First.clock(alloc),
        }
    }

    /// Returns the clock of its versions. Refused: NoMemory.
    pub(crate) fn clock(self, alloc: Global) -> Result<Clock, Refusal> {
        match self {
            Round::First => Clock::from_pairs(alloc, &[(1, 1)]),
            Round::Second => Clock::from_pairs(alloc, &[(1, 2)]),
        }
    }

    /// Returns the number of a key's value, by the number of the key and the number of keys.
    pub(crate) fn value_number(self, number: u64, keys: u64) -> u64 {
        match self {
            Round::First => number,
            Round::Second => keys.wrapping_add(number),
        }
    }
}
