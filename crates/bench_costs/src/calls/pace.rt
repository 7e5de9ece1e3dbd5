//! The pace of calls.
use std::time::Duration;

/// A number of calls, and their total time in nanoseconds.
#[derive(Clone, Copy, Default)]
pub(crate) struct Pace {
    pub(crate) calls: u64,
    nanos: u128,
}

/// The pace of each call. A call that wasn't made has a pace of 0 calls.
#[derive(Clone, Copy, Default)]
pub(crate) struct Paces {
    /// Puts of new keys.
    pub(crate) puts: Pace,
    /// Gets of these keys.
    pub(crate) gets: Pace,
    /// Puts of these keys with the context that was read.
    pub(crate) rewrites: Pace,
    /// Versions that another replica took as copies.
    pub(crate) accepts: Pace,
    /// Puts of a new key while a snapshot shares its leaf.
    pub(crate) puts_after_snapshot: Pace,
    /// Rehashes of the leaf of one key and of the nodes above it.
    pub(crate) rehashes: Pace,
    /// Snapshots.
    pub(crate) snapshots: Pace,
    /// Syncs by which another replica took one key.
    pub(crate) syncs: Pace,
}

impl Pace {
    /// Returns the pace of a number of calls, from their total time.
    pub(crate) fn new(calls: u64, took: Duration) -> Pace {
        Pace {
            calls,
            nanos: took.as_nanos(),
        }
    }

    /// Adds a call that took this time.
    pub(crate) fn add(&mut self, took: Duration) {
        self.calls = self.calls.saturating_add(1);
        self.nanos = self.nanos.wrapping_add(took.as_nanos());
    }

    /// Returns the number of calls done in a second. A time of zero counts as a nanosecond.
    pub(crate) fn a_second(&self) -> u128 {
        u128::from(self.calls) * 1_000_000_000 / self.nanos.max(1)
    }
}
