//! Tallies of a storm's threads.
ghost use Rattle.std.specs.Prelude.{◌≡◌};

use ring_node::{RehashReport, SyncReport};
use std::sync::{Mutex, Wait};
use sync_session::SessionState;

/// The work of a node's threads so far. The counts stop at 2^64 - 1.
#[derive(Clone, Copy, Debug, PartialEq, Eq)]
pub struct Tally {
    /// The number of puts.
    pub puts: u64,
    /// The number of digests that were installed.
    pub installed: u64,
    /// The number of digests that were too late.
    pub stale: u64,
    /// The number of snapshots that were published.
    pub published: u64,
    /// The number of sessions that were finished.
    pub syncs: u64,
    /// The number of versions that the sessions journaled.
    pub taken: u64,
}

impl Tally {
    /// Returns the tally of a node that has done nothing.
    fn nothing() -> Tally
        ensures work { (result.puts ≡ 0) × (result.installed ≡ 0) × (result.stale ≡ 0) }
        ensures syncs { (result.published ≡ 0) × (result.syncs ≡ 0) × (result.taken ≡ 0) }
    {
        Tally {
            puts: 0,
            installed: 0,
            stale: 0,
            published: 0,
            syncs: 0,
            taken: 0,
        }
    }
}

/// A tally that threads share.
#[derive(Drop)]
pub struct SharedTally {
    tally: Mutex<Tally>,
}

/// The tallies of both nodes of a storm.
#[derive(Drop)]
pub struct Tallies {
    /// The tally of node 1.
    pub one: SharedTally,
    /// The tally of node 2.
    pub two: SharedTally,
}

impl Tallies {
    /// Returns tallies of zero.
    pub fn new() -> Tallies {
        Tallies {
            one: SharedTally::new(),
            two: SharedTally::new(),
        }
    }
}

impl SharedTally {
    /// Returns a tally of zero.
    fn new() -> SharedTally {
        SharedTally {
            tally: Mutex::new(Tally::nothing()),
        }
    }

    /// Returns the tally at this moment.
    pub fn look<R: Wait>(&self, rt: &R) -> Tally {
        *self.tally.lock(rt)
    }

    /// Counts a put.
    pub(crate) fn count_put<R: Wait>(&self, rt: &R) {
        let mut tally = self.tally.lock(rt);
        tally.puts = tally.puts.saturating_add(1);
    }

    /// Counts the digests of a rehash worker.
    pub(crate) fn count_rehash<R: Wait>(&self, rt: &R, report: &RehashReport) {
        let mut tally = self.tally.lock(rt);
        tally.installed = tally.installed.saturating_add(report.installed);
        tally.stale = tally.stale.saturating_add(report.stale);
    }

    /// Counts a snapshot.
    pub(crate) fn count_snapshot<R: Wait>(&self, rt: &R) {
        let mut tally = self.tally.lock(rt);
        tally.published = tally.published.saturating_add(1);
    }

    /// Counts the session of a sync worker.
    pub(crate) fn count_sync<R: Wait>(&self, rt: &R, report: &SyncReport) {
        let mut tally = self.tally.lock(rt);
        if report.state == SessionState::Finished {
            tally.syncs = tally.syncs.saturating_add(1);
        }
        tally.taken = tally.taken.saturating_add(report.accepted);
    }
}
