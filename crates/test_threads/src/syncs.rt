//! Sync workers whose partners send true texts.

use crate::calls::publish;
use crate::nodes::{Node, TURNS};
use crate::outcomes::{Outcome, finished};
use crate::partners::{Row, pool_of, snapshot_of};
use crate::runs::{NodeTest, run_node};
use range_state::RangeState;
use ring_node::{Link, MemoryLink, OfferPool, Reached};
use snapshot::Snapshot;
use std::alloc::Global;
use std::sync::ledger::Ledger;
use std::sync::{Arc, Wait};
use std::test::Fail;
use std::thread::Threads;
use sync_session::SessionState;
use vclock::Refusal;

/// A sync with a partner that sends true texts.
#[derive(Clone, Copy)]
struct Truthful<'a> {
    /// The rows that the node has before.
    known: &'a [Row<'a>],
    /// The partner's pool.
    pool: &'a OfferPool,
    /// The expected outcome.
    outcome: Outcome<'a>,
}

impl<'a> NodeTest for Truthful<'a> {
    fn run<L: Ledger, C: Ledger, R: Threads + Wait + Sync>(
        &self,
        rt: &R,
        alloc: Global,
        node: &mut Node<L, C>,
    ) -> Result<(), Fail> {
        for row in self.known {
            let version = row.version(alloc)?;
            node.replica.copy(rt, alloc, row.key, version)?;
        }
        let mut link = MemoryLink::new(alloc, self.pool);
        self.outcome.expect_sync(rt, alloc, node, &mut link, TURNS)
    }

    fn check(&self, alloc: Global, state: &RangeState) -> Result<(), Fail> {
        self.outcome.expect_state(alloc, state)
    }
}

/// Syncs a node that knows rows with a partner that offers rows.
fn sync_rows<R: Threads + Wait + Sync>(
    rt: &R,
    alloc: Global,
    known: &[Row<'_>],
    offered: &[Row<'_>],
    outcome: Outcome<'_>,
) -> Result<(), Fail> {
    let pool = pool_of(rt, alloc, offered)?;
    let test = Truthful {
        known,
        pool: &pool,
        outcome,
    };
    run_node(rt, alloc, 1_000, &test)
}

#[test]
fn a_sync_takes_what_is_missing(rt: HostRuntime) -> Result<(), Fail> {
    let outcome = Outcome {
        asked: Some(&[(0, 0), (1, 0), (2, 12)]),
        held: Some("[(1, 1)] Live [120]\n"),
        ..Outcome::reported(finished(3, 1), 1)
    };
    sync_rows(&rt, rt.alloc(), &[], &[Row::new(b"a", 1)], outcome)
}

/// Returns the row of `a` with this value, in whose clock node 2 has counted once.
fn valued(value: &[u8]) -> Row<'_> {
    Row {
        value,
        ..Row::new(b"a", 2)
    }
}

#[test]
fn two_values_with_equal_clocks_are_held(rt: HostRuntime) -> Result<(), Fail> {
    let outcome = Outcome {
        held: Some("[(2, 1)] Live [112]\n[(2, 1)] Live [113]\n"),
        ..Outcome::reported(finished(3, 1), 2)
    };
    sync_rows(&rt, rt.alloc(), &[valued(b"p")], &[valued(b"q")], outcome)
}

/// A link whose partner publishes 16 more snapshots before its answer to the second ask.
#[derive(Drop)]
struct Dropping<'a, K: Link> {
    link: K,
    pool: &'a OfferPool,
    snapshot: Arc<Snapshot, Global>,
    asks: u8,
}

impl<'a, K: Link> Dropping<'a, K> {
    /// Publishes the snapshot 16 times.
    fn publish<R: Wait>(&self, rt: &R) -> Result<(), Refusal> {
        for _ in 0..16 {
            publish(rt, self.pool, Arc::try_clone(&self.snapshot)?)?;
        }
        Ok(())
    }
}

impl<'a, K: Link> Link for Dropping<'a, K> {
    ghost failed = { λ d. K.failed d.link };

    fn failures(&self) -> u64 {
        self.link.failures()
    }

    fn offer<R: Wait>(&mut self, rt: &R) -> Reached {
        self.link.offer(rt)
    }

    fn ask<R: Wait>(&mut self, rt: &R, message: &[u8]) -> Reached {
        self.asks = self.asks.saturating_add(1);
        if self.asks == 2 && self.publish(rt).is_err() {
            return Reached::Gone;
        }
        self.link.ask(rt, message)
    }
}

/// A sync whose offer is dropped before the second answer.
#[derive(Clone, Copy)]
struct DroppedOffer<'a> {
    /// The partner's pool.
    pool: &'a OfferPool,
    /// The snapshot that drops the offer.
    snapshot: &'a Arc<Snapshot, Global>,
    /// The expected outcome.
    outcome: Outcome<'a>,
}

impl<'a> NodeTest for DroppedOffer<'a> {
    fn run<L: Ledger, C: Ledger, R: Threads + Wait + Sync>(
        &self,
        rt: &R,
        alloc: Global,
        node: &mut Node<L, C>,
    ) -> Result<(), Fail> {
        let mut link = Dropping {
            link: MemoryLink::new(alloc, self.pool),
            pool: self.pool,
            snapshot: Arc::try_clone(self.snapshot)?,
            asks: 0,
        };
        self.outcome.expect_sync(rt, alloc, node, &mut link, TURNS)
    }

    fn check(&self, alloc: Global, state: &RangeState) -> Result<(), Fail> {
        self.outcome.expect_state(alloc, state)
    }
}

#[test]
fn a_dropped_offer_is_gone(rt: HostRuntime) -> Result<(), Fail> {
    let cancelled = Some(SessionState::Cancelled);
    let (pool, snapshot) = (
        pool_of(&rt, rt.alloc(), &[Row::new(b"a", 1)])?,
        snapshot_of(rt.alloc(), &[])?,
    );
    let test = DroppedOffer {
        pool: &pool,
        snapshot: &snapshot,
        outcome: Outcome::refused(Refusal::Gone.number(), 0, cancelled),
    };
    run_node(&rt, rt.alloc(), 1_000, &test)
}
