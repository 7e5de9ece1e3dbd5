//! Workers that hash a moment of a range, and syncs at it.

use crate::calls::{hash_moment, sync_at_moment};
use crate::nodes::{Node, TURNS};
use crate::partners::{Row, pool_of};
use crate::runs::{NodeTest, run_node};
use range_state::RangeState;
use ring_node::{MemoryLink, OfferPool};
use std::alloc::Global;
use std::sync::Wait;
use std::sync::ledger::Ledger;
use std::test::Fail;
use std::thread::Threads;
use test_values::checks::expect;
use vclock::Refusal;

/// A sync at a moment of a range that has gone on.
#[derive(Clone, Copy)]
struct AtMoment<'a> {
    /// The partner's pool.
    pool: &'a OfferPool,
}

impl<'a> AtMoment<'a> {
    /// Syncs a node at the moment of its range, and returns the number of versions accepted.
    fn sync<L: Ledger, C: Ledger, R: Wait>(
        &self,
        rt: &R,
        alloc: Global,
        node: &mut Node<L, C>,
    ) -> Result<u64, Refusal> {
        let mut link = MemoryLink::new(alloc, self.pool);
        let pass = node.replica.passes.first_mut().ok_or(Refusal::Stranger)?;
        let (range, slots) = (&node.replica.range, &node.slots);
        Ok(sync_at_moment(rt, alloc, range, slots, pass, &mut link, TURNS)?.accepted)
    }
}

impl<'a> NodeTest for AtMoment<'a> {
    fn run<L: Ledger, C: Ledger, R: Threads + Wait + Sync>(
        &self,
        rt: &R,
        alloc: Global,
        node: &mut Node<L, C>,
    ) -> Result<(), Fail> {
        node.replica.put(rt, alloc, b"a", 0)?;
        let report = hash_moment(rt, alloc, &node.replica.range, &node.slots, TURNS)?;
        expect(
            report.installed == 273 && report.snapshot.is_some(),
            "the moment is whole",
        )?;
        node.replica.put(rt, alloc, b"b", 0)?;
        let accepted = self.sync(rt, alloc, node)?;
        expect(
            accepted == 1,
            "the range was dirty, and took what it lacked",
        )
    }

    fn check(&self, _alloc: Global, state: &RangeState) -> Result<(), Fail> {
        expect(
            state.journal().len() == 3,
            "two puts and a partner's version",
        )
    }
}

#[test]
fn a_sync_at_a_moment_needs_no_clean_tree(rt: HostRuntime) -> Result<(), Fail> {
    let pool = pool_of(&rt, rt.alloc(), &[Row::new(b"c", 2)])?;
    run_node(&rt, rt.alloc(), 1_000, &AtMoment { pool: &pool })
}
