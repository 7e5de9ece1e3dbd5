//! Deliveries of hints.

use crate::nodes::Node;
use crate::runs::{NodeTest, run_node};
use ring_node::DeliverReport;
use std::alloc::Global;
use std::sync::Wait;
use std::sync::ledger::Ledger;
use std::test::Fail;
use std::thread::Threads;
use test_values::checks::expect;
use test_values::versions::version;
use vclock::Refusal;
use version_set::Kind;

/// Keeps the hint of a version of that key, which has a value unless it is a tombstone.
fn keep<L: Ledger, C: Ledger, R: Wait>(
    rt: &R,
    alloc: Global,
    node: &Node<L, C>,
    owner: u16,
    key: &[u8],
    kind: Kind,
) -> Result<u32, Refusal> {
    let value = if kind == Kind::Live {
        b"x".as_slice()
    } else {
        b"".as_slice()
    };
    node.keep(rt, alloc, owner, key, version(alloc, (2, 1), kind, value)?)
}

/// Expects that a delivery reports these counts.
fn expect_report(report: DeliverReport, delivered: u64, known: u64, kept: u64) -> Result<(), Fail> {
    expect(
        report.delivered == delivered && report.known == known && report.kept == kept,
        "the report has the expected counts",
    )
}

/// A delivery of one hint of `a` at node 1, whose journal takes one entry.
#[derive(Clone, Copy)]
struct OneHint {
    /// The owner of the hint.
    owner: u16,
    /// True if the journal is full before the delivery.
    full: bool,
    /// The counts of the report, or `None` if the owner is refused as a stranger.
    counts: Option<(u64, u64, u64)>,
    /// The number of receipts of the delivery.
    receipts: usize,
    /// The first pending hint of the owner afterwards.
    pending: Option<u32>,
}

impl OneHint {
    /// Expects the result of the delivery.
    fn expect_result(&self, ended: &Result<DeliverReport, Refusal>) -> Result<(), Fail> {
        match (ended, self.counts) {
            (Ok(report), Some((delivered, known, kept))) => {
                expect_report(*report, delivered, known, kept)
            }
            (Err(Refusal::Stranger), None) => Ok(()),
            _ => Err(Fail::from("the delivery has another result")),
        }
    }
}

impl NodeTest for OneHint {
    fn run<L: Ledger, C: Ledger, R: Threads + Wait + Sync>(
        &self,
        rt: &R,
        alloc: Global,
        node: &mut Node<L, C>,
    ) -> Result<(), Fail> {
        if self.full {
            node.replica.put(rt, alloc, b"b", 0)?;
        }
        let before = node.receipts();
        keep(rt, alloc, node, self.owner, b"a", Kind::Live)?;
        let ended = node.deliver(rt, alloc, self.owner);
        self.expect_result(&ended)?;
        expect(
            node.receipts() == before.saturating_add(self.receipts),
            "the pass gets a receipt if the owner takes the hint",
        )?;
        expect(
            node.pending(rt, alloc, self.owner, 0)? == self.pending,
            "the hint is pending unless the owner takes it",
        )
    }
}

#[test]
fn a_hint_is_delivered_to_its_owner(rt: HostRuntime) -> Result<(), Fail> {
    let test = OneHint {
        owner: 1,
        full: false,
        counts: Some((1, 0, 0)),
        receipts: 1,
        pending: None,
    };
    run_node(&rt, rt.alloc(), 1, &test)
}

#[test]
fn a_hint_that_its_owner_refuses_is_kept(rt: HostRuntime) -> Result<(), Fail> {
    let test = OneHint {
        owner: 1,
        full: true,
        counts: Some((0, 0, 1)),
        receipts: 0,
        pending: Some(1),
    };
    run_node(&rt, rt.alloc(), 1, &test)
}

/// Five hints for node 1, whose range has the versions of `b` and `e`, and refuses the tombstone of `c`.
struct FiveHints;

impl NodeTest for FiveHints {
    fn run<L: Ledger, C: Ledger, R: Threads + Wait + Sync>(
        &self,
        rt: &R,
        alloc: Global,
        node: &mut Node<L, C>,
    ) -> Result<(), Fail> {
        for key in [b"b".as_slice(), b"e"] {
            let known = version(alloc, (2, 1), Kind::Live, b"x")?;
            node.replica.copy(rt, alloc, key, known)?;
        }
        for key in [b"a".as_slice(), b"b", b"c", b"d", b"e"] {
            let kind = if key == b"c".as_slice() {
                Kind::Tombstone
            } else {
                Kind::Live
            };
            keep(rt, alloc, node, 1, key, kind)?;
        }
        expect_report(node.deliver(rt, alloc, 1)?, 2, 2, 1)?;
        expect(
            node.receipts() == 4,
            "the pass gets the receipts of `a` and `d`",
        )?;
        expect(
            node.pending(rt, alloc, 1, 0)? == Some(3) && node.pending(rt, alloc, 1, 3)?.is_none(),
            "the refused hint alone is pending",
        )?;
        expect_report(node.deliver(rt, alloc, 1)?, 0, 0, 1)
    }
}

#[test]
fn five_hints_are_taken_known_or_kept(rt: HostRuntime) -> Result<(), Fail> {
    run_node(&rt, rt.alloc(), 10, &FiveHints)
}

#[test]
fn a_hint_of_another_node_is_a_strangers(rt: HostRuntime) -> Result<(), Fail> {
    let test = OneHint {
        owner: 2,
        full: false,
        counts: None,
        receipts: 0,
        pending: Some(1),
    };
    run_node(&rt, rt.alloc(), 1, &test)
}
