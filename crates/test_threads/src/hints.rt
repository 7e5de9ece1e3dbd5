//! Shared hints.

use crate::nodes::Node;
use crate::runs::{NodeTest, run_node};
use hint_store::{Delivery, HintCounts};
use ring_node::SharedHints;
use std::alloc::Global;
use std::sync::Wait;
use std::sync::ledger::Ledger;
use std::test::Fail;
use std::thread::Threads;
use test_values::checks::expect;
use test_values::versions::version;
use vclock::{Bytes, Refusal};
use version_set::Kind;

/// Returns true if node 2 confirms a hint after it journaled the version of this key that node 1 has counted this
/// number of times.
fn is_confirmed<R: Wait>(
    rt: &R,
    alloc: Global,
    hints: &SharedHints,
    id: u32,
    key: &[u8],
    count: u64,
) -> Result<bool, Refusal> {
    let delivery = Delivery {
        owner: 2,
        key: Bytes::copy_of(alloc, key)?,
        version: version(alloc, (1, count), Kind::Live, b"x")?,
        known: false,
    };
    match hints.confirm(rt, id, delivery) {
        Ok(()) => Ok(true),
        Err(Refusal::UnknownHint) => Ok(false),
        Err(other) => Err(other),
    }
}

/// A hint for node 2, up to its confirmation: the version of `a` that node 1 has counted once.
struct OneHint;

impl NodeTest for OneHint {
    fn run<L: Ledger, C: Ledger, R: Threads + Wait + Sync>(
        &self,
        rt: &R,
        alloc: Global,
        node: &mut Node<L, C>,
    ) -> Result<(), Fail> {
        let hint = version(alloc, (1, 1), Kind::Live, b"x")?;
        let id = node.keep(rt, alloc, 2, b"a", hint)?;
        let found = node.pending(rt, alloc, 2, 0)?;
        expect(id == 1 && found == Some(1), "the first hint is pending")?;
        let later = node.pending(rt, alloc, 2, 1)?;
        let others = node.pending(rt, alloc, 3, 0)?;
        expect(
            later.is_none() && others.is_none(),
            "no other hint is pending",
        )?;
        expect(
            !is_confirmed(rt, alloc, &node.hints, 1, b"a", 2)?,
            "another version doesn't confirm it",
        )?;
        expect(
            is_confirmed(rt, alloc, &node.hints, 1, b"a", 1)?,
            "its version confirms it",
        )?;
        expect(
            !is_confirmed(rt, alloc, &node.hints, 1, b"a", 1)?,
            "it isn't confirmed twice",
        )?;
        let found = node.pending(rt, alloc, 2, 0)?;
        expect(found.is_none(), "a confirmed hint isn't pending")
    }
}

#[test]
fn a_shared_hint_is_confirmed_once(rt: HostRuntime) -> Result<(), Fail> {
    run_node(&rt, rt.alloc(), 1, &OneHint)
}

/// Returns the numbers of pending and of delivered hints.
fn count<R: Wait>(rt: &R, hints: &SharedHints) -> HintCounts {
    hints.counts(rt)
}

/// Drops the delivered hints, and renumbers the others.
fn renew<R: Wait>(rt: &R, alloc: Global, hints: &mut SharedHints) -> Result<(), Refusal> {
    hints.renew(rt, alloc)
}

/// Returns true if the pending hint of node 2 with the least id above `after` has the next id and this key.
fn is_next<R: Wait>(
    rt: &R,
    alloc: Global,
    hints: &SharedHints,
    after: u32,
    key: &[u8],
) -> Result<bool, Refusal> {
    match hints.next(rt, alloc, 2, after)? {
        Some(hint) => Ok(hint.id == after.saturating_add(1) && hint.key.as_slice() == key),
        None => Ok(false),
    }
}

/// Five hints for node 2. The second is delivered before they are renumbered.
struct FiveHints;

impl NodeTest for FiveHints {
    fn run<L: Ledger, C: Ledger, R: Threads + Wait + Sync>(
        &self,
        rt: &R,
        alloc: Global,
        node: &mut Node<L, C>,
    ) -> Result<(), Fail> {
        for key in [b"a".as_slice(), b"b", b"c", b"d", b"e"] {
            let hint = version(alloc, (1, 1), Kind::Live, b"x")?;
            node.keep(rt, alloc, 2, key, hint)?;
        }
        expect(
            is_confirmed(rt, alloc, &node.hints, 2, b"b", 1)?,
            "the second hint is confirmed",
        )?;
        let counts = count(rt, &node.hints);
        expect(
            counts.pending == 4 && counts.delivered == 1,
            "four hints are pending",
        )?;
        expect(node.hints.bytes(rt) == 60, "five hints have 12 bytes each")?;
        renew(rt, alloc, &mut node.hints)?;
        let counts = count(rt, &node.hints);
        expect(
            counts.pending == 4 && counts.delivered == 0,
            "four hints are left",
        )?;
        for (after, key) in [(0, b"a".as_slice()), (1, b"c"), (2, b"d"), (3, b"e")] {
            expect(
                is_next(rt, alloc, &node.hints, after, key)?,
                "they have the numbers from 1, in order",
            )?;
        }
        Ok(())
    }
}

#[test]
fn renewed_hints_are_numbered_from_1(rt: HostRuntime) -> Result<(), Fail> {
    run_node(&rt, rt.alloc(), 1, &FiveHints)
}
