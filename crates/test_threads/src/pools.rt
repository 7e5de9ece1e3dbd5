//! Pools of offers.

use crate::calls::publish;
use crate::nodes::Node;
use crate::partners::snapshot_of;
use crate::runs::{NodeTest, run_node};
use ring_node::OfferPool;
use snapshot::Snapshot;
use std::alloc::Global;
use std::sync::ledger::Ledger;
use std::sync::{Arc, Wait};
use std::test::Fail;
use std::thread::Threads;
use test_values::checks::expect;
use test_values::refusals::is_refused;
use text_patch::{Marks, patch_parts};
use tree_nodes::{NodeAt, Text};
use vclock::Refusal;
use walk_messages::Ask;

/// Returns the text that a pool serves for an ask.
fn text_of<R: Wait>(rt: &R, alloc: Global, pool: &OfferPool, ask: Ask) -> Result<Vec<u8>, Refusal> {
    let answer = pool.serve(rt, alloc, ask)?;
    Ok(Vec::from_slice(alloc, answer.text.as_slice())?)
}

/// Expects that a pool serves the first leaf of an offer, which has no rows.
fn expect_leaf<R: Wait>(rt: &R, alloc: Global, pool: &OfferPool, offer: u32) -> Result<(), Fail> {
    let node = NodeAt::new(2, 0).ok_or("no such node")?;
    let text = text_of(rt, alloc, pool, Ask { offer, node })?;
    expect(
        text.as_slice() == b"\x00".as_slice(),
        "the leaf has no rows",
    )
}

/// Expects that a pool refuses to serve the first node of an offer at this depth.
fn expect_refused<R: Wait>(
    rt: &R,
    alloc: Global,
    pool: &OfferPool,
    offer: u32,
    depth: u8,
    refusal: Refusal,
) -> Result<(), Fail> {
    let node = NodeAt::new(depth, 0).ok_or("no such node")?;
    let text = text_of(rt, alloc, pool, Ask { offer, node });
    expect(is_refused(text, refusal), "the ask is refused")
}

/// Returns the patch of a pool for an asker without parts.
fn patch_of<R: Wait>(rt: &R, alloc: Global, pool: &OfferPool, ask: Ask) -> Result<Text, Refusal> {
    let marks = Marks::new(3, 0, &[]).ok_or(Refusal::BadMessage)?;
    pool.patch(rt, alloc, ask, &marks)
}

/// Expects that a pool returns the patch for an outline of the first leaf of its first offer, which has no rows, and
/// refuses other outlines.
fn expect_patches<R: Wait>(rt: &R, alloc: Global, pool: &OfferPool) -> Result<(), Fail> {
    let leaf = NodeAt::new(2, 0).ok_or("no such node")?;
    let deeper = NodeAt::new(3, 0).ok_or("no such node")?;
    let patch = patch_of(
        rt,
        alloc,
        pool,
        Ask {
            offer: 1,
            node: leaf,
        },
    )?;
    let Some((_, steps)) = patch_parts(alloc, patch.as_slice()) else {
        return expect(false, "it is a patch");
    };
    expect(steps.is_empty(), "the patch has no steps")?;
    let gone = patch_of(
        rt,
        alloc,
        pool,
        Ask {
            offer: 9,
            node: deeper,
        },
    );
    expect(is_refused(gone, Refusal::Gone), "the offer isn't kept")?;
    let bad = patch_of(
        rt,
        alloc,
        pool,
        Ask {
            offer: 1,
            node: deeper,
        },
    );
    expect(
        is_refused(bad, Refusal::BadMessage),
        "there is no such node",
    )
}

/// Expects that a pool has this number of offers, and that the newest has this one.
fn expect_counts<R: Wait>(rt: &R, pool: &OfferPool, kept: u32, newest: u32) -> Result<(), Fail> {
    let counts = pool.counts(rt);
    expect(
        counts.kept == kept && counts.newest == newest,
        "a pool counts its offers",
    )
}

/// Expects that a pool serves its first offer, down to its leaves, and no other one.
fn expect_first<R: Wait>(
    rt: &R,
    alloc: Global,
    pool: &OfferPool,
    snapshot: &Arc<Snapshot, Global>,
) -> Result<(), Fail> {
    expect(pool.latest(rt).is_none(), "there is no offer yet")?;
    expect_counts(rt, pool, 0, 0)?;
    let offer = publish(rt, pool, Arc::try_clone(snapshot)?)?;
    expect(
        offer.offer == 1 && offer.format == 1 && offer.range == 0,
        "the first offer is of the range",
    )?;
    expect_leaf(rt, alloc, pool, 1)?;
    expect_refused(rt, alloc, pool, 9, 2, Refusal::Gone)?;
    expect_refused(rt, alloc, pool, 1, 3, Refusal::BadMessage)?;
    expect_patches(rt, alloc, pool)
}

/// Expects that a pool of 16 offers drops the first when another one is published.
fn expect_dropped<R: Wait>(
    rt: &R,
    alloc: Global,
    pool: &OfferPool,
    snapshot: &Arc<Snapshot, Global>,
) -> Result<(), Fail> {
    for _ in 0..15 {
        publish(rt, pool, Arc::try_clone(snapshot)?)?;
    }
    expect_leaf(rt, alloc, pool, 1)?;
    let offer = publish(rt, pool, Arc::try_clone(snapshot)?)?;
    expect(offer.offer == 17, "offers are numbered in order")?;
    expect_refused(rt, alloc, pool, 1, 2, Refusal::Gone)?;
    expect_leaf(rt, alloc, pool, 2)?;
    let newest = pool.latest(rt).ok_or("no offer")?;
    expect(newest.offer == 17, "the newest offer is the last one")?;
    expect_counts(rt, pool, 16, 17)
}

/// Seventeen offers of one pool, all of this snapshot.
#[derive(Clone, Copy)]
struct Seventeen<'a>(&'a Arc<Snapshot, Global>);

impl<'a> NodeTest for Seventeen<'a> {
    fn run<L: Ledger, C: Ledger, R: Threads + Wait + Sync>(
        &self,
        rt: &R,
        alloc: Global,
        node: &mut Node<L, C>,
    ) -> Result<(), Fail> {
        let pool = &node.replica.offers;
        expect_first(rt, alloc, pool, self.0)?;
        expect_dropped(rt, alloc, pool, self.0)
    }
}

#[test]
fn the_seventeenth_offer_drops_the_first(rt: HostRuntime) -> Result<(), Fail> {
    let snapshot = snapshot_of(rt.alloc(), &[])?;
    run_node(&rt, rt.alloc(), 1, &Seventeen(&snapshot))
}
