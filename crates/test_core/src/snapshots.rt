//! Snapshots.
ghost use Rattle.std.specs.Prelude.{◌≡◌, ◌∷◌, ◌++◌, [], replicate, IfOk};
ghost use Rattle.sha2.specs.Sha256.{sha256};
ghost use Rattle.hash_tree.specs.Texts.{inner_text};

use crate::calls::{
    clean_range, new_range, next_job, offer, open_session, put_a, range_of_a, rehash, snapshot,
    text_at,
};
use hash_tree::{SharedLeaf, inner_text, leaf_text};
use range_state::RangeState;
use rehash::run_job;
use sha2::{Digest as _, Sha256};
use snapshot::Snapshot;
use std::alloc::Global;
use std::test::Fail;
use std::thread::Threads;
use test_values::calls::node_at;
use test_values::checks::expect;
use test_values::refusals::expect_refused;
use tree_nodes::{Digest, NodeAt};
use vclock::{Format, Refusal};

#[test]
fn a_dirty_range_offers_nothing(rt: HostRuntime) -> Result<(), Fail> {
    let alloc = rt.alloc();
    let refused = snapshot(alloc, &new_range(alloc, 1, 1_000)?);
    expect_refused(refused, Refusal::Dirty, "a new range is dirty")
}

/// Returns true if a snapshot has this text of a node.
fn has_text(
    alloc: Global,
    snapshot: &Snapshot,
    node: NodeAt,
    text: &[u8],
) -> Result<bool, Refusal> {
    Ok(text_at(alloc, snapshot, node)?.as_slice() == text)
}

/// Returns the leaf of `a`.
fn leaf_of_a() -> Result<NodeAt, Fail> {
    node_at(2, 12)
}

/// Asserts that the snapshot of the first session has this text of the leaf of `a`.
fn expect_own_leaf(alloc: Global, state: &RangeState, text: &[u8]) -> Result<(), Fail> {
    let record = state.records().get(0).ok_or("no record")?;
    let is_old = has_text(alloc, &**record.session().own(), leaf_of_a()?, text)?;
    expect(is_old, "a session's snapshot has the old text")
}

/// Asserts that a new snapshot of a range has another text of the leaf of `a`.
fn expect_new_leaf(
    rt: &(impl Threads + Sync),
    alloc: Global,
    state: &mut RangeState,
    text: &[u8],
) -> Result<(), Fail> {
    rehash(rt, alloc, state)?;
    let new = snapshot(alloc, state)?;
    let is_old = has_text(alloc, &new, leaf_of_a()?, text)?;
    expect(!is_old, "a new snapshot has the new text")
}

/// Asserts that a snapshot keeps the old text after another put, like the first session's, and that a new one has
/// another text.
fn expect_old_text(
    rt: &(impl Threads + Sync),
    alloc: Global,
    state: &mut RangeState,
    snapshot: &Snapshot,
) -> Result<(), Fail> {
    open_session(alloc, state, offer([7; 32]))?;
    let old = text_at(alloc, snapshot, leaf_of_a()?)?;
    expect(old.len() == 22, "the leaf has one row")?;
    put_a(alloc, state, &[(1, 1)])?;
    let is_old = has_text(alloc, snapshot, leaf_of_a()?, &old)?;
    expect(is_old, "a snapshot keeps its text")?;
    expect_own_leaf(alloc, state, &old)?;
    expect_new_leaf(rt, alloc, state, &old)
}

#[test]
fn what_was_taken_before_a_put_has_the_old_text(rt: HostRuntime) -> Result<(), Fail> {
    let alloc = rt.alloc();
    let mut state = range_of_a(&rt, alloc)?;
    let snapshot = snapshot(alloc, &state)?;
    expect_old_text(&rt, alloc, &mut state, &snapshot)
}

/// Puts two values under `a`, and asserts that a job taken in between has the text with only the first.
fn expect_old_job(alloc: Global, state: &mut RangeState) -> Result<(), Fail> {
    put_a(alloc, state, &[])?;
    let old = run_job(next_job(alloc, state)?);
    let job = next_job(alloc, state)?;
    put_a(alloc, state, &[(1, 1)])?;
    let late = run_job(job);
    expect(late.text() == old.text(), "a job keeps its text")
}

#[test]
fn a_job_has_the_text_of_its_leaf_as_it_was_taken(rt: HostRuntime) -> Result<(), Fail> {
    let alloc = rt.alloc();
    expect_old_job(alloc, &mut clean_range(&rt, alloc)?)
}

/// Returns the leaves of a range without rows, in format 1.
fn empty_leaves(alloc: Global) -> Result<Vec<SharedLeaf>, Fail>
    ensures { IfOk result (λ leaves. leaves.items ≡ replicate 256 (record { format = Format.One; rows = [] })) }
{
    let count = 256;
    let mut leaves = Vec::with_capacity(alloc, count)?;
    for _ in 0..count {
        leaves.push(SharedLeaf::empty(Format::One))?;
    }
    Ok(leaves)
}

/// Returns the text of a node above 16 nodes that all have this text, in format 1.
fn text_above(alloc: Global, child: &[u8]) -> Result<Vec<u8>, Fail>
    ensures { IfOk result (λ text. text.items ≡ inner_text Format.One (replicate 16 (sha256 child.now))) }
{
    let digest: Digest = Sha256::digest(child);
    Ok(inner_text(alloc, Format::One, &[digest; 16])?)
}

/// Returns the digests of all nodes by place, if all nodes of a depth have one text, in format 1.
fn digests_by_place(
    alloc: Global,
    root: &[u8],
    inner: &[u8],
    leaf: &[u8],
) -> Result<Vec<Digest>, Fail>
    ensures { IfOk result (λ digests. digests.items
        ≡ sha256 root.now ∷ replicate 16 (sha256 inner.now) ++ replicate 256 (sha256 leaf.now)) }
{
    let mut digests = Vec::new(alloc);
    digests.push(Sha256::digest(root))?;
    digests.extend_from_slice(&[Sha256::digest(inner); 16])?;
    digests.extend_from_slice(&[Sha256::digest(leaf); 256])?;
    Ok(digests)
}

/// Asserts the format, the place and the root of a snapshot that was made with this text of the root.
fn expect_head(snapshot: &Snapshot, root: &[u8]) -> Result<(), Fail> {
    expect(
        snapshot.format() == Format::One && snapshot.bits() == 3 && snapshot.range() == 5,
        "a snapshot has its format and place",
    )?;
    let digest: Digest = Sha256::digest(root);
    expect(snapshot.root() == digest, "a snapshot has its root")
}

/// Asserts that a snapshot without rows has these texts of the root, of an inner node and of each leaf.
fn expect_texts(alloc: Global, snapshot: &Snapshot, texts: [&[u8]; 3]) -> Result<(), Fail> {
    let [root, inner, leaf] = texts;
    expect(
        leaf == [0].as_slice() && inner.len() == 513,
        "the texts have their lengths",
    )?;
    for (depth, index, text) in [(0, 0, root), (1, 0, inner), (2, 0, leaf), (2, 255, leaf)] {
        let is_text = has_text(alloc, snapshot, node_at(depth, index)?, text)?;
        expect(is_text, "a node has its text")?;
    }
    let deeper = text_at(alloc, snapshot, node_at(3, 0)?);
    expect_refused(deeper, Refusal::BadMessage, "the tree has no deeper node")
}

#[test]
fn a_snapshot_is_made_of_leaves_and_digests(rt: HostRuntime) -> Result<(), Fail> {
    let alloc = rt.alloc();
    let leaf = leaf_text(alloc, Format::One, &[])?;
    let inner = text_above(alloc, &leaf)?;
    let root = text_above(alloc, &inner)?;
    let leaves = empty_leaves(alloc)?;
    let digests = digests_by_place(alloc, &root, &inner, &leaf)?;
    let snapshot = Snapshot::new(alloc, Format::One, 3, 5, leaves, digests)?;
    expect_head(&snapshot, &root)?;
    expect_texts(
        alloc,
        &snapshot,
        [root.as_slice(), inner.as_slice(), leaf.as_slice()],
    )
}
