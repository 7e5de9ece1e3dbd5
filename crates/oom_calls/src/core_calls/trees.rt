//! Trees: texts of nodes, marks, jobs and rehashes.
use crate::core_calls::leaves::leaf_of;
use crate::core_calls::ranges::range_of;
use crate::lines::{show, unchanged};
use crate::states::is_between;
use hash_tree::{Leaves, SharedLeaf, inner_text, leaf_text, put_inner_text};
use range_state::RangeState;
use rehash::{Job, hash_all, hash_here, run_job};
use std::alloc::Global;
use std::io;
use std::thread::Threads;
use tree_nodes::{Digest, Marks, NodeAt, SharedDigests, Text, hash};
use vclock::{Format, Refusal};

/// A digest.
const DIGEST: Digest = [7; 32];

/// Shows the calls on trees.
pub(crate) fn show_all<R: Print + AllocGlobal + Threads + Sync>(rt: &R) -> io::Result<()> {
    let alloc = rt.alloc();
    show(rt, "Marks::new", marks(alloc))?;
    show(rt, "Leaves::from_vec, for Snapshot::new", leaves(alloc))?;
    show(
        rt,
        "SharedDigests::from_vec and SharedDigests::share, for Snapshot::new",
        digests(alloc),
    )?;
    show(rt, "leaf_text and inner_text", texts(alloc))?;
    show(rt, "put_inner_text", put_text(alloc))?;
    show(rt, "Job::of_leaf", leaf_job(alloc))?;
    show(rt, "Job::of_children", inner_job(alloc))?;
    show(
        rt,
        "RangeState::take_job and Tree::take_job",
        take_job(alloc),
    )?;
    show(
        rt,
        "RangeState::take_jobs and Tree::take_jobs",
        take_jobs(alloc),
    )?;
    show(rt, "hash_all", hash_some(rt, alloc))?;
    show(rt, "hash_here", hash_some_here(alloc))?;
    show(
        rt,
        "RangeState::rehash, RangeStore::rehash and Tree::rehash",
        rehash(rt, alloc),
    )?;
    show(
        rt,
        "RangeState::rehash_here, RangeStore::rehash_here and Tree::rehash_here",
        rehash_here(rt, alloc),
    )?;
    show(
        rt,
        "RangeState::rehash_some, RangeStore::rehash_some and Tree::rehash_some",
        rehash_some(alloc),
    )
}

fn marks(alloc: Global) -> Result<u64, Refusal> {
    Ok(Marks::new(alloc, Format::One)?.dirty_count() as u64)
}

/// Makes the leaves of a range from a list, and returns the number of the format of the last one.
fn leaves(alloc: Global) -> Result<u64, Refusal> {
    let mut all = Vec::new(alloc);
    for _ in 0..256usize {
        all.push(SharedLeaf::empty(Format::One))?;
    }
    let leaves = Leaves::from_vec(alloc, Format::One, all)?;
    Ok(u64::from(leaves.get(255).format().number()))
}

/// Makes the digests of a tree from a list, and returns the first byte of the digest of the root.
fn digests(alloc: Global) -> Result<u64, Refusal> {
    let mut all = Vec::new(alloc);
    for _ in 0..273usize {
        all.push(DIGEST)?;
    }
    let digests = SharedDigests::from_vec(alloc, Format::One, all)?;
    let root = NodeAt::new(0, 0).ok_or(Refusal::Stale)?;
    Ok(u64::from(digests.share()?.get(root)[0]))
}

fn texts(alloc: Global) -> Result<u64, Refusal> {
    let leaf = Text::from(leaf_text(alloc, Format::One, &[])?);
    let digest = hash(leaf).digest();
    Ok(inner_text(alloc, Format::One, &[digest; 16])?.len() as u64)
}

/// Returns the length of a text that is put after another byte, in bytes.
fn put_text(alloc: Global) -> Result<u64, Refusal> {
    let mut text = Vec::from_slice(alloc, b"z")?;
    match put_inner_text(&mut text, Format::One, &[DIGEST; 16]) {
        Ok(()) => Ok(text.len() as u64),
        Err(_) => Err(unchanged(Refusal::NoMemory, Ok(text.as_slice() == b"z".as_slice()))),
    }
}

/// Returns the length of a leaf's text, in bytes.
fn leaf_job(alloc: Global) -> Result<u64, Refusal> {
    let node = NodeAt::new(2, 0).ok_or(Refusal::Stale)?;
    let job = Job::of_leaf(alloc, node, leaf_of(alloc, b"ab")?)?;
    Ok(run_job(job).text().len() as u64)
}

/// Returns the length of an inner node's text, in bytes.
fn inner_job(alloc: Global) -> Result<u64, Refusal> {
    let node = NodeAt::new(1, 0).ok_or(Refusal::Stale)?;
    let job = Job::of_children(alloc, Format::One, node, [DIGEST; 16])?;
    Ok(run_job(job).text().len() as u64)
}

/// Returns a range that holds a version of each of three keys.
pub(crate) fn range(alloc: Global) -> Result<RangeState, Refusal> {
    range_of(alloc, b"abc")
}

fn take_job(alloc: Global) -> Result<u64, Refusal> {
    let state = range(alloc)?;
    match state.take_job(alloc, 3)? {
        Some(job) => Ok(u64::from(job.node().index)),
        None => Err(Refusal::Stale),
    }
}

fn take_jobs(alloc: Global) -> Result<u64, Refusal> {
    Ok(range(alloc)?.take_jobs(alloc, 20)?.len() as u64)
}

/// Hashes some jobs, and returns their number. After a refusal the jobs are lost, and can be taken again.
fn hash_some(rt: &(impl Threads + Sync), alloc: Global) -> Result<u64, Refusal> {
    let state = range(alloc)?;
    let jobs = state.take_jobs(alloc, 20)?;
    Ok(hash_all(rt, alloc, jobs)?.len() as u64)
}

/// Hashes some jobs in the caller's thread, and returns their number. After a refusal the jobs are lost, and can be
/// taken again.
fn hash_some_here(alloc: Global) -> Result<u64, Refusal> {
    let state = range(alloc)?;
    let jobs = state.take_jobs(alloc, 20)?;
    Ok(hash_here(alloc, jobs)?.len() as u64)
}

/// Rehashes a range in several threads.
fn rehash(rt: &(impl Threads + Sync), alloc: Global) -> Result<u64, Refusal> {
    let mut state = range(alloc)?;
    let hashed = state.rehash(rt, alloc);
    count_clean(rt, alloc, &state, hashed)
}

/// Rehashes a range in the caller's thread.
fn rehash_here(rt: &(impl Threads + Sync), alloc: Global) -> Result<u64, Refusal> {
    let mut state = range(alloc)?;
    let hashed = state.rehash_here(alloc);
    count_clean(rt, alloc, &state, hashed)
}

/// Hashes twenty nodes of a range, and returns the number of nodes that are still dirty.
fn rehash_some(alloc: Global) -> Result<u64, Refusal> {
    let mut state = range(alloc)?;
    let dirty = state.store().tree().dirty_count();
    match state.rehash_some(alloc, 20) {
        Ok(left) => Ok(left as u64),
        Err(refusal) => Err(unchanged(refusal, Ok(state.store().tree().dirty_count() == dirty))),
    }
}

/// Returns the number of nodes that a rehash has hashed, plus one if the root is clean. A refused rehash leaves some of
/// the nodes clean, and everything else unchanged.
fn count_clean(
    rt: &(impl Threads + Sync),
    alloc: Global,
    state: &RangeState,
    hashed: Result<u64, Refusal>,
) -> Result<u64, Refusal> {
    match hashed {
        Ok(hashed) => {
            let root = NodeAt::new(0, 0).ok_or(Refusal::Stale)?;
            let clean = state.digest_at(root).is_some();
            Ok(hashed.saturating_add(u64::from(clean)))
        }
        Err(refusal) => Err(unchanged(refusal, is_on_the_way(rt, alloc, state))),
    }
}

/// Returns true if a range is between its states before and after a rehash.
fn is_on_the_way(
    rt: &(impl Threads + Sync),
    alloc: Global,
    state: &RangeState,
) -> Result<bool, Refusal> {
    let before = range(alloc)?;
    let mut after = range(alloc)?;
    after.rehash(rt, alloc)?;
    Ok(is_between(state, &before, &after))
}
