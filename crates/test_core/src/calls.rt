//! The libraries' calls as tests make them. None of these functions has an `ensures`, so a test that calls them carries
//! no facts about their results, and is proved fast.
ghost use Rattle.std.specs.Prelude.{◌≤◌};

use range_journal::Source;
use range_state::{
    Accepted, AnswerTaken, Event, Loaded, RangeConfig, RangeState, Renewal, RenewalStart, Reply,
    Unfinished,
};
use rehash::{Job, run_job};
use snapshot::Snapshot;
use std::alloc::Global;
use std::sync::Arc;
use std::test::Fail;
use std::thread::Threads;
use test_values::calls::clock;
use tree_nodes::{Digest, Hashed, NodeAt, Text, hash};
use vclock::{Bytes, Refusal};
use version_set::{Kind, Version};
use walk_messages::{Ask, Offer};

/// Returns a text with its digest.
pub(crate) fn hashed(alloc: Global, text: &[u8]) -> Result<Hashed, Refusal> {
    Ok(hash(Text::copy_of(alloc, text)?))
}

/// Returns the text `abc`, which no node can have, with its digest.
pub(crate) fn abc(alloc: Global) -> Result<Hashed, Refusal> {
    hashed(alloc, b"abc")
}

/// Returns a range without rows, of a ring with one range. Its journal takes this number of entries.
pub(crate) fn new_range(alloc: Global, format: u64, limit: u64) -> Result<RangeState, Fail> {
    let config = RangeConfig::new(format, 0, 0, limit).ok_or("no such range")?;
    Ok(RangeState::new(alloc, config)?)
}

/// Returns a range of format 1 without rows, whose nodes are all clean.
pub(crate) fn clean_range(rt: &(impl Threads + Sync), alloc: Global) -> Result<RangeState, Fail> {
    let mut state = new_range(alloc, 1, 1_000)?;
    rehash(rt, alloc, &mut state)?;
    Ok(state)
}

/// Returns a range of format 1 that holds `a`, whose nodes are all clean.
pub(crate) fn range_of_a(rt: &(impl Threads + Sync), alloc: Global) -> Result<RangeState, Fail> {
    let mut state = new_range(alloc, 1, 1_000)?;
    put_a(alloc, &mut state, &[])?;
    rehash(rt, alloc, &mut state)?;
    Ok(state)
}

/// Returns the snapshot of a range of format 1 that holds `a`.
pub(crate) fn snapshot_of_a(
    rt: &(impl Threads + Sync),
    alloc: Global,
) -> Result<Arc<Snapshot, Global>, Fail> {
    Ok(snapshot(alloc, &range_of_a(rt, alloc)?)?)
}

/// Puts a value at a node, 1 to 65,535, with a context, and returns the number of the entry.
pub(crate) fn put(
    alloc: Global,
    state: &mut RangeState,
    at: u16,
    context: &[(u64, u64)],
    key: &[u8],
    value: &[u8],
) -> Result<u64, Refusal>
    requires { 1 ≤ at }
{
    let context = clock(alloc, context)?;
    let value = Bytes::copy_of(alloc, value)?;
    let receipt = state.put(alloc, 0, at, key, &context, Kind::Live, value)?;
    Ok(receipt.number)
}

/// Puts `x` under `a` at node 1, with a context. `a` is in leaf 12 of format 1.
pub(crate) fn put_a(
    alloc: Global,
    state: &mut RangeState,
    context: &[(u64, u64)],
) -> Result<u64, Refusal> {
    put(alloc, state, 1, context, b"a", b"x")
}

/// Puts `x` under `a` at node 1 with a context, by a put that checks what its client has read.
pub(crate) fn put_read_a(
    alloc: Global,
    state: &mut RangeState,
    context: &[(u64, u64)],
) -> Result<u64, Refusal> {
    let context = clock(alloc, context)?;
    let value = Bytes::copy_of(alloc, b"x")?;
    let receipt = state.put_read(alloc, 0, 1, b"a", &context, Kind::Live, value)?;
    Ok(receipt.number)
}

/// Accepts a copy at seat 3, and returns the number of its entry, or `None` if it is known.
pub(crate) fn accept(
    alloc: Global,
    state: &mut RangeState,
    key: &[u8],
    copy: Version,
) -> Result<Option<u64>, Refusal> {
    match state.accept(alloc, 3, Source::Copy, key, copy)? {
        Accepted::Taken(receipt) => Ok(Some(receipt.number)),
        Accepted::Known => Ok(None),
    }
}

/// Returns the number of versions of a key that a range holds.
pub(crate) fn count_held(state: &RangeState, key: &[u8]) -> usize {
    state.store().versions(key).len()
}

/// Hashes all dirty nodes, and returns their number.
pub(crate) fn rehash(
    rt: &(impl Threads + Sync),
    alloc: Global,
    state: &mut RangeState,
) -> Result<u64, Refusal> {
    state.rehash(rt, alloc)
}

/// Returns the next job of a range, or `None` if all nodes are clean.
pub(crate) fn take_job(alloc: Global, state: &RangeState) -> Result<Option<Job>, Refusal> {
    state.take_job(alloc, 0)
}

/// Returns the next job of a range that isn't clean.
pub(crate) fn next_job(alloc: Global, state: &RangeState) -> Result<Job, Fail> {
    Ok(take_job(alloc, state)?.ok_or("no job")?)
}

/// Returns this number of jobs, or all if there are fewer.
pub(crate) fn take_jobs(
    alloc: Global,
    state: &RangeState,
    most: usize,
) -> Result<Vec<Job>, Refusal> {
    state.take_jobs(alloc, most)
}

/// Hashes a job, and installs its digest.
pub(crate) fn install(state: &mut RangeState, job: Job) -> Result<(), Refusal> {
    let node = job.node();
    state.install(node, &run_job(job))
}

/// Keeps the current rows as the moment of a range.
pub(crate) fn hold_moment(alloc: Global, state: &mut RangeState) -> Result<(), Refusal> {
    let _before = state.hold_moment(alloc)?;
    Ok(())
}

/// Returns this number of jobs of a range's moment, or all if there are fewer.
pub(crate) fn take_moment_jobs(
    alloc: Global,
    state: &RangeState,
    most: usize,
) -> Result<Vec<Job>, Refusal> {
    state.take_moment_jobs(alloc, most)
}

/// Hashes a job of a range's moment, and installs its digest.
pub(crate) fn install_in_moment(state: &mut RangeState, job: Job) -> Result<(), Refusal> {
    let node = job.node();
    state.install_moment(node, &run_job(job))
}

/// Keeps the current rows as the moment of a range, and hashes all its nodes.
pub(crate) fn hold_whole_moment(alloc: Global, state: &mut RangeState) -> Result<(), Refusal> {
    hold_moment(alloc, state)?;
    for _level in 0..4 {
        state.hash_moment(alloc, 10_000)?;
    }
    Ok(())
}

/// Returns the digest of the root of a range's moment.
pub(crate) fn moment_root(alloc: Global, state: &RangeState) -> Result<Digest, Refusal> {
    Ok(state.moment(alloc)?.root())
}

/// Opens a session with partner 7 at the moment of a range, and returns its number.
pub(crate) fn open_at_moment(
    alloc: Global,
    state: &mut RangeState,
    offer: Offer,
) -> Result<u64, Refusal> {
    state.open_session_at_moment(alloc, 7, offer)
}

/// Migrates a range to format 2.
pub(crate) fn migrate(alloc: Global, state: &mut RangeState) -> Result<(), Refusal> {
    state.migrate(alloc)
}

/// Makes a new range with a limit from the versions that a range holds, at seat 4.
pub(crate) fn renew(alloc: Global, state: &RangeState, limit: u64) -> Result<RangeState, Refusal> {
    state.renewed(alloc, 4, limit)
}

/// Begins a renewal alongside puts.
pub(crate) fn begin_renewal(alloc: Global, state: &RangeState) -> Result<RenewalStart, Refusal> {
    state.begin_renewal(alloc)
}

/// Makes the new range of a renewal with a limit, at seat 4.
pub(crate) fn build(alloc: Global, start: &RenewalStart, limit: u64) -> Result<Renewal, Refusal> {
    start.renewal(alloc, 4, limit)
}

/// Accepts some of a range's later entries into the new range at seat 4, and returns the number of entries left.
pub(crate) fn catch_up(
    alloc: Global,
    renewal: &mut Renewal,
    old: &RangeState,
    most: u64,
) -> Result<u64, Refusal> {
    renewal.catch_up(alloc, 4, old, most)
}

/// Accepts the entries that are left at seat 4, replaces the old range by the new one, and returns the old one.
pub(crate) fn finish(
    alloc: Global,
    renewal: Renewal,
    range: &mut RangeState,
) -> Result<RangeState, Unfinished> {
    renewal.finish(alloc, 4, range)
}

/// Loads rows of one leaf from their texts, at seat 4.
pub(crate) fn load_rows(
    alloc: Global,
    state: &mut RangeState,
    text: &[u8],
) -> Result<Loaded, Refusal> {
    state.load_rows(alloc, 4, text)
}

/// Returns the texts of the rows of a leaf.
pub(crate) fn rows_text(alloc: Global, state: &RangeState, leaf: u16) -> Result<Vec<u8>, Refusal> {
    state.store().tree().rows_text(alloc, leaf)
}

/// Returns the snapshot of a range whose nodes are all clean.
pub(crate) fn snapshot(
    alloc: Global,
    state: &RangeState,
) -> Result<Arc<Snapshot, Global>, Refusal> {
    state.snapshot(alloc)
}

/// Returns the digest of the root of a range whose nodes are all clean.
pub(crate) fn root_of(alloc: Global, state: &RangeState) -> Result<Digest, Refusal> {
    Ok(snapshot(alloc, state)?.root())
}

/// Returns the text of a node.
pub(crate) fn text_at(
    alloc: Global,
    snapshot: &Snapshot,
    node: NodeAt,
) -> Result<Vec<u8>, Refusal> {
    snapshot.answer(alloc, Ask { offer: 1, node })
}

/// Returns the text of a node with its digest.
pub(crate) fn hashed_at(
    alloc: Global,
    snapshot: &Snapshot,
    node: NodeAt,
) -> Result<Hashed, Refusal> {
    Ok(hash(Text::from(text_at(alloc, snapshot, node)?)))
}

/// Returns an offer of format 1 and range 0.
pub(crate) fn offer(root: Digest) -> Offer {
    Offer {
        offer: 1,
        format: 1,
        range: 0,
        root,
    }
}

/// Opens a session with partner 7, and returns its number.
pub(crate) fn open_session(
    alloc: Global,
    state: &mut RangeState,
    offer: Offer,
) -> Result<u64, Refusal> {
    state.open_session(alloc, 7, offer)
}

/// Answers a node of a session at seat 5.
pub(crate) fn take_answer(
    alloc: Global,
    state: &mut RangeState,
    id: u64,
    node: NodeAt,
    text: Hashed,
) -> Result<AnswerTaken, Refusal> {
    state.take_answer(alloc, 5, id, node, text)
}

/// Runs events, and returns their replies.
pub(crate) fn run_events(
    alloc: Global,
    state: &mut RangeState,
    events: Vec<Event>,
) -> Result<Vec<Reply>, Refusal> {
    state.run_events(alloc, events)
}
