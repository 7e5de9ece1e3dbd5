//! The calls of shared values that tests make. Each is in one function without clauses, so a test that makes it carries
//! no facts about it, and is proved fast.

use admission::Slot;
use caller_pass::{LockedRange, Pass};
use range_journal::Source;
use range_state::{Accepted, Loaded, RangeBytes, RangeConfig, RangeCounts};
use ring_node::{
    Gate, Link, MomentReport, OfferPool, OpenGate, RehashReport, SharedController, SharedRange,
    SyncReport,
};
use snapshot::Snapshot;
use std::alloc::Global;
use std::sync::ledger::Ledger;
use std::sync::{Arc, Wait};
use vclock::{Bytes, Clock, Refusal};
use version_set::{Kind, Version, VersionSet};
use walk_messages::Offer;

/// The number of the partner of each sync.
const PARTNER: u16 = 2;

/// Returns a clock that node 1 has counted this number of times. It is empty for 0.
fn counted(alloc: Global, count: u64) -> Result<Clock, Refusal> {
    if count == 0 {
        Clock::from_pairs(alloc, &[])
    } else {
        Clock::from_pairs(alloc, &[(1, count)])
    }
}

/// Puts the value `x`, with a context that node 1 has counted this number of times. Returns the number of the entry.
pub fn put<L: Ledger, R: Wait>(
    rt: &R,
    alloc: Global,
    range: &SharedRange<L>,
    pass: &mut Pass<L>,
    key: &[u8],
    count: u64,
) -> Result<u64, Refusal> {
    let (context, value) = (counted(alloc, count)?, Bytes::copy_of(alloc, b"x")?);
    let receipt = range.put(rt, alloc, pass, key, &context, Kind::Live, value)?;
    Ok(receipt.number)
}

/// Accepts a copy of a version. Returns the number of the entry, or `None` if the version is known.
pub fn copy<L: Ledger, R: Wait>(
    rt: &R,
    alloc: Global,
    range: &SharedRange<L>,
    pass: &mut Pass<L>,
    key: &[u8],
    version: Version,
) -> Result<Option<u64>, Refusal> {
    match range.copy(rt, alloc, pass, Source::Copy, key, version)? {
        Accepted::Taken(receipt) => Ok(Some(receipt.number)),
        Accepted::Known => Ok(None),
    }
}

/// Loads rows of one leaf from their texts.
pub fn load_rows<L: Ledger, R: Wait>(
    rt: &R,
    alloc: Global,
    range: &SharedRange<L>,
    pass: &mut Pass<L>,
    text: &[u8],
) -> Result<Loaded, Refusal> {
    range.load_rows(rt, alloc, pass, text)
}

/// Loads rows of one leaf from their texts, and passes a gate between the two locks.
pub fn load_passing<L: Ledger, G: Gate, R: Wait>(
    rt: &R,
    alloc: Global,
    range: &SharedRange<L>,
    gate: &G,
    pass: &mut Pass<L>,
    text: &[u8],
) -> Result<Loaded, Refusal> {
    range.load_rows_passing(rt, alloc, gate, pass, text)
}

/// Loads rows of one leaf into a locked range.
pub fn load_locked<L: Ledger>(
    alloc: Global,
    range: &mut LockedRange<L>,
    pass: &mut Pass<L>,
    text: &[u8],
) -> Result<Loaded, Refusal> {
    range.load_rows(alloc, pass, text)
}

/// Returns the held versions of a key.
pub fn get<L: Ledger, R: Wait>(
    rt: &R,
    alloc: Global,
    range: &SharedRange<L>,
    pass: &mut Pass<L>,
    key: &[u8],
) -> Result<VersionSet, Refusal> {
    match range.get(rt, alloc, pass, key) {
        Ok(versions) => Ok(versions),
        Err(unread) => Err(unread.into_refusal()),
    }
}

/// Returns the held versions of a key, without a pass.
pub fn look<L: Ledger, R: Wait>(
    rt: &R,
    alloc: Global,
    range: &SharedRange<L>,
    key: &[u8],
) -> Result<VersionSet, Refusal> {
    range.look(rt, alloc, key)
}

/// Returns the counts of a range.
pub fn count<L: Ledger, R: Wait>(rt: &R, range: &SharedRange<L>) -> RangeCounts {
    range.counts(rt)
}

/// Returns the size of a range.
pub fn bytes<L: Ledger, R: Wait>(rt: &R, range: &SharedRange<L>) -> RangeBytes {
    range.bytes(rt)
}

/// Migrates a range to format 2.
pub fn migrate<L: Ledger, R: Wait>(
    rt: &R,
    alloc: Global,
    range: &SharedRange<L>,
) -> Result<(), Refusal> {
    range.migrate(rt, alloc)
}

/// Returns the configuration of a range.
pub fn config<L: Ledger, R: Wait>(rt: &R, range: &SharedRange<L>) -> RangeConfig {
    range.config(rt)
}

/// Makes a snapshot of a range.
pub fn snapshot<L: Ledger, R: Wait>(
    rt: &R,
    alloc: Global,
    range: &SharedRange<L>,
) -> Result<Arc<Snapshot, Global>, Refusal> {
    range.snapshot(rt, alloc)
}

/// Publishes a snapshot, and returns its offer.
pub fn publish<R: Wait>(
    rt: &R,
    pool: &OfferPool,
    snapshot: Arc<Snapshot, Global>,
) -> Result<Offer, Refusal> {
    pool.publish(rt, snapshot)
}

/// Lends a slot.
pub fn lend<C: Ledger, R: Wait>(rt: &R, slots: &SharedController<C>) -> Result<Slot<C>, Refusal> {
    slots.lend(rt)
}

/// Hashes the dirty nodes of a range, in at most this number of turns. The worker passes the gate.
pub fn rehash<L: Ledger, C: Ledger, G: Gate, R: Wait>(
    rt: &R,
    alloc: Global,
    range: &SharedRange<L>,
    slots: &SharedController<C>,
    gate: &G,
    turns: u64,
) -> Result<RehashReport, Refusal> {
    let slot = lend(rt, slots)?;
    let report = range.rehash_worker(rt, alloc, &slot, gate, 0, turns);
    slots.give_back(rt, slot);
    report
}

/// Syncs a clean range over a link, in at most this number of turns.
pub fn sync<L: Ledger, C: Ledger, K: Link, R: Wait>(
    rt: &R,
    alloc: Global,
    range: &SharedRange<L>,
    slots: &SharedController<C>,
    pass: &mut Pass<L>,
    link: &mut K,
    turns: u64,
) -> Result<SyncReport, Refusal> {
    let slot = lend(rt, slots)?;
    let report = range.sync_worker(rt, alloc, &slot, link, pass, PARTNER, turns);
    slots.give_back(rt, slot);
    report
}

/// Keeps a moment of a range and hashes it, in at most this number of turns.
pub fn hash_moment<L: Ledger, C: Ledger, R: Wait>(
    rt: &R,
    alloc: Global,
    range: &SharedRange<L>,
    slots: &SharedController<C>,
    turns: u64,
) -> Result<MomentReport, Refusal> {
    let slot = lend(rt, slots)?;
    let report = range.moment_worker(rt, alloc, &slot, &OpenGate, turns);
    slots.give_back(rt, slot);
    report
}

/// Syncs a range at its moment over a link, in at most this number of turns.
pub fn sync_at_moment<L: Ledger, C: Ledger, K: Link, R: Wait>(
    rt: &R,
    alloc: Global,
    range: &SharedRange<L>,
    slots: &SharedController<C>,
    pass: &mut Pass<L>,
    link: &mut K,
    turns: u64,
) -> Result<SyncReport, Refusal> {
    let slot = lend(rt, slots)?;
    let report = range.sync_worker_at_moment(rt, alloc, &slot, link, pass, PARTNER, turns);
    slots.give_back(rt, slot);
    report
}
