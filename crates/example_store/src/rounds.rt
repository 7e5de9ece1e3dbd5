//! Rounds of anti-entropy.
use crate::client::update_each;
use crate::replica::Replica;
use caller_pass::Pass;
use ring_node::{Link, OpenGate, RehashReport, SharedController, SharedRange, SyncReport};
use std::alloc::Global;
use std::sync::Wait;
use std::sync::ledger::Ledger;
use std::thread;
use std::thread::{JoinHandle, Threads};
use tree_nodes::Digest;
use vclock::Refusal;
use walk_messages::Offer;

/// The maximum number of turns of a rehash: more than the number of nodes of a tree, which is 273, or 4,369 in format
/// 2. The other turns are for nodes that a put makes dirty meanwhile.
const REHASH_TURNS: u64 = 5_000;

/// The maximum number of turns of a sync: more than two for each node of a tree.
const SYNC_TURNS: u64 = 10_000;

/// The thread of a rehash worker.
type Worker = JoinHandle<Result<RehashReport, Refusal>>;

/// Hashes the dirty nodes of a range. Workers have different numbers, so that they take different nodes. Refused:
/// NoSlot, NoMemory.
pub(crate) fn rehash<L: Ledger, C: Ledger, R: Wait>(
    rt: &R,
    alloc: Global,
    slots: &SharedController<C>,
    range: &SharedRange<L>,
    worker: u64,
) -> Result<RehashReport, Refusal> {
    let slot = slots.lend(rt)?;
    let report = range.rehash_worker(rt, alloc, &slot, &OpenGate, worker, REHASH_TURNS);
    slots.give_back(rt, slot);
    report
}

/// Puts keys while two workers hash the range's tree. Refused as the puts and the workers are; NoMemory also if a
/// thread can't be spawned.
pub(crate) fn put_beside_rehash<L, C, R>(
    rt: &R,
    alloc: Global,
    slots: &SharedController<C>,
    range: &SharedRange<L>,
    pass: &mut Pass<L>,
    keys: &[String],
) -> Result<(), Refusal>
where
    L: Ledger + Send + Sync,
    C: Ledger + Send + Sync,
    R: Threads + Wait + Sync,
{
    thread::scope(thread::scope_env(), rt, |scope| {
        let one = scope.spawn(move || rehash(rt, alloc, slots, range, 0)).ok();
        let two = scope.spawn(move || rehash(rt, alloc, slots, range, 1)).ok();
        let puts = update_each(rt, alloc, range, pass, keys, b"open");
        let rehashes = join_both(rt, one, two);
        puts?;
        rehashes
    })
}

/// Waits for both workers. Refused as they are; NoMemory if one of them has no thread.
fn join_both<R: Threads>(rt: &R, one: Option<Worker>, two: Option<Worker>) -> Result<(), Refusal> {
    let Some(one) = one else {
        return Err(Refusal::NoMemory);
    };
    let Some(two) = two else {
        return Err(Refusal::NoMemory);
    };
    one.join(rt)?;
    two.join(rt)?;
    Ok(())
}

impl<L: Ledger> Replica<L> {
    /// Hashes the dirty nodes, and offers a snapshot. Refused: NoSlot, Dirty (a put followed the rehash), SessionsFull,
    /// NoMemory.
    pub(crate) fn publish<C: Ledger, R: Wait>(
        &self,
        rt: &R,
        alloc: Global,
        slots: &SharedController<C>,
    ) -> Result<Offer, Refusal> {
        rehash(rt, alloc, slots, &self.range, 0)?;
        let snapshot = self.range.snapshot(rt, alloc)?;
        self.offers.publish(rt, snapshot)
    }

    /// Hashes the dirty nodes, and takes the partner's versions that this replica is missing over a link. Refused:
    /// NoSlot, or as [`SharedRange::sync_worker`] is.
    pub(crate) fn sync<C: Ledger, K: Link, R: Wait>(
        &mut self,
        rt: &R,
        alloc: Global,
        slots: &SharedController<C>,
        link: &mut K,
        partner: u16,
    ) -> Result<SyncReport, Refusal> {
        rehash(rt, alloc, slots, &self.range, 0)?;
        let (range, pass) = (&self.range, &mut self.syncer);
        let slot = slots.lend(rt)?;
        let report = range.sync_worker(rt, alloc, &slot, link, pass, partner, SYNC_TURNS);
        slots.give_back(rt, slot);
        report
    }

    /// Ends a replica's day: hashes the dirty nodes, and returns the digest of the root. Replicas that hold equal
    /// versions have equal roots. Refused: NoSlot, Dirty (a put followed the rehash), NoMemory.
    pub(crate) fn end_day<C: Ledger, R: Wait>(
        &self,
        rt: &R,
        alloc: Global,
        slots: &SharedController<C>,
    ) -> Result<Digest, Refusal> {
        rehash(rt, alloc, slots, &self.range, 0)?;
        Ok(self.range.snapshot(rt, alloc)?.root())
    }
}
