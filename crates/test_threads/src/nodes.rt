//! Fixtures: a replica of a range, a node, and a pair of replicas. Their methods have no clauses, so a test that calls
//! them carries no facts about them, and is proved fast.
ghost use Rattle.std.specs.Prelude.{◌≡◌, ◌≤◌};

use crate::calls;
use admission::Controller;
use caller_pass::{Pass, open_passes};
use range_state::{RangeConfig, RangeState};
use ring_node::{
    DeliverReport, Link, OfferPool, OpenGate, SharedController, SharedHints, SharedRange,
    SyncReport, deliver,
};
use std::alloc::Global;
use std::sync::Wait;
use std::sync::ledger::{Blank, Ledger};
use std::test::Fail;
use vclock::{Bytes, Refusal};
use version_set::Version;

/// The maximum number of turns of a worker that isn't held.
pub const TURNS: u64 = 600;

/// Returns the configuration of a range of format 1, with all keys and a journal of this number of entries.
pub fn all_keys(limit: u64) -> Result<RangeConfig, Fail> {
    Ok(RangeConfig::new(1, 0, 0, limit).ok_or("no such range")?)
}

/// A replica of a range at node 1, with the passes of its seats and with its offers.
pub struct Replica<L: Ledger> {
    /// The range.
    pub range: SharedRange<L>,
    /// The passes, by ascending seats.
    pub passes: Vec<Pass<L>>,
    /// The offers.
    pub offers: OfferPool,
}

impl<L: Ledger> Replica<L> {
    /// Opens a replica of a range that has accepted nothing.
    pub fn open(
        alloc: Global,
        blank: Blank,
        seats: u16,
        config: RangeConfig,
    ) -> Result<Replica<L>, Fail>
        requires name { blank.name ≡ L.name }
        requires parts { (blank.parts ≡ L.parts) × (L.parts ≡ seats) }
        requires few { (1 ≤ seats) × (seats ≤ 64) }
    {
        let state = RangeState::new(alloc, config)?;
        let (book, passes) = open_passes::<L>(blank, alloc, seats)?;
        Ok(Replica {
            range: SharedRange::new(1, state, book),
            passes,
            offers: OfferPool::new(alloc),
        })
    }

    /// Puts the value `x` at the first seat, as [`calls::put`] does.
    pub fn put<R: Wait>(
        &mut self,
        rt: &R,
        alloc: Global,
        key: &[u8],
        count: u64,
    ) -> Result<u64, Refusal> {
        let pass = self.passes.first_mut().ok_or(Refusal::Stranger)?;
        calls::put(rt, alloc, &self.range, pass, key, count)
    }

    /// Accepts a copy at the first seat, as [`calls::copy`] does.
    pub fn copy<R: Wait>(
        &mut self,
        rt: &R,
        alloc: Global,
        key: &[u8],
        version: Version,
    ) -> Result<Option<u64>, Refusal> {
        let pass = self.passes.first_mut().ok_or(Refusal::Stranger)?;
        calls::copy(rt, alloc, &self.range, pass, key, version)
    }

    /// Returns the range, the passes and the offers.
    pub fn into_parts(self) -> (SharedRange<L>, Vec<Pass<L>>, OfferPool) {
        let Replica {
            range,
            passes,
            offers,
        } = self;
        (range, passes, offers)
    }

    /// Closes the range, and returns its state.
    pub fn close(self, alloc: Global) -> Result<RangeState, Fail> {
        let (range, passes, _offers) = self.into_parts();
        match range.close(alloc, passes) {
            Ok(closed) => Ok(closed.state),
            Err(refused) => Err(Fail::from(refused.refusal)),
        }
    }
}

impl<L: Ledger> Drop for Replica<L> {
    /// Keeps the fields out of the proofs of tests that drop a replica.
    fn drop(self) {
        let Replica {
            range: _range,
            passes: _passes,
            offers: _offers,
        } = self;
    }
}

/// Returns a controller of 1 to 8 slots.
fn open_slots<C: Ledger>(alloc: Global, blank: Blank) -> Result<SharedController<C>, Refusal>
    requires ledger { (blank.name ≡ C.name) × (blank.parts ≡ C.parts) × (blank.parts ≡ 1024) }
{
    let slots = Controller::<C>::new(blank, alloc, 1, 8, 50_000)?;
    Ok(SharedController::new(slots))
}

/// Node 1, with its replica of a range, its slots, and the hints that it keeps.
pub struct Node<L: Ledger, C: Ledger> {
    /// The replica.
    pub replica: Replica<L>,
    /// The slots.
    pub slots: SharedController<C>,
    /// The hints.
    pub hints: SharedHints,
}

impl<L: Ledger, C: Ledger> Node<L, C> {
    /// Opens a node whose range has accepted nothing.
    pub fn open(
        alloc: Global,
        blank: Blank,
        slots: Blank,
        seats: u16,
        config: RangeConfig,
    ) -> Result<Node<L, C>, Fail>
        requires name { blank.name ≡ L.name }
        requires parts { (blank.parts ≡ L.parts) × (L.parts ≡ seats) }
        requires few { (1 ≤ seats) × (seats ≤ 64) }
        requires slots { (slots.name ≡ C.name) × (slots.parts ≡ C.parts) × (slots.parts ≡ 1024) }
    {
        let slots = open_slots::<C>(alloc, slots)?;
        Ok(Node {
            replica: Replica::<L>::open(alloc, blank, seats, config)?,
            slots,
            hints: SharedHints::new(alloc),
        })
    }

    /// Hashes all dirty nodes.
    pub fn rehash<R: Wait>(&self, rt: &R, alloc: Global) -> Result<(), Refusal> {
        calls::rehash(
            rt,
            alloc,
            &self.replica.range,
            &self.slots,
            &OpenGate,
            TURNS,
        )?;
        Ok(())
    }

    /// Syncs over a link with the pass of the first seat, in at most this number of turns.
    pub fn sync<K: Link, R: Wait>(
        &mut self,
        rt: &R,
        alloc: Global,
        link: &mut K,
        turns: u64,
    ) -> Result<SyncReport, Refusal> {
        let Replica { range, passes, .. } = &mut self.replica;
        let pass = passes.first_mut().ok_or(Refusal::Stranger)?;
        calls::sync(rt, alloc, range, &self.slots, pass, link, turns)
    }

    /// Keeps a hint, and returns its id.
    pub fn keep<R: Wait>(
        &self,
        rt: &R,
        alloc: Global,
        owner: u16,
        key: &[u8],
        version: Version,
    ) -> Result<u32, Refusal> {
        self.hints
            .keep(rt, owner, Bytes::copy_of(alloc, key)?, version)
    }

    /// Delivers the hints of an owner to the node's own range, in at most 10 turns.
    pub fn deliver<R: Wait>(
        &mut self,
        rt: &R,
        alloc: Global,
        owner: u16,
    ) -> Result<DeliverReport, Refusal> {
        let Replica { range, passes, .. } = &mut self.replica;
        let pass = passes.first_mut().ok_or(Refusal::Stranger)?;
        let slot = calls::lend(rt, &self.slots)?;
        let report = deliver(rt, alloc, &slot, &self.hints, range, pass, owner, 10);
        self.slots.give_back(rt, slot);
        report
    }

    /// Returns the id of the first pending hint of an owner after that one.
    pub fn pending<R: Wait>(
        &self,
        rt: &R,
        alloc: Global,
        owner: u16,
        after: u32,
    ) -> Result<Option<u32>, Refusal> {
        match self.hints.next(rt, alloc, owner, after)? {
            Some(hint) => Ok(Some(hint.id)),
            None => Ok(None),
        }
    }

    /// Returns the number of receipts of the first pass.
    pub fn receipts(&self) -> usize {
        match self.replica.passes.first() {
            Some(pass) => pass.receipts().len(),
            None => 0,
        }
    }

    /// Closes the range, and returns its state.
    pub fn close(self, alloc: Global) -> Result<RangeState, Fail> {
        let Node {
            replica,
            slots: _slots,
            hints: _hints,
        } = self;
        replica.close(alloc)
    }

    /// Closes the range, and returns the number of entries in its journal.
    pub fn count(self, alloc: Global) -> Result<u64, Fail> {
        Ok(self.close(alloc)?.journal().len())
    }
}

impl<L: Ledger, C: Ledger> Drop for Node<L, C> {
    /// Keeps the fields out of the proofs of tests that drop a node.
    fn drop(self) {
        let Node {
            replica: _replica,
            slots: _slots,
            hints: _hints,
        } = self;
    }
}

/// Two replicas, each of a range with two seats, and the slots of their workers.
pub struct Pair<L: Ledger, M: Ledger, C: Ledger> {
    /// A replica.
    pub one: Replica<L>,
    /// The other replica.
    pub two: Replica<M>,
    /// The slots.
    pub slots: SharedController<C>,
}

impl<L: Ledger, M: Ledger, C: Ledger> Pair<L, M, C> {
    /// Opens two replicas of ranges that have accepted nothing, with all keys and journals of 1,000 entries.
    pub fn open(
        alloc: Global,
        first: Blank,
        second: Blank,
        slots: Blank,
    ) -> Result<Pair<L, M, C>, Fail>
        requires first { (first.name ≡ L.name) × (first.parts ≡ L.parts) × (first.parts ≡ 2) }
        requires second { (second.name ≡ M.name) × (second.parts ≡ M.parts) × (second.parts ≡ 2) }
        requires slots { (slots.name ≡ C.name) × (slots.parts ≡ C.parts) × (slots.parts ≡ 1024) }
    {
        let slots = open_slots::<C>(alloc, slots)?;
        let config = all_keys(1_000)?;
        let one = Replica::<L>::open(alloc, first, 2, config)?;
        let two = Replica::<M>::open(alloc, second, 2, config)?;
        Ok(Pair { one, two, slots })
    }

    /// Closes both ranges, and returns the number of entries in each journal.
    pub fn close(self, alloc: Global) -> Result<[u64; 2], Fail> {
        let Pair {
            one,
            two,
            slots: _slots,
        } = self;
        let first = one.close(alloc)?.journal().len();
        Ok([first, two.close(alloc)?.journal().len()])
    }
}

impl<L: Ledger, M: Ledger, C: Ledger> Drop for Pair<L, M, C> {
    /// Keeps the fields out of the proofs of tests that drop a pair.
    fn drop(self) {
        let Pair {
            one: _one,
            two: _two,
            slots: _slots,
        } = self;
    }
}
