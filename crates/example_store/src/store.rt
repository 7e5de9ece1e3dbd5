//! A store: both replicas of a range, opened, renewed and closed.
ghost use Rattle.std.specs.Prelude.{◌≡◌, ◌^◌, ◌<◌};

use crate::fault::Fault;
use crate::replica::Replica;
use crate::routes::{Homes, Keys, homes_of};
use crate::slots::open_slots;
use key_ring::Ring;
use range_state::RangeConfig;
use ring_node::SharedController;
use std::alloc::Global;
use std::sync::Wait;
use std::sync::ledger::{Blank, Ledger};
use vclock::Refusal;

/// The number of the format of both replicas.
const FORMAT: u64 = 1;

/// The maximum number of entries in a journal.
const JOURNAL_LIMIT: u64 = 1_000_000;

/// Both replicas of a range, the slots of their background work, and the keys.
pub(crate) struct Store<A: Ledger, B: Ledger, C: Ledger> {
    pub(crate) alloc: Global,
    pub(crate) first: Replica<A>,
    pub(crate) second: Replica<B>,
    pub(crate) slots: SharedController<C>,
    pub(crate) keys: Keys,
}

impl<A: Ledger, B: Ledger, C: Ledger> Store<A, B, C> {
    /// Opens the store of a range of a ring, with ledgers of both replicas and of the slots.
    pub(crate) fn open<R: Print>(
        rt: &R,
        alloc: Global,
        ring: &Ring,
        range: u16,
        first: Blank,
        second: Blank,
        slots: Blank,
    ) -> Result<Store<A, B, C>, Fault>
        requires range { range < 2 ^ ring.now.bits }
        requires first { (first.name ≡ A.name) × (first.parts ≡ A.parts) × (first.parts ≡ 3) }
        requires second { (second.name ≡ B.name) × (second.parts ≡ B.parts) × (second.parts ≡ 3) }
        requires slots { (slots.name ≡ C.name) × (slots.parts ≡ C.parts) × (slots.parts ≡ 1024) }
    {
        let homes = homes_of(ring, range)?;
        let config = config_of(ring, range)?;
        let (first_node, second_node) = (homes.first, homes.second);
        println!(rt; "range {range}: puts at node {first_node}, copies at node {second_node}")?;
        let keys = Keys::of(alloc, ring, range)?;
        Store::with_keys(alloc, keys, homes, config, first, second, slots)
    }

    /// Opens the slots and both replicas.
    fn with_keys(
        alloc: Global,
        keys: Keys,
        homes: Homes,
        config: RangeConfig,
        first: Blank,
        second: Blank,
        slots: Blank,
    ) -> Result<Store<A, B, C>, Fault>
        requires first { (first.name ≡ A.name) × (first.parts ≡ A.parts) × (first.parts ≡ 3) }
        requires second { (second.name ≡ B.name) × (second.parts ≡ B.parts) × (second.parts ≡ 3) }
        requires slots { (slots.name ≡ C.name) × (slots.parts ≡ C.parts) × (slots.parts ≡ 1024) }
    {
        let slots = open_slots::<C>(alloc, slots)?;
        let first = Replica::<A>::open(alloc, first, homes.first, config)?;
        let second = Replica::<B>::open(alloc, second, homes.second, config)?;
        Ok(Store {
            alloc,
            first,
            second,
            slots,
            keys,
        })
    }

    /// Renews both replicas: each continues with the versions that it holds.
    pub(crate) fn renew<R: Wait + Print>(self, rt: &R) -> Result<Store<A, B, C>, Fault> {
        let before = self.first.range.counts(rt).entries;
        let store = self.renew_replicas()?;
        let after = store.first.range.counts(rt).entries;
        println!(rt; "  night: {before} entries settled and renewed to {after}")?;
        Ok(store)
    }

    /// Renews the first replica, then the second one. Refused as [`Replica::renew`] is.
    fn renew_replicas(self) -> Result<Store<A, B, C>, Refusal> {
        let Store {
            alloc,
            first,
            second,
            slots,
            keys,
        } = self;
        let first = first.renew(alloc, JOURNAL_LIMIT)?;
        let second = second.renew(alloc, JOURNAL_LIMIT)?;
        Ok(Store {
            alloc,
            first,
            second,
            slots,
            keys,
        })
    }

    /// Closes both replicas.
    pub(crate) fn close<R: Print>(self, rt: &R) -> Result<(), Fault> {
        let (first, second) = self.close_replicas();
        let (entries, others) = (first?, second?);
        println!(rt; "  evening: {entries} and {others} entries, all receipts settled")?;
        Ok(())
    }

    /// Closes both replicas, and returns the numbers of entries in their journals. Refused as [`Replica::close`] is.
    fn close_replicas(self) -> (Result<u64, Refusal>, Result<u64, Refusal>) {
        let Store {
            alloc,
            first,
            second,
            slots: _slots,
            keys: _keys,
        } = self;
        (first.close(alloc), second.close(alloc))
    }
}

impl<A: Ledger, B: Ledger, C: Ledger> Drop for Store<A, B, C> {
    /// Keeps the fields out of the proofs of functions that drop a store.
    fn drop(self) {
        let Store {
            alloc: _alloc,
            first: _first,
            second: _second,
            slots: _slots,
            keys: _keys,
        } = self;
    }
}

/// Returns the config of both replicas of a range. Refused: BadRing (the range isn't in the ring).
fn config_of(ring: &Ring, range: u16) -> Result<RangeConfig, Refusal> {
    let (bits, number) = (u64::from(ring.bits()), u64::from(range));
    RangeConfig::new(FORMAT, bits, number, JOURNAL_LIMIT).ok_or(Refusal::BadRing)
}
