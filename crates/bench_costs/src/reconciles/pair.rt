//! Two replicas of a range.
use crate::ranges::{accept, new_range, rehash};
use range_state::{RangeState, Reconciled, reconcile};
use std::alloc::Global;
use std::thread::Threads;
use vclock::{Format, Refusal};

/// The depth of the leaves in format 1.
const LEAF_DEPTH: u8 = 2;

/// Two replicas of a range, at nodes 1 and 2, and the number of the next key.
pub(crate) struct Pair {
    a: RangeState,
    b: RangeState,
    next: u64,
}

impl Pair {
    /// Returns two ranges with this number of keys, the same in both.
    pub(crate) fn new(alloc: Global, keys: u64) -> Result<Pair, Refusal> {
        let mut a = new_range(alloc, Format::One)?;
        let mut b = new_range(alloc, Format::One)?;
        for number in 0..keys {
            accept(alloc, &mut a, number)?;
            accept(alloc, &mut b, number)?;
        }
        Ok(Pair { a, b, next: keys })
    }

    /// Gives each a number of keys that the other doesn't have, then each node its digest.
    pub(crate) fn part(
        &mut self,
        rt: &(impl Threads + Sync),
        alloc: Global,
        differ: u64,
    ) -> Result<(), Refusal> {
        for _ in 0..differ {
            accept(alloc, &mut self.a, self.next)?;
            accept(alloc, &mut self.b, self.next.wrapping_add(1))?;
            self.next = self.next.wrapping_add(2);
        }
        rehash(rt, alloc, &mut self.a)?;
        rehash(rt, alloc, &mut self.b)
    }

    /// Reconciles the replicas, which hold equal versions afterwards.
    pub(crate) fn reconcile(&mut self, alloc: Global) -> Result<Reconciled, Refusal> {
        reconcile_both(alloc, &mut self.a, &mut self.b)
    }

    /// Returns the number of leaves that differed in the last call of `reconcile`: the leaves that the first replica
    /// asked.
    pub(crate) fn leaves(&self) -> u64 {
        let Some(record) = self.a.records().last() else {
            return 0;
        };
        let mut leaves = 0u64;
        for node in record.session().asked() {
            if node.depth == LEAF_DEPTH {
                leaves = leaves.wrapping_add(1);
            }
        }
        leaves
    }
}

impl Drop for Pair {
    /// Keeps the ranges out of the proofs of callers that drop a pair.
    fn drop(self) {
        let Pair {
            a: _a,
            b: _b,
            next: _next,
        } = self;
    }
}

/// Reconciles two ranges, which must be replicas of one.
fn reconcile_both(
    alloc: Global,
    a: &mut RangeState,
    b: &mut RangeState,
) -> Result<Reconciled, Refusal> {
    let (one, other) = (a.store().config(), b.store().config());
    if one.format() != other.format()
        || one.bits() != other.bits()
        || one.range() != other.range()
    {
        return Err(Refusal::OtherRange);
    }
    reconcile(alloc, a, 1, b, 2, 0)
}
