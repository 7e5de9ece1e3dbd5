//! Pairs of ranges that reconcile.
use crate::lines::{show, unchanged};
use crate::states::{is_between, is_same};
use range_journal::Source;
use range_state::{RangeConfig, RangeState, Reconciled, reconcile};
use std::alloc::Global;
use std::io;
use std::thread::Threads;
use vclock::{Bytes, Clock, Refusal};
use version_set::{Kind, Version};

/// Shows the call on a pair.
pub(crate) fn show_all<R: Print + AllocGlobal + Threads + Sync>(rt: &R) -> io::Result<()> {
    show(rt, "reconcile", reconcile_pair(rt, rt.alloc()))
}

/// Returns a range with a version of a key that only one node has counted. All nodes of its tree are clean.
fn range(
    rt: &(impl Threads + Sync),
    alloc: Global,
    key: &[u8],
    node: u64,
    value: &[u8],
) -> Result<RangeState, Refusal> {
    let config = RangeConfig::new(1, 0, 0, 100).ok_or(Refusal::BadRing)?;
    let mut state = RangeState::new(alloc, config)?;
    let version = Version {
        clock: Clock::from_pairs(alloc, &[(node, 1)])?,
        kind: Kind::Live,
        value: Bytes::copy_of(alloc, value)?,
    };
    state.accept(alloc, 0, Source::Copy, key, version)?;
    state.rehash(rt, alloc)?;
    Ok(state)
}

/// Two ranges with a key each.
#[derive(Drop)]
struct Pair {
    a: RangeState,
    b: RangeState,
}

impl Pair {
    fn new(rt: &(impl Threads + Sync), alloc: Global) -> Result<Pair, Refusal> {
        Ok(Pair {
            a: range(rt, alloc, b"a", 1, b"x")?,
            b: range(rt, alloc, b"abc", 2, b"y")?,
        })
    }

    /// Reconciles both.
    fn reconcile(&mut self, alloc: Global) -> Result<Reconciled, Refusal> {
        reconcile_both(alloc, &mut self.a, &mut self.b)
    }

    /// Returns true if the first stopped halfway and the second hasn't begun, or the first is done and the second
    /// stopped halfway. A stopped session is cancelled.
    fn has_stopped(&self, before: &Pair, after: &Pair) -> bool {
        if is_same(&self.b, &before.b) {
            is_between(&self.a, &before.a, &after.a) || is_same(&self.a, &after.a)
        } else {
            is_same(&self.a, &after.a) && is_between(&self.b, &before.b, &after.b)
        }
    }
}

/// Reconciles a pair. The digits of the result are the numbers of nodes that each asked, and of versions that each
/// accepted.
fn reconcile_pair(rt: &(impl Threads + Sync), alloc: Global) -> Result<u64, Refusal> {
    let mut pair = Pair::new(rt, alloc)?;
    match pair.reconcile(alloc) {
        Ok(report) => Ok(digits(&report)),
        Err(refusal) => Err(unchanged(refusal, has_stopped(rt, alloc, &pair))),
    }
}

/// Returns true if a pair stopped halfway.
fn has_stopped(rt: &(impl Threads + Sync), alloc: Global, pair: &Pair) -> Result<bool, Refusal> {
    let before = Pair::new(rt, alloc)?;
    let mut after = Pair::new(rt, alloc)?;
    after.reconcile(alloc)?;
    Ok(pair.has_stopped(&before, &after))
}

/// Reconciles two replicas of one range, at nodes 1 and 2.
fn reconcile_both(
    alloc: Global,
    a: &mut RangeState,
    b: &mut RangeState,
) -> Result<Reconciled, Refusal> {
    let (one, other) = (a.store().config(), b.store().config());
    if one.format() != other.format()
        || one.bits() != other.bits()
        || one.range() != other.range()
    {
        return Err(Refusal::OtherRange);
    }
    reconcile(alloc, a, 1, b, 2, 0)
}

/// Returns a report's four counts as the digits of a number.
fn digits(report: &Reconciled) -> u64 {
    let mut number = 0u64;
    for count in [
        report.asked_a,
        report.asked_b,
        report.accepted_a,
        report.accepted_b,
    ] {
        number = number.saturating_mul(10).saturating_add(count);
    }
    number
}
