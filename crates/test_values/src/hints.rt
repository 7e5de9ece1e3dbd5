//! Hints: versions that are kept for replicas that are down.
use crate::checks::expect;
use crate::refusals::expect_refused;
use crate::versions::version;
use hint_store::{Delivery, Fate, HintCounts, HintStore};
use std::alloc::Global;
use std::test::Fail;
use vclock::{Bytes, Refusal};
use version_set::Kind;

/// Keeps the version that node 1 has counted this number of times.
fn keep(alloc: Global, store: &mut HintStore, owner: u16, count: u64) -> Result<u32, Refusal> {
    let key = Bytes::copy_of(alloc, b"a")?;
    store.keep(owner, key, version(alloc, (1, count), Kind::Live, b"x")?)
}

/// Confirms a hint by the answer of an owner that journaled such a version.
fn confirm(
    alloc: Global,
    store: &mut HintStore,
    id: u32,
    owner: u16,
    count: u64,
) -> Result<(), Refusal> {
    let delivery = Delivery {
        owner,
        key: Bytes::copy_of(alloc, b"a")?,
        version: version(alloc, (1, count), Kind::Live, b"x")?,
        known: false,
    };
    store.confirm(id, delivery)
}

/// Asserts that the first hint is the one found for owner 2, and that no other is found.
fn expect_found(alloc: Global, store: &mut HintStore) -> Result<(), Fail> {
    expect(keep(alloc, store, 2, 1)? == 1, "the first hint is 1")?;
    let hint = store.next(alloc, 2, 0)?.ok_or("no hint for 2")?;
    let kept = version(alloc, (1, 1), Kind::Live, b"x")?;
    expect(
        hint.id == 1 && hint.owner == 2 && hint.key.as_slice() == b"a".as_slice(),
        "the hint found is the first",
    )?;
    expect(hint.version.same(&kept), "it has the version kept")?;
    expect(store.next(alloc, 2, 1)?.is_none(), "there is no later hint")?;
    expect(store.next(alloc, 3, 0)?.is_none(), "owner 3 has no hint")
}

#[test]
fn a_hint_waits_for_its_owner(rt: HostRuntime) -> Result<(), Fail> {
    let alloc = rt.alloc();
    expect_found(alloc, &mut HintStore::new(alloc))
}

/// Asserts that only a hint's own version confirms it, and once.
fn expect_confirmed(alloc: Global, store: &mut HintStore) -> Result<(), Fail> {
    keep(alloc, store, 2, 1)?;
    let other = confirm(alloc, store, 1, 2, 2);
    expect_refused(other, Refusal::UnknownHint, "another version is refused")?;
    confirm(alloc, store, 1, 2, 1)?;
    let again = confirm(alloc, store, 1, 2, 1);
    expect_refused(again, Refusal::UnknownHint, "a delivered hint is refused")?;
    let fate = store.get(1).ok_or("no hint 1")?.fate;
    expect(
        store.pending() == 0 && store.delivered() == 1 && fate == Fate::Taken,
        "the hint is delivered",
    )
}

#[test]
fn a_hint_is_confirmed_once(rt: HostRuntime) -> Result<(), Fail> {
    let alloc = rt.alloc();
    expect_confirmed(alloc, &mut HintStore::new(alloc))
}

/// Asserts the number and the owner of the next hint.
fn expect_next(
    alloc: Global,
    store: &HintStore,
    owners: &[u16],
    after: u32,
    (id, owner): (u32, u16),
) -> Result<(), Fail> {
    let next = store.next_of(alloc, owners, after)?.ok_or("no hint")?;
    expect(
        next.id == id && next.owner == owner,
        "the next hint is the oldest",
    )
}

/// Asserts the hints found for several owners.
fn expect_oldest(alloc: Global, store: &mut HintStore) -> Result<(), Fail> {
    for (owner, id) in [(5, 1), (4, 2), (5, 3), (6, 4)] {
        expect(
            keep(alloc, store, owner, 1)? == id,
            "hints have ids in order",
        )?;
    }
    expect_next(alloc, store, &[4, 5], 0, (1, 5))?;
    expect_next(alloc, store, &[5, 6], 1, (3, 5))?;
    expect(
        store.next_of(alloc, &[], 0)?.is_none(),
        "no owner has no hint",
    )
}

#[test]
fn the_next_hint_is_the_oldest(rt: HostRuntime) -> Result<(), Fail> {
    let alloc = rt.alloc();
    expect_oldest(alloc, &mut HintStore::new(alloc))
}

/// Asserts the numbers of pending and of delivered hints.
fn expect_counts(store: &HintStore, pending: u32, delivered: u32) -> Result<(), Fail> {
    let counts = HintCounts { pending, delivered };
    expect(store.counts() == counts, "a store counts its hints")
}

/// Returns a store that has only the pending hints.
fn renew(alloc: Global, store: &HintStore) -> Result<HintStore, Refusal> {
    store.renewed(alloc)
}

/// Asserts that a renewed store has only the pending hints, numbered from 1.
fn expect_renewed(alloc: Global, store: &mut HintStore) -> Result<(), Fail> {
    for owner in 4..7u16 {
        keep(alloc, store, owner, 1)?;
    }
    confirm(alloc, store, 2, 5, 1)?;
    expect_counts(store, 2, 1)?;
    let renewed = renew(alloc, store)?;
    expect_counts(&renewed, 2, 0)?;
    expect_next(alloc, &renewed, &[4, 5, 6], 0, (1, 4))?;
    expect_next(alloc, &renewed, &[4, 5, 6], 1, (2, 6))
}

#[test]
fn a_renewed_store_has_the_pending_hints(rt: HostRuntime) -> Result<(), Fail> {
    let alloc = rt.alloc();
    expect_renewed(alloc, &mut HintStore::new(alloc))
}

/// Asserts that 10,000 hints are kept, and another one once one is confirmed.
fn expect_ten_thousand(alloc: Global, store: &mut HintStore) -> Result<(), Fail> {
    for id in 1..10_001u32 {
        let kept = keep(alloc, store, 2, u64::from(id))?;
        expect(kept == id, "hints have ids in order")?;
    }
    expect_refused(keep(alloc, store, 3, 1), Refusal::HintsFull, "one more")?;
    confirm(alloc, store, 7, 2, 7)?;
    expect(keep(alloc, store, 3, 1)? == 10_001, "the next id is 10,001")
}

#[test]
fn ten_thousand_hints_are_pending_at_the_most(rt: HostRuntime) -> Result<(), Fail> {
    let alloc = rt.alloc();
    expect_ten_thousand(alloc, &mut HintStore::new(alloc))
}
