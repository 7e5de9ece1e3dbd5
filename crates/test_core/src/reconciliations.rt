//! Two replicas that are reconciled.
use crate::calls::{
    clean_range, count_held, migrate, new_range, offer, open_session, put, put_a, rehash, root_of,
};
use range_state::{RangeState, Reconciled, reconcile};
use std::alloc::Global;
use std::test::Fail;
use std::thread::Threads;
use sync_session::SessionState;
use test_values::checks::expect;
use test_values::refusals::expect_refused;
use vclock::Refusal;

/// Returns a range with `a` at the first node, whose nodes are all clean.
fn range_of_a(
    rt: &(impl Threads + Sync),
    alloc: Global,
    format: u64,
    limit: u64,
) -> Result<RangeState, Fail> {
    let mut state = new_range(alloc, format, limit)?;
    put_a(alloc, &mut state, &[])?;
    rehash(rt, alloc, &mut state)?;
    Ok(state)
}

/// Returns a range with `abc` at the second node, whose nodes are all clean.
fn range_of_abc(
    rt: &(impl Threads + Sync),
    alloc: Global,
    format: u64,
    limit: u64,
) -> Result<RangeState, Fail> {
    let mut state = new_range(alloc, format, limit)?;
    put(alloc, &mut state, 2, &[], b"abc", b"y")?;
    rehash(rt, alloc, &mut state)?;
    Ok(state)
}

/// Reconciles two replicas of one range, at nodes 1 and 2.
fn reconcile_both(
    alloc: Global,
    a: &mut RangeState,
    b: &mut RangeState,
) -> Result<Reconciled, Refusal> {
    let (one, other) = (a.store().config(), b.store().config());
    if one.format() != other.format()
        || one.bits() != other.bits()
        || one.range() != other.range()
    {
        return Err(Refusal::OtherRange);
    }
    reconcile(alloc, a, 1, b, 2, 5)
}

/// Asserts the partner's node and the state of the first session of a range.
fn expect_session(state: &RangeState, partner: u16, session: SessionState) -> Result<(), Fail> {
    let record = state.records().first().ok_or("no record")?;
    expect(
        record.partner() == partner && record.session().state() == session,
        "the first session has its partner and state",
    )
}

/// Reconciles two ranges. Asserts the number of nodes asked each way, and the numbers of versions accepted.
fn expect_counts(
    alloc: Global,
    a: &mut RangeState,
    b: &mut RangeState,
    asked: u64,
    (new_to_a, new_to_b): (u64, u64),
) -> Result<(), Fail> {
    let report = reconcile_both(alloc, a, b)?;
    expect(
        report.asked_a == asked && report.asked_b == asked,
        "the nodes that differ are asked each way",
    )?;
    expect(
        report.accepted_a == new_to_a && report.accepted_b == new_to_b,
        "each accepts what it lacks",
    )
}

/// Asserts that each of two ranges takes a version in a session with the other one. Once a number of nodes of each is
/// hashed again, their roots are equal, and there is nothing left to ask.
fn expect_both(
    rt: &(impl Threads + Sync),
    alloc: Global,
    a: &mut RangeState,
    b: &mut RangeState,
    (asked, hashed): (u64, u64),
) -> Result<(), Fail> {
    expect_counts(alloc, a, b, asked, (1, 1))?;
    expect_session(a, 2, SessionState::Finished)?;
    expect_session(b, 1, SessionState::Finished)?;
    expect(
        rehash(rt, alloc, a)? == hashed && rehash(rt, alloc, b)? == hashed,
        "the leaf and the nodes above it are hashed",
    )?;
    let (one, other) = (root_of(alloc, a)?, root_of(alloc, b)?);
    expect(one == other, "the roots are equal")?;
    expect_counts(alloc, a, b, 0, (0, 0))
}

#[test]
fn each_takes_what_the_other_has(rt: HostRuntime) -> Result<(), Fail> {
    let alloc = rt.alloc();
    let mut a = range_of_a(&rt, alloc, 1, 1_000)?;
    let mut b = range_of_abc(&rt, alloc, 1, 1_000)?;
    expect_both(&rt, alloc, &mut a, &mut b, (5, 3))
}

/// Migrates a range, and makes all nodes clean.
fn migrate_clean(
    rt: &(impl Threads + Sync),
    alloc: Global,
    state: &mut RangeState,
) -> Result<(), Fail> {
    migrate(alloc, state)?;
    rehash(rt, alloc, state)?;
    Ok(())
}

#[test]
fn one_that_was_migrated_is_reconciled(rt: HostRuntime) -> Result<(), Fail> {
    let alloc = rt.alloc();
    let mut a = range_of_a(&rt, alloc, 1, 1_000)?;
    migrate_clean(&rt, alloc, &mut a)?;
    let mut b = range_of_abc(&rt, alloc, 2, 1_000)?;
    expect_both(&rt, alloc, &mut a, &mut b, (7, 4))
}

#[test]
fn one_has_nothing_that_the_other_lacks(rt: HostRuntime) -> Result<(), Fail> {
    let alloc = rt.alloc();
    let mut a = range_of_a(&rt, alloc, 1, 1_000)?;
    let mut b = clean_range(&rt, alloc)?;
    expect_counts(alloc, &mut a, &mut b, 3, (0, 1))?;
    expect(count_held(&b, b"a") == 1, "the second holds `a`")
}

/// Asserts that two ranges can't be reconciled, and the numbers of their sessions' records and journal entries.
fn expect_not_reconciled(
    alloc: Global,
    a: &mut RangeState,
    b: &mut RangeState,
    refusal: Refusal,
    records: (usize, usize),
    entries: (u64, u64),
) -> Result<(), Fail> {
    expect_refused(reconcile_both(alloc, a, b), refusal, "it is refused")?;
    expect(
        a.records().len() == records.0 && b.records().len() == records.1,
        "no more sessions are recorded",
    )?;
    expect(
        a.journal().len() == entries.0 && b.journal().len() == entries.1,
        "no more versions are journaled",
    )
}

#[test]
fn a_dirty_one_is_refused(rt: HostRuntime) -> Result<(), Fail> {
    let alloc = rt.alloc();
    let mut a = range_of_a(&rt, alloc, 1, 1_000)?;
    let mut b = range_of_abc(&rt, alloc, 1, 1_000)?;
    put(alloc, &mut b, 2, &[], b"a", b"z")?;
    expect_not_reconciled(alloc, &mut a, &mut b, Refusal::Dirty, (0, 0), (1, 2))
}

#[test]
fn a_full_journal_cancels_the_session(rt: HostRuntime) -> Result<(), Fail> {
    let alloc = rt.alloc();
    let mut a = range_of_a(&rt, alloc, 1, 1)?;
    let mut b = range_of_abc(&rt, alloc, 1, 1)?;
    expect_not_reconciled(alloc, &mut a, &mut b, Refusal::JournalFull, (1, 0), (1, 1))?;
    expect_session(&a, 2, SessionState::Cancelled)
}

/// Opens 64 sessions with another root.
fn open_64(alloc: Global, state: &mut RangeState) -> Result<(), Fail> {
    for _ in 0..64 {
        open_session(alloc, state, offer([7; 32]))?;
    }
    Ok(())
}

#[test]
fn one_that_has_64_open_sessions_is_refused(rt: HostRuntime) -> Result<(), Fail> {
    let alloc = rt.alloc();
    let mut a = range_of_a(&rt, alloc, 1, 1_000)?;
    let mut b = range_of_abc(&rt, alloc, 1, 1_000)?;
    open_64(alloc, &mut b)?;
    expect_not_reconciled(
        alloc,
        &mut a,
        &mut b,
        Refusal::SessionsFull,
        (0, 64),
        (1, 1),
    )
}
