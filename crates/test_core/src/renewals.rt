//! A range that is renewed.
use crate::calls::{count_held, new_range, offer, open_session, put, rehash, renew, root_of};
use range_journal::Source;
use range_state::RangeState;
use std::alloc::Global;
use std::test::Fail;
use std::thread::Threads;
use test_values::checks::expect;
use test_values::refusals::expect_refused;
use vclock::Refusal;

/// Returns a range with four entries that holds two versions of `a` and one of `b`. Its nodes are all clean, and it has
/// a session.
fn range(rt: &(impl Threads + Sync), alloc: Global) -> Result<RangeState, Fail> {
    let mut state = new_range(alloc, 1, 1_000)?;
    put(alloc, &mut state, 1, &[], b"a", b"x")?;
    put(alloc, &mut state, 1, &[(1, 1)], b"a", b"y")?;
    put(alloc, &mut state, 2, &[], b"a", b"z")?;
    put(alloc, &mut state, 1, &[], b"b", b"x")?;
    rehash(rt, alloc, &mut state)?;
    open_session(alloc, &mut state, offer([7; 32]))?;
    Ok(state)
}

/// Asserts that a range has an entry for each version that another one holds, and that it has its root and no session.
fn expect_renewed(alloc: Global, state: &RangeState, old: &RangeState) -> Result<(), Fail> {
    expect(
        state.journal().len() == 3 && old.journal().len() == 4,
        "each version that is held is an entry",
    )?;
    let last = state.journal().get(2).ok_or("no entry 2")?;
    expect(
        last.number == 2 && last.seat == 4 && last.source == Source::Copy,
        "the entries are copies by the seat",
    )?;
    expect(
        count_held(state, b"a") == 2 && count_held(state, b"b") == 1,
        "the versions are held",
    )?;
    expect(state.store().tree().dirty_count() == 0, "no node is dirty")?;
    expect(
        root_of(alloc, state)? == root_of(alloc, old)?,
        "the roots are equal",
    )?;
    expect(
        state.records().is_empty() && old.records().len() == 1,
        "the new range has no session",
    )?;
    expect(
        state.store().config().limit() == 3 && old.store().config().limit() == 1_000,
        "the new range has its limit",
    )
}

#[test]
fn a_renewed_range_begins_with_the_versions_held(rt: HostRuntime) -> Result<(), Fail> {
    let alloc = rt.alloc();
    let old = range(&rt, alloc)?;
    expect_renewed(alloc, &renew(alloc, &old, 3)?, &old)?;
    for limit in [0, 1_000_001] {
        expect_refused(
            renew(alloc, &old, limit),
            Refusal::BadRing,
            "no range has this limit",
        )?;
    }
    expect_refused(
        renew(alloc, &old, 2),
        Refusal::JournalFull,
        "three versions are held",
    )
}
