//! Ranges that are renewed alongside puts.
use crate::calls::{
    accept, begin_renewal, build, catch_up, finish, hold_moment, hold_whole_moment, new_range,
    offer, open_session, put, rehash, root_of,
};
use range_journal::{Entry, Source};
use range_state::{RangeState, Renewal};
use std::alloc::Global;
use std::test::Fail;
use std::thread::Threads;
use test_values::checks::expect;
use test_values::refusals::expect_refused;
use test_values::versions::{members, version};
use vclock::Refusal;
use version_set::Kind;

/// The keys of the ranges.
const KEYS: [&[u8]; 4] = [b"a", b"b", b"c", b"d"];

/// Returns a range with five entries that holds two versions of `a`, one of `b`, and one of `c`, which is a tombstone
/// in format 2. It has a session, and a moment whose nodes are all clean.
fn range(rt: &(impl Threads + Sync), alloc: Global, format: u8) -> Result<RangeState, Fail> {
    let mut state = new_range(alloc, u64::from(format), 1_000)?;
    put(alloc, &mut state, 1, &[], b"a", b"x")?;
    put(alloc, &mut state, 1, &[(1, 1)], b"a", b"y")?;
    put(alloc, &mut state, 2, &[], b"a", b"z")?;
    put(alloc, &mut state, 1, &[], b"b", b"x")?;
    let (kind, value) = if format == 1 {
        (Kind::Live, b"x".as_slice())
    } else {
        (Kind::Tombstone, b"".as_slice())
    };
    accept(
        alloc,
        &mut state,
        b"c",
        version(alloc, (2, 1), kind, value)?,
    )?;
    rehash(rt, alloc, &mut state)?;
    let mut first = offer([7; 32]);
    first.format = format;
    open_session(alloc, &mut state, first)?;
    hold_whole_moment(alloc, &mut state)?;
    Ok(state)
}

/// Overwrites `b`, puts a new key, and accepts a copy that is concurrent with both versions of `a`.
fn go_on(alloc: Global, state: &mut RangeState) -> Result<(), Fail> {
    put(alloc, state, 1, &[(1, 1)], b"b", b"y")?;
    put(alloc, state, 3, &[], b"d", b"x")?;
    let copy = version(alloc, (3, 1), Kind::Live, b"w")?;
    accept(alloc, state, b"a", copy)?;
    Ok(())
}

/// Returns true if two entries have the same key and version.
fn is_of(entry: &Entry, other: &Entry) -> bool {
    entry.key.as_slice() == other.key.as_slice() && entry.version.same(&other.version)
}

/// Asserts that the entry of the new range at a place is a copy by seat 4 of an entry of the old one.
fn expect_copied(
    (new, place): (&RangeState, u64),
    (old, number): (&RangeState, u64),
) -> Result<(), Fail> {
    let entry = new.journal().get(place).ok_or("no such new entry")?;
    let other = old.journal().get(number).ok_or("no such old entry")?;
    expect(is_of(entry, other), "a later entry is copied")?;
    expect(
        entry.number == place && entry.seat == 4 && entry.source == Source::Copy,
        "an entry has its number, the seat and the source",
    )
}

/// Asserts that a range holds the same versions of each key as another one, and has its root.
fn expect_same(
    rt: &(impl Threads + Sync),
    alloc: Global,
    new: &mut RangeState,
    old: &mut RangeState,
) -> Result<(), Fail> {
    for key in KEYS {
        let (held, before) = (new.get(alloc, key)?, old.get(alloc, key)?);
        expect(
            members(alloc, &held)?.as_str() == members(alloc, &before)?.as_str(),
            "each version is held",
        )?;
    }
    rehash(rt, alloc, new)?;
    rehash(rt, alloc, old)?;
    expect(
        root_of(alloc, new)? == root_of(alloc, old)?,
        "the roots are equal",
    )
}

/// Catches up, entry by entry, with the three entries that a range accepted since a renewal began, puts once more, and
/// finishes. Returns the old range.
fn replace_range(
    alloc: Global,
    mut renewal: Renewal,
    state: &mut RangeState,
) -> Result<RangeState, Fail> {
    for left in [2, 1, 0, 0] {
        expect(
            catch_up(alloc, &mut renewal, state, 1)? == left,
            "one entry fewer is left",
        )?;
    }
    put(alloc, state, 1, &[(1, 2)], b"b", b"z")?;
    match finish(alloc, renewal, state) {
        Ok(old) => Ok(old),
        Err(unfinished) => Err(Fail::from(unfinished.refusal)),
    }
}

/// Renews a range of a format alongside four more entries, and compares it with the old one.
fn renew_beside_puts(rt: &(impl Threads + Sync), alloc: Global, format: u8) -> Result<(), Fail> {
    let mut state = range(rt, alloc, format)?;
    let start = begin_renewal(alloc, &state)?;
    go_on(alloc, &mut state)?;
    let renewal = build(alloc, &start, 20)?;
    expect(
        renewal.began() == 5 && renewal.state().journal().len() == 4,
        "each version of the moment is an entry",
    )?;
    let mut old = replace_range(alloc, renewal, &mut state)?;
    expect(
        old.journal().len() == 9 && state.journal().len() == 8,
        "the later entries follow",
    )?;
    for later in 0..4 {
        expect_copied((&state, 4 + later), (&old, 5 + later))?;
    }
    expect_same(rt, alloc, &mut state, &mut old)?;
    expect_place(alloc, &mut state, format)
}

/// Asserts that a new range has its limit and no session, and that its next session has number 1.
fn expect_place(alloc: Global, state: &mut RangeState, format: u8) -> Result<(), Fail> {
    expect(
        state.store().config().limit() == 20 && state.records().is_empty(),
        "the new range has its limit and no session",
    )?;
    let mut second = offer([8; 32]);
    second.format = format;
    expect(
        open_session(alloc, state, second)? == 1,
        "the numbers of sessions go on",
    )
}

#[test]
fn a_range_is_renewed_beside_its_puts(rt: HostRuntime) -> Result<(), Fail> {
    let alloc = rt.alloc();
    renew_beside_puts(&rt, alloc, 1)?;
    renew_beside_puts(&rt, alloc, 2)
}

/// Renews a range alongside three puts. Returns the number of entries left at the second one, and the old range.
fn renew_beside_three(
    alloc: Global,
    state: &mut RangeState,
    limit: u64,
) -> Result<(u64, RangeState), Refusal> {
    let start = state.begin_renewal(alloc)?;
    put(alloc, state, 1, &[], b"d", b"x")?;
    let mut renewal = start.renewal(alloc, 4, limit)?;
    put(alloc, state, 1, &[], b"e", b"x")?;
    let left = renewal.catch_up(alloc, 4, state, 1)?;
    put(alloc, state, 1, &[], b"f", b"x")?;
    match renewal.finish(alloc, 4, state) {
        Ok(old) => Ok((left, old)),
        Err(unfinished) => Err(unfinished.refusal),
    }
}

#[test]
fn the_old_range_is_returned(rt: HostRuntime) -> Result<(), Fail> {
    let alloc = rt.alloc();
    let mut state = range(&rt, alloc, 1)?;
    let (left, old) = renew_beside_three(alloc, &mut state, 7)?;
    expect(left == 1, "one of two entries is left")?;
    expect(
        old.journal().len() == 8 && state.journal().len() == 7,
        "the new range has an entry fewer than the old one",
    )
}

#[test]
fn a_renewal_begins_from_a_whole_moment_within_its_limit(rt: HostRuntime) -> Result<(), Fail> {
    let alloc = rt.alloc();
    let mut state = new_range(alloc, 1, 1_000)?;
    let early = begin_renewal(alloc, &state);
    expect_refused(early, Refusal::Dirty, "there is no moment")?;
    hold_moment(alloc, &mut state)?;
    let early = begin_renewal(alloc, &state);
    expect_refused(early, Refusal::Dirty, "the moment isn't whole")?;
    let start = begin_renewal(alloc, &range(&rt, alloc, 1)?)?;
    for limit in [0, 1_000_001] {
        let none = build(alloc, &start, limit);
        expect_refused(none, Refusal::BadRing, "no range has this limit")?;
    }
    let short = build(alloc, &start, 3);
    expect_refused(short, Refusal::JournalFull, "four versions are held")
}

/// Returns ranges that a renewal can't have begun from: one of format 2, one with four entries, and one with six, whose
/// last has the version of `b` that the moment holds.
fn strangers(rt: &(impl Threads + Sync), alloc: Global) -> Result<[RangeState; 3], Fail> {
    let mut short = new_range(alloc, 1, 1_000)?;
    let mut other = new_range(alloc, 1, 1_000)?;
    for at in 1..5 {
        put(alloc, &mut short, at, &[], b"e", b"x")?;
        put(alloc, &mut other, at, &[], b"e", b"x")?;
    }
    put(alloc, &mut other, 5, &[], b"e", b"x")?;
    put(alloc, &mut other, 1, &[], b"b", b"x")?;
    Ok([range(rt, alloc, 2)?, short, other])
}

#[test]
fn a_renewal_goes_on_with_its_range_alone(rt: HostRuntime) -> Result<(), Fail> {
    let alloc = rt.alloc();
    let start = begin_renewal(alloc, &range(&rt, alloc, 1)?)?;
    let mut renewal = build(alloc, &start, 20)?;
    for mut stranger in strangers(&rt, alloc)? {
        let refused = catch_up(alloc, &mut renewal, &stranger, 9);
        expect_refused(refused, Refusal::Stale, "another range isn't the old one")?;
        expect(renewal.state().journal().len() == 4, "no entry is accepted")?;
        let entries = stranger.journal().len();
        renewal = match finish(alloc, renewal, &mut stranger) {
            Ok(_) => return Err(Fail::from("another range isn't replaced")),
            Err(unfinished) => unfinished.renewal,
        };
        expect(stranger.journal().len() == entries, "it is unchanged")?;
    }
    Ok(())
}

#[test]
fn a_full_renewal_keeps_what_it_accepted(rt: HostRuntime) -> Result<(), Fail> {
    let alloc = rt.alloc();
    let mut state = range(&rt, alloc, 2)?;
    let start = begin_renewal(alloc, &state)?;
    go_on(alloc, &mut state)?;
    let mut renewal = build(alloc, &start, 6)?;
    let full = catch_up(alloc, &mut renewal, &state, 9);
    expect_refused(full, Refusal::JournalFull, "two of three have room")?;
    expect(
        catch_up(alloc, &mut renewal, &state, 0)? == 1,
        "the two are accepted",
    )?;
    let Err(unfinished) = finish(alloc, renewal, &mut state) else {
        return Err(Fail::from("a full range doesn't take the place"));
    };
    let is_full = matches!(unfinished.refusal, Refusal::JournalFull);
    expect(
        is_full && unfinished.renewal.state().journal().len() == 6,
        "the renewal is returned",
    )?;
    expect(
        state.journal().len() == 8 && state.store().config().limit() == 1_000,
        "the old range is in its place",
    )
}
