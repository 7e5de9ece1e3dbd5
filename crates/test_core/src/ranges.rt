//! Range states.
ghost use Rattle.std.specs.Prelude.{◌<◌};

use crate::calls::{accept, count_held, new_range, put_a, put_read_a};
use range_journal::Source;
use range_state::{RangeConfig, RangeState};
use std::alloc::Global;
use std::test::Fail;
use test_values::checks::expect;
use test_values::refusals::expect_refused;
use test_values::versions::{members, version};
use vclock::{Format, Refusal};
use version_set::Kind;

#[test]
fn a_range_has_a_format_a_place_and_a_limit(_rt: HostRuntime) -> Result<(), Fail> {
    let config = RangeConfig::new(2, 8, 255, 1_000_000).ok_or("no such range")?;
    expect(
        config.format() == Format::Two && config.bits() == 8 && config.range() == 255,
        "a range has its format and place",
    )?;
    expect(config.limit() == 1_000_000, "a range has its limit")?;
    expect(RangeConfig::new(1, 0, 0, 1).is_some(), "the least range")?;
    for (format, bits, range, limit) in [
        (1, 0, 1, 1),
        (0, 0, 0, 1),
        (3, 0, 0, 1),
        (1, 9, 0, 1),
        (1, 4, 16, 1),
        (1, 0, 0, 0),
        (1, 0, 0, 1_000_001),
        (1, 18_446_744_073_709_551_615, 0, 1),
    ] {
        let config = RangeConfig::new(format, bits, range, limit);
        expect(config.is_none(), "no range is beyond the limits")?;
    }
    Ok(())
}

/// Asserts the versions of `a` that a range holds, each on a line.
fn expect_held(alloc: Global, state: &RangeState, versions: &str) -> Result<(), Fail> {
    let held = members(alloc, &state.get(alloc, b"a")?)?;
    expect(held.as_str() == versions, "a range holds its versions")
}

/// Asserts that a range holds a value that is put.
fn expect_put(alloc: Global, state: &mut RangeState) -> Result<(), Fail> {
    expect_held(alloc, state, "")?;
    expect(put_a(alloc, state, &[])? == 0, "the put is entry 0")?;
    expect_held(alloc, state, "[(1, 1)] Live [120]\n")
}

#[test]
fn a_value_is_put_and_read(rt: HostRuntime) -> Result<(), Fail> {
    let alloc = rt.alloc();
    expect_put(alloc, &mut new_range(alloc, 1, 10)?)
}

/// Accepts a copy of `a` that node 2 has counted once, and asserts its number, or that it is known.
fn expect_accepted(
    alloc: Global,
    state: &mut RangeState,
    value: &[u8],
    number: Option<u64>,
) -> Result<(), Fail> {
    let copy = version(alloc, (2, 1), Kind::Live, value)?;
    let accepted = accept(alloc, state, b"a", copy)?;
    expect(accepted == number, "a copy is the next entry or known")
}

/// Asserts that two values of `a` with one clock are accepted, that the first is known afterwards, and that both are
/// held.
fn expect_both(alloc: Global, state: &mut RangeState) -> Result<(), Fail> {
    expect_accepted(alloc, state, b"q", Some(0))?;
    expect_accepted(alloc, state, b"p", Some(1))?;
    expect_accepted(alloc, state, b"q", None)?;
    expect_held(alloc, state, "[(2, 1)] Live [112]\n[(2, 1)] Live [113]\n")
}

#[test]
fn versions_with_equal_clocks_are_both_kept(rt: HostRuntime) -> Result<(), Fail> {
    let alloc = rt.alloc();
    expect_both(alloc, &mut new_range(alloc, 1, 10)?)
}

/// Returns true if a leaf has a row of `a`. Each format has at least 256 leaves.
fn has_a(state: &RangeState, leaf: u16) -> bool
    requires { leaf < 256 }
{
    let store = state.store();
    match store.config().format() {
        Format::One => store.tree().rows(leaf).find(b"a").is_some(),
        Format::Two => store.tree().rows(leaf).find(b"a").is_some(),
    }
}

/// Accepts a copy of a key, and returns the number of its entry.
fn accept_key(alloc: Global, state: &mut RangeState, key: &[u8]) -> Result<Option<u64>, Refusal> {
    accept(alloc, state, key, version(alloc, (1, 1), Kind::Live, b"x")?)
}

/// Asserts that `a` is in this leaf and not in leaf 0 once it is accepted, and that `b`, which doesn't fit in the
/// journal, isn't held.
fn expect_a_in(alloc: Global, state: &mut RangeState, leaf: u16) -> Result<(), Fail>
    requires { leaf < 256 }
{
    accept_key(alloc, state, b"a")?;
    expect(has_a(state, leaf) && !has_a(state, 0), "`a` is in its leaf")?;
    let other = accept_key(alloc, state, b"b");
    expect_refused(other, Refusal::JournalFull, "the journal is full")?;
    expect(
        count_held(state, b"a") == 1 && count_held(state, b"b") == 0,
        "`a` alone is held",
    )?;
    let entry = state.journal().get(0).ok_or("no entry 0")?;
    expect(
        entry.seat == 3 && entry.source == Source::Copy,
        "the entry has its seat and source",
    )
}

#[test]
fn rows_lie_in_the_leaf_of_their_key(rt: HostRuntime) -> Result<(), Fail> {
    let alloc = rt.alloc();
    expect_a_in(alloc, &mut new_range(alloc, 1, 1)?, 12)?;
    expect_a_in(alloc, &mut new_range(alloc, 2, 1)?, 204)
}

/// Makes a range in which client 1 put `x` under `a` twice, alongside a copy from node 2. The held clocks are (1, 2)
/// and (2, 1).
fn range_of_two_clients(alloc: Global) -> Result<RangeState, Fail> {
    let mut state = new_range(alloc, 1, 10)?;
    put_a(alloc, &mut state, &[])?;
    expect_accepted(alloc, &mut state, b"y", Some(1))?;
    put_read_a(alloc, &mut state, &[(1, 1)])?;
    expect_held(alloc, &state, "[(1, 2)] Live [120]\n[(2, 1)] Live [121]\n")?;
    Ok(state)
}

#[test]
fn a_put_that_checks_replaces_only_what_was_read(rt: HostRuntime) -> Result<(), Fail> {
    let alloc = rt.alloc();
    let mut state = range_of_two_clients(alloc)?;
    // Client 2 read `a` before client 1 put it again.
    let unread = put_read_a(alloc, &mut state, &[(1, 1), (2, 1)]);
    expect(
        matches!(unread, Err(Refusal::StaleContext(_))),
        "a version that wasn't read isn't replaced",
    )?;
    expect_held(alloc, &state, "[(1, 2)] Live [120]\n[(2, 1)] Live [121]\n")?;
    put_read_a(alloc, &mut state, &[(1, 2), (2, 1)])?;
    expect_held(alloc, &state, "[(1, 3), (2, 1)] Live [120]\n")?;
    let journal = state.journal();
    expect(
        journal.top_counter(1, b"a", 3) == 2 && journal.top_counter(1, b"a", 4) == 3,
        "the greatest counter is that of the first entries",
    )
}
