//! Versions and sets of them.
use crate::calls::offer_version;
use crate::checks::expect;
use crate::refusals::expect_refused;
use crate::versions::{members, version};
use std::alloc::Global;
use std::test::Fail;
use vclock::{Format, Refusal};
use version_set::{Kind, Offered, VersionSet};

/// Offers a version that node 1 has counted this number of times. Asserts whether it is added, and the members of the
/// set and of its clone afterwards.
fn expect_offered(
    alloc: Global,
    set: &mut VersionSet,
    (counter, value): (u64, &[u8]),
    answer: Offered,
    text: &str,
) -> Result<(), Fail> {
    let offered = offer_version(set, version(alloc, (1, counter), Kind::Live, value)?)?;
    expect(offered == answer, "a version is added or known")?;
    let held = members(alloc, set)?;
    expect(held.as_str() == text, "a set has its members")?;
    let clone = members(alloc, &set.try_clone(alloc)?)?;
    expect(clone.as_str() == text, "a clone has the same members")
}

/// Asserts that later versions replace earlier ones, and that versions with equal clocks are both kept.
fn expect_latest(alloc: Global, set: &mut VersionSet) -> Result<(), Fail> {
    expect(set.is_empty(), "a new set is empty")?;
    let (first, later) = ("[(1, 1)] Live [120]\n", "[(1, 2)] Live [121]\n");
    let both = "[(1, 2)] Live [97]\n[(1, 2)] Live [121]\n";
    expect_offered(alloc, set, (1, b"x"), Offered::Added, first)?;
    expect_offered(alloc, set, (2, b"y"), Offered::Added, later)?;
    expect_offered(alloc, set, (1, b"x"), Offered::Known, later)?;
    expect_offered(alloc, set, (2, b"a"), Offered::Added, both)?;
    expect(set.len() == 2, "a set has two members")
}

#[test]
fn later_versions_take_the_place_of_earlier_ones(rt: HostRuntime) -> Result<(), Fail> {
    let alloc = rt.alloc();
    expect_latest(alloc, &mut VersionSet::empty(alloc))
}

#[test]
fn a_clone_of_a_version_is_the_same(rt: HostRuntime) -> Result<(), Fail> {
    let one = version(rt.alloc(), (1, 1), Kind::Live, b"x")?;
    let clone = one.try_clone()?;
    expect(one.same(&clone), "a clone has the same clock and value")
}

/// Asserts that a tombstone and a value of one clock are both kept.
fn expect_both(alloc: Global, set: &mut VersionSet) -> Result<(), Fail> {
    offer_version(set, version(alloc, (1, 1), Kind::Tombstone, b"")?)?;
    offer_version(set, version(alloc, (1, 1), Kind::Live, b"x")?)?;
    let both = "[(1, 1)] Live [120]\n[(1, 1)] Tombstone []\n";
    let held = members(alloc, set)?;
    expect(held.as_str() == both, "a tombstone and a value are kept")
}

#[test]
fn a_tombstone_stands_beside_a_value_of_its_clock(rt: HostRuntime) -> Result<(), Fail> {
    let alloc = rt.alloc();
    expect_both(alloc, &mut VersionSet::empty(alloc))
}

/// Asserts that a set takes 64 members and no more, and a version that replaces one.
fn expect_64(alloc: Global, set: &mut VersionSet) -> Result<(), Fail> {
    for node in 100..164 {
        offer_version(set, version(alloc, (node, 1), Kind::Live, b"x")?)?;
    }
    expect(set.len() == 64, "a set has 64 members")?;
    let one_more = offer_version(set, version(alloc, (164, 1), Kind::Live, b"x")?);
    expect_refused(one_more, Refusal::Crowded, "a set takes no more")?;
    let later = version(alloc, (100, 2), Kind::Live, b"y")?;
    expect(!set.crowds(&later), "a later version has room")?;
    offer_version(set, later.try_clone()?)?;
    expect(
        set.len() == 64 && set.covers(&later),
        "it takes the place of an earlier one",
    )
}

#[test]
fn a_set_has_at_most_64_members(rt: HostRuntime) -> Result<(), Fail> {
    let alloc = rt.alloc();
    expect_64(alloc, &mut VersionSet::empty(alloc))
}

/// Returns the result of the test of a value of this length.
fn checked_value(alloc: Global, kind: Kind, format: Format, length: usize) -> Result<(), Refusal> {
    kind.check_value(format, &vec![in alloc; 0; length]?)
}

#[test]
fn values_fit_their_format(rt: HostRuntime) -> Result<(), Fail> {
    let alloc = rt.alloc();
    for (kind, format, length) in [
        (Kind::Live, Format::One, 4_096),
        (Kind::Live, Format::Two, 65_536),
        (Kind::Tombstone, Format::Two, 0),
    ] {
        checked_value(alloc, kind, format, length)?;
    }
    for (kind, format, length) in [
        (Kind::Live, Format::One, 4_097),
        (Kind::Live, Format::Two, 65_537),
        (Kind::Tombstone, Format::One, 0),
        (Kind::Tombstone, Format::Two, 1),
    ] {
        let checked = checked_value(alloc, kind, format, length);
        expect_refused(checked, Refusal::BadValue, "a value doesn't fit")?;
    }
    Ok(())
}
