//! Clocks, bytes, keys and refusals.
use crate::calls::clock;
use crate::checks::expect;
use crate::refusals::expect_refused;
use std::alloc::{AllocError, Global};
use std::test::Fail;
use vclock::{Bytes, Clock, ClockOrder, Clocks, PassPart, Refusal, check_key};

/// Returns a pair with the counter 1 for each node from the first up to the last.
fn pairs_of(alloc: Global, first: u64, last: u64) -> Result<Vec<(u64, u64)>, AllocError> {
    let mut pairs = Vec::new(alloc);
    for node in first..=last {
        pairs.push((node, 1))?;
    }
    Ok(pairs)
}

/// Returns the greatest number of a node.
fn last_node() -> u64 {
    u64::from(u16::MAX)
}

/// Asserts the pairs of a clock.
fn expect_pairs(clock: &Clock, pairs: &[(u16, u64)]) -> Result<(), Fail> {
    expect(clock.pairs() == pairs, "a clock has its pairs in order")
}

#[test]
fn clocks_are_ordered_by_their_counters(rt: HostRuntime) -> Result<(), Fail> {
    let alloc = rt.alloc();
    let one = clock(alloc, &[(2, 1), (1, 3)])?;
    expect_pairs(&one, &[(1, 3), (2, 1)])?;
    let same = one.compare(&one.try_clone()?) == ClockOrder::Equal;
    expect(same, "a clone is equal")?;
    let apart = clock(alloc, &[(3, 1)])?.compare(&one) == ClockOrder::Apart;
    expect(apart, "clocks of other nodes are apart")
}

#[test]
fn a_raised_clock_is_after_the_other(rt: HostRuntime) -> Result<(), Fail> {
    let alloc = rt.alloc();
    let old = clock(alloc, &[(2, 1), (1, 3)])?;
    let raised = old.raise(alloc, 2)?;
    expect_pairs(&raised, &[(1, 3), (2, 2)])?;
    expect(
        old.compare(&raised) == ClockOrder::Before && raised.compare(&old) == ClockOrder::After,
        "the old clock is before the raised one",
    )
}

#[test]
fn a_merged_clock_has_seen_what_either_has(rt: HostRuntime) -> Result<(), Fail> {
    let alloc = rt.alloc();
    let one = clock(alloc, &[(1, 3), (2, 1)])?;
    let other = clock(alloc, &[(1, 1), (3, 1)])?;
    expect_pairs(&one.merge(alloc, &other)?, &[(1, 3), (2, 1), (3, 1)])
}

#[test]
fn pairs_of_no_clock_are_refused(rt: HostRuntime) -> Result<(), Fail> {
    for pairs in [
        [(1, 0)].as_slice(),
        [(0, 1)].as_slice(),
        [(65_536, 1)].as_slice(),
        [(1, 1), (1, 2)].as_slice(),
    ] {
        expect_refused(clock(rt.alloc(), pairs), Refusal::BadClock, "no clock")?;
    }
    Ok(())
}

#[test]
fn clocks_and_counters_have_limits(rt: HostRuntime) -> Result<(), Fail> {
    let alloc = rt.alloc();
    let mut pairs = pairs_of(alloc, 2, 33)?;
    let full = clock(alloc, &pairs)?;
    expect_refused(
        full.raise(alloc, 1),
        Refusal::ClockFull,
        "33 pairs by a raise",
    )?;
    pairs.push((34, 1))?;
    expect_refused(clock(alloc, &pairs), Refusal::ClockFull, "33 pairs")?;
    let last = clock(alloc, &[(1, u64::MAX)])?;
    expect_refused(
        last.raise(alloc, 1),
        Refusal::CounterFull,
        "the last counter",
    )
}

#[test]
fn many_pairs_are_looked_at_once(rt: HostRuntime) -> Result<(), Fail> {
    let alloc = rt.alloc();
    let last = last_node();
    let mut pairs = pairs_of(alloc, 1, last)?;
    expect_refused(clock(alloc, &pairs), Refusal::ClockFull, "all nodes")?;
    pairs.push((last, 2))?;
    expect_refused(clock(alloc, &pairs), Refusal::BadClock, "a node twice")
}

#[test]
fn bytes_are_kept(rt: HostRuntime) -> Result<(), Fail> {
    let bytes = Bytes::copy_of(rt.alloc(), &[0x78])?;
    let clone = bytes.try_clone()?;
    expect(
        bytes.as_slice() == b"x".as_slice() && clone.as_slice() == b"x".as_slice(),
        "bytes and their clone are those handed in",
    )
}

/// Returns the result of the test of a key of this length.
fn checked_key(alloc: Global, length: usize) -> Result<(), Refusal> {
    check_key(&vec![in alloc; 0x61; length]?)
}

#[test]
fn a_key_has_1_to_255_bytes(rt: HostRuntime) -> Result<(), Fail> {
    let alloc = rt.alloc();
    for length in [1, 255] {
        checked_key(alloc, length)?;
    }
    for length in [0, 256] {
        expect_refused(checked_key(alloc, length), Refusal::BadKey, "a bad length")?;
    }
    Ok(())
}

/// Asserts the number and the name of a refusal, and that it is shown as its name.
fn expect_shown(alloc: Global, refusal: &Refusal, number: u64, name: &str) -> Result<(), Fail> {
    expect(
        refusal.number() == number && refusal.name() == name,
        "a refusal has its number and name",
    )?;
    let shown = format!(in alloc; "{refusal}")?;
    expect(shown.as_str() == name, "a refusal is shown as its name")
}

#[test]
fn refusals_have_numbers_and_names(rt: HostRuntime) -> Result<(), Fail> {
    let alloc = rt.alloc();
    let behind = Refusal::Behind {
        seen: 2,
        held: 1,
        missing: None,
    };
    let unsettled = Refusal::Unsettled {
        seat: 1,
        part: PassPart::Reading,
        place: 0,
    };
    for (refusal, number, name) in &[
        (Refusal::BadClock, 1, "BadClock"),
        (Refusal::ClockFull, 2, "ClockFull"),
        (Refusal::CounterFull, 3, "CounterFull"),
        (Refusal::BadKey, 4, "BadKey"),
        (Refusal::BadValue, 5, "BadValue"),
        (Refusal::StaleContext(Clocks::new(alloc)), 6, "StaleContext"),
        (Refusal::Crowded, 7, "Crowded"),
        (Refusal::JournalFull, 8, "JournalFull"),
        (Refusal::OtherRange, 9, "OtherRange"),
        (Refusal::Dirty, 10, "Dirty"),
        (Refusal::Stale, 11, "Stale"),
        (Refusal::UnknownSession, 12, "UnknownSession"),
        (Refusal::NotAsked, 13, "NotAsked"),
        (Refusal::WrongDigest, 14, "WrongDigest"),
        (Refusal::NotCanonical, 15, "NotCanonical"),
        (Refusal::OtherFormat, 16, "OtherFormat"),
        (Refusal::SessionsFull, 17, "SessionsFull"),
        (Refusal::NoSlot, 18, "NoSlot"),
        (Refusal::ClockBack, 19, "ClockBack"),
        (Refusal::UnknownHint, 20, "UnknownHint"),
        (Refusal::HintsFull, 21, "HintsFull"),
        (Refusal::Gone, 22, "Gone"),
        (behind, 23, "Behind"),
        (unsettled, 24, "Unsettled"),
        (Refusal::Stranger, 25, "Stranger"),
        (Refusal::LinkLost, 26, "LinkLost"),
        (Refusal::BadRing, 27, "BadRing"),
        (Refusal::Down, 28, "Down"),
        (Refusal::BadLine, 29, "BadLine"),
        (Refusal::RowBroken(0), 30, "RowBroken"),
        (Refusal::BadMessage, 31, "BadMessage"),
        (Refusal::NoMemory, 32, "NoMemory"),
    ] {
        expect_shown(alloc, refusal, *number, name)?;
    }
    Ok(())
}
