//! Journals.
use crate::checks::expect;
use crate::refusals::expect_refused;
use crate::versions::version;
use range_journal::{Journal, Source, held_in};
use std::alloc::Global;
use std::test::Fail;
use vclock::{Bytes, Refusal};
use version_set::Kind;

/// Appends a version of `a` that node 1 has counted this number of times.
fn append(alloc: Global, journal: &mut Journal, count: u64) -> Result<u64, Refusal> {
    let key = Bytes::copy_of(alloc, b"a")?;
    let put = version(alloc, (1, count), Kind::Live, b"x")?;
    journal.append(0, Source::Client, key, put)
}

/// Appends a version of `a` from a partner to a journal that isn't full.
fn append_reserved(alloc: Global, journal: &mut Journal, count: u64) -> Result<u64, Fail> {
    let key = Bytes::copy_of(alloc, b"a")?;
    let copy = version(alloc, (2, count), Kind::Live, b"x")?;
    if journal.room() == 0 {
        return Err("no room".into());
    }
    Ok(journal.append_reserved(7, Source::Partner, key, copy))
}

/// Asserts that a journal takes two entries and no more, and the contents of the second.
fn expect_two(alloc: Global, journal: &mut Journal) -> Result<(), Fail> {
    expect(append(alloc, journal, 1)? == 0, "the first entry is 0")?;
    journal.reserve(1)?;
    expect(
        append_reserved(alloc, journal, 1)? == 1,
        "the next entry is 1",
    )?;
    expect_refused(
        append(alloc, journal, 3),
        Refusal::JournalFull,
        "a third entry",
    )?;
    expect_refused(journal.reserve(1), Refusal::JournalFull, "room for it")?;
    journal.reserve(0)?;
    let entry = journal.get(1).ok_or("no entry 1")?;
    expect(
        entry.number == 1 && entry.seat == 7 && entry.source == Source::Partner,
        "an entry has its number, seat and source",
    )?;
    expect(
        entry.key.as_slice() == b"a".as_slice(),
        "an entry has its key",
    )?;
    expect(
        journal.len() == 2 && journal.get(2).is_none(),
        "there are two entries",
    )
}

#[test]
fn a_journal_keeps_its_limit(rt: HostRuntime) -> Result<(), Fail> {
    let alloc = rt.alloc();
    expect_two(alloc, &mut Journal::new(alloc, 2))
}

/// Asserts that the later of two versions of a key is held, and none of another key.
fn expect_held(alloc: Global, journal: &mut Journal) -> Result<(), Fail> {
    append(alloc, journal, 1)?;
    append(alloc, journal, 2)?;
    let later = version(alloc, (1, 2), Kind::Live, b"x")?;
    let held = held_in(alloc, journal.entries(), b"a")?;
    expect(
        held.len() == 1 && held.covers(&later),
        "the later version is held",
    )?;
    let other = held_in(alloc, journal.entries(), b"b")?;
    expect(other.is_empty(), "no version of another key is held")
}

#[test]
fn held_versions_are_the_latest(rt: HostRuntime) -> Result<(), Fail> {
    let alloc = rt.alloc();
    expect_held(alloc, &mut Journal::new(alloc, 2))
}
