//! Journals.
use crate::core_calls::versions::{version, wide_version};
use crate::lines::{show, unchanged};
use crate::states::begins;
use range_journal::{Entry, Journal, Source, copy_entries, held_in};
use std::alloc::Global;
use std::io;
use vclock::{Bytes, Refusal};

/// Shows the calls on a journal.
pub(crate) fn show_all<R: Print + AllocGlobal>(rt: &R) -> io::Result<()> {
    let alloc = rt.alloc();
    show(rt, "Journal::append", append(alloc))?;
    show(rt, "Journal::reserve", reserve(alloc))?;
    show(rt, "Entry::try_clone", clone_of_entry(alloc))?;
    show(rt, "copy_entries", copies(alloc))?;
    show(rt, "held_in", held(alloc))
}

/// Appends a version that only one node has counted.
fn append_of(alloc: Global, journal: &mut Journal, node: u64) -> Result<u64, Refusal> {
    let key = Bytes::copy_of(alloc, b"a")?;
    journal.append(0, Source::Client, key, version(alloc, node)?)
}

/// Returns a journal with the versions of the nodes before this one.
fn journal_before(alloc: Global, node: u64) -> Result<Journal, Refusal> {
    let mut journal = Journal::new(alloc, 1_000);
    for earlier in 1..node {
        append_of(alloc, &mut journal, earlier)?;
    }
    Ok(journal)
}

/// Returns true if a journal has the versions of the nodes before this one, and the remaining capacity.
fn is_before(alloc: Global, journal: &Journal, node: u64) -> Result<bool, Refusal> {
    let other = journal_before(alloc, node)?;
    let (entries, others) = (journal.entries(), other.entries());
    Ok(begins(entries, others) && begins(others, entries) && journal.room() == other.room())
}

/// Appends entries until the journal has grown.
fn append(alloc: Global) -> Result<u64, Refusal> {
    let mut journal = Journal::new(alloc, 1_000);
    for node in 1..9u64 {
        if let Err(refusal) = append_of(alloc, &mut journal, node) {
            return Err(unchanged(refusal, is_before(alloc, &journal, node)));
        }
    }
    Ok(journal.len())
}

fn reserve(alloc: Global) -> Result<u64, Refusal> {
    let mut journal = journal_before(alloc, 4)?;
    match journal.reserve(100) {
        Ok(()) => Ok(journal.room()),
        Err(refusal) => Err(unchanged(refusal, is_before(alloc, &journal, 4))),
    }
}

fn clone_of_entry(alloc: Global) -> Result<u64, Refusal> {
    let entry = Entry {
        number: 0,
        seat: 0,
        source: Source::Client,
        key: Bytes::copy_of(alloc, b"a")?,
        version: wide_version(alloc, 7)?,
    };
    Ok(entry.try_clone()?.version.clock.get(7))
}

fn copies(alloc: Global) -> Result<u64, Refusal> {
    let journal = journal_before(alloc, 4)?;
    Ok(copy_entries(alloc, journal.entries())?.len() as u64)
}

fn held(alloc: Global) -> Result<u64, Refusal> {
    let journal = journal_before(alloc, 9)?;
    Ok(held_in(alloc, journal.entries(), b"a")?.len() as u64)
}
