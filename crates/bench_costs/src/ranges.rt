//! Ranges with all keys. The calls that several measurements make are here, without clauses, so a function
//! that calls them carries no facts about a range, and is proved fast.
use crate::entries::PLAIN;
use range_journal::Source;
use range_state::{RangeConfig, RangeState};
use snapshot::Snapshot;
use std::alloc::Global;
use std::sync::Arc;
use std::thread::Threads;
use vclock::limits::ENTRIES_MAX;
use vclock::{Format, Refusal};
use version_set::Version;

/// Returns the configuration of a range of a format.
pub(crate) fn config(format: Format) -> Result<RangeConfig, Refusal> {
    RangeConfig::new(u64::from(format.number()), 0, 0, ENTRIES_MAX).ok_or(Refusal::BadRing)
}

/// Returns a range of a format that has accepted nothing. Refused: NoMemory.
pub(crate) fn new_range(alloc: Global, format: Format) -> Result<RangeState, Refusal> {
    RangeState::new(alloc, config(format)?)
}

/// Has a range accept a copy of a number's key, in the default shape. Refused as [`RangeState::accept`] is.
pub(crate) fn accept(alloc: Global, range: &mut RangeState, number: u64) -> Result<(), Refusal> {
    let (key, version) = (PLAIN.key(alloc, number)?, PLAIN.version(alloc, number)?);
    accept_copy(alloc, range, key.as_slice(), version)
}

/// Has a range accept a copy of a key's version. Refused as [`RangeState::accept`] is.
pub(crate) fn accept_copy(
    alloc: Global,
    range: &mut RangeState,
    key: &[u8],
    version: Version,
) -> Result<(), Refusal> {
    let _taken = range.accept(alloc, 0, Source::Copy, key, version)?;
    Ok(())
}

/// Hashes the dirty nodes of a range. Refused: NoMemory.
pub(crate) fn rehash(
    rt: &(impl Threads + Sync),
    alloc: Global,
    range: &mut RangeState,
) -> Result<(), Refusal> {
    range.rehash(rt, alloc)?;
    Ok(())
}

/// Makes a snapshot of a range. Refused: Dirty, NoMemory.
pub(crate) fn snapshot(
    alloc: Global,
    range: &RangeState,
) -> Result<Arc<Snapshot, Global>, Refusal> {
    range.snapshot(alloc)
}
