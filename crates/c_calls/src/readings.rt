//! One version of a key, with its kind, clock and value in one call.
ghost use Rattle.std.specs.Prelude.{length, slice_get};
ghost use Rattle.range_journal.specs.Journal.{held};
ghost use Rattle.c_calls.specs.Readings.{ReadsVersion};

use crate::numbers::NO_VERSION;
use crate::output::copy_out;
use crate::pair::Pair;
use crate::versions::{copy_pairs, versions_of};
use range_state::RangeState;

/// The sizes and the kind of a version.
#[repr(C)]
#[derive(Clone, Copy)]
pub struct Reading {
    /// The number of versions that are held for the key.
    pub versions: u64,
    /// The number of pairs of the version's clock.
    pub pairs: u64,
    /// The number of bytes of its value.
    pub bytes: u64,
    /// Its kind: 0 live, 1 tombstone.
    pub kind: u64,
}

/// Copies out the clock and the value of a version that is held for a key, by its index from 0, and stores their sizes
/// and the version's kind. Refused, in order: NO_VERSION, SMALL (the pairs or the bytes don't fit: the reading is
/// stored, and the one that fits, if any, is copied).
pub fn read(
    state: &RangeState,
    key: &[u8],
    index: u64,
    reading: &mut Reading,
    pairs: &mut [Pair],
    value: &mut [u8],
) -> u32
    ensures { ReadsVersion (slice_get (held state.now.store.entries key.now) index) (length (held state.now.store.entries key.now))
        result reading.old reading.new (pairs.old, value.old) (pairs.new, value.new) }
{
    let versions = versions_of(state, key);
    let Some(version) = versions.get(index as usize) else {
        return NO_VERSION;
    };
    reading.versions = versions.len() as u64;
    reading.kind = u64::from(version.kind.byte());
    let clock = copy_pairs(version.clock.pairs(), pairs, &mut reading.pairs);
    let bytes = copy_out(version.value.as_slice(), value, &mut reading.bytes);
    if clock == 0 { bytes } else { clock }
}
