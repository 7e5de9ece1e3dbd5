//! One version of a key, for a caller in C that doesn't parse a row's text.
ghost use Rattle.std.specs.Prelude.{◌≡◌, slice_get};
ghost use Rattle.range_journal.specs.Journal.{held};
ghost use Rattle.c_calls.specs.Versions.{ShowsValue, ShowsClock, HandsPairs};

use crate::numbers::{NO_VERSION, SMALL};
use crate::output::copy_out;
use crate::pair::Pair;
use range_state::RangeState;
use vclock::check_key;
use version_set::Version;

/// Returns the versions that are held for a key, in the order of their texts. No version is held for a key that isn't 1
/// to 255 bytes long: no byte of it is read.
pub fn versions_of<'a>(state: &'a RangeState, key: &[u8]) -> &'a [Version]
    ensures { result.now ≡ held state.now.store.entries key.now }
{
    // Called only for its clause: each entry's key is 1 to 255 bytes long.
    let _valid = state.journal();
    match check_key(key) {
        Ok(()) => state.store().versions(key),
        Err(_) => &[],
    }
}

/// Copies out the value of a version that is held for a key, by its index from 0, and stores its kind: 0 for a live
/// version, 1 for a tombstone. Refused, in order: NO_VERSION, SMALL. The kind is stored even if the buffer is too
/// small.
pub fn show_value(
    state: &RangeState,
    key: &[u8],
    index: u64,
    kind: &mut u8,
    out: &mut [u8],
    need: &mut u64,
) -> u32
    ensures { ShowsValue (slice_get (held state.now.store.entries key.now) index) result kind.old kind.new
        (need.old, out.old) (need.new, out.new) }
{
    let versions = versions_of(state, key);
    if index >= versions.len() as u64 {
        return NO_VERSION;
    }
    let version = &versions[index as usize];
    *kind = version.kind.byte();
    copy_out(version.value.as_slice(), out, need)
}

/// Copies out the pairs of the clock of a version that is held for a key, by its index from 0. The pairs ascend by
/// node. Refused, in order: NO_VERSION, SMALL.
pub fn show_clock(
    state: &RangeState,
    key: &[u8],
    index: u64,
    out: &mut [Pair],
    need: &mut u64,
) -> u32
    ensures { ShowsClock (slice_get (held state.now.store.entries key.now) index) result (need.old, out.old) (need.new, out.new) }
{
    let versions = versions_of(state, key);
    if index >= versions.len() as u64 {
        return NO_VERSION;
    }
    copy_pairs(versions[index as usize].clock.pairs(), out, need)
}

/// Copies pairs to the front of a buffer if all of them fit. Stores their number, and returns 0 or SMALL.
pub(crate) fn copy_pairs(pairs: &[(u16, u64)], out: &mut [Pair], need: &mut u64) -> u32
    ensures { HandsPairs pairs.now result (need.old, out.old) (need.new, out.new) }
{
    *need = pairs.len() as u64;
    if pairs.len() > out.len() {
        return SMALL;
    }
    for i in 0..pairs.len() {
        let (node, counter) = pairs[i];
        out[i] = Pair {
            node: u64::from(node),
            counter,
        };
    }
    0
}
