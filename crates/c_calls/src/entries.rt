//! Entries of the journal by their numbers.
ghost use Rattle.std.specs.Prelude.{◌≡◌};
ghost use Rattle.c_calls.specs.Entries.{key_in, version_in, source_in, number_of_source};
ghost use Rattle.c_calls.specs.Hands.{HandsAny, TellsAny};
ghost use Rattle.c_calls.specs.Kept.{entry_at};
ghost use Rattle.c_calls.specs.Versions.{ShowsValue, ShowsClock};

use crate::kept::Kept;
use crate::numbers::NO_VERSION;
use crate::output::copy_out;
use crate::pair::Pair;
use crate::versions::copy_pairs;
use range_journal::Source;

/// Copies out the key of an entry. Refused, in order: NO_VERSION (the journal has no such entry), SMALL.
pub fn show_key(kept: &Kept, number: u64, out: &mut [u8], need: &mut u64) -> u32
    ensures { HandsAny (key_in (entry_at kept.now number)) result (need.old, out.old) (need.new, out.new) }
{
    match kept.entry(number) {
        Some(entry) => copy_out(entry.key.as_slice(), out, need),
        None => NO_VERSION,
    }
}

/// Copies out the value of an entry's version, and stores its kind: 0 for a live version, 1 for a tombstone. Refused,
/// in order: NO_VERSION (the journal has no such entry), SMALL. The kind is stored even if the buffer is too small.
pub fn show_value(kept: &Kept, number: u64, kind: &mut u8, out: &mut [u8], need: &mut u64) -> u32
    ensures { ShowsValue (version_in (entry_at kept.now number)) result kind.old kind.new
        (need.old, out.old) (need.new, out.new) }
{
    let Some(entry) = kept.entry(number) else {
        return NO_VERSION;
    };
    *kind = entry.version.kind.byte();
    copy_out(entry.version.value.as_slice(), out, need)
}

/// Copies out the pairs of the clock of an entry's version. The pairs ascend by node. Refused, in order: NO_VERSION
/// (the journal has no such entry), SMALL.
pub fn show_clock(kept: &Kept, number: u64, out: &mut [Pair], need: &mut u64) -> u32
    ensures { ShowsClock (version_in (entry_at kept.now number)) result (need.old, out.old) (need.new, out.new) }
{
    match kept.entry(number) {
        Some(entry) => copy_pairs(entry.version.clock.pairs(), out, need),
        None => NO_VERSION,
    }
}

/// Stores the source of an entry's version: 0 for a put, 1 for a copy, 2 for a hint, 3 for a partner's. Refused:
/// NO_VERSION (the journal has no such entry).
pub fn show_source(kept: &Kept, number: u64, source: &mut u64) -> u32
    ensures { TellsAny (source_in (entry_at kept.now number)) result source.old source.new }
{
    let Some(entry) = kept.entry(number) else {
        return NO_VERSION;
    };
    *source = number_of(entry.source);
    0
}

/// Returns the number of a source.
pub(crate) fn number_of(source: Source) -> u64
    ensures { result ≡ number_of_source source }
{
    match source {
        Source::Client => 0,
        Source::Copy => 1,
        Source::Hint => 2,
        Source::Partner => 3,
    }
}
