//! Many entries at once, as bytes: for a log, or another reader that follows the journal.
ghost use Rattle.std.specs.Prelude.{◌≡◌, ◌+◌, ◌≤◌, ◌<◌, ◌^◌, length, take, None};
ghost use Rattle.std.specs.List.{flat_map, AllByRecursion};
ghost use Rattle.version_set.specs.Kind.{value_fault};
ghost use Rattle.version_set.specs.Version.{pair_text, plain_text, version_text};
ghost use Rattle.c_calls.specs.Packed.{entry_text, entries_text, fitting, first_over, IsWithin, IsWritten, Packs, PacksFrom};

use crate::entries::number_of;
use crate::kept::Kept;
use crate::numbers::{BAD_POSITION, SMALL};
use range_journal::Entry;
use row_bytes::version_len;
use vclock::Format;
use version_set::Version;

/// The texts of some entries in a buffer.
#[derive(Clone, Copy)]
struct Packed {
    /// Their length in bytes.
    len: usize,
    /// The number of the entries.
    count: usize,
}

/// Copies out whole entries from number `from` on, until the next one doesn't fit. Stores the number of bytes in
/// `need`, and the number after the last of these entries in `next`: `from` if none was copied. The text of an entry is
/// its source in one byte, and the text of a row of its key with its version. If entries are left and the first one
/// doesn't fit, `need` is the length of its text.
///
/// Refused, in order: BAD_POSITION (`from` is over the number of entries; or it is below the number at the last
/// renewal, and isn't the journal's first number); SMALL (the first entry doesn't fit). On error `next` and the buffer
/// are unchanged.
pub fn pack_from(kept: &Kept, from: u64, out: &mut [u8], need: &mut u64, next: &mut u64) -> u32
    ensures { PacksFrom kept.now from result next.old next.new (need.old, out.old) (need.new, out.new) }
{
    let Some(entries) = kept.entries_from(from) else {
        return BAD_POSITION;
    };
    let format = kept.state().store().config().format();
    pack(format, entries, from, out, need, next)
}

/// Copies out entries from the first one on, until the next one doesn't fit. The first of them has the number `from`.
fn pack(
    format: Format,
    entries: &[Entry],
    from: u64,
    out: &mut [u8],
    need: &mut u64,
    next: &mut u64,
) -> u32
    requires within { AllByRecursion (IsWithin format) entries.now }
    requires numbers { from + length entries.now < 2 ^ 64 }
    ensures { Packs format entries.now from result next.old next.new (need.old, out.old) (need.new, out.new) }
{
    if let Some(len) = first_over(format, entries, out.len()) {
        *need = len as u64;
        return SMALL;
    }
    let packed = put_fitting(out, format, entries);
    *need = packed.len as u64;
    *next = from + packed.count as u64;
    0
}

/// Returns the length of the text of the first entry, if it is over `room` bytes.
fn first_over(format: Format, entries: &[Entry], room: usize) -> Option<usize>
    requires { AllByRecursion (IsWithin format) entries.now }
    ensures { result ≡ first_over format room entries.now }
{
    let len = entry_len(format, entries.first()?);
    if len <= room { None } else { Some(len) }
}

/// Returns the length in bytes of the text of an entry.
fn entry_len(format: Format, entry: &Entry) -> usize
    requires { IsWithin format entry.now }
    ensures { result ≡ length (entry_text format entry.now) }
{
    1 + 2 + entry.key.as_slice().len() + 2 + version_len(format, &entry.version) as usize
}

/// Writes the texts of entries from the first one on to the front of a buffer, until the next one doesn't fit.
fn put_fitting(out: &mut [u8], format: Format, entries: &[Entry]) -> Packed
    requires { AllByRecursion (IsWithin format) entries.now }
    ensures are { take result.count entries.now ≡ fitting format (length out.old) entries.now }
    ensures within { result.count ≤ length entries.now }
    ensures written { IsWritten (entries_text format (take result.count entries.now)) out.old 0 out.new result.len }
{
    let mut len = 0;
    let mut left = out.len();
    for (count, entry) in entries.iter().enumerate() {
        let entry_len = entry_len(format, entry);
        if entry_len > left {
            return Packed { len, count };
        }
        len = put_entry(out, len, format, entry);
        left -= entry_len;
    }
    Packed {
        len,
        count: entries.len(),
    }
}

/// Writes the text of an entry at a place of a buffer, and returns its end.
fn put_entry(out: &mut [u8], at: usize, format: Format, entry: &Entry) -> usize
    requires within { IsWithin format entry.now }
    requires room { at + length (entry_text format entry.now) ≤ length out.old }
    ensures { IsWritten (entry_text format entry.now) out.old at out.new result }
{
    let key = entry.key.as_slice();
    let source = put(out, at, &[number_of(entry.source) as u8]);
    let key_len = put(out, source, &(key.len() as u16).to_be_bytes());
    let key_end = put(out, key_len, key);
    let count = put(out, key_end, &1u16.to_be_bytes());
    put_version(out, count, format, &entry.version)
}

/// Writes the text of a version at a place of a buffer, and returns its end. Only format 2 has a byte for the kind.
fn put_version(out: &mut [u8], at: usize, format: Format, version: &Version) -> usize
    requires value { value_fault format version.now.kind version.now.value ≡ None }
    requires room { at + length (version_text format version.now) ≤ length out.old }
    ensures { IsWritten (version_text format version.now) out.old at out.new result }
{
    match format {
        Format::One => put_plain(out, at, version),
        Format::Two => {
            let kind = put(out, at, &[version.kind.byte()]);
            put_plain(out, kind, version)
        }
    }
}

/// Writes a version without its kind at a place of a buffer, and returns its end.
fn put_plain(out: &mut [u8], at: usize, version: &Version) -> usize
    requires value { length version.now.value ≤ 65536 }
    requires room { at + length (plain_text version.now) ≤ length out.old }
    ensures { IsWritten (plain_text version.now) out.old at out.new result }
{
    let pairs = version.clock.pairs();
    let value = version.value.as_slice();
    let count = put(out, at, &[pairs.len() as u8]);
    let clock = put_pairs(out, count, pairs);
    let value_len = put(out, clock, &(value.len() as u32).to_be_bytes());
    put(out, value_len, value)
}

/// Writes the pairs of a clock at a place of a buffer, and returns their end.
fn put_pairs(out: &mut [u8], at: usize, pairs: &[(u16, u64)]) -> usize
    requires { at + length (flat_map pair_text pairs.now) ≤ length out.old }
    ensures { IsWritten (flat_map pair_text pairs.now) out.old at out.new result }
{
    let mut end = at;
    for pair in pairs {
        end = put_pair(out, end, *pair);
    }
    end
}

/// Writes a pair of a clock at a place of a buffer, and returns its end.
fn put_pair(out: &mut [u8], at: usize, pair: (u16, u64)) -> usize
    requires { at + length (pair_text pair) ≤ length out.old }
    ensures { IsWritten (pair_text pair) out.old at out.new result }
{
    let node = put(out, at, &pair.0.to_be_bytes());
    put(out, node, &pair.1.to_be_bytes())
}

/// Writes bytes at a place of a buffer, and returns their end.
fn put(out: &mut [u8], at: usize, bytes: &[u8]) -> usize
    requires { at + length bytes.now ≤ length out.old }
    ensures { IsWritten bytes.now out.old at out.new result }
{
    let end = at + bytes.len();
    out[at..end].copy_from_slice(bytes);
    end
}
