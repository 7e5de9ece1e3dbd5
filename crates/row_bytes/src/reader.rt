//! Reading rows from their texts, as docs/FORMATS.md defines them.
ghost use Rattle.std.specs.Prelude.{◌≡◌, ◌++◌, ℕ, List, [], ⊤, length, IfOk, IfErr, Some, MatchOption, option_map};
ghost use Rattle.std.specs.List.{list_all, flat_map};
ghost use Rattle.version_set.specs.Version.{version_text, IsVersionSet};
ghost use Rattle.row_bytes.specs.declared.row.Row.{Row};
ghost use Rattle.row_bytes.specs.Rows.{is_before, is_apart, row_text, IsRow, AreRows, FitsText, BeginsWithKey};
ghost use Rattle.row_bytes.specs.Outcome.{IsRead, IsReadFault, AreRead, AreReadFault};
ghost use Rattle.row_bytes.specs.Reading.{Gives, HasHead, version_at, may_follow, versions_at, row_at, last_key, rows_at};

use crate::fault::ReadError;
use crate::fields::{
    count_of, kind_of, longest_value, pair_count_of, pairs_of, slice_of, value_len_of,
};
use crate::row::{Row, RowList};
use std::alloc::Global;
use vclock::limits::{KEY_LEN_MAX, VERSIONS_MAX};
use vclock::{Bytes, Clock, Format, Refusal};
use version_set::{Version, VersionSet};

/// Copies the bytes.
fn bytes_of(alloc: Global, bytes: &[u8]) -> Result<Bytes, ReadError>
    ensures copy { IfOk result (λ copy. copy ≡ bytes.now) }
    ensures memory { IfErr result (λ e. e ≡ ReadError.Memory) }
{
    match Bytes::copy_of(alloc, bytes) {
        Ok(copy) => Ok(copy),
        Err(_) => Err(ReadError::Memory),
    }
}

/// Reads a version, and returns it with the bytes after it.
#[tactic(auto, unfolding(crate::specs::Reading::version_at))]
fn version_of(alloc: Global, format: Format, bytes: &[u8]) -> Result<(Version, &[u8]), ReadError>
    ensures { Gives ⊤ (λ x. (x.0, x.1.now)) result (version_at format bytes.now) }
{
    let (kind, rest) = kind_of(format, bytes)?;
    let (count, rest) = pair_count_of(rest)?;
    let (pairs, rest) = pairs_of(alloc, count, rest)?;
    let (len, rest) = value_len_of(longest_value(format, kind), rest)?;
    let (value, rest) = slice_of(len as usize, rest)?;
    let version = Version {
        clock: Clock::of_ascending(pairs),
        kind,
        value: bytes_of(alloc, value)?,
    };
    Ok((version, rest))
}

/// Reads a version, and returns it with its text and the bytes after it.
fn version_and_text(
    alloc: Global,
    format: Format,
    bytes: &[u8],
) -> Result<(Version, &[u8], &[u8]), ReadError>
    ensures read { Gives ⊤ (λ x. (x.0, x.2.now)) result (version_at format bytes.now) }
    ensures text { IfOk result (λ x. x.1.now ≡ version_text format x.0) }
{
    let (version, rest) = version_of(alloc, format, bytes)?;
    let text = &bytes[..bytes.len() - rest.len()];
    Ok((version, text, rest))
}

/// Returns true if `text` is before `other`, byte by byte.
fn stands_before(text: &[u8], other: &[u8]) -> bool
    ensures { result ≡ is_before text.now other.now }
{
    text.cmp(other).is_lt()
}

/// Returns true if the version is neither below nor above any of those before it.
fn all_apart(before: &[Version], version: &Version) -> bool
    ensures { result ≡ list_all (λ u. is_apart u version.now) before.now }
{
    before.iter().all(|other| are_apart(other, version))
}

/// Returns true if neither version is below the other.
fn are_apart(version: &Version, other: &Version) -> bool
    ensures { result ≡ is_apart version.now other.now }
{
    !version.is_below(other) && !other.is_below(version)
}

/// Returns true if `version` may follow `before`. `text` and `last` are the texts of `version` and of the last of
/// `before`.
#[tactic(auto, unfolding(crate::specs::Reading::may_follow))]
fn can_follow(
    format: Format,
    last: &[u8],
    before: &[Version],
    text: &[u8],
    version: &Version,
) -> bool
    requires { text.now ≡ version_text format version.now }
    ensures { result ≡ may_follow format last.now before.now version.now }
{
    stands_before(last, text) && all_apart(before, version)
}

/// Reads `count` versions, in ascending order of their texts. No version is below another.
fn versions_of(
    alloc: Global,
    format: Format,
    count: u16,
    bytes: &[u8],
) -> Result<(Vec<Version>, &[u8]), ReadError>
    ensures { Gives ⊤ (λ x. (x.0.items, x.1.now)) result (versions_at format count [] [] bytes.now) }
{
    let mut versions = Vec::with_capacity(alloc, usize::from(count))?;
    let mut last: &[u8] = &[];
    let mut rest = bytes;
    'versions: for _ in 0..count {
        let (version, text, after) = version_and_text(alloc, format, rest)?;
        if !can_follow(format, last, &versions, text, &version) {
            return Err(ReadError::Left(rest.len()));
        }
        versions.push(version)?;
        last = text;
        rest = after;
    }
    Ok((versions, rest))
}

/// Reads a row, and returns it with the bytes after it.
#[tactic(auto, unfolding(crate::specs::Reading::row_at))]
fn row_of(alloc: Global, format: Format, bytes: &[u8]) -> Result<(Row, &[u8]), ReadError>
    ensures { Gives (HasHead bytes.now) (λ x. (x.0, x.1.now)) result (row_at format bytes.now) }
{
    let (len, rest) = count_of(KEY_LEN_MAX as u16, bytes)?;
    let (key, rest) = slice_of(len as usize, rest)?;
    let (count, rest) = count_of(VERSIONS_MAX as u16, rest)?;
    let (versions, rest) = versions_of(alloc, format, count, rest)?;
    let row = Row {
        key: bytes_of(alloc, key)?,
        versions: VersionSet::of_ascending(versions),
    };
    Ok((row, rest))
}

/// Reads the row at the front, and returns it with the bytes after it.
///
/// Refused: RowBroken, with the offset in bytes of the first field that isn't whole or breaks its rule, or of a whole
/// version that isn't greater than the one before it, or is below or above an earlier one; NoMemory.
pub fn read_row(alloc: Global, format: Format, text: &[u8]) -> Result<(Row, &[u8]), Refusal>
    // The result is a row, and the text is that row's text followed by the rest.
    ensures found { IfOk result (λ x. IsRow format x.0 × (text.now ≡ row_text format x.0 ++ x.1.now)) }
    // A text that begins with a row's text is read, unless memory runs out.
    ensures only { (r : Row) (rest : List ℕ) → IsRow format r → text.now ≡ row_text format r ++ rest
        → IsRead r rest (λ x. (x.0, x.1.now)) result }
    // A fault is at its offset. Memory runs out only after the key and the number of versions.
    ensures broken { IfErr result (IsReadFault format text.now) }
{
    match row_of(alloc, format, text) {
        Ok((row, rest)) => Ok((row, rest)),
        Err(ReadError::Memory) => Err(Refusal::NoMemory),
        Err(ReadError::Left(left)) => Err(Refusal::RowBroken((text.len() - left) as u64)),
    }
}

/// Returns the key at the front of the text of a row, if the bytes begin with a whole key. Doesn't read the bytes after
/// the key.
pub fn key_at(text: &[u8]) -> Option<&[u8]>
    // The text begins with the key.
    ensures found { MatchOption result ⊤ (λ key. (rest : List ℕ) × BeginsWithKey text.now key.now rest) }
    // A text begins with at most one key, and that key is found.
    ensures only { (key rest : List ℕ) → BeginsWithKey text.now key rest → option_map (λ found. found.now) result ≡ Some key }
{
    let Ok((len, rest)) = count_of(KEY_LEN_MAX as u16, text) else {
        return None;
    };
    match slice_of(len as usize, rest) {
        Ok((key, _)) => Some(key),
        Err(_) => None,
    }
}

/// Returns the key of the last row, or no bytes.
#[tactic(auto, unfolding(crate::specs::Reading::last_key))]
fn last_key(rows: &[Row]) -> &[u8]
    ensures { result.now ≡ last_key rows.now }
{
    match rows.last() {
        Some(row) => row.key.as_slice(),
        None => &[],
    }
}

/// Reads rows up to the end of the text.
fn rows_of(alloc: Global, format: Format, text: &[u8]) -> Result<Vec<Row>, ReadError>
    ensures { Gives (HasHead text.now) (λ x. x.items) result (rows_at format (length text.now) [] [] text.now) }
{
    let mut rows = Vec::new(alloc);
    let mut rest = text;
    'rows: while !rest.is_empty() {
        let (row, after) = row_of(alloc, format, rest)?;
        if !stands_before(last_key(&rows), row.key.as_slice()) {
            return Err(ReadError::Left(rest.len()));
        }
        rows.push(row)?;
        rest = after;
    }
    Ok(rows)
}

/// Reads rows up to the end of the text, in strictly ascending order of their keys. Returns no rows for an empty text.
///
/// Refused: RowBroken, with the offset in bytes of the first field that isn't whole or breaks its rule, of a whole
/// version as in `read_row`, or of a whole row whose key isn't greater than the key before it; NoMemory. Allocates in
/// proportion to the bytes read.
pub fn read_rows(alloc: Global, format: Format, text: &[u8]) -> Result<RowList, Refusal>
    // The result is rows of the format, and the text is their texts, in order.
    ensures found { IfOk result (λ rows. AreRows format rows × (text.now ≡ flat_map (row_text format) rows)) }
    // A text that is the texts of rows is read, unless memory runs out.
    ensures only { (rows : List Row) → AreRows format rows → text.now ≡ flat_map (row_text format) rows → AreRead rows result }
    // A fault is at its offset. Memory runs out only after the first key and the number of its versions.
    ensures broken { IfErr result (AreReadFault format text.now) }
{
    match rows_of(alloc, format, text) {
        Ok(rows) => Ok(RowList::from(rows)),
        Err(ReadError::Memory) => Err(Refusal::NoMemory),
        Err(ReadError::Left(left)) => Err(Refusal::RowBroken((text.len() - left) as u64)),
    }
}

/// No row's text begins another row's text: if two row texts, each followed by any bytes, are equal, then the rows are
/// equal and the bytes that follow are equal.
pub fn a_row_has_one_text()
    ensures { (format : Format) (r s : Row) (x y : List ℕ) → IsRow format r → IsRow format s
        → row_text format r ++ x ≡ row_text format s ++ y → (r ≡ s) × (x ≡ y) }
{}

/// The versions that are held for a key have a text: a key with a set that fits a format is a row of that format; and a
/// row's versions are such a set.
pub fn a_held_set_is_a_row()
    ensures held { (format : Format) (r : Row) → IsVersionSet r.versions → FitsText format r → IsRow format r }
    ensures back { (format : Format) (r : Row) → IsRow format r → IsVersionSet r.versions × FitsText format r }
{}
