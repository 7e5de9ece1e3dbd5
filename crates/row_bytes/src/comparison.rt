//! Comparing a text with the text of a row in place. Doesn't allocate.
ghost use Rattle.std.specs.Prelude.{◌≡◌, ◌++◌, ◌≤◌, length, None};
ghost use Rattle.std.specs.List.{flat_map, AllByRecursion};
ghost use Rattle.std.specs.Int.{w16, to_be_bytes};
ghost use Rattle.version_set.specs.Kind.{value_fault};
ghost use Rattle.version_set.specs.Version.{pair_text, plain_text, version_text};
ghost use Rattle.row_bytes.specs.Rows.{row_text, FitsText};
ghost use Rattle.row_bytes.specs.Strips.{Strips, StripsRows};

use crate::row::Row;
use vclock::Format;
use version_set::Version;

/// Returns the number of rows, from the first one on, with whose texts a text begins, and the bytes after these texts.
pub fn strip_rows<'a>(text: &'a [u8], format: Format, rows: &[Row]) -> (usize, &'a [u8])
    requires { AllByRecursion (FitsText format) rows.now }
    ensures { StripsRows format rows.now text.now result.0 result.1.now }
{
    let mut rest = text;
    let mut count = 0;
    for row in rows {
        match strip_row(rest, format, row) {
            Some(after) => rest = after,
            None => return (count, rest),
        }
        count += 1;
    }
    (count, rest)
}

/// Returns the bytes after the text of a row, or `None` if the text doesn't begin with it.
pub fn strip_row<'a>(text: &'a [u8], format: Format, row: &Row) -> Option<&'a [u8]>
    requires { FitsText format row.now }
    ensures { Strips (λ x. x.now) (row_text format row.now) text.now result }
{
    let key = row.key.as_slice();
    let rest = strip(text, &(key.len() as u16).to_be_bytes())?;
    let rest = strip(rest, key)?;
    strip_versions(rest, format, row.versions.as_slice())
}

/// Returns the bytes after the number of versions and their texts.
fn strip_versions<'a>(text: &'a [u8], format: Format, versions: &[Version]) -> Option<&'a [u8]>
    requires few { length versions.now ≤ 64 }
    requires each { AllByRecursion (λ v. value_fault format v.kind v.value ≡ None) versions.now }
    ensures { Strips (λ x. x.now) (to_be_bytes w16 (length versions.now) ++ flat_map (version_text format) versions.now) text.now result }
{
    let mut rest = strip(text, &(versions.len() as u16).to_be_bytes())?;
    for version in versions {
        rest = strip_version(rest, format, version)?;
    }
    Some(rest)
}

/// Returns the bytes after the text of a version. Only format 2 has a byte for the kind.
fn strip_version<'a>(text: &'a [u8], format: Format, version: &Version) -> Option<&'a [u8]>
    requires { value_fault format version.now.kind version.now.value ≡ None }
    ensures { Strips (λ x. x.now) (version_text format version.now) text.now result }
{
    match format {
        Format::One => strip_plain(text, version),
        Format::Two => {
            let rest = strip(text, &[version.kind.byte()])?;
            strip_plain(rest, version)
        }
    }
}

/// Returns the bytes after the text of a version without its kind, as in both formats.
fn strip_plain<'a>(text: &'a [u8], version: &Version) -> Option<&'a [u8]>
    requires { length version.now.value ≤ 65536 }
    ensures { Strips (λ x. x.now) (plain_text version.now) text.now result }
{
    let pairs = version.clock.pairs();
    let rest = strip(text, &[pairs.len() as u8])?;
    let rest = strip_pairs(rest, pairs)?;
    let value = version.value.as_slice();
    let rest = strip(rest, &(value.len() as u32).to_be_bytes())?;
    strip(rest, value)
}

/// Returns the bytes after the texts of pairs.
fn strip_pairs<'a>(text: &'a [u8], pairs: &[(u16, u64)]) -> Option<&'a [u8]>
    ensures { Strips (λ x. x.now) (flat_map pair_text pairs.now) text.now result }
{
    let mut rest = text;
    for pair in pairs {
        rest = strip_pair(rest, *pair)?;
    }
    Some(rest)
}

/// Returns the bytes after the text of a pair: its node in two bytes, then its counter in eight.
fn strip_pair(text: &[u8], pair: (u16, u64)) -> Option<&[u8]>
    ensures { Strips (λ x. x.now) (pair_text pair) text.now result }
{
    let rest = strip(text, &pair.0.to_be_bytes())?;
    strip(rest, &pair.1.to_be_bytes())
}

/// Returns the bytes after `front`, or `None` if the text doesn't begin with it.
pub fn strip<'a>(text: &'a [u8], front: &[u8]) -> Option<&'a [u8]>
    ensures { Strips (λ x. x.now) front.now text.now result }
{
    text.strip_prefix(front)
}
