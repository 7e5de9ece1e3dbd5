//! Writing texts of rows, as docs/FORMATS.md defines them.
ghost use Rattle.std.specs.Prelude.{◌≡◌, ◌++◌, ◌+◌, ◌<◌, ◌≤◌, length, None, OnOk, OnErr};
ghost use Rattle.std.specs.List.{flat_map, AllByRecursion};
ghost use Rattle.std.specs.Int.{w16, to_be_bytes};
ghost use Rattle.std.specs.Vec.{vec_capacity};
ghost use Rattle.vclock.specs.Answer.{Answers};
ghost use Rattle.version_set.specs.Kind.{value_fault};
ghost use Rattle.version_set.specs.Version.{pair_text, plain_text, version_text};
ghost use Rattle.row_bytes.specs.Rows.{row_text, FitsText};

use crate::lengths::held_len;
use crate::row::Row;
use std::alloc::{AllocError, Global};
use vclock::{Format, Refusal};
use version_set::{Version, VersionSet};

/// Appends a pair of a clock: the node in two bytes, then its counter in eight. This call and the others below that
/// append fail only if memory is needed beyond the capacity of `out`.
fn put_pair(out: &mut Vec<u8>, pair: (u16, u64)) -> Result<(), AllocError>
    ensures ok { OnOk result (out.new.items ≡ out.old.items ++ pair_text pair) }
    ensures room { OnErr result (vec_capacity out.old < length out.old.items + length (pair_text pair)) }
    ensures grows { vec_capacity out.old ≤ vec_capacity out.new }
{
    out.extend_from_slice(&pair.0.to_be_bytes())?;
    out.extend_from_slice(&pair.1.to_be_bytes())?;
    Ok(())
}

/// Appends the pairs of a clock.
fn put_pairs(out: &mut Vec<u8>, pairs: &[(u16, u64)]) -> Result<(), AllocError>
    ensures ok { OnOk result (out.new.items ≡ out.old.items ++ flat_map pair_text pairs.now) }
    ensures room { OnErr result (vec_capacity out.old < length out.old.items + length (flat_map pair_text pairs.now)) }
    ensures grows { vec_capacity out.old ≤ vec_capacity out.new }
{
    for pair in pairs {
        put_pair(out, *pair)?;
    }
    Ok(())
}

/// Appends a version without its kind, as in both formats.
fn put_plain(out: &mut Vec<u8>, version: &Version) -> Result<(), AllocError>
    requires { length version.now.value ≤ 65536 }
    ensures ok { OnOk result (out.new.items ≡ out.old.items ++ plain_text version.now) }
    ensures room { OnErr result (vec_capacity out.old < length out.old.items + length (plain_text version.now)) }
    ensures grows { vec_capacity out.old ≤ vec_capacity out.new }
{
    let pairs = version.clock.pairs();
    out.push(pairs.len() as u8)?;
    put_pairs(out, pairs)?;
    let value = version.value.as_slice();
    out.extend_from_slice(&(value.len() as u32).to_be_bytes())?;
    out.extend_from_slice(value)?;
    Ok(())
}

/// Appends the text of a version. Only format 2 has a byte for the kind.
#[tactic(auto, using(crate::proofs::LimitLaws::value_short))]
fn put_version(out: &mut Vec<u8>, format: Format, version: &Version) -> Result<(), AllocError>
    requires { value_fault format version.now.kind version.now.value ≡ None }
    ensures ok { OnOk result (out.new.items ≡ out.old.items ++ version_text format version.now) }
    ensures room { OnErr result (vec_capacity out.old < length out.old.items + length (version_text format version.now)) }
    ensures grows { vec_capacity out.old ≤ vec_capacity out.new }
{
    match format {
        Format::One => put_plain(out, version),
        Format::Two => {
            out.push(version.kind.byte())?;
            put_plain(out, version)
        }
    }
}

/// Appends the number of versions, and then their texts.
fn put_versions(out: &mut Vec<u8>, format: Format, versions: &[Version]) -> Result<(), AllocError>
    requires few { length versions.now ≤ 64 }
    requires each { AllByRecursion (λ v. value_fault format v.kind v.value ≡ None) versions.now }
    ensures ok { OnOk result (out.new.items ≡ out.old.items ++ to_be_bytes w16 (length versions.now) ++ flat_map (version_text format) versions.now) }
    ensures room { OnErr result (vec_capacity out.old < length out.old.items + length (to_be_bytes w16 (length versions.now) ++ flat_map (version_text format) versions.now)) }
    ensures grows { vec_capacity out.old ≤ vec_capacity out.new }
{
    out.extend_from_slice(&(versions.len() as u16).to_be_bytes())?;
    for version in versions {
        put_version(out, format, version)?;
    }
    Ok(())
}

/// Appends the text of a row. Fails only if memory is needed beyond the capacity of `out`, which is then unchanged.
pub fn put_row(out: &mut Vec<u8>, format: Format, row: &Row) -> Result<(), AllocError>
    requires { FitsText format row.now }
    ensures ok { OnOk result (out.new.items ≡ out.old.items ++ row_text format row.now) }
    ensures room { OnErr result (vec_capacity out.old < length out.old.items + length (row_text format row.now)) }
    ensures grows { vec_capacity out.old ≤ vec_capacity out.new }
    ensures err { OnErr result (out.new.items ≡ out.old.items) }
{
    put_held(out, format, row.key.as_slice(), &row.versions)
}

/// Appends the text of the row of a key with a set, like `put_row`.
#[tactic(auto, unfolding(crate::specs::Rows::row_text), using(crate::proofs::LimitLaws::key_short))]
fn put_held(
    out: &mut Vec<u8>,
    format: Format,
    key: &[u8],
    set: &VersionSet,
) -> Result<(), AllocError>
    requires { FitsText format (record { key = key.now; versions = set.now }) }
    ensures ok { OnOk result (out.new.items ≡ out.old.items ++ row_text format (record { key = key.now; versions = set.now })) }
    ensures room { OnErr result (vec_capacity out.old < length out.old.items + length (row_text format (record { key = key.now; versions = set.now }))) }
    ensures grows { vec_capacity out.old ≤ vec_capacity out.new }
    ensures err { OnErr result (out.new.items ≡ out.old.items) }
{
    out.reserve(held_len(format, key, set) as usize)?;
    out.extend_from_slice(&(key.len() as u16).to_be_bytes())?;
    out.extend_from_slice(key)?;
    put_versions(out, format, set.as_slice())
}

/// Returns the text of a row. Refused: NoMemory.
pub fn write_row(alloc: Global, format: Format, row: &Row) -> Result<Vec<u8>, Refusal>
    requires { FitsText format row.now }
    ensures { Answers result None (λ text. text.items ≡ row_text format row.now) }
{
    write_held(alloc, format, row.key.as_slice(), &row.versions)
}

/// Returns the text of the row of a key with a set. Copies neither. Refused: NoMemory.
pub fn write_held(
    alloc: Global,
    format: Format,
    key: &[u8],
    set: &VersionSet,
) -> Result<Vec<u8>, Refusal>
    requires { FitsText format (record { key = key.now; versions = set.now }) }
    ensures { Answers result None (λ text. text.items ≡ row_text format (record { key = key.now; versions = set.now })) }
{
    let mut text = Vec::new(alloc);
    put_held(&mut text, format, key, set)?;
    Ok(text)
}
