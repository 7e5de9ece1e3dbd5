//! The fields of texts, read from the left. A function that reads a field returns it with the bytes after it.
ghost use Rattle.std.specs.Prelude.{◌≡◌, [], ⊤, nat_lt, nat_le, ◌&&◌};
ghost use Rattle.std.specs.Int.{w8, w16, w32, w64};
ghost use Rattle.row_bytes.specs.Reading.{Gives, number_at, field_at, bytes_at, pair_at, pairs_at, kind_at, longest_value};

use crate::fault::ReadError;
use smallvec::SmallVec;
use std::alloc::Global;
use vclock::limits::PAIRS_MAX;
use vclock::{ClockPairs, Format};
use version_set::Kind;

/// Reads a number of one byte.
fn u8_at(bytes: &[u8]) -> Result<(u8, &[u8]), ReadError>
    ensures { Gives ⊥ (λ x. (x.0, x.1.now)) result (number_at w8 bytes.now) }
{
    if bytes.len() < 1 {
        return Err(ReadError::Left(bytes.len()));
    }
    let (front, rest) = bytes.split_at(1);
    Ok((front[0], rest))
}

/// Reads a number of two bytes.
fn u16_at(bytes: &[u8]) -> Result<(u16, &[u8]), ReadError>
    ensures { Gives ⊥ (λ x. (x.0, x.1.now)) result (number_at w16 bytes.now) }
{
    if bytes.len() < 2 {
        return Err(ReadError::Left(bytes.len()));
    }
    let (front, rest) = bytes.split_at(2);
    Ok((u16::from_be_bytes([front[0], front[1]]), rest))
}

/// Reads a number of four bytes.
fn u32_at(bytes: &[u8]) -> Result<(u32, &[u8]), ReadError>
    ensures { Gives ⊥ (λ x. (x.0, x.1.now)) result (number_at w32 bytes.now) }
{
    if bytes.len() < 4 {
        return Err(ReadError::Left(bytes.len()));
    }
    let (front, rest) = bytes.split_at(4);
    let number = u32::from_be_bytes([front[0], front[1], front[2], front[3]]);
    Ok((number, rest))
}

/// Reads a number of eight bytes.
fn u64_at(bytes: &[u8]) -> Result<(u64, &[u8]), ReadError>
    ensures { Gives ⊥ (λ x. (x.0, x.1.now)) result (number_at w64 bytes.now) }
{
    if bytes.len() < 8 {
        return Err(ReadError::Left(bytes.len()));
    }
    let (front, rest) = bytes.split_at(8);
    let number = u64::from_be_bytes([
        front[0], front[1], front[2], front[3], front[4], front[5], front[6], front[7],
    ]);
    Ok((number, rest))
}

/// Reads `len` bytes.
pub(crate) fn slice_of(len: usize, bytes: &[u8]) -> Result<(&[u8], &[u8]), ReadError>
    ensures { Gives ⊥ (λ x. (x.0.now, x.1.now)) result (bytes_at len bytes.now) }
{
    if bytes.len() < len {
        return Err(ReadError::Left(bytes.len()));
    }
    let (front, rest) = bytes.split_at(len);
    Ok((front, rest))
}

/// Reads the number of pairs of a clock.
pub(crate) fn pair_count_of(bytes: &[u8]) -> Result<(u8, &[u8]), ReadError>
    ensures { Gives ⊥ (λ x. (x.0, x.1.now)) result (field_at w8 (λ n. nat_le n 32) bytes.now) }
{
    let (count, rest) = u8_at(bytes)?;
    if usize::from(count) > PAIRS_MAX {
        return Err(ReadError::Left(bytes.len()));
    }
    Ok((count, rest))
}

/// Reads the length of a value, at most `most` bytes.
pub(crate) fn value_len_of(most: usize, bytes: &[u8]) -> Result<(u32, &[u8]), ReadError>
    ensures { Gives ⊥ (λ x. (x.0, x.1.now)) result (field_at w32 (λ n. nat_le n most) bytes.now) }
{
    let (len, rest) = u32_at(bytes)?;
    if len as usize > most {
        return Err(ReadError::Left(bytes.len()));
    }
    Ok((len, rest))
}

/// Reads the kind of a version. Only format 2 has a byte for it.
#[tactic(auto, unfolding(crate::specs::Reading::kind_at))]
pub(crate) fn kind_of(format: Format, bytes: &[u8]) -> Result<(Kind, &[u8]), ReadError>
    ensures { Gives ⊥ (λ x. (x.0, x.1.now)) result (kind_at format bytes.now) }
{
    match format {
        Format::One => Ok((Kind::Live, bytes)),
        Format::Two => kind_byte_of(bytes),
    }
}

/// Reads the byte of a kind.
#[tactic(auto, unfolding(crate::specs::Reading::kind_at))]
fn kind_byte_of(bytes: &[u8]) -> Result<(Kind, &[u8]), ReadError>
    ensures { Gives ⊥ (λ x. (x.0, x.1.now)) result (kind_at Format.Two bytes.now) }
{
    let (byte, rest) = u8_at(bytes)?;
    match byte {
        0 => Ok((Kind::Live, rest)),
        1 => Ok((Kind::Tombstone, rest)),
        _ => Err(ReadError::Left(bytes.len())),
    }
}

/// Returns the maximum length of a value of this kind, in bytes.
pub(crate) fn longest_value(format: Format, kind: Kind) -> usize
    ensures { result ≡ longest_value format kind }
{
    match kind {
        Kind::Live => format.value_limit(),
        Kind::Tombstone => 0,
    }
}

/// Reads a length or a count, from 1 to `most`.
pub(crate) fn count_of(most: u16, bytes: &[u8]) -> Result<(u16, &[u8]), ReadError>
    ensures { Gives ⊥ (λ x. (x.0, x.1.now)) result (field_at w16 (λ n. nat_le 1 n && nat_le n most) bytes.now) }
{
    let (count, rest) = u16_at(bytes)?;
    if count < 1 || count > most {
        return Err(ReadError::Left(bytes.len()));
    }
    Ok((count, rest))
}

/// Reads a node greater than `above`.
fn node_of(above: u16, bytes: &[u8]) -> Result<(u16, &[u8]), ReadError>
    ensures { Gives ⊥ (λ x. (x.0, x.1.now)) result (field_at w16 (nat_lt above) bytes.now) }
{
    let (node, rest) = u16_at(bytes)?;
    if node <= above {
        return Err(ReadError::Left(bytes.len()));
    }
    Ok((node, rest))
}

/// Reads a counter.
fn counter_of(bytes: &[u8]) -> Result<(u64, &[u8]), ReadError>
    ensures { Gives ⊥ (λ x. (x.0, x.1.now)) result (field_at w64 (nat_lt 0) bytes.now) }
{
    let (counter, rest) = u64_at(bytes)?;
    if counter == 0 {
        return Err(ReadError::Left(bytes.len()));
    }
    Ok((counter, rest))
}

/// Reads a node greater than `above`, and its counter.
#[tactic(auto, unfolding(crate::specs::Reading::pair_at))]
fn pair_of(above: u16, bytes: &[u8]) -> Result<((u16, u64), &[u8]), ReadError>
    ensures { Gives ⊥ (λ x. (x.0, x.1.now)) result (pair_at above bytes.now) }
{
    let (node, rest) = node_of(above, bytes)?;
    let (counter, rest) = counter_of(rest)?;
    Ok(((node, counter), rest))
}

/// Reads `count` pairs, by ascending node.
pub(crate) fn pairs_of(
    alloc: Global,
    count: u8,
    bytes: &[u8],
) -> Result<(ClockPairs, &[u8]), ReadError>
    ensures { Gives ⊤ (λ x. (x.0.items, x.1.now)) result (pairs_at count 0 [] bytes.now) }
{
    let mut pairs = SmallVec::with_capacity(alloc, usize::from(count))?;
    let mut above = 0u16;
    let mut rest = bytes;
    'pairs: for _ in 0..count {
        let (pair, after) = pair_of(above, rest)?;
        pairs.push(pair)?;
        above = pair.0;
        rest = after;
    }
    Ok((pairs, rest))
}
