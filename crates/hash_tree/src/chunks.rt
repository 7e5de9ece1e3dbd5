//! The rows of a leaf in chunks: finding a row, and offering a version.
ghost use Rattle.std.specs.Prelude.{◌≡◌, ◌+◌, ◌<◌, ◌≤◌, ◌^◌, [], None, length, take, drop, OnErr};
ghost use Rattle.std.specs.List.{AllByRecursion, flat_map, insert};
ghost use Rattle.std.specs.declared.cmp.Ordering.TheVariants.{Less, Greater};
ghost use Rattle.vclock.specs.Answer.{Answers};
ghost use Rattle.vclock.specs.Bytes.{key_fault};
ghost use Rattle.vclock.specs.Outcome.{Does, gives};
ghost use Rattle.version_set.specs.Kind.{value_fault};
ghost use Rattle.version_set.specs.Version.{offer_fault, offered};
ghost use Rattle.row_bytes.specs.Rows.{FitsText};
ghost use Rattle.hash_tree.specs.Leaves.{Bucket, key_cmp, AscendByKey, IsPlace, versions_in, with_offer};
ghost use Rattle.hash_tree.specs.Chunks.{all_rows, chunk_rows, chunk_text, AreChunks, place_in, IsSpot, IsRowSpot, IsGapSpot, IsRoomySpot, IsSplit, row_versions, offered_at};

use crate::chunk::Chunk;
use crate::measured_rows::ROWS_MAX;
use row_bytes::Row;
use std::alloc::Global;
use vclock::{Bytes, Format, Refusal};
use version_set::{Version, VersionSet};

/// The maximum number of chunks of a leaf: more than any memory holds, and few enough to count the bytes of its text.
const CHUNKS_MAX: usize = 1 << 56;

/// The place of a row in a leaf, or a place at which to insert one.
#[derive(Clone, Copy, Debug)]
pub(crate) struct Spot {
    /// The index of the chunk.
    pub(crate) chunk: usize,
    /// The index among the rows of the chunk.
    pub(crate) at: usize,
}

/// Returns the spot of the row of a key, or the spot at which to insert one, by a binary search: place 0 of chunk 0 if
/// the leaf has no chunks.
pub(crate) fn spot_of(chunks: &[Chunk], key: &[u8]) -> Result<Spot, Spot>
    requires each { AllByRecursion (λ (c : Bucket). 1 ≤ length c.rows) chunks.now }
    requires ascending { AscendByKey (all_rows chunks.now) }
    ensures { IsSpot key.now chunks.now result }
{
    if chunks.is_empty() {
        return Err(Spot { chunk: 0, at: 0 });
    }
    let chunk = chunk_of(chunks, key);
    match find_place(chunks[chunk].rows(), key) {
        Ok(at) => Ok(Spot { chunk, at }),
        Err(at) => Err(Spot { chunk, at }),
    }
}

/// Returns the index of the chunk that has the row of a key, or into which one is inserted: the last chunk whose first
/// key is at most the key, otherwise the first chunk.
fn chunk_of(chunks: &[Chunk], key: &[u8]) -> usize
    requires some { 1 ≤ length chunks.now }
    requires each { AllByRecursion (λ (c : Bucket). 1 ≤ length c.rows) chunks.now }
    requires ascending { AscendByKey (all_rows chunks.now) }
    ensures within { result < length chunks.now }
    ensures before { AllByRecursion (λ r. key_cmp key.now r.key ≡ Greater) (all_rows (take result chunks.now)) }
    ensures after { AllByRecursion (λ r. key_cmp key.now r.key ≡ Less) (all_rows (drop (result + 1) chunks.now)) }
{
    chunks
        .partition_point(|chunk| chunk.begins_by(key))
        .saturating_sub(1)
}

/// Returns the place of the row of a key, or the place at which to insert one.
fn find_place(rows: &[Row], key: &[u8]) -> Result<usize, usize>
    requires { AscendByKey rows.now }
    ensures { IsPlace key.now rows.now result }
{
    rows.binary_search_by(|row| row.key.as_slice().cmp(key))
}

/// Returns the length in bytes of the text of a leaf with these chunks.
pub(crate) fn text_len(chunks: &[Chunk]) -> u128
    requires { length chunks.now ≤ 2 ^ 56 }
    ensures { result ≡ 1 + length (flat_map chunk_text chunks.now) }
{
    let mut len = 1;
    for chunk in chunks {
        len += chunk.text_len() as u128;
    }
    len
}

/// Offers a version to the set of a key, which has space for it. If the key has no row, one is added. On error the rows
/// are unchanged. Refused: NoMemory.
pub(crate) fn offer_to_key(
    alloc: Global,
    format: Format,
    chunks: &mut Vec<Chunk>,
    key: &Bytes,
    version: Version,
) -> Result<(), Refusal>
    requires ascending { AscendByKey (all_rows chunks.old.items) }
    requires key { key_fault key.now ≡ None }
    requires value { value_fault format version.kind version.value ≡ None }
    requires room { offer_fault version (versions_in key.now (all_rows chunks.old.items)) ≡ None }
    requires chunks { AreChunks format chunks.old.items }
    ensures rows { Does result (all_rows chunks.old.items) (all_rows chunks.new.items)
        (gives tt (with_offer key.now version (all_rows chunks.old.items))) }
    ensures chunks { AreChunks format chunks.new.items }
{
    match spot_of(chunks, key.as_slice()) {
        Ok(spot) => offer_at(chunks, spot, version),
        Err(gap) => {
            let row = row_of_one(alloc, key, version)?;
            insert_at(alloc, format, chunks, gap, row)
        }
    }
}

/// Returns the row of a key with one version. Refused: NoMemory.
fn row_of_one(alloc: Global, key: &Bytes, version: Version) -> Result<Row, Refusal>
    ensures { Answers result None (λ row. row ≡ record { key = key.now; versions = offered version [] }) }
{
    let key = key.try_clone()?;
    let mut versions = VersionSet::empty(alloc);
    versions.offer(version)?;
    Ok(Row { key, versions })
}

/// Offers a version to the set of a row, which has space for it. On error the rows are unchanged. Refused: NoMemory.
fn offer_at(chunks: &mut Vec<Chunk>, spot: Spot, version: Version) -> Result<(), Refusal>
    requires spot { IsRowSpot chunks.old.items spot }
    requires value { AllByRecursion (λ (c : Bucket). value_fault c.format version.kind version.value ≡ None) chunks.old.items }
    requires room { offer_fault version (row_versions (all_rows chunks.old.items) (place_in chunks.old.items spot)) ≡ None }
    ensures rows { Does result (all_rows chunks.old.items) (all_rows chunks.new.items)
        (gives tt (offered_at (all_rows chunks.old.items) (place_in chunks.old.items spot) version)) }
    ensures chunks { (format : Format) → AreChunks format chunks.old.items → AreChunks format chunks.new.items }
{
    chunks[spot.chunk].offer(spot.at, version)
}

/// Inserts a row among the others, after splitting its chunk if that is full. Makes the first chunk if none exists. On
/// error the rows are unchanged. Refused: NoMemory.
fn insert_at(
    alloc: Global,
    format: Format,
    chunks: &mut Vec<Chunk>,
    gap: Spot,
    row: Row,
) -> Result<(), Refusal>
    requires gap { 1 ≤ length chunks.old.items → IsGapSpot chunks.old.items gap }
    requires fits { FitsText format row }
    requires chunks { AreChunks format chunks.old.items }
    ensures rows { Does result (all_rows chunks.old.items) (all_rows chunks.new.items)
        (gives tt (insert (all_rows chunks.old.items) (place_in chunks.old.items gap) row)) }
    ensures chunks { AreChunks format chunks.new.items }
{
    if chunks.is_empty() {
        chunks.push(Chunk::of_row(alloc, format, row)?)?;
        return Ok(());
    }
    let spot = roomy_gap(alloc, chunks, gap)?;
    chunks[spot.chunk].insert(spot.at, row)
}

/// Makes space at a gap by splitting a full chunk, and returns the spot of the gap. The rows are unchanged, even on
/// error. Refused: NoMemory.
fn roomy_gap(alloc: Global, chunks: &mut Vec<Chunk>, gap: Spot) -> Result<Spot, Refusal>
    requires gap { IsGapSpot chunks.old.items gap }
    requires each { AllByRecursion (λ (c : Bucket). length c.rows ≤ 15) chunks.old.items }
    ensures gap { Answers result None (λ now. IsRoomySpot chunks.new.items now
        × (place_in chunks.new.items now ≡ place_in chunks.old.items gap)) }
    ensures rows { all_rows chunks.new.items ≡ all_rows chunks.old.items }
    ensures chunks { (format : Format) → AreChunks format chunks.old.items → AreChunks format chunks.new.items }
{
    if chunks[gap.chunk].rows().len() < ROWS_MAX {
        return Ok(gap);
    }
    let cut = cut_for(gap.at);
    split_at(alloc, chunks, gap.chunk, cut)?;
    if gap.at <= cut {
        return Ok(gap);
    }
    Ok(Spot {
        chunk: gap.chunk + 1,
        at: gap.at - cut,
    })
}

/// Returns the index from which a full chunk is split, if a row is to be inserted at `at`. After all rows, as with keys
/// in ascending order, it is the last one, so that most rows are in full chunks; otherwise it is the middle one.
fn cut_for(at: usize) -> usize
    ensures some { 1 ≤ result }
    ensures less { result < 15 }
{
    if at < ROWS_MAX {
        ROWS_MAX / 2
    } else {
        ROWS_MAX - 1
    }
}

/// Splits a full chunk in two at `cut`. On error the chunks are unchanged. Refused: NoMemory.
fn split_at(
    alloc: Global,
    chunks: &mut Vec<Chunk>,
    number: usize,
    cut: usize,
) -> Result<(), Refusal>
    requires within { number < length chunks.old.items }
    requires some { 1 ≤ cut }
    requires less { cut < 15 }
    requires full { length (chunk_rows chunks.old.items number) ≡ 15 }
    ensures split { Answers result None (λ _. IsSplit chunks.old.items number cut chunks.new.items) }
    ensures err { OnErr result (chunks.new.items ≡ chunks.old.items) }
{
    if chunks.len() >= CHUNKS_MAX {
        return Err(Refusal::NoMemory);
    }
    chunks.reserve(1)?;
    let back = chunks[number].split(alloc, cut)?;
    chunks.insert(number + 1, back).unwrap();
    Ok(())
}
