//! The rows of one leaf, with several owners: a range, and the jobs that read them.
ghost use Rattle.std.specs.Prelude.{◌≡◌, ◌↔◌, ◌++◌, ◌+◌, ◌-◌, ◌<◌, ◌≤◌, ◌^◌, [], ⊤, None, IsTrue, length, min, unwrap_or, option_map, MatchOption, OnOk, OnErr};
ghost use Rattle.std.specs.List.{AllByRecursion, flat_map};
ghost use Rattle.std.specs.Vec.{vec_capacity};
ghost use Rattle.vclock.specs.Answer.{Answers};
ghost use Rattle.vclock.specs.Bytes.{key_fault};
ghost use Rattle.vclock.specs.Outcome.{Does, gives};
ghost use Rattle.version_set.specs.Kind.{value_fault};
ghost use Rattle.version_set.specs.Version.{offer_fault};
ghost use Rattle.row_bytes.specs.Rows.{row_text, FitsText};
ghost use Rattle.hash_tree.specs.Leaves.{IsBucket, FindsRun, versions_in, with_offer};
ghost use Rattle.hash_tree.specs.Chunks.{all_rows, AreChunks};
ghost use Rattle.hash_tree.specs.Sizes.{rows_len};
ghost use Rattle.hash_tree.specs.Texts.{leaf_text};

use crate::chunk::Chunk;
use crate::chunks::{offer_to_key, spot_of, text_len};
use crate::comparison::is_chunked_text;
use crate::row_runs::RowRuns;
use crate::texts::{leaf_byte, put_chunks};
use row_bytes::Row;
use std::alloc::{AllocError, Global};
use std::marker::Model;
use std::sync::Arc;
use vclock::{Bytes, Format, Refusal};
use version_set::{Version, VersionSet};

/// The rows of one leaf, in ascending order of key, with any number of owners: a range, its snapshots and its jobs
/// share it until the range changes it. The rows are in chunks that copies of a leaf share: an insertion moves the rows
/// of one chunk only. A leaf without rows takes no memory. On error a leaf is unchanged.
///
/// ```
/// let mut text = Vec::new(alloc);
/// leaf.put_text(&mut text)?;
/// expect_text(alloc, leaf, text)
/// ```
#[derive(Debug)]
pub struct SharedLeaf {
    format: Format,
    chunks: Option<Arc<Vec<Chunk>, Global>>,
}

impl Model for SharedLeaf {
    ghost use Rattle.std.specs.Prelude.{[], unwrap_or, option_map};
    ghost use Rattle.std.specs.Arc.{arc_value};
    ghost use Rattle.std.specs.Vec.{vec_items};
    ghost use Rattle.hash_tree.specs.Leaves.{Bucket, IsBucket};
    ghost use Rattle.hash_tree.specs.Chunks.{all_rows, AreChunks};

    ghost Value = { Bucket };

    ghost view = { λ s. record { format = s.format; rows = all_rows (unwrap_or (option_map (λ c. vec_items (arc_value c)) s.chunks) []) } };

    ghost invariant = { λ s. IsBucket (record { format = s.format; rows = all_rows (unwrap_or (option_map (λ c. vec_items (arc_value c)) s.chunks) []) })
        × AreChunks s.format (unwrap_or (option_map (λ c. vec_items (arc_value c)) s.chunks) []) };
}

impl Clone for SharedLeaf {
    ghost use Rattle.std.specs.Prelude.{◌≡◌};

    ghost is_clone = { λ leaf copy. copy ≡ leaf };

    /// Adds an owner to the leaf, and returns its handle. Fails only if memory is needed. Copies no row.
    fn clone(&self) -> Result<SharedLeaf, AllocError> {
        Ok(SharedLeaf {
            format: self.format,
            chunks: self.chunks.clone()?,
        })
    }
}

impl SharedLeaf {
    /// Creates a leaf without rows. Doesn't allocate.
    pub fn empty(format: Format) -> SharedLeaf
        ensures { result ≡ record { format = format; rows = [] } }
    {
        SharedLeaf {
            format,
            chunks: None,
        }
    }

    /// Returns the format of the rows.
    pub fn format(&self) -> Format
        ensures { result ≡ self.now.format }
    {
        self.format
    }

    /// Returns the length in bytes of the text of the leaf. Reads no row, but each chunk.
    pub fn text_len(&self) -> u128
        ensures { result ≡ length (leaf_text self.now.format self.now.rows) }
    {
        text_len(self.chunks())
    }

    /// Returns the length in bytes of the texts of the rows, at most 2^64 - 1. Reads no row, but each chunk.
    #[tactic(auto, using(crate::proofs::SizeLaws::text_of_rows))]
    pub fn rows_len(&self) -> u64
        ensures { result ≡ min (rows_len self.now.format self.now.rows) (2 ^ 64 - 1) }
    {
        (self.text_len() - 1).min(u64::MAX as u128) as u64
    }

    /// Adds an owner to the leaf, and returns its handle. Refused: NoMemory. Copies no row.
    pub fn share(&self) -> Result<SharedLeaf, Refusal>
        ensures { Answers result None (λ shared. shared ≡ self.now) }
    {
        Ok(self.clone()?)
    }

    /// Appends the text of the leaf. Fails only if memory is needed beyond the capacity of `out`, which is then
    /// unchanged.
    pub fn put_text(&self, out: &mut Vec<u8>) -> Result<(), AllocError>
        ensures ok { OnOk result (out.new.items ≡ out.old.items ++ leaf_text self.now.format self.now.rows) }
        ensures room { OnErr result (vec_capacity out.old < length out.old.items + length (leaf_text self.now.format self.now.rows)) }
        ensures err { OnErr result (out.new.items ≡ out.old.items) }
    {
        reserve(out, self.text_len())?;
        out.push(leaf_byte(self.format))?;
        put_chunks(out, self.chunks())
    }

    /// Appends the texts of the rows, in order: the text of the leaf without its first byte. Refused: NoMemory, and
    /// then `out` is unchanged.
    pub fn put_rows(&self, out: &mut Vec<u8>) -> Result<(), Refusal>
        ensures { Does result out.old.items out.new.items
            (gives tt (out.old.items ++ flat_map (row_text self.now.format) self.now.rows)) }
    {
        reserve(out, self.text_len() - 1)?;
        Ok(put_chunks(out, self.chunks())?)
    }

    /// Returns true if `text` is the text of the leaf. Doesn't allocate.
    pub fn is_text(&self, text: &[u8]) -> bool
        ensures { IsTrue result ↔ (text.now ≡ leaf_text self.now.format self.now.rows) }
    {
        is_chunked_text(self.format, text, self.chunks())
    }

    /// Returns the versions that are held for a key, if it has a row, by a binary search. Doesn't allocate.
    pub fn find(&self, key: &[u8]) -> Option<&VersionSet>
        ensures found { unwrap_or (option_map (λ s. s.now) result) [] ≡ versions_in key.now self.now.rows }
        ensures valid { IsBucket self.now }
    {
        let chunks = self.chunks();
        match spot_of(chunks, key) {
            Ok(spot) => Some(&chunks[spot.chunk].row(spot.at).versions),
            Err(_gap) => None,
        }
    }

    /// Returns the row of a key, if it has one, and some rows that follow it. Searches by a binary search. Doesn't
    /// allocate. The number of rows matters only for speed: the rows end with the chunk of the key.
    pub fn find_run(&self, key: &[u8]) -> Option<&[Row]>
        ensures found { FindsRun self.now.rows key.now (option_map (λ x. x.now) result) }
        ensures fit { MatchOption result ⊤ (λ x. AllByRecursion (FitsText self.now.format) x.now) }
    {
        let chunks = self.chunks();
        let Ok(spot) = spot_of(chunks, key) else {
            return None;
        };
        let (_, rows) = chunks[spot.chunk].rows().split_at(spot.at);
        Some(rows)
    }

    /// Returns all rows, to be read a run at a time. Doesn't allocate.
    pub fn runs(&self) -> RowRuns<'_>
        ensures { result ≡ self.now.rows }
    {
        RowRuns::of(self.chunks())
    }

    /// Offers a version to the set of a key, which has space for it. If the key has no row, one is added. If the leaf
    /// has other owners, a copy of it is changed. Refused: NoMemory.
    pub fn offer(&mut self, alloc: Global, key: &Bytes, version: Version) -> Result<(), Refusal>
        requires key { key_fault key.now ≡ None }
        requires value { value_fault self.old.format version.kind version.value ≡ None }
        requires room { offer_fault version (versions_in key.now self.old.rows) ≡ None }
        ensures { Does result self.old self.new
            (gives tt (record self.old { rows = with_offer key.now version self.old.rows })) }
    {
        match &mut self.chunks {
            Some(chunks) => {
                let chunks = Arc::make_mut(chunks)?;
                offer_to_key(alloc, self.format, chunks, key, version)
            }
            None => {
                let mut chunks = Vec::new(alloc);
                offer_to_key(alloc, self.format, &mut chunks, key, version)?;
                self.chunks = Some(Arc::new(alloc, chunks)?);
                Ok(())
            }
        }
    }

    /// Returns the chunks.
    fn chunks(&self) -> &[Chunk]
        ensures rows { record { format = self.now.format; rows = all_rows result.now } ≡ self.now }
        ensures valid { IsBucket (record { format = self.now.format; rows = all_rows result.now }) }
        ensures chunks { AreChunks self.now.format result.now }
    {
        match &self.chunks {
            Some(chunks) => chunks.as_slice(),
            None => &[],
        }
    }
}

/// Reserves capacity for `len` more bytes. Fails only if memory is needed.
fn reserve(out: &mut Vec<u8>, len: u128) -> Result<(), AllocError>
    ensures items { out.new.items ≡ out.old.items }
    ensures capacity { vec_capacity out.old ≤ vec_capacity out.new }
    ensures room { OnOk result (length out.new.items + len ≤ vec_capacity out.new) }
    ensures err { OnErr result (vec_capacity out.old < length out.old.items + len) }
{
    match usize::try_from(len) {
        Ok(len) => out.reserve(len),
        Err(_) => Err(AllocError),
    }
}

impl Drop for SharedLeaf {
    /// Keeps the fields out of the proofs of callers that drop a leaf.
    fn drop(self) {
        let SharedLeaf {
            format: _format,
            chunks: _chunks,
        } = self;
    }
}
