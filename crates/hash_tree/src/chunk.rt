//! Consecutive rows of a leaf that several leaves may share.
ghost use Rattle.std.specs.Prelude.{◌≡◌, ◌<◌, ◌≤◌, [], ◌∷◌, None, length, take, drop};
ghost use Rattle.std.specs.List.{insert};
ghost use Rattle.vclock.specs.Answer.{Answers};
ghost use Rattle.vclock.specs.Outcome.{Does, gives};
ghost use Rattle.version_set.specs.Kind.{value_fault};
ghost use Rattle.version_set.specs.Version.{offer_fault};
ghost use Rattle.row_bytes.specs.Rows.{FitsText};
ghost use Rattle.hash_tree.specs.Chunks.{begin_by, row_versions, offered_at};

use crate::measured_rows::MeasuredRows;
use row_bytes::Row;
use smallvec::SmallVec;
use std::alloc::{AllocError, Global};
use std::marker::Model;
use std::ops::Deref;
use std::sync::Arc;
use vclock::{Format, Refusal};
use version_set::Version;

/// The maximum length in bytes of a first key that is stored in the handle itself: the text of a UUID fits.
const FIRST_LEN: usize = 40;

/// A handle of some consecutive rows of a leaf, at least one. Copies of the leaf share them until one is changed. The
/// handle has a copy of the first key, so that a search among chunks reads neither a row nor the block of a key. On
/// error a chunk is unchanged.
#[derive(Debug)]
pub(crate) struct Chunk {
    first: SmallVec<u8, FIRST_LEN>,
    held: Arc<MeasuredRows, Global>,
}

impl Model for Chunk {
    ghost use Rattle.std.specs.Prelude.{◌≡◌, ◌≤◌, length};
    ghost use Rattle.std.specs.Arc.{arc_value};
    ghost use Rattle.hash_tree.specs.Leaves.{Bucket};
    ghost use Rattle.hash_tree.specs.Chunks.{first_key};

    ghost Value = { Bucket };

    ghost view = { λ c. arc_value c.held };

    ghost invariant = { λ c. (1 ≤ length (arc_value c.held).rows) × (c.first.items ≡ first_key (arc_value c.held).rows) };
}

impl Deref for Chunk {
    type Target = MeasuredRows;

    ghost use Rattle.std.specs.Prelude.{◌≡◌};

    ghost deref_gives = { λ chunk rows. rows ≡ chunk };

    /// Returns the rows with the length of their texts.
    fn deref(&self) -> &MeasuredRows
        ensures { result.now ≡ self.now }
    {
        &self.held
    }
}

impl Clone for Chunk {
    ghost use Rattle.std.specs.Prelude.{◌≡◌};

    ghost is_clone = { λ chunk copy. copy ≡ chunk };

    /// Adds an owner to the rows, and returns its handle. Fails only if memory is needed. Copies no row.
    fn clone(&self) -> Result<Chunk, AllocError> {
        Ok(Chunk {
            first: SmallVec::from_slice(*self.first.allocator(), self.first.as_slice())?,
            held: Arc::try_clone(&self.held)?,
        })
    }
}

impl Chunk {
    /// Creates a chunk with one row. Refused: NoMemory.
    pub(crate) fn of_row(alloc: Global, format: Format, row: Row) -> Result<Chunk, Refusal>
        requires { FitsText format row }
        ensures { Answers result None (λ chunk. chunk ≡ record { format = format; rows = row ∷ [] }) }
    {
        let first = SmallVec::from_slice(alloc, row.key.as_slice())?;
        let mut held = MeasuredRows::none(alloc, format);
        held.insert(0, row)?;
        Ok(Chunk {
            first,
            held: Arc::new(alloc, held)?,
        })
    }

    /// Returns true if the first key is at most `key`. Reads no row.
    pub(crate) fn begins_by(&self, key: &[u8]) -> bool
        ensures { result ≡ begin_by key.now self.now.rows }
    {
        self.first.as_slice().cmp(key).is_le()
    }

    /// Offers a version to the set of the row at a place, which has space for it. If the rows have other owners, a copy
    /// of them is changed. Refused: NoMemory.
    pub(crate) fn offer(&mut self, at: usize, version: Version) -> Result<(), Refusal>
        requires at { at < length self.old.rows }
        requires value { value_fault self.old.format version.kind version.value ≡ None }
        requires room { offer_fault version (row_versions self.old.rows at) ≡ None }
        ensures { Does result self.old self.new
            (gives tt (record self.old { rows = offered_at self.old.rows at version })) }
    {
        Arc::make_mut(&mut self.held)?.offer(at, version)
    }

    /// Inserts a row at a place among the rows. If the rows have other owners, a copy of them is changed. Refused:
    /// NoMemory.
    pub(crate) fn insert(&mut self, at: usize, row: Row) -> Result<(), Refusal>
        requires at { at ≤ length self.old.rows }
        requires fits { FitsText self.old.format row }
        ensures { Does result self.old self.new (gives tt (record self.old { rows = insert self.old.rows at row })) }
    {
        let first = if at == 0 {
            Some(SmallVec::from_slice(*self.first.allocator(), row.key.as_slice())?)
        } else {
            None
        };
        Arc::make_mut(&mut self.held)?.insert(at, row)?;
        if let Some(first) = first {
            self.first = first;
        }
        Ok(())
    }

    /// Splits off the rows from a place on. Refused: NoMemory.
    pub(crate) fn split(&mut self, alloc: Global, at: usize) -> Result<Chunk, Refusal>
        requires some { 1 ≤ at }
        requires within { at < length self.old.rows }
        ensures { Does result self.old self.new
            (gives (record self.old { rows = drop at self.old.rows }) (record self.old { rows = take at self.old.rows })) }
    {
        let first = SmallVec::from_slice(alloc, self.held.rows()[at].key.as_slice())?;
        let mut held = Arc::new(alloc, MeasuredRows::none(alloc, self.held.format()))?;
        let back = Arc::make_mut(&mut held)?;
        *back = Arc::make_mut(&mut self.held)?.split(at)?;
        Ok(Chunk { first, held })
    }
}

impl Drop for Chunk {
    /// Keeps the fields out of the proofs of callers that drop a chunk.
    fn drop(self) {
        let Chunk {
            first: _first,
            held: _held,
        } = self;
    }
}
