//! Consecutive rows of a leaf with the length of their texts.
ghost use Rattle.std.specs.Prelude.{◌≡◌, ◌++◌, ◌+◌, ◌<◌, ◌≤◌, ◌^◌, [], None, length, take, drop, slice_index_or, OnOk, OnErr};
ghost use Rattle.std.specs.List.{AllByRecursion, flat_map, insert};
ghost use Rattle.std.specs.Vec.{vec_capacity};
ghost use Rattle.vclock.specs.Answer.{Answers};
ghost use Rattle.vclock.specs.Outcome.{Does, gives};
ghost use Rattle.version_set.specs.Kind.{value_fault};
ghost use Rattle.version_set.specs.Version.{offer_fault};
ghost use Rattle.row_bytes.specs.Rows.{row_text, FitsText};
ghost use Rattle.row_bytes.specs.Strips.{Strips};
ghost use Rattle.row_bytes.specs.declared.row.Row.{Row};
ghost use Rattle.hash_tree.specs.Chunks.{chunk_text, row_versions, offered_at};

use crate::texts::put_rows;
use row_bytes::{Row, row_len, strip_rows, version_len};
use std::alloc::{AllocError, Global};
use std::marker::Model;
use vclock::{Format, Refusal};
use version_set::Version;

/// The maximum number of rows of a chunk: a new row moves at most these.
pub(crate) const ROWS_MAX: usize = 15;

/// The number of spare rows for which a small chunk reserves capacity.
const SPARE_ROWS: usize = 3;

/// Some consecutive rows of a leaf, and the length of their texts in bytes, so that the text of a leaf is allocated
/// without a look at its rows. On error the rows are unchanged.
#[derive(Debug)]
pub(crate) struct MeasuredRows {
    format: Format,
    rows: Vec<Row>,
    text_len: u64,
}

impl Model for MeasuredRows {
    ghost use Rattle.std.specs.Prelude.{◌≡◌, length};
    ghost use Rattle.std.specs.List.{AllByRecursion, flat_map};
    ghost use Rattle.row_bytes.specs.Rows.{row_text, FitsText};
    ghost use Rattle.hash_tree.specs.Leaves.{Bucket};

    ghost Value = { Bucket };

    ghost view = { λ w. record { format = w.format; rows = w.rows.items } };

    ghost invariant = { λ w. AllByRecursion (FitsText w.format) w.rows.items
        × (w.text_len ≡ length (flat_map (row_text w.format) w.rows.items)) };
}

impl Clone for MeasuredRows {
    ghost use Rattle.std.specs.Prelude.{◌≡◌};

    ghost is_clone = { λ rows copy. copy ≡ rows };

    /// Returns equal rows. Fails only if memory is needed.
    fn clone(&self) -> Result<MeasuredRows, AllocError> {
        let Ok(rows) = clone_rows(*self.rows.allocator(), &self.rows) else {
            return Err(AllocError);
        };
        Ok(MeasuredRows {
            format: self.format,
            rows,
            text_len: self.text_len,
        })
    }
}

impl MeasuredRows {
    /// Creates an empty list of rows.
    pub(crate) fn none(alloc: Global, format: Format) -> MeasuredRows
        ensures { result ≡ record { format = format; rows = [] } }
    {
        MeasuredRows {
            format,
            rows: Vec::new(alloc),
            text_len: 0,
        }
    }

    /// Returns the format of the rows.
    pub(crate) fn format(&self) -> Format
        ensures { result ≡ self.now.format }
    {
        self.format
    }

    /// Returns the rows, in ascending order of key.
    pub(crate) fn rows(&self) -> &[Row]
        ensures { result.now ≡ self.now.rows }
    {
        self.rows.as_slice()
    }

    /// Returns the row at a place.
    pub(crate) fn row(&self, at: usize) -> &Row
        requires { at < length self.now.rows }
        ensures { (d : Row) → result.now ≡ slice_index_or self.now.rows at d }
    {
        &self.rows[at]
    }

    /// Returns the length in bytes of the texts of the rows. Reads no row.
    pub(crate) fn text_len(&self) -> u64
        ensures { result ≡ length (chunk_text self.now) }
    {
        self.text_len
    }

    /// Appends the texts of the rows, in order. Fails only if memory is needed beyond the capacity of `out`. On error
    /// some texts may have been appended.
    pub(crate) fn put_texts(&self, out: &mut Vec<u8>) -> Result<(), AllocError>
        ensures ok { OnOk result (out.new.items ≡ out.old.items ++ chunk_text self.now) }
        ensures room { OnErr result (vec_capacity out.old < length out.old.items + length (chunk_text self.now)) }
        ensures grows { vec_capacity out.old ≤ vec_capacity out.new }
    {
        put_rows(out, self.format, &self.rows)
    }

    /// Returns the bytes after the texts of the rows, or `None` if the text doesn't begin with all of them.
    pub(crate) fn strip_texts<'a>(&self, text: &'a [u8]) -> Option<&'a [u8]>
        ensures { Strips (λ x. x.now) (chunk_text self.now) text.now result }
    {
        let (count, rest) = strip_rows(text, self.format, &self.rows);
        if count < self.rows.len() {
            return None;
        }
        Some(rest)
    }

    /// Offers a version to the set of the row at a place, which has space for it. Refused: NoMemory.
    pub(crate) fn offer(&mut self, at: usize, version: Version) -> Result<(), Refusal>
        requires at { at < length self.old.rows }
        requires value { value_fault self.old.format version.kind version.value ≡ None }
        requires room { offer_fault version (row_versions self.old.rows at) ≡ None }
        ensures { Does result self.old self.new
            (gives tt (record self.old { rows = offered_at self.old.rows at version })) }
    {
        let more = version_len(self.format, &version);
        if self.text_len.checked_add(more).is_none() {
            return Err(Refusal::NoMemory);
        }
        let row = &mut self.rows[at];
        let others = self.text_len - row_len(self.format, row);
        row.versions.offer(version)?;
        self.text_len = others + row_len(self.format, row);
        Ok(())
    }

    /// Inserts a row at a place among the rows. Refused: NoMemory.
    pub(crate) fn insert(&mut self, at: usize, row: Row) -> Result<(), Refusal>
        requires at { at ≤ length self.old.rows }
        requires fits { FitsText self.old.format row }
        ensures { Does result self.old self.new (gives tt (record self.old { rows = insert self.old.rows at row })) }
    {
        let Some(text_len) = self.text_len.checked_add(row_len(self.format, &row)) else {
            return Err(Refusal::NoMemory);
        };
        let spare = self.spare_rows();
        make_room(&mut self.rows, 1, spare)?;
        self.rows.insert(at, row).unwrap();
        self.text_len = text_len;
        Ok(())
    }

    /// Returns the number of spare rows to reserve: the number of rows, but not fewer than `SPARE_ROWS`, and at most up
    /// to a full chunk.
    fn spare_rows(&self) -> usize {
        let len = self.rows.len();
        len.max(SPARE_ROWS)
            .min(ROWS_MAX.saturating_sub(len.saturating_add(1)))
    }

    /// Splits off the rows from a place on. Refused: NoMemory.
    pub(crate) fn split(&mut self, at: usize) -> Result<MeasuredRows, Refusal>
        requires within { at < length self.old.rows }
        ensures { Does result self.old self.new
            (gives (record self.old { rows = drop at self.old.rows }) (record self.old { rows = take at self.old.rows })) }
    {
        let rows = self.rows.split_off(at)?;
        let text_len = texts_len(self.format, &rows);
        self.text_len -= text_len;
        Ok(MeasuredRows {
            format: self.format,
            rows,
            text_len,
        })
    }
}

/// Returns equal rows. Refused: NoMemory.
fn clone_rows(alloc: Global, rows: &[Row]) -> Result<Vec<Row>, Refusal>
    ensures { Answers result None (λ copy. copy.items ≡ rows.now) }
{
    let mut copy = Vec::with_capacity(alloc, rows.len())?;
    for row in rows {
        copy.push(Row {
            key: row.key.try_clone()?,
            versions: row.versions.try_clone(alloc)?,
        })?;
    }
    Ok(copy)
}

/// Returns the length in bytes of the texts of rows.
fn texts_len(format: Format, rows: &[Row]) -> u64
    requires fit { AllByRecursion (FitsText format) rows.now }
    requires short { length (flat_map (row_text format) rows.now) < 2 ^ 64 }
    ensures { result ≡ length (flat_map (row_text format) rows.now) }
{
    let mut len = 0;
    for row in rows {
        len += row_len(format, row);
    }
    len
}

/// Reserves capacity for `more` items. If that needs memory, reserves capacity for `spare` ones in addition. The items
/// are unchanged. Fails only if memory is needed.
fn make_room<T>(items: &mut Vec<T>, more: usize, spare: usize) -> Result<(), AllocError>
    ensures items { items.new.items ≡ items.old.items }
    ensures room { OnOk result (length items.new.items + more ≤ vec_capacity items.new) }
{
    if more <= items.capacity() - items.len() {
        return Ok(());
    }
    items.reserve_exact(more.saturating_add(spare))
}

impl Drop for MeasuredRows {
    /// Keeps the fields out of the proofs of callers that drop rows.
    fn drop(self) {
        let MeasuredRows {
            format: _format,
            rows: _rows,
            text_len: _text_len,
        } = self;
    }
}
