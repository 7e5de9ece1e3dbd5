//! An index of rows by bucket of their keys' hashes, which grows in steps.
ghost use Rattle.std.specs.Prelude.{◌≡◌, ◌+◌, ◌-◌, ◌<◌, ◌≤◌, ◌==◌, [], ◌∷◌, ◌++◌, length, min, replicate, slice_set, slice_index_or, IfOk, OnOk, IfSome};
ghost use Rattle.std.specs.Vec.{vec_capacity};
ghost use Rattle.row_table.specs.Tables.{bucket_of, place_of, IsIndex};

use crate::seed::Seed;
use crate::table::TableRow;
use std::alloc::{AllocError, Global};

/// The number of buckets for each row, when an index begins.
const BUCKETS_A_ROW: usize = 4;

/// For each bucket the last row in it, and for each row the one before it in its bucket. An index is made bucket by
/// bucket and then row by row, so it may have some of its buckets and no row, or all buckets and the first rows.
#[derive(Debug, Drop)]
pub(crate) struct Index {
    /// The number of buckets.
    size: usize,
    /// By bucket: the place, plus one, of the last row in it, or 0.
    last: Vec<u32>,
    /// By place of a row: the place, plus one, of the row before it in its bucket, or 0.
    earlier: Vec<u32>,
}

impl Index {
    /// Makes an index for one bucket, which isn't made yet. Doesn't allocate.
    pub(crate) fn new(alloc: Global) -> Index
        ensures size { result.size ≡ 1 }
        ensures last { result.last.items ≡ [] }
        ensures earlier { result.earlier.items ≡ [] }
    {
        Index {
            size: 1,
            last: Vec::new(alloc),
            earlier: Vec::new(alloc),
        }
    }

    /// Makes an index without buckets and rows, with capacity for `rows` rows and their buckets.
    pub(crate) fn with_room(alloc: Global, rows: usize) -> Result<Index, AllocError>
        requires few { (0 < rows) × (rows ≤ 4294967295) }
        ensures size { IfOk result (λ index. 0 < index.size) }
        ensures last { IfOk result (λ index. (index.last.items ≡ []) × (index.size ≤ vec_capacity index.last)) }
        ensures earlier { IfOk result (λ index. (index.earlier.items ≡ []) × (rows ≤ vec_capacity index.earlier)) }
    {
        let size = BUCKETS_A_ROW * rows;
        Ok(Index {
            size,
            last: Vec::with_capacity(alloc, size)?,
            earlier: Vec::with_capacity(alloc, rows)?,
        })
    }

    /// Makes an index of rows, with capacity for `room` rows in all.
    pub(crate) fn of(
        alloc: Global,
        seed: Seed,
        rows: &[TableRow],
        room: usize,
    ) -> Result<Index, AllocError>
        requires few { (0 < room) × (length rows.now ≤ room) × (room ≤ 4294967295) }
        ensures index { IfOk result (λ index. IsIndex seed rows.now index.size index.last.items index.earlier.items) }
        ensures all { IfOk result (λ index. length index.earlier.items ≡ length rows.now) }
        ensures whole { IfOk result (λ index. length index.last.items ≡ index.size) }
        ensures room { IfOk result (λ index. room ≤ vec_capacity index.earlier) }
    {
        let mut index = Index::with_room(alloc, room)?;
        let buckets = index.size;
        index.widen(buckets);
        index.add_some(seed, rows, rows.len());
        Ok(index)
    }

    /// Returns the number of buckets.
    pub(crate) fn size(&self) -> usize
        ensures { result ≡ self.now.size }
    {
        self.size
    }

    /// Returns the number of rows.
    pub(crate) fn len(&self) -> usize
        ensures { result ≡ length self.now.earlier.items }
    {
        self.earlier.len()
    }

    /// Returns true if all buckets are made.
    pub(crate) fn is_whole(&self) -> bool
        ensures { result ≡ (length self.now.last.items == self.now.size) }
    {
        self.last.len() == self.size
    }

    /// Returns the place of the last row of a key among these rows. The index has all of them. Doesn't allocate.
    pub(crate) fn find(&self, seed: Seed, rows: &[TableRow], key: &[u8]) -> Option<usize>
        requires index { IsIndex seed rows.now self.now.size self.now.last.items self.now.earlier.items }
        requires all { length self.now.earlier.items ≡ length rows.now }
        ensures place { result ≡ place_of rows.now key.now }
        ensures within { IfSome result (λ place. place < length rows.now) }
    {
        let mut next = self.last.get(self.bucket(seed, key)).copied().unwrap_or(0);
        while next > 0 {
            let place = (next - 1) as usize;
            if rows[place].key.as_slice() == key {
                return Some(place);
            }
            next = self.earlier[place];
        }
        None
    }

    /// Returns the bucket of a key.
    fn bucket(&self, seed: Seed, key: &[u8]) -> usize
        requires { 0 < self.now.size }
        ensures { result ≡ bucket_of seed self.now.size key.now }
    {
        // (of 32 bits, since a division of 64 takes longer)
        (seed.hash(key) % 4_294_967_296 % self.size as u64) as usize
    }

    /// Reserves capacity for `rows` rows in all.
    pub(crate) fn reserve(&mut self, rows: usize) -> Result<(), AllocError>
        requires few { (length self.old.earlier.items ≤ rows) × (rows ≤ 4294967295) }
        ensures room { OnOk result (rows ≤ vec_capacity self.new.earlier) }
        ensures more { vec_capacity self.old.earlier ≤ vec_capacity self.new.earlier }
        ensures kept { (self.new.size ≡ self.old.size) × (self.new.last ≡ self.old.last) × (self.new.earlier.items ≡ self.old.earlier.items) }
    {
        self.earlier.reserve(rows - self.earlier.len())
    }

    /// Adds up to this many buckets within the reserved capacity. The index has no rows. Doesn't allocate.
    pub(crate) fn widen(&mut self, buckets: usize)
        requires room { (length self.old.last.items ≤ self.old.size) × (self.old.size ≤ vec_capacity self.old.last) }
        ensures last { self.new.last.items ≡ self.old.last.items ++ replicate (min buckets (self.old.size - length self.old.last.items)) 0 }
        ensures room { vec_capacity self.old.last ≤ vec_capacity self.new.last }
        ensures kept { (self.new.size ≡ self.old.size) × (self.new.earlier ≡ self.old.earlier) }
    {
        let end = self.last.len() + buckets.min(self.size - self.last.len());
        let made: Result<_, _> = self.last.resize(end, 0);
        made.unwrap();
    }

    /// Adds up to this many of the missing rows within the reserved capacity. Doesn't allocate.
    pub(crate) fn add_some(&mut self, seed: Seed, rows: &[TableRow], most: usize)
        requires index { IsIndex seed rows.now self.old.size self.old.last.items self.old.earlier.items }
        requires whole { length self.old.last.items ≡ self.old.size }
        requires room { (length rows.now ≤ vec_capacity self.old.earlier) × (length rows.now ≤ 4294967295) }
        ensures index { IsIndex seed rows.now self.new.size self.new.last.items self.new.earlier.items }
        ensures more { length self.new.earlier.items ≡ length self.old.earlier.items + min most (length rows.now - length self.old.earlier.items) }
        ensures room { vec_capacity self.new.earlier ≡ vec_capacity self.old.earlier }
        ensures whole { (self.new.size ≡ self.old.size) × (length self.new.last.items ≡ self.new.size) }
    {
        let end = self.earlier.len() + most.min(rows.len() - self.earlier.len());
        for place in self.earlier.len()..end {
            self.add(seed, &rows[place]);
        }
    }

    /// Adds the first missing row within the reserved capacity.
    fn add(&mut self, seed: Seed, row: &TableRow)
        requires some { (0 < self.old.size) × (length self.old.last.items ≡ self.old.size) }
        requires room { (length self.old.earlier.items < vec_capacity self.old.earlier) × (length self.old.earlier.items < 4294967295) }
        ensures last { self.new.last.items ≡ slice_set self.old.last.items (bucket_of seed self.old.size row.now.key) (length self.old.earlier.items + 1) }
        ensures earlier { self.new.earlier.items ≡ self.old.earlier.items ++ slice_index_or self.old.last.items (bucket_of seed self.old.size row.now.key) 0 ∷ [] }
        ensures kept { (self.new.size ≡ self.old.size) × (vec_capacity self.new.earlier ≡ vec_capacity self.old.earlier) }
    {
        let bucket = self.bucket(seed, row.key.as_slice());
        let place = self.earlier.len() as u32;
        self.earlier.push_reserved(self.last[bucket]);
        self.last[bucket] = place + 1;
    }
}
