//! Tables of rows.
ghost use Rattle.std.specs.Prelude.{◌≡◌, ◌+◌, ◌<◌, ◌≤◌, [], length, None, IfSome};
ghost use Rattle.std.specs.Option.{option_copied};
ghost use Rattle.vclock.specs.Outcome.{Does, gives};
ghost use Rattle.row_table.specs.Tables.{at_place, place_of, set_at, set_in, with_room, with_room_at, with_row, with_put, with_all};

use crate::index::Index;
use crate::seed::Seed;
use std::alloc::Global;
use std::marker::Model;
use vclock::{Bytes, Refusal};
use version_set::{Held, VersionSet};

/// The maximum number of rows: their places fit 32 bits.
const ROWS_MAX: u64 = 4_294_967_295;

/// The number of buckets of a larger index that an insertion makes, until all are there.
const BUCKETS_A_STEP: usize = 32;

/// The number of rows that an insertion adds to a larger index after that, until it has all.
const ROWS_A_STEP: usize = 4;

/// A key, its leaf, and the versions that are held for it.
#[derive(Debug, Drop)]
pub struct TableRow {
    /// The key.
    pub key: Bytes,
    /// The leaf of the key in format 2.
    pub leaf: u16,
    /// The versions.
    pub set: VersionSet,
}

/// Rows in order of insertion. The last row of a key is found by a hash of the key: by one probe, and one comparison if
/// no later row is in the same bucket. A larger index is made in steps, some at each insertion, so no insertion takes
/// long.
///
/// ```
/// let place = table.find(row.key.as_slice());
/// table.make_room_at(place)?;
/// table.put_at(place, row);
/// ```
pub struct RowTable {
    alloc: Global,
    seed: Seed,
    rows: Vec<TableRow>,
    /// The index of all rows.
    index: Index,
    /// A larger index of the first rows, while one is made.
    larger: Option<Index>,
    room: u64,
}

impl Model for RowTable {
    ghost use Rattle.std.specs.Prelude.{◌≡◌, ◌<◌, ◌≤◌, ◌+◌, length, IfSome};
    ghost use Rattle.std.specs.Vec.{vec_capacity};
    ghost use Rattle.row_table.specs.Tables.{Table, IsIndex};

    ghost Value = { Table };

    ghost view = { λ t. record { seed = t.seed; rows = t.rows.items; room = t.room } };

    ghost invariant = { λ t. IsIndex t.seed t.rows.items t.index.size t.index.last.items t.index.earlier.items
        × (length t.index.earlier.items ≡ length t.rows.items)
        × (0 < t.room → length t.index.last.items ≡ t.index.size)
        × IfSome t.larger (λ x. IsIndex t.seed t.rows.items x.size x.last.items x.earlier.items
        × (x.size ≤ vec_capacity x.last) × (length t.rows.items + t.room ≤ vec_capacity x.earlier))
        × (length t.rows.items + t.room ≤ 4294967295)
        × (length t.rows.items + t.room ≤ vec_capacity t.rows)
        × (length t.rows.items + t.room ≤ vec_capacity t.index.earlier) };
}

impl RowTable {
    /// Makes a table without rows. Doesn't allocate.
    pub fn new(alloc: Global, seed: Seed) -> RowTable
        ensures { result ≡ record { seed = seed; rows = []; room = 0 } }
    {
        RowTable {
            alloc,
            seed,
            rows: Vec::new(alloc),
            index: Index::new(alloc),
            larger: None,
            room: 0,
        }
    }

    /// Returns the seed of the hash.
    pub fn seed(&self) -> Seed
        ensures { result ≡ self.now.seed }
    {
        self.seed
    }

    /// Returns the rows in order of insertion. Doesn't allocate.
    pub fn rows(&self) -> &[TableRow]
        ensures { result.now ≡ self.now.rows }
    {
        &self.rows
    }

    /// Returns the place of the last row of a key, or `None` if the key has no row. Doesn't allocate.
    pub fn find(&self, key: &[u8]) -> Option<usize>
        ensures place { result ≡ place_of self.now.rows key.now }
        ensures within { IfSome result (λ place. place < length self.now.rows) }
    {
        self.index.find(self.seed, &self.rows, key)
    }

    /// Returns the last row of a key, or `None` if the key has no row. Doesn't allocate.
    pub fn row(&self, key: &[u8]) -> Option<&TableRow>
        ensures { option_copied result ≡ at_place self.now.rows (place_of self.now.rows key.now) }
    {
        match self.find(key) {
            Some(place) => Some(&self.rows[place]),
            None => None,
        }
    }

    /// Returns the versions of the row at a place, or none for `None`. Doesn't allocate.
    pub fn held_at(&self, place: Option<usize>) -> Held<'_>
        requires { IfSome place (λ p. p < length self.now.rows) }
        ensures { result ≡ set_at self.now.rows place }
    {
        match place {
            Some(place) => Held::new(Some(&self.rows[place].set)),
            None => Held::new(None),
        }
    }

    /// Returns the versions of a key's last row: none if the key has no row. Doesn't allocate.
    pub fn held(&self, key: &[u8]) -> Held<'_>
        ensures { result ≡ set_in self.now.rows key.now }
    {
        self.held_at(self.find(key))
    }

    /// Reserves capacity for `rows` more rows. Refused: NoMemory, also if the table would have over 4,294,967,295 rows.
    pub fn reserve(&mut self, rows: u64) -> Result<(), Refusal>
        ensures { Does result self.old self.new (gives tt (with_room self.old rows)) }
    {
        if rows > self.room {
            if rows > ROWS_MAX - self.rows.len() as u64 {
                return Err(Refusal::NoMemory);
            }
            self.make_room(rows as usize)?;
        }
        Ok(())
    }

    /// Sets the capacity to `rows` more rows, no fewer than before. If the index has fewer than two buckets a row,
    /// begins a larger one, or makes it at once if the rows may double. Refused: NoMemory.
    fn make_room(&mut self, rows: usize) -> Result<(), Refusal>
        requires more { (self.old.room ≤ rows) × (0 < rows) }
        requires few { length self.old.rows + rows ≤ 4294967295 }
        ensures { Does result self.old self.new (gives tt (record self.old { room = rows })) }
    {
        let all = self.rows.len() + rows;
        self.rows.reserve(rows)?;
        if rows > self.rows.len() {
            self.index = Index::of(self.alloc, self.seed, &self.rows, all)?;
            self.larger = None;
        } else {
            self.index.reserve(all)?;
            if let Some(larger) = &mut self.larger {
                larger.reserve(all)?;
            } else if self.index.size() < 2 * all {
                self.larger = Some(Index::with_room(self.alloc, all)?);
            }
        }
        self.room = rows as u64;
        Ok(())
    }

    /// Reserves capacity for a row that is put at a place, which `find` returned. Refused: NoMemory.
    pub fn make_room_at(&mut self, place: Option<usize>) -> Result<(), Refusal>
        ensures { Does result self.old self.new (gives tt (with_room_at self.old place)) }
    {
        if place.is_none() {
            self.reserve(1)?;
        }
        Ok(())
    }

    /// Inserts a row within the reserved capacity. Doesn't allocate.
    pub fn insert(&mut self, row: TableRow)
        requires { 1 ≤ self.old.room }
        ensures { self.new ≡ with_row self.old row }
    {
        self.rows.push_reserved(row);
        self.room -= 1;
        self.index.add_some(self.seed, &self.rows, 1);
        self.grow();
    }

    /// Makes some buckets of the larger index, or adds some rows to it. When it has all rows, it is the index.
    fn grow(&mut self)
        ensures { self.new ≡ self.old }
    {
        let Some(mut larger) = self.larger.take() else {
            return;
        };
        if larger.is_whole() {
            larger.add_some(self.seed, &self.rows, ROWS_A_STEP);
            if larger.len() == self.rows.len() {
                self.index = larger;
                return;
            }
        } else {
            larger.widen(BUCKETS_A_STEP);
        }
        self.larger = Some(larger);
    }

    /// Puts a row in the place of the last row of its key, which `find` returned. If the key has no row, inserts it
    /// within the reserved capacity. Doesn't allocate.
    pub fn put_at(&mut self, place: Option<usize>, row: TableRow)
        requires place { place ≡ place_of self.old.rows row.key }
        requires room { place ≡ None → 1 ≤ self.old.room }
        ensures { self.new ≡ with_put self.old row }
    {
        match place {
            Some(place) => self.rows[place] = row,
            None => self.insert(row),
        }
    }

    /// Puts rows, the last first: each in the place of the last row of its key, or within the reserved capacity if the
    /// key has no row. Doesn't allocate.
    pub fn put_all(&mut self, mut rows: Vec<TableRow>)
        requires { length rows.items ≤ self.old.room }
        ensures { self.new ≡ with_all self.old rows.items }
    {
        while let Some(row) = rows.pop() {
            let place = self.find(row.key.as_slice());
            self.put_at(place, row);
        }
    }
}

impl Drop for RowTable {
    /// Keeps the fields out of the proofs of callers that drop a table.
    fn drop(self) {
        let RowTable {
            alloc: _alloc,
            seed: _seed,
            rows: _rows,
            index: _index,
            larger: _larger,
            room: _room,
        } = self;
    }
}
