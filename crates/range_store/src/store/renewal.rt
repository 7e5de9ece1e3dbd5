//! A new range that begins with the versions that a range holds.
ghost use Rattle.std.specs.Prelude.{◌≡◌, ◌+◌, ◌++◌, ◌<◌, ◌≤◌, ◌^◌, ℕ, ⊤, [], ◌∷◌, length, map, take, None};
ghost use Rattle.std.specs.List.{AllByRecursion};
ghost use Rattle.vclock.specs.Answer.{Answers, AnswersAtOnce};
ghost use Rattle.range_store.specs.Offers.{offers_in, offers_of};
ghost use Rattle.range_store.specs.Renewals.{IsBasis, IsOfConfig, config_to, by_leaf, offers_by_leaf, renewed_by, renew_fault, limit_fault, begun_by, basis_fault, with_copies};
ghost use Rattle.range_store.specs.Store.{leaf_in, rows_now};
ghost use Rattle.range_store.specs.TableRows.{row_of};
ghost use Rattle.row_bytes.specs.declared.row.Row.{Row};

use crate::config::RangeConfig;
use crate::store::RangeStore;
use crate::store::table_rows::insert_rows;
use hash_tree::SharedLeaf;
use key_ring::leaf_count;
use range_journal::{Journal, Source};
use range_tree::Tree;
use row_bytes::Row;
use row_table::{RowTable, Seed};
use std::alloc::Global;
use std::marker::Model;
use vclock::Refusal;
use version_set::Version;

/// The least number of entries for which a new range has room beyond those with which it begins, if its limit allows it.
const SPARE_LEAST: u64 = 1_024;

impl RangeStore {
    /// Makes a new range that begins with the versions that this one holds: each is an entry, as a copy by the seat,
    /// leaf by leaf, row by row and version by version, numbered from 0. The new range has this one's configuration
    /// with another limit, its rows and its digests. It shares the leaves, and the table's rows share keys and values.
    /// This range is unchanged.
    ///
    /// Refused, in order: BadRing (the limit isn't 1 to 1,000,000), JournalFull (more versions are held than the
    /// limit), NoMemory.
    pub fn renewed(&self, alloc: Global, seat: u16, limit: u64) -> Result<RangeStore, Refusal>
        ensures { Answers result (renew_fault self.now limit) (λ range. range ≡ renewed_by self.now seat limit) }
    {
        // Called for its clause alone: the journal is within its limit.
        let _within = self.journal.len();
        RangeStore::begun(
            alloc,
            &self.config,
            self.table.seed(),
            &self.tree,
            seat,
            limit,
        )
    }

    /// Tests the limit of a renewal. Doesn't allocate.
    ///
    /// Refused, in order, as [`RangeStore::renewed`] is: BadRing, JournalFull.
    pub fn check_limit(&self, limit: u64) -> Result<(), Refusal>
        ensures { AnswersAtOnce result (renew_fault self.now limit) (λ _. ⊤) }
    {
        // Called for its clause alone: the journal is within its limit.
        let _within = self.journal.len();
        limited(&self.config, &self.tree, limit)?;
        Ok(())
    }

    /// Makes a new range that begins with the rows of a tree, as copies by a seat. Refused, in order: BadRing,
    /// JournalFull, NoMemory.
    fn begun(
        alloc: Global,
        config: &RangeConfig,
        seed: Seed,
        tree: &Tree,
        seat: u16,
        limit: u64,
    ) -> Result<RangeStore, Refusal>
        requires basis { IsBasis (record { config = config.now; rows = tree.now.map.rows; marks = tree.now.marks }) }
        requires of { tree.now.map ≡ record { format = config.now.format; bits = config.now.bits; range = config.now.range; rows = tree.now.map.rows } }
        ensures { Answers result (limit_fault config.now tree.now.map.rows limit)
            (λ range. range ≡ begun_by (record { config = config.now; rows = tree.now.map.rows; marks = tree.now.marks }) seat limit) }
    {
        let (new, count) = limited(config, tree, limit)?;
        let room = count + spare_room(count, limit);
        let mut journal = Journal::new(alloc, limit);
        journal.reserve(room)?;
        let mut table = RowTable::new(alloc, seed);
        table.reserve(room)?;
        fill(alloc, &mut journal, &mut table, config, tree, seat)?;
        Ok(RangeStore {
            config: new,
            journal,
            tree: tree.share(alloc)?,
            table,
        })
    }

    /// Returns the basis of a new range: the rows of a tree, which some first entries of this one made. Doesn't allocate.
    pub fn basis(&self, tree: Tree) -> RenewalBasis
        requires { (front : ℕ) × (tree.map ≡ rows_now (record self.now { entries = take front self.now.entries })) }
        ensures { result ≡ record { config = self.now.config; rows = tree.map.rows; marks = tree.marks } }
    {
        // Called for their clauses alone: the journal is within its limit, and the tree is right.
        let _within = self.journal.len();
        let _right = tree.dirty_count();
        RenewalBasis {
            config: self.config,
            seed: self.table.seed(),
            tree,
        }
    }
}

/// The rows from which a new range begins, as they were at a time, and the digests of their tree. The new range is made
/// without the old one: in another thread, say.
pub struct RenewalBasis {
    config: RangeConfig,
    seed: Seed,
    tree: Tree,
}

impl Model for RenewalBasis {
    ghost use Rattle.std.specs.Prelude.{◌≡◌};
    ghost use Rattle.range_store.specs.Renewals.{Basis, IsBasis};

    ghost Value = { Basis };

    ghost view = { λ b. record { config = b.config; rows = b.tree.map.rows; marks = b.tree.marks } };

    ghost invariant = { λ b. IsBasis (record { config = b.config; rows = b.tree.map.rows; marks = b.tree.marks })
        × (b.tree.map ≡ record { format = b.config.format; bits = b.config.bits; range = b.config.range; rows = b.tree.map.rows }) };
}

impl RenewalBasis {
    /// Makes a new range that begins with these rows: each version is an entry, as a copy by the seat, leaf by leaf, row
    /// by row and version by version, numbered from 0. The new range has the configuration with another limit, the rows
    /// and the digests. It shares the leaves, and the table's rows share keys and values.
    ///
    /// Refused, in order: BadRing (the limit isn't 1 to 1,000,000), JournalFull (the rows have more versions than the
    /// limit), NoMemory.
    pub fn renewed(&self, alloc: Global, seat: u16, limit: u64) -> Result<RangeStore, Refusal>
        ensures { Answers result (basis_fault self.now limit) (λ range. range ≡ begun_by self.now seat limit) }
    {
        RangeStore::begun(alloc, &self.config, self.seed, &self.tree, seat, limit)
    }
}

impl Drop for RenewalBasis {
    /// Keeps the fields out of the proofs of callers that drop a basis.
    fn drop(self) {
        let RenewalBasis {
            config: _config,
            seed: _seed,
            tree: _tree,
        } = self;
    }
}

/// Returns a configuration with another limit, and the number of versions of rows. Refused, in order: BadRing,
/// JournalFull.
fn limited(config: &RangeConfig, tree: &Tree, limit: u64) -> Result<(RangeConfig, u64), Refusal>
    requires of { IsOfConfig config.now tree.now.map }
    requires few { length (offers_by_leaf config.now tree.now.map.rows) ≤ 1000000 }
    ensures { AnswersAtOnce result (limit_fault config.now tree.now.map.rows limit) (λ new.
        (new.0 ≡ config_to config.now limit) × (new.1 ≡ length (offers_by_leaf config.now tree.now.map.rows))
        × (new.1 ≤ limit)) }
{
    let Some(new) = config.with_limit(limit) else {
        return Err(Refusal::BadRing);
    };
    let count = count_versions(config, tree);
    if count > limit {
        return Err(Refusal::JournalFull);
    }
    Ok((new, count))
}

/// Counts the versions of rows.
fn count_versions(config: &RangeConfig, tree: &Tree) -> u64
    requires of { IsOfConfig config.now tree.now.map }
    requires few { length (offers_by_leaf config.now tree.now.map.rows) ≤ 1000000 }
    ensures { result ≡ length (offers_by_leaf config.now tree.now.map.rows) }
{
    let mut count = 0;
    for leaf in 0..leaf_count(config.format()) {
        count += version_count(tree.rows(leaf));
    }
    count
}

/// Returns for how many entries a new range of `count` versions has room at once beyond them: those that it catches up
/// with then move none of the others.
fn spare_room(count: u64, limit: u64) -> u64
    requires { count ≤ limit }
    ensures { count + result ≤ limit }
{
    (limit - count).min(count / 4 + SPARE_LEAST)
}

/// Appends the versions of rows to a journal, as copies by a seat, for which room was made, and inserts the rows into a
/// table. Refused: NoMemory, and then some may be there.
fn fill(
    alloc: Global,
    journal: &mut Journal,
    table: &mut RowTable,
    config: &RangeConfig,
    tree: &Tree,
    seat: u16,
) -> Result<(), Refusal>
    requires of { IsOfConfig config.now tree.now.map }
    requires room { length (offers_by_leaf config.now tree.now.map.rows) ≤ journal.old.room }
    ensures { Answers result None
        (λ _. (journal.new ≡ with_copies journal.old seat (offers_by_leaf config.now tree.now.map.rows))
        × (table.new.rows ≡ table.old.rows ++ map (row_of config.now.bits) (by_leaf config.now tree.now.map.rows))) }
{
    for leaf in 0..leaf_count(config.format()) {
        fill_leaf(alloc, journal, table, config, leaf, tree.rows(leaf), seat)?;
    }
    Ok(())
}

/// Appends the versions of a leaf to a journal, as copies by a seat, for which room was made, and inserts its rows into
/// a table: some rows at a time, while their keys and values are in the cache. Refused: NoMemory, and then some may be
/// there.
fn fill_leaf(
    alloc: Global,
    journal: &mut Journal,
    table: &mut RowTable,
    config: &RangeConfig,
    leaf: u16,
    rows: &SharedLeaf,
    seat: u16,
) -> Result<(), Refusal>
    requires homes { AllByRecursion (λ (r : Row). leaf_in config.now r.key ≡ leaf) rows.now.rows }
    requires room { length (offers_of rows.now.rows) ≤ journal.old.room }
    ensures { Answers result None
        (λ _. (journal.new ≡ with_copies journal.old seat (offers_of rows.now.rows))
        × (table.new.rows ≡ table.old.rows ++ map (row_of config.now.bits) rows.now.rows)) }
{
    let mut runs = rows.runs();
    while let Some(run) = runs.next_run() {
        append_rows(journal, seat, run)?;
        insert_rows(alloc, table, config, leaf, run)?;
    }
    Ok(())
}

/// Counts the versions of a leaf.
fn version_count(leaf: &SharedLeaf) -> u64
    requires { length (offers_of leaf.now.rows) < 2 ^ 64 }
    ensures { result ≡ length (offers_of leaf.now.rows) }
{
    let mut count = 0;
    let mut runs = leaf.runs();
    while let Some(rows) = runs.next_run() {
        count += count_in(rows);
    }
    count
}

/// Counts the versions of rows.
fn count_in(rows: &[Row]) -> u64
    requires { length (offers_of rows.now) < 2 ^ 64 }
    ensures { result ≡ length (offers_of rows.now) }
{
    let mut count = 0;
    for row in rows {
        count += row.versions.len() as u64;
    }
    count
}

/// Appends the versions of rows, as copies by a seat, for which room was made. Refused: NoMemory, and then some may be
/// appended.
fn append_rows(journal: &mut Journal, seat: u16, rows: &[Row]) -> Result<(), Refusal>
    requires { length (offers_of rows.now) ≤ journal.old.room }
    ensures { Answers result None (λ _. journal.new ≡ with_copies journal.old seat (offers_of rows.now)) }
{
    for row in rows {
        append_row(journal, seat, row)?;
    }
    Ok(())
}

/// Appends the versions of a row, as copies by a seat, for which room was made. Refused: NoMemory, and then some may be
/// appended.
fn append_row(journal: &mut Journal, seat: u16, row: &Row) -> Result<(), Refusal>
    requires { length (offers_in row.now) ≤ journal.old.room }
    ensures { Answers result None (λ _. journal.new ≡ with_copies journal.old seat (offers_in row.now)) }
{
    for version in row.versions.as_slice() {
        append_version(journal, seat, row, version)?;
    }
    Ok(())
}

/// Appends a version of the key of a row, as a copy by a seat, for which room was made. Refused: NoMemory.
fn append_version(
    journal: &mut Journal,
    seat: u16,
    row: &Row,
    version: &Version,
) -> Result<(), Refusal>
    requires { 1 ≤ journal.old.room }
    ensures { Answers result None (λ _. journal.new ≡ with_copies journal.old seat ((row.now.key, version.now) ∷ [])) }
{
    let key = row.key.try_clone()?;
    let version = version.try_clone()?;
    journal.append_reserved(seat, Source::Copy, key, version);
    Ok(())
}
