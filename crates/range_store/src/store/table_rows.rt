//! Rows for a store's table.
ghost use Rattle.std.specs.Prelude.{◌≡◌, ◌≤◌, ◌++◌, ℕ, List, None, map};
ghost use Rattle.std.specs.List.{AllByRecursion};
ghost use Rattle.vclock.specs.Answer.{Answers};
ghost use Rattle.vclock.specs.declared.format.Format.TheVariants as formats;
ghost use Rattle.version_set.specs.Version.{offered, offer_fault};
ghost use Rattle.key_ring.specs.Places.{leaf_at};
ghost use Rattle.range_journal.specs.declared.journal.Entry.{Entry};
ghost use Rattle.row_table.specs.Tables.{place_of, set_in};
ghost use Rattle.range_store.specs.Store.{leaf_in};
ghost use Rattle.range_store.specs.TableRows.{row_from, row_of};
ghost use Rattle.row_bytes.specs.declared.row.Row.{Row};

use crate::config::RangeConfig;
use crate::leaf_rows::place_in;
use hash_tree::SharedLeaf;
use key_ring::place;
use range_journal::Entry;
use range_tree::Tree;
use row_bytes::Row;
use row_table::{RowTable, TableRow};
use std::alloc::Global;
use vclock::{Bytes, Format, Refusal};
use version_set::{Held, Version, VersionSet};

/// Copies a key, or shares the key of its row, if it has one. Refused: NoMemory.
pub(super) fn copy_key(
    alloc: Global,
    table: &RowTable,
    place: Option<usize>,
    key: &[u8],
) -> Result<Bytes, Refusal>
    requires { place ≡ place_of table.now.rows key.now }
    ensures { Answers result None (λ copy. copy ≡ key.now) }
{
    match place {
        Some(place) => Ok(table.rows()[place].key.try_clone()?),
        None => Ok(Bytes::copy_of(alloc, key)?),
    }
}

/// Makes the row of a key with one more version, for which the key has room, and room for the row at its place. Refused:
/// NoMemory.
pub(super) fn prepare_row(
    alloc: Global,
    table: &mut RowTable,
    place: Option<usize>,
    leaf: u16,
    key: &Bytes,
    version: &Version,
) -> Result<TableRow, Refusal>
    requires place { place ≡ place_of table.old.rows key.now }
    requires fits { offer_fault version.now (set_in table.old.rows key.now) ≡ None }
    ensures row { Answers result None (λ row. (place ≡ None → 1 ≤ table.new.room)
        × (row ≡ record { key = key.now; leaf = leaf; set = offered version.now (set_in table.new.rows key.now) })) }
    ensures same { table.new.rows ≡ table.old.rows }
{
    let row = TableRow {
        key: key.try_clone()?,
        leaf,
        set: grown_set(alloc, &table.held_at(place), version)?,
    };
    table.make_room_at(place)?;
    Ok(row)
}

/// Returns a copy of versions, to which another one was offered, for which there is room. Refused: NoMemory.
fn grown_set(alloc: Global, held: &Held<'_>, version: &Version) -> Result<VersionSet, Refusal>
    requires { offer_fault version.now held.now ≡ None }
    ensures { Answers result None (λ set. set ≡ offered version.now held.now) }
{
    let mut set = held.to_set(alloc)?;
    set.offer(version.try_clone()?)?;
    Ok(set)
}

/// Returns the leaf of a key in the format of a range, by its leaf in format 2.
pub(super) fn narrow_leaf(config: &RangeConfig, leaf: u16) -> u16
    ensures { (key : List ℕ) → leaf ≡ leaf_at formats.Two config.now.bits key → result ≡ leaf_in config.now key }
{
    // Called for its clause alone: the configuration is valid.
    let _valid = config.limit();
    match config.format() {
        Format::One => leaf / 16,
        Format::Two => leaf,
    }
}

/// Returns the leaf of a key in format 2, by its leaf in the format of a range. Hashes the key only in format 1.
fn wide_leaf(config: &RangeConfig, leaf: u16, key: &[u8]) -> u16
    requires { leaf ≡ leaf_in config.now key.now }
    ensures { result ≡ leaf_at formats.Two config.now.bits key.now }
{
    match config.format() {
        Format::One => leaf_in_two(config, key),
        Format::Two => leaf,
    }
}

/// Returns the leaf of a key in format 2.
fn leaf_in_two(config: &RangeConfig, key: &[u8]) -> u16
    ensures { result ≡ leaf_at formats.Two config.now.bits key.now }
{
    // Called for its clause alone: the configuration is valid.
    let _valid = config.limit();
    place(Format::Two, config.bits(), key).leaf
}

/// Makes the row of a key, which shares the key, with a copy of versions. Refused: NoMemory.
fn row_with(alloc: Global, leaf: u16, key: &Bytes, held: &Held<'_>) -> Result<TableRow, Refusal>
    ensures { Answers result None (λ row. row ≡ record { key = key.now; leaf = leaf; set = held.now }) }
{
    Ok(TableRow {
        key: key.try_clone()?,
        leaf,
        set: held.to_set(alloc)?,
    })
}

/// Makes the rows of the keys of entries, with the versions that a leaf has for them. Refused: NoMemory.
pub(super) fn rows_from_leaf(
    alloc: Global,
    config: &RangeConfig,
    leaf: u16,
    changed: &SharedLeaf,
    entries: &[Entry],
) -> Result<Vec<TableRow>, Refusal>
    requires { AllByRecursion (λ (e : Entry). leaf ≡ leaf_in config.now e.key) entries.now }
    ensures { Answers result None
        (λ rows. rows.items ≡ map (row_from config.now.bits changed.now.rows) entries.now) }
{
    let mut rows = Vec::with_capacity(alloc, entries.len())?;
    for entry in entries {
        let key = entry.key.as_slice();
        let held = Held::new(changed.find(key));
        rows.push(row_with(alloc, wide_leaf(config, leaf, key), &entry.key, &held)?)?;
    }
    Ok(rows)
}

/// Makes the rows of the keys of entries, with the versions that a tree has for them. Refused: NoMemory.
pub(super) fn rows_from_tree(
    alloc: Global,
    config: &RangeConfig,
    tree: &Tree,
    entries: &[Entry],
) -> Result<Vec<TableRow>, Refusal>
    requires format { tree.now.map.format ≡ config.now.format }
    requires bits { tree.now.map.bits ≡ config.now.bits }
    ensures { Answers result None
        (λ rows. rows.items ≡ map (row_from config.now.bits tree.now.map.rows) entries.now) }
{
    let mut rows = Vec::with_capacity(alloc, entries.len())?;
    for entry in entries {
        let key = entry.key.as_slice();
        let leaf = place_in(config, key).leaf;
        let held = tree.find(leaf, key);
        rows.push(row_with(alloc, wide_leaf(config, leaf, key), &entry.key, &held)?)?;
    }
    Ok(rows)
}

/// Inserts rows of a leaf into a table. Refused: NoMemory, and then some may be inserted.
pub(super) fn insert_rows(
    alloc: Global,
    table: &mut RowTable,
    config: &RangeConfig,
    leaf: u16,
    rows: &[Row],
) -> Result<(), Refusal>
    requires { AllByRecursion (λ (r : Row). leaf_in config.now r.key ≡ leaf) rows.now }
    ensures { Answers result None (λ _. table.new.rows ≡ table.old.rows ++ map (row_of config.now.bits) rows.now) }
{
    table.reserve(rows.len() as u64)?;
    for row in rows {
        let wide = wide_leaf(config, leaf, row.key.as_slice());
        table.insert(table_row(alloc, wide, row)?);
    }
    Ok(())
}

/// Makes the table's row of a row, which shares its key and its values. Refused: NoMemory.
fn table_row(alloc: Global, leaf: u16, row: &Row) -> Result<TableRow, Refusal>
    ensures { Answers result None (λ new. new ≡ record { key = row.now.key; leaf = leaf; set = row.now.versions }) }
{
    Ok(TableRow {
        key: row.key.try_clone()?,
        leaf,
        set: row.versions.try_clone(alloc)?,
    })
}
