//! Tables of rows.
use crate::checks::expect;
use crate::versions::version;
use row_table::{RowTable, Seed, TableRow};
use std::alloc::Global;
use std::test::Fail;
use vclock::{Bytes, Refusal};
use version_set::{Kind, VersionSet};

/// Makes the row of a key, with a version that node 1 has counted this number of times.
fn row_of(alloc: Global, key: &[u8], count: u64) -> Result<TableRow, Refusal> {
    let mut set = VersionSet::empty(alloc);
    set.offer(version(alloc, (1, count), Kind::Live, b"x")?)?;
    Ok(TableRow {
        key: Bytes::copy_of(alloc, key)?,
        leaf: 7,
        set,
    })
}

/// Puts a row into a table.
fn put(table: &mut RowTable, row: TableRow) -> Result<(), Refusal> {
    let place = table.find(row.key.as_slice());
    table.make_room_at(place)?;
    table.put_at(place, row);
    Ok(())
}

/// Puts a row of `a` and one of `b`, both or none.
fn put_both(alloc: Global, table: &mut RowTable) -> Result<(), Refusal> {
    let mut rows = Vec::new(alloc);
    rows.push(row_of(alloc, b"a", 1)?)?;
    rows.push(row_of(alloc, b"b", 1)?)?;
    table.reserve(rows.len() as u64)?;
    table.put_all(rows);
    Ok(())
}

/// Asserts that a table has one row of `a` with a second version, one of `b` with a first one, and no other.
fn expect_both(alloc: Global, table: &RowTable) -> Result<(), Fail> {
    let second = version(alloc, (1, 2), Kind::Live, b"x")?;
    expect(table.held(b"a").covers(&second), "a has the second version")?;
    expect(
        !table.held(b"b").covers(&second),
        "b has the first version alone",
    )?;
    expect(
        table.held(b"c").as_slice().is_empty() && table.row(b"c").is_none(),
        "c has no row",
    )?;
    let row = table.row(b"b").ok_or("b has no row")?;
    expect(row.leaf == 7, "a row has its leaf")?;
    expect(table.rows().len() == 2, "a key has one row")
}

#[test]
fn a_table_finds_its_rows(rt: HostRuntime) -> Result<(), Fail> {
    let alloc = rt.alloc();
    let seed = Seed {
        first: 1,
        second: 2,
    };
    let mut table = RowTable::new(alloc, seed);
    put_both(alloc, &mut table)?;
    put(&mut table, row_of(alloc, b"a", 2)?)?;
    expect(table.seed() == seed, "a table has its seed")?;
    expect_both(alloc, &table)
}
