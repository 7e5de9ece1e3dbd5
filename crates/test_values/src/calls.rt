//! The libraries' calls as tests make them. None of these functions has an `ensures`, so a test that calls them carries
//! no facts about their results, and is proved fast.
use row_bytes::{Row, RowList, a_held_set_is_a_row, read_row, read_rows, write_row};
use std::alloc::Global;
use std::test::Fail;
use tree_nodes::NodeAt;
use vclock::{Clock, Format, Refusal};
use version_set::{Offered, Version, VersionSet};

/// Returns the clock of these pairs.
pub fn clock(alloc: Global, pairs: &[(u64, u64)]) -> Result<Clock, Refusal> {
    Clock::from_pairs(alloc, pairs)
}

/// Offers a version to a set.
pub fn offer_version(set: &mut VersionSet, version: Version) -> Result<Offered, Refusal> {
    set.offer(version)
}

/// Reads a row, and returns it with the rest of the text.
pub fn read(alloc: Global, format: Format, text: &[u8]) -> Result<(Row, &[u8]), Refusal> {
    read_row(alloc, format, text)
}

/// Reads rows up to the end of a text.
pub fn read_all(alloc: Global, format: Format, text: &[u8]) -> Result<RowList, Refusal> {
    read_rows(alloc, format, text)
}

/// Reads a row from a text and writes it again. Returns the row and the text written.
pub fn read_and_write(
    alloc: Global,
    format: Format,
    text: &[u8],
) -> Result<(Row, Vec<u8>), Refusal> {
    let (row, _) = read_row(alloc, format, text)?;
    a_held_set_is_a_row();
    let written = write_row(alloc, format, &row)?;
    Ok((row, written))
}

/// Returns a node of some tree.
pub fn node_at(depth: u8, index: u16) -> Result<NodeAt, Fail> {
    Ok(NodeAt::new(depth, index).ok_or("no such node")?)
}
