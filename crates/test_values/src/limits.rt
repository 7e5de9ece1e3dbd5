//! A row at all its limits: a key of 255 bytes, and 64 versions with clocks of 32 pairs and the longest values.
use crate::calls::read_and_write;
use crate::checks::expect;
use std::alloc::Global;
use std::test::Fail;
use vclock::{Format, Refusal};

/// Returns the text of a key of 255 bytes with 64 versions, none below another: the clock of each has one node that no
/// other clock has, and each value has this number of bytes.
fn longest_text(alloc: Global, format: Format, value: u32) -> Result<Vec<u8>, Refusal> {
    let mut text = Vec::from_slice(alloc, b"\x00\xff")?;
    text.extend_from_slice(&[b'k'; 255])?;
    text.extend_from_slice(b"\x00\x40")?;
    for version in 0..64u16 {
        if format == Format::Two {
            text.push(0)?;
        }
        text.push(32)?;
        put_pairs(&mut text, version)?;
        text.extend_from_slice(&value.to_be_bytes())?;
        for _ in 0..value {
            text.push(b'v')?;
        }
    }
    Ok(text)
}

/// Appends 32 pairs: nodes 1 to 31 and a node that differs for each version, each counted once.
fn put_pairs(text: &mut Vec<u8>, version: u16) -> Result<(), Refusal> {
    for node in 1..32u16 {
        put_pair(text, node)?;
    }
    put_pair(text, version.saturating_add(32))
}

/// Appends a pair of a node with the counter 1.
fn put_pair(text: &mut Vec<u8>, node: u16) -> Result<(), Refusal> {
    text.extend_from_slice(&node.to_be_bytes())?;
    text.extend_from_slice(&1u64.to_be_bytes())?;
    Ok(())
}

/// Asserts that a text has this length and is a row of 64 versions, which is cloned and written back unchanged.
fn expect_row(alloc: Global, format: Format, text: &[u8], length: usize) -> Result<(), Fail> {
    let (row, written) = read_and_write(alloc, format, text)?;
    expect(
        text.len() == length && written.as_slice() == text,
        "the row is written as its text",
    )?;
    let copy = row.versions.try_clone(alloc)?;
    expect(
        row.versions.len() == 64 && copy.len() == 64,
        "the row and its clone have 64 versions",
    )
}

#[test]
fn a_row_has_its_limits(rt: HostRuntime) -> Result<(), Fail> {
    let alloc = rt.alloc();
    for (format, value, length) in [
        (Format::One, 4_096, 283_203),
        (Format::Two, 65_536, 4_215_427),
    ] {
        expect_row(alloc, format, &longest_text(alloc, format, value)?, length)?;
    }
    Ok(())
}
