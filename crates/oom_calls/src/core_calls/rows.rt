//! Row texts.
use crate::lines::{show, unchanged};
use row_bytes::{a_held_set_is_a_row, put_row, read_row, read_rows, write_row};
use std::alloc::Global;
use std::io;
use vclock::{Format, Refusal};

/// The text of key `a` with the version of clock (1,1) and value `x`, in format 1.
const TEXT: &[u8] =
    b"\x00\x01a\x00\x01\x01\x00\x01\x00\x00\x00\x00\x00\x00\x00\x01\x00\x00\x00\x01x";

/// Shows the calls on row texts.
pub(crate) fn show_all<R: Print + AllocGlobal>(rt: &R) -> io::Result<()> {
    let alloc = rt.alloc();
    show(rt, "read_row", read(alloc))?;
    show(rt, "read_rows", read_all(alloc))?;
    show(rt, "put_row", put(alloc))?;
    show(rt, "write_row and write_held", write(alloc))
}

fn read(alloc: Global) -> Result<u64, Refusal> {
    let (row, rest) = read_row(alloc, Format::One, TEXT)?;
    Ok((row.versions.len() as u64).saturating_add(rest.len() as u64))
}

fn read_all(alloc: Global) -> Result<u64, Refusal> {
    Ok(read_rows(alloc, Format::One, TEXT)?.len() as u64)
}

/// Writes a row that was read.
fn write(alloc: Global) -> Result<u64, Refusal> {
    let (row, _) = read_row(alloc, Format::One, TEXT)?;
    a_held_set_is_a_row();
    Ok(write_row(alloc, Format::One, &row)?.len() as u64)
}

/// Writes a row after another byte.
fn put(alloc: Global) -> Result<u64, Refusal> {
    let (row, _) = read_row(alloc, Format::One, TEXT)?;
    let mut text = Vec::from_slice(alloc, b"z")?;
    a_held_set_is_a_row();
    match put_row(&mut text, Format::One, &row) {
        Ok(()) => Ok(text.len() as u64),
        Err(_) => Err(unchanged(Refusal::NoMemory, Ok(text.as_slice() == b"z".as_slice()))),
    }
}
