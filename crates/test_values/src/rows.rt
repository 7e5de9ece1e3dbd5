//! Row texts, written and read, byte by byte.
use crate::calls::{read, read_all, read_and_write};
use crate::checks::expect;
use std::alloc::Global;
use std::test::Fail;
use vclock::{Format, Refusal};

/// The text of key `a` with the version of clock (1,1) and value `x`, in format 1.
const ONE_VERSION: &[u8] =
    b"\x00\x01a\x00\x01\x01\x00\x01\x00\x00\x00\x00\x00\x00\x00\x01\x00\x00\x00\x01x";

/// The text of key `a` with the version of clock (1,1) and value `x`, in format 2.
const ONE_VERSION_2: &[u8] =
    b"\x00\x01a\x00\x01\x00\x01\x00\x01\x00\x00\x00\x00\x00\x00\x00\x01\x00\x00\x00\x01x";

/// Key `a` with the versions `p` and `q` of one clock, (2,1), in format 1.
const EQUAL_CLOCKS: &[u8] =
    b"\x00\x01a\x00\x02\x01\x00\x02\x00\x00\x00\x00\x00\x00\x00\x01\x00\x00\x00\x01p\x01\x00\x02\x00\x00\x00\x00\x00\x00\x00\x01\x00\x00\x00\x01q";

/// Key `a` with the value `p` and a tombstone of one clock, (2,1), in format 2.
const TOMBSTONE: &[u8] =
    b"\x00\x01a\x00\x02\x00\x01\x00\x02\x00\x00\x00\x00\x00\x00\x00\x01\x00\x00\x00\x01p\x01\x01\x00\x02\x00\x00\x00\x00\x00\x00\x00\x01\x00\x00\x00\x00";

/// Asserts that a text is one row with this number of versions, with nothing after it, and that the row is written back
/// as the same text.
fn expect_row(alloc: Global, format: Format, text: &[u8], versions: usize) -> Result<(), Fail> {
    let (row, written) = read_and_write(alloc, format, text)?;
    expect(row.versions.len() == versions, "a row has its versions")?;
    expect(written.as_slice() == text, "a row is written as its text")?;
    let rows = read_all(alloc, format, text)?;
    expect(rows.len() == 1, "a row's text is one row")
}

/// Asserts the offset at which a text is broken.
fn expect_broken(alloc: Global, format: Format, text: &[u8], offset: u64) -> Result<(), Fail> {
    match read(alloc, format, text) {
        Err(Refusal::RowBroken(at)) => expect(at == offset, "a text is broken at its offset"),
        _ => Err("the text is broken".into()),
    }
}

#[test]
fn rows_are_read_and_written(rt: HostRuntime) -> Result<(), Fail> {
    let alloc = rt.alloc();
    for (format, text, versions) in [
        (Format::One, ONE_VERSION, 1),
        (Format::Two, ONE_VERSION_2, 1),
        (Format::One, EQUAL_CLOCKS, 2),
        (Format::Two, TOMBSTONE, 2),
    ] {
        expect_row(alloc, format, text, versions)?;
    }
    let none = read_all(alloc, Format::One, &[])?;
    expect(none.is_empty(), "no bytes are no rows")
}

#[test]
fn each_front_of_a_row_is_broken_at_its_field(rt: HostRuntime) -> Result<(), Fail> {
    let fields = [
        0, 0, 2, 3, 3, 5, 6, 6, 8, 8, 8, 8, 8, 8, 8, 8, 16, 16, 16, 16, 20u64,
    ];
    for (length, &offset) in fields.iter().enumerate() {
        let front = ONE_VERSION.get(..length).ok_or("no such front")?;
        expect_broken(rt.alloc(), Format::One, front, offset)?;
    }
    Ok(())
}

#[test]
fn a_broken_rule_is_broken_at_its_field(rt: HostRuntime) -> Result<(), Fail> {
    for (format, text, offset) in [
        (Format::One, b"\x00\x00".as_slice(), 0),
        (Format::One, b"\x00\x01a\x00\x00".as_slice(), 3),
        (Format::One, b"\x00\x01a\x00\x41".as_slice(), 3),
        (Format::One, b"\x00\x01a\x00\x01\x21".as_slice(), 5),
        (
            Format::One,
            b"\x00\x01a\x00\x01\x00\x00\x00\x10\x01".as_slice(),
            6,
        ),
        (Format::Two, b"\x00\x01a\x00\x01\x02".as_slice(), 5),
        (
            Format::Two,
            b"\x00\x01a\x00\x01\x01\x00\x00\x00\x00\x01".as_slice(),
            7,
        ),
        // Two versions without pairs: of equal texts, and in falling order.
        (
            Format::One,
            b"\x00\x01a\x00\x02\x00\x00\x00\x00\x00\x00\x00\x00\x00\x00".as_slice(),
            10,
        ),
        (
            Format::One,
            b"\x00\x01a\x00\x02\x00\x00\x00\x00\x01b\x00\x00\x00\x00\x01a".as_slice(),
            11,
        ),
        // A version without pairs, which is below one with a pair.
        (
            Format::One,
            b"\x00\x01a\x00\x02\x00\x00\x00\x00\x00\x01\x00\x01\x00\x00\x00\x00\x00\x00\x00\x01\x00\x00\x00\x00".as_slice(),
            10,
        ),
    ] {
        expect_broken(rt.alloc(), format, text, offset)?;
    }
    Ok(())
}

#[test]
fn keys_ascend_from_row_to_row(rt: HostRuntime) -> Result<(), Fail> {
    let alloc = rt.alloc();
    let mut twice = Vec::from_slice(alloc, ONE_VERSION)?;
    twice.extend_from_slice(ONE_VERSION)?;
    let rows = read_all(alloc, Format::One, &twice);
    expect(
        matches!(&rows, Err(Refusal::RowBroken(21))),
        "the second row is broken",
    )?;
    let (_, rest) = read(alloc, Format::One, &twice)?;
    expect(rest == ONE_VERSION, "the second row follows the first")
}
