//! Rows that are loaded from their texts.
use crate::calls::{load_rows, new_range, rows_text};
use range_state::{Loaded, RangeState};
use std::alloc::Global;
use std::test::Fail;
use test_values::checks::expect;
use test_values::refusals::expect_refused;
use vclock::{Format, Refusal};

/// The text of key `a` with the version of clock (1,1) and value `x`, in format 1: its leaf is 12 at 0 bits.
const ROW: &[u8] =
    b"\x00\x01a\x00\x01\x01\x00\x01\x00\x00\x00\x00\x00\x00\x00\x01\x00\x00\x00\x01x";

/// The text of key `a` with the versions of the clocks (2,1) and (3,1) and the values `y` and `z`.
const TWO_VERSIONS: &[u8] =
    b"\x00\x01a\x00\x02\x01\x00\x02\x00\x00\x00\x00\x00\x00\x00\x01\x00\x00\x00\x01y\x01\x00\x03\x00\x00\x00\x00\x00\x00\x00\x01\x00\x00\x00\x01z";

/// The texts of the rows of `a`, in leaf 12, and of `b`, in leaf 146.
const TWO_LEAVES: &[u8] =
    b"\x00\x01a\x00\x01\x01\x00\x01\x00\x00\x00\x00\x00\x00\x00\x01\x00\x00\x00\x01x\x00\x01b\x00\x01\x01\x00\x01\x00\x00\x00\x00\x00\x00\x00\x01\x00\x00\x00\x01x";

/// Asserts the counts of a load.
fn expect_loaded(
    alloc: Global,
    state: &mut RangeState,
    text: &[u8],
    counts: (u64, u64),
) -> Result<(), Fail> {
    let Loaded { taken, known } = load_rows(alloc, state, text)?;
    expect((taken, known) == counts, "rows are taken or known")
}

/// Asserts that a text isn't loaded for this cause, and that the range has one entry afterwards.
fn expect_not_loaded(
    alloc: Global,
    state: &mut RangeState,
    text: &[u8],
    cause: Refusal,
) -> Result<(), Fail> {
    expect_refused(
        load_rows(alloc, state, text),
        cause,
        "the text isn't loaded",
    )?;
    expect(state.journal().len() == 1, "no version is taken")
}

#[test]
fn rows_are_loaded_as_copies_or_refused(rt: HostRuntime) -> Result<(), Fail> {
    let alloc = rt.alloc();
    let mut state = new_range(alloc, 1, 2)?;
    expect_loaded(alloc, &mut state, &[], (0, 0))?;
    expect_loaded(alloc, &mut state, ROW, (1, 0))?;
    expect_loaded(alloc, &mut state, ROW, (0, 1))?;
    let (front, _) = ROW.split_at(ROW.len() - 1);
    expect_not_loaded(alloc, &mut state, front, Refusal::RowBroken(20))?;
    expect_not_loaded(alloc, &mut state, TWO_LEAVES, Refusal::OtherRange)?;
    expect_not_loaded(alloc, &mut state, TWO_VERSIONS, Refusal::JournalFull)
}

#[test]
fn the_rows_of_a_leaf_are_written(rt: HostRuntime) -> Result<(), Fail> {
    let alloc = rt.alloc();
    let mut state = new_range(alloc, 1, 2)?;
    expect_loaded(alloc, &mut state, ROW, (1, 0))?;
    let written = rows_text(alloc, &state, 12)?;
    expect(
        written.as_slice() == ROW,
        "a leaf has the texts of its rows",
    )?;
    expect(
        rows_text(alloc, &state, 255)?.is_empty(),
        "another leaf has none",
    )?;
    expect_refused(
        rows_text(alloc, &state, 256),
        Refusal::BadMessage,
        "there is no such leaf",
    )
}

/// The text of key `a` with a tombstone of clock (1,1), in format 2.
const TOMBSTONE: &[u8] =
    b"\x00\x01a\x00\x01\x01\x01\x00\x01\x00\x00\x00\x00\x00\x00\x00\x01\x00\x00\x00\x00";

/// Asserts that rows of a format aren't loaded for this cause, and that the range is empty afterwards.
fn expect_no_rows(
    alloc: Global,
    state: &mut RangeState,
    format: Format,
    text: &[u8],
    cause: Refusal,
) -> Result<(), Fail> {
    let loaded = state.load_format(alloc, 4, format, text);
    expect_refused(loaded, cause, "the rows aren't loaded")?;
    expect(state.journal().len() == 0, "no version is taken")
}

#[test]
fn rows_of_any_leaves_are_loaded_whole_or_not_at_all(rt: HostRuntime) -> Result<(), Fail> {
    let alloc = rt.alloc();
    let mut state = new_range(alloc, 1, 1)?;
    let (front, _) = TWO_LEAVES.split_at(41);
    expect_no_rows(alloc, &mut state, Format::Two, ROW, Refusal::OtherFormat)?;
    expect_no_rows(
        alloc,
        &mut state,
        Format::One,
        front,
        Refusal::RowBroken(41),
    )?;
    expect_no_rows(
        alloc,
        &mut state,
        Format::One,
        TWO_LEAVES,
        Refusal::JournalFull,
    )?;
    let mut state = new_range(alloc, 2, 3)?;
    let Loaded { taken, known } = state.load_format(alloc, 4, Format::One, TWO_LEAVES)?;
    expect((taken, known) == (2, 0), "rows of two leaves are taken")?;
    let Loaded { taken, known } = state.load_format(alloc, 4, Format::Two, TOMBSTONE)?;
    expect(
        (taken, known) == (1, 0),
        "a tombstone of the same clock is news",
    )
}
