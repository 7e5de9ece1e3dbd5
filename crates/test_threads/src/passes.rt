//! Passes, from their opening to the close of their range.
ghost use Rattle.std.specs.Prelude.{◌≡◌};

use crate::locked::Locked;
use caller_pass::{Book, LockedRange, Pass, Unclosed, open_passes};
use range_journal::Source;
use range_state::Accepted;
use std::alloc::Global;
use std::marker::Brand;
use std::process::Abort;
use std::sync::ledger::{Blank, Ledger};
use std::test::Fail;
use test_values::checks::expect;
use test_values::versions::version;
use vclock::{Bytes, Clock, Refusal};
use version_set::Kind;

/// Expects that a book absorbs its two passes, whose seats are 0 and 1.
fn expect_absorbed<L: Ledger>(book: &mut Book<L>, passes: &mut Vec<Pass<L>>) -> Result<(), Fail> {
    let one = passes.pop().ok_or("no pass")?;
    let zero = passes.pop().ok_or("one pass")?;
    expect(
        passes.is_empty() && zero.seat() == 0 && one.seat() == 1,
        "each seat has a pass",
    )?;
    book.absorb(zero).ok().ok_or("no room")?;
    book.absorb(one).ok().ok_or("no room")?;
    expect(book.seats() == 2, "the book has two seats")
}

/// Opens two passes, and absorbs both. The proof of a test names its ledger only if the call takes the runtime.
fn absorb_two<L: Ledger>(_rt: &impl Abort, alloc: Global, blank: Blank) -> Result<(), Fail>
    requires name { blank.name ≡ L.name }
    requires parts { (blank.parts ≡ L.parts) × (L.parts ≡ 2) }
{
    let (mut book, mut passes) = open_passes::<L>(blank, alloc, 2)?;
    expect_absorbed(&mut book, &mut passes)
}

#[test]
fn a_book_absorbs_its_passes(rt: HostRuntime) -> Result<(), Fail> {
    absorb_two::<Brand>(&rt, rt.alloc(), Blank::new(2))
}

/// Puts `x` under `a` at node 1, with an empty context. Returns the number of the entry.
fn put<L: Ledger>(
    alloc: Global,
    range: &mut LockedRange<L>,
    pass: &mut Pass<L>,
) -> Result<u64, Refusal> {
    let context = Clock::from_pairs(alloc, &[])?;
    let value = Bytes::copy_of(alloc, b"x")?;
    let receipt = range.put(alloc, pass, 1, b"a", &context, Kind::Live, value)?;
    Ok(receipt.number)
}

/// Returns the number of versions of `a`, without a pass.
fn count_held<L: Ledger>(range: &LockedRange<L>) -> usize {
    range.store().versions(b"a").len()
}

/// Returns the number of entries of a range.
fn count_entries<L: Ledger>(range: &LockedRange<L>) -> u64 {
    range.counts().entries
}

/// Puts a value at seat 1 and reads it.
fn write<L: Ledger>(
    alloc: Global,
    range: &mut LockedRange<L>,
    one: &mut Pass<L>,
) -> Result<(), Fail> {
    expect(put(alloc, range, one)? == 0, "the put has the first entry")?;
    expect(count_held(range) == 1, "a look shows it")?;
    expect(count_entries(range) == 1, "one entry is counted")?;
    let held = range.get(alloc, one, b"a")?;
    expect(held.len() == 1, "one version is held")?;
    expect(
        one.seen() == 1 && one.receipts().len() == 1 && one.readings().len() == 1,
        "the pass has a receipt and a reading",
    )
}

/// Accepts a copy of `a` at a seat, and returns the number of its entry, or `None` if it is known.
fn accept<L: Ledger>(
    alloc: Global,
    range: &mut LockedRange<L>,
    pass: &mut Pass<L>,
    pair: (u64, u64),
    value: &[u8],
) -> Result<Option<u64>, Refusal> {
    let version = version(alloc, pair, Kind::Live, value)?;
    match range.accept(alloc, pass, Source::Copy, b"a", version)? {
        Accepted::Taken(receipt) => Ok(Some(receipt.number)),
        Accepted::Known => Ok(None),
    }
}

/// Accepts at seat 0 a copy of seat 1's version, which is known, and another version, which is new.
fn copy<L: Ledger>(
    alloc: Global,
    range: &mut LockedRange<L>,
    zero: &mut Pass<L>,
) -> Result<(), Fail> {
    let known = accept(alloc, range, zero, (1, 1), b"x")?;
    expect(known.is_none(), "the copy is known")?;
    expect(
        zero.seen() == 0 && zero.receipts().is_empty(),
        "a known copy has no receipt",
    )?;
    let taken = accept(alloc, range, zero, (9, 1), b"y")?;
    expect(taken == Some(1), "the other copy is entry 1")?;
    expect(
        zero.seen() == 2 && zero.receipts().len() == 1,
        "the other copy has a receipt",
    )
}

/// Writes at seat 1, and accepts versions at seat 0.
fn tell<L: Ledger>(alloc: Global, locked: &mut Locked<L>) -> Result<(), Fail> {
    let Locked { range, one, zero } = locked;
    write(alloc, range, one)?;
    copy(alloc, range, zero)
}

/// Expects that a range isn't closed with only its pass of seat 1, and returns it with both passes.
fn close_with_one<L: Ledger>(alloc: Global, locked: Locked<L>) -> Result<Locked<L>, Fail> {
    let (range, one, zero) = locked.into_parts();
    let mut passes = Vec::new(alloc);
    passes.push(one)?;
    let Unclosed {
        range,
        mut passes,
        refusal,
    } = range.close(alloc, passes).err().ok_or("closed")?;
    let is_stranger = matches!(&refusal, Refusal::Stranger);
    let one = passes.pop().ok_or("no pass")?;
    expect(
        is_stranger && passes.is_empty(),
        "it is refused as Stranger, with the pass",
    )?;
    Ok(Locked { range, one, zero })
}

/// Closes a range of two entries with both of its passes.
fn close_with_both<L: Ledger>(alloc: Global, locked: Locked<L>) -> Result<(), Fail> {
    let (range, one, zero) = locked.into_parts();
    let mut passes = Vec::new(alloc);
    passes.push(one)?;
    passes.push(zero)?;
    let closed = range.close(alloc, passes).ok().ok_or("not closed")?;
    expect(
        closed.state.journal().len() == 2 && closed.passes.len() == 2,
        "two entries and both passes are returned",
    )
}

/// Opens a range with two passes, and calls it with both up to the close.
fn tell_two<L: Ledger>(_rt: &impl Abort, alloc: Global, blank: Blank) -> Result<(), Fail>
    requires name { blank.name ≡ L.name }
    requires parts { (blank.parts ≡ L.parts) × (L.parts ≡ 2) }
{
    let mut locked = Locked::<L>::open(alloc, blank)?;
    tell(alloc, &mut locked)?;
    let locked = close_with_one(alloc, locked)?;
    close_with_both(alloc, locked)
}

#[test]
fn a_range_closes_with_all_its_passes(rt: HostRuntime) -> Result<(), Fail> {
    tell_two::<Brand>(&rt, rt.alloc(), Blank::new(2))
}
