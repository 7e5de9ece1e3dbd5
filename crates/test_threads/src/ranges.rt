//! Calls of a shared range, in one thread.
ghost use Rattle.std.specs.Prelude.{◌≡◌};

use crate::calls::{bytes, config, copy, count, get, look, put, snapshot};
use crate::nodes::{Replica, all_keys};
use caller_pass::Pass;
use ring_node::{NotClosed, SharedRange};
use std::alloc::Global;
use std::marker::Brand;
use std::sync::Wait;
use std::sync::ledger::{Blank, Ledger};
use std::test::Fail;
use test_values::checks::expect;
use test_values::refusals::is_refused;
use test_values::versions::{members, version};
use vclock::Refusal;
use version_set::Kind;

/// Puts and reads `a` at the first seat.
fn write<L: Ledger, R: Wait>(
    rt: &R,
    alloc: Global,
    range: &SharedRange<L>,
    first: &mut Pass<L>,
) -> Result<(), Fail> {
    expect(
        put(rt, alloc, range, first, b"a", 0)? == 0,
        "the put has the first entry",
    )?;
    let versions = get(rt, alloc, range, first, b"a")?;
    let held = members(alloc, &versions)?;
    expect(
        held.as_str() == "[(1, 1)] Live [120]\n",
        "the version is held",
    )?;
    expect(
        first.receipts().len() == 1 && first.readings().len() == 1,
        "the pass has a receipt and a reading",
    )?;
    let looked = members(alloc, &look(rt, alloc, range, b"a")?)?;
    expect(
        looked.as_str() == held.as_str() && first.readings().len() == 1,
        "a look shows the version and is no reading",
    )?;
    let receipt = first.receipts().first().ok_or("no receipt")?;
    expect(
        receipt.number == 0 && receipt.seat == 0,
        "the receipt is of the first entry and seat",
    )
}

/// Accepts a copy of `a`, and returns its number, or `None` if it is known.
fn copy_of_a<L: Ledger, R: Wait>(
    rt: &R,
    alloc: Global,
    range: &SharedRange<L>,
    pass: &mut Pass<L>,
    pair: (u64, u64),
) -> Result<Option<u64>, Refusal> {
    let version = version(alloc, pair, Kind::Live, b"x")?;
    copy(rt, alloc, range, pass, b"a", version)
}

/// Writes at the first seat, and accepts a known version and a new one at the second.
fn write_and_copy<L: Ledger, R: Wait>(
    rt: &R,
    alloc: Global,
    replica: &mut Replica<L>,
) -> Result<(), Fail> {
    let Replica { range, passes, .. } = replica;
    let (second, others) = passes.split_last_mut().ok_or("no pass")?;
    let first = others.first_mut().ok_or("one pass")?;
    expect(
        is_refused(snapshot(rt, alloc, range), Refusal::Dirty),
        "a new range is dirty",
    )?;
    write(rt, alloc, range, first)?;
    expect(
        copy_of_a(rt, alloc, range, second, (1, 1))?.is_none(),
        "the put's version is known",
    )?;
    expect(
        copy_of_a(rt, alloc, range, second, (9, 1))? == Some(1),
        "another version has the second entry",
    )?;
    let counts = count(rt, range);
    expect(
        counts.entries == 2 && counts.limit == 10 && counts.dirty == 273 && counts.sessions == 0,
        "two entries of ten, and no node is clean",
    )?;
    // (in addition to the key, a version with one pair and the value `x` has 16 bytes in a row's text and 11 in the
    // journal)
    let bytes = bytes(rt, range);
    expect(
        bytes.rows == 37 && bytes.journal == 24 && bytes.sessions == 0,
        "the size of a row with two versions, and of two entries",
    )
}

/// Expects that a range isn't closed without the pass of its second seat, and returns it with that pass.
fn close_with_one<L: Ledger, R: Wait>(
    rt: &R,
    alloc: Global,
    replica: Replica<L>,
) -> Result<Replica<L>, Fail> {
    let (range, mut passes, offers) = replica.into_parts();
    let before = (config(rt, &range), count(rt, &range));
    let second = passes.pop().ok_or("no pass")?;
    let Err(refused) = range.close(alloc, passes) else {
        return Err(Fail::from("closed without a pass"));
    };
    let NotClosed {
        range,
        mut passes,
        refusal,
    } = refused;
    let is_stranger = matches!(&refusal, Refusal::Stranger);
    expect(
        is_stranger && passes.len() == 1,
        "it is refused as Stranger, with the pass",
    )?;
    expect(
        (config(rt, &range), count(rt, &range)) == before,
        "the range is unchanged",
    )?;
    passes.push(second)?;
    Ok(Replica {
        range,
        passes,
        offers,
    })
}

/// Calls a range of two seats up to its close.
fn close_at_last<L: Ledger, R: Wait>(rt: &R, alloc: Global, blank: Blank) -> Result<(), Fail>
    requires ledger { (blank.name ≡ L.name) × (blank.parts ≡ L.parts) × (blank.parts ≡ 2) }
{
    let mut replica = Replica::<L>::open(alloc, blank, 2, all_keys(10)?)?;
    write_and_copy(rt, alloc, &mut replica)?;
    let replica = close_with_one(rt, alloc, replica)?;
    let state = replica.close(alloc)?;
    expect(state.journal().len() == 2, "both passes close two entries")
}

#[test]
fn a_range_closes_with_all_passes(rt: HostRuntime) -> Result<(), Fail> {
    close_at_last::<Brand, HostRuntime>(&rt, rt.alloc(), Blank::new(2))
}
