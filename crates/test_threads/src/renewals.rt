//! Ranges that are renewed.
ghost use Rattle.std.specs.Prelude.{◌≡◌};

use crate::calls::{count, get};
use crate::locked::Locked;
use crate::nodes::{Replica, all_keys};
use caller_pass::{LockedRange, Pass, Renewed, ReturnedPass};
use ring_node::{NotClosed, RenewedRange, SharedRange};
use std::alloc::Global;
use std::marker::Brand;
use std::process::Abort;
use std::sync::Wait;
use std::sync::ledger::{Blank, Ledger};
use std::test::Fail;
use test_values::checks::expect;
use test_values::versions::members;
use vclock::{Bytes, Clock, Refusal};
use version_set::Kind;

/// Puts `a`, `b` and `a` at the first seat; the last put overwrites the first.
fn put_three<L: Ledger, R: Wait>(
    rt: &R,
    alloc: Global,
    replica: &mut Replica<L>,
) -> Result<(), Fail> {
    replica.put(rt, alloc, b"a", 0)?;
    replica.put(rt, alloc, b"b", 0)?;
    let last = replica.put(rt, alloc, b"a", 1)?;
    expect(last == 2, "there are three entries")
}

/// Expects that a range isn't renewed, for this cause, and returns it, unchanged, with its two passes.
fn expect_refused<L: Ledger, R: Wait>(
    rt: &R,
    alloc: Global,
    replica: Replica<L>,
    seat: u16,
    limit: u64,
    cause: Refusal,
) -> Result<Replica<L>, Fail> {
    let (range, passes, offers) = replica.into_parts();
    let before = count(rt, &range);
    let Err(refused) = range.renew(alloc, passes, seat, limit) else {
        return Err(Fail::from("renewed"));
    };
    let NotClosed {
        range,
        passes,
        refusal,
    } = refused;
    expect(
        refusal.number() == cause.number() && passes.len() == 2,
        "it is refused for the cause, with both passes",
    )?;
    expect(count(rt, &range) == before, "the range is unchanged")?;
    Ok(Replica {
        range,
        passes,
        offers,
    })
}

/// Expects that a range isn't renewed for a seat or with a limit that it can't have.
fn expect_no_renewal<L: Ledger, R: Wait>(
    rt: &R,
    alloc: Global,
    replica: Replica<L>,
) -> Result<Replica<L>, Fail> {
    let replica = expect_refused(rt, alloc, replica, 64, 5, Refusal::Stranger)?;
    let replica = expect_refused(rt, alloc, replica, 1, 0, Refusal::BadRing)?;
    let replica = expect_refused(rt, alloc, replica, 1, 1_000_001, Refusal::BadRing)?;
    expect_refused(rt, alloc, replica, 1, 1, Refusal::JournalFull)
}

/// Expects the passes of three puts at the first seat.
fn expect_kept(kept: &[ReturnedPass]) -> Result<(), Fail> {
    let first = kept.first().ok_or("no pass")?;
    let second = kept.get(1).ok_or("one pass")?;
    expect(
        kept.len() == 2 && first.seat == 0 && first.seen == 3 && first.receipts.len() == 3,
        "the first pass has three receipts",
    )?;
    expect(
        second.seat == 1 && second.receipts.is_empty() && second.readings.is_empty(),
        "the second pass has none",
    )
}

/// Renews a range for its second seat, with a limit of 5.
fn renew<L: Ledger>(alloc: Global, replica: Replica<L>) -> Result<Replica<L>, Fail> {
    let (range, passes, offers) = replica.into_parts();
    let RenewedRange {
        range,
        passes,
        kept,
    } = range.renew(alloc, passes, 1, 5).ok().ok_or("not renewed")?;
    expect_kept(&kept)?;
    Ok(Replica {
        range,
        passes,
        offers,
    })
}

/// Expects that the second pass has two receipts, and the first one none.
fn expect_carried<L: Ledger>(passes: &[Pass<L>]) -> Result<(), Fail> {
    let first = passes.first().ok_or("no pass")?;
    let second = passes.get(1).ok_or("one pass")?;
    expect(
        second.seat() == 1 && second.seen() == 2 && second.receipts().len() == 2,
        "the carrier has two receipts, and has seen both",
    )?;
    expect(
        first.seat() == 0 && first.seen() == 0 && first.receipts().is_empty(),
        "the other one has none",
    )
}

/// Expects that a key has a version of these bytes, read by the first pass.
fn expect_read<L: Ledger, R: Wait>(
    rt: &R,
    alloc: Global,
    range: &SharedRange<L>,
    passes: &mut [Pass<L>],
    key: &[u8],
    version: &str,
) -> Result<(), Fail> {
    let pass = passes.first_mut().ok_or("no pass")?;
    let versions = get(rt, alloc, range, pass, key)?;
    let held = members(alloc, &versions)?;
    expect(held.as_str() == version, "the version is held")
}

/// Expects a range of two entries, with the limit 5 and the same dirty nodes, that holds the last versions of `a` and
/// `b`.
fn expect_renewed<L: Ledger, R: Wait>(
    rt: &R,
    alloc: Global,
    replica: &mut Replica<L>,
) -> Result<(), Fail> {
    let Replica { range, passes, .. } = replica;
    let counts = count(rt, range);
    expect(
        counts.entries == 2 && counts.limit == 5 && counts.dirty == 273,
        "two versions are carried, in the same format",
    )?;
    expect_carried(passes)?;
    expect_read(rt, alloc, range, passes, b"a", "[(1, 2)] Live [120]\n")?;
    expect_read(rt, alloc, range, passes, b"b", "[(1, 1)] Live [120]\n")
}

/// Renews a shared range of three entries, and closes it.
fn renew_shared<L: Ledger, R: Wait>(rt: &R, alloc: Global, blank: Blank) -> Result<(), Fail>
    requires ledger { (blank.name ≡ L.name) × (blank.parts ≡ L.parts) × (blank.parts ≡ 2) }
{
    let config = all_keys(10)?;
    let mut replica = Replica::<L>::open(alloc, blank, 2, config)?;
    put_three(rt, alloc, &mut replica)?;
    let replica = expect_no_renewal(rt, alloc, replica)?;
    let mut replica = renew(alloc, replica)?;
    expect_renewed(rt, alloc, &mut replica)?;
    let state = replica.close(alloc)?;
    expect(state.journal().len() == 2, "two entries are closed")
}

#[test]
fn a_shared_range_is_renewed(rt: HostRuntime) -> Result<(), Fail> {
    renew_shared::<Brand, HostRuntime>(&rt, rt.alloc(), Blank::new(2))
}

/// Puts `x` under `a`.
fn put_one<L: Ledger>(
    alloc: Global,
    range: &mut LockedRange<L>,
    pass: &mut Pass<L>,
) -> Result<u64, Refusal> {
    let context = Clock::from_pairs(alloc, &[])?;
    let value = Bytes::copy_of(alloc, b"x")?;
    let receipt = range.put(alloc, pass, 1, b"a", &context, Kind::Live, value)?;
    Ok(receipt.number)
}

/// Renews a range of one entry for its seat 0, and closes it.
fn renew_with_both<L: Ledger>(alloc: Global, locked: Locked<L>) -> Result<(), Fail> {
    let (range, one, zero) = locked.into_parts();
    let mut passes = Vec::new(alloc);
    passes.push(one)?;
    passes.push(zero)?;
    let Renewed {
        range,
        passes,
        kept,
    } = range.renew(alloc, passes, 0, 5).ok().ok_or("not renewed")?;
    let closed = range.close(alloc, passes).ok().ok_or("not closed")?;
    expect(
        closed.state.journal().len() == 1 && closed.passes.len() == 2 && kept.len() == 2,
        "one entry, both passes and the earlier ones are returned",
    )
}

/// Opens a range, puts a value at its seat 1, and renews it. The proof of a test names its ledger only if the call
/// takes the runtime.
fn renew_locked<L: Ledger>(_rt: &impl Abort, alloc: Global, blank: Blank) -> Result<(), Fail>
    requires name { blank.name ≡ L.name }
    requires parts { (blank.parts ≡ L.parts) × (L.parts ≡ 2) }
{
    let mut locked = Locked::<L>::open(alloc, blank)?;
    let Locked { range, one, .. } = &mut locked;
    put_one(alloc, range, one)?;
    renew_with_both(alloc, locked)
}

#[test]
fn a_locked_range_is_renewed(rt: HostRuntime) -> Result<(), Fail> {
    renew_locked::<Brand>(&rt, rt.alloc(), Blank::new(2))
}
