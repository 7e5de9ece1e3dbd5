//! The close of a range.
ghost use Rattle.std.specs.Prelude.{◌≡◌, ◌<◌, ◌↔◌, false, true, Some, None, slice_get, IsTrue, OnOk, IfOk, IfErr, MatchOption, All};
ghost use Rattle.vclock.specs.Answer.{Answers};
ghost use Rattle.caller_pass.specs.Locks.{IsLocked};
ghost use Rattle.caller_pass.specs.Passes.{AreInOrder};
ghost use Rattle.caller_pass.specs.Closings.{of_seat, IsTrueReading, IsSettled, DifferAt, IsFalseAt, DiffersFirst, HasSeat, AllThere, SomeIsMissing, SeatDiffers, IsUnclosed};

use crate::locked_range::LockedRange;
use crate::pass::Pass;
use crate::reading::Reading;
use range_journal::{Entry, Replay};
use range_state::{RangeState, Receipt};
use std::alloc::Global;
use std::sync::ledger::Ledger;
use vclock::{PassPart, Refusal};

/// A closed range. Each pass was returned and settled: its receipts are the entries of its seat, and its readings agree
/// with the journal.
///
/// ```
/// let closed = range.close(alloc, passes).ok().ok_or("not closed")?;
/// expect(
///     closed.state.journal().len() == 2 && closed.passes.len() == 2,
///     "two entries and both passes are returned",
/// )
/// ```
#[derive(Drop)]
pub struct Closed<L: Ledger> {
    /// The range.
    pub state: RangeState,
    /// Its passes.
    pub passes: Vec<Pass<L>>,
}

/// A range that wasn't closed or renewed, with its passes and the cause, so nothing is lost.
///
/// ```
/// let Unclosed {
///     range,
///     mut passes,
///     refusal,
/// } = range.close(alloc, passes).err().ok_or("closed")?;
/// let is_stranger = matches!(&refusal, Refusal::Stranger);
/// ```
#[derive(Drop)]
pub struct Unclosed<L: Ledger> {
    /// The range.
    pub range: LockedRange<L>,
    /// The passes.
    pub passes: Vec<Pass<L>>,
    /// The cause: Stranger, Unsettled or NoMemory; of a renewal also BadRing or JournalFull, before Unsettled.
    pub refusal: Refusal,
}

impl<L: Ledger> LockedRange<L> {
    /// Closes the range, if each seat has a pass, and each pass agrees with the journal: its receipts are the entries
    /// of its seat, in order, and each of its readings has the versions that the journal held for the key at the
    /// reading's front.
    ///
    /// Refused, in order: Stranger (a seat has no pass), Unsettled (a pass and the journal differ; it has the first
    /// difference: by seat, in a pass receipts before readings), NoMemory, which may replace Unsettled. On error range
    /// and passes are returned.
    pub fn close(self, alloc: Global, passes: Vec<Pass<L>>) -> Result<Closed<L>, Unclosed<L>>
        ensures closed { IfOk result (λ closed. (closed.state ≡ self.state) × (closed.passes.items ≡ passes.items)) }
        ensures there { OnOk result (AllThere L.parts passes.items) }
        ensures settled { OnOk result (All (IsSettled self.state.store.entries) passes.items) }
        ensures right { OnOk result (IsLocked L.parts self) }
        ensures back { IfErr result (λ unclosed. (unclosed.range ≡ self) × (unclosed.passes.items ≡ passes.items)) }
        ensures refused { IfErr result (λ unclosed. IsUnclosed L.parts self.state.store.entries passes.items unclosed.refusal) }
    {
        let seats = self.book.seats();
        match compare(alloc, &self.state, seats, &passes) {
            Ok(()) => {
                let LockedRange { state, book: _ } = self;
                Ok(Closed { state, passes })
            }
            Err(refusal) => Err(Unclosed {
                range: self,
                passes,
                refusal,
            }),
        }
    }
}

/// Compares all passes with the journal, if each seat has a pass.
fn compare<L: Ledger>(
    alloc: Global,
    state: &RangeState,
    seats: u16,
    passes: &Vec<Pass<L>>,
) -> Result<(), Refusal>
    requires { seats ≡ L.parts }
    ensures there { OnOk result (AllThere seats passes.now.items) }
    ensures settled { OnOk result (All (IsSettled state.now.store.entries) passes.now.items) }
    ensures refused { IfErr result (IsUnclosed seats state.now.store.entries passes.now.items) }
{
    check_seats(seats, passes)?;
    compare_each(alloc, state, seats, passes)
}

/// Tests that each seat has a pass. Refused: Stranger.
pub(crate) fn check_seats<L: Ledger>(seats: u16, passes: &Vec<Pass<L>>) -> Result<(), Refusal>
    ensures there { OnOk result (AllThere seats passes.now.items) }
    ensures refused { IfErr result (λ e. (e ≡ Refusal.Stranger) × SomeIsMissing seats passes.now.items) }
{
    if !all_there(seats, passes) {
        return Err(Refusal::Stranger);
    }
    Ok(())
}

/// Compares the pass of each seat with the journal.
pub(crate) fn compare_each<L: Ledger>(
    alloc: Global,
    state: &RangeState,
    seats: u16,
    passes: &Vec<Pass<L>>,
) -> Result<(), Refusal>
    requires seats { seats ≡ L.parts }
    requires there { AllThere seats passes.now.items }
    ensures settled { OnOk result (All (IsSettled state.now.store.entries) passes.now.items) }
    ensures refused { IfErr result (IsUnclosed seats state.now.store.entries passes.now.items) }
{
    seats_below(passes);
    for seat in 0..seats {
        match seat_differs(alloc, state, passes, seat) {
            Ok(None) => {}
            Ok(Some((part, place))) => return Err(Refusal::Unsettled { seat, part, place }),
            Err(refusal) => return Err(refusal),
        }
    }
    Ok(())
}

/// Proves that each pass has a seat of the ledger.
fn seats_below<L: Ledger>(passes: &Vec<Pass<L>>)
    ensures { All (λ p. p.seat < L.parts) passes.now.items }
{
    for pass in passes {
        let _seat = pass.seat();
    }
}

/// Returns true if each seat has a pass.
fn all_there<L: Ledger>(seats: u16, passes: &Vec<Pass<L>>) -> bool
    ensures yes { result ≡ true → AllThere seats passes.now.items }
    ensures no { result ≡ false → SomeIsMissing seats passes.now.items }
{
    for seat in 0..seats {
        if !has_seat(passes, seat) {
            return false;
        }
    }
    true
}

/// Returns true if some pass has the seat.
fn has_seat<L: Ledger>(passes: &Vec<Pass<L>>, seat: u16) -> bool
    ensures { IsTrue result ↔ HasSeat passes.now.items seat }
{
    passes.iter().any(|pass| pass.seat() == seat)
}

/// Finds the first difference between the pass of a seat and the journal.
fn seat_differs<L: Ledger>(
    alloc: Global,
    state: &RangeState,
    passes: &Vec<Pass<L>>,
    seat: u16,
) -> Result<Option<(PassPart, u64)>, Refusal>
    ensures { Answers result None (λ found. MatchOption found
        (All (λ p. p.seat ≡ seat → IsSettled state.now.store.entries p) passes.now.items)
        (SeatDiffers seat state.now.store.entries passes.now.items)) }
{
    for pass in passes {
        if pass.seat == seat {
            let differs = pass_differs(alloc, state, pass)?;
            if differs.is_some() {
                return Ok(differs);
            }
        }
    }
    Ok(None)
}

/// Finds the first difference between a pass and the journal.
fn pass_differs<L: Ledger>(
    alloc: Global,
    state: &RangeState,
    pass: &Pass<L>,
) -> Result<Option<(PassPart, u64)>, Refusal>
    ensures { Answers result None (λ found. MatchOption found (IsSettled state.now.store.entries pass.now)
        (λ at. DiffersFirst state.now.store.entries pass.now at.0 at.1)) }
{
    if let Some(place) = receipts_differ(&pass.receipts, pass.seat, state.journal().entries()) {
        return Ok(Some((PassPart::Receipt, place as u64)));
    }
    if let Some(place) = readings_differ(alloc, state, &pass.readings)? {
        return Ok(Some((PassPart::Reading, place as u64)));
    }
    Ok(None)
}

/// Finds the first place at which the receipts differ from the entries of the seat.
fn receipts_differ(receipts: &[Receipt], seat: u16, entries: &[Entry]) -> Option<usize>
    ensures { MatchOption result (receipts.now ≡ of_seat seat entries.now)
        (DifferAt receipts.now (of_seat seat entries.now)) }
{
    let mut count = 0;
    for entry in entries {
        if entry.seat == seat {
            if !is_at(receipts, count, entry) {
                return Some(count);
            }
            count += 1;
        }
    }
    if count < receipts.len() {
        Some(count)
    } else {
        None
    }
}

/// Returns true if an entry is at a place.
fn is_at(receipts: &[Receipt], place: usize, entry: &Entry) -> bool
    ensures { IsTrue result ↔ (slice_get receipts.now place ≡ Some entry.now) }
{
    match receipts.get(place) {
        Some(receipt) => receipt.same(entry),
        None => false,
    }
}

/// Finds the first reading that differs from the versions that the journal held at its front. The journal is replayed
/// once for all readings, which are in order.
fn readings_differ(
    alloc: Global,
    state: &RangeState,
    readings: &[Reading],
) -> Result<Option<usize>, Refusal>
    requires { AreInOrder readings.now }
    ensures { Answers result None (λ found. MatchOption found (All (IsTrueReading state.now.store.entries) readings.now)
        (IsFalseAt state.now.store.entries readings.now)) }
{
    let journal = state.journal();
    let mut replay = Replay::new(alloc, journal.entries());
    for (i, reading) in readings.iter().enumerate() {
        if reading.front > journal.len() {
            return Ok(Some(i));
        }
        replay.advance(alloc, reading.front)?;
        if !replay.holds(reading.key.as_slice(), &reading.versions) {
            return Ok(Some(i));
        }
    }
    Ok(None)
}
