//! The renewal of a range.
ghost use Rattle.std.specs.Prelude.{◌≡◌, ◌<◌, ◌≤◌, [], length, map, vec_len, OnOk, IfOk, IfErr, All};
ghost use Rattle.std.specs.List.{AllByRecursion};
ghost use Rattle.std.specs.Vec.{vec_capacity};
ghost use Rattle.range_state.specs.Renewals.{renewed_by};
ghost use Rattle.caller_pass.specs.Closings.{IsSettled, AllThere};
ghost use Rattle.caller_pass.specs.Renewals.{carried_passes, renewed_in, pass_of, IsUnrenewed};

use crate::book::{ReturnedPass, Room};
use crate::close::{Unclosed, check_seats, compare_each};
use crate::locked_range::LockedRange;
use crate::pass::Pass;
use range_journal::copy_entries;
use range_state::{RangeState, Receipt};
use std::alloc::Global;
use std::sync::ledger::Ledger;
use vclock::Refusal;

/// A range that was closed and opened again, with its new passes and the returned ones.
#[derive(Drop)]
pub struct Renewed<L: Ledger> {
    /// The new range.
    pub range: LockedRange<L>,
    /// Its passes, in the order of their seats.
    pub passes: Vec<Pass<L>>,
    /// The returned passes, in the order in which they were given.
    pub kept: Vec<ReturnedPass>,
}

/// The parts of a renewed range. They are made before the old one is taken apart.
#[derive(Drop)]
struct Preparation<L: Ledger> {
    state: RangeState,
    receipts: Vec<Receipt>,
    room: Room<L>,
}

impl<L: Ledger> LockedRange<L> {
    /// Closes the range like `close`, and opens a new one that begins with the versions held (see
    /// `RangeState::renewed`), with new passes. The pass of `seat` has the carried entries as receipts, and has seen
    /// them; the other passes are empty.
    ///
    /// Refused, in order: Stranger (a seat has no pass, or the range has no such seat), BadRing (the limit),
    /// JournalFull, Unsettled, NoMemory, which may replace Unsettled. On error range and passes are returned.
    pub fn renew(
        self,
        alloc: Global,
        passes: Vec<Pass<L>>,
        seat: u16,
        limit: u64,
    ) -> Result<Renewed<L>, Unclosed<L>>
        ensures range { IfOk result (λ r. r.range ≡ renewed_in self seat limit) }
        ensures passes { IfOk result (λ r.
            r.passes.items ≡ carried_passes seat (renewed_by self.state seat limit).store.entries L.parts) }
        ensures kept { IfOk result (λ r. map pass_of r.kept.items ≡ passes.items) }
        ensures there { OnOk result (AllThere L.parts passes.items) }
        ensures settled { OnOk result (All (IsSettled self.state.store.entries) passes.items) }
        ensures back { IfErr result (λ unclosed. (unclosed.range ≡ self) × (unclosed.passes.items ≡ passes.items)) }
        ensures refused { IfErr result (λ unclosed.
            IsUnrenewed L.parts self.state seat limit passes.items unclosed.refusal) }
    {
        let seats = self.book.seats();
        match prepare(alloc, &self.state, seats, &passes, seat, limit) {
            Ok(prepared) => Ok(self.carry(alloc, passes, seat, prepared)),
            Err(refusal) => Err(Unclosed {
                range: self,
                passes,
                refusal,
            }),
        }
    }

    /// Takes range and passes apart, and puts the new ones together.
    fn carry(
        self,
        alloc: Global,
        passes: Vec<Pass<L>>,
        seat: u16,
        prepared: Preparation<L>,
    ) -> Renewed<L>
        requires there { AllThere L.parts passes.items }
        requires seat { seat < L.parts }
        requires receipts { prepared.receipts.items ≡ prepared.state.store.entries }
        requires seated { AllByRecursion (λ e. e.seat < L.parts) prepared.state.store.entries }
        requires none { prepared.room.passes.items ≡ [] }
        requires room { L.parts ≤ vec_capacity prepared.room.passes }
        requires kept { (prepared.room.kept.items ≡ []) × (length passes.items ≤ vec_capacity prepared.room.kept) }
        ensures state { result.range.state ≡ prepared.state }
        ensures book { result.range.book
            ≡ record { number = length prepared.state.store.entries; seats = self.book.seats; passes = [] } }
        ensures passes { result.passes.items ≡ carried_passes seat prepared.state.store.entries L.parts }
        ensures kept { map pass_of result.kept.items ≡ passes.items }
    {
        let LockedRange { state: old, book } = self;
        let Preparation {
            state,
            receipts,
            room,
        } = prepared;
        let entries = old.journal().len();
        let (book, passes, kept) = book.renew(alloc, entries, passes, room, seat, receipts);
        // Called only for its clause: the state is valid.
        let _right = state.journal();
        let range = LockedRange { state, book };
        Renewed {
            range,
            passes,
            kept,
        }
    }
}

/// Makes the parts of a renewed range, after testing the limit and comparing each pass with the journal.
fn prepare<L: Ledger>(
    alloc: Global,
    state: &RangeState,
    seats: u16,
    passes: &Vec<Pass<L>>,
    seat: u16,
    limit: u64,
) -> Result<Preparation<L>, Refusal>
    requires { seats ≡ L.parts }
    ensures seat { OnOk result (seat < seats) }
    ensures there { OnOk result (AllThere seats passes.now.items) }
    ensures settled { OnOk result (All (IsSettled state.now.store.entries) passes.now.items) }
    ensures state { IfOk result (λ p. p.state ≡ renewed_by state.now seat limit) }
    ensures receipts { IfOk result (λ p. p.receipts.items ≡ p.state.store.entries) }
    ensures seated { IfOk result (λ p. AllByRecursion (λ e. e.seat < seats) p.state.store.entries) }
    ensures none { IfOk result (λ p. (p.room.passes.items ≡ []) × (p.room.kept.items ≡ [])) }
    ensures room { IfOk result (λ p. (seats ≤ vec_capacity p.room.passes)
        × (length passes.now.items ≤ vec_capacity p.room.kept)) }
    ensures refused { IfErr result (IsUnrenewed seats state.now seat limit passes.now.items) }
{
    if seat >= seats {
        return Err(Refusal::Stranger);
    }
    check_seats(seats, passes)?;
    state.store().check_limit(limit)?;
    compare_each(alloc, state, seats, passes)?;
    let state = state.renewed(alloc, seat, limit)?;
    let receipts = copy_entries(alloc, state.journal().entries())?;
    let room = Room::new(alloc, seats, passes.len())?;
    Ok(Preparation {
        state,
        receipts,
        room,
    })
}
