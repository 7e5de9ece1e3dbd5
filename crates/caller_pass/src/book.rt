//! The book that counts the receipts of passes.
ghost use Rattle.std.specs.Prelude.{◌≡◌, ◌+◌, ◌<◌, ◌≤◌, ◌++◌, [], length, map, vec_len, None, OnOk, IfErr};
ghost use Rattle.std.specs.Vec.{vec_capacity};
ghost use Rattle.vclock.specs.Answer.{Answers};
ghost use Rattle.caller_pass.specs.Passes.{new_book, new_passes, counted, absorbed, receipts_of, seen_after};
ghost use Rattle.caller_pass.specs.Closings.{AllThere};
ghost use Rattle.caller_pass.specs.Renewals.{carried_passes, pass_of};

use crate::pass::Pass;
use crate::reading::Reading;
use crate::receipt_index::ByKey;
use range_journal::Journal;
use range_state::Receipt;
use std::alloc::Global;
use std::marker::Model;
use std::mem::replace;
use std::sync::ledger::{self, Blank, Ledger, Share};
use vclock::Refusal;

/// The count of a range's entries, and the passes returned to it. Its ledger ties it to the passes that were made with
/// it, so a pass of another range doesn't compile in its place.
///
/// ```
/// let (book, mut passes) = open_passes::<L>(blank, alloc, 2)?;
/// let one = passes.pop().ok_or("no pass")?;
/// let zero = passes.pop().ok_or("one pass")?;
/// Ok(Locked {
///     range: LockedRange::new(state, book),
///     one,
///     zero,
/// })
/// ```
pub struct Book<L: Ledger> {
    count: ledger::Book<L>,
    seats: u16,
    kept: Vec<ReturnedPass>,
    share: Share<L>,
}

/// A pass that was returned, without its share, so it can't be used as a `Pass` any more.
#[derive(Drop)]
pub struct ReturnedPass {
    /// The number of the caller, from 0.
    pub seat: u16,
    /// The number of entries of the journal that the caller had seen.
    pub seen: u64,
    /// The entries that the caller made, in order.
    pub receipts: Vec<Receipt>,
    /// The readings of the caller, in order.
    pub readings: Vec<Reading>,
}

impl<L: Ledger> Model for Book<L> {
    ghost use Rattle.std.specs.Prelude.{◌≡◌, map, vec_len};
    ghost use Rattle.caller_pass.specs.Passes.{BookView, receipts_of};

    ghost Value = { BookView };

    ghost view = { λ b. record {
      number = b.count.total;
      seats = b.seats;
      passes = map (λ p. record {
        seat = p.seat;
        seen = p.seen;
        share = vec_len p.receipts;
        receipts = p.receipts.items;
        readings = p.readings.items;
      }) b.kept.items;
    } };

    ghost invariant = { λ b. (b.seats ≡ L.parts) × (b.share.parts ≡ vec_len b.kept) × (b.share.amount ≡ receipts_of (map (λ p. record {
      seat = p.seat;
      seen = p.seen;
      share = vec_len p.receipts;
      receipts = p.receipts.items;
      readings = p.readings.items;
    }) b.kept.items)) };
}

/// Makes the book of a range, and a pass for each of its seats, 1 to 64, in the order of their numbers, from 0.
/// Refused: NoMemory.
pub fn open_passes<L: Ledger>(
    blank: Blank,
    alloc: Global,
    seats: u16,
) -> Result<(Book<L>, Vec<Pass<L>>), Refusal>
    requires name { blank.name ≡ L.name }
    requires parts { (blank.parts ≡ L.parts) × (L.parts ≡ seats) }
    requires few { (1 ≤ seats) × (seats ≤ 64) }
    ensures { Answers result None (λ opened. (opened.0 ≡ new_book seats) × (opened.1.items ≡ new_passes seats)) }
{
    let (count, mut rest) = blank.open::<L>();
    let mut passes = Vec::new(alloc);
    for seat in 0..seats {
        let share = rest.split_off(1, 0);
        passes.push(Pass {
            seat,
            seen: 0,
            receipts: Vec::new(alloc),
            readings: Vec::new(alloc),
            by_key: ByKey::new(alloc),
            share,
        })?;
    }
    let book = Book {
        count,
        seats,
        kept: Vec::new(alloc),
        share: rest,
    };
    Ok((book, passes))
}

/// A pass that a book couldn't take back.
#[derive(Drop)]
pub struct Unabsorbed<L: Ledger> {
    /// The pass.
    pub pass: Pass<L>,
}

impl<L: Ledger> Book<L> {
    /// The number of seats.
    pub fn seats(&self) -> u16
        ensures value { result ≡ self.now.seats }
        ensures all { self.now.seats ≡ L.parts }
    {
        self.seats
    }

    /// Counts new entries of a caller, also in the caller's share. If there are any, the caller has seen the journal up
    /// to them.
    pub(crate) fn count(
        &mut self,
        share: &mut Share<L>,
        seen: &mut u64,
        journal: &Journal,
        entries: u64,
    )
        requires { 0 < share.old.parts }
        ensures book { self.new ≡ counted self.old entries }
        ensures amount { share.new.amount ≡ share.old.amount + entries }
        ensures parts { share.new.parts ≡ share.old.parts }
        ensures seen { seen.new ≡ seen_after seen.old (length journal.now.entries) entries }
    {
        self.count.add(share, entries);
        if entries > 0 {
            *seen = (*seen).max(journal.len());
        }
    }

    /// Takes a pass back. Refused: NoMemory, with the pass.
    pub fn absorb(&mut self, pass: Pass<L>) -> Result<(), Unabsorbed<L>>
        ensures ok { OnOk result (self.new ≡ absorbed self.old pass) }
        ensures err { IfErr result (λ refused. (refused.pass ≡ pass) × (self.new ≡ self.old)) }
    {
        if self.kept.reserve(1).is_err() {
            return Err(Unabsorbed { pass });
        }
        let Pass {
            seat,
            seen,
            receipts,
            readings,
            by_key: _,
            share,
        } = pass;
        self.share.merge(share);
        self.kept.push_reserved(ReturnedPass {
            seat,
            seen,
            receipts,
            readings,
        });
        Ok(())
    }

    /// Proves that the number of the passes' receipts is the book's count. The passes of all seats must be back.
    pub fn settle(&mut self)
        requires { length self.old.passes ≡ self.old.seats }
        ensures same { self.new ≡ self.old }
        ensures sum { receipts_of self.old.passes ≡ self.old.number }
    {
        self.count.audit(&mut self.share);
    }

    /// Takes the book and the passes of all seats apart, and makes a book and passes of the same ledger. The pass of
    /// `seat` gets the receipts, and has seen them; the other passes are empty. `entries` is the count so far. Returns
    /// the book, its passes, and the passes that were taken, in order. Doesn't allocate.
    pub(crate) fn renew(
        self,
        alloc: Global,
        entries: u64,
        passes: Vec<Pass<L>>,
        room: Room<L>,
        seat: u16,
        receipts: Vec<Receipt>,
    ) -> (Book<L>, Vec<Pass<L>>, Vec<ReturnedPass>)
        requires entries { self.number ≡ entries }
        requires there { AllThere L.parts passes.items }
        requires seat { seat < L.parts }
        requires none { (room.passes.items ≡ []) × (room.kept.items ≡ []) }
        requires room { (L.parts ≤ vec_capacity room.passes) × (length passes.items ≤ vec_capacity room.kept) }
        ensures book { result.0 ≡ record { number = length receipts.items; seats = self.seats; passes = [] } }
        ensures passes { result.1.items ≡ carried_passes seat receipts.items L.parts }
        ensures kept { map pass_of result.2.items ≡ passes.items }
    {
        let Book {
            mut count,
            seats,
            kept: _,
            mut share,
        } = self;
        let Room { passes: new, kept } = room;
        let kept = gather(&mut share, passes, kept);
        count.audit(&mut share);
        count.sub(&mut share, entries);
        let passes = deal(alloc, &mut count, &mut share, seats, new, seat, receipts);
        let book = Book {
            count,
            seats,
            kept: Vec::new(alloc),
            share,
        };
        (book, passes, kept)
    }
}

/// Reserved lists for a renewal: for the new passes, and for the passes that are taken back.
#[derive(Drop)]
pub(crate) struct Room<L: Ledger> {
    pub(crate) passes: Vec<Pass<L>>,
    pub(crate) kept: Vec<ReturnedPass>,
}

impl<L: Ledger> Room<L> {
    /// Reserves capacity for the new passes, and for those that are taken back. Refused: NoMemory.
    pub(crate) fn new(alloc: Global, seats: u16, passes: usize) -> Result<Room<L>, Refusal>
        ensures { Answers result None (λ room. (room.passes.items ≡ []) × (room.kept.items ≡ [])
            × (seats ≤ vec_capacity room.passes) × (passes ≤ vec_capacity room.kept)) }
    {
        let kept = Vec::with_capacity(alloc, passes)?;
        let passes = Vec::with_capacity(alloc, seats as usize)?;
        Ok(Room { passes, kept })
    }
}

/// Takes passes back in order, into a list with enough capacity, and merges their shares.
fn gather<L: Ledger>(
    share: &mut Share<L>,
    mut passes: Vec<Pass<L>>,
    mut kept: Vec<ReturnedPass>,
) -> Vec<ReturnedPass>
    requires none { kept.items ≡ [] }
    requires room { length passes.items ≤ vec_capacity kept }
    ensures kept { map pass_of result.items ≡ passes.items }
    ensures parts { share.new.parts ≡ share.old.parts + length passes.items }
    ensures few { share.new.parts ≤ L.parts }
{
    // Called only for its clause: the share has at most all parts.
    let none = share.empty();
    share.merge(none);
    passes.reverse();
    while let Some(pass) = passes.pop() {
        let Pass {
            seat,
            seen,
            receipts,
            readings,
            by_key: _,
            share: part,
        } = pass;
        share.merge(part);
        kept.push_reserved(ReturnedPass {
            seat,
            seen,
            receipts,
            readings,
        });
    }
    passes.destroy_empty();
    kept
}

/// Makes a pass for each seat from a share that has one part per seat, into a list with enough capacity. The pass of
/// the carrier gets the receipts.
fn deal<L: Ledger>(
    alloc: Global,
    count: &mut ledger::Book<L>,
    share: &mut Share<L>,
    seats: u16,
    mut passes: Vec<Pass<L>>,
    carrier: u16,
    mut receipts: Vec<Receipt>,
) -> Vec<Pass<L>>
    requires count { count.old.total ≡ 0 }
    requires amount { share.old.amount ≡ 0 }
    requires parts { (share.old.parts ≡ seats) × (L.parts ≡ seats) }
    requires carrier { carrier < seats }
    requires none { passes.items ≡ [] }
    requires room { seats ≤ vec_capacity passes }
    ensures passes { result.items ≡ carried_passes carrier receipts.items seats }
    ensures count { count.new.total ≡ length receipts.items }
    ensures share { (share.new.parts ≡ 0) × (share.new.amount ≡ 0) }
{
    for seat in 0..seats {
        let none = Vec::new(alloc);
        let carried = if seat == carrier {
            replace(&mut receipts, none)
        } else {
            none
        };
        passes.push_reserved(make_pass(alloc, count, share, seat, carried));
    }
    passes
}

/// Makes the pass of a seat from one part of a share, with these receipts, which it has seen.
fn make_pass<L: Ledger>(
    alloc: Global,
    count: &mut ledger::Book<L>,
    share: &mut Share<L>,
    seat: u16,
    receipts: Vec<Receipt>,
) -> Pass<L>
    requires seat { seat < L.parts }
    requires part { 0 < share.old.parts }
    requires amount { share.old.amount ≡ 0 }
    ensures pass { result ≡ record { seat = seat; seen = length receipts.items; share = length receipts.items; receipts = receipts.items; readings = [] } }
    ensures count { count.new.total ≡ count.old.total + length receipts.items }
    ensures parts { share.new.parts + 1 ≡ share.old.parts }
    ensures amount { share.new.amount ≡ 0 }
{
    let mut part = share.split_off(1, 0);
    let seen = receipts.len() as u64;
    count.add(&mut part, seen);
    Pass {
        seat,
        seen,
        receipts,
        readings: Vec::new(alloc),
        by_key: ByKey::new(alloc),
        share: part,
    }
}

impl<L: Ledger> Drop for Book<L> {
    /// Keeps the fields out of the proofs of callers that drop a book.
    fn drop(self) {
        let Book {
            count: _count,
            seats: _seats,
            kept: _kept,
            share: _share,
        } = self;
    }
}
