//! A controller of slots.
ghost use Rattle.std.specs.Prelude.{◌≡◌, ◌+◌, ◌-◌, ◌≤◌, IfOk, [], None, MatchOption};
ghost use Rattle.vclock.specs.Answer.{Answers};
ghost use Rattle.vclock.specs.Outcome.{DoesAtOnce, ChangesAtOnce};
ghost use Rattle.admission.specs.Admission.{IsAdmission, fresh_admission, free_of, allowance_of, lend, sample, adjust, window_of, IsPercentile};

use crate::budget::SlotBudget;
use crate::slot::Slot;
use std::alloc::Global;
use std::marker::Model;
use std::sync::ledger::{Blank, Book, Ledger, Share};
use vclock::Refusal;

/// Admission control for background work: lends slots up to a target that follows the latency of the foreground
/// (section 6.5 of the Dynamo paper).
///
/// Moments are in milliseconds, latencies in microseconds. The slots are parts of a ledger, which counts them. A slot
/// can't be dropped, so every borrower must return it. On error a controller is unchanged. Only `new` allocates.
///
/// ```
/// controller.set_target(3);
/// expect_slots(&controller, 3, 0, 3)?;
/// controller.reset();
/// expect_slots(&controller, 8, 0, 8)?;
/// ```
pub struct Controller<L: Ledger> {
    budget: SlotBudget,
    book: Book<L>,
    spare: Share<L>,
}

impl<L: Ledger> Model for Controller<L> {
    ghost use Rattle.std.specs.Prelude.{◌≡◌, ◌+◌};
    ghost use Rattle.admission.specs.Admission.{Admission};

    ghost Value = { Admission };

    ghost view = { λ c. record c.budget { slots = c.book.total } };

    ghost invariant = { λ c. (c.budget.slots ≡ c.book.total) × (c.spare.amount ≡ 0) × (c.spare.parts + c.budget.slots ≡ 1024) };
}

impl<L: Ledger> Controller<L> {
    /// Creates a controller whose target is the ceiling, with no slot lent and no sample, that accepts moments from 0
    /// on.
    ///
    /// The target stays within the floor and the ceiling, 1 to 1,024 slots. It falls if the latency is over the
    /// threshold, in microseconds.
    ///
    /// Refused: NoMemory.
    pub fn new(
        blank: Blank,
        alloc: Global,
        floor: u32,
        ceiling: u32,
        threshold: u32,
    ) -> Result<Controller<L>, Refusal>
        requires ledger { (blank.name ≡ L.name) × (blank.parts ≡ L.parts) × (blank.parts ≡ 1024) }
        requires bounds { (1 ≤ floor) × (floor ≤ ceiling) × (ceiling ≤ 1024) }
        ensures { Answers result None (λ c. c ≡ fresh_admission floor ceiling threshold) }
    {
        let budget = SlotBudget::new(alloc, floor, ceiling, threshold)?;
        let (book, spare) = blank.open::<L>();
        Ok(Controller {
            budget,
            book,
            spare,
        })
    }

    /// Returns the number of slots lent, 0 to 1,024.
    pub fn lent(&self) -> u32
        ensures counted { result ≡ self.now.slots }
        ensures valid { IsAdmission self.now }
    {
        self.budget.lent()
    }

    /// Returns the number of slots that could be lent now: the target without the slots lent.
    pub fn free(&self) -> u32
        ensures { result ≡ free_of self.now }
    {
        self.budget.free()
    }

    /// Returns the number of slots that are lent or could be: the target, or the slots lent if the target fell below
    /// that number.
    pub fn allowance(&self) -> u32
        ensures value { result ≡ allowance_of self.now }
        ensures sum { result ≡ self.now.slots + free_of self.now }
    {
        self.budget.allowance()
    }

    /// Returns the target: the maximum number of slots lent, from the floor to the ceiling.
    pub fn target(&self) -> u32
        ensures { result ≡ self.now.target }
    {
        self.budget.target()
    }

    /// Lends a slot. The borrower must give it back, since it can't be dropped.
    ///
    /// Refused: NoSlot (the slots lent reach or exceed the target).
    pub fn lend(&mut self) -> Result<Slot<L>, Refusal>
        ensures { ChangesAtOnce result self.old self.new (lend self.old) }
    {
        self.budget.lend()?;
        let mut share = self.spare.split_off(1, 0);
        self.book.add(&mut share, 1);
        Ok(Slot { share })
    }

    /// Takes a slot back.
    pub fn give_back(&mut self, slot: Slot<L>)
        ensures there { 1 ≤ self.old.slots }
        ensures back { self.new ≡ record self.old { slots = self.old.slots - 1 } }
    {
        let Slot { mut share } = slot;
        self.book.audit(&mut share);
        self.book.sub(&mut share, 1);
        self.spare.merge(share);
        self.budget.give_back().unwrap();
    }

    /// Sets the target, from the floor to the ceiling. Slots that are lent stay lent.
    pub fn set_target(&mut self, target: u32)
        requires { (self.old.floor ≤ target) × (target ≤ self.old.ceiling) }
        ensures { self.new ≡ record self.old { target = target } }
    {
        self.budget.set_target(target);
    }

    /// Resets a controller with no slot lent to its state after `new`.
    pub fn reset(&mut self)
        requires { self.old.slots ≡ 0 }
        ensures { self.new ≡ fresh_admission self.old.floor self.old.ceiling self.old.threshold }
    {
        self.budget.reset();
    }

    /// Records the latency of a reply of the foreground, in microseconds, with its moment in milliseconds, and returns
    /// the number of samples kept: the last 1,024.
    ///
    /// Refused: ClockBack (a later moment was accepted before).
    pub fn sample(&mut self, moment: u64, micros: u32) -> Result<u32, Refusal>
        ensures { DoesAtOnce result self.old self.new (sample self.old moment micros) }
    {
        self.budget.sample(moment, micros)
    }

    /// Sets the target by the samples of the last 60,000 milliseconds, and returns their 99th percentile in
    /// microseconds: the smallest latency that at least 99 of 100 don't exceed. Without such samples it returns `None`
    /// and leaves the target unchanged.
    ///
    /// Over the threshold the target becomes half, rounded down, but not below the floor. At half of the threshold or
    /// less it rises by one, but not above the ceiling.
    ///
    /// Refused: ClockBack (a later moment was accepted before).
    pub fn adjust(&mut self, now: u64) -> Result<Option<u32>, Refusal>
        ensures adjusts { DoesAtOnce result self.old self.new (adjust self.old now) }
        ensures fact { IfOk result (λ found. MatchOption found (window_of now self.old.samples ≡ []) (IsPercentile (window_of now self.old.samples))) }
    {
        self.budget.adjust(now)
    }
}

impl<L: Ledger> Drop for Controller<L> {
    /// Keeps the fields out of the proofs of callers that drop a controller.
    fn drop(self) {
        let Controller {
            budget: _budget,
            book: _book,
            spare: _spare,
        } = self;
    }
}
