//! The slots of the nodes' workers, and the same slots by the definitions.
ghost use Rattle.std.specs.Prelude.{◌≡◌};

use admission::{Controller, Slot};
use plain_model::slots::{CEILING, FLOOR, PlainSlots, THRESHOLD};
use plain_model::trouble::{Trouble, expect};
use ring_node::SharedController;
use std::alloc::Global;
use std::sync::ledger::{Blank, Ledger};
use std::sync::{Mutex, Wait};
use vclock::Refusal;

/// A controller, with the same slots by the definitions.
pub(crate) struct Slots<C: Ledger> {
    controller: SharedController<C>,
    plain: Mutex<PlainSlots>,
}

impl<C: Ledger> Slots<C> {
    /// Returns slots that are all free.
    pub(crate) fn new(alloc: Global, blank: Blank) -> Result<Slots<C>, Refusal>
        requires { (blank.name ≡ C.name) × (blank.parts ≡ C.parts) × (blank.parts ≡ 1024) }
    {
        let controller = Controller::<C>::new(blank, alloc, FLOOR, CEILING, THRESHOLD)?;
        Ok(Slots {
            controller: SharedController::new(controller),
            plain: Mutex::new(PlainSlots::new(alloc)),
        })
    }

    /// Lends a slot if one is free.
    pub(crate) fn lend<R: Wait>(&self, rt: &R) -> Result<Slot<C>, Refusal> {
        let mut plain = self.plain.lock(rt);
        let slot = self.controller.lend(rt)?;
        plain.lent = plain.lent.wrapping_add(1);
        Ok(slot)
    }

    /// Takes a slot back.
    pub(crate) fn give_back<R: Wait>(&self, rt: &R, slot: Slot<C>) {
        let mut plain = self.plain.lock(rt);
        self.controller.give_back(rt, slot);
        plain.lent = plain.lent.wrapping_sub(1);
    }

    /// Compares the counts.
    pub(crate) fn check<R: Wait>(&self, rt: &R) -> Result<(), Trouble> {
        let plain = self.plain.lock(rt);
        let counts = self.controller.counts(rt);
        let same = counts.lent == plain.lent
            && counts.free == plain.free()
            && counts.allowance == plain.lent.wrapping_add(plain.free());
        expect(same, "the counts of slots")
    }

    /// Compares the refusal of a slot.
    pub(crate) fn check_refused<R: Wait>(&self, rt: &R, refusal: &Refusal) -> Result<(), Trouble> {
        let is_due = self.plain.lock(rt).free() == 0 && matches!(refusal, Refusal::NoSlot);
        expect(is_due, "the refusal of a slot")
    }

    /// Keeps a sample, this number of milliseconds after the last moment.
    pub(crate) fn sample<R: Wait>(&self, rt: &R, after: u64, micros: u32) -> Result<(), Trouble> {
        let mut plain = self.plain.lock(rt);
        if let Some(back) = plain.latest.checked_sub(1) {
            let refused = self.controller.sample(rt, back, micros);
            let is_due = matches!(refused, Err(Refusal::ClockBack));
            expect(is_due, "the refusal of a sample")?;
        }
        let moment = plain.latest.saturating_add(after);
        let count = plain.sample(moment, micros)?;
        let reply = self.controller.sample(rt, moment, micros)?;
        expect(reply == count, "the number of samples")
    }

    /// Adjusts the target, this number of milliseconds after the last moment.
    pub(crate) fn adjust<R: Wait>(&self, rt: &R, after: u64) -> Result<(), Trouble> {
        let mut plain = self.plain.lock(rt);
        let now = plain.latest.saturating_add(after);
        let found = plain.adjust(now);
        let reply = self.controller.adjust(rt, now)?;
        expect(reply == found, "the percentile of samples")
    }
}

impl<C: Ledger> Drop for Slots<C> {
    /// Keeps the fields out of the proofs of callers that drop the slots.
    fn drop(self) {
        let Slots {
            controller: _controller,
            plain: _plain,
        } = self;
    }
}
