//! The slots of a script.
ghost use Rattle.std.specs.Prelude.{◌≡◌, None, IsTrue};
ghost use Rattle.vclock.specs.Answer.{Answers};
ghost use Rattle.vclock.specs.Outcome.{Does, DoesOrBreaksOff};
ghost use Rattle.admission.specs.Admission.{lend};
ghost use Rattle.outage_cluster.specs.Slots.{given_back, is_target, sample_act, slot_act};
ghost use Rattle.outage_cluster.specs.State.{first_slots};

use crate::answer::{CommandAnswer, SlotCounts};
use admission::{Controller, Slot};
use outage_commands::{NewSample, SlotCommand};
use std::alloc::Global;
use std::marker::Model;
use std::sync::ledger::{Blank, Ledger};
use vclock::Refusal;

/// The minimum number of slots.
const FLOOR: u32 = 1;

/// The maximum number of slots.
const CEILING: u32 = 8;

/// The latency, in microseconds, over which the number of slots falls.
const THRESHOLD: u32 = 50_000;

/// A controller of slots, and the slots that are lent.
pub(crate) struct Slots<L: Ledger> {
    controller: Controller<L>,
    lent: Vec<Slot<L>>,
}

impl<L: Ledger> Model for Slots<L> {
    ghost use Rattle.std.specs.Prelude.{◌≡◌, vec_len};
    ghost use Rattle.admission.specs.Admission.{Admission};

    ghost Value = { Admission };

    ghost view = { λ s. s.controller };

    ghost invariant = { λ s. (vec_len s.lent ≡ s.controller.slots)
        × (s.controller.floor ≡ 1) × (s.controller.ceiling ≡ 8) × (s.controller.threshold ≡ 50000) };
}

impl<L: Ledger> Slots<L> {
    /// Makes slots, all of them free.
    pub(crate) fn new(blank: Blank, alloc: Global) -> Result<Slots<L>, Refusal>
        requires ledger { (blank.name ≡ L.name) × (blank.parts ≡ L.parts) × (blank.parts ≡ 1024) }
        ensures { Answers result None (λ slots. slots ≡ first_slots) }
    {
        let controller = Controller::new(blank, alloc, FLOOR, CEILING, THRESHOLD)?;
        Ok(Slots {
            controller,
            lent: Vec::new(alloc),
        })
    }

    /// Returns true if the controller may have the target.
    pub(crate) fn is_target(&self, command: &SlotCommand) -> bool
        ensures { result ≡ is_target self.now command.now }
    {
        // Read only for the proof: the controller has this floor and this ceiling.
        let _bounds = &self.controller;
        match command {
            SlotCommand::Target(n) => u64::from(FLOOR) <= *n && *n <= u64::from(CEILING),
            SlotCommand::Lend | SlotCommand::Back | SlotCommand::Adjust(_) => true,
        }
    }

    /// Lends a slot. Reserves memory for it first.
    pub(crate) fn lend(&mut self) -> Result<(), Refusal>
        ensures { Does result self.old self.new (lend self.old) }
    {
        if self.controller.free() == 0 {
            return Err(Refusal::NoSlot);
        }
        self.lent.reserve(1)?;
        let slot = self.controller.lend()?;
        self.lent.push_reserved(slot);
        Ok(())
    }

    /// Takes back the slot that was lent last, if one is lent.
    pub(crate) fn give_back(&mut self)
        ensures { self.new ≡ given_back self.old }
    {
        if let Some(slot) = self.lent.pop() {
            self.controller.give_back(slot);
        }
    }

    /// Takes all slots back, and discards all samples.
    pub(crate) fn renew(&mut self)
        ensures { self.new ≡ first_slots }
    {
        while let Some(slot) = self.lent.pop() {
            self.controller.give_back(slot);
        }
        self.controller.reset();
    }

    /// Takes all slots back at the end.
    pub(crate) fn close(self) {
        let Slots {
            mut controller,
            mut lent,
        } = self;
        while let Some(slot) = lent.pop() {
            controller.give_back(slot);
        }
        lent.destroy_empty();
    }

    /// Acts on a command for the slots.
    #[tactic(auto, unfolding(crate::specs::Slots::slot_act))]
    pub(crate) fn act(&mut self, command: SlotCommand) -> Result<CommandAnswer, Refusal>
        requires { IsTrue (is_target self.old command) }
        ensures { DoesOrBreaksOff result self.old self.new (slot_act command self.old) }
    {
        match command {
            SlotCommand::Lend => self.lend()?,
            SlotCommand::Back => self.give_back(),
            SlotCommand::Target(n) => self.controller.set_target(n as u32),
            SlotCommand::Adjust(now) => {
                let percentile = self.controller.adjust(now)?;
                return Ok(CommandAnswer::Adjusted(SlotCounts::of(&self.controller), percentile));
            }
        }
        Ok(CommandAnswer::Slots(SlotCounts::of(&self.controller)))
    }

    /// Records a sample, and returns the number of kept samples.
    #[tactic(auto, unfolding(crate::specs::Slots::sample_act))]
    pub(crate) fn sample(&mut self, sample: NewSample) -> Result<CommandAnswer, Refusal>
        ensures { DoesOrBreaksOff result self.old self.new (sample_act sample self.old) }
    {
        let kept = self.controller.sample(sample.moment, sample.micros)?;
        Ok(CommandAnswer::Sample(kept))
    }
}
