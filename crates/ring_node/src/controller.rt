//! A controller of slots that threads share.
ghost use Rattle.std.specs.Prelude.{◌≡◌, ◌+◌};
ghost use Rattle.vclock.specs.Outcome.{DoesAtOnce, ChangesAtOnce};
ghost use Rattle.admission.specs.Admission.{IsAdmission, lend, sample, adjust};
ghost use Rattle.ring_node.specs.Moments.{FoundAtSomeMoment, ChangedAtSomeMoment};
ghost use Rattle.ring_node.specs.Reports.{AreCounts};

use admission::{Controller, Slot};
use std::sync::ledger::Ledger;
use std::sync::{Mutex, Wait};
use vclock::Refusal;

/// The counts of slots at one moment.
#[derive(Clone, Copy, Debug, PartialEq, Eq)]
pub struct Counts {
    /// The number of slots that were lent, 0 to 1,024.
    pub lent: u32,
    /// The number of slots that could be lent.
    pub free: u32,
    /// The number of slots that were lent or could be lent.
    pub allowance: u32,
}

/// A controller of slots that threads share: a [`Controller`] in a lock.
///
/// A slot can't be dropped, and is part of one controller's ledger. Therefore a program that doesn't return a slot to
/// the controller that lent it doesn't compile.
///
/// ```
/// let slot = slots.lend(rt)?;
/// let report = range.rehash_worker(rt, alloc, &slot, &OpenGate, worker, REHASH_TURNS);
/// slots.give_back(rt, slot);
/// ```
#[derive(Drop)]
pub struct SharedController<L: Ledger> {
    controller: Mutex<Controller<L>>,
}

impl<L: Ledger> SharedController<L> {
    /// Makes a shared controller. Doesn't allocate.
    pub fn new(controller: Controller<L>) -> SharedController<L> {
        SharedController {
            controller: Mutex::new(controller),
        }
    }

    /// Lends a slot, as [`Controller::lend`] does. Doesn't allocate.
    ///
    /// Refused: NoSlot (the number of lent slots is the target or more).
    pub fn lend<R: Wait>(&self, rt: &R) -> Result<Slot<L>, Refusal>
        ensures { ChangedAtSomeMoment IsAdmission (λ before after. ChangesAtOnce result before after (lend before)) }
    {
        let mut controller = self.controller.lock(rt);
        let _valid = controller.lent();
        controller.lend()
    }

    /// Takes a slot back. Doesn't allocate.
    pub fn give_back<R: Wait>(&self, rt: &R, slot: Slot<L>) {
        self.controller.lock(rt).give_back(slot);
    }

    /// Keeps the latency of a foreground call, in microseconds, with its moment in milliseconds, and returns the number
    /// of samples that are kept, 1 to 1,024, as [`Controller::sample`] does. Doesn't allocate.
    ///
    /// Refused: ClockBack (a later moment was accepted before). On error the sample isn't kept.
    pub fn sample<R: Wait>(&self, rt: &R, moment: u64, micros: u32) -> Result<u32, Refusal>
        ensures { ChangedAtSomeMoment IsAdmission
            (λ before after. DoesAtOnce result before after (sample before moment micros)) }
    {
        let mut controller = self.controller.lock(rt);
        let _valid = controller.lent();
        controller.sample(moment, micros)
    }

    /// Sets the target by the samples of the last 60,000 milliseconds, and returns their 99th percentile in
    /// microseconds, as [`Controller::adjust`] does. Doesn't allocate.
    ///
    /// Refused: ClockBack (a later moment was accepted before). On error nothing changes.
    pub fn adjust<R: Wait>(&self, rt: &R, now: u64) -> Result<Option<u32>, Refusal>
        ensures { ChangedAtSomeMoment IsAdmission (λ before after. DoesAtOnce result before after (adjust before now)) }
    {
        let mut controller = self.controller.lock(rt);
        let _valid = controller.lent();
        controller.adjust(now)
    }

    /// Returns the numbers of lent and of free slots, and their sum, all at one moment. Doesn't allocate.
    pub fn counts<R: Wait>(&self, rt: &R) -> Counts
        ensures sum { result.lent + result.free ≡ result.allowance }
        ensures moment { FoundAtSomeMoment IsAdmission (λ state. AreCounts state result) }
    {
        let controller = self.controller.lock(rt);
        Counts {
            lent: controller.lent(),
            free: controller.free(),
            allowance: controller.allowance(),
        }
    }
}
