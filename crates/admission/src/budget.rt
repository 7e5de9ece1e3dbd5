//! A budget of slots.
ghost use Rattle.std.specs.Prelude.{◌≡◌, ◌+◌, ◌≤◌, IfOk, [], None, Some, MatchOption};
ghost use Rattle.vclock.specs.Answer.{Answers};
ghost use Rattle.vclock.specs.Outcome.{DoesAtOnce};
ghost use Rattle.admission.specs.Admission.{IsAdmission, fresh_admission, free_of, allowance_of, lend, give_back, sample, adjust, window_of, IsPercentile, target_after};

use crate::latency::{MOST, Sample, percentile, window};
use circular_buffer::HeapCircularBuffer;
use std::alloc::Global;
use std::marker::Model;
use vclock::Refusal;

/// The numbers of lent slots and of slots that may be lent: the rules of a [`Controller`](crate::Controller), without
/// the slots. Use it only if the slots can't be values, as in C: the program itself must return each slot once.
///
/// Moments are in milliseconds, latencies in microseconds. On error a budget is unchanged. Only `new` allocates.
pub struct SlotBudget {
    floor: u32,
    ceiling: u32,
    threshold: u32,
    target: u32,
    lent: u32,
    latest: u64,
    samples: HeapCircularBuffer<Sample>,
    room: Vec<u32>,
}

impl Model for SlotBudget {
    ghost use Rattle.std.specs.Prelude.{◌≡◌, ◌≤◌, length, vec_capacity};
    ghost use Rattle.admission.specs.Admission.{Admission, pairs};

    ghost Value = { Admission };

    ghost view = { λ b. record {
      floor = b.floor;
      ceiling = b.ceiling;
      threshold = b.threshold;
      target = b.target;
      slots = b.lent;
      samples = pairs b.samples.items;
      latest = b.latest;
    } };

    ghost invariant = { λ b. (1 ≤ b.floor) × (b.floor ≤ b.target) × (b.target ≤ b.ceiling) × (b.ceiling ≤ 1024)
        × (b.lent ≤ b.ceiling)
        × (b.samples.capacity ≡ 1024) × (length b.samples.items ≤ 1024) × (1024 ≤ vec_capacity b.room) };
}

impl SlotBudget {
    /// Creates a budget whose target is the ceiling, with no slot lent and no sample, that accepts moments from 0 on.
    ///
    /// The target stays within the floor and the ceiling, 1 to 1,024 slots. It falls if the latency is over the
    /// threshold, in microseconds.
    ///
    /// Refused: NoMemory.
    pub fn new(
        alloc: Global,
        floor: u32,
        ceiling: u32,
        threshold: u32,
    ) -> Result<SlotBudget, Refusal>
        requires { (1 ≤ floor) × (floor ≤ ceiling) × (ceiling ≤ 1024) }
        ensures { Answers result None (λ b. b ≡ fresh_admission floor ceiling threshold) }
    {
        let samples = HeapCircularBuffer::with_capacity(alloc, MOST)?;
        let mut room = Vec::new(alloc);
        room.reserve(MOST)?;
        Ok(SlotBudget {
            floor,
            ceiling,
            threshold,
            target: ceiling,
            lent: 0,
            latest: 0,
            samples,
            room,
        })
    }

    /// Returns the number of slots lent, 0 to 1,024.
    pub fn lent(&self) -> u32
        ensures count { result ≡ self.now.slots }
        ensures valid { IsAdmission self.now }
    {
        self.lent
    }

    /// Returns the number of slots that could be lent now: the target without the slots lent.
    pub fn free(&self) -> u32
        ensures { result ≡ free_of self.now }
    {
        self.target.saturating_sub(self.lent)
    }

    /// Returns the number of slots that are lent or could be: the target, or the slots lent if the target fell below
    /// that number.
    pub fn allowance(&self) -> u32
        ensures value { result ≡ allowance_of self.now }
        ensures sum { result ≡ self.now.slots + free_of self.now }
    {
        self.target.max(self.lent)
    }

    /// Returns the target: the maximum number of slots lent, from the floor to the ceiling.
    pub fn target(&self) -> u32
        ensures { result ≡ self.now.target }
    {
        self.target
    }

    /// Returns the floor and the ceiling of the target.
    pub fn bounds(&self) -> (u32, u32)
        ensures { result ≡ (self.now.floor, self.now.ceiling) }
    {
        (self.floor, self.ceiling)
    }

    /// Counts one more slot as lent. Refused: NoSlot (the slots lent reach or exceed the target).
    pub fn lend(&mut self) -> Result<(), Refusal>
        ensures lends { DoesAtOnce result self.old self.new (lend self.old) }
        ensures valid { IsAdmission self.new }
    {
        if self.lent >= self.target {
            return Err(Refusal::NoSlot);
        }
        self.lent += 1;
        Ok(())
    }

    /// Counts a slot as given back. Refused: NoSlot (none is lent).
    pub fn give_back(&mut self) -> Result<(), Refusal>
        ensures { DoesAtOnce result self.old self.new (give_back self.old) }
    {
        if self.lent == 0 {
            return Err(Refusal::NoSlot);
        }
        self.lent -= 1;
        Ok(())
    }

    /// Sets the target, from the floor to the ceiling. Slots that are lent stay lent.
    pub fn set_target(&mut self, target: u32)
        requires { (self.old.floor ≤ target) × (target ≤ self.old.ceiling) }
        ensures { self.new ≡ record self.old { target = target } }
    {
        self.target = target;
    }

    /// Resets a budget with no slot lent to its state after `new`.
    pub fn reset(&mut self)
        requires { self.old.slots ≡ 0 }
        ensures { self.new ≡ fresh_admission self.old.floor self.old.ceiling self.old.threshold }
    {
        self.target = self.ceiling;
        self.latest = 0;
        self.samples.clear();
    }

    /// Records the latency of a reply of the foreground, in microseconds, with its moment in milliseconds, and returns
    /// the number of samples kept: the last 1,024.
    ///
    /// Refused: ClockBack (a later moment was accepted before).
    #[tactic(auto, using(crate::proofs::Ranks::pairs_keep))]
    pub fn sample(&mut self, moment: u64, micros: u32) -> Result<u32, Refusal>
        ensures { DoesAtOnce result self.old self.new (sample self.old moment micros) }
    {
        if moment < self.latest {
            return Err(Refusal::ClockBack);
        }
        self.samples.push_back(Sample { moment, micros });
        self.latest = moment;
        Ok(self.samples.len() as u32)
    }

    /// Sets the target by the samples of the last 60,000 milliseconds, and returns their 99th percentile in
    /// microseconds: the smallest latency that at least 99 of 100 don't exceed. Without such samples it returns `None`
    /// and leaves the target unchanged.
    ///
    /// Over the threshold the target becomes half, rounded down, but not below the floor. At half of the threshold or
    /// less it rises by one, but not above the ceiling.
    ///
    /// Refused: ClockBack (a later moment was accepted before).
    pub fn adjust(&mut self, now: u64) -> Result<Option<u32>, Refusal>
        ensures adjusts { DoesAtOnce result self.old self.new (adjust self.old now) }
        ensures fact { IfOk result (λ found. MatchOption found (window_of now self.old.samples ≡ []) (IsPercentile (window_of now self.old.samples))) }
    {
        if now < self.latest {
            return Err(Refusal::ClockBack);
        }
        self.latest = now;
        window(&mut self.room, &self.samples, now);
        let found = percentile(&mut self.room);
        if let Some(p) = found {
            self.follow(p);
        }
        Ok(found)
    }

    /// Sets the target by a percentile.
    fn follow(&mut self, p: u32)
        ensures { self.new ≡ record self.old { target = target_after self.old (Some p) } }
    {
        if p > self.threshold {
            self.target = self.floor.max(self.target / 2);
        } else if p as u64 * 2 <= self.threshold as u64 {
            self.target = self.ceiling.min(self.target + 1);
        }
    }
}

impl Drop for SlotBudget {
    /// Keeps the fields out of the proofs of callers that drop a budget.
    fn drop(self) {
        let SlotBudget {
            floor: _floor,
            ceiling: _ceiling,
            threshold: _threshold,
            target: _target,
            lent: _lent,
            latest: _latest,
            samples: _samples,
            room: _room,
        } = self;
    }
}
