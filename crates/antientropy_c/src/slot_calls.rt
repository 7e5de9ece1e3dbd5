//! Slots for background work, as numbers.
ghost use Rattle.std.specs.Prelude.{◌≡◌, ℕ, false, Option, Result, ⊤};
ghost use Rattle.vclock.specs.Outcome.{DoesAtOnce};
ghost use Rattle.vclock.specs.declared.refusal.Refusal.{Refusal};
ghost use Rattle.admission.specs.Admission.{fresh_admission, lend, give_back, sample, adjust};
ghost use Rattle.antientropy_c.specs.Calls.{CallsOn};
ghost use Rattle.antientropy_c.specs.Makes.{MakesIn};
ghost use Rattle.c_calls.specs.Numbers.{Returns};
ghost use Rattle.antientropy_c.specs.SlotCalls.{slots_in};
ghost use Rattle.c_calls.specs.SlotCalls.{bounds_fault, set_target, TellsPercentile, numbers_of};

use crate::slots::Slots;
use admission::SlotBudget;
use c_calls::frame::{fill, with};
use c_calls::numbers::{HELD, code};
use c_calls::slot_calls::{
    Percentile, SlotNumbers, new_slots, numbers_of, set_target, tell_percentile,
};
use c_handle::InC;
use std::alloc::Global;

/// Makes slots, as [`SlotBudget::new`] does: none is lent, and the target is the ceiling.
///
/// Refused, in order: HELD (the handle holds slots already), BadRing (the floor is 0 or above the ceiling, or the
/// ceiling is above 1,024), NoMemory. On error the handle is unchanged.
#[unsafe(no_mangle)]
#[tactic(auto, using(crate::proofs::MakeLaws::already))]
pub extern "C" fn antientropy_slots_new(
    alloc: Global,
    slots: &mut Slots,
    floor: u32,
    ceiling: u32,
    threshold: u32,
) -> u32
    ensures { MakesIn result (slots_in slots.old) (slots_in slots.new) (bounds_fault floor ceiling)
        (λ budget. budget ≡ fresh_admission floor ceiling threshold) }
{
    if let Some(budget) = slots.take(alloc) {
        slots.hold(budget);
        return HELD;
    }
    let made = new_slots(alloc, floor, ceiling, threshold);
    fill(slots, made)
}

/// Frees the slots of a handle, if any.
#[unsafe(no_mangle)]
pub extern "C" fn antientropy_slots_free(alloc: Global, slots: &mut Slots)
    ensures { slots.new.held ≡ false }
{
    let _budget = slots.take(alloc);
}

/// Lends a slot. Refused, in order: EMPTY, NoSlot (the slots lent reach or exceed the target).
#[unsafe(no_mangle)]
#[tactic(auto, using(crate::proofs::CallLaws::empty, crate::proofs::CallLaws::held, crate::proofs::CallLaws::returns))]
pub extern "C" fn antientropy_slot_lend(alloc: Global, slots: &mut Slots) -> u32
    ensures { CallsOn result (slots_in slots.old) (slots_in slots.new) ⊤
        (λ s t. Returns result (λ (r : Result (Unit {0}) Refusal).
        DoesAtOnce r s t (lend s))) }
{
    let mut call = |budget: &mut SlotBudget| {
        let outcome = budget.lend();
        code(&outcome)
    };
    with(slots, alloc, &mut call)
}

/// Takes a slot back. Refused, in order: EMPTY, NoSlot (none is lent).
#[unsafe(no_mangle)]
#[tactic(auto, using(crate::proofs::CallLaws::empty, crate::proofs::CallLaws::held, crate::proofs::CallLaws::returns))]
pub extern "C" fn antientropy_slot_give_back(alloc: Global, slots: &mut Slots) -> u32
    ensures { CallsOn result (slots_in slots.old) (slots_in slots.new) ⊤
        (λ s t. Returns result (λ (r : Result (Unit {0}) Refusal).
        DoesAtOnce r s t (give_back s))) }
{
    let mut call = |budget: &mut SlotBudget| {
        let outcome = budget.give_back();
        code(&outcome)
    };
    with(slots, alloc, &mut call)
}

/// Records the latency of a reply of the foreground, in microseconds, with its moment in milliseconds. Refused, in
/// order: EMPTY, ClockBack (a later moment was accepted before).
#[unsafe(no_mangle)]
#[tactic(auto, using(crate::proofs::CallLaws::empty, crate::proofs::CallLaws::held, crate::proofs::CallLaws::returns))]
pub extern "C" fn antientropy_slots_sample(
    alloc: Global,
    slots: &mut Slots,
    moment: u64,
    micros: u32,
) -> u32
    ensures { CallsOn result (slots_in slots.old) (slots_in slots.new) ⊤ (λ s t. Returns result (λ (r : Result ℕ Refusal).
        DoesAtOnce r s t (sample s moment micros))) }
{
    let mut call = |budget: &mut SlotBudget| {
        let outcome = budget.sample(moment, micros);
        code(&outcome)
    };
    with(slots, alloc, &mut call)
}

/// Sets the target by the samples of the last 60,000 milliseconds, and stores their 99th percentile. Refused, in order:
/// EMPTY, ClockBack (a later moment was accepted before).
#[unsafe(no_mangle)]
#[tactic(auto, using(crate::proofs::CallLaws::empty, crate::proofs::CallLaws::held, crate::proofs::CallLaws::returns))]
pub extern "C" fn antientropy_slots_adjust(
    alloc: Global,
    slots: &mut Slots,
    now: u64,
    percentile: &mut Percentile,
) -> u32
    ensures { CallsOn result (slots_in slots.old) (slots_in slots.new) (percentile.new ≡ percentile.old)
        (λ s t. Returns result (λ (r : Result (Option ℕ) Refusal).
        DoesAtOnce r s t (adjust s now) × TellsPercentile r percentile.old percentile.new)) }
{
    let mut call = |budget: &mut SlotBudget| {
        let outcome = budget.adjust(now);
        tell_percentile(&outcome, percentile);
        code(&outcome)
    };
    with(slots, alloc, &mut call)
}

/// Sets the target. Slots that are lent stay lent. Refused, in order: EMPTY, BadRing (the target is below the floor or
/// above the ceiling).
#[unsafe(no_mangle)]
#[tactic(auto, using(crate::proofs::CallLaws::empty, crate::proofs::CallLaws::held, crate::proofs::CallLaws::returns))]
pub extern "C" fn antientropy_slots_set_target(alloc: Global, slots: &mut Slots, target: u32) -> u32
    ensures { CallsOn result (slots_in slots.old) (slots_in slots.new) ⊤
        (λ s t. Returns result (λ (r : Result (Unit {0}) Refusal).
        DoesAtOnce r s t (set_target s target))) }
{
    let mut call = |budget: &mut SlotBudget| {
        let outcome = set_target(budget, target);
        code(&outcome)
    };
    with(slots, alloc, &mut call)
}

/// Stores the numbers of slots. Refused: EMPTY.
#[unsafe(no_mangle)]
#[tactic(auto, using(crate::proofs::CallLaws::empty, crate::proofs::CallLaws::held))]
pub extern "C" fn antientropy_slots_count(
    alloc: Global,
    slots: &mut Slots,
    numbers: &mut SlotNumbers,
) -> u32
    ensures { CallsOn result (slots_in slots.old) (slots_in slots.new) (numbers.new ≡ numbers.old)
        (λ s t. (t ≡ s) × (result ≡ 0) × (numbers.new ≡ numbers_of s)) }
{
    let mut call = |budget: &mut SlotBudget| {
        *numbers = numbers_of(budget);
        0
    };
    with(slots, alloc, &mut call)
}
