//! Slots for background work, as numbers.
ghost use Rattle.std.specs.Prelude.{◌≡◌};
ghost use Rattle.vclock.specs.Answer.{Answers};
ghost use Rattle.vclock.specs.Outcome.{DoesAtOnce};
ghost use Rattle.admission.specs.Admission.{fresh_admission};
ghost use Rattle.c_calls.specs.SlotCalls.{bounds_fault, set_target, percentile_from, TellsPercentile, numbers_of};

use admission::SlotBudget;
use std::alloc::Global;
use vclock::Refusal;

/// The greatest number of slots.
const SLOTS_MAX: u32 = 1_024;

/// The 99th percentile of the latencies of the last minute.
#[repr(C)]
#[derive(Clone, Copy)]
pub struct Percentile {
    /// 1 if there were samples, and 0 otherwise.
    pub found: u64,
    /// The percentile in microseconds: 0 if there were no samples.
    pub micros: u64,
}

/// The numbers of slots.
#[repr(C)]
#[derive(Clone, Copy)]
pub struct SlotNumbers {
    /// The target: the maximum number of slots lent.
    pub target: u64,
    /// The number of slots lent.
    pub lent: u64,
    /// The number of free slots, which could be lent now.
    pub free: u64,
}

/// Makes slots, as [`SlotBudget::new`] does: none is lent, and the target is the ceiling. Refused, in order: BadRing
/// (the floor is 0 or above the ceiling, or the ceiling is above 1,024), NoMemory.
pub fn new_slots(
    alloc: Global,
    floor: u32,
    ceiling: u32,
    threshold: u32,
) -> Result<Box<SlotBudget, Global>, Refusal>
    ensures { Answers result (bounds_fault floor ceiling) (λ budget. budget.value ≡ fresh_admission floor ceiling threshold) }
{
    if floor == 0 || floor > ceiling || ceiling > SLOTS_MAX {
        return Err(Refusal::BadRing);
    }
    let budget = SlotBudget::new(alloc, floor, ceiling, threshold)?;
    Ok(Box::new(alloc, budget)?)
}

/// Stores a percentile, if the adjustment was not refused.
pub fn tell_percentile(outcome: &Result<Option<u32>, Refusal>, percentile: &mut Percentile)
    ensures { TellsPercentile outcome.now percentile.old percentile.new }
{
    if let Ok(found) = outcome {
        *percentile = percentile_of(*found);
    }
}

/// Returns a percentile in the form that C has.
fn percentile_of(found: Option<u32>) -> Percentile
    ensures { result ≡ percentile_from found }
{
    match found {
        Some(micros) => Percentile {
            found: 1,
            micros: u64::from(micros),
        },
        None => Percentile {
            found: 0,
            micros: 0,
        },
    }
}

/// Sets the target. Slots that are lent stay lent. Refused: BadRing (the target is below the floor or above the
/// ceiling).
pub fn set_target(budget: &mut SlotBudget, target: u32) -> Result<(), Refusal>
    ensures { DoesAtOnce result budget.old budget.new (set_target budget.old target) }
{
    let (floor, ceiling) = budget.bounds();
    if target < floor || target > ceiling {
        return Err(Refusal::BadRing);
    }
    budget.set_target(target);
    Ok(())
}

/// Returns the numbers of slots.
pub fn numbers_of(budget: &SlotBudget) -> SlotNumbers
    ensures { result ≡ numbers_of budget.now }
{
    SlotNumbers {
        target: u64::from(budget.target()),
        lent: u64::from(budget.lent()),
        free: u64::from(budget.free()),
    }
}
