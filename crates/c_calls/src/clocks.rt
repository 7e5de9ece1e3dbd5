//! Comparison and merge of clocks, for C.
ghost use Rattle.std.specs.Prelude.{◌≡◌};
ghost use Rattle.vclock.specs.Answer.{Answers, AnswersOrNoMemory, first_fault};
ghost use Rattle.vclock.specs.Clock.{pairs_fault, clock_of, merged};
ghost use Rattle.c_calls.specs.Pairs.{clock_pairs, number_of_order, order_between};
ghost use Rattle.c_calls.specs.Merges.{merges_fault, HandsClock};
ghost use Rattle.c_calls.specs.Puts.{NoMemoryAfter};

use crate::pair::{Pair, check_pairs, clock_of};
use crate::versions::copy_pairs;
use std::alloc::Global;
use vclock::{Clock, ClockOrder, Refusal};

/// Compares two clocks: 0 if the second has seen everything that the first has, and more; 1 if the first has seen
/// everything that the second has, and more; 2 if they are equal; 3 if neither has seen everything that the other has.
///
/// Refused, in order: BadClock and ClockFull of the first and then of the second, NoMemory.
pub fn compare(alloc: Global, first: &[Pair], second: &[Pair]) -> Result<u64, Refusal>
    ensures { Answers result
        (first_fault (pairs_fault (clock_pairs first.now)) (pairs_fault (clock_pairs second.now)))
        (λ n. n ≡ order_between (clock_of (clock_pairs first.now)) (clock_of (clock_pairs second.now))) }
{
    check_pairs(first)?;
    check_pairs(second)?;
    let first = clock_of(alloc, first)?;
    let second = clock_of(alloc, second)?;
    Ok(number_of(first.compare(&second)))
}

/// Returns the number of an order.
fn number_of(order: ClockOrder) -> u64
    ensures { result ≡ number_of_order order }
{
    match order {
        ClockOrder::Before => 0,
        ClockOrder::After => 1,
        ClockOrder::Equal => 2,
        ClockOrder::Apart => 3,
    }
}

/// Merges two clocks, as [`Clock::merge`] does.
///
/// Refused, in order: BadClock and ClockFull of the first and then of the second, ClockFull (over 32 nodes), NoMemory,
/// which may replace the last ClockFull.
pub fn merge(alloc: Global, first: &[Pair], second: &[Pair]) -> Result<Clock, Refusal>
    ensures answers { AnswersOrNoMemory result (merges_fault (clock_pairs first.now) (clock_pairs second.now))
        (λ c. c ≡ merged (clock_of (clock_pairs first.now)) (clock_of (clock_pairs second.now))) }
    ensures early { NoMemoryAfter
        (first_fault (pairs_fault (clock_pairs first.now)) (pairs_fault (clock_pairs second.now))) result }
{
    check_pairs(first)?;
    check_pairs(second)?;
    let first = clock_of(alloc, first)?;
    let second = clock_of(alloc, second)?;
    first.merge(alloc, &second)
}

/// Copies out the pairs of a clock, or nothing on error, and returns the number of the outcome. Refused: SMALL (the
/// pairs don't fit).
pub fn hand_clock(outcome: &Result<Clock, Refusal>, out: &mut [Pair], need: &mut u64) -> u32
    ensures { HandsClock outcome.now result (need.old, out.old) (need.new, out.new) }
{
    match outcome {
        Ok(clock) => copy_pairs(clock.pairs(), out, need),
        Err(refusal) => refusal.number() as u32,
    }
}
