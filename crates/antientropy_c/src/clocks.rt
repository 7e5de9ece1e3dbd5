//! Comparison and merge of clocks, for C.
ghost use Rattle.std.specs.Prelude.{◌≡◌, ℕ, Result};
ghost use Rattle.vclock.specs.Answer.{Answers, AnswersOrNoMemory, first_fault};
ghost use Rattle.vclock.specs.Clock.{Pairs, pairs_fault, clock_of, merged};
ghost use Rattle.vclock.specs.declared.refusal.Refusal.{Refusal};
ghost use Rattle.c_calls.specs.Numbers.{Returns};
ghost use Rattle.c_calls.specs.Pairs.{clock_pairs, order_between};
ghost use Rattle.c_calls.specs.Merges.{merges_fault, GivesClock};
ghost use Rattle.c_calls.specs.Puts.{NoMemoryAfter};
ghost use Rattle.c_calls.specs.Sessions.{TellsNumber};

use c_calls::clocks::{compare, hand_clock, merge};
use c_calls::numbers::code;
use c_calls::pair::Pair;
use c_calls::sessions::tell_number;
use std::alloc::Global;

/// Compares two clocks: 0 if the second has seen everything that the first has, and more; 1 if the first has seen
/// everything that the second has, and more; 2 if they are equal; 3 if neither has seen everything that the other has.
///
/// Refused, in order: BadClock and ClockFull of the first and then of the second, NoMemory.
#[unsafe(no_mangle)]
#[tactic(auto, using(crate::proofs::CallLaws::returns))]
pub extern "C" fn antientropy_compare(
    alloc: Global,
    first: &[Pair],
    second: &[Pair],
    order: &mut u64,
) -> u32
    ensures { Returns result (λ (r : Result ℕ Refusal). Answers r
        (first_fault (pairs_fault (clock_pairs first.now)) (pairs_fault (clock_pairs second.now)))
        (λ n. n ≡ order_between (clock_of (clock_pairs first.now)) (clock_of (clock_pairs second.now)))
        × TellsNumber r order.old order.new) }
{
    let outcome = compare(alloc, first, second);
    tell_number(&outcome, order);
    code(&outcome)
}

/// Merges two clocks, as [`Clock::merge`](vclock::Clock::merge) does.
///
/// Refused, in order: BadClock and ClockFull of the first and then of the second, ClockFull (over 32 nodes), NoMemory,
/// which may replace the last ClockFull, SMALL.
#[unsafe(no_mangle)]
#[tactic(auto, using(crate::proofs::CallLaws::gives_clock))]
pub extern "C" fn antientropy_merge(
    alloc: Global,
    first: &[Pair],
    second: &[Pair],
    out: &mut [Pair],
    need: &mut u64,
) -> u32
    ensures { GivesClock result (need.old, out.old) (need.new, out.new) (λ (r : Result Pairs Refusal).
        AnswersOrNoMemory r (merges_fault (clock_pairs first.now) (clock_pairs second.now))
        (λ c. c ≡ merged (clock_of (clock_pairs first.now)) (clock_of (clock_pairs second.now)))
        × NoMemoryAfter (first_fault (pairs_fault (clock_pairs first.now)) (pairs_fault (clock_pairs second.now))) r) }
{
    let outcome = merge(alloc, first, second);
    hand_clock(&outcome, out, need)
}
