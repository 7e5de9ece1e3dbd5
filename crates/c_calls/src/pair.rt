//! The pairs of clocks in C.
ghost use Rattle.std.specs.Prelude.{◌≡◌, IfOk, None, ⊤, false, replicate};
ghost use Rattle.std.specs.List.{list_any};
ghost use Rattle.vclock.specs.Answer.{Answers, AnswersAtOnce};
ghost use Rattle.vclock.specs.Clock.{pairs_fault, clock_of, is_bad_pair, has_node, has_repeat};
ghost use Rattle.c_calls.specs.Pairs.{clock_pair, clock_pairs};

use smallvec::SmallVec;
use std::alloc::{AllocError, Global};
use vclock::limits::{NODE_MAX, PAIRS_MAX};
use vclock::{Clock, Refusal};

/// The length of a table with a place for each node, from 0.
const TABLE_LEN: usize = 65_536;

/// A node with its counter.
#[repr(C)]
#[derive(Clone, Copy)]
pub struct Pair {
    /// The node, 1 to 65,535 in a clock.
    pub node: u64,
    /// The counter, from 1 in a clock.
    pub counter: u64,
}

/// Tests pairs in any order before they are copied. Of more pairs than there are nodes none is read. Refused, in order:
/// BadClock, ClockFull.
pub(crate) fn check_pairs(pairs: &[Pair]) -> Result<(), Refusal>
    ensures { AnswersAtOnce result (pairs_fault (clock_pairs pairs.now)) (λ _. ⊤) }
{
    if pairs.len() > TABLE_LEN {
        return Err(Refusal::BadClock);
    }
    if has_bad_pair(pairs) || has_repeat(pairs) {
        return Err(Refusal::BadClock);
    }
    if pairs.len() > PAIRS_MAX {
        return Err(Refusal::ClockFull);
    }
    Ok(())
}

/// Returns true if some pair can't be in a clock.
fn has_bad_pair(pairs: &[Pair]) -> bool
    ensures { result ≡ list_any is_bad_pair (clock_pairs pairs.now) }
{
    pairs.iter().any(|pair| is_bad_pair(pair))
}

/// Returns true if a pair can't be in a clock.
fn is_bad_pair(pair: &Pair) -> bool
    ensures { result ≡ is_bad_pair (clock_pair pair.now) }
{
    pair.node == 0 || pair.node > NODE_MAX || pair.counter == 0
}

/// Returns true if some node is in two pairs. Few pairs are compared with one another; for more, a table records the
/// nodes.
fn has_repeat(pairs: &[Pair]) -> bool
    requires { list_any is_bad_pair (clock_pairs pairs.now) ≡ false }
    ensures { result ≡ has_repeat (clock_pairs pairs.now) }
{
    if pairs.len() <= PAIRS_MAX {
        return has_repeat_among_few(pairs);
    }
    let mut seen = [false; TABLE_LEN];
    has_repeat_by_table(pairs, &mut seen)
}

/// Returns true if some node is in two pairs, by comparing the pairs with one another.
fn has_repeat_among_few(pairs: &[Pair]) -> bool
    ensures { result ≡ has_repeat (clock_pairs pairs.now) }
{
    for i in 0..pairs.len() {
        if has_node(&pairs[i + 1..], pairs[i].node) {
            return true;
        }
    }
    false
}

/// Returns true if some pair has the node.
fn has_node(pairs: &[Pair], node: u64) -> bool
    ensures { result ≡ has_node (clock_pairs pairs.now) node }
{
    pairs.iter().any(|pair| pair.node == node)
}

/// Returns true if some node is in two pairs, by a table of the nodes seen, which is empty at first.
fn has_repeat_by_table(pairs: &[Pair], seen: &mut [bool]) -> bool
    requires good { list_any is_bad_pair (clock_pairs pairs.now) ≡ false }
    requires empty { seen.old ≡ replicate 65536 false }
    ensures { result ≡ has_repeat (clock_pairs pairs.now) }
{
    for pair in pairs {
        let node = pair.node as usize;
        if seen[node] {
            return true;
        }
        seen[node] = true;
    }
    false
}

/// Makes the clock of pairs that `check_pairs` found no fault with. Refused: NoMemory.
pub(crate) fn clock_of(alloc: Global, pairs: &[Pair]) -> Result<Clock, Refusal>
    requires { pairs_fault (clock_pairs pairs.now) ≡ None }
    ensures { Answers result None (λ clock. clock ≡ clock_of (clock_pairs pairs.now)) }
{
    // Most first puts of a key have no context.
    if pairs.is_empty() {
        return Ok(Clock::of_ascending(SmallVec::new(alloc)));
    }
    let numbers = numbers_of(alloc, pairs)?;
    Clock::from_pairs(alloc, &numbers)
}

/// Copies the pairs of a clock: they fit on the stack. It fails if memory runs out.
fn numbers_of(alloc: Global, pairs: &[Pair]) -> Result<SmallVec<(u64, u64), PAIRS_MAX>, AllocError>
    ensures { IfOk result (λ numbers. numbers.items ≡ clock_pairs pairs.now) }
{
    let mut numbers = SmallVec::with_capacity(alloc, pairs.len())?;
    for pair in pairs {
        numbers.push((pair.node, pair.counter))?;
    }
    Ok(numbers)
}
