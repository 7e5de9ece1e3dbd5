//! Vector clocks.
ghost use Rattle.std.specs.Prelude.{◌≡◌, ◌≢◌, ℕ, ◌+◌, ◌<◌, ◌≤◌, ◌==◌, ◌↔◌, IsTrue, IfOk, OnOk, OnErr, length, false, None, replicate, max};
ghost use Rattle.vclock.specs.Clock.{counter, at_most, IsAtMost, IsClock, Pairs, Rises, order_of, with_counter, raised, raise_fault, pairs_fault, has_node, has_repeat, is_bad_pair, clock_of, merged, merge_fault};
ghost use Rattle.std.specs.List.{list_any, filter};
ghost use Rattle.vclock.specs.Answer.{Answers};

use crate::limits::{NODE_MAX, PAIRS_MAX};
use crate::refusal::Refusal;
use smallvec::SmallVec;
use std::alloc::{AllocError, Global};
use std::marker::Model;

/// The number of pairs stored inline: a clock of one node allocates nothing.
const FEW_PAIRS: usize = 1;

/// Pairs of node and counter. A single pair is stored inline.
pub type ClockPairs = SmallVec<(u16, u64), FEW_PAIRS>;

/// The order of two clocks. Versions whose clocks are `Apart` are concurrent: neither writer had seen the other's
/// version, and a store keeps both.
#[derive(Clone, Copy, Debug, PartialEq, Eq)]
pub enum ClockOrder {
    /// Each counter is at most the other's, and the clocks differ.
    Before,
    /// Each counter is at least the other's, and the clocks differ.
    After,
    /// All counters are equal.
    Equal,
    /// Each clock has a counter greater than the other's.
    Apart,
}

/// A vector clock (section 4.4 of the Dynamo paper): a finite map from nodes, 1 to 65,535, to counters, 1 to 2^64 - 1.
/// An absent node has counter 0. There are at most 32 pairs. A version has the clock under which it was put; the
/// context of a put is the clocks that its client has read.
///
/// ```
/// let old = clock(alloc, &[(2, 1), (1, 3)])?;
/// let raised = old.raise(alloc, 2)?;
/// expect_pairs(&raised, &[(1, 3), (2, 2)])?;
/// expect(
///     old.compare(&raised) == ClockOrder::Before && raised.compare(&old) == ClockOrder::After,
///     "the old clock is before the raised one",
/// )
/// ```
#[derive(Debug)]
pub struct Clock {
    pairs: ClockPairs,
}

impl Model for Clock {
    ghost use Rattle.vclock.specs.Clock.{Pairs, IsClock};

    ghost Value = { Pairs };

    ghost view = { λ c. c.pairs.items };

    ghost invariant = { λ c. IsClock c.pairs.items };
}

impl Clock {
    /// Creates a clock from pairs of node and counter, in any order.
    ///
    /// Refused, in order: BadClock (node 0 or over 65,535, counter 0, or a node twice), ClockFull (over 32 pairs),
    /// NoMemory. Takes time in proportion to the number of pairs.
    pub fn from_pairs(alloc: Global, pairs: &[(u64, u64)]) -> Result<Clock, Refusal>
        ensures answers { Answers result (pairs_fault pairs.now) (λ c. c ≡ clock_of pairs.now) }
        ensures counters { IfOk result (λ c. (n : ℕ) → counter c n ≡ counter pairs.now n) }
    {
        if has_bad_pair(pairs) || has_repeat(pairs) {
            return Err(Refusal::BadClock);
        }
        if pairs.len() > PAIRS_MAX {
            return Err(Refusal::ClockFull);
        }
        let mut kept = SmallVec::with_capacity(alloc, pairs.len())?;
        for i in (0..pairs.len()).rev() {
            let (node, counter) = pairs[i];
            put(&mut kept, node as u16, counter)?;
        }
        Ok(Clock { pairs: kept })
    }

    /// Creates a clock from pairs that are already in order: by ascending node, each node once, at most 32 pairs.
    /// Doesn't allocate.
    pub fn of_ascending(pairs: ClockPairs) -> Clock
        requires { IsClock pairs.items }
        ensures { result ≡ pairs.items }
    {
        Clock { pairs }
    }

    /// Returns the clock with the counter of a node, 1 to 65,535, raised by one.
    ///
    /// Refused, in order: ClockFull (a 33rd pair), CounterFull (the counter is 2^64 - 1), NoMemory.
    pub fn raise(&self, alloc: Global, node: u16) -> Result<Clock, Refusal>
        requires { 1 ≤ node }
        ensures answers { Answers result (raise_fault self.now node) (λ c. c ≡ raised self.now node) }
        ensures raises { IfOk result (λ c. counter c node ≡ counter self.now node + 1) }
        ensures others { IfOk result (λ c. (n : ℕ) → n ≢ node → counter c n ≡ counter self.now n) }
    {
        let counter = self.get(node);
        if (counter == 0) & (self.pairs.len() >= PAIRS_MAX) {
            return Err(Refusal::ClockFull);
        }
        if counter == u64::MAX {
            return Err(Refusal::CounterFull);
        }
        let len = self.pairs.len() + usize::from(counter == 0);
        let mut raised = copy_with_room(alloc, self.pairs.as_slice(), len)?;
        put(&mut raised, node, counter + 1)?;
        Ok(Clock { pairs: raised })
    }

    /// Returns the pairs of node and counter, by ascending node.
    pub fn pairs(&self) -> &[(u16, u64)]
        ensures all { result.now ≡ self.now }
        ensures valid { IsClock self.now }
    {
        self.pairs.as_slice()
    }

    /// Returns the counter of a node, or 0 if the node is absent.
    pub fn get(&self, node: u16) -> u64
        ensures { result ≡ counter self.now node }
    {
        for &(n, counter) in self.pairs.as_slice() {
            if n == node {
                return counter;
            }
        }
        0
    }

    /// Returns an equal clock. Refused: NoMemory.
    pub fn try_clone(&self) -> Result<Clock, Refusal>
        ensures { Answers result None (λ copy. copy ≡ self.now) }
    {
        let (alloc, pairs) = (*self.pairs.allocator(), self.pairs.as_slice());
        // Most clocks have one pair, and versions are cloned by each put and get.
        let pairs = if pairs.len() == 1 {
            SmallVec::from_buf(alloc, [pairs[0]])
        } else {
            SmallVec::from_slice(alloc, pairs)?
        };
        Ok(Clock { pairs })
    }

    /// Returns the least clock that has seen all that either has: for each node, the greater of both counters. A client
    /// merges the clocks of the versions it has read into the context of its next put.
    ///
    /// Refused, in order: ClockFull (over 32 pairs), NoMemory.
    pub fn merge(&self, alloc: Global, other: &Clock) -> Result<Clock, Refusal>
        ensures answers { Answers result (merge_fault self.now other.now) (λ c. c ≡ merged self.now other.now) }
        ensures counters { IfOk result (λ c. (n : ℕ) → counter c n ≡ max (counter other.now n) (counter self.now n)) }
    {
        let others = other.pairs.as_slice();
        let len = self.pairs.len() + self.count_absent(others);
        if len > PAIRS_MAX {
            return Err(Refusal::ClockFull);
        }
        let mut merged = copy_with_room(alloc, self.pairs.as_slice(), len)?;
        for i in (0..others.len()).rev() {
            let (node, counter) = others[i];
            put(&mut merged, node, counter.max(self.get(node)))?;
        }
        Ok(Clock { pairs: merged })
    }

    /// Counts the pairs whose node is absent from this clock.
    fn count_absent(&self, pairs: &[(u16, u64)]) -> usize
        ensures count { result ≡ length (filter (λ p. counter self.now p.0 == 0) pairs.now) }
        ensures bound { result ≤ length pairs.now }
    {
        pairs.iter().filter(|pair| self.get(pair.0) == 0).count()
    }

    /// Compares the clock with another, by the counters of all nodes.
    #[tactic(auto, using(crate::proofs::CompareRules::compare_rules))]
    pub fn compare(&self, other: &Clock) -> ClockOrder
        ensures order { result ≡ order_of (at_most self.now other.now) (at_most other.now self.now) }
        ensures at_most { IsTrue (at_most self.now other.now) ↔ IsAtMost self.now other.now }
        ensures at_least { IsTrue (at_most other.now self.now) ↔ IsAtMost other.now self.now }
        ensures equal { (result ≡ ClockOrder.Equal) ↔ (self.now ≡ other.now) }
    {
        match walk(self.pairs.as_slice(), other.pairs.as_slice()) {
            (true, true) => ClockOrder::Equal,
            (true, false) => ClockOrder::Before,
            (false, true) => ClockOrder::After,
            (false, false) => ClockOrder::Apart,
        }
    }
}

impl Drop for Clock {
    /// Keeps the representation out of the proofs of callers that drop a clock.
    fn drop(self) {
        let Clock { pairs: _pairs } = self;
    }
}

/// Returns whether each counter of `a` is at most `b`'s, and whether each counter of `b` is at most `a`'s.
fn walk(a: &[(u16, u64)], b: &[(u16, u64)]) -> (bool, bool)
    requires first { Rises 0 a.now }
    requires second { Rises 0 b.now }
    ensures at_most { result.0 ≡ at_most a.now b.now }
    ensures at_least { result.1 ≡ at_most b.now a.now }
{
    let (mut le, mut ge) = (true, true);
    let (mut i, mut j) = (0, 0);
    while i < a.len() && j < b.len() {
        let (m, c) = a[i];
        let (n, d) = b[j];
        if m < n {
            le = false;
            i += 1;
        } else if n < m {
            ge = false;
            j += 1;
        } else {
            le = le & (c <= d);
            ge = ge & (d <= c);
            i += 1;
            j += 1;
        }
    }
    (le & (i == a.len()), ge & (j == b.len()))
}

/// Copies the pairs into a list with capacity for `len` pairs in all.
fn copy_with_room(alloc: Global, pairs: &[(u16, u64)], len: usize) -> Result<ClockPairs, AllocError>
    ensures { IfOk result (λ copy. copy.items ≡ pairs.now) }
{
    let mut copy = SmallVec::with_capacity(alloc, len)?;
    copy.extend_from_slice(pairs)?;
    Ok(copy)
}

/// Sets the counter of a node.
fn put(pairs: &mut ClockPairs, node: u16, counter: u64) -> Result<(), AllocError>
    ensures ok { OnOk result (pairs.new.items ≡ with_counter pairs.old.items node counter) }
    ensures err { OnErr result (pairs.new.items ≡ pairs.old.items) }
{
    let mut i = 0;
    while i < pairs.len() && pairs[i].0 < node {
        i += 1;
    }
    if i < pairs.len() && pairs[i].0 == node {
        pairs[i] = (node, counter);
        return Ok(());
    }
    pairs.insert(i, (node, counter))?;
    Ok(())
}

/// Returns true if some pair can't be in a clock.
fn has_bad_pair(pairs: &[(u64, u64)]) -> bool
    ensures { result ≡ list_any is_bad_pair pairs.now }
{
    pairs
        .iter()
        .any(|pair| pair.0 == 0 || pair.0 > NODE_MAX || pair.1 == 0)
}

/// Returns true if some node is in two pairs. Few pairs are compared with one another; for more, a table records the
/// nodes.
fn has_repeat(pairs: &[(u64, u64)]) -> bool
    requires { list_any is_bad_pair pairs.now ≡ false }
    ensures { result ≡ has_repeat pairs.now }
{
    if pairs.len() <= PAIRS_MAX {
        return has_repeat_among_few(pairs);
    }
    let mut seen = [false; 65_536];
    has_repeat_by_table(pairs, &mut seen)
}

/// Returns true if some node is in two pairs, by comparing the pairs with one another.
fn has_repeat_among_few(pairs: &[(u64, u64)]) -> bool
    ensures { result ≡ has_repeat pairs.now }
{
    for i in 0..pairs.len() {
        if contains_node(&pairs[i + 1..], pairs[i].0) {
            return true;
        }
    }
    false
}

/// Returns true if some pair has the node.
fn contains_node(pairs: &[(u64, u64)], node: u64) -> bool
    ensures { result ≡ has_node pairs.now node }
{
    pairs.iter().any(|pair| pair.0 == node)
}

/// Returns true if some node is in two pairs, by a table of the nodes seen, which is empty at first.
fn has_repeat_by_table(pairs: &[(u64, u64)], seen: &mut [bool]) -> bool
    requires good { list_any is_bad_pair pairs.now ≡ false }
    requires empty { seen.old ≡ replicate 65536 false }
    ensures { result ≡ has_repeat pairs.now }
{
    for pair in pairs {
        let node = pair.0 as usize;
        if seen[node] {
            return true;
        }
        seen[node] = true;
    }
    false
}
