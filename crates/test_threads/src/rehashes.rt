//! Rehash workers, and puts alongside them.
ghost use Rattle.std.specs.Prelude.{◌≡◌};

use crate::barrier::Barrier;
use crate::calls::{put, rehash};
use crate::nodes::{Pair, Replica};
use caller_pass::Pass;
use ring_node::{OpenGate, RehashReport, SharedController, SharedRange, Step};
use std::alloc::Global;
use std::marker::Brand;
use std::sync::Wait;
use std::sync::ledger::{Blank, Ledger};
use std::test::Fail;
use std::thread;
use std::thread::Threads;
use test_values::checks::expect;
use vclock::Refusal;

/// The maximum number of turns of a rehash.
const TURNS: u64 = 300;

/// Puts `a` in each range once the worker is held, and opens the gate. Returns the numbers of the entries.
fn put_beside<L: Ledger, M: Ledger, R: Wait>(
    rt: &R,
    alloc: Global,
    gate: &Barrier,
    range: &SharedRange<L>,
    pass: &mut Pass<L>,
    other: &mut Replica<M>,
) -> Result<(u64, u64), Refusal> {
    gate.wait_for_arrival();
    let first = put(rt, alloc, range, pass, b"a", 1);
    let second = other.put(rt, alloc, b"a", 0);
    gate.open();
    Ok((first?, second?))
}

/// Returns the report of a worker that ended because no node was dirty.
fn ended(installed: u64, stale: u64) -> RehashReport {
    RehashReport {
        installed,
        stale,
        clean: true,
    }
}

/// Rehashes a range with one dirty leaf, held at a step while `a` is put, in it and in another range.
fn rehash_held<
    L: Ledger + Send + Sync,
    M: Ledger + Send + Sync,
    C: Ledger + Send + Sync,
    R: Threads + Wait + Sync,
>(
    rt: &R,
    alloc: Global,
    one: &mut Replica<L>,
    two: &mut Replica<M>,
    slots: &SharedController<C>,
    step: Step,
) -> Result<(), Fail> {
    let Replica { range, passes, .. } = one;
    let range: &SharedRange<L> = range;
    let pass = passes.first_mut().ok_or("no pass")?;
    let gate = Barrier::new(step);
    let (report, numbers) = thread::join(
        rt,
        || rehash(rt, alloc, range, slots, &gate, TURNS),
        || put_beside(rt, alloc, &gate, range, pass, two),
    );
    expect(!gate.gave_up(), "the worker is held until both puts end")?;
    expect(numbers? == (1, 0), "each range has the put's entry")?;
    expect(report? == ended(3, 1), "one digest is too late")
}

/// Rehashes a range, puts `a` in it, and rehashes it again, held at a step while puts are made.
fn rehash_twice<
    L: Ledger + Send + Sync,
    M: Ledger + Send + Sync,
    C: Ledger + Send + Sync,
    R: Threads + Wait + Sync,
>(rt: &R, alloc: Global, pair: &mut Pair<L, M, C>, step: Step) -> Result<(), Fail> {
    let Pair { one, two, slots } = pair;
    let slots: &SharedController<C> = slots;
    let first = rehash(rt, alloc, &one.range, slots, &OpenGate, TURNS)?;
    expect(first == ended(273, 0), "each node is hashed once")?;
    one.put(rt, alloc, b"a", 0)?;
    rehash_held(rt, alloc, one, two, slots, step)
}

/// Puts while a rehash is held at a step, up to the close of both ranges.
fn put_at_a_gate<
    L: Ledger + Send + Sync,
    M: Ledger + Send + Sync,
    C: Ledger + Send + Sync,
    R: Threads + Wait + Sync,
>(rt: &R, alloc: Global, first: Blank, second: Blank, slots: Blank, step: Step) -> Result<(), Fail>
    requires first { (first.name ≡ L.name) × (first.parts ≡ L.parts) × (first.parts ≡ 2) }
    requires second { (second.name ≡ M.name) × (second.parts ≡ M.parts) × (second.parts ≡ 2) }
    requires slots { (slots.name ≡ C.name) × (slots.parts ≡ C.parts) × (slots.parts ≡ 1024) }
{
    let mut pair = Pair::<L, M, C>::open(alloc, first, second, slots)?;
    rehash_twice(rt, alloc, &mut pair, step)?;
    let [one, two] = pair.close(alloc)?;
    expect(one == 2 && two == 1, "each put has an entry")
}

#[test]
fn a_write_passes_a_rehash_at_step_1(rt: HostRuntime) -> Result<(), Fail> {
    let (first, second, slots) = (Blank::new(2), Blank::new(2), Blank::new(1_024));
    put_at_a_gate::<Brand, Brand, Brand, HostRuntime>(
        &rt,
        rt.alloc(),
        first,
        second,
        slots,
        Step::Taken,
    )
}

#[test]
fn a_write_passes_a_rehash_at_step_2(rt: HostRuntime) -> Result<(), Fail> {
    let (first, second, slots) = (Blank::new(2), Blank::new(2), Blank::new(1_024));
    put_at_a_gate::<Brand, Brand, Brand, HostRuntime>(
        &rt,
        rt.alloc(),
        first,
        second,
        slots,
        Step::Hashed,
    )
}

#[test]
fn a_write_passes_a_rehash_at_step_5(rt: HostRuntime) -> Result<(), Fail> {
    let (first, second, slots) = (Blank::new(2), Blank::new(2), Blank::new(1_024));
    put_at_a_gate::<Brand, Brand, Brand, HostRuntime>(
        &rt,
        rt.alloc(),
        first,
        second,
        slots,
        Step::Written,
    )
}
