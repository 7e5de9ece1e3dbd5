//! A shared controller of slots.

use crate::calls::lend;
use crate::nodes::Node;
use crate::runs::{NodeTest, run_node};
use admission::Slot;
use ring_node::{Counts, SharedController};
use std::alloc::Global;
use std::sync::Wait;
use std::sync::ledger::Ledger;
use std::test::Fail;
use std::thread::Threads;
use test_values::checks::expect;
use test_values::refusals::is_refused;
use vclock::Refusal;

/// Borrows a slot.
fn borrow_one<C: Ledger, R: Wait>(
    rt: &R,
    slots: &SharedController<C>,
    lent: &mut Vec<Slot<C>>,
) -> Result<(), Refusal> {
    lent.reserve(1)?;
    let slot = lend(rt, slots)?;
    lent.push_reserved(slot);
    Ok(())
}

/// Returns the last borrowed slot to the controller.
fn give_one<C: Ledger, R: Wait>(rt: &R, slots: &SharedController<C>, lent: &mut Vec<Slot<C>>) {
    if let Some(slot) = lent.pop() {
        slots.give_back(rt, slot);
    }
}

/// Returns all slots to the controller.
fn give_all<C: Ledger, R: Wait>(rt: &R, slots: &SharedController<C>, lent: Vec<Slot<C>>) {
    let mut lent = lent;
    while let Some(slot) = lent.pop() {
        slots.give_back(rt, slot);
    }
    lent.destroy_empty();
}

/// Expects these numbers of lent and of free slots, of eight.
fn expect_counts<C: Ledger, R: Wait>(
    rt: &R,
    slots: &SharedController<C>,
    lent: u32,
    free: u32,
) -> Result<(), Fail> {
    let counts = Counts {
        lent,
        free,
        allowance: 8,
    };
    expect(slots.counts(rt) == counts, "each slot is lent or free")
}

/// Expects that eight slots are lent and a ninth isn't, and that a returned slot is lent again.
fn expect_eight<C: Ledger, R: Wait>(
    rt: &R,
    slots: &SharedController<C>,
    lent: &mut Vec<Slot<C>>,
) -> Result<(), Fail> {
    for (count, free) in [
        (1, 7),
        (2, 6),
        (3, 5),
        (4, 4),
        (5, 3),
        (6, 2),
        (7, 1),
        (8, 0),
    ] {
        borrow_one(rt, slots, lent)?;
        expect_counts(rt, slots, count, free)?;
    }
    let ninth = borrow_one(rt, slots, lent);
    expect(is_refused(ninth, Refusal::NoSlot), "there is no ninth slot")?;
    give_one(rt, slots, lent);
    expect_counts(rt, slots, 7, 1)?;
    borrow_one(rt, slots, lent)?;
    expect_counts(rt, slots, 8, 0)
}

/// Nine loans from a controller of eight slots.
struct NineLoans;

impl NodeTest for NineLoans {
    fn run<L: Ledger, C: Ledger, R: Threads + Wait + Sync>(
        &self,
        rt: &R,
        alloc: Global,
        node: &mut Node<L, C>,
    ) -> Result<(), Fail> {
        let mut lent = Vec::new(alloc);
        let expected = expect_eight(rt, &node.slots, &mut lent);
        give_all(rt, &node.slots, lent);
        expected?;
        expect_counts(rt, &node.slots, 0, 8)
    }
}

#[test]
fn a_ninth_slot_is_refused(rt: HostRuntime) -> Result<(), Fail> {
    run_node(&rt, rt.alloc(), 1, &NineLoans)
}

/// A sample, and calls before its moment.
struct OneSample;

impl NodeTest for OneSample {
    fn run<L: Ledger, C: Ledger, R: Threads + Wait + Sync>(
        &self,
        rt: &R,
        _alloc: Global,
        node: &mut Node<L, C>,
    ) -> Result<(), Fail> {
        let slots = &node.slots;
        expect(slots.sample(rt, 5, 1_000)? == 1, "one sample is kept")?;
        expect(
            slots.adjust(rt, 5)? == Some(1_000),
            "its latency is the percentile",
        )?;
        let refused = slots.sample(rt, 4, 1_000);
        expect(
            is_refused(refused, Refusal::ClockBack),
            "an earlier sample is refused",
        )?;
        let refused = slots.adjust(rt, 4);
        expect(
            is_refused(refused, Refusal::ClockBack),
            "an earlier adjustment is refused",
        )
    }
}

#[test]
fn a_sample_sets_the_moment(rt: HostRuntime) -> Result<(), Fail> {
    run_node(&rt, rt.alloc(), 1, &OneSample)
}
