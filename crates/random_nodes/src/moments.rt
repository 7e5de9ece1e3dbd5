//! Moment workers, with other steps at their points.

use crate::node::Node;
use crate::points::Points;
use crate::steps::Step;
use admission::Slot;
use plain_model::trouble::Trouble;
use ring_node::{Gate, MomentReport, Step as Passed};
use std::alloc::Global;
use std::sync::ledger::Ledger;
use std::sync::{Mutex, Wait};
use vclock::Refusal;

/// A gate that takes other steps at the points of a moment worker.
#[derive(Drop)]
struct Watch<'a, G: Gate> {
    gate: &'a G,
    points: Mutex<Points>,
}

impl<'a, G: Gate> Watch<'a, G> {
    /// Returns the points.
    fn points<R: Wait>(&self, rt: &R) -> Points {
        *self.points.lock(rt)
    }
}

impl<'a, G: Gate> Gate for Watch<'a, G> {
    fn pass<R: Wait>(&self, rt: &R, step: Passed) {
        // (the points aren't locked while steps are taken)
        let mut points = self.points(rt);
        if step != Passed::Written {
            let _is_quiet = points.pass(rt, self.gate);
        }
        *self.points.lock(rt) = points;
    }
}

/// Holds a moment of a node, hashes it, and compares the report with the work done.
pub(crate) fn run_moment<L: Ledger, C: Ledger, G: Gate, R: Wait>(
    rt: &R,
    alloc: Global,
    node: &Node<L>,
    slot: &Slot<C>,
    gate: &G,
    step: &Step,
    turns: u64,
) -> Result<(), Trouble> {
    let watch = Watch {
        gate,
        points: Mutex::new(Points::of(step)),
    };
    // (it makes nodes of the range clean, too)
    node.count_worker(rt);
    let moments = node.note_moment(rt);
    let report = hash_in(rt, alloc, node, slot, &watch, turns)?;
    node.take_moment(rt, alloc, &report, turns, moments)
}

/// Holds and hashes a moment.
fn hash_in<L: Ledger, C: Ledger, G: Gate, R: Wait>(
    rt: &R,
    alloc: Global,
    node: &Node<L>,
    slot: &Slot<C>,
    gate: &G,
    turns: u64,
) -> Result<MomentReport, Refusal> {
    node.range().moment_worker(rt, alloc, slot, gate, turns)
}
