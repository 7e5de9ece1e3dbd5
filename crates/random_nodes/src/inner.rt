//! Gates that take steps.

use crate::world::World;
use ring_node::{Gate, Step as Passed};
use std::sync::Wait;
use std::sync::ledger::Ledger;

/// A gate that takes the next step of a world's schedule, at a depth. The points of that step's worker are passed with
/// another gate.
#[derive(Drop)]
pub(crate) struct Inner<'a, L: Ledger, M: Ledger, N: Ledger, C: Ledger, G: Gate> {
    pub(crate) world: &'a World<L, M, N, C>,
    pub(crate) depth: u16,
    pub(crate) gate: &'a G,
}

impl<'a, L: Ledger, M: Ledger, N: Ledger, C: Ledger, G: Gate> Gate for Inner<'a, L, M, N, C, G> {
    fn pass<R: Wait>(&self, rt: &R, _step: Passed) {
        if let Some(step) = self.world.schedule.take(rt, self.depth) {
            self.world.run(rt, self.depth, &step, self.gate);
        }
    }
}
