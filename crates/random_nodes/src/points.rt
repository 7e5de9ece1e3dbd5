//! The points of a worker, at which other steps are taken.
ghost use Rattle.std.specs.Prelude.{◌<◌};

use crate::steps::Step;
use plain_model::random::Random;
use ring_node::{Gate, Step as Passed};
use std::sync::Wait;

/// The maximum number of steps that are taken at one point.
const MOST: u64 = 3;

/// The generator of the numbers of steps that are taken at a worker's points.
#[derive(Clone, Copy)]
pub(crate) struct Points {
    random: Random,
    pace: u64,
    ghost once: { 0 < pace },
}

impl Points {
    /// Returns the points of the worker of a step.
    pub(crate) fn of(step: &Step) -> Points {
        Points {
            random: Random::new(step.salt),
            pace: step.pace,
        }
    }

    /// Passes a point: each pass of the gate takes one step. Returns true if no step is taken.
    pub(crate) fn pass<G: Gate, R: Wait>(&mut self, rt: &R, gate: &G) -> bool {
        for count in 0..MOST {
            if !self.random.once_in(self.pace) {
                return count == 0;
            }
            gate.pass(rt, Passed::Taken);
        }
        false
    }
}
