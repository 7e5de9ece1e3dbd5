//! Gates, at which a test can hold a worker.
ghost use Rattle.std.specs.Prelude.{◌≡◌};
ghost use Rattle.ring_node.specs.Steps.{step_number};

use std::sync::Wait;

/// A point at which a worker, or a load, passes a gate.
#[derive(Clone, Copy, Debug, PartialEq, Eq)]
pub enum Step {
    /// A rehash worker took a job.
    Taken,
    /// A rehash worker hashed the text of its job.
    Hashed,
    /// A storm's writer put a version.
    Put,
    /// A storm's sync worker begins a round.
    Round,
    /// A rehash worker wrote the text of its job, which it hashes next.
    Written,
    /// A load read its rows, for which it takes the lock next.
    Read,
}

impl Step {
    /// Returns the number of the step, from 1, in the order above.
    pub fn number(self) -> u32
        ensures { result ≡ step_number self }
    {
        match self {
            Step::Taken => 1,
            Step::Hashed => 2,
            Step::Put => 3,
            Step::Round => 4,
            Step::Written => 5,
            Step::Read => 6,
        }
    }
}

/// A gate that a worker, or a load, passes between its steps, holding no lock. It may wait there.
pub trait Gate {
    /// Passes the gate after a step. At [`Step::Round`], passes it before the round.
    fn pass<R: Wait>(&self, rt: &R, step: Step);
}

/// A gate that holds no worker, for production. Tests write other gates, to decide how threads meet.
#[derive(Clone, Copy, Debug, PartialEq, Eq)]
pub struct OpenGate;

impl Gate for OpenGate {
    fn pass<R: Wait>(&self, _rt: &R, _step: Step) {}
}
