//! The plan of the calls.
use crate::calls::round::Round;
use crate::entries::{PLAIN, Shape};
use vclock::limits::ENTRIES_MAX;

/// The default number of keys.
const FEW_KEYS: u64 = 1_000;

/// The number of turns. Each puts one more key.
pub(crate) const TURNS: u64 = 200;

/// The plan of the calls: the number of keys before the turns, and the shape of all.
#[derive(Clone, Copy)]
pub(crate) struct CallPlan {
    pub(crate) keys: u64,
    pub(crate) shape: Shape,
}

impl CallPlan {
    /// Returns the plan from these arguments, or `None` if they are invalid: the number of keys, 1,000 by default, and
    /// the arguments of the shape.
    pub(crate) fn of_words(words: &[String]) -> Option<CallPlan> {
        match words {
            [] => CallPlan::new(FEW_KEYS, PLAIN),
            [keys, shape @ ..] => {
                CallPlan::new(keys.parse::<u64>().ok()?, Shape::of_words(shape)?)
            }
        }
    }

    /// Returns a plan if it has a key, and a journal has capacity for all keys and the keys of the turns.
    fn new(keys: u64, shape: Shape) -> Option<CallPlan> {
        if 1 <= keys && keys <= ENTRIES_MAX - TURNS {
            Some(CallPlan { keys, shape })
        } else {
            None
        }
    }

    /// Returns the round in which the keys are last written: the second, if a journal has capacity for two versions of
    /// each.
    pub(crate) fn last_round(&self) -> Round {
        if self.keys <= (ENTRIES_MAX - TURNS) / 2 {
            Round::Second
        } else {
            Round::First
        }
    }
}
