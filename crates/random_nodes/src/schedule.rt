//! The remaining steps of a list, and the versions that its steps made.

use crate::node::Made;
use crate::steps::{Deed, Step};
use crate::tally::Tally;
use crate::walking::Outcome;
use plain_model::trouble::Trouble;
use std::alloc::Global;
use std::sync::{Mutex, Wait};

/// The place in a list, the versions that were made, and the first trouble.
#[derive(Drop)]
struct Place {
    next: usize,
    made: Vec<Made>,
    tally: Tally,
    trouble: Option<Trouble>,
}

/// The steps of a list, which are taken in turn.
#[derive(Drop)]
pub(crate) struct Schedule {
    steps: Vec<Step>,
    place: Mutex<Place>,
}

impl Schedule {
    /// Returns a schedule with all steps left.
    pub(crate) fn new(alloc: Global, steps: Vec<Step>) -> Schedule {
        Schedule {
            steps,
            place: Mutex::new(Place {
                next: 0,
                made: Vec::new(alloc),
                tally: Tally::new(),
                trouble: None,
            }),
        }
    }

    /// Takes the next step for a depth. Returns `None` after the last step and after trouble, and at a renewal, which
    /// waits for depth 0.
    pub(crate) fn take<R: Wait>(&self, rt: &R, depth: u16) -> Option<Step> {
        let mut place = self.place.lock(rt);
        let step = *self.steps.get(place.next)?;
        let must_wait = depth > 0 && matches!(step.deed, Deed::Renew(_));
        if must_wait || place.trouble.is_some() {
            return None;
        }
        place.next = place.next.wrapping_add(1);
        place.tally.count_step(depth);
        Some(step)
    }

    /// Keeps a version that a node made.
    pub(crate) fn add<R: Wait>(&self, rt: &R, made: Made) -> Result<(), Trouble> {
        self.place.lock(rt).made.push(made)?;
        Ok(())
    }

    /// Returns a version that some node made, counted back from the last one, if any.
    pub(crate) fn made<R: Wait>(&self, rt: &R, back: u64) -> Option<Made> {
        let place = self.place.lock(rt);
        let count = place.made.len();
        let at = count.checked_sub(1)?.checked_sub(back as usize)?;
        place.made.get(at).copied()
    }

    /// Counts the outcome of a sync.
    pub(crate) fn count<R: Wait>(&self, rt: &R, outcome: Outcome) {
        self.place.lock(rt).tally.count_sync(outcome);
    }

    /// Keeps the first trouble.
    pub(crate) fn note<R: Wait>(&self, rt: &R, done: Result<(), Trouble>) {
        let mut place = self.place.lock(rt);
        if let Err(trouble) = done
            && place.trouble.is_none()
        {
            place.trouble = Some(trouble);
        }
    }

    /// Takes the first trouble.
    pub(crate) fn take_trouble<R: Wait>(&self, rt: &R) -> Option<Trouble> {
        self.place.lock(rt).trouble.take()
    }

    /// Returns the counts.
    pub(crate) fn tally<R: Wait>(&self, rt: &R) -> Tally {
        self.place.lock(rt).tally
    }
}
