//! The times that calls took.
use std::alloc::{AllocError, Global};
use std::time::Duration;

/// Times, in nanoseconds.
#[derive(Drop)]
pub(crate) struct Times {
    took: Vec<u64>,
}

impl Times {
    /// Returns an empty list, with capacity for this number of times.
    pub(crate) fn new(alloc: Global, count: usize) -> Result<Times, AllocError> {
        Ok(Times {
            took: Vec::with_capacity(alloc, count)?,
        })
    }

    /// Notes a time. Past the reserved capacity, it is lost if memory runs out.
    pub(crate) fn note(&mut self, took: Duration) {
        if let Ok(took) = u64::try_from(took.as_nanos()) {
            let _ = self.took.push(took);
        }
    }

    /// Returns the number of times.
    pub(crate) fn len(&self) -> usize {
        self.took.len()
    }

    /// Sorts the times.
    pub(crate) fn sort(&mut self) {
        self.took.sort_unstable();
    }

    /// Returns the shortest time within which this part of the calls, in ten-thousandths, were done, once the times are
    /// sorted. Returns 0 if the list is empty.
    pub(crate) fn at(&self, part: usize) -> u64 {
        let rank = self.took.len().saturating_mul(part).div_ceil(10_000);
        match self.took.get(rank.saturating_sub(1)) {
            Some(took) => *took,
            None => 0,
        }
    }
}
