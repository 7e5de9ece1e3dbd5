//! The times that the puts of two writers took.
use crate::times::Times;
use std::alloc::{AllocError, Global};
use std::time::{Duration, Instant};

/// A writer's noted puts.
#[derive(Clone, Copy)]
struct Writer {
    /// The number of its noted puts.
    puts: u64,
    /// The time at which it continued after the last of them.
    since: Option<Instant>,
}

/// The time that each put of two writers took.
#[derive(Drop)]
pub(crate) struct Latencies {
    one: Writer,
    two: Writer,
    took: Times,
}

impl Writer {
    /// Returns a writer that has done nothing.
    fn new() -> Writer {
        Writer {
            puts: 0,
            since: None,
        }
    }

    /// Notes a put that ended at a moment, the writer's last one so far. Returns the time it took, unless it is the
    /// first.
    fn note(&mut self, ended: Instant) -> Option<Duration> {
        self.puts = self.puts.saturating_add(1);
        Some(ended.duration_since(self.since?))
    }
}

impl Latencies {
    /// Returns empty latencies, with capacity for this number of puts.
    pub(crate) fn new(alloc: Global, puts: usize) -> Result<Latencies, AllocError> {
        Ok(Latencies {
            one: Writer::new(),
            two: Writer::new(),
            took: Times::new(alloc, puts)?,
        })
    }

    /// Notes that a writer ended a put at a moment, after which both have done this number of puts. Returns true if it
    /// was the first writer, which has a put that wasn't noted yet. If both have one, it may be either, since both puts
    /// ended at about this time.
    pub(crate) fn note(&mut self, ended: Instant, puts_of_one: u64) -> bool {
        let is_one = puts_of_one > self.one.puts;
        let writer = if is_one { &mut self.one } else { &mut self.two };
        if let Some(took) = writer.note(ended) {
            self.took.note(took);
        }
        is_one
    }

    /// Notes that a writer continues at a moment.
    pub(crate) fn go_on(&mut self, is_one: bool, moment: Option<Instant>) {
        let writer = if is_one { &mut self.one } else { &mut self.two };
        writer.since = moment;
    }

    /// Returns the times, sorted.
    pub(crate) fn into_times(self) -> Times {
        let mut took = self.took;
        took.sort();
        took
    }
}
