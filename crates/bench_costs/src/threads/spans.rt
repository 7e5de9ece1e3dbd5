//! The times between two moments.
use std::time::{Duration, Instant};

/// The time between two moments.
#[derive(Clone, Copy)]
pub(crate) struct Span {
    pub(crate) from: Instant,
    pub(crate) to: Instant,
}

/// The times of a thread's puts and of its gets.
#[derive(Clone, Copy)]
pub(crate) struct Spans {
    pub(crate) puts: Span,
    pub(crate) gets: Span,
}

impl Span {
    /// Returns the span from the earlier start to the later end.
    pub(crate) fn cover(self, other: Span) -> Span {
        Span {
            from: self.from.min(other.from),
            to: self.to.max(other.to),
        }
    }

    /// Returns its length.
    pub(crate) fn length(&self) -> Duration {
        self.to.duration_since(self.from)
    }
}

impl Spans {
    /// Returns the spans from the first start to the last end, of the puts and of the gets.
    pub(crate) fn cover(self, other: Spans) -> Spans {
        Spans {
            puts: self.puts.cover(other.puts),
            gets: self.gets.cover(other.gets),
        }
    }
}
