//! The counts of a carrier's hints.

/// The numbers of a carrier's hints at one moment.
#[derive(Clone, Copy, Debug, PartialEq, Eq)]
pub struct HintCounts {
    /// The number of pending hints, at most 10,000.
    pub pending: u32,
    /// The number of delivered hints.
    pub delivered: u32,
}
