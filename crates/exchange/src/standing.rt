//! The state of the ask for a node.

/// The state of the ask for a node.
#[derive(Clone, Copy, Debug, PartialEq, Eq)]
pub enum Standing {
    /// No ask was sent.
    Unasked,
    /// An ask is in progress, and its answer may have this many bytes.
    InFlight(u64),
    /// The last ask was lost: another one may be sent.
    Lost,
    /// The leaf was left, since one of its keys is crowded.
    Left,
    /// The text was taken.
    Settled,
}
