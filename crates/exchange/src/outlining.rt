//! The state of the outline of a node.

/// The state of the outline of a node.
#[derive(Clone, Copy, Debug, PartialEq, Eq)]
pub(crate) enum Outlining {
    /// None was sent.
    Never,
    /// It is in progress.
    Sent,
    /// It brought a text or none.
    Ended,
}
