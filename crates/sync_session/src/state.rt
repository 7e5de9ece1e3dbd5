//! The state of a session.

/// The state of a session. A session that isn't open has nothing outstanding and never changes.
#[derive(Clone, Copy, Debug, PartialEq, Eq)]
pub enum SessionState {
    /// Some node is outstanding.
    Open,
    /// Every node that was asked has been answered.
    Finished,
    /// A text had the expected digest, but its node can't have that text.
    Failed,
    /// The session was ended before it was finished.
    Cancelled,
}
