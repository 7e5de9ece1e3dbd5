//! The local rows that are offered to a partner, or compared with a partner's.

/// The local rows that are offered to a partner, or compared with a partner's.
#[derive(Clone, Copy, Debug, PartialEq, Eq)]
pub enum LocalRows {
    /// The rows now.
    Now,
    /// The rows of the moment that the range keeps.
    Moment,
}
