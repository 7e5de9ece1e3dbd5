//! The bounds of an exchange.

/// The bounds within which an exchange asks.
///
/// ```
/// let bounds = Bounds { lost: 2, ..WIDE };
/// ```
#[derive(Clone, Copy, Debug, PartialEq, Eq)]
pub struct Bounds {
    /// The maximum number of asks in progress.
    pub asks: u32,
    /// The maximum estimated size, in bytes, of the answers to the asks in progress. A single answer may be longer.
    pub bytes: u64,
    /// The maximum number of bad answers: after one more the exchange is over.
    pub bad: u32,
    /// The maximum number of lost asks: after one more the exchange is over.
    pub lost: u32,
}
