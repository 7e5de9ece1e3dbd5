//! Receipts of journaled versions.

use range_journal::Entry;

/// The entry that a call journaled, as its caller receives it.
pub type Receipt = Entry;

/// The outcome of accepting a version: it was new to the range, or known.
///
/// ```
/// match state.accept(alloc, 3, Source::Copy, key, copy)? {
///     Accepted::Taken(receipt) => Ok(Some(receipt.number)),
///     Accepted::Known => Ok(None),
/// }
/// ```
#[derive(Debug, Drop)]
pub enum Accepted {
    /// It was journaled.
    Taken(Receipt),
    /// It was covered by versions accepted before, so nothing was journaled.
    Known,
}
