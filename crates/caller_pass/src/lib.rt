//! Passes, which record for each caller of a range the entries that it made and the versions that it read, and the
//! range that a lock keeps. Use them to prove for each thread that it reads its own writes, and to compare its record
//! with the journal when the range is closed.
//!
//! - [`reading`], [`pass`]: the record of one caller.
//! - [`book`]: the count of a range's entries, and the passes of its seats.
//! - [`locked_range`]: a range with its book; its calls record their outcome in the pass that they are lent.
//! - [`unread`]: the refusal of a read.
//! - [`close`]: the close of a range, once each pass agrees with the journal.
//! - [`renewal`]: the close of a range, and a new one of the same ledger that begins with the versions held.
//! - [`laws`]: laws proved from the definitions: a caller reads its own writes, and its readings of a key never go
//!   back.
//!
//! ```
//! let (book, mut passes) = open_passes::<L>(blank, alloc, 2)?;
//! let one = passes.pop().ok_or("no pass")?;
//! let zero = passes.pop().ok_or("one pass")?;
//! Ok(Locked {
//!     range: LockedRange::new(state, book),
//!     one,
//!     zero,
//! })
//! ```
#![tactic(auto)]

pub mod book;
pub mod close;
pub mod laws;
pub mod locked_range;
mod missing;
pub mod pass;
pub mod reading;
mod receipt_index;
pub mod renewal;
pub mod unread;

pub use book::{Book, ReturnedPass, Unabsorbed, open_passes};
pub use close::{Closed, Unclosed};
pub use locked_range::LockedRange;
pub use pass::Pass;
pub use reading::Reading;
pub use renewal::Renewed;
pub use unread::Unread;
