//! The journal of a range: the versions that it accepted, in order. Use it to check a range's rows and its callers'
//! passes against the accepted versions.
//!
//! - [`journal`]: journals, and the versions that entries hold for a key.
//! - [`replay`]: the versions that a journal held when it was shorter.
//! - [`laws`]: laws proved from the definitions.
//!
//! ```
//! append(alloc, journal, 1)?;
//! append(alloc, journal, 2)?;
//! let later = version(alloc, (1, 2), Kind::Live, b"x")?;
//! let held = held_in(alloc, journal.entries(), b"a")?;
//! expect(
//!     held.len() == 1 && held.covers(&later),
//!     "the later version is held",
//! )?;
//! ```
#![tactic(auto)]

pub mod journal;
pub mod laws;
pub mod replay;

pub use journal::{Entry, Journal, Source, copy_entries, held_in};
pub use replay::Replay;
