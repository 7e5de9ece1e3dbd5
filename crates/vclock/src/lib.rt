//! Vector clocks (section 4.4 of the Dynamo paper) and the basic types that all other crates share: keys and values,
//! the two formats and the one error type. Use it to make, raise, merge and compare clocks, and to read why a call was
//! refused.
//!
//! - [`clock`]: clocks and their order.
//! - [`bytes`], [`key`]: the bytes of a key or a value, and the check of a key.
//! - [`format`]: the two formats.
//! - [`limits`]: the limits of the service.
//! - [`refusal`]: the causes of a refusal.
//!
//! ```
//! let old = clock(alloc, &[(2, 1), (1, 3)])?;
//! let raised = old.raise(alloc, 2)?;
//! expect_pairs(&raised, &[(1, 3), (2, 2)])?;
//! expect(
//!     old.compare(&raised) == ClockOrder::Before && raised.compare(&old) == ClockOrder::After,
//!     "the old clock is before the raised one",
//! )
//! ```
#![tactic(auto)]

pub mod bytes;
pub mod clock;
pub mod format;
pub mod key;
pub mod limits;
pub mod refusal;

pub use bytes::Bytes;
pub use clock::{Clock, ClockOrder, ClockPairs};
pub use format::Format;
pub use key::check_key;
pub use refusal::{Clocks, PassPart, Refusal};
