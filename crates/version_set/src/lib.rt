//! Versions of a key (section 4.4 of the Dynamo paper), and sets of versions in which no version is below another. Use
//! it to keep the concurrent versions of a key and to drop those that a later version has seen.
//!
//! - [`version`], [`kind`]: a version, and its kind.
//! - [`set`]: sets of versions.
//! - [`held`]: sets that may be absent.
//! - [`laws`]: a law proved from the definitions.
//!
//! ```
//! offer_version(set, version(alloc, (1, 1), Kind::Tombstone, b"")?)?;
//! offer_version(set, version(alloc, (1, 1), Kind::Live, b"x")?)?;
//! let both = "[(1, 1)] Live [120]\n[(1, 1)] Tombstone []\n";
//! let held = members(alloc, set)?;
//! expect(held.as_str() == both, "a tombstone and a value are kept")
//! ```
#![tactic(auto)]

pub mod held;
pub mod kind;
pub mod laws;
mod members;
pub mod set;
pub mod version;

pub use held::Held;
pub use kind::Kind;
pub use set::{Offered, VersionSet};
pub use version::{Version, payload_len};
