//! Snapshots: the rows and the tree of a range at one moment (section 4.7 of the Dynamo paper), which never change
//! afterwards. Use it to offer a range to another replica and to answer its asks.
//!
//! - [`snapshot`]: the shared leaves of a range, with the digests of all nodes.
//! - [`laws`]: a law proved from the definitions.
//!
//! ```
//! let snapshot = Snapshot::new(alloc, Format::One, 3, 5, leaves, digests)?;
//! expect_head(&snapshot, &root)?;
//! ```
#![tactic(auto)]

pub mod laws;
pub mod snapshot;

pub use snapshot::Snapshot;
