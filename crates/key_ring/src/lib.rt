//! The ring of equal ranges (sections 4.2, 4.3 and 6.2 of the Dynamo paper): the range and the leaf of each key, and
//! the nodes that keep each range. Use it to find the replicas of a key.
//!
//! - [`hashed_key`]: a key with its hashes.
//! - [`places`]: the range and the leaf of a key, by its MD5 digest.
//! - [`ring`]: a ring, with its nodes and each range's preference list.
//!
//! ```
//! expect(
//!     ring.bits() == 4 && ring.ranges() == 16 && ring.copies() == 2,
//!     "a ring has its ranges and copies",
//! )?;
//! expect(
//!     ring.nodes() == [10, 20, 30, 40].as_slice(),
//!     "a ring has its nodes",
//! )?;
//! ```
#![tactic(auto)]

pub mod hashed_key;
pub mod places;
pub mod ring;

pub use hashed_key::HashedKey;
pub use places::{KeyPlace, leaf_count, place};
pub use ring::Ring;
