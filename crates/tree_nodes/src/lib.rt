//! The nodes of a range's tree (section 4.7 of the Dynamo paper): their numbers, texts and digests. Use it to name
//! nodes, to hash texts, and to record which nodes are clean.
//!
//! - [`node`]: nodes by depth and index.
//! - [`text`], [`digest`]: texts, and texts with their digests.
//! - [`marks`]: the clean nodes, and their digests.
//! - [`shared_digests`]: the digests of all nodes, in blocks that marks and snapshots share.
//!
//! ```
//! let marks = Marks::new(rt.alloc(), format)?;
//! expect(
//!     marks.dirty_count() == nodes && marks.get(node_at(0, 0)?).is_none(),
//!     "no node has a digest",
//! )?;
//! ```
#![tactic(auto)]

mod copies;
pub mod digest;
mod digest_block;
pub mod marks;
pub mod node;
mod ready;
pub mod shared_digests;
pub mod text;

pub use digest::{Digest, Hashed, hash};
pub use marks::Marks;
pub use node::{NodeAt, tree_depth};
pub use shared_digests::SharedDigests;
pub use text::Text;
