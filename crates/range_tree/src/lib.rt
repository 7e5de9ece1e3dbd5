//! The tree of a range (the Dynamo paper, section 4.7) as one value: the rows in leaves, and the digests of the clean
//! nodes. A clean node's digest is the digest of its text for the rows now. Use it to change rows and to hash nodes: a
//! change makes the nodes above it dirty, and only the digest of a text that is still current is installed.
//!
//! - [`tree`]: the tree and its calls: `find` and `offer` for versions, `with_leaf` and `change_leaf` to replace a
//!   leaf, `rows` and `rows_text` for the rows of a leaf; `take_job`, `take_jobs`, `install`, `digest_at` and
//!   `dirty_count` for hashing jobs, `rehash`, `rehash_here` and `rehash_some` to hash the whole tree; `snapshot` and
//!   `kept_snapshot` for other replicas, and `share` for another owner.
//!
//! ```
//! tree.offer(alloc, home.leaf, &key, version)?;
//! let hashed = tree.rehash_here(alloc)?;
//! let snapshot = tree.snapshot(alloc)?;
//! ```
#![tactic(auto)]

pub mod tree;

pub use tree::Tree;
