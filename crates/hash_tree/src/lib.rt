//! The tree of a range (section 4.7 of the Dynamo paper): its rows in leaves, and the texts of its nodes. Use it to
//! change leaves, and to write and compare the texts of nodes.
//!
//! - [`shared_leaf`]: the rows of one leaf, in order of key, with any number of owners.
//! - [`row_runs`]: the rows of a leaf, to be read a run at a time.
//! - [`leaves`]: the leaves of a range, in blocks that the range and its snapshots share.
//! - [`texts`], [`comparison`]: writing the texts of nodes, and comparing them in place.
//! - [`laws`]: laws proved from the definitions.
//! - [`tree_nodes`]: nodes, texts with their digests, and which nodes are clean.
//!
//! ```
//! let digest = hash(Text::from(leaf)).digest();
//! expect(is_spelled(alloc, digest, EMPTY_LEAF)?, "it has its digest")?;
//! let inner = inner_text(alloc, Format::One, &[digest; 16])?;
//! ```
#![tactic(auto)]

mod chunk;
mod chunks;
pub mod comparison;
pub mod laws;
mod leaf_block;
pub mod leaves;
mod measured_rows;
pub mod row_runs;
pub mod shared_leaf;
pub mod texts;

pub use comparison::is_inner_text;
pub use leaves::Leaves;
pub use row_runs::RowRuns;
pub use shared_leaf::SharedLeaf;
pub use texts::{INNER_LEN, inner_byte, inner_text, leaf_byte, leaf_text, put_inner_text};
pub use tree_nodes::{Digest, Hashed, Marks, NodeAt, hash};
