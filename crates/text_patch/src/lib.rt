//! Outlines and patches: a sync that sends only what differs (the Dynamo paper, section 4.7). An outline lists the
//! parts of a node's text that the asker has, by marks of a few bytes, and a patch is the partner's text as copies of
//! these parts and new bytes. A patch isn't trusted: the text that it makes is hashed and judged like any other.
//!
//! - [`parts`]: the parts of a node's text.
//! - [`marks`]: the marks of parts, and where they are in an outline.
//! - [`writer`], [`reader`]: writing the steps of a patch for an outline, and making a text from them.
//! - [`messages`]: outlines and patches as bytes.
//! - [`laws`]: laws proved from the definitions: a true patch makes the partner's text.
//!
//! ```
//! let patch = patch(alloc, &partner, read, &marks)?;
//! ```
#![tactic(auto)]

pub mod laws;
pub mod marks;
pub mod messages;
pub mod parts;
pub mod reader;
pub mod writer;

pub use marks::{Marks, check_width};
pub use messages::{outline, outline_parts, patch, patch_parts};
pub use parts::parts_of;
pub use reader::rebuild;
