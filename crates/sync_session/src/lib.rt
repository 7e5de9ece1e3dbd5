//! Sessions of anti-entropy (the Dynamo paper, section 4.7): a walk of a partner's tree from the root down to the
//! leaves that differ from the local ones. Use it to find the partner's rows that are missing from the local snapshot.
//!
//! - [`session`]: one walk: the nodes asked, and the texts taken.
//! - [`news`]: the rows of a leaf's text that are missing from the local snapshot.
//! - [`state`]: the state of a session.
//! - [`taken_text`]: a text that a session took.
//! - [`laws`]: laws proved from the definitions. After a finished session each version of the partner's rows is held or
//!   is below a held version, if no two different texts share a digest.
//!
//! ```
//! match session.take(alloc, node, text)? {
//!     Answered::Inner => Ok(None),
//!     Answered::Leaf(rows) => Ok(Some(rows.len())),
//! }
//! ```
#![tactic(auto)]

pub mod laws;
pub mod news;
mod node_list;
pub mod session;
pub mod state;
pub mod taken_text;
mod text_reader;

pub use news::{News, NewsPlace, NewsStep};
pub use session::{Answered, Session};
pub use state::SessionState;
pub use taken_text::Taken;
