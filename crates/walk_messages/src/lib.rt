//! The messages of a session of anti-entropy (section 4.7 of the Dynamo paper) between two replicas, as bytes. Use it
//! to write and read offers, asks and answers.
//!
//! - [`message`]: offers of a root, asks for a node's text, and answers.
//! - [`encoder`], [`decoder`]: writing messages as bytes, and reading them.
//! - [`laws`]: a law proved from the definitions.
//!
//! ```
//! expect(has_bytes(alloc, message, bytes)?, "a message has its bytes")?;
//! let read = read(alloc, bytes)?;
//! expect(has_bytes(alloc, &read, bytes)?, "it is read from its bytes")
//! ```
#![tactic(auto)]

pub mod decoder;
pub mod encoder;
mod fields;
pub mod laws;
pub mod message;

pub use decoder::{answer_parts, decode};
pub use encoder::encode;
pub use message::{Answer, Ask, Message, Offer};
