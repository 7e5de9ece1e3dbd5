//! Exchanges: the loop of a sync (the Dynamo paper, section 4.7). Use one to run a session of a range with a partner:
//! it returns the next ask, takes the answers in any order, counts the bad ones, and reports its progress.
//!
//! - [`exchange`]: an exchange, and its calls.
//! - [`dry`]: an exchange that takes nothing, and shows the rows that are missing locally.
//! - [`bounds`]: the bounds within which it asks.
//! - [`verdict`]: the verdict on an answer; [`report`]: the progress of an exchange; [`tally`]: its counts.
//! - [`standing`]: the state of the ask for a node.
//! - [`laws`]: laws proved from the definitions: asks are bounded, whatever a partner sends.
//!
//! ```
//! match self.exchange.next(&self.state) {
//!     Some(ask) => asks.push(ask.node)?,
//!     None => return Ok(asks),
//! }
//! ```
#![tactic(auto)]

pub mod bounds;
mod course;
pub mod dry;
mod estimate;
pub mod exchange;
pub mod laws;
mod outlines;
mod outlining;
pub mod report;
pub mod standing;
mod standings;
pub mod tally;
pub mod verdict;

pub use bounds::Bounds;
pub use dry::{DryExchange, Shown};
pub use exchange::Exchange;
pub use report::{End, Report, Stop};
pub use standing::Standing;
pub use tally::Tally;
pub use verdict::Verdict;
