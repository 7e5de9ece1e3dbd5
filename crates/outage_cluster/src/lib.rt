//! The cluster of an outage script: a ring, the replicas of its ranges, its nodes' hints, and the slots for background
//! work. Use it to act on commands, each with one answer.
//!
//! - [`world`]: the world that commands change.
//! - [`answer`]: the answers of the commands.
//!
//! ```
//! if !world.suits(&command) {
//!     return Ok(None);
//! }
//! let answer = world.act(rt, alloc, command)?;
//! ```
#![tactic(auto)]

pub mod answer;
mod cluster;
mod handoff;
mod home;
mod replica;
mod replicas;
mod slots;
pub mod world;

pub use answer::{CommandAnswer, SlotCounts};
pub use world::{AtEnd, World};
