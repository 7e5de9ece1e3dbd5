//! The commands of an outage script, read from lines of JSON. Use it to read a line's command, and to explain to the
//! line's author why it isn't one.
//!
//! - [`command`]: the commands, and how they are read.
//! - [`items`]: the items of a list in a command.
//! - [`fault`]: the reason why a line isn't a command.
//!
//! ```
//! let Some(command) = command_in(alloc, line, scratch)? else {
//!     return Ok(None);
//! };
//! ```
#![tactic(auto)]

pub mod command;
mod digits;
pub mod fault;
pub mod items;
mod member;
mod tree;

pub use command::{
    Command, Get, NewRing, NewSample, Put, Rehash, ShowNode, SlotCommand, SyncFrom, command_in,
};
pub use fault::{LineFault, fault_of};
pub use items::Items;
