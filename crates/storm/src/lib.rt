//! A storm: a stress test of two nodes that write, rehash, and sync with each other, with a thread for each of these.
//! Use it to check that background work continues alongside writes, and that both nodes agree in the end.
//!
//! - [`storm`]: the run of a storm, and its end.
//! - [`tally`]: the progress of the threads.
#![tactic(auto)]

mod node;
pub mod storm;
pub mod tally;
mod threads;
mod workers;
mod writer;

pub use storm::{PUTS_MAX, StormEnd, run_storm};
pub use tally::{SharedTally, Tallies, Tally};
