//! Runs of outage scripts, with one command in each line and one line for each answer. Use it to run a script from a
//! reader to a writer, or over memory.
//!
//! ```
//! let (ended, written) = run_bytes(rt, rt.alloc(), input);
//! let written = str::from_utf8(&written)?;
//! ```
#![tactic(auto)]

/// The end of a script.
#[derive(Clone, Copy, Debug, PartialEq, Eq)]
pub enum ScriptEnd {
    /// The whole input was read and answered.
    Done,
    /// The line of that number isn't a command.
    BadLine(u64),
    /// The reader or the writer failed.
    Device,
    /// Memory ran out.
    NoMemory,
}

mod answer;
mod memory;
mod part;
mod run;
mod script_run;
mod write;

pub use memory::{line_law, run_bytes};
pub use outage_commands::LineFault;
pub use run::{run_last_script, run_script};
