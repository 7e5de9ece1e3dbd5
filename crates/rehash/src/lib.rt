//! Hashing the nodes of trees, outside the locks of their ranges. Use it to write and hash the texts of dirty nodes,
//! one at a time or in several threads.
//!
//! - [`job`]: a node and the source of its text; hashing one job.
//! - [`bulk`]: hashing many jobs, in several threads or in the caller's.
//!
//! ```
//! let node = job.node();
//! state.install(node, &run_job(job))
//! ```
#![tactic(auto)]

pub mod bulk;
pub mod job;
mod source;

pub use bulk::{hash_all, hash_here};
pub use job::{Job, run_job, run_job_passing};
