//! Faults, which end the program before its work is finished.

use thiserror::Error;

/// The reason why the program could not do its work. Its text goes to standard error.
#[derive(Clone, Copy, Debug, PartialEq, Eq, Error)]
pub(crate) enum Fault {
    /// A read or a write failed.
    #[error("device fault")]
    Device,
    /// Memory ran out.
    #[error("no memory")]
    NoMemory,
}
