//! The faults that end the program before its work is done.
use std::alloc::{AllocError, AllocFailed};
use std::io;
use thiserror::Error;
use vclock::Refusal;

/// The reason why the program couldn't do its work. Its text goes to standard error.
#[derive(Debug, Drop, Error)]
pub(crate) enum Fault {
    /// A call of the libraries was refused, or memory ran out.
    #[error("{0}")]
    Refused(#[from] Refusal),
    /// The clock can't be read, or nothing can be written.
    #[error("{0}")]
    Device(#[from] io::Error),
    /// A get didn't return the only version of a key.
    #[error("a key that was put is not held")]
    NotHeld,
    /// A sync did more or less than take one key.
    #[error("a sync did not take one key by an ask at each depth")]
    NotOneKey,
    /// A thread didn't begin, or ended too early.
    #[error("the threads did not start together")]
    NotTogether,
    /// A thread didn't get a pass.
    #[error("there are too few passes")]
    TooFewPasses,
}

impl From<AllocError> for Fault {
    fn from(error: AllocError) -> Fault {
        Fault::Refused(Refusal::from(error))
    }
}

impl<T: Drop> From<AllocFailed<T>> for Fault {
    fn from(failed: AllocFailed<T>) -> Fault {
        Fault::Refused(Refusal::from(failed))
    }
}
