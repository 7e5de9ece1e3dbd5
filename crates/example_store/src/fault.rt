//! The faults that end the program before its work is done.
use std::alloc::AllocFailed;
use std::io;
use thiserror::Error;
use vclock::Refusal;

/// The reason why the program couldn't do its work. Its text goes to standard error.
#[derive(Debug, Drop, Error)]
pub(crate) enum Fault {
    /// A call of the libraries was refused, or memory ran out.
    #[error("{0}")]
    Refused(#[from] Refusal),
    /// The output can't be written.
    #[error("{0}")]
    Device(#[from] io::Error),
}

impl<T: Drop> From<AllocFailed<T>> for Fault {
    fn from(failed: AllocFailed<T>) -> Fault {
        Fault::Refused(Refusal::from(failed))
    }
}
