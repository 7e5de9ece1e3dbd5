//! Reasons that end a list early.

use std::alloc::{AllocError, AllocFailed};
use std::fmt;
use vclock::Refusal;

/// The reason why a list ends early.
#[derive(Clone, Copy)]
pub enum Trouble {
    /// A check that doesn't hold.
    Differs(&'static str),
    /// A call that must not be refused. Contains the refusal's name.
    Refused(&'static str),
}

impl fmt::Display for Trouble {
    fn fmt<W: fmt::Write>(&self, f: &mut fmt::Formatter<W>) -> fmt::Result {
        match self {
            Trouble::Differs(what) => write!(f, "{what} differs"),
            Trouble::Refused(name) => write!(f, "{name}"),
        }
    }
}

impl From<Refusal> for Trouble {
    fn from(refusal: Refusal) -> Trouble {
        Trouble::Refused(refusal.name())
    }
}

impl From<AllocError> for Trouble {
    fn from(_error: AllocError) -> Trouble {
        Trouble::from(Refusal::NoMemory)
    }
}

impl<T: Drop> From<AllocFailed<T>> for Trouble {
    fn from(_failed: AllocFailed<T>) -> Trouble {
        Trouble::from(Refusal::NoMemory)
    }
}

/// Ends the list if a check doesn't hold.
pub fn expect(holds: bool, what: &'static str) -> Result<(), Trouble> {
    if holds {
        Ok(())
    } else {
        Err(Trouble::Differs(what))
    }
}
