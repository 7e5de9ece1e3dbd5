//! Lines of calls.
use std::io;
use vclock::Refusal;

/// Prints the result of a call: a number for it, or the name of its refusal.
pub(crate) fn show(rt: &impl Print, call: &str, returned: Result<u64, Refusal>) -> io::Result<()> {
    match returned {
        Ok(number) => println!(rt; "{call}: {number}"),
        Err(refusal) => println!(rt; "{call}: {refusal}"),
    }
}

/// Returns the refusal if the call's value is unchanged, otherwise Dirty, which no call here returns.
pub(crate) fn unchanged(refusal: Refusal, is_as_it_was: Result<bool, Refusal>) -> Refusal {
    match is_as_it_was {
        Ok(true) => refusal,
        Ok(false) | Err(_) => Refusal::Dirty,
    }
}
