//! Calls that are refused.
use crate::checks::expect;
use std::test::Fail;
use vclock::Refusal;

/// Returns true if a call was refused for this cause.
pub fn is_refused<T: Drop>(answer: Result<T, Refusal>, cause: Refusal) -> bool {
    match answer {
        Ok(_) => false,
        Err(refusal) => refusal.number() == cause.number(),
    }
}

/// Fails the test with these words unless a call was refused for this cause.
pub fn expect_refused<T: Drop>(
    answer: Result<T, Refusal>,
    cause: Refusal,
    what: &'static str,
) -> Result<(), Fail> {
    expect(is_refused(answer, cause), what)
}
