//! Expectations of tests.
use std::test::Fail;

/// Fails the test with these words unless the condition holds.
pub fn expect(holds: bool, what: &'static str) -> Result<(), Fail> {
    if holds { Ok(()) } else { Err(Fail::from(what)) }
}
