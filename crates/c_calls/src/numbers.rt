//! The numbers that calls return in addition to 0 and the refusals' numbers.
ghost use Rattle.std.specs.Prelude.{◌≡◌};
ghost use Rattle.c_calls.specs.Numbers.{code_of};

use vclock::Refusal;

/// The caller's buffer is too small for the copy.
pub const SMALL: u32 = 33;

/// The handle is empty.
pub const EMPTY: u32 = 34;

/// The handle isn't empty.
pub const HELD: u32 = 35;

/// The key has no such version.
pub const NO_VERSION: u32 = 36;

/// The number isn't a position of the journal.
pub const BAD_POSITION: u32 = 37;

/// Returns 0, or the number of a refusal.
pub fn code<T>(outcome: &Result<T, Refusal>) -> u32
    ensures { result ≡ code_of outcome.now }
{
    match outcome {
        Ok(_) => 0,
        Err(refusal) => refusal.number() as u32,
    }
}
