//! New replicas that begin with the versions that others hold.
ghost use Rattle.std.specs.Prelude.{◌≡◌};
ghost use Rattle.vclock.specs.Answer.{Answers};
ghost use Rattle.c_calls.specs.Kept.{renewal_fault, renewed_kept};

use crate::kept::Kept;
use std::alloc::Global;
use vclock::Refusal;

/// Makes a new replica that begins with the versions that another one holds, as
/// [`RangeState::renewed`](range_state::RangeState::renewed) does at seat 0. The numbers of entries continue: the last
/// number that the other one used belongs to the last entry of the new replica.
///
/// Refused, in order: BadRing (the limit), JournalFull (more versions are held than the limit, or after 1,000,000
/// entries more a number could be over 2^64 - 1), NoMemory.
pub fn renewed(alloc: Global, kept: &Kept, limit: u64) -> Result<Box<Kept, Global>, Refusal>
    ensures { Answers result (renewal_fault kept.now limit) (λ new. new.value ≡ renewed_kept kept.now limit) }
{
    Ok(Box::new(alloc, kept.renewed(alloc, limit)?)?)
}
