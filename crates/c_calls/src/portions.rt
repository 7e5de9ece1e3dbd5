//! Portions of a replica's moment, which are hashed while the replica is in other calls.
ghost use Rattle.std.specs.Prelude.{None};
ghost use Rattle.vclock.specs.Answer.{Answers};
ghost use Rattle.range_state.specs.Portions.{IsPortion};

use range_state::{Portion, RangeState};
use std::alloc::Global;
use vclock::Refusal;

/// Takes a portion of the dirty nodes of a replica's moment: those whose children are clean, or the first `most` of
/// them if there are more. Without a moment it has no node. Refused: NoMemory.
pub fn take_portion(
    alloc: Global,
    state: &RangeState,
    most: u64,
) -> Result<Box<Portion, Global>, Refusal>
    ensures { Answers result None (λ portion. IsPortion state.now.moment most portion.value) }
{
    let portion = state.take_portion(alloc, most as usize)?;
    Ok(Box::new(alloc, portion)?)
}
