//! New replicas.
ghost use Rattle.vclock.specs.Answer.{Answers};
ghost use Rattle.range_store.specs.Config.{config_of};
ghost use Rattle.c_calls.specs.Fresh.{config_fault, IsFresh};

use crate::kept::Kept;
use range_state::{RangeConfig, RangeState, Seed};
use std::alloc::Global;
use vclock::Refusal;

/// Makes a replica that has accepted nothing, as [`RangeConfig::new`] and [`RangeState::seeded`] do. Refused, in order:
/// BadRing (the numbers are outside the limits), NoMemory.
pub fn fresh(
    alloc: Global,
    format: u64,
    bits: u64,
    range: u64,
    limit: u64,
    seed: Seed,
) -> Result<Box<Kept, Global>, Refusal>
    ensures { Answers result (config_fault (config_of format bits range limit))
        (λ kept. IsFresh (config_of format bits range limit) kept.value) }
{
    let config = RangeConfig::new(format, bits, range, limit).ok_or(Refusal::BadRing)?;
    let state = RangeState::seeded(alloc, config, seed)?;
    Ok(Box::new(alloc, Kept::new(state))?)
}
