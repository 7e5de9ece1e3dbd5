//! The moment of a replica: its rows at a time, which are hashed and offered while the replica continues.
ghost use Rattle.vclock.specs.Outcome.{Does, gives};
ghost use Rattle.range_state.specs.Moments.{with_moment};
ghost use Rattle.range_state.specs.Portions.{HashesMoment};

use range_state::RangeState;
use std::alloc::Global;
use vclock::Refusal;

/// Keeps the current rows as the moment of a replica, and frees the previous one. Copies no row. Refused: NoMemory. On
/// error the replica is unchanged.
pub fn hold(alloc: Global, state: &mut RangeState) -> Result<(), Refusal>
    ensures { Does result state.old state.new (gives tt (with_moment state.old)) }
{
    let _before = state.hold_moment(alloc)?;
    Ok(())
}

/// Hashes at most `most` of the moment's dirty nodes whose children are clean, and returns the number of its nodes that
/// are dirty afterwards: 0 without a moment. Refused: NoMemory. On error the replica is unchanged.
pub fn hash_moment(alloc: Global, state: &mut RangeState, most: u64) -> Result<u64, Refusal>
    ensures { HashesMoment result most state.old state.new }
{
    Ok(state.hash_moment(alloc, most as usize)? as u64)
}
