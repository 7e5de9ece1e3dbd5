//! Rehashing in the caller's thread.
ghost use Rattle.std.specs.Prelude.{◌≡◌, None};
ghost use Rattle.vclock.specs.Answer.{Answers};
ghost use Rattle.range_state.specs.Trees.{rehashed, HashesSome, IsSameRange};

use range_state::RangeState;
use std::alloc::Global;
use vclock::Refusal;

/// Hashes every dirty node of a replica. Refused: NoMemory. On error some of the dirty nodes may be clean, and
/// everything else is unchanged.
pub fn rehash(alloc: Global, state: &mut RangeState) -> Result<(), Refusal>
    ensures ok { Answers result None (λ _. state.new ≡ rehashed state.old) }
    ensures same { IsSameRange state.old state.new }
{
    state.rehash_here(alloc)?;
    Ok(())
}

/// Hashes at most `most` of the dirty nodes whose children are clean, and returns the number of nodes that are dirty
/// afterwards. Refused: NoMemory. On error the replica is unchanged.
pub fn rehash_some(alloc: Global, state: &mut RangeState, most: u64) -> Result<u64, Refusal>
    ensures { HashesSome result most state.old state.new }
{
    Ok(state.rehash_some(alloc, most as usize)? as u64)
}
