//! Rehashing in the caller's thread.
ghost use Rattle.std.specs.Prelude.{◌≡◌, ℕ, Result, None, ⊤};
ghost use Rattle.vclock.specs.Answer.{Answers};
ghost use Rattle.vclock.specs.declared.refusal.Refusal.{Refusal};
ghost use Rattle.range_state.specs.Trees.{rehashed, HashesSome, IsSameRange};
ghost use Rattle.c_calls.specs.Numbers.{Returns};
ghost use Rattle.antientropy_c.specs.Calls.{Calls};
ghost use Rattle.c_calls.specs.Sessions.{TellsNumber};

use crate::frame::with_state;
use crate::replica::Replica;
use c_calls::numbers::code;
use c_calls::sessions::tell_number;
use c_calls::tree::{rehash, rehash_some};
use range_state::RangeState;
use std::alloc::Global;

/// Hashes every dirty node. Refused, in order: EMPTY, NoMemory. After NoMemory some of the dirty nodes may be clean,
/// and everything else is unchanged.
#[unsafe(no_mangle)]
#[tactic(auto, using(crate::proofs::CallLaws::state_empty, crate::proofs::CallLaws::state_held, crate::proofs::CallLaws::returns))]
pub extern "C" fn antientropy_rehash(alloc: Global, replica: &mut Replica) -> u32
    ensures { Calls result replica.old replica.new ⊤ (λ s t. Returns result (λ (r : Result (Unit {0}) Refusal).
        Answers r None (λ _. t ≡ rehashed s) × IsSameRange s t)) }
{
    let mut call = |state: &mut RangeState| {
        let outcome = rehash(alloc, state);
        code(&outcome)
    };
    with_state(replica, alloc, &mut call)
}

/// Hashes at most `most` of the dirty nodes whose children are clean, and stores the number of nodes that are dirty
/// afterwards. Refused, in order: EMPTY, NoMemory. On error the replica is unchanged.
#[unsafe(no_mangle)]
#[tactic(auto, using(crate::proofs::CallLaws::state_empty, crate::proofs::CallLaws::state_held, crate::proofs::CallLaws::returns))]
pub extern "C" fn antientropy_rehash_some(
    alloc: Global,
    replica: &mut Replica,
    most: u64,
    left: &mut u64,
) -> u32
    ensures { Calls result replica.old replica.new (left.new ≡ left.old) (λ s t. Returns result (λ (r : Result ℕ Refusal).
        HashesSome r most s t × TellsNumber r left.old left.new)) }
{
    let mut call = |state: &mut RangeState| {
        let outcome = rehash_some(alloc, state, most);
        tell_number(&outcome, left);
        code(&outcome)
    };
    with_state(replica, alloc, &mut call)
}
