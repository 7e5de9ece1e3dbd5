//! The making, migration and freeing of replicas.
ghost use Rattle.std.specs.Prelude.{◌≡◌, false, Result, ⊤};
ghost use Rattle.vclock.specs.Outcome.{Does};
ghost use Rattle.vclock.specs.declared.refusal.Refusal.{Refusal};
ghost use Rattle.range_store.specs.Config.{config_of};
ghost use Rattle.range_state.specs.Migrates.{migrate};
ghost use Rattle.c_calls.specs.Numbers.{Returns};
ghost use Rattle.antientropy_c.specs.Calls.{Calls};
ghost use Rattle.antientropy_c.specs.Makes.{Makes};
ghost use Rattle.c_calls.specs.Fresh.{config_fault, IsFresh};

use crate::frame::with_state;
use crate::replica::Replica;
use c_calls::frame::fill;
use c_calls::lifecycle::fresh;
use c_calls::numbers::{HELD, code};
use c_handle::InC;
use range_state::{RangeState, Seed};
use std::alloc::Global;

/// Makes a replica that has accepted nothing, as [`RangeConfig::new`](range_state::RangeConfig::new) and
/// [`RangeState::new`] do.
///
/// Refused, in order: HELD (the handle holds a replica already), BadRing (the numbers are outside the limits),
/// NoMemory. On error the handle is unchanged.
#[unsafe(no_mangle)]
#[tactic(auto, using(crate::proofs::MakeLaws::already))]
pub extern "C" fn antientropy_new(
    alloc: Global,
    replica: &mut Replica,
    format: u64,
    bits: u64,
    range: u64,
    limit: u64,
) -> u32
    ensures { Makes result replica.old replica.new (config_fault (config_of format bits range limit))
        (IsFresh (config_of format bits range limit)) }
{
    if let Some(kept) = replica.take(alloc) {
        replica.hold(kept);
        return HELD;
    }
    let made = fresh(alloc, format, bits, range, limit, Seed::default());
    fill(replica, made)
}

/// Makes a replica like [`antientropy_new`], with a seed of two words as in [`RangeState::seeded`]. A random seed keeps
/// clients from choosing keys that are slow to find.
///
/// Refused, in order: HELD (the handle holds a replica already), BadRing (the numbers are outside the limits),
/// NoMemory. On error the handle is unchanged.
#[unsafe(no_mangle)]
#[tactic(auto, using(crate::proofs::MakeLaws::already))]
pub extern "C" fn antientropy_new_seeded(
    alloc: Global,
    replica: &mut Replica,
    format: u64,
    bits: u64,
    range: u64,
    limit: u64,
    first: u64,
    second: u64,
) -> u32
    ensures { Makes result replica.old replica.new (config_fault (config_of format bits range limit))
        (IsFresh (config_of format bits range limit)) }
{
    if let Some(kept) = replica.take(alloc) {
        replica.hold(kept);
        return HELD;
    }
    let made = fresh(alloc, format, bits, range, limit, Seed { first, second });
    fill(replica, made)
}

/// Migrates a replica of format 1 to format 2; one of format 2 is unchanged. Refused, in order: EMPTY, NoMemory. On
/// error the replica is unchanged.
#[unsafe(no_mangle)]
#[tactic(auto, using(crate::proofs::CallLaws::state_empty, crate::proofs::CallLaws::state_held, crate::proofs::CallLaws::returns))]
pub extern "C" fn antientropy_migrate(alloc: Global, replica: &mut Replica) -> u32
    ensures { Calls result replica.old replica.new ⊤ (λ s t. Returns result (λ (r : Result (Unit {0}) Refusal).
        Does r s t (migrate s))) }
{
    let mut call = |state: &mut RangeState| code(&state.migrate(alloc));
    with_state(replica, alloc, &mut call)
}

/// Frees the replica of a handle, if any.
#[unsafe(no_mangle)]
pub extern "C" fn antientropy_free(alloc: Global, replica: &mut Replica)
    ensures { replica.new.held ≡ false }
{
    let _kept = replica.take(alloc);
}
