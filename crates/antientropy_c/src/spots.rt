//! The range and the leaf of a key, so that a host can find the replicas of a key.
ghost use Rattle.std.specs.Prelude.{◌≡◌, Result};
ghost use Rattle.vclock.specs.Format.{format_of};
ghost use Rattle.vclock.specs.declared.refusal.Refusal.{Refusal};
ghost use Rattle.c_calls.specs.Numbers.{Returns};
ghost use Rattle.c_calls.specs.Spots.{spot_of, TellsSpot};
ghost use Rattle.c_calls.specs.declared.spots.Spot.{Spot};

use c_calls::numbers::code;
use c_calls::spots::{Spot, spot_of, tell_spot};

/// Stores the range and the leaf of a key in a ring of 2^bits ranges, as [`place`](key_ring::place) returns them.
/// Refused, in order: BadRing (the format is neither 1 nor 2, or the bits are over 8), BadKey. On error the spot is
/// unchanged.
#[unsafe(no_mangle)]
#[tactic(auto, using(crate::proofs::CallLaws::returns))]
pub extern "C" fn antientropy_place(format: u64, bits: u64, key: &[u8], spot: &mut Spot) -> u32
    ensures { Returns result (λ (r : Result Spot Refusal). (r ≡ spot_of (format_of format) bits key.now)
        × TellsSpot r spot.old spot.new) }
{
    let outcome = spot_of(format, bits, key);
    tell_spot(&outcome, spot);
    code(&outcome)
}
