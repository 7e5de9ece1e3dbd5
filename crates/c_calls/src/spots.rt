//! The range and the leaf of a key, so that a host can find the replicas of a key.
ghost use Rattle.std.specs.Prelude.{◌≡◌};
ghost use Rattle.vclock.specs.Format.{format_of};
ghost use Rattle.c_calls.specs.Spots.{spot_of, TellsSpot};

use key_ring::{KeyPlace, place};
use vclock::limits::RING_BITS_MAX;
use vclock::{Format, Refusal, check_key};

/// The range of a key, and its leaf there.
#[repr(C)]
#[derive(Clone, Copy)]
pub struct Spot {
    /// The range, from 0.
    pub range: u64,
    /// The leaf of the range's tree, from 0.
    pub leaf: u64,
}

/// Returns the range and the leaf of a key in a ring of 2^bits ranges, as [`place`] does. Refused, in order: BadRing
/// (the format is neither 1 nor 2, or the bits are over 8), BadKey.
pub fn spot_of(format: u64, bits: u64, key: &[u8]) -> Result<Spot, Refusal>
    ensures { result ≡ spot_of (format_of format) bits key.now }
{
    let format = Format::of_number(format).ok_or(Refusal::BadRing)?;
    if bits > RING_BITS_MAX {
        return Err(Refusal::BadRing);
    }
    check_key(key)?;
    let KeyPlace { range, leaf } = place(format, bits as u8, key);
    Ok(Spot {
        range: u64::from(range),
        leaf: u64::from(leaf),
    })
}

/// Stores the range and the leaf of a key, if they were not refused.
pub fn tell_spot(outcome: &Result<Spot, Refusal>, spot: &mut Spot)
    ensures { TellsSpot outcome.now spot.old spot.new }
{
    if let Ok(found) = outcome {
        *spot = *found;
    }
}
