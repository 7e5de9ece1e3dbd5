//! Copies of bytes to C.
ghost use Rattle.std.specs.Prelude.{Ok};
ghost use Rattle.c_calls.specs.Hands.{HandsOut};

use crate::numbers::SMALL;
use tree_nodes::Text;
use vclock::Refusal;

/// Copies out the bytes of a result, or nothing on error, and returns the number of the outcome. Refused: SMALL (the
/// bytes don't fit).
pub fn hand_out(outcome: &Result<Text, Refusal>, out: &mut [u8], need: &mut u64) -> u32
    ensures { HandsOut outcome.now result (need.old, out.old) (need.new, out.new) }
{
    match outcome {
        Ok(bytes) => copy_out(bytes.as_slice(), out, need),
        Err(refusal) => refusal.number() as u32,
    }
}

/// Copies bytes to the front of a buffer if all of them fit. Stores their number, and returns 0 or SMALL.
pub fn copy_out(bytes: &[u8], out: &mut [u8], need: &mut u64) -> u32
    ensures { HandsOut (Ok bytes.now) result (need.old, out.old) (need.new, out.new) }
{
    *need = bytes.len() as u64;
    if bytes.len() > out.len() {
        return SMALL;
    }
    out[..bytes.len()].copy_from_slice(bytes);
    0
}
