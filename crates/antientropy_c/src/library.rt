//! The library's version, and the names of the numbers that its calls return.
ghost use Rattle.std.specs.Prelude.{◌≡◌, Ok};
ghost use Rattle.vclock.specs.Refusal.{cause_number, name_of};
ghost use Rattle.vclock.specs.declared.refusal.Refusal.{Refusal};
ghost use Rattle.c_calls.specs.Hands.{HandsOut};
ghost use Rattle.c_calls.specs.Library.{name_numbered};

use c_calls::library::name_of;
use c_calls::output::copy_out;

/// The version of the library: 10,000 times the major number, 100 times the minor one, and the patch.
const VERSION: u32 = 20_000;

/// Returns the version of the library as one number: 20,000 for 2.0.0.
#[unsafe(no_mangle)]
pub extern "C" fn antientropy_version() -> u32
    ensures { result ≡ 20000 }
{
    VERSION
}

/// Copies out the name of a number that a call returned, in ASCII: for 1 to 32 the name that scripts print. A number
/// that no call returns has no bytes. Refused: SMALL.
#[unsafe(no_mangle)]
pub extern "C" fn antientropy_name(number: u32, out: &mut [u8], need: &mut u64) -> u32
    ensures name { HandsOut (Ok (name_numbered number)) result (need.old, out.old) (need.new, out.new) }
    ensures refusals { (e : Refusal) → name_numbered (cause_number e) ≡ name_of e }
{
    copy_out(name_of(number).as_bytes(), out, need)
}
