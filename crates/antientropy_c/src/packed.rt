//! Many entries at once, as bytes: for a log, or another reader that follows the journal.
ghost use Rattle.std.specs.Prelude.{◌≡◌};
ghost use Rattle.antientropy_c.specs.Calls.{ReadsKept};
ghost use Rattle.c_calls.specs.Hands.{HandsNothing};
ghost use Rattle.c_calls.specs.Packed.{PacksFrom};

use crate::replica_share::ReplicaShare;
use c_calls::frame::read;
use c_calls::kept::Kept;
use c_calls::packed::pack_from;

/// Copies out whole entries from number `from` on, until the next one doesn't fit. Stores the number of bytes in
/// `need`, and the number after the last of these entries in `next`: `from` if none was copied. The text of an entry is
/// its source in one byte, and the text of a row of its key with its version. If entries are left and the first one
/// doesn't fit, `need` is the length of its text.
///
/// Refused, in order: EMPTY; BAD_POSITION (`from` is over the number of entries; or it is below the number at the last
/// renewal, and isn't the journal's first number); SMALL (the first entry doesn't fit). On error `next` and the buffer
/// are unchanged.
#[unsafe(no_mangle)]
#[tactic(auto, using(crate::proofs::CallLaws::reads_nothing, crate::proofs::CallLaws::reads_held))]
pub extern "C" fn antientropy_share_entries(
    share: &mut ReplicaShare,
    from: u64,
    out: &mut [u8],
    need: &mut u64,
    next: &mut u64,
) -> u32
    ensures { ReadsKept result share.old share.new ((next.new ≡ next.old) × HandsNothing (need.old, out.old) (need.new, out.new))
        (λ s. PacksFrom s from result next.old next.new (need.old, out.old) (need.new, out.new)) }
{
    let mut call = |kept: &Kept| pack_from(kept, from, out, need, next);
    read(share, &mut call)
}
