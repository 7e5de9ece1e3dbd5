//! New replicas that begin with the versions that others hold.
ghost use Rattle.std.specs.Prelude.{◌≡◌};
ghost use Rattle.antientropy_c.specs.Calls.{ReadsKept};
ghost use Rattle.c_calls.specs.Kept.{renewal_fault, renewed_kept};
ghost use Rattle.antientropy_c.specs.Makes.{Makes};

use crate::replica::Replica;
use crate::replica_share::ReplicaShare;
use c_calls::frame::read_into;
use c_calls::kept::Kept;
use c_calls::renewal::renewed;
use std::alloc::Global;

/// Makes a new replica in an empty handle that begins with the versions that another one holds, as
/// [`RangeState::renewed`](range_state::RangeState::renewed) does at seat 0. The numbers of entries continue: the last
/// number that the other one used belongs to the last entry of the new replica. The other one is unchanged.
///
/// Refused, in order: EMPTY (of the old handle), HELD (the new handle holds a replica), BadRing (the limit),
/// JournalFull (more versions are held than the limit, or after 1,000,000 entries more a number could be over
/// 2^64 - 1), NoMemory. On error both handles are unchanged.
#[unsafe(no_mangle)]
pub extern "C" fn antientropy_share_renew(
    alloc: Global,
    share: &mut ReplicaShare,
    into: &mut Replica,
    limit: u64,
) -> u32
    ensures { ReadsKept result share.old share.new (into.new ≡ into.old) (λ s.
        Makes result into.old into.new (renewal_fault s limit) (λ new. new ≡ renewed_kept s limit)) }
{
    read_into(
        share,
        into,
        alloc,
        |kept: &Kept| renewed(alloc, kept, limit),
    )
}
