//! The counts of a replica.
ghost use Rattle.std.specs.Prelude.{◌≡◌};
ghost use Rattle.antientropy_c.specs.Calls.{ReadsKept};
ghost use Rattle.c_calls.specs.Counts.{counts_of};

use crate::replica_share::ReplicaShare;
use c_calls::counts::{Counts, count};
use c_calls::frame::read;
use c_calls::kept::Kept;

/// Counts the parts of a replica. Refused: EMPTY.
#[unsafe(no_mangle)]
#[tactic(auto, using(crate::proofs::CallLaws::reads_nothing, crate::proofs::CallLaws::reads_held))]
pub extern "C" fn antientropy_share_count(share: &mut ReplicaShare, counts: &mut Counts) -> u32
    ensures { ReadsKept result share.old share.new (counts.new ≡ counts.old)
        (λ s. (result ≡ 0) × (counts.new ≡ counts_of s)) }
{
    let mut call = |kept: &Kept| {
        *counts = count(kept);
        0
    };
    read(share, &mut call)
}
