//! The sizes of a replica and of a snapshot.
ghost use Rattle.std.specs.Prelude.{◌≡◌, ◌-◌, ◌^◌, min};
ghost use Rattle.hash_tree.specs.Sizes.{rows_len};
ghost use Rattle.c_calls.specs.Sizes.{sizes_of};
ghost use Rattle.antientropy_c.specs.Calls.{ReadsState};
ghost use Rattle.antientropy_c.specs.Offers.{Shows};

use crate::publication_share::PublicationShare;
use crate::replica_share::ReplicaShare;
use c_calls::frame::read;
use c_calls::kept::Kept;
use c_calls::published::Published;
use c_calls::sizes::{Sizes, sizes_of};

/// Stores the size of a replica. Refused: EMPTY.
#[unsafe(no_mangle)]
#[tactic(auto, using(crate::proofs::CallLaws::reads_nothing, crate::proofs::CallLaws::reads_held))]
pub extern "C" fn antientropy_share_bytes(share: &mut ReplicaShare, bytes: &mut Sizes) -> u32
    ensures { ReadsState result share.old share.new (bytes.new ≡ bytes.old)
        (λ s. (result ≡ 0) × (bytes.new ≡ sizes_of s)) }
{
    let mut call = |kept: &Kept| {
        *bytes = sizes_of(kept.state());
        0
    };
    read(share, &mut call)
}

/// Stores the length in bytes of the texts of a snapshot's rows, at most 2^64 - 1. Refused: EMPTY.
#[unsafe(no_mangle)]
#[tactic(auto, using(crate::proofs::CallLaws::reads_nothing, crate::proofs::CallLaws::reads_held))]
pub extern "C" fn antientropy_share_snapshot_bytes(
    share: &mut PublicationShare,
    bytes: &mut u64,
) -> u32
    ensures { Shows result share.old share.new (bytes.new ≡ bytes.old)
        (λ m. (result ≡ 0) × (bytes.new ≡ min (rows_len m.rows.format m.rows.rows) (2 ^ 64 - 1))) }
{
    let mut call = |rows: &Published| {
        *bytes = rows.snapshot().rows_len();
        0
    };
    read(share, &mut call)
}
