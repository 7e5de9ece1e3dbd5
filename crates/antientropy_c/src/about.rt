//! The place of a replica's range, and the number of its entries.
ghost use Rattle.std.specs.Prelude.{◌≡◌};
ghost use Rattle.c_calls.specs.About.{about_of, about_shown};
ghost use Rattle.antientropy_c.specs.Calls.{ReadsKept};
ghost use Rattle.antientropy_c.specs.Offers.{Shows};

use crate::publication_share::PublicationShare;
use crate::replica_share::ReplicaShare;
use c_calls::about::{About, about_of, about_shown};
use c_calls::frame::read;
use c_calls::kept::Kept;
use c_calls::published::Published;

/// Stores the place of the range of a replica, and the number of its entries. Refused: EMPTY.
#[unsafe(no_mangle)]
#[tactic(auto, using(crate::proofs::CallLaws::reads_nothing, crate::proofs::CallLaws::reads_held))]
pub extern "C" fn antientropy_share_about(share: &mut ReplicaShare, about: &mut About) -> u32
    ensures { ReadsKept result share.old share.new (about.new ≡ about.old)
        (λ s. (result ≡ 0) × (about.new ≡ about_of s)) }
{
    let mut call = |kept: &Kept| {
        *about = about_of(kept);
        0
    };
    read(share, &mut call)
}

/// Stores the place of the range of a snapshot, and the number of entries that made its rows: for a moment, the
/// replica's number at that time. Refused: EMPTY.
#[unsafe(no_mangle)]
#[tactic(auto, using(crate::proofs::CallLaws::reads_nothing, crate::proofs::CallLaws::reads_held))]
pub extern "C" fn antientropy_share_snapshot_about(
    share: &mut PublicationShare,
    about: &mut About,
) -> u32
    ensures { Shows result share.old share.new (about.new ≡ about.old)
        (λ m. (result ≡ 0) × (about.new ≡ about_shown m)) }
{
    let mut call = |rows: &Published| {
        *about = about_shown(rows);
        0
    };
    read(share, &mut call)
}
