//! Reads of a replica's rows.
ghost use Rattle.std.specs.Prelude.{◌≡◌, length};
ghost use Rattle.vclock.specs.Answer.{Answers};
ghost use Rattle.vclock.specs.Bytes.{key_fault};
ghost use Rattle.range_journal.specs.Journal.{held};
ghost use Rattle.antientropy_c.specs.Calls.{ReadsState};
ghost use Rattle.c_calls.specs.Hands.{HandsNothing, HandsOutRight};
ghost use Rattle.c_calls.specs.Shows.{row_shown};

use crate::replica_share::ReplicaShare;
use c_calls::frame::read;
use c_calls::kept::Kept;
use c_calls::output::hand_out;
use c_calls::rows::row;
use c_calls::versions::versions_of;
use std::alloc::Global;

/// Writes the text of the row of a key: no bytes if no version is held. Refused, in order: EMPTY, BadKey, NoMemory,
/// SMALL.
#[unsafe(no_mangle)]
#[tactic(auto, using(crate::proofs::CallLaws::reads_nothing, crate::proofs::CallLaws::reads_held, crate::proofs::CallLaws::gives))]
pub extern "C" fn antientropy_share_get(
    alloc: Global,
    share: &mut ReplicaShare,
    key: &[u8],
    out: &mut [u8],
    need: &mut u64,
) -> u32
    ensures { ReadsState result share.old share.new (HandsNothing (need.old, out.old) (need.new, out.new))
        (λ s. HandsOutRight result (need.old, out.old) (need.new, out.new)
        (λ r. Answers r (key_fault key.now) (λ bytes. bytes ≡ row_shown s key.now))) }
{
    let mut call = |kept: &Kept| {
        let outcome = row(alloc, kept.state(), key);
        hand_out(&outcome, out, need)
    };
    read(share, &mut call)
}

/// Counts the versions that are held for a key. Refused: EMPTY.
#[unsafe(no_mangle)]
#[tactic(auto, using(crate::proofs::CallLaws::reads_nothing, crate::proofs::CallLaws::reads_held))]
pub extern "C" fn antientropy_share_versions(
    share: &mut ReplicaShare,
    key: &[u8],
    count: &mut u64,
) -> u32
    ensures { ReadsState result share.old share.new (count.new ≡ count.old) (λ s. (result ≡ 0)
        × (count.new ≡ length (held s.store.entries key.now))) }
{
    let mut call = |kept: &Kept| {
        *count = versions_of(kept.state(), key).len() as u64;
        0
    };
    read(share, &mut call)
}
