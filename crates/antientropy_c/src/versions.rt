//! One version of a key, for a caller in C that doesn't parse a row's text.
ghost use Rattle.std.specs.Prelude.{◌≡◌, slice_get};
ghost use Rattle.range_journal.specs.Journal.{held};
ghost use Rattle.antientropy_c.specs.Calls.{ReadsState};
ghost use Rattle.c_calls.specs.Hands.{HandsNothing};
ghost use Rattle.c_calls.specs.Versions.{ShowsValue, ShowsClock};

use crate::replica_share::ReplicaShare;
use c_calls::frame::read;
use c_calls::kept::Kept;
use c_calls::pair::Pair;
use c_calls::versions::{show_clock, show_value};

/// Copies out the value of a version that is held for a key, by its index from 0, and stores its kind: 0 for a live
/// version, 1 for a tombstone. Refused, in order: EMPTY, NO_VERSION, SMALL. The kind is stored even if the buffer is
/// too small.
#[unsafe(no_mangle)]
#[tactic(auto, using(crate::proofs::CallLaws::reads_nothing, crate::proofs::CallLaws::reads_held))]
pub extern "C" fn antientropy_share_value(
    share: &mut ReplicaShare,
    key: &[u8],
    index: u64,
    kind: &mut u8,
    out: &mut [u8],
    need: &mut u64,
) -> u32
    ensures { ReadsState result share.old share.new ((kind.new ≡ kind.old) × HandsNothing (need.old, out.old) (need.new, out.new))
        (λ s.
        ShowsValue (slice_get (held s.store.entries key.now) index) result kind.old kind.new (need.old, out.old) (need.new, out.new)) }
{
    let mut call = |kept: &Kept| show_value(kept.state(), key, index, kind, out, need);
    read(share, &mut call)
}

/// Copies out the pairs of the clock of a version that is held for a key, by its index from 0. The pairs ascend by
/// node. Refused, in order: EMPTY, NO_VERSION, SMALL.
#[unsafe(no_mangle)]
#[tactic(auto, using(crate::proofs::CallLaws::reads_nothing, crate::proofs::CallLaws::reads_held))]
pub extern "C" fn antientropy_share_clock(
    share: &mut ReplicaShare,
    key: &[u8],
    index: u64,
    out: &mut [Pair],
    need: &mut u64,
) -> u32
    ensures { ReadsState result share.old share.new (HandsNothing (need.old, out.old) (need.new, out.new)) (λ s.
        ShowsClock (slice_get (held s.store.entries key.now) index) result (need.old, out.old) (need.new, out.new)) }
{
    let mut call = |kept: &Kept| show_clock(kept.state(), key, index, out, need);
    read(share, &mut call)
}
