//! Entries of the journal by their numbers.
ghost use Rattle.std.specs.Prelude.{◌≡◌};
ghost use Rattle.antientropy_c.specs.Calls.{ReadsKept};
ghost use Rattle.c_calls.specs.Entries.{key_in, version_in, source_in};
ghost use Rattle.c_calls.specs.Hands.{HandsNothing, HandsAny, TellsAny};
ghost use Rattle.c_calls.specs.Kept.{entry_at};
ghost use Rattle.c_calls.specs.Versions.{ShowsValue, ShowsClock};

use crate::replica_share::ReplicaShare;
use c_calls::entries::{show_clock, show_key, show_source, show_value};
use c_calls::frame::read;
use c_calls::kept::Kept;
use c_calls::pair::Pair;

/// Copies out the key of an entry. Refused, in order: EMPTY, NO_VERSION (the journal has no such entry), SMALL.
#[unsafe(no_mangle)]
#[tactic(auto, using(crate::proofs::CallLaws::reads_nothing, crate::proofs::CallLaws::reads_held))]
pub extern "C" fn antientropy_share_entry_key(
    share: &mut ReplicaShare,
    number: u64,
    out: &mut [u8],
    need: &mut u64,
) -> u32
    ensures { ReadsKept result share.old share.new (HandsNothing (need.old, out.old) (need.new, out.new)) (λ s.
        HandsAny (key_in (entry_at s number)) result (need.old, out.old) (need.new, out.new)) }
{
    let mut call = |kept: &Kept| show_key(kept, number, out, need);
    read(share, &mut call)
}

/// Copies out the value of an entry's version, and stores its kind: 0 for a live version, 1 for a tombstone. Refused,
/// in order: EMPTY, NO_VERSION (the journal has no such entry), SMALL. The kind is stored even if the buffer is too
/// small.
#[unsafe(no_mangle)]
#[tactic(auto, using(crate::proofs::CallLaws::reads_nothing, crate::proofs::CallLaws::reads_held))]
pub extern "C" fn antientropy_share_entry_value(
    share: &mut ReplicaShare,
    number: u64,
    kind: &mut u8,
    out: &mut [u8],
    need: &mut u64,
) -> u32
    ensures { ReadsKept result share.old share.new ((kind.new ≡ kind.old) × HandsNothing (need.old, out.old) (need.new, out.new))
        (λ s.
        ShowsValue (version_in (entry_at s number)) result kind.old kind.new (need.old, out.old) (need.new, out.new)) }
{
    let mut call = |kept: &Kept| show_value(kept, number, kind, out, need);
    read(share, &mut call)
}

/// Copies out the pairs of the clock of an entry's version. The pairs ascend by node. Refused, in order: EMPTY,
/// NO_VERSION (the journal has no such entry), SMALL.
#[unsafe(no_mangle)]
#[tactic(auto, using(crate::proofs::CallLaws::reads_nothing, crate::proofs::CallLaws::reads_held))]
pub extern "C" fn antientropy_share_entry_clock(
    share: &mut ReplicaShare,
    number: u64,
    out: &mut [Pair],
    need: &mut u64,
) -> u32
    ensures { ReadsKept result share.old share.new (HandsNothing (need.old, out.old) (need.new, out.new)) (λ s.
        ShowsClock (version_in (entry_at s number)) result (need.old, out.old) (need.new, out.new)) }
{
    let mut call = |kept: &Kept| show_clock(kept, number, out, need);
    read(share, &mut call)
}

/// Stores the source of an entry's version: 0 for a put, 1 for a copy, 2 for a hint, 3 for a partner's. Refused, in
/// order: EMPTY, NO_VERSION (the journal has no such entry).
#[unsafe(no_mangle)]
#[tactic(auto, using(crate::proofs::CallLaws::reads_nothing, crate::proofs::CallLaws::reads_held))]
pub extern "C" fn antientropy_share_entry_source(
    share: &mut ReplicaShare,
    number: u64,
    source: &mut u64,
) -> u32
    ensures { ReadsKept result share.old share.new (source.new ≡ source.old) (λ s.
        TellsAny (source_in (entry_at s number)) result source.old source.new) }
{
    let mut call = |kept: &Kept| show_source(kept, number, source);
    read(share, &mut call)
}
