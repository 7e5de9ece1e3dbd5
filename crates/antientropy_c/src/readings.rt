//! One version of a key, with its kind, clock and value in one call.
ghost use Rattle.std.specs.Prelude.{◌≡◌, length, slice_get};
ghost use Rattle.range_journal.specs.Journal.{held};
ghost use Rattle.antientropy_c.specs.Calls.{ReadsState};
ghost use Rattle.c_calls.specs.Readings.{ReadsVersion};

use crate::replica_share::ReplicaShare;
use c_calls::frame;
use c_calls::kept::Kept;
use c_calls::pair::Pair;
use c_calls::readings::{Reading, read};

/// Copies out the clock and the value of a version that is held for a key, by its index from 0, and stores their sizes
/// and the version's kind. Refused, in order: EMPTY, NO_VERSION, SMALL (the pairs or the bytes don't fit: the reading
/// is stored, and the one that fits, if any, is copied).
#[unsafe(no_mangle)]
#[tactic(auto, using(crate::proofs::CallLaws::reads_nothing, crate::proofs::CallLaws::reads_held))]
pub extern "C" fn antientropy_share_read(
    share: &mut ReplicaShare,
    key: &[u8],
    index: u64,
    reading: &mut Reading,
    pairs: &mut [Pair],
    value: &mut [u8],
) -> u32
    ensures { ReadsState result share.old share.new ((reading.new ≡ reading.old) × (pairs.new ≡ pairs.old) × (value.new ≡ value.old))
        (λ s.
        ReadsVersion (slice_get (held s.store.entries key.now) index) (length (held s.store.entries key.now)) result
        reading.old reading.new (pairs.old, value.old) (pairs.new, value.new)) }
{
    let mut call = |kept: &Kept| read(kept.state(), key, index, reading, pairs, value);
    frame::read(share, &mut call)
}
