//! The keys of a leaf in order.
ghost use Rattle.std.specs.Prelude.{◌≡◌};
ghost use Rattle.antientropy_c.specs.Calls.{ReadsState};
ghost use Rattle.c_calls.specs.Hands.{HandsNothing};
ghost use Rattle.c_calls.specs.Keys.{HandsKeyAfter, HandsKeyNext};

use crate::replica_share::ReplicaShare;
use c_calls::frame::read;
use c_calls::kept::Kept;
use c_calls::keys::{show_key_after, show_key_next};

/// Copies out the least key of a leaf above a key: the first one, for a key of no bytes. Refused, in order: EMPTY,
/// BadMessage (the tree has no such leaf), NO_VERSION (no key follows), SMALL.
#[unsafe(no_mangle)]
#[tactic(auto, using(crate::proofs::CallLaws::reads_nothing, crate::proofs::CallLaws::reads_held))]
pub extern "C" fn antientropy_share_key_after(
    share: &mut ReplicaShare,
    leaf: u64,
    key: &[u8],
    out: &mut [u8],
    need: &mut u64,
) -> u32
    ensures { ReadsState result share.old share.new (HandsNothing (need.old, out.old) (need.new, out.new)) (λ s.
        HandsKeyAfter s leaf key.now result (need.old, out.old) (need.new, out.new)) }
{
    let mut call = |kept: &Kept| show_key_after(kept.state(), leaf, key, out, need);
    read(share, &mut call)
}

/// Replaces a key with the least key of a leaf above it: the first one, if the given key has no byte. The key is the
/// first `key_len` bytes of the buffer. Refused, in order: EMPTY, BadMessage (the tree has no such leaf), BadKey (the
/// length is over the buffer's), NO_VERSION (no key follows), SMALL (the next key doesn't fit). On error the buffer and
/// the length are unchanged.
#[unsafe(no_mangle)]
#[tactic(auto, using(crate::proofs::CallLaws::reads_nothing, crate::proofs::CallLaws::reads_held))]
pub extern "C" fn antientropy_share_key_next(
    share: &mut ReplicaShare,
    leaf: u64,
    key: &mut [u8],
    key_len: &mut u64,
) -> u32
    ensures { ReadsState result share.old share.new (HandsNothing (key_len.old, key.old) (key_len.new, key.new)) (λ s.
        HandsKeyNext s leaf result (key_len.old, key.old) (key_len.new, key.new)) }
{
    let mut call = |kept: &Kept| show_key_next(kept.state(), leaf, key, key_len);
    read(share, &mut call)
}
