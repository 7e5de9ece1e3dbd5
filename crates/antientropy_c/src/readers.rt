//! Reads of a snapshot. Each call has a share of it, so threads read the same rows at the same time.
ghost use Rattle.std.specs.Prelude.{◌≡◌, None};
ghost use Rattle.vclock.specs.Answer.{Answers};
ghost use Rattle.vclock.specs.Bytes.{key_fault};
ghost use Rattle.c_calls.specs.Hands.{HandsNothing, HandsOut, HandsOutRight};
ghost use Rattle.antientropy_c.specs.Offers.{Shows, ShowsRows, Publishes};
ghost use Rattle.c_calls.specs.Readers.{row_in, HandsKeyNextIn, digest_in};

use crate::publication::Publication;
use crate::publication_share::PublicationShare;
use c_calls::frame::{read, read_into};
use c_calls::output::hand_out;
use c_calls::published::Published;
use c_calls::readers::{row, shared, show_digest, show_key_next};
use std::alloc::Global;

/// Makes another handle of the rows of a snapshot. Copies no row. Refused, in order: EMPTY (the snapshot), HELD (the
/// other handle holds one already), NoMemory. On error the other handle is unchanged.
#[unsafe(no_mangle)]
pub extern "C" fn antientropy_share_snapshot_share(
    alloc: Global,
    share: &mut PublicationShare,
    other: &mut Publication,
) -> u32
    ensures { Shows result share.old share.new (other.new ≡ other.old)
        (λ m. Publishes result other.old other.new None m) }
{
    read_into(share, other, alloc, |rows: &Published| {
        shared(alloc, rows)
    })
}

/// Writes the text of the row of a key of a snapshot: no bytes if the key has no row. Refused, in order: EMPTY, BadKey,
/// NoMemory, SMALL.
#[unsafe(no_mangle)]
#[tactic(auto, using(crate::proofs::CallLaws::reads_nothing, crate::proofs::CallLaws::reads_held, crate::proofs::CallLaws::gives))]
pub extern "C" fn antientropy_share_snapshot_get(
    alloc: Global,
    share: &mut PublicationShare,
    key: &[u8],
    out: &mut [u8],
    need: &mut u64,
) -> u32
    ensures { ShowsRows result share.old share.new (HandsNothing (need.old, out.old) (need.new, out.new))
        (λ m. HandsOutRight result (need.old, out.old) (need.new, out.new)
        (λ r. Answers r (key_fault key.now) (λ bytes. bytes ≡ row_in m key.now))) }
{
    let mut call = |rows: &Published| {
        let outcome = row(alloc, rows.snapshot(), key);
        hand_out(&outcome, out, need)
    };
    read(share, &mut call)
}

/// Replaces a key with the least key of a leaf of a snapshot above it, like `antientropy_share_key_next`. Refused, in
/// order: EMPTY, BadMessage (the tree has no such leaf), BadKey (the length is over the buffer's), NO_VERSION (no key
/// follows), SMALL (the next key doesn't fit). On error the buffer and the length are unchanged.
#[unsafe(no_mangle)]
#[tactic(auto, using(crate::proofs::CallLaws::reads_nothing, crate::proofs::CallLaws::reads_held))]
pub extern "C" fn antientropy_share_snapshot_key_next(
    share: &mut PublicationShare,
    leaf: u64,
    key: &mut [u8],
    key_len: &mut u64,
) -> u32
    ensures { ShowsRows result share.old share.new (HandsNothing (key_len.old, key.old) (key_len.new, key.new))
        (λ m. HandsKeyNextIn m leaf result (key_len.old, key.old) (key_len.new, key.new)) }
{
    let mut call = |rows: &Published| show_key_next(rows.snapshot(), leaf, key, key_len);
    read(share, &mut call)
}

/// Copies out the digest of a node of a snapshot: 32 bytes. Refused, in order: EMPTY, BadMessage (the tree has no such
/// node), SMALL.
#[unsafe(no_mangle)]
#[tactic(auto, using(crate::proofs::CallLaws::reads_nothing, crate::proofs::CallLaws::reads_held))]
pub extern "C" fn antientropy_share_digest(
    share: &mut PublicationShare,
    depth: u64,
    index: u64,
    out: &mut [u8],
    need: &mut u64,
) -> u32
    ensures { ShowsRows result share.old share.new (HandsNothing (need.old, out.old) (need.new, out.new))
        (λ m. HandsOut (digest_in m depth index) result (need.old, out.old) (need.new, out.new)) }
{
    let mut call = |rows: &Published| show_digest(rows.snapshot(), depth, index, out, need);
    read(share, &mut call)
}
