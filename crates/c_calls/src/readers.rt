//! Reads of a snapshot. Threads with their own handles read the same rows at the same time.
ghost use Rattle.std.specs.Prelude.{◌≡◌, true, false, None, MatchOption};
ghost use Rattle.vclock.specs.Answer.{Answers};
ghost use Rattle.vclock.specs.Bytes.{key_fault};
ghost use Rattle.c_calls.specs.Hands.{HandsOut};
ghost use Rattle.c_calls.specs.Readers.{row_in, HandsKeyNextIn, has_node, digest_in};

use crate::keys::next_key;
use crate::output::copy_out;
use crate::published::Published;
use crate::rows::held_row;
use key_ring::leaf_count;
use snapshot::Snapshot;
use std::alloc::Global;
use tree_nodes::{NodeAt, Text, tree_depth};
use vclock::{Refusal, check_key};

/// Shares the rows of a snapshot once more. Copies no row. Refused: NoMemory.
pub fn shared(alloc: Global, rows: &Published) -> Result<Box<Published, Global>, Refusal>
    ensures { Answers result None (λ other. other.value ≡ rows.now) }
{
    Ok(Box::new(alloc, rows.share()?)?)
}

/// Writes the text of the row of a key of a snapshot: no bytes if the key has no row. Refused, in order: BadKey,
/// NoMemory.
pub fn row(alloc: Global, snapshot: &Snapshot, key: &[u8]) -> Result<Text, Refusal>
    ensures { Answers result (key_fault key.now) (λ bytes. bytes ≡ row_in snapshot.now key.now) }
{
    check_key(key)?;
    held_row(alloc, snapshot.format(), key, &snapshot.find(key))
}

/// Replaces a key with the least key of a leaf of a snapshot above it, as [`crate::keys::show_key_next`] does. Refused,
/// in order: BadMessage (the tree has no such leaf), BadKey (the length is over the buffer's), NO_VERSION (no key
/// follows), SMALL (the next key doesn't fit). On error the buffer and the length are unchanged.
pub fn show_key_next(snapshot: &Snapshot, leaf: u64, key: &mut [u8], key_len: &mut u64) -> u32
    ensures { HandsKeyNextIn snapshot.now leaf result (key_len.old, key.old) (key_len.new, key.new) }
{
    if leaf >= u64::from(leaf_count(snapshot.format())) {
        return Refusal::BadMessage.number() as u32;
    }
    next_key(snapshot.rows(leaf as u16), key, key_len)
}

/// Copies out the digest of a node of a snapshot: 32 bytes. Refused, in order: BadMessage (the tree has no such node),
/// SMALL.
pub fn show_digest(
    snapshot: &Snapshot,
    depth: u64,
    index: u64,
    out: &mut [u8],
    need: &mut u64,
) -> u32
    ensures { HandsOut (digest_in snapshot.now depth index) result (need.old, out.old) (need.new, out.new) }
{
    match node_of(snapshot, depth, index) {
        Some(node) => copy_out(&snapshot.digest_at(node), out, need),
        None => Refusal::BadMessage.number() as u32,
    }
}

/// Returns a node of the tree of a snapshot, or `None` if the tree has no such node.
fn node_of(snapshot: &Snapshot, depth: u64, index: u64) -> Option<NodeAt>
    ensures { MatchOption result (has_node snapshot.now depth index ≡ false)
        (λ node. (has_node snapshot.now depth index ≡ true) × (node.depth ≡ depth) × (node.index ≡ index)) }
{
    if depth > u64::from(tree_depth(snapshot.format())) {
        return None;
    }
    if index > u64::from(u16::MAX) {
        return None;
    }
    NodeAt::new(depth as u8, index as u16)
}
