//! The keys of a leaf in order.
ghost use Rattle.std.specs.Prelude.{◌≡◌, ◌<◌, ◌≤◌, Some, IfSome, MatchOption, option_map};
ghost use Rattle.row_bytes.specs.Rows.{is_before};
ghost use Rattle.hash_tree.specs.Leaves.{AscendByKey, rows_in_leaf};
ghost use Rattle.range_store.specs.Rows.{rows_of};
ghost use Rattle.range_store.specs.Store.{leaf_count, leaf_in};
ghost use Rattle.c_calls.specs.Keys.{key_after, HandsKeyAfter, HandsKeyNext, HandsNext, Replaces};

use crate::numbers::{NO_VERSION, SMALL};
use crate::output::copy_out;
use hash_tree::SharedLeaf;
use key_ring::leaf_count;
use range_state::RangeState;
use row_bytes::Row;
use std::cmp::Ordering;
use vclock::Refusal;

/// Copies out the least key of a leaf above a key: the first one, for a key of no bytes. Refused, in order: BadMessage
/// (the tree has no such leaf), NO_VERSION (no key follows), SMALL.
pub fn show_key_after(
    state: &RangeState,
    leaf: u64,
    key: &[u8],
    out: &mut [u8],
    need: &mut u64,
) -> u32
    ensures { HandsKeyAfter state.now leaf key.now result (need.old, out.old) (need.new, out.new) }
{
    let Some(rows) = leaf_of(state, leaf) else {
        return Refusal::BadMessage.number() as u32;
    };
    match key_after(rows, key) {
        Some(next) => copy_out(next, out, need),
        None => NO_VERSION,
    }
}

/// Replaces a key with the least key of a leaf above it: the first one, if the given key has no byte. The key is the
/// first `key_len` bytes of the buffer. Refused, in order: BadMessage (the tree has no such leaf), BadKey (the length
/// is over the buffer's), NO_VERSION (no key follows), SMALL (the next key doesn't fit). On error the buffer and the
/// length are unchanged.
pub fn show_key_next(state: &RangeState, leaf: u64, key: &mut [u8], key_len: &mut u64) -> u32
    ensures { HandsKeyNext state.now leaf result (key_len.old, key.old) (key_len.new, key.new) }
{
    let Some(rows) = leaf_of(state, leaf) else {
        return Refusal::BadMessage.number() as u32;
    };
    next_key(rows, key, key_len)
}

/// Replaces a key with the least key of some rows above it. Returns 0, or the number of BadKey, NO_VERSION or SMALL.
pub(crate) fn next_key(rows: &SharedLeaf, key: &mut [u8], key_len: &mut u64) -> u32
    requires { AscendByKey rows.now.rows }
    ensures { HandsNext rows.now.rows result (key_len.old, key.old) (key_len.new, key.new) }
{
    if *key_len > key.len() as u64 {
        return Refusal::BadKey.number() as u32;
    }
    let seen = &key[..*key_len as usize];
    match key_after(rows, seen) {
        Some(next) => replace_key(next, key, key_len),
        None => NO_VERSION,
    }
}

/// Returns the rows of a leaf, or `None` if the tree has no such leaf.
fn leaf_of(state: &RangeState, leaf: u64) -> Option<&SharedLeaf>
    ensures rows { MatchOption result (leaf_count state.now.store.config ≤ leaf) (λ rows. (leaf < leaf_count state.now.store.config)
        × (rows.now.rows ≡ rows_in_leaf (leaf_in state.now.store.config) leaf (rows_of state.now.store.entries))) }
    ensures ascend { IfSome result (λ rows. AscendByKey rows.now.rows) }
{
    if leaf >= u64::from(leaf_count(state.store().config().format())) {
        return None;
    }
    Some(state.store().tree().rows(leaf as u16))
}

/// Copies a key to the front of the buffer and stores its length, if it fits. Returns 0 or SMALL.
fn replace_key(next: &[u8], key: &mut [u8], key_len: &mut u64) -> u32
    ensures { Replaces (Some next.now) result (key_len.old, key.old) (key_len.new, key.new) }
{
    if next.len() > key.len() {
        return SMALL;
    }
    copy_out(next, key, key_len)
}

/// Returns the first key of a leaf above a key, if any. In a run whose last key isn't above it, reads no other key.
fn key_after<'a>(leaf: &'a SharedLeaf, key: &[u8]) -> Option<&'a [u8]>
    requires { AscendByKey leaf.now.rows }
    ensures { option_map (λ k. k.now) result ≡ key_after key.now leaf.now.rows }
{
    let mut runs = leaf.runs();
    while let Some(rows) = runs.next_run() {
        if is_above(&rows[rows.len() - 1], key) {
            return first_after(rows, key);
        }
    }
    None
}

/// Returns the first key of rows above a key, if any.
fn first_after<'a>(rows: &'a [Row], key: &[u8]) -> Option<&'a [u8]>
    ensures { option_map (λ k. k.now) result ≡ key_after key.now rows.now }
{
    for row in rows {
        if is_above(row, key) {
            return Some(row.key.as_slice());
        }
    }
    None
}

/// Returns true if the key of a row is above a key.
fn is_above(row: &Row, key: &[u8]) -> bool
    ensures { result ≡ is_before key.now row.now.key }
{
    key.cmp(row.key.as_slice()) == Ordering::Less
}
