//! Comparisons of range states, by all their readers.
use crate::sessions::{is_cancelled, is_same_session};
use range_journal::Entry;
use range_state::{RangeState, Record};
use tree_nodes::NodeAt;
use version_set::Version;

/// The maximum number of nodes of a tree at one depth.
const NODES_MAX: u16 = 4_096;

/// Returns true if a state is between two others: its entries are the entries of `before` and the first few new ones of
/// `after`, each row and digest is the one of `before` or of `after`, and a new session of `after` may be there,
/// cancelled halfway. If `before` and `after` are equal, the state equals both.
pub(crate) fn is_between(state: &RangeState, before: &RangeState, after: &RangeState) -> bool {
    let entries = state.journal().entries();
    state.store().config() == before.store().config()
        && begins(entries, before.journal().entries())
        && begins(after.journal().entries(), entries)
        && are_rows_between(state, before, after)
        && are_digests_between(state, before, after)
        && are_records_between(state.records(), before.records(), after.records())
}

/// Returns true if two states are equal.
pub(crate) fn is_same(state: &RangeState, other: &RangeState) -> bool {
    is_between(state, other, other)
}

/// Returns true if entries begin with the others, unchanged.
pub(crate) fn begins(entries: &[Entry], others: &[Entry]) -> bool {
    others.len() <= entries.len()
        && entries
            .iter()
            .zip(others)
            .all(|(entry, other)| entry.same(other))
}

/// Returns true if each key has its versions of `before` or of `after`. The keys are all keys of one byte, and the keys
/// in the journal of `after`.
fn are_rows_between(state: &RangeState, before: &RangeState, after: &RangeState) -> bool {
    let mut keys = after.journal().entries().iter();
    (0..=255u8).all(|key| is_row_between(&[key], state, before, after))
        && keys.all(|entry| is_row_between(entry.key.as_slice(), state, before, after))
}

fn is_row_between(key: &[u8], state: &RangeState, before: &RangeState, after: &RangeState) -> bool {
    let versions = state.store().versions(key);
    are_same_versions(versions, before.store().versions(key))
        || are_same_versions(versions, after.store().versions(key))
}

fn are_same_versions(versions: &[Version], others: &[Version]) -> bool {
    versions.len() == others.len()
        && versions
            .iter()
            .zip(others)
            .all(|(version, other)| version.same(other))
}

/// Returns true if each node has its digest of `before` or of `after`, or no digest if `before` or `after` doesn't have
/// one for it.
fn are_digests_between(state: &RangeState, before: &RangeState, after: &RangeState) -> bool {
    for depth in 0..4u8 {
        for index in 0..NODES_MAX {
            if let Some(node) = NodeAt::new(depth, index) {
                let digest = state.digest_at(node);
                if digest != before.digest_at(node) && digest != after.digest_at(node) {
                    return false;
                }
            }
        }
    }
    true
}

/// Returns the number of clean nodes.
pub(crate) fn clean_nodes(state: &RangeState) -> u64 {
    let mut count = 0u64;
    for depth in 0..4u8 {
        for index in 0..NODES_MAX {
            if let Some(node) = NodeAt::new(depth, index)
                && state.digest_at(node).is_some()
            {
                count = count.saturating_add(1);
            }
        }
    }
    count
}

/// Returns true if the records equal `before`, possibly with one more session, of `after`, that is cancelled.
fn are_records_between(records: &[Record], before: &[Record], after: &[Record]) -> bool {
    let old = before.len();
    let mut pairs = records.iter().zip(before);
    if records.len() < old || !pairs.all(|(record, other)| is_same_record(record, other)) {
        return false;
    }
    match (records.get(old), after.get(old)) {
        (None, _) => true,
        (Some(record), Some(whole)) => {
            records.len() == old.saturating_add(1)
                && record.partner() == whole.partner()
                && is_cancelled(record.session(), whole.session())
        }
        (Some(_), None) => false,
    }
}

fn is_same_record(record: &Record, other: &Record) -> bool {
    record.partner() == other.partner() && is_same_session(record.session(), other.session())
}
