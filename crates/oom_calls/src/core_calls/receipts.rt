//! Calls of a range that append their receipts to a list.
use crate::core_calls::range_sessions::{first_text_of, is_after};
use crate::core_calls::ranges::{KEYS, TWO_VERSIONS, is_before, is_before_key, put_parts, range};
use crate::core_calls::sessions::ASKED;
use crate::core_calls::snapshots::{Snapshots, clean_range};
use crate::core_calls::versions::version;
use crate::lines::{show, unchanged};
use crate::states::begins;
use key_ring::HashedKey;
use range_journal::Source;
use range_state::{Accepted, ContextTest, LeafRows, RangeState, Receipt};
use snapshot::Snapshot;
use std::alloc::Global;
use std::io;
use std::thread::Threads;
use vclock::Refusal;
use version_set::Kind;

/// Shows the calls that append their receipts to a list.
pub(crate) fn show_all<R: Print + AllocGlobal + Threads + Sync>(
    rt: &R,
    both: &Snapshots,
) -> io::Result<()> {
    let alloc = rt.alloc();
    show(
        rt,
        "RangeState::put_into and RangeStore::put_into",
        put(alloc),
    )?;
    show(
        rt,
        "RangeState::accept_into and RangeStore::accept_into",
        accept(alloc),
    )?;
    show(
        rt,
        "LeafRows::read, RangeState::load_into and RangeStore::load_into",
        load(alloc),
    )?;
    show(
        rt,
        "RangeState::take_answer_into, RangeStore::accept_batch and receipts_beside",
        take_answer(rt, alloc, &both.partner),
    )
}

/// Returns true if a list contains the receipts of all entries of a range, and no others.
fn has_receipts(list: &[Receipt], state: &RangeState) -> bool {
    let entries = state.journal().entries();
    begins(list, entries) && begins(entries, list)
}

/// Puts `x` under `a`, with the context of one node.
fn put_at(
    alloc: Global,
    state: &mut RangeState,
    list: &mut Vec<Receipt>,
    node: u64,
) -> Result<Receipt, Refusal> {
    let (context, value) = put_parts(alloc, node)?;
    let key = HashedKey::new(b"a");
    state.put_into(
        alloc,
        list,
        ContextTest::Fresh,
        0,
        1,
        &key,
        &context,
        Kind::Live,
        value,
    )
}

/// Puts until the journal, the set and the list have grown.
fn put(alloc: Global) -> Result<u64, Refusal> {
    let mut state = range(alloc)?;
    let mut list = Vec::new(alloc);
    for node in 2..8u64 {
        if let Err(refusal) = put_at(alloc, &mut state, &mut list, node) {
            let is_same = has_receipts(&list, &state);
            return Err(unchanged(refusal, all(is_same, is_before(alloc, &state, node))));
        }
    }
    Ok(list.len() as u64)
}

/// Returns true if both hold.
fn all(first: bool, second: Result<bool, Refusal>) -> Result<bool, Refusal> {
    Ok(second? && first)
}

/// Accepts versions of other keys, the last of them twice.
fn accept(alloc: Global) -> Result<u64, Refusal> {
    let mut state = range(alloc)?;
    let mut list = Vec::new(alloc);
    for (at, key) in KEYS.iter().enumerate() {
        if let Err(refusal) = accept_of(alloc, &mut state, &mut list, *key) {
            let is_same = has_receipts(&list, &state);
            return Err(unchanged(refusal, all(is_same, is_before_key(alloc, &state, at))));
        }
    }
    Ok(list.len() as u64)
}

/// Loads a row with two versions, which was read before.
fn load(alloc: Global) -> Result<u64, Refusal> {
    let mut state = range(alloc)?;
    let mut list = Vec::new(alloc);
    let rows = LeafRows::read(alloc, state.store().config(), TWO_VERSIONS)?;
    if let Err(refusal) = state.load_into(alloc, &mut list, 0, &rows) {
        let is_same = has_receipts(&list, &state);
        return Err(unchanged(refusal, all(is_same, is_before(alloc, &state, 2))));
    }
    Ok(list.len() as u64)
}

/// Accepts a copy of a key.
fn accept_of(
    alloc: Global,
    state: &mut RangeState,
    list: &mut Vec<Receipt>,
    key: u8,
) -> Result<Accepted, Refusal> {
    let copy = version(alloc, 2)?;
    state.accept_into(alloc, list, 0, Source::Copy, &HashedKey::new(&[key]), copy)
}

/// Answers a session of a range until it is finished, and returns the number of its receipts.
fn take_answer(
    rt: &(impl Threads + Sync),
    alloc: Global,
    partner: &Snapshot,
) -> Result<u64, Refusal> {
    let mut state = clean_range(rt, alloc)?;
    let mut list = Vec::new(alloc);
    state.open_session(alloc, 2, partner.offer(1))?;
    for answers in 0..ASKED {
        let (node, text) = first_text_of(alloc, &state, partner)?;
        if let Err(refusal) = state.take_answer_into(alloc, &mut list, 1, 0, node, text) {
            let is_same = has_receipts(&list, &state);
            let is_after = is_after(rt, alloc, &state, partner, answers);
            return Err(unchanged(refusal, all(is_same, is_after)));
        }
    }
    Ok(list.len() as u64)
}
