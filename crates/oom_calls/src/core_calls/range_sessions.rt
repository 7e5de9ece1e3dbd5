//! Sessions of ranges.
use crate::core_calls::sessions::{ASKED, first_text};
use crate::core_calls::snapshots::{Snapshots, clean_range};
use crate::lines::{show, unchanged};
use crate::states::{is_between, is_same};
use range_state::{RangeState, Synced};
use snapshot::Snapshot;
use std::alloc::Global;
use std::io;
use std::thread::Threads;
use sync_session::SessionState;
use text_patch::{outline_parts, patch, patch_parts};
use tree_nodes::{Hashed, NodeAt};
use vclock::Refusal;

/// Shows the calls on sessions of a range.
pub(crate) fn show_all<R: Print + AllocGlobal + Threads + Sync>(
    rt: &R,
    both: &Snapshots,
) -> io::Result<()> {
    let (alloc, partner) = (rt.alloc(), &both.partner);
    show(
        rt,
        "RangeState::open_session, Tree::kept_snapshot and Marks::keep_digests",
        open_session(rt, alloc, partner),
    )?;
    show(
        rt,
        "RangeState::take_answer, RangeStore::prepare, Tree::with_leaf and Leaves::with_leaf",
        take_answer(rt, alloc, partner),
    )?;
    show(
        rt,
        "RangeState::outline and RangeState::patched",
        patched(rt, alloc, partner),
    )?;
    show(
        rt,
        "RangeState::sync_with and RangeStore::kept_snapshot",
        sync_with(rt, alloc, partner),
    )
}

/// Returns the clean range with this number of sessions.
fn range_with(
    rt: &(impl Threads + Sync),
    alloc: Global,
    partner: &Snapshot,
    sessions: u64,
) -> Result<RangeState, Refusal> {
    let mut state = clean_range(rt, alloc)?;
    for _ in 0..sessions {
        state.open_session(alloc, 2, partner.offer(1))?;
    }
    Ok(state)
}

/// Returns true if a range equals the clean one with this number of sessions.
fn is_range_with(
    rt: &(impl Threads + Sync),
    alloc: Global,
    state: &RangeState,
    partner: &Snapshot,
    sessions: u64,
) -> Result<bool, Refusal> {
    Ok(is_same(state, &range_with(rt, alloc, partner, sessions)?))
}

/// Opens sessions of a range until its records have grown.
fn open_session(
    rt: &(impl Threads + Sync),
    alloc: Global,
    partner: &Snapshot,
) -> Result<u64, Refusal> {
    let mut state = clean_range(rt, alloc)?;
    for sessions in 0..6u64 {
        if let Err(refusal) = state.open_session(alloc, 2, partner.offer(1)) {
            let is_same = is_range_with(rt, alloc, &state, partner, sessions);
            return Err(unchanged(refusal, is_same));
        }
    }
    Ok(state.records().len() as u64)
}

/// Returns the first node that a range's first session awaits, with the partner's text.
pub(crate) fn first_text_of(
    alloc: Global,
    state: &RangeState,
    partner: &Snapshot,
) -> Result<(NodeAt, Hashed), Refusal> {
    let record = state.records().first().ok_or(Refusal::Stale)?;
    first_text(alloc, record.session(), partner)
}

/// Answers the first node that a range's first session awaits.
fn take_first_of(alloc: Global, state: &mut RangeState, partner: &Snapshot) -> Result<(), Refusal> {
    let (node, text) = first_text_of(alloc, state, partner)?;
    state.take_answer(alloc, 1, 0, node, text)?;
    Ok(())
}

/// Returns true if a range equals one with one session that took this number of answers.
pub(crate) fn is_after(
    rt: &(impl Threads + Sync),
    alloc: Global,
    state: &RangeState,
    partner: &Snapshot,
    answers: u64,
) -> Result<bool, Refusal> {
    let mut other = range_with(rt, alloc, partner, 1)?;
    for _ in 0..answers {
        take_first_of(alloc, &mut other, partner)?;
    }
    Ok(is_same(state, &other))
}

/// Answers a session of a range until it is finished, and returns the number of versions that the range accepted.
fn take_answer(
    rt: &(impl Threads + Sync),
    alloc: Global,
    partner: &Snapshot,
) -> Result<u64, Refusal> {
    let mut state = range_with(rt, alloc, partner, 1)?;
    for answers in 0..ASKED {
        if let Err(refusal) = take_first_of(alloc, &mut state, partner) {
            let is_same = is_after(rt, alloc, &state, partner, answers);
            return Err(unchanged(refusal, is_same));
        }
    }
    Ok(state.journal().len())
}

/// Makes the outline of the root for a range's session, and the text from the partner's patch. Returns the length of
/// the text.
fn patched(rt: &(impl Threads + Sync), alloc: Global, partner: &Snapshot) -> Result<u64, Refusal> {
    let state = range_with(rt, alloc, partner, 1)?;
    let root = NodeAt::root();
    let outline = state.outline(alloc, 0, root, 1, 3)?;
    let Some((ask, marks)) = outline_parts(alloc, outline.as_slice()) else {
        return Err(Refusal::BadMessage);
    };
    let patch = patch(alloc, partner, ask, &marks)?;
    let Some((_, steps)) = patch_parts(alloc, &patch) else {
        return Err(Refusal::BadMessage);
    };
    let text = state.patched(alloc, 0, root, steps)?;
    Ok(text.as_slice().len() as u64)
}

/// Syncs a range with the partner. The digits of the result are the numbers of nodes asked and of versions accepted.
fn sync_with(
    rt: &(impl Threads + Sync),
    alloc: Global,
    partner: &Snapshot,
) -> Result<u64, Refusal> {
    let mut state = clean_range(rt, alloc)?;
    match sync(alloc, &mut state, partner) {
        Ok(synced) if synced.fault.is_none() => {
            Ok(
                synced
                    .asked
                    .saturating_mul(10)
                    .saturating_add(synced.accepted),
            )
        }
        Ok(_) => Err(Refusal::Dirty),
        Err(refusal) => Err(unchanged(refusal, is_on_the_way(rt, alloc, state, partner))),
    }
}

/// Syncs a range with a partner of the same range.
fn sync(alloc: Global, state: &mut RangeState, partner: &Snapshot) -> Result<Synced, Refusal> {
    let config = state.store().config();
    if config.format() != partner.format()
        || config.bits() != partner.bits()
        || config.range() != partner.range()
    {
        return Err(Refusal::OtherRange);
    }
    state.sync_with(alloc, 1, 2, partner)
}

/// Returns true if a range is unchanged, or has an open session and some of the leaves that a whole sync takes.
fn is_on_the_way(
    rt: &(impl Threads + Sync),
    alloc: Global,
    mut state: RangeState,
    partner: &Snapshot,
) -> Result<bool, Refusal> {
    let before = clean_range(rt, alloc)?;
    let mut after = clean_range(rt, alloc)?;
    sync(alloc, &mut after, partner)?;
    if let Some(record) = state.records().first() {
        if record.session().state() != SessionState::Open {
            return Ok(false);
        }
        state.cancel_session(0)?;
    }
    Ok(is_between(&state, &before, &after))
}
