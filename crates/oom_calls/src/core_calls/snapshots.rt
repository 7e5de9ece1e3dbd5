//! Snapshots.
use crate::core_calls::ranges::range as new_range;
use crate::core_calls::trees::range;
use crate::lines::show;
use range_state::RangeState;
use snapshot::Snapshot;
use std::alloc::Global;
use std::io;
use std::sync::Arc;
use std::thread::Threads;
use tree_nodes::NodeAt;
use vclock::Refusal;
use walk_messages::Ask;

/// The snapshots that sessions compare.
#[derive(Drop)]
pub(crate) struct Snapshots {
    /// The snapshot of a range without rows.
    pub(crate) own: Arc<Snapshot, Global>,
    /// The snapshot of a partner with three rows.
    pub(crate) partner: Arc<Snapshot, Global>,
}

/// Makes both snapshots, and shows the result. After a refusal they are made again.
pub(crate) fn show_both<R: Print + AllocGlobal + Threads + Sync>(
    rt: &R,
) -> io::Result<Option<Snapshots>> {
    let alloc = rt.alloc();
    let name =
        "RangeState::snapshot, Tree::snapshot, Marks::digests, Leaves::share, Snapshot::of_shared";
    match Snapshots::new(rt, alloc) {
        Ok(both) => {
            show(rt, name, Ok(u64::from(both.partner.bits())))?;
            Ok(Some(both))
        }
        Err(refusal) => {
            show(rt, name, Err(refusal))?;
            Ok(Snapshots::new(rt, alloc).ok())
        }
    }
}

/// Shows the calls on a snapshot.
pub(crate) fn show_all<R: Print + AllocGlobal>(rt: &R, both: &Snapshots) -> io::Result<()> {
    let alloc = rt.alloc();
    show(rt, "Snapshot::answer", answer(alloc, &both.partner))?;
    show(
        rt,
        "Snapshot::hashed_answer",
        hashed_answer(alloc, &both.partner),
    )?;
    show(rt, "Snapshot::rows_text", rows_text(alloc, &both.partner))
}

impl Snapshots {
    fn new(rt: &(impl Threads + Sync), alloc: Global) -> Result<Snapshots, Refusal> {
        let mut partner = range(alloc)?;
        partner.rehash(rt, alloc)?;
        Ok(Snapshots {
            own: clean_range(rt, alloc)?.snapshot(alloc)?,
            partner: partner.snapshot(alloc)?,
        })
    }
}

/// Returns a range without rows, whose nodes are all clean.
pub(crate) fn clean_range(
    rt: &(impl Threads + Sync),
    alloc: Global,
) -> Result<RangeState, Refusal> {
    let mut state = new_range(alloc)?;
    state.rehash(rt, alloc)?;
    Ok(state)
}

/// Returns the ask for the root.
fn root_ask() -> Result<Ask, Refusal> {
    let node = NodeAt::new(0, 0).ok_or(Refusal::Stale)?;
    Ok(Ask { offer: 1, node })
}

/// Returns the length of the root's text, in bytes.
fn answer(alloc: Global, partner: &Snapshot) -> Result<u64, Refusal> {
    let text = partner.answer(alloc, root_ask()?)?;
    Ok(text.len() as u64)
}

/// Returns the length of the root's text, in bytes, by `hashed_answer`.
fn hashed_answer(alloc: Global, partner: &Snapshot) -> Result<u64, Refusal> {
    let hashed = partner.hashed_answer(alloc, root_ask()?)?;
    Ok(hashed.text().len() as u64)
}

/// Returns the length of the texts of the rows of the leaf of `a`, in bytes.
fn rows_text(alloc: Global, partner: &Snapshot) -> Result<u64, Refusal> {
    Ok(partner.rows_text(alloc, 12)?.len() as u64)
}
