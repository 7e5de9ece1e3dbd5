//! Hints.
use crate::core_calls::versions::wide_version;
use crate::lines::{show, unchanged};
use hint_store::{Hint, HintStore, Kept};
use std::alloc::Global;
use std::io;
use vclock::{Bytes, Refusal};

/// The number of hints that are kept.
const HINTS: u16 = 8;

/// Shows the calls on hints.
pub(crate) fn show_all<R: Print + AllocGlobal>(rt: &R) -> io::Result<()> {
    let alloc = rt.alloc();
    show(rt, "HintStore::keep", keep(alloc))?;
    show(rt, "HintStore::next", next(alloc))?;
    show(rt, "HintStore::next_of", next_of(alloc))?;
    show(rt, "HintStore::renewed", renew(alloc))?;
    show(rt, "Hint::try_clone", clone(alloc))
}

/// Keeps a hint for an owner.
fn keep_for(alloc: Global, store: &mut HintStore, owner: u16) -> Result<u32, Refusal> {
    let version = wide_version(alloc, u64::from(owner))?;
    store.keep(owner, Bytes::copy_of(alloc, b"a")?, version)
}

/// Returns a store with the hints for the owners before this one.
fn store_before(alloc: Global, owner: u16) -> Result<HintStore, Refusal> {
    let mut store = HintStore::new(alloc);
    for earlier in 1..owner {
        keep_for(alloc, &mut store, earlier)?;
    }
    Ok(store)
}

/// Returns true if a store has the hints for the owners before this one.
fn is_before(alloc: Global, store: &HintStore, owner: u16) -> Result<bool, Refusal> {
    let other = store_before(alloc, owner)?;
    let is_same = store.pending() == other.pending() && store.delivered() == other.delivered();
    let mut ids = 0..=u32::from(HINTS);
    Ok(is_same && ids.all(|id| are_same(store.get(id), other.get(id))))
}

fn are_same(kept: Option<&Kept>, other: Option<&Kept>) -> bool {
    match (kept, other) {
        (Some(kept), Some(other)) => {
            kept.fate == other.fate && is_same_hint(&kept.hint, &other.hint)
        }
        (None, None) => true,
        _ => false,
    }
}

fn is_same_hint(hint: &Hint, other: &Hint) -> bool {
    hint.id == other.id
        && hint.owner == other.owner
        && hint.key.as_slice() == other.key.as_slice()
        && hint.version.same(&other.version)
}

/// Keeps hints until the store has grown.
fn keep(alloc: Global) -> Result<u64, Refusal> {
    let mut store = HintStore::new(alloc);
    for owner in 1..=HINTS {
        if let Err(refusal) = keep_for(alloc, &mut store, owner) {
            return Err(unchanged(refusal, is_before(alloc, &store, owner)));
        }
    }
    Ok(u64::from(store.pending()))
}

fn next(alloc: Global) -> Result<u64, Refusal> {
    match store_before(alloc, 4)?.next(alloc, 3, 0)? {
        Some(hint) => Ok(u64::from(hint.id)),
        None => Err(Refusal::Stale),
    }
}

fn next_of(alloc: Global) -> Result<u64, Refusal> {
    match store_before(alloc, 6)?.next_of(alloc, &[5, 4], 0)? {
        Some(hint) => Ok(u64::from(hint.id)),
        None => Err(Refusal::Stale),
    }
}

/// Renews a store of three hints whose first is delivered, and returns the number of pending hints afterwards.
fn renew(alloc: Global) -> Result<u64, Refusal> {
    let mut store = store_before(alloc, 4)?;
    let hint = store.next(alloc, 1, 0)?.ok_or(Refusal::Stale)?;
    store.confirm(1, hint.into_delivery(false))?;
    Ok(u64::from(store.renewed(alloc)?.pending()))
}

fn clone(alloc: Global) -> Result<u64, Refusal> {
    let store = store_before(alloc, 2)?;
    let kept = store.get(1).ok_or(Refusal::Stale)?;
    let copy = kept.hint.try_clone(alloc)?;
    if is_same_hint(&copy, &kept.hint) {
        Ok(u64::from(copy.id))
    } else {
        Err(Refusal::Dirty)
    }
}
