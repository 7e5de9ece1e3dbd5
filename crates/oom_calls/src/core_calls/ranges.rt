//! Range states.
use crate::core_calls::versions::version;
use crate::lines::{show, unchanged};
use crate::states::is_same;
use range_journal::{Replay, Source};
use range_state::{Accepted, RangeConfig, RangeState, Receipt};
use std::alloc::Global;
use std::io;
use vclock::{Bytes, Clock, Format, Refusal};
use version_set::Kind;

/// The keys, of one byte each, whose copies are accepted in turn.
pub(crate) const KEYS: &[u8] = b"abcdee";

/// The text of the key `a` with two versions, `y` and `z`.
pub(crate) const TWO_VERSIONS: &[u8] =
    b"\x00\x01a\x00\x02\x01\x00\x02\x00\x00\x00\x00\x00\x00\x00\x01\x00\x00\x00\x01y\x01\x00\x03\x00\x00\x00\x00\x00\x00\x00\x01\x00\x00\x00\x01z";

/// The texts of the keys `a` and `b`, each with one version, `x`.
const TWO_KEYS: &[u8] =
    b"\x00\x01a\x00\x01\x01\x00\x01\x00\x00\x00\x00\x00\x00\x00\x01\x00\x00\x00\x01x\x00\x01b\x00\x01\x01\x00\x01\x00\x00\x00\x00\x00\x00\x00\x01\x00\x00\x00\x01x";

/// Shows the calls on range states.
pub(crate) fn show_all<R: Print + AllocGlobal>(rt: &R) -> io::Result<()> {
    let alloc = rt.alloc();
    show(
        rt,
        "RangeState::new, RangeState::seeded, RangeStore::new, RangeStore::seeded, Tree::empty and Leaves::empty",
        new(alloc),
    )?;
    show(
        rt,
        "RangeState::put, RangeStore::put, RowTable::make_room_at, Tree::offer and Leaves::offer",
        put(alloc),
    )?;
    show(rt, "RangeState::put, stale", stale_put(alloc))?;
    show(rt, "RangeState::put_read", put_read(alloc))?;
    show(rt, "RangeState::put_read, unread", unread_put(alloc))?;
    show(
        rt,
        "RangeState::accept and RangeStore::accept",
        accept(alloc),
    )?;
    show(rt, "RangeState::get and RangeStore::get", get(alloc))?;
    show(
        rt,
        "RangeState::migrate and RangeStore::migrate",
        migrate(alloc),
    )?;
    show(
        rt,
        "RangeState::renewed, RangeStore::renewed, RowTable::reserve, Tree::share and Marks::try_clone",
        renewed(alloc),
    )?;
    show(
        rt,
        "RangeState::load_rows, RangeStore::load_rows and RowTable::reserve",
        load_rows(alloc),
    )?;
    show(
        rt,
        "RangeState::load_format and RangeStore::load_format",
        load_format(alloc),
    )?;
    show(
        rt,
        "Tree::rows_text and SharedLeaf::put_rows",
        rows_text(alloc),
    )?;
    show(rt, "Replay::advance", replay(alloc))
}

/// Returns a range of a ring with one range.
pub(crate) fn range(alloc: Global) -> Result<RangeState, Refusal> {
    let config = RangeConfig::new(1, 0, 0, 100).ok_or(Refusal::BadRing)?;
    RangeState::new(alloc, config)
}

/// Returns the number of entries of a new range.
fn new(alloc: Global) -> Result<u64, Refusal> {
    Ok(range(alloc)?.journal().len())
}

/// Returns the context and the value of a put that follows one count of a node.
pub(crate) fn put_parts(alloc: Global, node: u64) -> Result<(Clock, Bytes), Refusal> {
    let context = Clock::from_pairs(alloc, &[(node, 1)])?;
    Ok((context, Bytes::copy_of(alloc, b"x")?))
}

/// Puts `x` under `a`, with the context of one node.
pub(crate) fn put_at(alloc: Global, state: &mut RangeState, node: u64) -> Result<Receipt, Refusal> {
    let (context, value) = put_parts(alloc, node)?;
    state.put(alloc, 0, 1, b"a", &context, Kind::Live, value)
}

/// Returns the range after the puts with the contexts of the nodes from 2 up to the one before this.
pub(crate) fn range_before(alloc: Global, node: u64) -> Result<RangeState, Refusal> {
    let mut state = range(alloc)?;
    for earlier in 2..node {
        put_at(alloc, &mut state, earlier)?;
    }
    Ok(state)
}

/// Returns true if a range is in its state before the put with this node's context.
pub(crate) fn is_before(alloc: Global, state: &RangeState, node: u64) -> Result<bool, Refusal> {
    Ok(is_same(state, &range_before(alloc, node)?))
}

/// Puts until the journal and the set have grown.
fn put(alloc: Global) -> Result<u64, Refusal> {
    let mut state = range(alloc)?;
    for node in 2..8u64 {
        if let Err(refusal) = put_at(alloc, &mut state, node) {
            return Err(unchanged(refusal, is_before(alloc, &state, node)));
        }
    }
    Ok(state.journal().len())
}

/// Makes a put whose context is stale, and returns the number of clocks in its refusal.
fn stale_put(alloc: Global) -> Result<u64, Refusal> {
    let mut state = range_before(alloc, 3)?;
    match put_at(alloc, &mut state, 2) {
        Err(Refusal::StaleContext(held)) => Ok(held.as_slice().len() as u64),
        Err(refusal) => Err(unchanged(refusal, is_before(alloc, &state, 3))),
        Ok(_) => Err(Refusal::Stale),
    }
}

/// Puts `x` under `a` with the context of one node, by a put that checks what its client has read.
fn put_read_at(alloc: Global, state: &mut RangeState, node: u64) -> Result<Receipt, Refusal> {
    let (context, value) = put_parts(alloc, node)?;
    state.put_read(alloc, 0, 1, b"a", &context, Kind::Live, value)
}

/// Makes the first put of a range, and returns the number of its entry.
fn put_read(alloc: Global) -> Result<u64, Refusal> {
    let mut state = range(alloc)?;
    match put_read_at(alloc, &mut state, 2) {
        Ok(receipt) => Ok(receipt.number),
        Err(refusal) => Err(unchanged(refusal, is_before(alloc, &state, 2))),
    }
}

/// Makes a put whose client hasn't read all that the node put, and returns the number of clocks in its refusal.
fn unread_put(alloc: Global) -> Result<u64, Refusal> {
    let mut state = range_before(alloc, 3)?;
    match put_read_at(alloc, &mut state, 3) {
        Err(Refusal::StaleContext(held)) => Ok(held.as_slice().len() as u64),
        Err(refusal) => Err(unchanged(refusal, is_before(alloc, &state, 3))),
        Ok(_) => Err(Refusal::Stale),
    }
}

/// Accepts a copy of a key.
pub(crate) fn accept_of(
    alloc: Global,
    state: &mut RangeState,
    key: u8,
) -> Result<Accepted, Refusal> {
    let copy = version(alloc, 2)?;
    state.accept(alloc, 0, Source::Copy, &[key], copy)
}

/// Returns a range that accepted copies of these keys.
pub(crate) fn range_of(alloc: Global, keys: &[u8]) -> Result<RangeState, Refusal> {
    let mut state = range(alloc)?;
    for key in keys {
        accept_of(alloc, &mut state, *key)?;
    }
    Ok(state)
}

/// Returns true if a range is in its state before it accepted the copy of the key at a place.
pub(crate) fn is_before_key(alloc: Global, state: &RangeState, at: usize) -> Result<bool, Refusal> {
    Ok(is_same(state, &range_of(alloc, KEYS.get(..at).unwrap_or(KEYS))?))
}

/// Accepts versions of other keys, the last of them twice.
fn accept(alloc: Global) -> Result<u64, Refusal> {
    let mut state = range(alloc)?;
    let mut known = 0u64;
    for (at, key) in KEYS.iter().enumerate() {
        match accept_of(alloc, &mut state, *key) {
            Ok(Accepted::Taken(_)) => {}
            Ok(Accepted::Known) => known = known.saturating_add(100),
            Err(refusal) => return Err(unchanged(refusal, is_before_key(alloc, &state, at))),
        }
    }
    Ok(known.saturating_add(state.journal().len()))
}

fn get(alloc: Global) -> Result<u64, Refusal> {
    Ok(range_before(alloc, 4)?.get(alloc, b"a")?.len() as u64)
}

/// Migrates a range with rows to format 2, and returns the format's number.
fn migrate(alloc: Global) -> Result<u64, Refusal> {
    let mut state = range_before(alloc, 4)?;
    match state.migrate(alloc) {
        Ok(()) => Ok(u64::from(state.store().config().format().number())),
        Err(refusal) => Err(unchanged(refusal, is_before(alloc, &state, 4))),
    }
}

/// Makes a new range from the versions that a range holds, and returns the number of its entries.
fn renewed(alloc: Global) -> Result<u64, Refusal> {
    let new = range_of(alloc, KEYS)?.renewed(alloc, 0, 100)?;
    Ok(new.journal().len())
}

/// Loads a row with two versions, and returns the number of versions taken.
fn load_rows(alloc: Global) -> Result<u64, Refusal> {
    let mut state = range(alloc)?;
    match state.load_rows(alloc, 0, TWO_VERSIONS) {
        Ok(loaded) => Ok(loaded.taken),
        Err(refusal) => Err(unchanged(refusal, is_before(alloc, &state, 2))),
    }
}

/// Loads the rows of two keys in format 1 into a range of format 2, and returns the number of versions taken.
fn load_format(alloc: Global) -> Result<u64, Refusal> {
    let config = RangeConfig::new(2, 0, 0, 100).ok_or(Refusal::BadRing)?;
    let mut state = RangeState::new(alloc, config)?;
    match state.load_format(alloc, 0, Format::One, TWO_KEYS) {
        Ok(loaded) => Ok(loaded.taken),
        Err(refusal) => Err(unchanged(refusal, Ok(state.journal().len() == 0))),
    }
}

/// Returns the length of the texts of the rows of the leaf of `a`.
fn rows_text(alloc: Global) -> Result<u64, Refusal> {
    let state = range_before(alloc, 4)?;
    Ok(state.store().tree().rows_text(alloc, 12)?.len() as u64)
}

/// Replays the journal of a range, and returns 1 if the replay has the versions that the range holds.
fn replay(alloc: Global) -> Result<u64, Refusal> {
    let state = range_before(alloc, 6)?;
    let mut replay = Replay::new(alloc, state.journal().entries());
    replay.advance(alloc, state.journal().len())?;
    let held = state.get(alloc, b"a")?;
    Ok(u64::from(replay.holds(b"a", &held)))
}
