//! Hints: versions that a carrier keeps for replicas that are down.
ghost use Rattle.std.specs.Prelude.{◌≡◌, ◌+◌, ◌-◌, ◌<◌, [], length, MatchOption, ⊤};
ghost use Rattle.std.specs.Option.{option_copied};
ghost use Rattle.vclock.specs.Answer.{Answers, AnswersAtOnce};
ghost use Rattle.vclock.specs.Outcome.{Does, DoesAtOnce};
ghost use Rattle.hint_store.specs.Counts.{counts_of};
ghost use Rattle.hint_store.specs.Hints.{AreHints, keep_fault};
ghost use Rattle.c_calls.specs.Carried.{carried, named, last_number, number_fault, keep_at, next_number, settle_at, renew, restore_fault};
ghost use Rattle.c_calls.specs.Handoff.{owner_in, hint_key_in, hint_version_in};
ghost use Rattle.c_calls.specs.Hands.{HandsAny, TellsAny};
ghost use Rattle.c_calls.specs.Pairs.{clock_pairs};
ghost use Rattle.c_calls.specs.Versions.{ShowsValue, ShowsClock};

use crate::numbers::NO_VERSION;
use crate::output::copy_out;
use crate::pair::{Pair, clock_of};
use crate::puts::{kind_of_parts, node_of};
use crate::versions::copy_pairs;
use hint_store::{HintStore, Kept};
use std::alloc::Global;
use vclock::limits::PENDING_HINTS_MAX;
use vclock::{Bytes, Format, Refusal};
use version_set::Version;

/// The numbers of hints.
#[repr(C)]
#[derive(Clone, Copy)]
pub struct HintNumbers {
    /// The number of hints that wait for their owners.
    pub pending: u64,
    /// The number of hints that were delivered.
    pub delivered: u64,
}

/// Makes an empty store of hints, whose first hint gets the number `first`. Refused, in order: UnknownHint (`first` is
/// 0), NoMemory.
pub fn new_hints(alloc: Global, first: u64) -> Result<Box<HintStore, Global>, Refusal>
    ensures { Answers result (restore_fault first) (λ store. store.value ≡ []) }
{
    if first == 0 {
        return Err(Refusal::UnknownHint);
    }
    Ok(Box::new(alloc, HintStore::new(alloc))?)
}

/// Keeps a version for a replica that is down, its owner, and returns the hint's number, the next one. Hint n of the
/// store has the number `before` + n.
///
/// Refused, in order: BadClock (the owner is 0 or over 65,535, or the pairs aren't a clock), ClockFull, BadValue (the
/// kind is neither 0 nor 1); BadKey, BadValue (of format 2); HintsFull (the number would be over 2^64 - 1, 10,000 hints
/// are pending, or 2^32 - 1 were kept since the store was made or renewed), NoMemory. On error the store is unchanged.
pub fn keep(
    alloc: Global,
    store: &mut HintStore,
    before: u64,
    owner: u64,
    key: &[u8],
    clock: &[Pair],
    kind: u8,
    value: &[u8],
) -> Result<u64, Refusal>
    ensures { Does result (carried before store.old) (carried before store.new)
        (keep_at (carried before store.old) owner key.now (clock_pairs clock.now) kind value.now) }
{
    let owner = node_of(owner)?;
    let kind = kind_of_parts(Format::Two, key, clock, kind, value)?;
    last_number(store, before, 1)?;
    check_room(store)?;
    let clock = clock_of(alloc, clock)?;
    let key = Bytes::copy_of(alloc, key)?;
    let value = Bytes::copy_of(alloc, value)?;
    let id = store.keep(owner, key, Version { clock, kind, value })?;
    Ok(before + u64::from(id))
}

/// Tests that a store can keep one more hint. Refused: HintsFull (10,000 are pending, or 2^32 - 1 were kept).
fn check_room(store: &HintStore) -> Result<(), Refusal>
    ensures { AnswersAtOnce result (keep_fault store.now) (λ _. ⊤) }
{
    let kept = u64::from(store.delivered()) + u64::from(store.pending());
    if store.pending() >= PENDING_HINTS_MAX || kept >= u64::from(u32::MAX) {
        return Err(Refusal::HintsFull);
    }
    Ok(())
}

/// Returns the last number that was used. Refused: HintsFull (the number plus `more` is over 2^64 - 1).
fn last_number(store: &HintStore, before: u64, more: u32) -> Result<u64, Refusal>
    ensures { AnswersAtOnce result (number_fault (last_number (carried before store.now) + more))
        (λ last. last ≡ last_number (carried before store.now)) }
{
    let kept = u64::from(store.delivered()) + u64::from(store.pending());
    if before > u64::MAX - kept - u64::from(more) {
        return Err(Refusal::HintsFull);
    }
    Ok(before + kept)
}

/// Returns the number of the pending hint of an owner with the least number over `after`, if any.
pub fn next_number(store: &HintStore, before: u64, owner: u64, after: u64) -> Option<u64>
    ensures { result ≡ next_number (carried before store.now) owner after }
{
    let owner = u16::try_from(owner).ok()?;
    let after = place_of(store, before, after)?;
    let id = store.next_id(owner, after)?;
    before.checked_add(u64::from(id))
}

/// Returns the store's number of a hint, unless it is above all hints' numbers.
fn place_of(store: &HintStore, before: u64, number: u64) -> Option<u32>
    ensures place { MatchOption result (length store.now < number - before) (λ place. place ≡ number - before) }
    ensures valid { AreHints store.now }
{
    // Called only for its clause `valid`: a store has fewer than 2^32 hints.
    let _valid = store.pending();
    u32::try_from(number.saturating_sub(before)).ok()
}

/// Returns the hint of a number, if any.
fn hint_of(store: &HintStore, before: u64, number: u64) -> Option<&Kept>
    ensures { option_copied result ≡ named (carried before store.now) number }
{
    store.get(place_of(store, before, number)?)
}

/// Stores a number, if any. Refused: NO_VERSION (none was found).
pub fn tell_any(found: Option<u64>, out: &mut u64) -> u32
    ensures { TellsAny found result out.old out.new }
{
    let Some(number) = found else {
        return NO_VERSION;
    };
    *out = number;
    0
}

/// Stores the owner of a hint. Refused: NO_VERSION (no hint has this number).
pub fn show_owner(store: &HintStore, before: u64, id: u64, owner: &mut u64) -> u32
    ensures { TellsAny (owner_in (named (carried before store.now) id)) result owner.old owner.new }
{
    let Some(Kept { hint, .. }) = hint_of(store, before, id) else {
        return NO_VERSION;
    };
    *owner = u64::from(hint.owner);
    0
}

/// Copies out the key of a hint. Refused, in order: NO_VERSION (no hint has this number), SMALL.
pub fn show_key(store: &HintStore, before: u64, id: u64, out: &mut [u8], need: &mut u64) -> u32
    ensures { HandsAny (hint_key_in (named (carried before store.now) id)) result (need.old, out.old) (need.new, out.new) }
{
    match hint_of(store, before, id) {
        Some(kept) => copy_out(kept.hint.key.as_slice(), out, need),
        None => NO_VERSION,
    }
}

/// Copies out the value of a hint's version, and stores its kind: 0 for a live version, 1 for a tombstone. Refused, in
/// order: NO_VERSION (no hint has this number), SMALL. The kind is stored even if the buffer is too small.
pub fn show_value(
    store: &HintStore,
    before: u64,
    id: u64,
    kind: &mut u8,
    out: &mut [u8],
    need: &mut u64,
) -> u32
    ensures { ShowsValue (hint_version_in (named (carried before store.now) id)) result kind.old kind.new
        (need.old, out.old) (need.new, out.new) }
{
    let Some(Kept { hint, .. }) = hint_of(store, before, id) else {
        return NO_VERSION;
    };
    *kind = hint.version.kind.byte();
    copy_out(hint.version.value.as_slice(), out, need)
}

/// Copies out the pairs of the clock of a hint's version. The pairs ascend by node. Refused, in order: NO_VERSION (no
/// hint has this number), SMALL.
pub fn show_clock(store: &HintStore, before: u64, id: u64, out: &mut [Pair], need: &mut u64) -> u32
    ensures { ShowsClock (hint_version_in (named (carried before store.now) id)) result (need.old, out.old) (need.new, out.new) }
{
    match hint_of(store, before, id) {
        Some(kept) => copy_pairs(kept.hint.version.clock.pairs(), out, need),
        None => NO_VERSION,
    }
}

/// Records that a pending hint was delivered to its owner, who knew its version or took it. Refused: UnknownHint (no
/// pending hint has this number).
pub fn settle(store: &mut HintStore, before: u64, id: u64, known: bool) -> Result<(), Refusal>
    ensures { DoesAtOnce result (carried before store.old) (carried before store.new) (settle_at (carried before store.old) id known) }
{
    let place = place_of(store, before, id).ok_or(Refusal::UnknownHint)?;
    store.settle(place, known)
}

/// Drops the hints that were delivered, and gives the pending ones new numbers, above every number that was used, in
/// order. Refused, in order: HintsFull (a number would be over 2^64 - 1), NoMemory. On error the hints are unchanged.
pub fn renew(alloc: Global, store: &mut HintStore, before: &mut u64) -> Result<(), Refusal>
    ensures { Does result (carried before.old store.old) (carried before.new store.new) (renew (carried before.old store.old)) }
{
    let last = last_number(store, *before, store.pending())?;
    *store = store.renewed(alloc)?;
    *before = last;
    Ok(())
}

/// Counts hints.
pub fn count(store: &HintStore) -> HintNumbers
    ensures { result ≡ record { pending = (counts_of store.now).pending; delivered = (counts_of store.now).delivered } }
{
    let counts = store.counts();
    HintNumbers {
        pending: u64::from(counts.pending),
        delivered: u64::from(counts.delivered),
    }
}
