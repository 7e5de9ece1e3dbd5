//! Hints: versions that a carrier keeps for replicas that are down.
ghost use Rattle.std.specs.Prelude.{◌≡◌, ◌-◌, ◌^◌, ℕ, false, min, None, Result, ⊤};
ghost use Rattle.vclock.specs.Outcome.{Does, DoesAtOnce};
ghost use Rattle.vclock.specs.declared.refusal.Refusal.{Refusal};
ghost use Rattle.hint_store.specs.Counts.{counts_of};
ghost use Rattle.hint_store.specs.Sizes.{hints_len};
ghost use Rattle.antientropy_c.specs.Calls.{CallsOn};
ghost use Rattle.c_calls.specs.Carried.{named, keep_at, next_number, settle_at, renew, restore_fault, restored};
ghost use Rattle.antientropy_c.specs.Handoff.{hints_in, ShowsHints};
ghost use Rattle.c_calls.specs.Handoff.{owner_in, hint_key_in, hint_version_in};
ghost use Rattle.c_calls.specs.Hands.{HandsNothing, HandsAny, TellsAny};
ghost use Rattle.antientropy_c.specs.Makes.{MakesIn};
ghost use Rattle.c_calls.specs.Numbers.{Returns};
ghost use Rattle.c_calls.specs.Pairs.{clock_pairs};
ghost use Rattle.c_calls.specs.Sessions.{TellsNumber};
ghost use Rattle.c_calls.specs.Versions.{ShowsValue, ShowsClock};

use crate::carrier::Carrier;
use c_calls::hint_calls::{
    HintNumbers, count, keep, new_hints, next_number, renew, settle, show_clock, show_key,
    show_owner, show_value, tell_any,
};
use c_calls::numbers::{EMPTY, HELD, code};
use c_calls::pair::Pair;
use c_calls::sessions::tell_number;
use c_handle::InC;
use std::alloc::Global;

/// Makes an empty store of hints, whose first hint gets the number 1. Refused, in order: HELD (the handle holds one
/// already), NoMemory. On error the handle is unchanged.
#[unsafe(no_mangle)]
pub extern "C" fn antientropy_hints_new(alloc: Global, hints: &mut Carrier) -> u32
    ensures { MakesIn result (hints_in hints.old) (hints_in hints.new) None (λ s. s ≡ restored 1) }
{
    antientropy_hints_restore(alloc, hints, 1)
}

/// Makes an empty store of hints, whose first hint gets the number `first`: after a restart, a number above all that
/// were used. Refused, in order: HELD (the handle holds one already), UnknownHint (`first` is 0), NoMemory. On error
/// the handle is unchanged.
#[unsafe(no_mangle)]
#[tactic(auto, using(crate::proofs::HintCallLaws::already, crate::proofs::MakeLaws::made))]
pub extern "C" fn antientropy_hints_restore(alloc: Global, hints: &mut Carrier, first: u64) -> u32
    ensures { MakesIn result (hints_in hints.old) (hints_in hints.new) (restore_fault first) (λ s. s ≡ restored first) }
{
    if let Some(store) = hints.store.take(alloc) {
        hints.store.hold(store);
        return HELD;
    }
    let store = match new_hints(alloc, first) {
        Ok(store) => store,
        Err(refusal) => return refusal.number() as u32,
    };
    hints.store.hold(store);
    hints.before = first - 1;
    0
}

/// Frees the hints of a handle, if any.
#[unsafe(no_mangle)]
pub extern "C" fn antientropy_hints_free(alloc: Global, hints: &mut Carrier)
    ensures { hints.new.store.held ≡ false }
{
    let _store = hints.store.take(alloc);
}

/// Keeps a version for a replica that is down, its owner, and stores the hint's number, the next one.
///
/// Refused, in order: EMPTY; BadClock (the owner is 0 or over 65,535, or the pairs aren't a clock), ClockFull, BadValue
/// (the kind is neither 0 nor 1); BadKey, BadValue (of format 2); HintsFull (the number would be over 2^64 - 1, 10,000
/// hints are pending, or 2^32 - 1 were kept since the store was made or renewed), NoMemory. On error the hints and the
/// stored number are unchanged.
#[unsafe(no_mangle)]
#[tactic(auto, using(crate::proofs::CallLaws::empty, crate::proofs::HintCallLaws::held, crate::proofs::CallLaws::returns))]
pub extern "C" fn antientropy_hint_keep(
    alloc: Global,
    hints: &mut Carrier,
    owner: u64,
    key: &[u8],
    clock: &[Pair],
    kind: u8,
    value: &[u8],
    id: &mut u64,
) -> u32
    ensures { CallsOn result (hints_in hints.old) (hints_in hints.new) (id.new ≡ id.old)
        (λ s t. Returns result (λ (r : Result ℕ Refusal).
        Does r s t (keep_at s owner key.now (clock_pairs clock.now) kind value.now)
        × TellsNumber r id.old id.new)) }
{
    let Some(mut store) = hints.store.take(alloc) else {
        return EMPTY;
    };
    let outcome = keep(
        alloc,
        &mut store,
        hints.before,
        owner,
        key,
        clock,
        kind,
        value,
    );
    hints.store.hold(store);
    tell_number(&outcome, id);
    code(&outcome)
}

/// Stores the number of the pending hint of an owner with the least number over `after`. Refused, in order: EMPTY,
/// NO_VERSION (no hint follows).
#[unsafe(no_mangle)]
#[tactic(auto, using(crate::proofs::CallLaws::empty, crate::proofs::HintCallLaws::held))]
pub extern "C" fn antientropy_hint_next(
    alloc: Global,
    hints: &mut Carrier,
    owner: u64,
    after: u64,
    id: &mut u64,
) -> u32
    ensures { ShowsHints result hints.old hints.new (id.new ≡ id.old) (λ s.
        TellsAny (next_number s owner after) result id.old id.new) }
{
    let Some(store) = hints.store.take(alloc) else {
        return EMPTY;
    };
    let result = tell_any(next_number(&store, hints.before, owner, after), id);
    hints.store.hold(store);
    result
}

/// Stores the owner of a hint. Refused, in order: EMPTY, NO_VERSION (no hint has this number).
#[unsafe(no_mangle)]
#[tactic(auto, using(crate::proofs::CallLaws::empty, crate::proofs::HintCallLaws::held))]
pub extern "C" fn antientropy_hint_owner(
    alloc: Global,
    hints: &mut Carrier,
    id: u64,
    owner: &mut u64,
) -> u32
    ensures { ShowsHints result hints.old hints.new (owner.new ≡ owner.old)
        (λ s. TellsAny (owner_in (named s id)) result owner.old owner.new) }
{
    let Some(store) = hints.store.take(alloc) else {
        return EMPTY;
    };
    let result = show_owner(&store, hints.before, id, owner);
    hints.store.hold(store);
    result
}

/// Copies out the key of a hint. Refused, in order: EMPTY, NO_VERSION (no hint has this number), SMALL.
#[unsafe(no_mangle)]
#[tactic(auto, using(crate::proofs::CallLaws::empty, crate::proofs::HintCallLaws::held))]
pub extern "C" fn antientropy_hint_key(
    alloc: Global,
    hints: &mut Carrier,
    id: u64,
    out: &mut [u8],
    need: &mut u64,
) -> u32
    ensures { ShowsHints result hints.old hints.new (HandsNothing (need.old, out.old) (need.new, out.new)) (λ s.
        HandsAny (hint_key_in (named s id)) result (need.old, out.old) (need.new, out.new)) }
{
    let Some(store) = hints.store.take(alloc) else {
        return EMPTY;
    };
    let result = show_key(&store, hints.before, id, out, need);
    hints.store.hold(store);
    result
}

/// Copies out the value of a hint's version, and stores its kind: 0 for a live version, 1 for a tombstone. Refused, in
/// order: EMPTY, NO_VERSION (no hint has this number), SMALL. The kind is stored even if the buffer is too small.
#[unsafe(no_mangle)]
#[tactic(auto, using(crate::proofs::CallLaws::empty, crate::proofs::HintCallLaws::held))]
pub extern "C" fn antientropy_hint_value(
    alloc: Global,
    hints: &mut Carrier,
    id: u64,
    kind: &mut u8,
    out: &mut [u8],
    need: &mut u64,
) -> u32
    ensures { ShowsHints result hints.old hints.new ((kind.new ≡ kind.old) × HandsNothing (need.old, out.old) (need.new, out.new)) (λ s.
        ShowsValue (hint_version_in (named s id)) result kind.old kind.new (need.old, out.old) (need.new, out.new)) }
{
    let Some(store) = hints.store.take(alloc) else {
        return EMPTY;
    };
    let result = show_value(&store, hints.before, id, kind, out, need);
    hints.store.hold(store);
    result
}

/// Copies out the pairs of the clock of a hint's version. The pairs ascend by node. Refused, in order: EMPTY,
/// NO_VERSION (no hint has this number), SMALL.
#[unsafe(no_mangle)]
#[tactic(auto, using(crate::proofs::CallLaws::empty, crate::proofs::HintCallLaws::held))]
pub extern "C" fn antientropy_hint_clock(
    alloc: Global,
    hints: &mut Carrier,
    id: u64,
    out: &mut [Pair],
    need: &mut u64,
) -> u32
    ensures { ShowsHints result hints.old hints.new (HandsNothing (need.old, out.old) (need.new, out.new)) (λ s.
        ShowsClock (hint_version_in (named s id)) result (need.old, out.old) (need.new, out.new)) }
{
    let Some(store) = hints.store.take(alloc) else {
        return EMPTY;
    };
    let result = show_clock(&store, hints.before, id, out, need);
    hints.store.hold(store);
    result
}

/// Records that a pending hint was delivered to its owner, who knew its version or took it. Refused, in order: EMPTY,
/// UnknownHint (no pending hint has this number).
#[unsafe(no_mangle)]
#[tactic(auto, using(crate::proofs::CallLaws::empty, crate::proofs::HintCallLaws::held, crate::proofs::CallLaws::returns))]
pub extern "C" fn antientropy_hint_confirm(
    alloc: Global,
    hints: &mut Carrier,
    id: u64,
    known: bool,
) -> u32
    ensures { CallsOn result (hints_in hints.old) (hints_in hints.new) ⊤
        (λ s t. Returns result (λ (r : Result (Unit {0}) Refusal).
        DoesAtOnce r s t (settle_at s id known))) }
{
    let Some(mut store) = hints.store.take(alloc) else {
        return EMPTY;
    };
    let outcome = settle(&mut store, hints.before, id, known);
    hints.store.hold(store);
    code(&outcome)
}

/// Drops the hints that were delivered, and gives the pending ones new numbers, above every number that was used, in
/// order. Refused, in order: EMPTY, HintsFull (a number would be over 2^64 - 1), NoMemory. On error the hints are
/// unchanged.
#[unsafe(no_mangle)]
#[tactic(auto, using(crate::proofs::CallLaws::empty, crate::proofs::HintCallLaws::held, crate::proofs::CallLaws::returns))]
pub extern "C" fn antientropy_hints_renew(alloc: Global, hints: &mut Carrier) -> u32
    ensures { CallsOn result (hints_in hints.old) (hints_in hints.new) ⊤
        (λ s t. Returns result (λ (r : Result (Unit {0}) Refusal).
        Does r s t (renew s))) }
{
    let Some(mut store) = hints.store.take(alloc) else {
        return EMPTY;
    };
    let outcome = renew(alloc, &mut store, &mut hints.before);
    hints.store.hold(store);
    code(&outcome)
}

/// Counts hints. Refused: EMPTY.
#[unsafe(no_mangle)]
#[tactic(auto, using(crate::proofs::CallLaws::empty, crate::proofs::HintCallLaws::held))]
pub extern "C" fn antientropy_hints_count(
    alloc: Global,
    hints: &mut Carrier,
    counts: &mut HintNumbers,
) -> u32
    ensures { ShowsHints result hints.old hints.new (counts.new ≡ counts.old) (λ s. (result ≡ 0)
        × (counts.new ≡ record { pending = (counts_of s.hints).pending; delivered = (counts_of s.hints).delivered })) }
{
    let Some(store) = hints.store.take(alloc) else {
        return EMPTY;
    };
    *counts = count(&store);
    hints.store.hold(store);
    0
}

/// Stores the size of hints in bytes, pending or delivered, at most 2^64 - 1: their keys, values and clocks, 10 bytes
/// for each pair of a clock. Refused: EMPTY.
#[unsafe(no_mangle)]
#[tactic(auto, using(crate::proofs::CallLaws::empty, crate::proofs::HintCallLaws::held))]
pub extern "C" fn antientropy_hints_bytes(
    alloc: Global,
    hints: &mut Carrier,
    bytes: &mut u64,
) -> u32
    ensures { ShowsHints result hints.old hints.new (bytes.new ≡ bytes.old)
        (λ s. (result ≡ 0) × (bytes.new ≡ min (hints_len s.hints) (2 ^ 64 - 1))) }
{
    let Some(store) = hints.store.take(alloc) else {
        return EMPTY;
    };
    *bytes = store.bytes();
    hints.store.hold(store);
    0
}
