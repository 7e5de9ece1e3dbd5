//! Puts, and versions of other replicas.
ghost use Rattle.std.specs.Prelude.{◌≡◌, Result};
ghost use Rattle.vclock.specs.Answer.{first_fault};
ghost use Rattle.vclock.specs.Outcome.{DoesOrNoMemory, through};
ghost use Rattle.vclock.specs.declared.refusal.Refusal.{Refusal};
ghost use Rattle.range_journal.specs.declared.journal.Entry.{Entry};
ghost use Rattle.c_calls.specs.Numbers.{Returns};
ghost use Rattle.antientropy_c.specs.Calls.{Calls, CallsKept};
ghost use Rattle.c_calls.specs.Kept.{with_state};
ghost use Rattle.c_calls.specs.Pairs.{clock_pairs};
ghost use Rattle.range_store.specs.declared.receipt.Accepted.{Accepted};
ghost use Rattle.c_calls.specs.Puts.{node_fault, parts_fault, put_at, put_read_at, accept_at, NoMemoryAfter, TellsPut, TellsAccepted};

use crate::frame::with_state;
use crate::replica::Replica;
use c_calls::frame::with;
use c_calls::kept::Kept;
use c_calls::numbers::code;
use c_calls::pair::Pair;
use c_calls::puts::{PutReceipt, accept, put, tell_accepted, tell_put};
use range_state::{ContextTest, RangeState};
use std::alloc::Global;

/// Puts a value, or a tombstone, for a key at a node.
///
/// Refused, in order: EMPTY; BadClock (the node is 0 or over 65,535, or the context isn't a clock), ClockFull (the
/// context has over 32 pairs), BadValue (the kind is neither 0 nor 1); then as [`RangeState::put`] is. On error the
/// replica and the receipt are unchanged. The clock and the value are copied once the causes up to BadValue were
/// tested, so NoMemory may replace a cause from OtherRange on.
#[unsafe(no_mangle)]
#[tactic(auto, using(crate::proofs::CallLaws::empty, crate::proofs::CallLaws::held, crate::proofs::CallLaws::returns))]
pub extern "C" fn antientropy_put(
    alloc: Global,
    replica: &mut Replica,
    node: u64,
    key: &[u8],
    context: &[Pair],
    kind: u8,
    value: &[u8],
    receipt: &mut PutReceipt,
) -> u32
    ensures { CallsKept result replica.old replica.new (receipt.new ≡ receipt.old)
        (λ s t. Returns result (λ (r : Result Entry Refusal).
        DoesOrNoMemory r s t (through (with_state s) (put_at s.state node key.now (clock_pairs context.now) kind value.now))
        × NoMemoryAfter (first_fault (node_fault node)
        (parts_fault s.state.store.config.format key.now (clock_pairs context.now) kind value.now)) r
        × TellsPut s.first node r receipt.old receipt.new)) }
{
    let test = ContextTest::Fresh;
    let mut call = |kept: &mut Kept| {
        let first = kept.first();
        let outcome = put(alloc, kept, test, node, key, context, kind, value);
        tell_put(&outcome, first, node, receipt);
        code(&outcome)
    };
    with(replica, alloc, &mut call)
}

/// Puts a value, or a tombstone, for a key at a node, as [`antientropy_put`] does, if its client has read all that the
/// node put. It replaces only versions that the context has seen.
///
/// Refused, in order: EMPTY; BadClock (the node is 0 or over 65,535, or the context isn't a clock), ClockFull (the
/// context has over 32 pairs), BadValue (the kind is neither 0 nor 1); then as [`RangeState::put_read`] is. On error
/// the replica and the receipt are unchanged. The clock and the value are copied once the causes up to BadValue were
/// tested, so NoMemory may replace a cause from OtherRange on.
#[unsafe(no_mangle)]
#[tactic(auto, using(crate::proofs::CallLaws::empty, crate::proofs::CallLaws::held, crate::proofs::CallLaws::returns))]
pub extern "C" fn antientropy_put_read(
    alloc: Global,
    replica: &mut Replica,
    node: u64,
    key: &[u8],
    context: &[Pair],
    kind: u8,
    value: &[u8],
    receipt: &mut PutReceipt,
) -> u32
    ensures { CallsKept result replica.old replica.new (receipt.new ≡ receipt.old)
        (λ s t. Returns result (λ (r : Result Entry Refusal).
        DoesOrNoMemory r s t (through (with_state s) (put_read_at s.state node key.now (clock_pairs context.now) kind value.now))
        × NoMemoryAfter (first_fault (node_fault node)
        (parts_fault s.state.store.config.format key.now (clock_pairs context.now) kind value.now)) r
        × TellsPut s.first node r receipt.old receipt.new)) }
{
    let mut call = |kept: &mut Kept| {
        let first = kept.first();
        let test = ContextTest::Read;
        let outcome = put(alloc, kept, test, node, key, context, kind, value);
        tell_put(&outcome, first, node, receipt);
        code(&outcome)
    };
    with(replica, alloc, &mut call)
}

/// Accepts a version of another replica, as a copy. Stores 1 if it was accepted, and 0 if it was known.
///
/// Refused, in order: EMPTY; BadClock (the pairs aren't a clock), ClockFull, BadValue (the kind is neither 0 nor 1);
/// then as [`RangeState::accept`] is. On error the replica and the stored number are unchanged. The clock and the value
/// are copied once the causes up to BadValue were tested, so NoMemory may replace a cause from OtherRange on.
#[unsafe(no_mangle)]
#[tactic(auto, using(crate::proofs::CallLaws::state_empty, crate::proofs::CallLaws::state_held, crate::proofs::CallLaws::returns))]
pub extern "C" fn antientropy_accept(
    alloc: Global,
    replica: &mut Replica,
    key: &[u8],
    clock: &[Pair],
    kind: u8,
    value: &[u8],
    taken: &mut u64,
) -> u32
    ensures { Calls result replica.old replica.new (taken.new ≡ taken.old)
        (λ s t. Returns result (λ (r : Result Accepted Refusal).
        DoesOrNoMemory r s t (accept_at s key.now (clock_pairs clock.now) kind value.now)
        × NoMemoryAfter (parts_fault s.store.config.format key.now (clock_pairs clock.now) kind value.now) r
        × TellsAccepted r taken.old taken.new)) }
{
    let mut call = |state: &mut RangeState| {
        let outcome = accept(alloc, state, key, clock, kind, value);
        tell_accepted(&outcome, taken);
        code(&outcome)
    };
    with_state(replica, alloc, &mut call)
}
