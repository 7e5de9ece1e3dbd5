//! Exchanges with other replicas.
ghost use Rattle.std.specs.Prelude.{◌≡◌, length, nat_le, false, Result, ⊤};
ghost use Rattle.vclock.specs.declared.refusal.Refusal.{Refusal};
ghost use Rattle.exchange.specs.Courses.{after_go_on, closed};
ghost use Rattle.exchange.specs.Exchanges.{on, record_in, after_close};
ghost use Rattle.c_calls.specs.Exchanges.{bounds_from, BeginsUnless, WritesNext, TakesTold, LosesBytes};
ghost use Rattle.c_calls.specs.Hands.{HandsNothing};
ghost use Rattle.c_calls.specs.Numbers.{Returns};
ghost use Rattle.c_calls.specs.Reads.{Reads};
ghost use Rattle.c_calls.specs.Sessions.{partner_fault};
ghost use Rattle.antientropy_c.specs.Calls.{Calls, CallsOn, ReadsState};
ghost use Rattle.antientropy_c.specs.Exchanges.{exchange_in, OpensIn};

use crate::exchange_handle::ExchangeHandle;
use crate::frame::with_state;
use crate::replica::Replica;
use crate::replica_share::ReplicaShare;
use c_calls::exchanges::{ExchangeBounds, ExchangeVerdict, lose, next, open, take};
use c_calls::frame::{fill, read, with};
use c_calls::kept::Kept;
use c_calls::numbers::{EMPTY, HELD, code};
use c_handle::InC;
use exchange::Exchange;
use range_state::RangeState;
use std::alloc::Global;

/// Opens an exchange with a partner by the bytes of its offer.
///
/// Refused, in order: EMPTY (the replica), HELD (the handle holds an exchange already), BadClock (the partner is over
/// 65,535), BadMessage (the bytes aren't an offer); then as [`Exchange::open`] is: OtherFormat, OtherRange, Dirty,
/// SessionsFull, NoMemory, which may replace the two before it. On error both handles are unchanged.
#[unsafe(no_mangle)]
#[tactic(auto, using(crate::proofs::CallLaws::state_empty, crate::proofs::CallLaws::state_held))]
pub extern "C" fn antientropy_exchange_open(
    alloc: Global,
    replica: &mut Replica,
    exchange: &mut ExchangeHandle,
    partner: u64,
    offer: &[u8],
    bounds: &ExchangeBounds,
) -> u32
    ensures { Calls result replica.old replica.new (exchange.new ≡ exchange.old) (λ s t.
        OpensIn result (exchange_in exchange.old) (exchange_in exchange.new) s t
        (λ r. BeginsUnless (partner_fault partner) s partner offer.now (bounds_from bounds.now) r t)) }
{
    let mut call = |state: &mut RangeState| open_into(
        alloc, state, exchange, partner, offer, bounds,
    );
    with_state(replica, alloc, &mut call)
}

/// Opens an exchange in a handle, if it is empty.
#[tactic(auto, using(crate::proofs::ExchangeLaws::already))]
fn open_into(
    alloc: Global,
    state: &mut RangeState,
    exchange: &mut ExchangeHandle,
    partner: u64,
    offer: &[u8],
    bounds: &ExchangeBounds,
) -> u32
    ensures { OpensIn result (exchange_in exchange.old) (exchange_in exchange.new) state.old state.new
        (λ r. BeginsUnless (partner_fault partner) state.old partner offer.now (bounds_from bounds.now) r state.new) }
{
    if let Some(held) = exchange.take(alloc) {
        exchange.hold(held);
        return HELD;
    }
    let made = open(alloc, state, partner, offer, bounds);
    fill(exchange, made)
}

/// Writes the message of the next ask to send, and stores its length: 0 if none is to be sent now. If an outline pays
/// and fits into the buffer, it is sent in place of the ask, unless memory runs out.
///
/// Refused, in order: EMPTY (the exchange), EMPTY (the replica), SMALL (the buffer has fewer than 8 bytes). After SMALL
/// 8 is stored, and nothing else changes.
#[unsafe(no_mangle)]
#[tactic(auto, using(crate::proofs::CallLaws::empty, crate::proofs::CallLaws::held))]
pub extern "C" fn antientropy_share_exchange_next(
    alloc: Global,
    exchange: &mut ExchangeHandle,
    share: &mut ReplicaShare,
    out: &mut [u8],
    need: &mut u64,
) -> u32
    ensures { CallsOn result (exchange_in exchange.old) (exchange_in exchange.new)
        ((share.new ≡ share.old) × HandsNothing (need.old, out.old) (need.new, out.new))
        (λ x y. ReadsState result share.old share.new ((y ≡ x) × HandsNothing (need.old, out.old) (need.new, out.new))
        (λ s. WritesNext (nat_le 8 (length out.old)) result (need.old, out.old) (need.new, out.new) (record_in x s) x y)) }
{
    let Some(mut value) = exchange.take(alloc) else {
        return EMPTY;
    };
    let result = next_of(alloc, &mut value, share, out, need);
    exchange.hold(value);
    result
}

/// Writes the message of the next ask of an exchange with a replica.
#[tactic(auto, using(crate::proofs::CallLaws::reads_nothing, crate::proofs::CallLaws::reads_held))]
fn next_of(
    alloc: Global,
    exchange: &mut Exchange,
    share: &mut ReplicaShare,
    out: &mut [u8],
    need: &mut u64,
) -> u32
    ensures { ReadsState result share.old share.new
        ((exchange.new ≡ exchange.old) × HandsNothing (need.old, out.old) (need.new, out.new))
        (λ s. WritesNext (nat_le 8 (length out.old)) result (need.old, out.old) (need.new, out.new)
        (record_in exchange.old s) exchange.old exchange.new) }
{
    let mut call = |kept: &Kept| next(alloc, exchange, kept.state(), out, need);
    read(share, &mut call)
}

/// Takes the bytes of a partner's answer or patch, and stores the verdict on them. Refused: EMPTY (the exchange or the
/// replica).
#[unsafe(no_mangle)]
#[tactic(auto, using(crate::proofs::CallLaws::empty, crate::proofs::CallLaws::held))]
pub extern "C" fn antientropy_exchange_take(
    alloc: Global,
    exchange: &mut ExchangeHandle,
    replica: &mut Replica,
    answer: &[u8],
    verdict: &mut ExchangeVerdict,
) -> u32
    ensures { CallsOn result (exchange_in exchange.old) (exchange_in exchange.new)
        ((replica.new ≡ replica.old) × (verdict.new ≡ verdict.old))
        (λ x y. Calls result replica.old replica.new ((y ≡ x) × (verdict.new ≡ verdict.old))
        (λ s t. (result ≡ 0) × TakesTold x s answer.now verdict.new y t)) }
{
    let Some(mut value) = exchange.take(alloc) else {
        return EMPTY;
    };
    let result = take_by(alloc, &mut value, replica, answer, verdict);
    exchange.hold(value);
    result
}

/// Takes the bytes of a partner's answer or patch for an exchange with a replica.
#[tactic(auto, using(crate::proofs::CallLaws::state_empty, crate::proofs::CallLaws::state_held))]
fn take_by(
    alloc: Global,
    exchange: &mut Exchange,
    replica: &mut Replica,
    answer: &[u8],
    verdict: &mut ExchangeVerdict,
) -> u32
    ensures { Calls result replica.old replica.new ((exchange.new ≡ exchange.old) × (verdict.new ≡ verdict.old))
        (λ s t. (result ≡ 0) × TakesTold exchange.old s answer.now verdict.new exchange.new t) }
{
    let mut call = |state: &mut RangeState| {
        *verdict = take(alloc, exchange, state, answer);
        0
    };
    with_state(replica, alloc, &mut call)
}

/// Counts an ask or an outline as lost, by its bytes, if it is in progress. One for another offer changes nothing.
/// Refused, in order: EMPTY, BadMessage (the bytes are neither). On error the exchange is unchanged.
#[unsafe(no_mangle)]
#[tactic(auto, using(crate::proofs::CallLaws::empty, crate::proofs::CallLaws::held, crate::proofs::CallLaws::returns))]
pub extern "C" fn antientropy_exchange_lose(
    alloc: Global,
    exchange: &mut ExchangeHandle,
    ask: &[u8],
) -> u32
    ensures { CallsOn result (exchange_in exchange.old) (exchange_in exchange.new) ⊤
        (λ x y. Returns result (λ (r : Result (Unit {0}) Refusal). LosesBytes x ask.now r y)) }
{
    let mut call = |exchange: &mut Exchange| {
        let outcome = lose(alloc, exchange, ask);
        code(&outcome)
    };
    with(exchange, alloc, &mut call)
}

/// Lets asks be sent again after an answer was refused as JournalFull or NoMemory, as [`Exchange::go_on`] does.
/// Refused: EMPTY.
#[unsafe(no_mangle)]
#[tactic(auto, using(crate::proofs::CallLaws::empty, crate::proofs::CallLaws::held))]
pub extern "C" fn antientropy_exchange_go_on(alloc: Global, exchange: &mut ExchangeHandle) -> u32
    ensures { CallsOn result (exchange_in exchange.old) (exchange_in exchange.new) ⊤
        (λ x y. (result ≡ 0) × (y ≡ on x (after_go_on x.course))) }
{
    let mut call = |exchange: &mut Exchange| {
        exchange.go_on();
        0
    };
    with(exchange, alloc, &mut call)
}

/// Closes the exchange: cancels its session, if it is in progress. Refused: EMPTY (the exchange or the replica).
#[unsafe(no_mangle)]
#[tactic(auto, using(crate::proofs::CallLaws::empty, crate::proofs::CallLaws::held))]
pub extern "C" fn antientropy_exchange_close(
    alloc: Global,
    exchange: &mut ExchangeHandle,
    replica: &mut Replica,
) -> u32
    ensures { CallsOn result (exchange_in exchange.old) (exchange_in exchange.new) (replica.new ≡ replica.old)
        (λ x y. Calls result replica.old replica.new (y ≡ x)
        (λ s t. (result ≡ 0) × (y ≡ on x (closed x.course)) × (t ≡ after_close x s))) }
{
    let Some(mut value) = exchange.take(alloc) else {
        return EMPTY;
    };
    let result = close_in(alloc, &mut value, replica);
    exchange.hold(value);
    result
}

/// Closes an exchange with a replica.
#[tactic(auto, using(crate::proofs::CallLaws::state_empty, crate::proofs::CallLaws::state_held))]
fn close_in(alloc: Global, exchange: &mut Exchange, replica: &mut Replica) -> u32
    ensures { Calls result replica.old replica.new (exchange.new ≡ exchange.old)
        (λ s t. (result ≡ 0) × (exchange.new ≡ on exchange.old (closed exchange.old.course))
        × (t ≡ after_close exchange.old s)) }
{
    let mut call = |state: &mut RangeState| {
        exchange.close(state);
        0
    };
    with_state(replica, alloc, &mut call)
}

/// Frees the exchange of a handle, if any. Its session is unchanged.
#[unsafe(no_mangle)]
pub extern "C" fn antientropy_exchange_free(alloc: Global, exchange: &mut ExchangeHandle)
    ensures { exchange.new.held ≡ false }
{
    let _exchange = exchange.take(alloc);
}
