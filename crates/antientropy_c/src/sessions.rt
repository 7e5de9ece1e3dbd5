//! Sessions with other replicas.
ghost use Rattle.std.specs.Prelude.{◌≡◌, ℕ, Result, ⊤};
ghost use Rattle.vclock.specs.Outcome.{DoesAtOnce};
ghost use Rattle.vclock.specs.declared.refusal.Refusal.{Refusal};
ghost use Rattle.range_state.specs.Endings.{without_ended_sessions};
ghost use Rattle.range_state.specs.Sessions.{cancel_session};
ghost use Rattle.range_state.specs.declared.event.AnswerTaken.{AnswerTaken};
ghost use Rattle.range_state.specs.declared.local_rows.LocalRows.TheVariants as rows;
ghost use Rattle.c_calls.specs.Numbers.{Returns};
ghost use Rattle.antientropy_c.specs.Calls.{Calls, ReadsState};
ghost use Rattle.c_calls.specs.Sessions.{OpensUnless, partner_fault, TellsNumber, TakesBytes, TellsTaken, session_seen};

use crate::frame::with_state;
use crate::replica::Replica;
use crate::replica_share::ReplicaShare;
use c_calls::frame::read;
use c_calls::kept::Kept;
use c_calls::numbers::code;
use c_calls::sessions::{TakenReceipt, open, standing_of, take, tell_number, tell_taken};
use range_state::{LocalRows, RangeState};
use std::alloc::Global;

/// Opens a session with a partner by the bytes of its offer, and stores the session's number, from 0.
///
/// Refused, in order: EMPTY, BadClock (the partner is over 65,535), BadMessage (the bytes aren't an offer); then as
/// [`RangeState::open_session`] is: OtherFormat, OtherRange, SessionsFull, Dirty, NoMemory. If the bytes are an answer,
/// NoMemory may replace BadMessage. On error the replica and the stored number are unchanged.
#[unsafe(no_mangle)]
#[tactic(auto, using(crate::proofs::CallLaws::state_empty, crate::proofs::CallLaws::state_held, crate::proofs::CallLaws::returns))]
pub extern "C" fn antientropy_open(
    alloc: Global,
    replica: &mut Replica,
    partner: u64,
    offer: &[u8],
    session: &mut u64,
) -> u32
    ensures { Calls result replica.old replica.new (session.new ≡ session.old)
        (λ s t. Returns result (λ (r : Result ℕ Refusal).
        OpensUnless (partner_fault partner) rows.Now s partner offer.now r t × TellsNumber r session.old session.new)) }
{
    let mut call = |state: &mut RangeState| {
        let outcome = open(alloc, state, LocalRows::Now, partner, offer);
        tell_number(&outcome, session);
        code(&outcome)
    };
    with_state(replica, alloc, &mut call)
}

/// Opens a session as [`antientropy_open`] does, but compares the rows of the moment that the replica keeps: it may ask
/// for leaves that differ only because the replica has changed since.
///
/// Refused as [`antientropy_open`] is; Dirty if the replica has no moment, or some node of it has no digest. On error
/// the replica and the stored number are unchanged.
#[unsafe(no_mangle)]
#[tactic(auto, using(crate::proofs::CallLaws::state_empty, crate::proofs::CallLaws::state_held, crate::proofs::CallLaws::returns))]
pub extern "C" fn antientropy_open_at_moment(
    alloc: Global,
    replica: &mut Replica,
    partner: u64,
    offer: &[u8],
    session: &mut u64,
) -> u32
    ensures { Calls result replica.old replica.new (session.new ≡ session.old)
        (λ s t. Returns result (λ (r : Result ℕ Refusal).
        OpensUnless (partner_fault partner) rows.Moment s partner offer.now r t × TellsNumber r session.old session.new)) }
{
    let mut call = |state: &mut RangeState| {
        let outcome = open(alloc, state, LocalRows::Moment, partner, offer);
        tell_number(&outcome, session);
        code(&outcome)
    };
    with_state(replica, alloc, &mut call)
}

/// Takes the bytes of a partner's answer or patch for a session with the partner's offer of that number. The text that
/// a patch makes is taken as an answer's is.
///
/// Refused, in order: EMPTY, BadMessage (the bytes are neither, or the answer belongs to another offer); then as
/// [`RangeState::take_answer`] is: UnknownSession, NotAsked, WrongDigest, NotCanonical (the session has failed),
/// Crowded, JournalFull, NoMemory. NoMemory may replace any of them if the bytes are an answer. On error the receipt is
/// unchanged, and so is the replica after any refusal but NotCanonical.
///
/// A patch is refused, in order: EMPTY, BadMessage (it belongs to another offer), UnknownSession, NotAsked, BadMessage
/// (its steps make no text), and from WrongDigest on as an answer is. NoMemory may replace any from the second
/// BadMessage on.
#[unsafe(no_mangle)]
#[tactic(auto, using(crate::proofs::CallLaws::state_empty, crate::proofs::CallLaws::state_held, crate::proofs::CallLaws::returns))]
pub extern "C" fn antientropy_take(
    alloc: Global,
    replica: &mut Replica,
    session: u64,
    number: u32,
    answer: &[u8],
    receipt: &mut TakenReceipt,
) -> u32
    ensures { Calls result replica.old replica.new (receipt.new ≡ receipt.old)
        (λ s t. Returns result (λ (r : Result AnswerTaken Refusal).
        TakesBytes s session number answer.now r t × TellsTaken r receipt.old receipt.new)) }
{
    let mut call = |state: &mut RangeState| {
        let outcome = take(alloc, state, session, number, answer);
        tell_taken(&outcome, receipt);
        code(&outcome)
    };
    with_state(replica, alloc, &mut call)
}

/// Cancels an open session; a session that has ended is unchanged. Refused, in order: EMPTY, UnknownSession.
#[unsafe(no_mangle)]
#[tactic(auto, using(crate::proofs::CallLaws::state_empty, crate::proofs::CallLaws::state_held, crate::proofs::CallLaws::returns))]
pub extern "C" fn antientropy_cancel(alloc: Global, replica: &mut Replica, session: u64) -> u32
    ensures { Calls result replica.old replica.new ⊤ (λ s t. Returns result (λ (r : Result (Unit {0}) Refusal).
        DoesAtOnce r s t (cancel_session s session))) }
{
    let mut call = |state: &mut RangeState| {
        let outcome = state.cancel_session(session);
        code(&outcome)
    };
    with_state(replica, alloc, &mut call)
}

/// Stores the state of a session: 0 open, 1 finished, 2 failed, 3 cancelled. Refused, in order: EMPTY, UnknownSession.
#[unsafe(no_mangle)]
#[tactic(auto, using(crate::proofs::CallLaws::reads_nothing, crate::proofs::CallLaws::reads_held, crate::proofs::CallLaws::returns))]
pub extern "C" fn antientropy_share_session(
    share: &mut ReplicaShare,
    session: u64,
    standing: &mut u64,
) -> u32
    ensures { ReadsState result share.old share.new (standing.new ≡ standing.old)
        (λ s. Returns result (λ (r : Result ℕ Refusal).
        (r ≡ session_seen s session) × TellsNumber r standing.old standing.new)) }
{
    let mut call = |kept: &Kept| {
        let outcome = standing_of(kept.state(), session);
        tell_number(&outcome, standing);
        code(&outcome)
    };
    read(share, &mut call)
}

/// Drops the records of ended sessions, as [`RangeState::drop_ended_sessions`] does. Refused: EMPTY.
#[unsafe(no_mangle)]
#[tactic(auto, using(crate::proofs::CallLaws::state_empty, crate::proofs::CallLaws::state_held))]
pub extern "C" fn antientropy_drop_sessions(alloc: Global, replica: &mut Replica) -> u32
    ensures { Calls result replica.old replica.new ⊤ (λ s t. (result ≡ 0) × (t ≡ without_ended_sessions s)) }
{
    let mut call = |state: &mut RangeState| {
        state.drop_ended_sessions();
        0
    };
    with_state(replica, alloc, &mut call)
}
