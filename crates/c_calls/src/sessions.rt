//! Sessions with other replicas.
ghost use Rattle.std.specs.Prelude.{◌≡◌};
ghost use Rattle.c_calls.specs.Reads.{Reads};
ghost use Rattle.c_calls.specs.Sessions.{Opens, OpensUnless, partner_fault, TellsNumber, TakesWith, TakesMessage, TakesPatch, TakesBytes, TellsTaken, number_of_state, session_seen};

use range_state::{AnswerTaken, LocalRows, RangeState};
use std::alloc::Global;
use sync_session::SessionState;
use text_patch::patch_parts;
use tree_nodes::hash;
use vclock::Refusal;
use vclock::limits::NODE_MAX;
use walk_messages::{Answer, Ask, Message, decode};

/// Opens a session with a partner by the bytes of its offer, and returns the session's number, from 0. The session
/// compares the current rows, or the rows of the moment that the replica keeps.
///
/// Refused, in order: BadClock (the partner is over 65,535), BadMessage (the bytes aren't an offer); then as
/// [`RangeState::open_session_by`] is: OtherFormat, OtherRange, SessionsFull, Dirty, NoMemory. If the bytes are an
/// answer, NoMemory may replace BadMessage. On error the replica is unchanged.
pub fn open(
    alloc: Global,
    state: &mut RangeState,
    local: LocalRows,
    partner: u64,
    bytes: &[u8],
) -> Result<u64, Refusal>
    ensures { OpensUnless (partner_fault partner) local state.old partner bytes.now result state.new }
{
    if partner > NODE_MAX {
        return Err(Refusal::BadClock);
    }
    open_bytes(alloc, state, local, partner as u16, bytes)
}

/// Opens a session by the bytes of an offer.
#[tactic(auto, using(crate::proofs::ReadLaws::reads))]
fn open_bytes(
    alloc: Global,
    state: &mut RangeState,
    local: LocalRows,
    partner: u16,
    bytes: &[u8],
) -> Result<u64, Refusal>
    ensures { Reads bytes.now (Opens local state.old partner result state.new) }
{
    let decoded = decode(alloc, bytes);
    open_decoded(alloc, state, local, partner, decoded)
}

/// Opens a session by a decoded message, if it is an offer.
fn open_decoded(
    alloc: Global,
    state: &mut RangeState,
    local: LocalRows,
    partner: u16,
    decoded: Result<Message, Refusal>,
) -> Result<u64, Refusal>
    ensures { Opens local state.old partner result state.new decoded }
{
    match decoded {
        Ok(Message::Offer(offer)) => state.open_session_by(alloc, local, partner, offer),
        Ok(Message::Ask(_) | Message::Answer(_)) => Err(Refusal::BadMessage),
        Err(refusal) => Err(refusal),
    }
}

/// Stores a number, unless the call was refused.
pub fn tell_number(outcome: &Result<u64, Refusal>, out: &mut u64)
    ensures { TellsNumber outcome.now out.old out.new }
{
    if let Ok(number) = outcome {
        *out = *number;
    }
}

/// The receipt of a taken answer of a session.
#[repr(C)]
#[derive(Clone, Copy)]
pub struct TakenReceipt {
    /// The number of versions that were new and are now entries of the journal.
    pub accepted: u64,
    /// The number of versions that were known.
    pub known: u64,
    /// The state of the session: 0 open, 1 finished, 2 failed, 3 cancelled.
    pub state: u64,
}

/// Takes the bytes of a partner's answer or patch for a session with the partner's offer of that number. The text that
/// a patch makes is taken as an answer's is.
///
/// An answer is refused, in order: BadMessage (the bytes are neither, or the answer belongs to another offer); then as
/// [`RangeState::take_answer`] is: UnknownSession, NotAsked, WrongDigest, NotCanonical (the session has failed),
/// Crowded, JournalFull, NoMemory. NoMemory may replace any of them if the bytes are an answer. The replica is
/// unchanged after any refusal but NotCanonical.
///
/// A patch is refused, in order: BadMessage (it belongs to another offer), UnknownSession, NotAsked, BadMessage (its
/// steps make no text), and from WrongDigest on as an answer is. NoMemory may replace any from the second BadMessage
/// on.
#[tactic(auto, unfolding(crate::specs::Sessions::TakesBytes))]
pub fn take(
    alloc: Global,
    state: &mut RangeState,
    session: u64,
    number: u32,
    bytes: &[u8],
) -> Result<AnswerTaken, Refusal>
    ensures { TakesBytes state.old session number bytes.now result state.new }
{
    match patch_parts(alloc, bytes) {
        Some((ask, steps)) => take_patch(alloc, state, session, number, ask, steps),
        None => take_message(alloc, state, session, number, bytes),
    }
}

/// Takes the steps of a patch, if it belongs to the offer with that number.
fn take_patch(
    alloc: Global,
    state: &mut RangeState,
    session: u64,
    number: u32,
    ask: Ask,
    steps: &[u8],
) -> Result<AnswerTaken, Refusal>
    ensures { TakesPatch state.old session number ask steps.now result state.new }
{
    if ask.offer != number {
        return Err(Refusal::BadMessage);
    }
    let text = state.patched(alloc, session, ask.node, steps)?;
    state.take_answer(alloc, 0, session, ask.node, hash(text))
}

/// Takes the bytes of a message, if it is an answer.
#[tactic(auto, using(crate::proofs::ReadLaws::reads))]
fn take_message(
    alloc: Global,
    state: &mut RangeState,
    session: u64,
    number: u32,
    bytes: &[u8],
) -> Result<AnswerTaken, Refusal>
    ensures { Reads bytes.now (TakesMessage state.old session number result state.new) }
{
    let decoded = decode(alloc, bytes);
    take_decoded(alloc, state, session, number, decoded)
}

/// Takes a decoded message, if it is an answer.
fn take_decoded(
    alloc: Global,
    state: &mut RangeState,
    session: u64,
    number: u32,
    decoded: Result<Message, Refusal>,
) -> Result<AnswerTaken, Refusal>
    ensures { TakesMessage state.old session number result state.new decoded }
{
    match decoded {
        Ok(Message::Answer(answer)) => take_answer(alloc, state, session, number, answer),
        Ok(Message::Offer(_) | Message::Ask(_)) => Err(Refusal::BadMessage),
        Err(refusal) => Err(refusal),
    }
}

/// Takes an answer, if it belongs to the offer with that number.
fn take_answer(
    alloc: Global,
    state: &mut RangeState,
    session: u64,
    number: u32,
    answer: Answer,
) -> Result<AnswerTaken, Refusal>
    ensures { TakesWith state.old session number answer result state.new }
{
    let Answer { offer, node, text } = answer;
    if offer != number {
        return Err(Refusal::BadMessage);
    }
    // Tested before the text is hashed.
    let _session = state.asking(session, node)?;
    state.take_answer(alloc, 0, session, node, hash(text))
}

/// Stores the receipt of an answer, if it was not refused.
pub fn tell_taken(outcome: &Result<AnswerTaken, Refusal>, receipt: &mut TakenReceipt)
    ensures { TellsTaken outcome.now receipt.old receipt.new }
{
    if let Ok(taken) = outcome {
        *receipt = TakenReceipt {
            accepted: taken.receipts.len() as u64,
            known: taken.known,
            state: number_of(taken.state),
        };
    }
}

/// Returns the number of a session's state.
fn number_of(state: SessionState) -> u64
    ensures { result ≡ number_of_state state }
{
    match state {
        SessionState::Open => 0,
        SessionState::Finished => 1,
        SessionState::Failed => 2,
        SessionState::Cancelled => 3,
    }
}

/// Returns the state of a session: 0 open, 1 finished, 2 failed, 3 cancelled. Refused: UnknownSession.
pub fn standing_of(state: &RangeState, session: u64) -> Result<u64, Refusal>
    ensures { result ≡ session_seen state.now session }
{
    Ok(number_of(state.record(session)?.session().state()))
}
