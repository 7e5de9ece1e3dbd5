//! Exchanges with other replicas.
ghost use Rattle.std.specs.Prelude.{◌≡◌, ◌≤◌, length, nat_le};
ghost use Rattle.walk_messages.specs.Messages.{message_text};
ghost use Rattle.walk_messages.specs.declared.message.Message.TheVariants as messages;
ghost use Rattle.range_state.specs.Sessions.{foreign_fault};
ghost use Rattle.exchange.specs.Exchanges.{opening, OpensUnless, record_in, outlines_of};
ghost use Rattle.c_calls.specs.Exchanges.{narrowed, bounds_from, unboxed, Begins, BeginsUnless, Writes, WritesAsked, WritesNext, stop_number, untaken, verdict_from, TakesTold, Loses, LosesBytes, lost_by};
ghost use Rattle.c_calls.specs.Reads.{Reads};
ghost use Rattle.c_calls.specs.Sessions.{partner_fault};

use crate::numbers::SMALL;
use exchange::{Bounds, Exchange, Stop, Verdict};
use range_state::RangeState;
use std::alloc::Global;
use text_patch::outline_parts;
use vclock::Refusal;
use vclock::limits::NODE_MAX;
use walk_messages::{Ask, Message, Offer, decode};

/// The length of an ask, in bytes.
const ASK_LEN: usize = 8;

/// The bounds of an exchange.
#[repr(C)]
#[derive(Clone, Copy)]
pub struct ExchangeBounds {
    /// The maximum number of asks in progress. This and the last two fields count as 2^32 - 1 if they are over it.
    pub asks: u64,
    /// The maximum size in bytes of the requested answers in progress, as far as it can be estimated. A single answer
    /// may be longer.
    pub bytes: u64,
    /// The maximum number of bad answers: after one more the exchange is over.
    pub bad: u64,
    /// The maximum number of lost asks: after one more the exchange is over.
    pub lost: u64,
}

/// The verdict on an answer.
#[repr(C)]
#[derive(Clone, Copy)]
pub struct ExchangeVerdict {
    /// 0 taken, 1 left, 2 bad, 3 late, 4 refused, 5 failed.
    pub verdict: u64,
    /// The number of BadMessage, NotAsked or WrongDigest if it is bad, or of JournalFull or NoMemory if it is refused;
    /// otherwise 0.
    pub cause: u64,
    /// The number of versions that were new, if it is taken; otherwise 0.
    pub accepted: u64,
    /// The number of versions that were known, if it is taken; otherwise 0.
    pub known: u64,
}

/// Opens an exchange with a partner by the bytes of its offer.
///
/// Refused, in order: BadClock (the partner is over 65,535), BadMessage (the bytes aren't an offer); then as
/// [`Exchange::open`] is: OtherFormat, OtherRange, Dirty, SessionsFull, NoMemory, which may replace the two before it.
/// On error the replica is unchanged.
pub fn open(
    alloc: Global,
    state: &mut RangeState,
    partner: u64,
    bytes: &[u8],
    bounds: &ExchangeBounds,
) -> Result<Box<Exchange, Global>, Refusal>
    ensures { BeginsUnless (partner_fault partner) state.old partner bytes.now (bounds_from bounds.now)
        (unboxed (λ whole. whole.value) result) state.new }
{
    if partner > NODE_MAX {
        return Err(Refusal::BadClock);
    }
    open_bytes(alloc, state, partner as u16, bytes, bounds_of(bounds))
}

/// Returns bounds in the form that an exchange has.
fn bounds_of(bounds: &ExchangeBounds) -> Bounds
    ensures { result ≡ bounds_from bounds.now }
{
    Bounds {
        asks: narrow(bounds.asks),
        bytes: bounds.bytes,
        bad: narrow(bounds.bad),
        lost: narrow(bounds.lost),
    }
}

/// Returns a number, or 2^32 - 1 if it is over that.
fn narrow(number: u64) -> u32
    ensures { result ≡ narrowed number }
{
    number.min(u64::from(u32::MAX)) as u32
}

/// Opens an exchange by the bytes of an offer.
#[tactic(auto, using(crate::proofs::ReadLaws::reads))]
fn open_bytes(
    alloc: Global,
    state: &mut RangeState,
    partner: u16,
    bytes: &[u8],
    bounds: Bounds,
) -> Result<Box<Exchange, Global>, Refusal>
    ensures { Reads bytes.now (Begins state.old partner bounds (unboxed (λ whole. whole.value) result) state.new) }
{
    let decoded = decode(alloc, bytes);
    open_decoded(alloc, state, partner, bounds, decoded)
}

/// Opens an exchange by a decoded message, if it is an offer.
fn open_decoded(
    alloc: Global,
    state: &mut RangeState,
    partner: u16,
    bounds: Bounds,
    decoded: Result<Message, Refusal>,
) -> Result<Box<Exchange, Global>, Refusal>
    ensures { Begins state.old partner bounds (unboxed (λ whole. whole.value) result) state.new decoded }
{
    match decoded {
        Ok(Message::Offer(offer)) => open_boxed(alloc, state, partner, offer, bounds),
        Ok(Message::Ask(_) | Message::Answer(_)) | Err(_) => Err(Refusal::BadMessage),
    }
}

/// Opens an exchange in a box, whose memory is reserved before the replica changes.
fn open_boxed(
    alloc: Global,
    state: &mut RangeState,
    partner: u16,
    offer: Offer,
    bounds: Bounds,
) -> Result<Box<Exchange, Global>, Refusal>
    ensures { OpensUnless (foreign_fault state.old.store.config offer) (unboxed (λ whole. whole.value) result)
        state.old state.new (opening state.old partner offer bounds) }
{
    state.check_offer(&offer)?;
    let mut whole = Box::new(alloc, Exchange::level(alloc, partner, offer, bounds))?;
    *whole = Exchange::open(alloc, state, partner, offer, bounds)?;
    Ok(whole)
}

/// Writes the message of the next ask to send, and stores its length: 0 if none is to be sent now. If an outline pays
/// and fits into the buffer, it is sent in place of the ask, unless memory runs out.
///
/// Refused: SMALL (the buffer has fewer than 8 bytes). Then 8 is stored, and nothing else changes.
pub fn next(
    alloc: Global,
    exchange: &mut Exchange,
    state: &RangeState,
    out: &mut [u8],
    need: &mut u64,
) -> u32
    ensures { WritesNext (nat_le 8 (length out.old)) result (need.old, out.old) (need.new, out.new)
        (record_in exchange.old state.now) exchange.old exchange.new }
{
    if out.len() < ASK_LEN {
        *need = ASK_LEN as u64;
        return SMALL;
    }
    match exchange.next(state) {
        Some(ask) => send(alloc, exchange, state, ask, out, need),
        None => *need = 0,
    }
    0
}

/// Writes the outline of an ask in progress, if it has one, or the ask.
fn send(
    alloc: Global,
    exchange: &mut Exchange,
    state: &RangeState,
    ask: Ask,
    out: &mut [u8],
    need: &mut u64,
)
    requires { 8 ≤ length out.old }
    ensures { WritesAsked ask (outlines_of exchange.old (record_in exchange.old state.now) ask.node (length out.old))
        (need.old, out.old) (need.new, out.new) exchange.old exchange.new }
{
    match exchange.outline(alloc, state, ask.node, out.len()) {
        Ok(Some(outline)) => write(outline.as_slice(), out, need),
        Ok(None) | Err(_) => write(&text_of(ask), out, need),
    }
}

/// Writes bytes to the front of a buffer, and stores their length.
fn write(bytes: &[u8], out: &mut [u8], need: &mut u64)
    requires { length bytes.now ≤ length out.old }
    ensures { Writes bytes.now 0 (need.old, out.old) (need.new, out.new) }
{
    *need = bytes.len() as u64;
    out[..bytes.len()].copy_from_slice(bytes);
}

/// Returns the message of an ask.
#[tactic(auto, unfolding(walk_messages::specs::Messages::message_text))]
fn text_of(ask: Ask) -> [u8; ASK_LEN]
    ensures { result ≡ message_text (messages.Ask ask) }
{
    let [first, second, third, fourth] = ask.offer.to_be_bytes();
    let [high, low] = ask.node.index.to_be_bytes();
    [2, first, second, third, fourth, ask.node.depth, high, low]
}

/// Takes the bytes of a partner's answer or patch, and returns the verdict on them.
pub fn take(
    alloc: Global,
    exchange: &mut Exchange,
    state: &mut RangeState,
    bytes: &[u8],
) -> ExchangeVerdict
    ensures { TakesTold exchange.old state.old bytes.now result exchange.new state.new }
{
    let verdict = exchange.take(alloc, state, 0, bytes);
    verdict_of(&verdict)
}

/// Returns a verdict in the form that C has.
fn verdict_of(verdict: &Verdict) -> ExchangeVerdict
    ensures { result ≡ verdict_from verdict.now }
{
    match verdict {
        Verdict::Taken(taken) => ExchangeVerdict {
            verdict: 0,
            cause: 0,
            accepted: taken.receipts.len() as u64,
            known: taken.known,
        },
        Verdict::Left => untaken(1, 0),
        Verdict::Bad(refusal) => untaken(2, refusal.number()),
        Verdict::Late => untaken(3, 0),
        Verdict::Refused(stop) => untaken(4, number_of(*stop)),
        Verdict::Failed => untaken(5, 0),
    }
}

/// Returns the verdict for an answer that was not taken, with the number of its cause.
fn untaken(verdict: u64, cause: u64) -> ExchangeVerdict
    ensures { result ≡ untaken verdict cause }
{
    ExchangeVerdict {
        verdict,
        cause,
        accepted: 0,
        known: 0,
    }
}

/// Returns the number of the cause for which asks stopped.
pub(crate) fn number_of(stop: Stop) -> u64
    ensures { result ≡ stop_number stop }
{
    let cause = match stop {
        Stop::JournalFull => Refusal::JournalFull,
        Stop::NoMemory => Refusal::NoMemory,
    };
    cause.number()
}

/// Counts an ask or an outline as lost, by its bytes, if it is in progress. One for another offer changes nothing.
/// Refused: BadMessage (the bytes are neither). Then the exchange is unchanged.
pub fn lose(alloc: Global, exchange: &mut Exchange, bytes: &[u8]) -> Result<(), Refusal>
    ensures { LosesBytes exchange.old bytes.now result exchange.new }
{
    match outline_parts(alloc, bytes) {
        Some((ask, _)) => {
            lose_ask(exchange, ask);
            Ok(())
        }
        None => lose_message(alloc, exchange, bytes),
    }
}

/// Counts the bytes of a message as lost, if it is an ask.
#[tactic(auto, using(crate::proofs::ReadLaws::reads))]
fn lose_message(alloc: Global, exchange: &mut Exchange, bytes: &[u8]) -> Result<(), Refusal>
    ensures { Reads bytes.now (Loses exchange.old result exchange.new) }
{
    let decoded = decode(alloc, bytes);
    lose_decoded(exchange, &decoded)
}

/// Counts a decoded message as lost, if it is an ask.
fn lose_decoded(exchange: &mut Exchange, decoded: &Result<Message, Refusal>) -> Result<(), Refusal>
    ensures { Loses exchange.old result exchange.new decoded.now }
{
    let Ok(Message::Ask(ask)) = decoded else {
        return Err(Refusal::BadMessage);
    };
    lose_ask(exchange, *ask);
    Ok(())
}

/// Counts an ask as lost, if it is for the exchange's offer.
fn lose_ask(exchange: &mut Exchange, ask: Ask)
    ensures { exchange.new ≡ lost_by exchange.old ask }
{
    if ask.offer == exchange.offer_number() {
        exchange.lose(ask.node);
    }
}
