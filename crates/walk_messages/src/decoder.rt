//! Reading messages, as docs/FORMATS.md defines their bytes.
ghost use Rattle.std.specs.Prelude.{◌∷◌, MatchOption};
ghost use Rattle.walk_messages.specs.Messages.{Decodes, IsAnswerOf, IsNoAnswer};

use crate::fields::{answer_parts_of, ask_of, offer_of};
use crate::message::{Answer, Ask, Message};
use std::alloc::Global;
use tree_nodes::Text;
use vclock::Refusal;

/// Returns the message that has exactly these bytes. Doesn't validate an offer's format or range, or an answer's text.
///
/// Refused, in order: BadMessage (no message has these bytes), NoMemory. Only the text of an answer is allocated, and
/// only by its real length: a length field that differs from it is refused as BadMessage before memory is requested.
pub fn decode(alloc: Global, bytes: &[u8]) -> Result<Message, Refusal>
    ensures { Decodes bytes.now result }
{
    match bytes {
        [1, fields @ ..] => decode_offer(fields),
        [2, fields @ ..] => decode_ask(fields),
        [3, fields @ ..] => decode_answer(alloc, fields),
        _ => Err(Refusal::BadMessage),
    }
}

/// Returns the offer's number, the node and the text of the answer with exactly these bytes, without a copy. Returns
/// `None` if the bytes aren't an answer.
#[tactic(auto, unfolding(crate::specs::Messages::message_text))]
pub fn answer_parts(bytes: &[u8]) -> Option<(Ask, &[u8])>
    ensures { MatchOption result (IsNoAnswer bytes.now)
        (λ parts. IsAnswerOf bytes.now (record { offer = parts.0.offer; node = parts.0.node; text = parts.1.now })) }
{
    match bytes {
        [3, fields @ ..] => answer_parts_of(fields),
        _ => None,
    }
}

/// Reads the offer with these fields.
#[tactic(auto, unfolding(crate::specs::Messages::message_text))]
fn decode_offer(fields: &[u8]) -> Result<Message, Refusal>
    ensures { Decodes (1 ∷ fields.now) result }
{
    match offer_of(fields) {
        Some(offer) => Ok(Message::Offer(offer)),
        None => Err(Refusal::BadMessage),
    }
}

/// Reads the ask with these fields.
#[tactic(auto, unfolding(crate::specs::Messages::message_text))]
fn decode_ask(fields: &[u8]) -> Result<Message, Refusal>
    ensures { Decodes (2 ∷ fields.now) result }
{
    match ask_of(fields) {
        Some(ask) => Ok(Message::Ask(ask)),
        None => Err(Refusal::BadMessage),
    }
}

/// Reads an answer from its fields.
#[tactic(auto, unfolding(crate::specs::Messages::message_text))]
fn decode_answer(alloc: Global, fields: &[u8]) -> Result<Message, Refusal>
    ensures { Decodes (3 ∷ fields.now) result }
{
    let Some((head, text)) = answer_parts_of(fields) else {
        return Err(Refusal::BadMessage);
    };
    Ok(Message::Answer(Answer {
        offer: head.offer,
        node: head.node,
        text: Text::copy_of(alloc, text)?,
    }))
}
