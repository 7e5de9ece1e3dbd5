//! Writing messages, as docs/FORMATS.md defines their bytes.
ghost use Rattle.std.specs.Prelude.{◌≡◌, ◌++◌, ◌≤◌, ◌^◌, ◌∷◌, length, None, OnOk, MatchOption};
ghost use Rattle.std.specs.Int.{w32, w64, to_be_bytes};
ghost use Rattle.vclock.specs.Answer.{Answers};
ghost use Rattle.walk_messages.specs.declared.message.Message.TheVariants as messages;
ghost use Rattle.walk_messages.specs.Messages.{node_bytes, message_text};

use crate::message::{Answer, Message, Offer};
use std::alloc::{AllocError, Global};
use tree_nodes::{NodeAt, Text};
use vclock::Refusal;

/// The number of bytes of an offer before its root.
const BEFORE_ROOT: usize = 7;

/// The length of an ask, in bytes.
const ASK_LEN: usize = 8;

/// The number of bytes of an answer before its text.
const BEFORE_TEXT: usize = 16;

/// Returns the length of a message in bytes, or `None` if it doesn't fit a usize.
#[tactic(auto, unfolding(crate::specs::Messages::message_text))]
fn message_len(message: &Message) -> Option<usize>
    ensures { MatchOption result (2 ^ 64 ≤ length (message_text message.now)) (λ len. len ≡ length (message_text message.now)) }
{
    match message {
        Message::Offer(offer) => Some(BEFORE_ROOT + offer.root.as_slice().len()),
        Message::Ask(_) => Some(ASK_LEN),
        Message::Answer(answer) => answer.text.as_slice().len().checked_add(BEFORE_TEXT),
    }
}

/// Appends the first byte of a message and the number of its offer.
fn put_front(out: &mut Vec<u8>, kind: u8, offer: u32) -> Result<(), AllocError>
    ensures { OnOk result (out.new.items ≡ out.old.items ++ kind ∷ to_be_bytes w32 offer) }
{
    out.push(kind)?;
    out.extend_from_slice(&offer.to_be_bytes())?;
    Ok(())
}

/// Appends a node: its depth, and its index there.
fn put_node(out: &mut Vec<u8>, node: NodeAt) -> Result<(), AllocError>
    ensures { OnOk result (out.new.items ≡ out.old.items ++ node_bytes node) }
{
    out.push(node.depth)?;
    out.extend_from_slice(&node.index.to_be_bytes())?;
    Ok(())
}

/// Appends an ask, or the bytes of an answer before the length of its text.
fn put_head(out: &mut Vec<u8>, kind: u8, offer: u32, node: NodeAt) -> Result<(), AllocError>
    ensures { OnOk result (out.new.items ≡ out.old.items ++ (kind ∷ to_be_bytes w32 offer ++ node_bytes node)) }
{
    put_front(out, kind, offer)?;
    put_node(out, node)
}

/// Appends the length of a text, and the text.
fn put_text(out: &mut Vec<u8>, text: &Text) -> Result<(), AllocError>
    ensures { OnOk result (out.new.items ≡ out.old.items ++ (to_be_bytes w64 (length text.now) ++ text.now)) }
{
    let text = text.as_slice();
    out.extend_from_slice(&(text.len() as u64).to_be_bytes())?;
    out.extend_from_slice(text)?;
    Ok(())
}

/// Appends an offer.
#[tactic(auto, unfolding(crate::specs::Messages::message_text))]
fn put_offer(out: &mut Vec<u8>, offer: &Offer) -> Result<(), AllocError>
    ensures { OnOk result (out.new.items ≡ out.old.items ++ message_text (messages.Offer offer.now)) }
{
    put_front(out, 1, offer.offer)?;
    out.push(offer.format)?;
    out.push(offer.range)?;
    out.extend_from_slice(&offer.root)?;
    Ok(())
}

/// Appends an answer.
#[tactic(auto, unfolding(crate::specs::Messages::message_text))]
fn put_answer(out: &mut Vec<u8>, answer: &Answer) -> Result<(), AllocError>
    ensures { OnOk result (out.new.items ≡ out.old.items ++ message_text (messages.Answer answer.now)) }
{
    put_head(out, 3, answer.offer, answer.node)?;
    put_text(out, &answer.text)
}

/// Returns the bytes of a message. Refused: NoMemory.
#[tactic(auto, unfolding(crate::specs::Messages::message_text))]
pub fn encode(alloc: Global, message: &Message) -> Result<Vec<u8>, Refusal>
    ensures { Answers result None (λ bytes. bytes.items ≡ message_text message.now) }
{
    let len = message_len(message).ok_or(Refusal::NoMemory)?;
    let mut bytes = Vec::with_capacity(alloc, len)?;
    match message {
        Message::Offer(offer) => put_offer(&mut bytes, offer)?,
        Message::Ask(ask) => put_head(&mut bytes, 2, ask.offer, ask.node)?,
        Message::Answer(answer) => put_answer(&mut bytes, answer)?,
    }
    Ok(bytes)
}
