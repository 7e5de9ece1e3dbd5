//! The fields of messages, read from the left.
ghost use Rattle.std.specs.Prelude.{◌≡◌, ◌<◌, ℕ, List, ◌∷◌, ◌++◌, length, MatchOption};
ghost use Rattle.std.specs.Int.{w32, w64, to_be_bytes};
ghost use Rattle.tree_nodes.specs.Nodes.{Node, IsNode};
ghost use Rattle.walk_messages.specs.declared.message.Answer.{Answer};
ghost use Rattle.walk_messages.specs.declared.message.Ask.{Ask};
ghost use Rattle.walk_messages.specs.declared.message.Offer.{Offer};
ghost use Rattle.walk_messages.specs.declared.message.Message.TheVariants as messages;
ghost use Rattle.walk_messages.specs.Messages.{node_bytes, message_text, IsMessage};

use crate::message::{Ask, Offer};
use tree_nodes::{Digest, NodeAt};

/// Returns the number of an offer and the bytes after it, or `None` if there are fewer than four bytes.
fn offer_number_at(bytes: &[u8]) -> Option<(u32, &[u8])>
    ensures { MatchOption result (length bytes.now < 4) (λ x. bytes.now ≡ to_be_bytes w32 x.0 ++ x.1.now) }
{
    let (number, rest) = bytes.split_first_chunk::<4>()?;
    Some((u32::from_be_bytes(*number), rest))
}

/// Returns a node and the bytes after it, or `None` if the bytes don't begin with a node.
fn node_at(bytes: &[u8]) -> Option<(NodeAt, &[u8])>
    ensures { MatchOption result ((n : Node) (rest : List ℕ) → IsNode 3 n → bytes.now ≡ node_bytes n ++ rest → ⊥) (λ x. IsNode 3 x.0 × (bytes.now ≡ node_bytes x.0 ++ x.1.now)) }
{
    let ([depth, high, low], rest) = bytes.split_first_chunk::<3>()?;
    let node = NodeAt::new(*depth, u16::from_be_bytes([*high, *low]))?;
    Some((node, rest))
}

/// Returns the number of an offer and a node, with which an ask and an answer begin, and the bytes after them, or
/// `None` if the bytes don't begin with these.
fn head_at(bytes: &[u8]) -> Option<(Ask, &[u8])>
    ensures { MatchOption result ((a : Ask) (rest : List ℕ) → IsNode 3 a.node → bytes.now ≡ to_be_bytes w32 a.offer ++ node_bytes a.node ++ rest → ⊥) (λ x. IsNode 3 x.0.node × (bytes.now ≡ to_be_bytes w32 x.0.offer ++ node_bytes x.0.node ++ x.1.now)) }
{
    let (offer, rest) = offer_number_at(bytes)?;
    let Some((node, rest)) = node_at(rest) else {
        return None;
    };
    Some((Ask { offer, node }, rest))
}

/// Returns the offer with these fields, or `None` if no offer has them.
#[tactic(auto, unfolding(crate::specs::Messages::message_text))]
pub(crate) fn offer_of(fields: &[u8]) -> Option<Offer>
    ensures { MatchOption result ((o : Offer) → IsMessage (messages.Offer o) → message_text (messages.Offer o) ≡ 1 ∷ fields.now → ⊥) (λ o. IsMessage (messages.Offer o) × (message_text (messages.Offer o) ≡ 1 ∷ fields.now)) }
{
    let (offer, rest) = offer_number_at(fields)?;
    let ([format, range], root) = rest.split_first_chunk::<2>()?;
    Some(Offer {
        offer,
        format: *format,
        range: *range,
        root: Digest::try_from(root).ok()?,
    })
}

/// Returns the ask with these fields, or `None` if no ask has them.
#[tactic(auto, unfolding(crate::specs::Messages::message_text))]
pub(crate) fn ask_of(fields: &[u8]) -> Option<Ask>
    ensures { MatchOption result ((a : Ask) → IsMessage (messages.Ask a) → message_text (messages.Ask a) ≡ 2 ∷ fields.now → ⊥) (λ a. IsMessage (messages.Ask a) × (message_text (messages.Ask a) ≡ 2 ∷ fields.now)) }
{
    match head_at(fields) {
        Some((ask, [])) => Some(ask),
        _ => None,
    }
}

/// Returns the length of a text and the bytes after it, or `None` if there are fewer than eight bytes.
fn text_len_at(bytes: &[u8]) -> Option<(u64, &[u8])>
    ensures { MatchOption result (length bytes.now < 8) (λ x. bytes.now ≡ to_be_bytes w64 x.0 ++ x.1.now) }
{
    let (number, rest) = bytes.split_first_chunk::<8>()?;
    Some((u64::from_be_bytes(*number), rest))
}

/// Returns the text after its length, or `None` if the length isn't the text's.
fn text_of(bytes: &[u8]) -> Option<&[u8]>
    ensures { MatchOption result ((text : List ℕ) → bytes.now ≡ to_be_bytes w64 (length text) ++ text → ⊥) (λ text. bytes.now ≡ to_be_bytes w64 (length text.now) ++ text.now) }
{
    let (len, text) = text_len_at(bytes)?;
    if len == text.len() as u64 {
        Some(text)
    } else {
        None
    }
}

/// Returns the offer's number, the node and the text of an answer with these fields, or `None` if no answer has them.
#[tactic(auto, unfolding(crate::specs::Messages::message_text))]
pub(crate) fn answer_parts_of(fields: &[u8]) -> Option<(Ask, &[u8])>
    ensures { MatchOption result ((a : Answer) → IsMessage (messages.Answer a) → message_text (messages.Answer a) ≡ 3 ∷ fields.now → ⊥) (λ x. let answer = messages.Answer (record { offer = x.0.offer; node = x.0.node; text = x.1.now }) in IsMessage answer × (message_text answer ≡ 3 ∷ fields.now)) }
{
    let Some((head, rest)) = head_at(fields) else {
        return None;
    };
    Some((head, text_of(rest)?))
}
