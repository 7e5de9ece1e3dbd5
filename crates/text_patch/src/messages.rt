//! Outlines and patches as bytes, in this project's format.
ghost use Rattle.std.specs.Prelude.{◌≡◌, ◌++◌, ◌∷◌, ◌<◌, ◌≤◌, ℕ, List, length, None, MatchOption};
ghost use Rattle.std.specs.Int.{w32, w64, to_be_bytes};
ghost use Rattle.vclock.specs.Answer.{Answers};
ghost use Rattle.walk_messages.specs.declared.message.Ask.{Ask};
ghost use Rattle.walk_messages.specs.declared.message.Message.TheVariants as messages;
ghost use Rattle.walk_messages.specs.Messages.{node_bytes};
ghost use Rattle.snapshot.specs.Snapshots.{answer_fault};
ghost use Rattle.text_patch.specs.Marks.{AreMarks, MarkList, width_fault, marks_of};
ghost use Rattle.text_patch.specs.Messages.{outline_text, patch_of, IsHead, IsOutlineOf, IsPatchOf};

use crate::marks::{Marks, check_width, put_marks};
use crate::parts::parts_of;
use crate::writer::write_steps;
use snapshot::Snapshot;
use std::alloc::Global;
use tree_nodes::{Digest, Text};
use vclock::Refusal;
use walk_messages::{Ask, Message, decode, encode};

/// Returns the bytes of an outline: an ask, with a mark of `width` bytes for each of these parts.
///
/// Refused, in order: BadMessage (the width isn't 1 to 8), NoMemory.
#[tactic(auto, unfolding(crate::specs::Messages::outline_text))]
pub fn outline(
    alloc: Global,
    ask: Ask,
    salt: &Digest,
    width: u8,
    parts: &[Text],
) -> Result<Vec<u8>, Refusal>
    ensures { Answers result (width_fault width) (λ bytes. bytes.items ≡ outline_text ask (marks_of salt.now width parts.now)) }
{
    check_width(width)?;
    let Ok(count) = u32::try_from(parts.len()) else {
        return Err(Refusal::NoMemory);
    };
    let mut bytes = put_head(alloc, 4, ask)?;
    bytes.push(width)?;
    bytes.extend_from_slice(&count.to_be_bytes())?;
    put_marks(&mut bytes, salt, parts, width)?;
    Ok(bytes)
}

/// Returns the bytes of a patch: the text of the node in an ask, for an asker with these marks.
///
/// Refused, in order: BadMessage (the tree has no such node), NoMemory.
#[tactic(auto, unfolding(crate::specs::Messages::patch_text))]
pub fn patch(alloc: Global, own: &Snapshot, ask: Ask, marks: &Marks<'_>) -> Result<Vec<u8>, Refusal>
    ensures { Answers result (answer_fault own.now ask.node) (λ bytes. bytes.items ≡ patch_of own.now ask marks.now) }
{
    let parts = parts_of(alloc, own, ask.node)?;
    let salt = own.digest_at(ask.node);
    let steps = write_steps(alloc, &salt, marks, &parts)?;
    let mut bytes = put_head(alloc, 5, ask)?;
    bytes.extend_from_slice(&(steps.len() as u64).to_be_bytes())?;
    bytes.extend_from_slice(&steps)?;
    Ok(bytes)
}

/// Returns the bytes of an ask with `kind` as its first byte. Refused: NoMemory.
#[tactic(auto, unfolding(walk_messages::specs::Messages::message_text))]
fn put_head(alloc: Global, kind: u8, ask: Ask) -> Result<Vec<u8>, Refusal>
    ensures { Answers result None (λ bytes. bytes.items ≡ kind ∷ to_be_bytes w32 ask.offer ++ node_bytes ask.node) }
{
    let mut bytes = encode(alloc, &Message::Ask(ask))?;
    bytes[0] = kind;
    Ok(bytes)
}

/// Returns the ask and the marks of the outline that has exactly these bytes, or `None` if no outline has them. Doesn't
/// allocate.
#[tactic(auto, unfolding(crate::specs::Messages::outline_text))]
pub fn outline_parts(alloc: Global, bytes: &[u8]) -> Option<(Ask, Marks<'_>)>
    ensures { MatchOption result ((a : Ask) (m : MarkList) → IsOutlineOf bytes.now a m → ⊥)
        (λ parts. IsOutlineOf bytes.now parts.0 parts.1) }
{
    let [4, fields @ ..] = bytes else {
        return None;
    };
    let Some((ask, rest)) = head_at(alloc, fields) else {
        return None;
    };
    match marks_in(rest) {
        Some(marks) => Some((ask, marks)),
        None => None,
    }
}

/// Returns the marks of the outline with these bytes after its ask, or `None` if no outline has them.
fn marks_in(bytes: &[u8]) -> Option<Marks<'_>>
    ensures { MatchOption result
        ((m : MarkList) → AreMarks m → bytes.now ≡ m.width ∷ to_be_bytes w32 m.count ++ m.bytes → ⊥)
        (λ m. AreMarks m × (bytes.now ≡ m.width ∷ to_be_bytes w32 m.count ++ m.bytes)) }
{
    let (width, rest) = bytes.split_first()?;
    let (count, marks) = rest.split_first_chunk::<4>()?;
    Marks::new(*width, u32::from_be_bytes(*count), marks)
}

/// Returns the ask and the steps of the patch that has exactly these bytes, or `None` if no patch has them. The steps
/// may be anything. Doesn't allocate.
#[tactic(auto, unfolding(crate::specs::Messages::patch_text))]
pub fn patch_parts(alloc: Global, bytes: &[u8]) -> Option<(Ask, &[u8])>
    ensures { MatchOption result ((a : Ask) (steps : List ℕ) → IsPatchOf bytes.now a steps → ⊥)
        (λ parts. IsPatchOf bytes.now parts.0 parts.1.now) }
{
    let [5, fields @ ..] = bytes else {
        return None;
    };
    let Some((ask, rest)) = head_at(alloc, fields) else {
        return None;
    };
    Some((ask, steps_in(rest)?))
}

/// Returns the steps of the patch with these bytes after its ask, or `None` if no patch has them.
fn steps_in(bytes: &[u8]) -> Option<&[u8]>
    ensures { MatchOption result ((steps : List ℕ) → bytes.now ≡ to_be_bytes w64 (length steps) ++ steps → ⊥)
        (λ steps. bytes.now ≡ to_be_bytes w64 (length steps.now) ++ steps.now) }
{
    let (len, steps) = steps_len_at(bytes)?;
    if len == steps.len() as u64 {
        Some(steps)
    } else {
        None
    }
}

/// Returns the length of steps and the bytes after it, or `None` if there are fewer than eight bytes.
fn steps_len_at(bytes: &[u8]) -> Option<(u64, &[u8])>
    ensures { MatchOption result (length bytes.now < 8) (λ x. bytes.now ≡ to_be_bytes w64 x.0 ++ x.1.now) }
{
    let (len, rest) = bytes.split_first_chunk::<8>()?;
    Some((u64::from_be_bytes(*len), rest))
}

/// Returns the ask whose fields begin these bytes, and the bytes after it, or `None` if they aren't an ask's.
#[tactic(auto, unfolding(walk_messages::specs::Messages::message_text))]
fn head_at(alloc: Global, fields: &[u8]) -> Option<(Ask, &[u8])>
    ensures { MatchOption result
        ((a : Ask) (rest : List ℕ) → IsHead a → fields.now ≡ to_be_bytes w32 a.offer ++ node_bytes a.node ++ rest → ⊥)
        (λ x. IsHead x.0 × (fields.now ≡ to_be_bytes w32 x.0.offer ++ node_bytes x.0.node ++ x.1.now)) }
{
    let ([first, second, third, fourth, depth, high, low], rest) = fields.split_first_chunk::<7>()?;
    let ask = [2, *first, *second, *third, *fourth, *depth, *high, *low];
    Some((ask_in(&decode(alloc, &ask))?, rest))
}

/// Returns the decoded ask, if the message is one.
fn ask_in(decoded: &Result<Message, Refusal>) -> Option<Ask>
    ensures { MatchOption result ((a : Ask) → decoded.now ≡ Ok (messages.Ask a) → ⊥)
        (λ a. decoded.now ≡ Ok (messages.Ask a)) }
{
    match decoded {
        Ok(Message::Ask(ask)) => Some(*ask),
        _ => None,
    }
}
