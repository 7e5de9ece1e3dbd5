//! Offers of a replica to another one.
ghost use Rattle.std.specs.Prelude.{◌≡◌, None};
ghost use Rattle.vclock.specs.Answer.{Answers};
ghost use Rattle.walk_messages.specs.Messages.{message_text};
ghost use Rattle.walk_messages.specs.declared.message.Message.TheVariants as messages;
ghost use Rattle.range_state.specs.Moments.{shown_fault};
ghost use Rattle.c_calls.specs.Reads.{Reads};
ghost use Rattle.c_calls.specs.Offers.{offer_numbered, ServesAsk, Serves, ServesOutline, ServesBytes};
ghost use Rattle.c_calls.specs.Published.{shown_by};

use crate::kept::Kept;
use crate::published::Published;
use range_state::LocalRows;
use snapshot::Snapshot;
use std::alloc::Global;
use text_patch::{Marks, outline_parts, patch};
use tree_nodes::Text;
use vclock::Refusal;
use walk_messages::{Answer, Ask, Message, decode, encode};

/// Publishes the current rows or the moment's rows. Copies no row. Refused, in order: Dirty (some node has no digest,
/// or the replica has no moment), NoMemory.
pub fn shown(
    alloc: Global,
    kept: &Kept,
    local: LocalRows,
) -> Result<Box<Published, Global>, Refusal>
    ensures { Answers result (shown_fault local kept.now.state) (λ rows. rows.value ≡ shown_by local kept.now) }
{
    let snapshot = kept.state().snapshot_of(alloc, local)?;
    let entries = kept.shown_entries(local);
    Ok(Box::new(alloc, Published::new(snapshot, entries))?)
}

/// Writes the message of the offer of a snapshot with a number. Refused: NoMemory.
pub fn offer(alloc: Global, snapshot: &Snapshot, number: u32) -> Result<Text, Refusal>
    ensures { Answers result None (λ bytes. bytes ≡ message_text (messages.Offer (offer_numbered number snapshot.now))) }
{
    let bytes = encode(alloc, &Message::Offer(snapshot.offer(number)))?;
    Ok(Text::from(bytes))
}

/// Writes the message that replies to an ask or an outline, if it is for the offer with this number: an answer or a
/// patch.
///
/// Refused, in order: BadMessage (the bytes are neither), Gone (it is for another offer), BadMessage (the tree has no
/// such node), NoMemory. If the bytes are an answer, NoMemory may replace BadMessage.
#[tactic(auto, unfolding(crate::specs::Offers::ServesBytes))]
pub fn serve(alloc: Global, snapshot: &Snapshot, number: u32, bytes: &[u8]) -> Result<Text, Refusal>
    ensures { ServesBytes snapshot.now number bytes.now result }
{
    match outline_parts(alloc, bytes) {
        Some((ask, marks)) => serve_outline(alloc, snapshot, number, ask, &marks),
        None => serve_message(alloc, snapshot, number, bytes),
    }
}

/// Replies to an outline from a snapshot. Refused, in order: Gone, BadMessage, NoMemory.
fn serve_outline(
    alloc: Global,
    snapshot: &Snapshot,
    number: u32,
    ask: Ask,
    marks: &Marks<'_>,
) -> Result<Text, Refusal>
    ensures { ServesOutline snapshot.now number ask marks.now result }
{
    if ask.offer != number {
        return Err(Refusal::Gone);
    }
    let bytes = patch(alloc, snapshot, ask, marks)?;
    Ok(Text::from(bytes))
}

/// Replies to the bytes of a message from a snapshot, if it is an ask.
#[tactic(auto, using(crate::proofs::ReadLaws::reads))]
fn serve_message(
    alloc: Global,
    snapshot: &Snapshot,
    number: u32,
    bytes: &[u8],
) -> Result<Text, Refusal>
    ensures { Reads bytes.now (Serves snapshot.now number result) }
{
    let decoded = decode(alloc, bytes);
    serve_decoded(alloc, snapshot, number, decoded)
}

/// Replies to a decoded message from a snapshot, if it is an ask.
fn serve_decoded(
    alloc: Global,
    snapshot: &Snapshot,
    number: u32,
    decoded: Result<Message, Refusal>,
) -> Result<Text, Refusal>
    ensures { Serves snapshot.now number result decoded }
{
    let message = decoded?;
    let Message::Ask(ask) = &message else {
        return Err(Refusal::BadMessage);
    };
    serve_ask(alloc, snapshot, number, ask)
}

/// Replies to an ask from a snapshot. Refused, in order: Gone, BadMessage, NoMemory.
fn serve_ask(alloc: Global, snapshot: &Snapshot, number: u32, ask: &Ask) -> Result<Text, Refusal>
    ensures { ServesAsk snapshot.now number ask.now result }
{
    let Ask { offer, node } = *ask;
    if offer != number {
        return Err(Refusal::Gone);
    }
    let text = snapshot.answer(alloc, Ask { offer, node })?;
    let answer = Answer {
        offer,
        node,
        text: Text::from(text),
    };
    let bytes = encode(alloc, &Message::Answer(answer))?;
    Ok(Text::from(bytes))
}
