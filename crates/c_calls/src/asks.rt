//! Asks for the outstanding nodes of a session, and outlines of them.
ghost use Rattle.std.specs.Prelude.{◌≡◌, slice_get, MatchOption};
ghost use Rattle.vclock.specs.Answer.{AnswersAtOnce};
ghost use Rattle.range_state.specs.Records.{record_of};
ghost use Rattle.range_state.specs.Sessions.{unknown_fault};
ghost use Rattle.text_patch.specs.Marks.{width_fault};
ghost use Rattle.c_calls.specs.Asks.{outstanding_count, Asks, Outlines};

use range_state::RangeState;
use std::alloc::Global;
use text_patch::check_width;
use tree_nodes::{NodeAt, Text};
use vclock::Refusal;
use walk_messages::{Ask, Message, encode};

/// Counts the outstanding nodes of a session. Refused: UnknownSession.
pub fn count_of(state: &RangeState, session: u64) -> Result<u64, Refusal>
    ensures { result ≡ outstanding_count state.now session }
{
    Ok(state.record(session)?.session().outstanding().len() as u64)
}

/// Writes the message that asks for the outstanding node of a session at a place, with the number of the partner's
/// offer: no bytes if the place is past the last. Refused, in order: UnknownSession, NoMemory.
pub fn ask(
    alloc: Global,
    state: &RangeState,
    session: u64,
    place: u64,
    number: u32,
) -> Result<Text, Refusal>
    ensures { Asks state.now session place number result }
{
    let Some(node) = node_at(state, session, place)? else {
        return Ok(Text::from(Vec::new(alloc)));
    };
    let ask = Ask {
        offer: number,
        node,
    };
    let bytes = encode(alloc, &Message::Ask(ask))?;
    Ok(Text::from(bytes))
}

/// Writes the outline of the outstanding node of a session at a place, with the number of the partner's offer and marks
/// of `width` bytes: no bytes if the place is past the last.
///
/// Refused, in order: BadMessage (the width isn't 1 to 8), UnknownSession, NoMemory.
pub fn outline(
    alloc: Global,
    state: &RangeState,
    session: u64,
    place: u64,
    number: u32,
    width: u64,
) -> Result<Text, Refusal>
    ensures { Outlines state.now session place number width result }
{
    let width = width_of(width)?;
    let Some(node) = node_at(state, session, place)? else {
        return Ok(Text::from(Vec::new(alloc)));
    };
    state.outline(alloc, session, node, number, width)
}

/// Returns the width of marks as a byte. Refused: BadMessage (it isn't 1 to 8).
fn width_of(number: u64) -> Result<u8, Refusal>
    ensures { AnswersAtOnce result (width_fault number) (λ width. width ≡ number) }
{
    let Ok(width) = u8::try_from(number) else {
        return Err(Refusal::BadMessage);
    };
    check_width(width)?;
    Ok(width)
}

/// Returns the outstanding node of a session at a place, if any. Refused: UnknownSession.
fn node_at(state: &RangeState, session: u64, place: u64) -> Result<Option<NodeAt>, Refusal>
    ensures { AnswersAtOnce result (unknown_fault state.now session)
        (λ node. MatchOption (record_of session state.now.records) ⊥
        (λ r. node ≡ slice_get r.session.outstanding place)) }
{
    let nodes = state.record(session)?.session().outstanding();
    Ok(nodes.get(place as usize).copied())
}
