//! Lists of events.
use crate::core_calls::ranges::range;
use crate::core_calls::versions::version;
use crate::lines::{show, unchanged};
use crate::states::is_same;
use range_journal::Source;
use range_state::{AcceptEvent, Event, PutEvent, RangeState, Reply};
use std::alloc::Global;
use std::io;
use vclock::{Bytes, Clock, Refusal};
use version_set::Kind;

/// The number of events.
const COUNT: usize = 5;

/// Shows the call on lists of events.
pub(crate) fn show_all<R: Print + AllocGlobal>(rt: &R) -> io::Result<()> {
    show(rt, "RangeState::run_events", run(rt.alloc()))
}

/// Returns the event at a place.
fn event(alloc: Global, at: usize) -> Result<Event, Refusal> {
    match at {
        0 => Ok(Event::Put(PutEvent {
            seat: 0,
            at: 1,
            key: Bytes::copy_of(alloc, b"a")?,
            context: Clock::from_pairs(alloc, &[])?,
            kind: Kind::Live,
            value: Bytes::copy_of(alloc, b"x")?,
        })),
        1 => Ok(Event::Accept(AcceptEvent {
            seat: 0,
            source: Source::Hint,
            key: Bytes::copy_of(alloc, b"b")?,
            version: version(alloc, 2)?,
        })),
        2 => Ok(Event::Get(Bytes::copy_of(alloc, b"a")?)),
        3 => Ok(Event::TakeJob(0)),
        _ => Ok(Event::Migrate),
    }
}

/// Returns all events except the one at a place.
fn events_without(alloc: Global, left_out: usize) -> Result<Vec<Event>, Refusal> {
    let mut events = Vec::new(alloc);
    for at in 0..COUNT {
        if at != left_out {
            events.push(event(alloc, at)?)?;
        }
    }
    Ok(events)
}

/// Runs the events, and returns the number that were done. An event that is refused as NoMemory changes nothing, and
/// the others are run.
fn run(alloc: Global) -> Result<u64, Refusal> {
    let mut state = range(alloc)?;
    let events = events_without(alloc, COUNT)?;
    match state.run_events(alloc, events) {
        Ok(replies) => match replies.iter().position(|reply| !is_done(reply)) {
            Some(at) => Err(unchanged(Refusal::NoMemory, is_without(alloc, &state, &replies, at))),
            None => Ok(replies.len() as u64),
        },
        Err(refusal) => Err(unchanged(refusal, is_new(alloc, &state))),
    }
}

/// Returns true if an event wasn't refused.
fn is_done(reply: &Reply) -> bool {
    matches!(
        reply,
        Reply::Put(Ok(_))
            | Reply::Accept(Ok(_))
            | Reply::Get(Ok(_))
            | Reply::TakeJob(Ok(Some(_)))
            | Reply::Migrate(Ok(()))
    )
}

/// Returns true if an event was refused as NoMemory.
fn wanted_memory(reply: &Reply) -> bool {
    matches!(
        reply,
        Reply::Put(Err(Refusal::NoMemory))
            | Reply::Accept(Err(Refusal::NoMemory))
            | Reply::Get(Err(Refusal::NoMemory))
            | Reply::TakeJob(Err(Refusal::NoMemory))
            | Reply::Migrate(Err(Refusal::NoMemory))
    )
}

/// Returns true if a range has run all events except the one at a place, and only that one was refused as NoMemory.
fn is_without(
    alloc: Global,
    state: &RangeState,
    replies: &[Reply],
    at: usize,
) -> Result<bool, Refusal> {
    let mut other = range(alloc)?;
    let others = other.run_events(alloc, events_without(alloc, at)?)?;
    let done = replies.iter().filter(|reply| is_done(reply)).count();
    let refused = replies.iter().filter(|reply| wanted_memory(reply)).count();
    let is_alone = refused == 1 && done.saturating_add(1) == replies.len();
    Ok(is_alone && others.iter().all(|reply| is_done(reply)) && is_same(state, &other))
}

/// Returns true if a range has run no event.
fn is_new(alloc: Global, state: &RangeState) -> Result<bool, Refusal> {
    Ok(is_same(state, &range(alloc)?))
}
