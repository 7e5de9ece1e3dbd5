//! Sessions, which compare snapshots.
use crate::core_calls::snapshots::Snapshots;
use crate::lines::{show, unchanged};
use crate::sessions::is_same_session;
use snapshot::Snapshot;
use std::alloc::Global;
use std::io;
use std::sync::Arc;
use sync_session::Session;
use tree_nodes::{Hashed, NodeAt, Text, hash, tree_depth};
use vclock::Refusal;
use walk_messages::Ask;

/// The number of nodes that a range without rows asks for to compare itself with the partner.
pub(crate) const ASKED: u64 = 7;

/// Shows the calls on sessions.
pub(crate) fn show_all<R: Print + AllocGlobal>(rt: &R, both: &Snapshots) -> io::Result<()> {
    let alloc = rt.alloc();
    show(rt, "Session::start", start(alloc, both))?;
    show(rt, "Session::rows_of", rows_of(alloc, both))?;
    show(rt, "Session::next_news", next_news(alloc, both))?;
    show(rt, "Session::news_of", news_of(alloc, both))?;
    show(rt, "Session::take", take(alloc, both))?;
    show(rt, "Session::take_inner", take_inner(alloc, both))?;
    show(rt, "Session::take_leaf", take_leaf(alloc, both))
}

/// Returns a session that has taken nothing.
fn new_session(alloc: Global, both: &Snapshots) -> Result<Session, Refusal> {
    Session::start(alloc, Arc::try_clone(&both.own)?, both.partner.root())
}

/// Returns the number of nodes that a new session has asked.
fn start(alloc: Global, both: &Snapshots) -> Result<u64, Refusal> {
    Ok(new_session(alloc, both)?.asked().len() as u64)
}

/// Returns the first outstanding node, with the partner's text.
pub(crate) fn first_text(
    alloc: Global,
    session: &Session,
    partner: &Snapshot,
) -> Result<(NodeAt, Hashed), Refusal> {
    let node = *session.outstanding().first().ok_or(Refusal::Stale)?;
    let text = partner.answer(alloc, Ask { offer: 1, node })?;
    Ok((node, hash(Text::from(text))))
}

/// Answers the first outstanding node.
fn take_first(alloc: Global, session: &mut Session, partner: &Snapshot) -> Result<(), Refusal> {
    let (node, text) = first_text(alloc, session, partner)?;
    session.take(alloc, node, text)?;
    Ok(())
}

/// Returns the session after this number of answers.
fn session_after(alloc: Global, both: &Snapshots, answers: u64) -> Result<Session, Refusal> {
    let mut session = new_session(alloc, both)?;
    for _ in 0..answers {
        take_first(alloc, &mut session, &both.partner)?;
    }
    Ok(session)
}

/// Returns true if a session equals the one after this number of answers.
fn is_after(
    alloc: Global,
    session: &Session,
    both: &Snapshots,
    answers: u64,
) -> Result<bool, Refusal> {
    let other = session_after(alloc, both, answers)?;
    Ok(is_same_session(session, &other))
}

/// Returns the number of rows in the leaf that is asked last.
fn rows_of(alloc: Global, both: &Snapshots) -> Result<u64, Refusal> {
    let session = session_after(alloc, both, ASKED.saturating_sub(1))?;
    let (node, text) = first_text(alloc, &session, &both.partner)?;
    Ok(session.rows_of(alloc, node, &text)?.len() as u64)
}

/// Returns 1 if the leaf that is asked last has a row that is missing from the local snapshot, otherwise 0.
fn next_news(alloc: Global, both: &Snapshots) -> Result<u64, Refusal> {
    let session = session_after(alloc, both, ASKED.saturating_sub(1))?;
    let (node, text) = first_text(alloc, &session, &both.partner)?;
    let Some(first) = session.begin_news(node, &text)? else {
        return Err(Refusal::Stale);
    };
    let step = session.next_news(alloc, node, first)?;
    Ok(u64::from(step.row.is_some()))
}

/// Returns the number of rows in the leaf that is asked last that are missing from the local snapshot.
fn news_of(alloc: Global, both: &Snapshots) -> Result<u64, Refusal> {
    let session = session_after(alloc, both, ASKED.saturating_sub(1))?;
    let (node, text) = first_text(alloc, &session, &both.partner)?;
    Ok(session.news_of(alloc, node, &text)?.rows.len() as u64)
}

/// Returns the number of nodes that a finished session has asked.
fn take(alloc: Global, both: &Snapshots) -> Result<u64, Refusal> {
    let mut session = new_session(alloc, both)?;
    for answers in 0..ASKED {
        if let Err(refusal) = take_first(alloc, &mut session, &both.partner) {
            return Err(unchanged(refusal, is_after(alloc, &session, both, answers)));
        }
    }
    Ok(session.asked().len() as u64)
}

/// Returns the number of nodes that a session has asked after the text of the root was taken by `take_inner`.
fn take_inner(alloc: Global, both: &Snapshots) -> Result<u64, Refusal> {
    let mut session = new_session(alloc, both)?;
    match take_inner_first(alloc, &mut session, &both.partner) {
        Ok(()) => Ok(session.asked().len() as u64),
        Err(refusal) => Err(unchanged(refusal, is_after(alloc, &session, both, 0))),
    }
}

/// Answers the first outstanding node, an inner one, by `take_inner`.
fn take_inner_first(
    alloc: Global,
    session: &mut Session,
    partner: &Snapshot,
) -> Result<(), Refusal> {
    let (node, text) = first_text(alloc, session, partner)?;
    let _news = session.news_of(alloc, node, &text)?;
    if node.depth == tree_depth(session.own().format()) {
        return Err(Refusal::Stale);
    }
    session.take_inner(alloc, node, text)
}

/// Returns the number of texts that a finished session took, with the last one taken by `take_leaf`.
fn take_leaf(alloc: Global, both: &Snapshots) -> Result<u64, Refusal> {
    let before = ASKED.saturating_sub(1);
    let mut session = session_after(alloc, both, before)?;
    match take_leaf_first(alloc, &mut session, &both.partner) {
        Ok(()) => Ok(session.taken().len() as u64),
        Err(refusal) => Err(unchanged(refusal, is_after(alloc, &session, both, before))),
    }
}

/// Answers the first outstanding node, a leaf, by `take_leaf`.
fn take_leaf_first(
    alloc: Global,
    session: &mut Session,
    partner: &Snapshot,
) -> Result<(), Refusal> {
    let (node, text) = first_text(alloc, session, partner)?;
    let _news = session.news_of(alloc, node, &text)?;
    if node.depth < tree_depth(session.own().format()) {
        return Err(Refusal::Stale);
    }
    session.take_leaf(node, text);
    Ok(())
}
