//! Comparisons of sessions, by all their readers.
use sync_session::{Session, SessionState, Taken};

/// Returns true if two sessions are equal.
pub(crate) fn is_same_session(session: &Session, other: &Session) -> bool {
    is_of_same_walk(session, other)
        && session.state() == other.state()
        && session.asked() == other.asked()
        && session.outstanding() == other.outstanding()
        && session.taken().len() == other.taken().len()
        && has_taken_first(session, other)
}

/// Returns true if a session was cancelled before it took all texts of another one.
pub(crate) fn is_cancelled(session: &Session, whole: &Session) -> bool {
    let mut asked = session.asked().iter().zip(whole.asked());
    is_of_same_walk(session, whole)
        && session.state() == SessionState::Cancelled
        && session.outstanding().is_empty()
        && session.asked().len() <= whole.asked().len()
        && asked.all(|(node, wanted)| node == wanted)
        && has_taken_first(session, whole)
}

/// Returns true if two sessions compare the same roots.
fn is_of_same_walk(session: &Session, other: &Session) -> bool {
    session.root() == other.root() && session.own().root() == other.own().root()
}

/// Returns true if a session took the first texts that another session took, and no others.
fn has_taken_first(session: &Session, other: &Session) -> bool {
    let mut pairs = session.taken().iter().zip(other.taken());
    session.taken().len() <= other.taken().len()
        && pairs.all(|(taken, wanted)| is_same_text(taken, wanted))
}

fn is_same_text(taken: &Taken, other: &Taken) -> bool {
    taken.node() == other.node() && taken.text().text() == other.text().text()
}
