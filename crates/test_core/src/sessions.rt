//! Sessions without a range: the comparison of two trees, and the partner's answers.
use crate::calls::{abc, clean_range, hashed_at, snapshot, snapshot_of_a};
use snapshot::Snapshot;
use std::alloc::Global;
use std::test::Fail;
use std::thread::Threads;
use sync_session::{Answered, Session, SessionState};
use test_values::calls::node_at;
use test_values::checks::expect;
use test_values::refusals::expect_refused;
use tree_nodes::{Digest, Hashed, NodeAt};
use vclock::Refusal;

/// Returns a session of a range without rows, with a partner of this root.
fn start(rt: &(impl Threads + Sync), alloc: Global, root: Digest) -> Result<Session, Fail> {
    let own = snapshot(alloc, &clean_range(rt, alloc)?)?;
    Ok(Session::start(alloc, own, root)?)
}

/// Takes a text, and returns its number of rows, or `None` for a node with children.
fn take(
    alloc: Global,
    session: &mut Session,
    node: NodeAt,
    text: Hashed,
) -> Result<Option<usize>, Refusal> {
    match session.take(alloc, node, text)? {
        Answered::Inner => Ok(None),
        Answered::Leaf(rows) => Ok(Some(rows.len())),
    }
}

/// Answers the first outstanding node with the partner's text. Asserts the number of its rows, or `None` for a node
/// with children, and that each row is new.
fn expect_taken(
    alloc: Global,
    session: &mut Session,
    partner: &Snapshot,
    rows: Option<usize>,
) -> Result<(), Fail> {
    let outstanding = session.outstanding().first();
    let node = *outstanding.ok_or("nothing is outstanding")?;
    let text = hashed_at(alloc, partner, node)?;
    let found = session.rows_of(alloc, node, &text)?;
    let news = session.news_of(alloc, node, &text)?;
    let count = rows.unwrap_or(0);
    expect(
        found.len() == count && news.rows.len() == count && news.known == 0,
        "a text has its rows, and all are new",
    )?;
    let taken = take(alloc, session, node, text)?;
    expect(taken == rows, "a session takes the rows of a text")
}

/// Asserts that a session takes true texts once, and ends with the partner's row.
fn expect_row(alloc: Global, session: &mut Session, partner: &Snapshot) -> Result<(), Fail> {
    let root = node_at(0, 0)?;
    let false_text = take(alloc, session, root, abc(alloc)?);
    expect_refused(false_text, Refusal::WrongDigest, "a false text is refused")?;
    expect_taken(alloc, session, partner, None)?;
    let again = take(alloc, session, root, hashed_at(alloc, partner, root)?);
    expect_refused(again, Refusal::NotAsked, "a text is taken once")?;
    expect_taken(alloc, session, partner, None)?;
    expect_taken(alloc, session, partner, Some(1))?;
    expect(
        session.state() == SessionState::Finished
            && session.asked().len() == 3
            && session.taken().len() == 3,
        "the session is finished",
    )
}

#[test]
fn a_session_ends_with_the_partners_rows(rt: HostRuntime) -> Result<(), Fail> {
    let alloc = rt.alloc();
    let partner = snapshot_of_a(&rt, alloc)?;
    expect_row(alloc, &mut start(&rt, alloc, partner.root())?, &partner)
}
