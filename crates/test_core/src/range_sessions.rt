//! Sessions of ranges with their partners.
use crate::calls::{
    abc, clean_range, count_held, hashed_at, new_range, offer, open_session, put, put_a,
    range_of_a, rehash, root_of, snapshot, snapshot_of_a, take_answer, text_at,
};
use range_journal::Source;
use range_state::{AnswerTaken, RangeBytes, RangeCounts, RangeState, Record};
use snapshot::Snapshot;
use std::alloc::Global;
use std::test::Fail;
use std::thread::Threads;
use sync_session::SessionState;
use test_values::calls::node_at;
use test_values::checks::expect;
use test_values::refusals::expect_refused;
use tree_nodes::{Digest, Hashed, NodeAt, Text, hash};
use vclock::Refusal;
use walk_messages::Offer;

/// Returns the record of a session, by its number.
fn record(state: &RangeState, id: usize) -> Result<&Record, Fail> {
    Ok(state.records().get(id).ok_or("no record")?)
}

/// Returns the state of a session, by its number.
fn state_of(state: &RangeState, id: usize) -> Result<SessionState, Fail> {
    Ok(record(state, id)?.session().state())
}

/// Returns the first node that the first session awaits.
fn first(state: &RangeState) -> Result<NodeAt, Fail> {
    let node = record(state, 0)?.session().outstanding().first();
    Ok(*node.ok_or("nothing is outstanding")?)
}

/// Returns the partner's text of the root with its last byte changed.
fn forged_root(alloc: Global, partner: &Snapshot) -> Result<Hashed, Fail> {
    let mut text = text_at(alloc, partner, node_at(0, 0)?)?;
    let last = text.pop().ok_or("no text")?;
    text.push(!last)?;
    Ok(hash(Text::from(text)))
}

/// Answers the first node that the first session awaits with the true text.
fn answer_first(
    alloc: Global,
    state: &mut RangeState,
    partner: &Snapshot,
) -> Result<AnswerTaken, Fail> {
    let node = first(state)?;
    let text = hashed_at(alloc, partner, node)?;
    Ok(take_answer(alloc, state, 0, node, text)?)
}

/// Answers the first node that the first session awaits with the true text. Asserts the number of accepted versions,
/// that none is known, and the state of the session.
fn expect_answer(
    alloc: Global,
    state: &mut RangeState,
    partner: &Snapshot,
    count: usize,
    session: SessionState,
) -> Result<(), Fail> {
    let taken = answer_first(alloc, state, partner)?;
    expect(
        taken.receipts.len() == count && taken.known == 0,
        "an answer brings its versions",
    )?;
    expect(taken.state == session, "the session is in its state")
}

/// Opens a number of sessions of a range without any, and asserts that they are numbered from 0.
fn expect_numbers(
    alloc: Global,
    state: &mut RangeState,
    root: Digest,
    count: u64,
) -> Result<(), Fail> {
    for number in 0..count {
        let id = open_session(alloc, state, offer(root))?;
        expect(id == number, "sessions are numbered from 0")?;
    }
    Ok(())
}

/// Asserts the refusal of an offer.
fn expect_not_opened(
    alloc: Global,
    state: &mut RangeState,
    offer: Offer,
    refusal: Refusal,
) -> Result<(), Fail> {
    let opened = open_session(alloc, state, offer);
    expect_refused(opened, refusal, "an offer is refused")
}

/// Asserts that a range opens 64 sessions, and one more once the first is cancelled.
fn expect_64_open(alloc: Global, state: &mut RangeState) -> Result<(), Fail> {
    let root = abc(alloc)?.digest();
    expect_numbers(alloc, state, root, 64)?;
    expect_not_opened(alloc, state, offer(root), Refusal::SessionsFull)?;
    state.cancel_session(0)?;
    let is_cancelled = state_of(state, 0)? == SessionState::Cancelled;
    expect(
        is_cancelled && state.open_sessions() == 63,
        "session 0 is cancelled",
    )?;
    let id = open_session(alloc, state, offer(root))?;
    expect(
        id == 64 && state.records().len() == 65,
        "session 64 is opened",
    )
}

#[test]
fn a_range_has_64_open_sessions_at_the_most(rt: HostRuntime) -> Result<(), Fail> {
    let alloc = rt.alloc();
    expect_64_open(alloc, &mut clean_range(&rt, alloc)?)
}

/// Asserts that a range keeps 1,024 sessions that have nothing to ask, and no more.
fn expect_1024_kept(alloc: Global, state: &mut RangeState) -> Result<(), Fail> {
    let root = root_of(alloc, state)?;
    expect_numbers(alloc, state, root, 1_024)?;
    let session = record(state, 1_023)?.session();
    expect(
        session.state() == SessionState::Finished && session.asked().is_empty(),
        "equal roots ask nothing",
    )?;
    expect_not_opened(alloc, state, offer(root), Refusal::SessionsFull)
}

#[test]
fn a_range_keeps_1024_records_at_the_most(rt: HostRuntime) -> Result<(), Fail> {
    let alloc = rt.alloc();
    expect_1024_kept(alloc, &mut clean_range(&rt, alloc)?)
}

/// Asserts that the range refuses an offer of another format and one of another range.
fn expect_own_offers(alloc: Global, state: &mut RangeState, good: Offer) -> Result<(), Fail> {
    let other_format = Offer {
        format: 2,
        range: 1,
        ..good
    };
    expect_not_opened(alloc, state, other_format, Refusal::OtherFormat)?;
    let other_range = Offer { range: 1, ..good };
    expect_not_opened(alloc, state, other_range, Refusal::OtherRange)?;
    expect(state.records().is_empty(), "no session is opened")
}

#[test]
fn an_offer_is_of_the_ranges_format_and_range(rt: HostRuntime) -> Result<(), Fail> {
    let alloc = rt.alloc();
    let good = offer([7; 32]);
    expect_own_offers(alloc, &mut clean_range(&rt, alloc)?, good)?;
    let mut two = new_range(alloc, 2, 1_000)?;
    expect_not_opened(alloc, &mut two, good, Refusal::OtherFormat)
}

#[test]
fn a_session_is_opened_on_a_clean_tree(rt: HostRuntime) -> Result<(), Fail> {
    let alloc = rt.alloc();
    let mut state = new_range(alloc, 1, 1_000)?;
    expect_not_opened(alloc, &mut state, offer([7; 32]), Refusal::Dirty)
}

/// Asserts the refusal of a partner's text of the root for a session.
fn expect_not_taken(
    alloc: Global,
    state: &mut RangeState,
    id: u64,
    text: Hashed,
    refusal: Refusal,
) -> Result<(), Fail> {
    let taken = take_answer(alloc, state, id, node_at(0, 0)?, text);
    expect_refused(taken, refusal, "a text is refused")
}

/// Asserts that the first session awaits this node first.
fn expect_first(state: &RangeState, depth: u8, index: u16) -> Result<(), Fail> {
    let node = first(state)?;
    expect(
        node.depth == depth && node.index == index,
        "the node is awaited",
    )
}

/// Asserts that the first session takes the partner's root once, after a forged one, and that a second session doesn't
/// exist.
fn expect_once(alloc: Global, state: &mut RangeState, partner: &Snapshot) -> Result<(), Fail> {
    let root = node_at(0, 0)?;
    expect_not_taken(
        alloc,
        state,
        0,
        forged_root(alloc, partner)?,
        Refusal::WrongDigest,
    )?;
    expect_first(state, 0, 0)?;
    expect_answer(alloc, state, partner, 0, SessionState::Open)?;
    expect_first(state, 1, 0)?;
    let again = hashed_at(alloc, partner, root)?;
    expect_not_taken(alloc, state, 0, again, Refusal::NotAsked)?;
    let again = hashed_at(alloc, partner, root)?;
    expect_not_taken(alloc, state, 1, again, Refusal::UnknownSession)
}

/// Asserts that two more answers end a range's first session, and that the range then has the partner's version of `a`.
fn expect_version(alloc: Global, state: &mut RangeState, partner: &Snapshot) -> Result<(), Fail> {
    expect_answer(alloc, state, partner, 0, SessionState::Open)?;
    expect_answer(alloc, state, partner, 1, SessionState::Finished)?;
    expect(
        count_held(state, b"a") == 1,
        "the partner's version is held",
    )
}

/// Asserts that a session takes only true texts, and ends with the partner's version and its root.
fn expect_true_texts(
    rt: &(impl Threads + Sync),
    alloc: Global,
    state: &mut RangeState,
    partner: &Snapshot,
) -> Result<(), Fail> {
    let id = open_session(alloc, state, offer(partner.root()))?;
    expect(id == 0, "the first session is 0")?;
    expect_once(alloc, state, partner)?;
    expect_version(alloc, state, partner)?;
    rehash(rt, alloc, state)?;
    let root = root_of(alloc, state)?;
    expect(root == partner.root(), "the roots are equal")
}

#[test]
fn a_session_takes_true_texts_once_up_to_the_partners_version(rt: HostRuntime) -> Result<(), Fail> {
    let alloc = rt.alloc();
    let partner = snapshot_of_a(&rt, alloc)?;
    expect_true_texts(&rt, alloc, &mut clean_range(&rt, alloc)?, &partner)
}

/// Asserts that a range keeps only its open session, under its number, when it drops the ended ones, and that the
/// numbers continue. Its session 0 has ended and accepted the first entry.
fn expect_one_kept(alloc: Global, state: &mut RangeState) -> Result<(), Fail> {
    let open = open_session(alloc, state, offer([7; 32]))?;
    state.drop_ended_sessions();
    expect(
        state.records().len() == 1 && state.record(open)?.session().state() == SessionState::Open,
        "the open session is kept",
    )?;
    expect_refused(
        state.cancel_session(0),
        Refusal::UnknownSession,
        "the ended session has no record",
    )?;
    let entry = state.journal().get(0).ok_or("no entry 0")?;
    expect(
        entry.source == Source::Copy,
        "the partner's entry is a copy",
    )?;
    let next = open_session(alloc, state, offer([7; 32]))?;
    expect(open == 1 && next == 2, "the numbers go on")
}

#[test]
fn ended_sessions_are_dropped(rt: HostRuntime) -> Result<(), Fail> {
    let alloc = rt.alloc();
    let partner = snapshot_of_a(&rt, alloc)?;
    let mut state = clean_range(&rt, alloc)?;
    expect_true_texts(&rt, alloc, &mut state, &partner)?;
    expect_one_kept(alloc, &mut state)
}

/// Asserts the size of the journal and of the sessions, in a range whose only row has 21 bytes: 3 of the key `a`, 2 of
/// the number of versions, and 16 of a version with one pair and the value `x`.
fn expect_bytes(state: &RangeState, journal: u64, sessions: u64) -> Result<(), Fail> {
    let bytes = RangeBytes {
        rows: 21,
        journal,
        sessions,
    };
    expect(state.bytes() == bytes, "the size of a range")
}

#[test]
fn a_session_keeps_a_replaced_leaf_until_it_is_dropped(rt: HostRuntime) -> Result<(), Fail> {
    let alloc = rt.alloc();
    let mut state = range_of_a(&rt, alloc)?;
    let id = open_session(alloc, &mut state, offer([7; 32]))?;
    expect_bytes(&state, 12, 0)?;
    put_a(alloc, &mut state, &[(1, 1)])?;
    rehash(&rt, alloc, &mut state)?;
    expect_bytes(&state, 24, 21)?;
    state.cancel_session(id)?;
    state.drop_ended_sessions();
    expect_bytes(&state, 24, 0)
}

/// Asserts that the text `abc` of its root fails the first session, which then no longer asks for the root.
fn expect_failure(alloc: Global, state: &mut RangeState) -> Result<(), Fail> {
    open_session(alloc, state, offer(abc(alloc)?.digest()))?;
    expect_not_taken(alloc, state, 0, abc(alloc)?, Refusal::NotCanonical)?;
    let session = record(state, 0)?.session();
    expect(
        session.state() == SessionState::Failed && session.outstanding().is_empty(),
        "the session has failed",
    )?;
    expect_not_taken(alloc, state, 0, abc(alloc)?, Refusal::NotAsked)
}

#[test]
fn a_text_of_no_node_fails_the_session(rt: HostRuntime) -> Result<(), Fail> {
    let alloc = rt.alloc();
    expect_failure(alloc, &mut clean_range(&rt, alloc)?)
}

/// Asserts that the first session asked exactly these nodes, in order, and is finished.
fn expect_asked(state: &RangeState, nodes: &[(u8, u16)]) -> Result<(), Fail> {
    let session = record(state, 0)?.session();
    let asked = session.asked();
    expect(
        asked.len() == nodes.len() && session.state() == SessionState::Finished,
        "the session is finished after these nodes",
    )?;
    for (one, &(depth, index)) in asked.iter().zip(nodes) {
        expect(
            one.depth == depth && one.index == index,
            "a node is asked in order",
        )?;
    }
    Ok(())
}

/// Opens a session with a partner, and answers this number of the nodes that it awaits with the true texts.
fn walk(
    alloc: Global,
    state: &mut RangeState,
    partner: &Snapshot,
    answers: usize,
) -> Result<(), Fail> {
    open_session(alloc, state, offer(partner.root()))?;
    for _ in 0..answers {
        answer_first(alloc, state, partner)?;
    }
    Ok(())
}

/// Asserts that a session of a range without rows asks a partner exactly these nodes, in order, and finishes.
fn expect_walk(
    rt: &(impl Threads + Sync),
    alloc: Global,
    partner: &Snapshot,
    nodes: &[(u8, u16)],
) -> Result<(), Fail> {
    let mut state = clean_range(rt, alloc)?;
    walk(alloc, &mut state, partner, nodes.len())?;
    expect_asked(&state, nodes)
}

/// Asserts the nodes that partners are asked. With the row of `a`: the nodes above it. With the row of `abc` too, which
/// is in leaf 144: the nodes above both.
fn expect_walks(
    rt: &(impl Threads + Sync),
    alloc: Global,
    partner: &mut RangeState,
) -> Result<(), Fail> {
    let nodes = [(0, 0), (1, 0), (2, 12)];
    expect_walk(rt, alloc, &*snapshot(alloc, partner)?, &nodes)?;
    put(alloc, partner, 2, &[], b"abc", b"y")?;
    rehash(rt, alloc, partner)?;
    let nodes = [(0, 0), (1, 0), (1, 9), (2, 12), (2, 144)];
    expect_walk(rt, alloc, &*snapshot(alloc, partner)?, &nodes)
}

#[test]
fn a_session_asks_the_nodes_that_differ(rt: HostRuntime) -> Result<(), Fail> {
    let alloc = rt.alloc();
    expect_walks(&rt, alloc, &mut range_of_a(&rt, alloc)?)
}

/// Asserts the counts of a range with an open session, after a put to its clean tree.
fn expect_counts(alloc: Global, state: &mut RangeState, root: Digest) -> Result<(), Fail> {
    open_session(alloc, state, offer(root))?;
    put_a(alloc, state, &[])?;
    let counts = RangeCounts {
        entries: 1,
        limit: 1_000,
        dirty: 3,
        sessions: 1,
        open_sessions: 1,
    };
    expect(state.counts() == counts, "a range is counted")
}

#[test]
fn a_put_dirties_three_nodes_of_a_range(rt: HostRuntime) -> Result<(), Fail> {
    let alloc = rt.alloc();
    let root = root_of(alloc, &range_of_a(&rt, alloc)?)?;
    expect_counts(alloc, &mut clean_range(&rt, alloc)?, root)
}
