//! Lists of events.
use crate::calls::{new_range, run_events};
use range_journal::Source;
use range_state::{AcceptEvent, Event, InstallEvent, PutEvent, Reply};
use std::alloc::Global;
use std::test::Fail;
use test_values::calls::node_at;
use test_values::checks::expect;
use test_values::versions::version;
use tree_nodes::{Text, hash};
use vclock::{Bytes, Clock, Refusal};
use version_set::Kind;

/// Returns the event of a put of `a` at node 1.
fn put_of_a(alloc: Global) -> Result<Event, Refusal> {
    Ok(Event::Put(PutEvent {
        seat: 0,
        at: 1,
        key: Bytes::copy_of(alloc, b"a")?,
        context: Clock::from_pairs(alloc, &[])?,
        kind: Kind::Live,
        value: Bytes::copy_of(alloc, b"x")?,
    }))
}

/// Returns the event of a hint without a key.
fn hint_without_a_key(alloc: Global) -> Result<Event, Refusal> {
    Ok(Event::Accept(AcceptEvent {
        seat: 0,
        source: Source::Hint,
        key: Bytes::copy_of(alloc, b"")?,
        version: version(alloc, (2, 1), Kind::Live, b"y")?,
    }))
}

/// Returns the event that installs a text at the root that isn't the root's.
fn install_of_abc(alloc: Global) -> Result<Event, Fail> {
    let node = node_at(0, 0)?;
    let hashed = hash(Text::copy_of(alloc, b"abc")?);
    Ok(Event::Install(InstallEvent { node, hashed }))
}

/// Returns five events: a put, a version that is refused, a get, a job and a text that is refused.
fn five_events(alloc: Global) -> Result<Vec<Event>, Fail> {
    let mut events = Vec::with_capacity(alloc, 5)?;
    events.push(put_of_a(alloc)?)?;
    events.push(hint_without_a_key(alloc)?)?;
    events.push(Event::Get(Bytes::copy_of(alloc, b"a")?))?;
    events.push(Event::TakeJob(0))?;
    events.push(install_of_abc(alloc)?)?;
    Ok(events)
}

/// Asserts the replies to those events.
fn expect_five(replies: &[Reply]) -> Result<(), Fail> {
    expect(
        matches!(replies.get(0), Some(Reply::Put(Ok(receipt))) if receipt.number == 0),
        "the put is entry 0",
    )?;
    expect(
        matches!(replies.get(1), Some(Reply::Accept(Err(Refusal::BadKey)))),
        "no key is refused",
    )?;
    expect(
        matches!(replies.get(2), Some(Reply::Get(Ok(set))) if set.len() == 1),
        "one version is held",
    )?;
    expect(
        matches!(replies.get(3), Some(Reply::TakeJob(Ok(Some(job)))) if job.node().depth == 2),
        "the job is a leaf's",
    )?;
    expect(
        matches!(replies.get(4), Some(Reply::Install(Err(Refusal::Stale)))),
        "another text is refused",
    )?;
    expect(replies.len() == 5, "each event has one reply")
}

#[test]
fn events_are_answered_in_order(rt: HostRuntime) -> Result<(), Fail> {
    let alloc = rt.alloc();
    let mut state = new_range(alloc, 1, 10)?;
    let events = five_events(alloc)?;
    expect_five(&run_events(alloc, &mut state, events)?)
}
