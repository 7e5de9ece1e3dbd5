//! Moments of ranges.
use crate::calls::{
    clean_range, hold_moment, install_in_moment, migrate, moment_root, new_range, offer,
    open_at_moment, put, put_a, range_of_a, root_of, take_moment_jobs,
};
use range_state::RangeState;
use std::alloc::Global;
use std::test::Fail;
use test_values::checks::expect;
use test_values::refusals::expect_refused;
use tree_nodes::Digest;
use vclock::Refusal;

/// Hashes the nodes of a range's moment that are ready, and returns their number.
fn hash_ready(alloc: Global, state: &mut RangeState) -> Result<usize, Fail> {
    let jobs = take_moment_jobs(alloc, state, 256)?;
    let ready = jobs.len();
    for job in jobs {
        install_in_moment(state, job)?;
    }
    Ok(ready)
}

/// Hashes a portion of a range's moment, and returns the number of the moment's nodes that are still dirty.
fn hash_portion(alloc: Global, state: &mut RangeState) -> Result<usize, Fail> {
    let mut portion = state.take_portion(alloc, 20)?;
    portion.run(alloc);
    Ok(state.install_portion(portion))
}

/// Asserts that a moment of a range with `a` gets its digests after `b` was put, and that the range gets all digests
/// except for the nodes above `b`.
fn expect_whole(alloc: Global, state: &mut RangeState, root: Digest) -> Result<(), Fail> {
    let early = moment_root(alloc, state);
    expect_refused(early, Refusal::Dirty, "no node of the moment is clean")?;
    put(alloc, state, 1, &[], b"b", b"x")?;
    expect(hash_ready(alloc, state)? == 256, "leaves are hashed first")?;
    expect(hash_ready(alloc, state)? == 16, "then the nodes above them")?;
    expect(hash_ready(alloc, state)? == 1, "and then the root")?;
    expect(
        moment_root(alloc, state)? == root,
        "the moment has the rows before the second put",
    )?;
    expect(
        state.counts().dirty == 3,
        "the leaf of the second put and the nodes above it are dirty",
    )
}

#[test]
fn a_moment_is_hashed_while_puts_go_on(rt: HostRuntime) -> Result<(), Fail> {
    let alloc = rt.alloc();
    let root = root_of(alloc, &range_of_a(&rt, alloc)?)?;
    let mut state = new_range(alloc, 1, 1_000)?;
    put_a(alloc, &mut state, &[])?;
    hold_moment(alloc, &mut state)?;
    expect_whole(alloc, &mut state, root)?;
    expect(state.whole_front() == 1, "one entry was journaled by then")?;
    hold_moment(alloc, &mut state)?;
    expect(
        state.whole_front() == 1,
        "the second moment isn't whole yet",
    )
}

#[test]
fn a_portion_is_hashed_beside_the_range(rt: HostRuntime) -> Result<(), Fail> {
    let alloc = rt.alloc();
    let mut state = clean_range(&rt, alloc)?;
    put_a(alloc, &mut state, &[])?;
    hold_moment(alloc, &mut state)?;
    expect(hash_portion(alloc, &mut state)? == 2, "the leaf is hashed")?;
    let late = state.take_portion(alloc, 1)?;
    put(alloc, &mut state, 2, &[], b"a", b"y")?;
    hold_moment(alloc, &mut state)?;
    expect(
        state.install_portion(late) == 3,
        "the node above it waits for its leaf in the new moment",
    )?;
    expect(hash_portion(alloc, &mut state)? == 2, "the leaf again")?;
    expect(hash_portion(alloc, &mut state)? == 1, "the node above it")?;
    expect(hash_portion(alloc, &mut state)? == 0, "the root")?;
    expect(state.counts().dirty == 0, "the range got the digests, too")
}

#[test]
fn a_session_is_opened_at_a_moment(rt: HostRuntime) -> Result<(), Fail> {
    let alloc = rt.alloc();
    let mut state = clean_range(&rt, alloc)?;
    let root = root_of(alloc, &range_of_a(&rt, alloc)?)?;
    let none = open_at_moment(alloc, &mut state, offer(root));
    expect_refused(none, Refusal::Dirty, "there is no moment")?;
    hold_moment(alloc, &mut state)?;
    put_a(alloc, &mut state, &[])?;
    let id = open_at_moment(alloc, &mut state, offer(root))?;
    expect(id == 0, "the first session is 0")?;
    migrate(alloc, &mut state)?;
    let gone = moment_root(alloc, &state);
    expect_refused(gone, Refusal::Dirty, "a migration drops the moment")
}
