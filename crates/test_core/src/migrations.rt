//! A range that is migrated to format 2.
use crate::calls::{count_held, migrate, new_range, next_job, offer, open_session, put_a, rehash};
use range_state::RangeState;
use rehash::run_job;
use std::alloc::Global;
use std::test::Fail;
use std::thread::Threads;
use sync_session::SessionState;
use test_values::calls::node_at;
use test_values::checks::expect;
use test_values::refusals::expect_refused;
use vclock::{Format, Refusal};

/// Returns a range of format 1 that holds a value of `a`.
fn range(alloc: Global) -> Result<RangeState, Fail> {
    let mut state = new_range(alloc, 1, 1_000)?;
    put_a(alloc, &mut state, &[])?;
    Ok(state)
}

/// Asserts that a migrated range has format 2 and its rows, and hashes each node.
fn expect_format_2(
    rt: &(impl Threads + Sync),
    alloc: Global,
    state: &mut RangeState,
) -> Result<(), Fail> {
    rehash(rt, alloc, state)?;
    migrate(alloc, state)?;
    let is_two = state.store().config().format() == Format::Two;
    expect(is_two, "the range is of format 2")?;
    expect(
        state.journal().len() == 1 && count_held(state, b"a") == 1,
        "the version is held",
    )?;
    let leaf = node_at(3, 204)?;
    expect(state.digest_at(leaf).is_none(), "leaf 204 is dirty")?;
    expect(rehash(rt, alloc, state)? == 4_369, "4,369 nodes are hashed")
}

#[test]
fn the_rows_lie_in_the_leaves_of_format_2(rt: HostRuntime) -> Result<(), Fail> {
    let alloc = rt.alloc();
    expect_format_2(&rt, alloc, &mut range(alloc)?)
}

/// Asserts that a job's digest is late if its range is migrated meanwhile.
fn expect_late(alloc: Global, state: &mut RangeState) -> Result<(), Fail> {
    let job = next_job(alloc, state)?;
    let node = job.node();
    let hashed = run_job(job);
    migrate(alloc, state)?;
    let late = state.install(node, &hashed);
    expect_refused(late, Refusal::Stale, "the job is stale")
}

#[test]
fn a_job_that_was_taken_before_is_stale(rt: HostRuntime) -> Result<(), Fail> {
    let alloc = rt.alloc();
    expect_late(alloc, &mut range(alloc)?)
}

/// Asserts that a migration cancels an open session, and that the range refuses an offer of format 1 afterwards.
fn expect_cancelled(
    rt: &(impl Threads + Sync),
    alloc: Global,
    state: &mut RangeState,
) -> Result<(), Fail> {
    let other = offer([7; 32]);
    rehash(rt, alloc, state)?;
    let id = open_session(alloc, state, other)?;
    migrate(alloc, state)?;
    let record = state.records().first().ok_or("no record")?;
    let is_cancelled = record.session().state() == SessionState::Cancelled;
    expect(is_cancelled, "the session is cancelled")?;
    expect(state.outstanding(id)?.is_none(), "nothing is outstanding")?;
    let refused = open_session(alloc, state, other);
    expect_refused(
        refused,
        Refusal::OtherFormat,
        "an offer of format 1 is refused",
    )
}

#[test]
fn open_sessions_are_cancelled(rt: HostRuntime) -> Result<(), Fail> {
    let alloc = rt.alloc();
    expect_cancelled(&rt, alloc, &mut range(alloc)?)
}
