//! Trees: node texts, marks, jobs and rehashes. Another program made the digests from the definition.
use crate::calls::{
    abc, accept, install, new_range, next_job, put_a, range_of_a, rehash, take_job, take_jobs,
};
use hash_tree::{inner_text, is_inner_text, leaf_text};
use range_state::RangeState;
use rehash::{Job, hash_all, hash_here, run_job};
use std::alloc::Global;
use std::test::Fail;
use std::thread::Threads;
use test_values::calls::node_at;
use test_values::checks::expect;
use test_values::refusals::expect_refused;
use test_values::versions::version;
use tree_nodes::{Digest, Hashed, Marks, NodeAt, Text, hash};
use vclock::{Format, Refusal};
use version_set::Kind;

/// The digest of the empty leaf in format 1: the SHA-256 of the byte 0.
const EMPTY_LEAF: &str = "6e340b9cffb37a989ca544e6bb780a2c78901d3fb33738768511a30617afa01d";

/// The SHA-256 of the text `abc`, of FIPS 180-4's examples.
const ABC: &str = "ba7816bf8f01cfea414140de5dae2223b00361a396177a9cb410ff61f20015ad";

/// Returns true if a digest has these digits.
fn is_spelled(alloc: Global, digest: Digest, digits: &str) -> Result<bool, Fail> {
    let spelled = hex::encode(alloc, digest.as_slice())?;
    Ok(spelled.as_str() == digits)
}

#[test]
fn a_text_has_its_digest(rt: HostRuntime) -> Result<(), Fail> {
    let alloc = rt.alloc();
    let hashed = abc(alloc)?;
    expect(hashed.text() == b"abc".as_slice(), "a text is kept")?;
    expect(
        is_spelled(alloc, hashed.digest(), ABC)?,
        "a text has its digest",
    )
}

/// Asserts that a text is the text of a node above 16 nodes with this digest, in format 1.
fn expect_inner(text: &[u8], digest: Digest) -> Result<(), Fail> {
    expect(
        text.len() == 513 && text.starts_with(&[1, 0x6e, 0x34]),
        "an inner text begins with a child's digest",
    )?;
    expect(
        is_inner_text(Format::One, text, &[digest; 16])
            && !is_inner_text(Format::Two, text, &[digest; 16]),
        "an inner text is of its format",
    )
}

#[test]
fn nodes_have_texts(rt: HostRuntime) -> Result<(), Fail> {
    let alloc = rt.alloc();
    let leaf = leaf_text(alloc, Format::One, &[])?;
    expect(
        leaf.as_slice() == [0].as_slice(),
        "a leaf without rows is 00",
    )?;
    let digest = hash(Text::from(leaf)).digest();
    expect(is_spelled(alloc, digest, EMPTY_LEAF)?, "it has its digest")?;
    let inner = inner_text(alloc, Format::One, &[digest; 16])?;
    expect_inner(&inner, digest)
}

#[test]
fn a_new_tree_is_dirty(rt: HostRuntime) -> Result<(), Fail> {
    for (format, nodes) in [(Format::One, 273), (Format::Two, 4_369)] {
        let marks = Marks::new(rt.alloc(), format)?;
        expect(
            marks.dirty_count() == nodes && marks.get(node_at(0, 0)?).is_none(),
            "no node has a digest",
        )?;
    }
    for (depth, index) in [(0, 1), (1, 16), (2, 256), (3, 4_096), (4, 0)] {
        expect(NodeAt::new(depth, index).is_none(), "no tree has the node")?;
    }
    Ok(())
}

/// Takes a job, and asserts its node.
fn job_at(alloc: Global, state: &RangeState, depth: u8, index: u16) -> Result<Job, Fail> {
    let job = next_job(alloc, state)?;
    let node = job.node();
    expect(
        node.depth == depth && node.index == index,
        "the job is of the node",
    )?;
    Ok(job)
}

/// Takes the next job, asserts its node, and installs its digest.
fn install_next(alloc: Global, state: &mut RangeState, depth: u8, index: u16) -> Result<(), Fail> {
    let job = job_at(alloc, state, depth, index)?;
    Ok(install(state, job)?)
}

/// Puts two values under `a`, and asserts that the digest of its leaf with only the first is late.
fn expect_late(alloc: Global, state: &mut RangeState) -> Result<(), Fail> {
    put_a(alloc, state, &[])?;
    let job = job_at(alloc, state, 2, 12)?;
    put_a(alloc, state, &[(1, 1)])?;
    expect_refused(install(state, job), Refusal::Stale, "the digest is late")
}

/// Asserts that the leaf of `a` and the nodes above it are hashed and installed, from the leaf up, and no other node.
fn expect_path(alloc: Global, state: &mut RangeState) -> Result<(), Fail> {
    for (depth, index) in [(2, 12), (1, 0), (0, 0)] {
        install_next(alloc, state, depth, index)?;
    }
    expect(take_job(alloc, state)?.is_none(), "all nodes are clean")
}

/// Hashes a new range, and asserts that a late digest isn't installed and the digests of the new texts are.
fn expect_rehash(
    rt: &(impl Threads + Sync),
    alloc: Global,
    state: &mut RangeState,
) -> Result<(), Fail> {
    expect(rehash(rt, alloc, state)? == 273, "all nodes are hashed")?;
    let deeper = state.digest_at(node_at(3, 0)?);
    expect(deeper.is_none(), "the tree has no deeper node")?;
    expect_late(alloc, state)?;
    expect_path(alloc, state)
}

#[test]
fn a_late_digest_is_not_installed(rt: HostRuntime) -> Result<(), Fail> {
    let alloc = rt.alloc();
    expect_rehash(&rt, alloc, &mut new_range(alloc, 1, 1_000)?)
}

/// Asserts that a portion of the nodes is hashed, and the number that are still dirty.
fn expect_portion(
    alloc: Global,
    state: &mut RangeState,
    most: usize,
    left: usize,
) -> Result<(), Fail> {
    let counted = state.rehash_some(alloc, most)?;
    expect(counted == left, "the nodes that are left are counted")?;
    expect(
        state.store().tree().dirty_count() == left,
        "only a portion is hashed",
    )
}

/// Asserts that a new range is rehashed in portions, and ends with the root that `rehash` makes. The portions are 100
/// of the 256 leaves; the other 156, and the 6 nodes whose 16 children are among the 100; the other 10 nodes above
/// leaves; and the root.
fn expect_portions(
    rt: &(impl Threads + Sync),
    alloc: Global,
    state: &mut RangeState,
) -> Result<(), Fail> {
    put_a(alloc, state, &[])?;
    for (most, left) in [
        (0usize, 273usize),
        (100, 173),
        (300, 11),
        (300, 1),
        (1, 0),
        (1, 0),
    ] {
        expect_portion(alloc, state, most, left)?;
    }
    let root = node_at(0, 0)?;
    let other = range_of_a(rt, alloc)?.digest_at(root);
    expect(state.digest_at(root) == other, "it has the same root")
}

#[test]
fn a_range_is_rehashed_in_portions(rt: HostRuntime) -> Result<(), Fail> {
    let alloc = rt.alloc();
    expect_portions(&rt, alloc, &mut new_range(alloc, 1, 1_000)?)
}

/// Asserts that two workers take different jobs.
fn expect_different(alloc: Global, state: &RangeState) -> Result<(), Fail> {
    let first = state.take_job(alloc, 0)?.ok_or("no job")?;
    let second = state.take_job(alloc, 1)?.ok_or("no job")?;
    expect(first.node() != second.node(), "the jobs are different")
}

#[test]
fn workers_take_different_jobs(rt: HostRuntime) -> Result<(), Fail> {
    let alloc = rt.alloc();
    expect_different(alloc, &new_range(alloc, 2, 1_000)?)
}

/// Asserts the number of jobs of a range that are taken, if a number is asked for.
fn expect_count(alloc: Global, state: &RangeState, most: usize, count: usize) -> Result<(), Fail> {
    let jobs = take_jobs(alloc, state, most)?;
    expect(jobs.len() == count, "as many jobs are taken as there are")
}

#[test]
fn as_many_jobs_are_taken_as_there_are(rt: HostRuntime) -> Result<(), Fail> {
    let alloc = rt.alloc();
    let one = new_range(alloc, 1, 1_000)?;
    expect_count(alloc, &one, 300, 256)?;
    expect_count(alloc, &one, 5, 5)?;
    let two = new_range(alloc, 2, 1_000)?;
    expect_count(alloc, &two, 5_000, 4_096)?;
    expect_count(alloc, &two, 0, 0)
}

/// Accepts three rows.
fn accept_three(alloc: Global, state: &mut RangeState) -> Result<(), Refusal> {
    for (node, key) in [(1, b"a"), (2, b"b"), (3, b"c")] {
        let copy = version(alloc, (node, 1), Kind::Live, b"x")?;
        accept(alloc, state, key, copy)?;
    }
    Ok(())
}

/// Asserts that each hashed text equals the text of its job when run by itself.
fn expect_run(hashed: &[Hashed], jobs: Vec<Job>) -> Result<(), Fail> {
    for (one, job) in hashed.iter().zip(jobs) {
        let other = run_job(job);
        expect(
            one.text() == other.text() && one.digest() == other.digest(),
            "a job has its text and digest",
        )?;
    }
    Ok(())
}

/// Asserts that this number of jobs of a range are hashed in order.
fn expect_hashed(
    rt: &(impl Threads + Sync),
    alloc: Global,
    state: &RangeState,
    count: usize,
) -> Result<(), Fail> {
    let hashed = hash_all(rt, alloc, take_jobs(alloc, state, count)?)?;
    let here = hash_here(alloc, take_jobs(alloc, state, count)?)?;
    expect(
        hashed.len() == count && here.len() == count,
        "each job is hashed",
    )?;
    expect_run(&hashed, take_jobs(alloc, state, count)?)?;
    expect_run(&here, take_jobs(alloc, state, count)?)
}

/// Asserts that jobs of a range with three rows are hashed in order.
fn expect_all_hashed(
    rt: &(impl Threads + Sync),
    alloc: Global,
    state: &mut RangeState,
) -> Result<(), Fail> {
    accept_three(alloc, state)?;
    for count in [0, 1, 3, 4_000] {
        expect_hashed(rt, alloc, state, count)?;
    }
    Ok(())
}

#[test]
fn many_jobs_are_hashed_in_order(rt: HostRuntime) -> Result<(), Fail> {
    let alloc = rt.alloc();
    expect_all_hashed(&rt, alloc, &mut new_range(alloc, 2, 1_000)?)
}
