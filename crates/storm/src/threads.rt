//! The threads of both nodes of a storm.
use crate::node::{Node, Passes, Plan};
use crate::workers::{rehash_rounds, sync_rounds};
use crate::writer::write;
use ring_node::{ChannelLink, ChannelServer, Gate, channel_link};
use std::alloc::Global;
use std::sync::Wait;
use std::sync::ledger::Ledger;
use std::thread;
use std::thread::{JoinHandle, Threads};
use vclock::Refusal;

/// The link of a node to the other one, and the server for the other one's link.
#[derive(Drop)]
struct Ends {
    link: ChannelLink,
    server: ChannelServer,
}

/// Runs the threads of both nodes until all have ended.
///
/// Refused as the writers, the rehash workers and the sync workers are; also NoMemory, if a thread can't be spawned.
/// Even then the others have ended: the parts of a thread that can't be spawned, such as its ends of channels, are
/// dropped before the others are joined.
pub(crate) fn run_nodes<S, T, C, R, G>(
    rt: &R,
    alloc: Global,
    one: &Node<'_, S>,
    two: &Node<'_, T>,
    plan: &Plan<'_, C, G>,
    passes: &mut Passes<S>,
    others: &mut Passes<T>,
) -> Result<(), Refusal>
where
    S: Ledger + Send + Sync,
    T: Ledger + Send + Sync,
    C: Ledger + Send + Sync,
    R: Threads + Wait + Sync,
    G: Gate + Sync,
{
    let (ends, other_ends) = linked(alloc)?;
    thread::scope(thread::scope_env(), rt, |scope| {
        let first = scope
            .spawn(move || run_node(rt, alloc, one, plan, passes, ends))
            .ok();
        let second = scope
            .spawn(move || run_node(rt, alloc, two, plan, others, other_ends))
            .ok();
        let (first, second) = (joined(rt, first), joined(rt, second));
        first.and(second)
    })
}

/// Links two nodes with each other.
fn linked(alloc: Global) -> Result<(Ends, Ends), Refusal> {
    let (to_one, server_of_one) = channel_link(alloc)?;
    let (to_two, server_of_two) = channel_link(alloc)?;
    let ends = Ends {
        link: to_two,
        server: server_of_one,
    };
    let other_ends = Ends {
        link: to_one,
        server: server_of_two,
    };
    Ok((ends, other_ends))
}

/// Runs the threads of a node until all have ended.
fn run_node<L, C, R, G>(
    rt: &R,
    alloc: Global,
    node: &Node<'_, L>,
    plan: &Plan<'_, C, G>,
    passes: &mut Passes<L>,
    ends: Ends,
) -> Result<(), Refusal>
where
    L: Ledger + Send + Sync,
    C: Ledger + Send + Sync,
    R: Threads + Wait + Sync,
    G: Gate + Sync,
{
    let (writer, syncer) = (&mut passes.writer, &mut passes.syncer);
    let Ends { link, server } = ends;
    thread::scope(thread::scope_env(), rt, |scope| {
        let serves = scope.spawn(move || serve(rt, node, server)).ok();
        let syncs = scope
            .spawn(move || sync_rounds(rt, alloc, node, plan, syncer, link))
            .ok();
        let rehashes = scope
            .spawn(move || rehash_rounds(rt, alloc, node, plan))
            .ok();
        let writes = scope
            .spawn(move || write(rt, alloc, node, plan, writer))
            .ok();
        let written = joined(rt, writes);
        let rehashed = joined(rt, rehashes);
        let synced = joined(rt, syncs);
        joined(rt, serves).and(rehashed).and(written).and(synced)
    })
}

/// Serves the offers of a node until the other node's link has ended.
fn serve<L: Ledger, R: Wait>(
    rt: &R,
    node: &Node<'_, L>,
    server: ChannelServer,
) -> Result<(), Refusal> {
    server.run(rt, &node.pool);
    Ok(())
}

/// Waits for the end of a thread. Refused as its work is; NoMemory, if it couldn't be spawned.
fn joined<R: Threads>(
    rt: &R,
    thread: Option<JoinHandle<Result<(), Refusal>>>,
) -> Result<(), Refusal> {
    match thread {
        Some(thread) => thread.join(rt),
        None => Err(Refusal::NoMemory),
    }
}
