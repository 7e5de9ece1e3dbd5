//! Links over channels.
use crate::lines::show;
use crate::thread_calls::links::{ask, offer};
use crate::thread_calls::partner::Partner;
use ring_node::{ChannelLink, Link, channel_link};
use std::alloc::Global;
use std::sync::Wait;
use std::thread::Threads;
use std::{io, thread};
use vclock::Refusal;

/// Shows the calls on a channel.
pub(crate) fn show_all<R>(rt: &R, partner: &Partner) -> io::Result<()>
where
    R: Print + AllocGlobal + Threads + Wait + Sync,
{
    let alloc = rt.alloc();
    show(rt, "channel_link", open(alloc))?;
    show(rt, "ChannelLink::offer and ask", serve(rt, alloc, partner))
}

/// Returns the number of failures of a new link.
fn open(alloc: Global) -> Result<u64, Refusal> {
    let (link, _server) = channel_link(alloc)?;
    Ok(link.failures())
}

/// Asks a server in another thread, and stops it. Asks nothing if the thread can't be spawned.
fn serve<R: Threads + Wait + Sync>(
    rt: &R,
    alloc: Global,
    partner: &Partner,
) -> Result<u64, Refusal> {
    let (link, server) = channel_link(alloc)?;
    let (server, pool) = (&server, &partner.first);
    thread::scope(thread::scope_env(), rt, move |scope| {
        if scope.spawn(move || server.run(rt, pool)).is_err() {
            return Err(Refusal::NoMemory);
        }
        ask_and_stop(rt, alloc, link)
    })
}

/// Returns the total length of an offer and an answer, in bytes.
fn ask_and_stop<R: Wait>(rt: &R, alloc: Global, link: ChannelLink) -> Result<u64, Refusal> {
    let mut link = link;
    let offered = offer(rt, &mut link);
    let answered = ask(rt, alloc, &mut link);
    link.stop(rt);
    Ok(offered?.saturating_add(answered?))
}
