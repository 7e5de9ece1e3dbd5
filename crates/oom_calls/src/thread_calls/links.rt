//! Links to a pool in the same memory.
use crate::lines::show;
use crate::thread_calls::partner::Partner;
use ring_node::{Deed, Link, MemoryLink, Reached, ScriptedLink};
use std::alloc::Global;
use std::io;
use std::sync::Wait;
use tree_nodes::NodeAt;
use vclock::Refusal;
use walk_messages::{Ask, Message, encode};

/// Shows the calls on links.
pub(crate) fn show_all<R: Print + AllocGlobal + Wait>(rt: &R, partner: &Partner) -> io::Result<()> {
    let alloc = rt.alloc();
    let mut link = MemoryLink::new(alloc, &partner.first);
    show(rt, "MemoryLink::offer", offer(rt, &mut link))?;
    show(rt, "MemoryLink::ask", ask(rt, alloc, &mut link))?;
    show(
        rt,
        "ScriptedLink::offer",
        scripted_offer(rt, alloc, partner),
    )?;
    show(rt, "ScriptedLink::ask", scripted_ask(rt, alloc, partner))
}

/// Returns the message of an ask for the root.
pub(crate) fn root_ask(alloc: Global) -> Result<Vec<u8>, Refusal> {
    let node = NodeAt::new(0, 0).ok_or(Refusal::BadMessage)?;
    encode(alloc, &Message::Ask(Ask { offer: 1, node }))
}

/// Returns the length of the newest offer's message, in bytes.
pub(crate) fn offer<K: Link, R: Wait>(rt: &R, link: &mut K) -> Result<u64, Refusal> {
    let failures = link.failures();
    match link.offer(rt) {
        Reached::Bytes(bytes) => length(&bytes, failures, link),
        Reached::Lost => {
            let again = link.offer(rt);
            Err(lost(again, failures, link))
        }
        Reached::Gone => Err(Refusal::Gone),
    }
}

/// Returns the length of the answer's message to an ask for the root, in bytes.
pub(crate) fn ask<K: Link, R: Wait>(rt: &R, alloc: Global, link: &mut K) -> Result<u64, Refusal> {
    let message = root_ask(alloc)?;
    let failures = link.failures();
    match link.ask(rt, &message) {
        Reached::Bytes(bytes) => length(&bytes, failures, link),
        Reached::Lost => {
            let again = link.ask(rt, &message);
            Err(lost(again, failures, link))
        }
        Reached::Gone => Err(Refusal::Gone),
    }
}

/// Returns the number of bytes received, if the link hasn't failed.
fn length<K: Link>(bytes: &[u8], failures: u64, link: &K) -> Result<u64, Refusal> {
    if link.failures() == failures {
        Ok(bytes.len() as u64)
    } else {
        Err(Refusal::LinkLost)
    }
}

/// Returns NoMemory for a lost call, if the link has failed once more for it and the repeated call received bytes.
fn lost<K: Link>(again: Reached, failures: u64, link: &K) -> Refusal {
    let was_received = matches!(again, Reached::Bytes(_));
    if was_received && link.failures() == failures.saturating_add(1) {
        Refusal::NoMemory
    } else {
        Refusal::LinkLost
    }
}

/// Returns a link that does these deeds.
fn scripted<'a>(
    alloc: Global,
    partner: &'a Partner,
    deeds: &[Deed],
) -> Result<ScriptedLink<MemoryLink<'a>>, Refusal> {
    let link = MemoryLink::new(alloc, &partner.first);
    let deeds = Vec::from_slice(alloc, deeds)?;
    Ok(ScriptedLink::new(alloc, link, deeds))
}

/// Asks for three offers; the last repeats the second. A lost call has used its deed.
fn scripted_offer<R: Wait>(rt: &R, alloc: Global, partner: &Partner) -> Result<u64, Refusal> {
    let deeds = [Deed::Change(1), Deed::Pass, Deed::Repeat];
    let mut link = scripted(alloc, partner, &deeds)?;
    let mut sum = 0u64;
    for _ in 0..3 {
        sum = sum.saturating_add(offer(rt, &mut link)?);
    }
    Ok(sum)
}

/// Sends two asks: the link asks for another node in the first, and cuts the answer of the second.
fn scripted_ask<R: Wait>(rt: &R, alloc: Global, partner: &Partner) -> Result<u64, Refusal> {
    let leaf = NodeAt::new(2, 0).ok_or(Refusal::BadMessage)?;
    let mut link = scripted(alloc, partner, &[Deed::Node(leaf), Deed::Cut(100)])?;
    let first = ask(rt, alloc, &mut link)?;
    Ok(first.saturating_add(ask(rt, alloc, &mut link)?))
}
