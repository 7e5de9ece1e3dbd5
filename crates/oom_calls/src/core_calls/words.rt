//! Clocks, bytes and texts.
use crate::lines::{show, unchanged};
use std::alloc::Global;
use std::io;
use tree_nodes::Text;
use vclock::{Bytes, Clock, Clocks, Refusal};

/// Too many bytes for a `Bytes` that doesn't allocate: a copy takes memory.
const LONG: &[u8] = b"more than sixteen bytes";

/// Shows the calls on clocks, bytes and texts.
pub(crate) fn show_all<R: Print + AllocGlobal>(rt: &R) -> io::Result<()> {
    let alloc = rt.alloc();
    show(rt, "Clock::from_pairs", from_pairs(alloc))?;
    show(rt, "Clock::raise", raise(alloc))?;
    show(rt, "Clock::merge", merge(alloc))?;
    show(rt, "Clock::try_clone", clone_of_clock(alloc))?;
    show(rt, "Clocks::push", push(alloc))?;
    show(rt, "Bytes::copy_of", copy_of(alloc))?;
    show(rt, "Bytes::try_clone", clone_of_bytes(alloc))?;
    show(rt, "Text::copy_of", copy_of_text(alloc))
}

fn clock(alloc: Global) -> Result<Clock, Refusal> {
    Clock::from_pairs(alloc, &[(2, 1), (1, 3)])
}

fn from_pairs(alloc: Global) -> Result<u64, Refusal> {
    Ok(clock(alloc)?.get(1))
}

fn raise(alloc: Global) -> Result<u64, Refusal> {
    Ok(clock(alloc)?.raise(alloc, 3)?.pairs().len() as u64)
}

/// Returns the number of pairs of two merged clocks that share a node.
fn merge(alloc: Global) -> Result<u64, Refusal> {
    let other = Clock::from_pairs(alloc, &[(2, 5), (4, 1)])?;
    Ok(clock(alloc)?.merge(alloc, &other)?.pairs().len() as u64)
}

fn clone_of_clock(alloc: Global) -> Result<u64, Refusal> {
    Ok(clock(alloc)?.try_clone()?.get(1))
}

/// Adds clocks until the list has grown twice.
fn push(alloc: Global) -> Result<u64, Refusal> {
    let mut clocks = Clocks::new(alloc);
    for counter in 1..10u64 {
        let clock = Clock::from_pairs(alloc, &[(1, counter)])?;
        if clocks.push(clock).is_err() {
            let is_same = count_to(&clocks, counter);
            return Err(unchanged(Refusal::NoMemory, Ok(is_same)));
        }
    }
    Ok(clocks.as_slice().len() as u64)
}

/// Returns true if the clocks of a list have counted to 1, 2 and so on, up to the number before `next`.
fn count_to(clocks: &Clocks, next: u64) -> bool {
    let mut counters = clocks.as_slice().iter().zip(1..next);
    clocks.as_slice().len() as u64 == next.saturating_sub(1)
        && counters.all(|(clock, counter)| clock.pairs() == [(1, counter)].as_slice())
}

fn copy_of(alloc: Global) -> Result<u64, Refusal> {
    Ok(Bytes::copy_of(alloc, LONG)?.as_slice().len() as u64)
}

fn copy_of_text(alloc: Global) -> Result<u64, Refusal> {
    Ok(Text::copy_of(alloc, LONG)?.as_slice().len() as u64)
}

fn clone_of_bytes(alloc: Global) -> Result<u64, Refusal> {
    Ok(Bytes::copy_of(alloc, LONG)?.try_clone()?.as_slice().len() as u64)
}
