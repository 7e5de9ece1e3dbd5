//! Rings.
use crate::lines::show;
use key_ring::Ring;
use std::alloc::Global;
use std::io;
use vclock::Refusal;

/// Shows the calls on a ring.
pub(crate) fn show_all<R: Print + AllocGlobal>(rt: &R) -> io::Result<()> {
    show(rt, "Ring::new", ring(rt.alloc()))
}

fn ring(alloc: Global) -> Result<u64, Refusal> {
    Ok(Ring::new(alloc, 4, &[10, 20, 30, 40], 2)?.nodes().len() as u64)
}
