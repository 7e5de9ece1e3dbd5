//! Makes each call that takes memory of locked and shared ranges, and of the other values that threads share, and
//! prints its result. `tests/check` refuses the growths of memory in turn. Each call returns NoMemory, or its result
//! with ample memory. After NoMemory everything is unchanged, except that a worker keeps the steps it has done, and the
//! ranges can be closed.
mod books;
mod calls;
mod channels;
mod closing;
mod ended;
mod links;
mod locked;
mod partner;
mod pass_copy;
mod pools;
mod renewals;
mod scene;
mod shared;
mod stories;
mod versions;

use std::io;
use std::sync::Wait;
use std::thread::Threads;

/// Shows all these calls.
pub(crate) fn show_all<R: Print + AllocGlobal + Threads + Wait + Sync>(rt: &R) -> io::Result<()> {
    books::show_all(rt)?;
    let Some(partner) = partner::show_partner(rt)? else {
        return Ok(());
    };
    pools::show_all(rt, &partner)?;
    links::show_all(rt, &partner)?;
    channels::show_all(rt, &partner)?;
    renewals::show_all(rt, &partner)?;
    stories::show_all(rt, &partner)
}
