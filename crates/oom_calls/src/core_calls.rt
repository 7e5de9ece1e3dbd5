//! Makes each library call that takes memory and no lock, and prints its result. `tests/check` refuses the growths
//! of memory in turn. Each call returns NoMemory, or its result with ample memory. After NoMemory the call's value is
//! unchanged, except that a call of many steps keeps the completed ones.
mod catch_ups;
mod events;
mod exchanges;
mod hints;
mod histories;
mod leaves;
mod messages;
mod moments;
mod pairs;
mod range_sessions;
mod ranges;
mod receipts;
mod rings;
mod rows;
mod scripts;
mod sessions;
mod slots;
mod snapshots;
mod trees;
mod versions;
mod words;

use std::io;
use std::thread::Threads;

/// Shows all these calls.
pub(crate) fn show_all<R: Print + AllocGlobal + Threads + Sync>(rt: &R) -> io::Result<()> {
    words::show_all(rt)?;
    versions::show_all(rt)?;
    histories::show_all(rt)?;
    rows::show_all(rt)?;
    rings::show_all(rt)?;
    leaves::show_all(rt)?;
    ranges::show_all(rt)?;
    events::show_all(rt)?;
    trees::show_all(rt)?;
    messages::show_all(rt)?;
    pairs::show_all(rt)?;
    hints::show_all(rt)?;
    slots::show_all(rt)?;
    scripts::show_all(rt)?;
    let Some(both) = snapshots::show_both(rt)? else {
        return Ok(());
    };
    snapshots::show_all(rt, &both)?;
    sessions::show_all(rt, &both)?;
    range_sessions::show_all(rt, &both)?;
    moments::show_all(rt, &both)?;
    catch_ups::show_all(rt)?;
    exchanges::show_all(rt, &both)?;
    receipts::show_all(rt, &both)
}
