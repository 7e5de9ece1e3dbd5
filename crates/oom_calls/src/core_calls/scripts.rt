//! Scripts.
use crate::lines::show;
use outage_script::{ScriptEnd, run_bytes, run_script};
use std::alloc::Global;
use std::io;
use std::thread::Threads;
use vclock::Refusal;

/// A script of two lines.
const SCRIPT: &[u8] = b"{\"put\":{\"node\":1,\"key\":\"61\",\"context\":[],\"value\":\"78\"}}\n\
    {\"get\":{\"node\":1,\"key\":\"61\"}}\n";

/// The output for its first line.
const FIRST: &[u8] = b"{\"clock\":[[1,1]],\"copied\":0,\"hinted\":0,\"number\":0}\n";

/// The output for its second line.
const SECOND: &[u8] = b"{\"versions\":[{\"clock\":[[1,1]],\"value\":\"78\"}]}\n";

/// More bytes than a script writes here.
const ROOM: usize = 1_024;

/// Shows the calls on scripts.
pub(crate) fn show_all<R: Print + AllocGlobal + Threads + Sync>(rt: &R) -> io::Result<()> {
    let alloc = rt.alloc();
    show(rt, "run_script", run(rt, alloc))?;
    show(rt, "run_bytes", run_in_memory(rt, alloc))
}

/// Returns the number of answered lines, or `None` if the output differs from that of the first few lines.
fn answered(written: &[u8]) -> Option<u64> {
    match written.strip_prefix(FIRST) {
        Some(rest) if rest == SECOND => Some(2),
        Some(rest) if rest.is_empty() => Some(1),
        None if written.is_empty() => Some(0),
        _ => None,
    }
}

/// Runs the script with a writer that has enough capacity, and returns the number of answered lines. Each of them has
/// its whole answer.
fn run(rt: &(impl Threads + Sync), alloc: Global) -> Result<u64, Refusal> {
    let mut reader = SCRIPT;
    let mut writer = Vec::with_capacity(alloc, ROOM)?;
    let end = run_script(rt, alloc, &mut reader, &mut writer);
    match (end, answered(&writer)) {
        (ScriptEnd::Done, Some(2)) => Ok(2),
        (ScriptEnd::NoMemory, Some(_)) => Err(Refusal::NoMemory),
        _ => Err(Refusal::Dirty),
    }
}

/// Runs the script with a writer that grows, and returns the number of answered lines. A refused growth of the writer
/// may end the script, like a fault of its device.
fn run_in_memory(rt: &(impl Threads + Sync), alloc: Global) -> Result<u64, Refusal> {
    let (end, written) = run_bytes(rt, alloc, SCRIPT);
    match (end, answered(&written)) {
        (ScriptEnd::Done, Some(2)) => Ok(2),
        (ScriptEnd::NoMemory | ScriptEnd::Device, Some(_)) => Err(Refusal::NoMemory),
        _ => Err(Refusal::Dirty),
    }
}
