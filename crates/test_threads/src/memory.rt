//! Scripts over memory.
use crate::devices::expect;
use crate::scripts::{BAD_LINE, BAD_LINE_ANSWERS, UPDATES, UPDATES_ANSWERS};
use outage_script::{ScriptEnd, run_bytes};
use std::str;
use std::test::Fail;
use std::thread::Threads;

/// Runs a script, and expects its output and its end.
fn expect_run(
    rt: &(impl AllocGlobal + Threads + Sync),
    input: &[u8],
    output: &str,
    end: ScriptEnd,
) -> Result<(), Fail> {
    let (ended, written) = run_bytes(rt, rt.alloc(), input);
    let written = str::from_utf8(&written)?;
    expect(ended == end, "the script ends as it should")?;
    expect(written == output, "the script has its output")
}

#[test]
fn scripts_run_over_memory(rt: HostRuntime) -> Result<(), Fail> {
    expect_run(&rt, UPDATES.as_bytes(), UPDATES_ANSWERS, ScriptEnd::Done)?;
    expect_run(
        &rt,
        BAD_LINE.as_bytes(),
        BAD_LINE_ANSWERS,
        ScriptEnd::BadLine(3),
    )
}
