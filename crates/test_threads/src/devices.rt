//! Scripts over readers and writers that fail.
use crate::scripts::{
    BAD_LINE, BAD_LINE_ANSWERS, FORK, FORK_ANSWERS, ONE_KEY, ONE_KEY_ANSWERS, UPDATES,
    UPDATES_ANSWERS, WAITING, WAITING_ANSWERS,
};
use outage_script::{ScriptEnd, run_script};
use std::io;
use std::io::{Read, Write};
use std::test::Fail;
use std::thread::Threads;

/// A failing call of a device.
#[derive(Clone, Copy, Debug, PartialEq, Eq)]
enum Fault {
    /// A read.
    Read,
    /// A write.
    Write,
    /// A write that takes nothing.
    Nothing,
    /// A flush.
    Flush,
}

/// A series of calls: one fails, and the later ones succeed.
#[derive(Drop)]
struct Calls {
    before: u64,
    failed: bool,
}

impl Calls {
    /// Returns true if this call fails.
    fn fails(&mut self) -> bool {
        if self.failed {
            return false;
        }
        self.failed = self.before == 0;
        self.before = self.before.saturating_sub(1);
        self.failed
    }
}

/// A reader that returns a few bytes a call.
#[derive(Drop)]
struct Source<'a> {
    rest: &'a [u8],
    size: usize,
    reads: Calls,
}

impl Read for Source<'_> {
    fn read(&mut self, buf: &mut [u8]) -> io::Result<usize> {
        if self.reads.fails() {
            return Err(io::Error::from(io::ErrorKind::Other));
        }
        let count = buf.len().min(self.size);
        self.rest.read(&mut buf[..count])
    }
}

/// A writer that takes a few bytes a call.
#[derive(Drop)]
struct Sink {
    bytes: Vec<u8>,
    size: usize,
    writes: Calls,
    nothings: Calls,
    flushes: Calls,
}

impl Sink {
    /// Returns true if its calls can no longer fail.
    fn has_failed(&self) -> bool {
        self.writes.failed && self.nothings.failed && self.flushes.failed
    }
}

impl Write for Sink {
    fn write(&mut self, buf: &[u8]) -> io::Result<usize> {
        if self.writes.fails() {
            return Err(io::Error::from(io::ErrorKind::Other));
        }
        if self.nothings.fails() {
            return Ok(0);
        }
        let count = buf.len().min(self.size);
        self.bytes.extend_from_slice(&buf[..count])?;
        Ok(count)
    }

    fn flush(&mut self) -> io::Result<()> {
        if self.flushes.fails() {
            return Err(io::Error::from(io::ErrorKind::Other));
        }
        Ok(())
    }
}

/// Returns the calls of a kind. The call after the first `before` fails if it has the fault's kind.
fn calls_before(before: u64, kind: Fault, fault: Fault) -> Calls {
    Calls {
        before,
        failed: kind != fault,
    }
}

/// Runs the script with a fault after more and more calls of its kind, up to a run without a fault, which has the
/// expected output and end. The other runs end like a device's fault, and their output is a prefix of the expected one.
/// Returns the number of these runs. Reads and writes have at most `size` bytes.
fn count_faults(
    rt: &(impl AllocGlobal + Threads + Sync),
    (input, output, end): (&str, &str, ScriptEnd),
    fault: Fault,
    size: usize,
) -> Result<u64, Fail> {
    for before in 0..10_000 {
        let mut reader = Source {
            rest: input.as_bytes(),
            size,
            reads: calls_before(before, Fault::Read, fault),
        };
        let mut writer = Sink {
            bytes: Vec::new(rt.alloc()),
            size,
            writes: calls_before(before, Fault::Write, fault),
            nothings: calls_before(before, Fault::Nothing, fault),
            flushes: calls_before(before, Fault::Flush, fault),
        };
        let ended = run_script(rt, rt.alloc(), &mut reader, &mut writer);
        if !(reader.reads.failed && writer.has_failed()) {
            expect(
                ended == end && writer.bytes.as_slice() == output.as_bytes(),
                "a run without a fault has the whole output",
            )?;
            return Ok(before);
        }
        expect(
            ended == ScriptEnd::Device && output.as_bytes().starts_with(&writer.bytes),
            "a run with a fault has a prefix of the output",
        )?;
    }
    Err("each run has a fault".into())
}

/// Fails the test with these words unless the condition holds.
pub(crate) fn expect(holds: bool, what: &'static str) -> Result<(), Fail> {
    if holds { Ok(()) } else { Err(Fail::from(what)) }
}

/// The numbers of runs with a fault.
#[derive(Clone, Copy)]
struct Counts {
    reads: u64,
    writes: u64,
    nothings: u64,
    flushes: u64,
}

/// Runs the script with each call of a device failing in turn. Reads and writes have at most `size` bytes.
fn count_all(
    rt: &(impl AllocGlobal + Threads + Sync),
    script: (&str, &str, ScriptEnd),
    size: usize,
) -> Result<Counts, Fail> {
    Ok(Counts {
        reads: count_faults(rt, script, Fault::Read, size)?,
        writes: count_faults(rt, script, Fault::Write, size)?,
        nothings: count_faults(rt, script, Fault::Nothing, size)?,
        flushes: count_faults(rt, script, Fault::Flush, size)?,
    })
}

#[test]
fn each_fault_of_a_device_ends_the_script(rt: HostRuntime) -> Result<(), Fail> {
    for script in [
        (UPDATES, UPDATES_ANSWERS, ScriptEnd::Done),
        (BAD_LINE, BAD_LINE_ANSWERS, ScriptEnd::BadLine(3)),
    ] {
        let bytes = script.1.len() as u64;
        let counts = count_all(&rt, script, 1)?;
        expect(
            counts.reads > 70 && counts.flushes > 70,
            "each read and each flush fails",
        )?;
        expect(
            counts.writes == bytes && counts.nothings == bytes,
            "each write fails, and each takes nothing",
        )?;
    }
    Ok(())
}

/// The maximum length of a read and of a write in a script of many lines, in bytes.
const SIZE: usize = 64;

/// Runs the script with each call of a device failing in turn, then with one byte a call. The run without a fault
/// flushes after each read, and writes each answer at least once.
fn expect_faults(
    rt: &(impl AllocGlobal + Threads + Sync),
    input: &str,
    output: &str,
) -> Result<(), Fail> {
    let script = (input, output, ScriptEnd::Done);
    let reads = (input.len().div_ceil(SIZE) as u64).saturating_add(1);
    let answers = output.lines().count() as u64;
    let counts = count_all(rt, script, SIZE)?;
    expect(
        counts.reads == reads && counts.flushes == reads,
        "each read and each flush fails",
    )?;
    expect(
        counts.writes >= answers && counts.nothings >= answers,
        "each write fails, and each takes nothing",
    )?;
    expect_whole(rt, script)
}

/// Runs the script with one byte a call and no fault.
fn expect_whole(
    rt: &(impl AllocGlobal + Threads + Sync),
    (input, output, end): (&str, &str, ScriptEnd),
) -> Result<(), Fail> {
    let mut reader = Source {
        rest: input.as_bytes(),
        size: 1,
        reads: no_fault(),
    };
    let mut writer = Sink {
        bytes: Vec::new(rt.alloc()),
        size: 1,
        writes: no_fault(),
        nothings: no_fault(),
        flushes: no_fault(),
    };
    let ended = run_script(rt, rt.alloc(), &mut reader, &mut writer);
    expect(
        ended == end && writer.bytes.as_slice() == output.as_bytes(),
        "a run without a fault has the whole output",
    )
}

/// Returns calls that don't fail.
fn no_fault() -> Calls {
    Calls {
        before: 0,
        failed: true,
    }
}

#[test]
fn each_fault_ends_a_script_of_puts(rt: HostRuntime) -> Result<(), Fail> {
    expect_faults(&rt, FORK, FORK_ANSWERS)
}

#[test]
fn each_fault_ends_a_script_of_syncs(rt: HostRuntime) -> Result<(), Fail> {
    expect_faults(&rt, ONE_KEY, ONE_KEY_ANSWERS)
}

#[test]
fn each_fault_ends_a_script_of_hints(rt: HostRuntime) -> Result<(), Fail> {
    expect_faults(&rt, WAITING, WAITING_ANSWERS)
}
