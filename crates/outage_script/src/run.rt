//! A script from its reader to its writer.
ghost use Rattle.std.specs.Prelude.{false, ◌≡◌, ◌⊎◌, ◌+◌, [], vec_len, IfOk};
ghost use Rattle.std.specs.Io.KnownBytes.{Keeps};
ghost use Rattle.outage_script.specs.Ends.{Explains, Runs};
ghost use Rattle.outage_script.specs.Moves.{HasRun, script_place};
ghost use Rattle.outage_cluster.specs.State.{start};

use crate::ScriptEnd;
use crate::script_run::ScriptRun;
use outage_cluster::AtEnd;
use outage_commands::LineFault;
use std::alloc::{AllocError, Global};
use std::io::{Read, Write};
use std::marker::Brand;
use std::sync::ledger::{Blank, Ledger};
use std::thread::Threads;

/// The maximum number of calls of the reader.
const READ_CALLS: u64 = 4_000_000_000;

/// The number of slots that a ledger can count.
const SLOTS: u64 = 1_024;

/// The size of a read, in bytes.
const READ_SIZE: usize = 65_536;

/// Runs a reader's script. Everything that the run held is freed at its end.
pub fn run_script<T: Threads + Sync, R: Read, W: Write>(
    rt: &T,
    alloc: Global,
    reader: &mut R,
    writer: &mut W,
) -> ScriptEnd
    ensures { Runs result (R.remaining reader.old) (R.remaining reader.new)
        (W.contents writer.old) (W.contents writer.new) }
{
    let blank = Blank::new(SLOTS);
    run_freed::<Brand, T, R, W>(blank, rt, alloc, reader, writer)
}

/// Runs a reader's script, as the last act of a process: the memory of the replicas is left to the system, which frees
/// all memory of a process at once when it ends. Freeing it here would take a quarter of a run. Returns the end, and
/// the reason why the line is bad, if a bad line ended the run and there is memory to explain it.
pub fn run_last_script<T: Threads + Sync, R: Read, W: Write>(
    rt: &T,
    alloc: Global,
    reader: &mut R,
    writer: &mut W,
) -> (ScriptEnd, Option<LineFault>)
    ensures runs { Runs result.0 (R.remaining reader.old) (R.remaining reader.new)
        (W.contents writer.old) (W.contents writer.new) }
    ensures why { Explains result.0 result.1 (R.remaining reader.old) }
{
    let blank = Blank::new(SLOTS);
    run_left::<Brand, T, R, W>(blank, rt, alloc, reader, writer)
}

/// Runs a reader's script, with slots that are parts of that ledger, and frees the memory of the replicas.
#[tactic(auto, using(crate::proofs::RunLemmas::nothing_run))]
fn run_freed<L: Ledger, T: Threads + Sync, R: Read, W: Write>(
    blank: Blank,
    rt: &T,
    alloc: Global,
    reader: &mut R,
    writer: &mut W,
) -> ScriptEnd
    requires ledger { (blank.name ≡ L.name) × (blank.parts ≡ L.parts) × (blank.parts ≡ 1024) }
    ensures { Runs result (R.remaining reader.old) (R.remaining reader.new)
        (W.contents writer.old) (W.contents writer.new) }
{
    let Ok(mut script) = ScriptRun::<L>::new(blank, alloc) else {
        return ScriptEnd::NoMemory;
    };
    let end = run_in(rt, alloc, &mut script, reader, writer);
    script.close(AtEnd::Free);
    end
}

/// Runs a reader's script, with slots that are parts of that ledger, explains the bad line that ended it, if any, and
/// leaves the memory of the replicas.
#[tactic(auto, using(crate::proofs::RunLemmas::nothing_run))]
fn run_left<L: Ledger, T: Threads + Sync, R: Read, W: Write>(
    blank: Blank,
    rt: &T,
    alloc: Global,
    reader: &mut R,
    writer: &mut W,
) -> (ScriptEnd, Option<LineFault>)
    requires ledger { (blank.name ≡ L.name) × (blank.parts ≡ L.parts) × (blank.parts ≡ 1024) }
    ensures runs { Runs result.0 (R.remaining reader.old) (R.remaining reader.new)
        (W.contents writer.old) (W.contents writer.new) }
    ensures why { Explains result.0 result.1 (R.remaining reader.old) }
{
    let Ok(mut script) = ScriptRun::<L>::new(blank, alloc) else {
        return (ScriptEnd::NoMemory, None);
    };
    let end = run_in(rt, alloc, &mut script, reader, writer);
    let fault = script.fault(alloc, end);
    script.close(AtEnd::Leave);
    (end, fault)
}

/// Runs a reader's script from its first line.
#[tactic(auto, using(crate::proofs::RunLemmas::nothing_read))]
fn run_in<L: Ledger, T: Threads + Sync, R: Read, W: Write>(
    rt: &T,
    alloc: Global,
    script: &mut ScriptRun<L>,
    reader: &mut R,
    writer: &mut W,
) -> ScriptEnd
    requires new { script_place script.old.number script.old.world script.old.line.items script.old.too_long
        ≡ script_place 1 start [] false }
    ensures { HasRun result (R.remaining reader.old) (R.remaining reader.new)
        (W.contents writer.old) (W.contents writer.new)
        (script_place script.new.number script.new.world script.new.line.items script.new.too_long) }
{
    let Ok(buffer) = zeros(alloc, READ_SIZE) else {
        return ScriptEnd::NoMemory;
    };
    drive(rt, alloc, script, buffer, reader, writer)
}

/// Feeds a script the reader's bytes. The output is flushed after each piece, for a caller who sends the next
/// line only after this one's answer; a batch pays one more write for each piece.
fn drive<L: Ledger, T: Threads + Sync, R: Read, W: Write>(
    rt: &T,
    alloc: Global,
    script: &mut ScriptRun<L>,
    mut buffer: Vec<u8>,
    reader: &mut R,
    writer: &mut W,
) -> ScriptEnd
    requires new { script_place script.old.number script.old.world script.old.line.items script.old.too_long
        ≡ script_place 1 start [] false }
    requires room { vec_len buffer ≡ 65536 }
    ensures { HasRun result (R.remaining reader.old) (R.remaining reader.new)
        (W.contents writer.old) (W.contents writer.new)
        (script_place script.new.number script.new.world script.new.line.items script.new.too_long) }
{
    for calls in 0..READ_CALLS {
        let count = match reader.read(buffer.as_mut_slice()) {
            Ok(0) => {
                let last = script.finish(rt, alloc, writer);
                return flushed(writer, last.unwrap_or(ScriptEnd::Done));
            }
            Ok(count) => count,
            Err(_) => return ScriptEnd::Device,
        };
        if let Some(end) = script.feed(rt, alloc, &buffer[..count], writer) {
            return flushed(writer, end);
        }
        if writer.flush().is_err() {
            return ScriptEnd::Device;
        }
    }
    ScriptEnd::Device
}

/// Flushes the writer, and returns the end.
fn flushed<W: Write>(writer: &mut W, end: ScriptEnd) -> ScriptEnd
    ensures kept { Keeps (W.contents writer.old) (W.contents writer.new) }
    ensures end { (result ≡ end) ⊎ (result ≡ ScriptEnd.Device) }
{
    match writer.flush() {
        Ok(()) => end,
        Err(_) => ScriptEnd::Device,
    }
}

/// Makes `count` zero bytes.
fn zeros(alloc: Global, count: usize) -> Result<Vec<u8>, AllocError>
    ensures { IfOk result (λ bytes. vec_len bytes ≡ count) }
{
    vec![in alloc; 0; count]
}
