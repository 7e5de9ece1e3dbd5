//! A run in progress: the world, and the line that isn't complete yet.
ghost use Rattle.std.specs.Prelude.{None, Some, Option, ◌≡◌, ◌≤◌, ◌+◌, ◌^◌, ◌<◌, ◌∷◌, ◌++◌, [], ℕ, List, IsTrue, length, vec_len, false, IfOk, IfNone, option_map};
ghost use Rattle.std.specs.List.{list_all};
ghost use Rattle.std.specs.Io.KnownBytes.{Appends};
ghost use Rattle.outage_script.specs.Ends.{Explains};
ghost use Rattle.outage_script.specs.Lines.{is_inside, is_space};
ghost use Rattle.outage_script.specs.Moves.{Ends, Feeds, Finishes, Holds, script_place, to_come};
ghost use Rattle.outage_script.specs.Script.{step, IsTurn, bad_line};
ghost use Rattle.outage_cluster.specs.State.{start};
ghost use Rattle.vclock.specs.Answer.{Answers};

use crate::ScriptEnd;
use crate::answer::answer_line;
use crate::write::write_whole;
use json::Scratch;
use memchr::memchr;
use outage_cluster::{AtEnd, CommandAnswer, World};
use outage_commands::{LineFault, command_in, fault_of};
use std::alloc::{AllocError, Global};
use std::io::Write;
use std::sync::ledger::{Blank, Ledger};
use std::thread::Threads;
use vclock::Refusal;

/// The maximum length of a line, in bytes.
const LINE_LIMIT: usize = 1_048_576;

/// A run in progress: the world, the line that isn't complete yet, the memory for reading a line, the line's number,
/// and true if the run ended since the line is too long.
pub(crate) struct ScriptRun<L: Ledger> {
    world: World<L>,
    line: Vec<u8>,
    scratch: Scratch,
    number: u64,
    too_long: bool,
    ghost short: { vec_len line ≤ 1048576 },
    ghost inside: { IsTrue (list_all is_inside line.items) },
}

impl<L: Ledger> ScriptRun<L> {
    /// Makes a run that has read nothing.
    pub(crate) fn new(blank: Blank, alloc: Global) -> Result<ScriptRun<L>, Refusal>
        requires ledger { (blank.name ≡ L.name) × (blank.parts ≡ L.parts) × (blank.parts ≡ 1024) }
        ensures { Answers result None (λ script.
            script_place script.number script.world script.line.items script.too_long ≡ script_place 1 start [] false) }
    {
        Ok(ScriptRun {
            world: World::start(blank, alloc)?,
            line: Vec::new(alloc),
            scratch: Scratch::new(alloc),
            number: 1,
            too_long: false,
        })
    }

    /// Ends the run: takes all slots back, and frees the memory of the replicas or leaves it.
    pub(crate) fn close(self, at_end: AtEnd) {
        let ScriptRun {
            world,
            line: _line,
            scratch: _scratch,
            number: _number,
            too_long: _too_long,
        } = self;
        world.close(at_end);
    }

    /// Explains why the line that ended the run isn't a command. `None` if no such line did, or if memory ran out.
    pub(crate) fn fault(&self, alloc: Global, end: ScriptEnd) -> Option<LineFault>
        ensures { (input : Option (List ℕ))
            → Holds end (script_place self.now.number self.now.world self.now.line.items self.now.too_long) input
            → Explains end result input }
    {
        let ScriptEnd::BadLine(_) = end else {
            return None;
        };
        if self.too_long {
            return Some(LineFault::TooLong);
        }
        fault_of(alloc, self.line.as_slice()).ok()
    }

    /// Takes the next bytes, up to the end of the run.
    pub(crate) fn feed<T: Threads + Sync, W: Write>(
        &mut self,
        rt: &T,
        alloc: Global,
        piece: &[u8],
        writer: &mut W,
    ) -> Option<ScriptEnd>
        requires { self.old.number + length piece.now < 2 ^ 64 }
        ensures number { self.new.number ≤ self.old.number + length piece.now }
        ensures feeds { Feeds (script_place self.old.number self.old.world self.old.line.items self.old.too_long)
            piece.now (script_place self.new.number self.new.world self.new.line.items self.new.too_long) result
            (W.contents writer.old) (W.contents writer.new) }
    {
        let mut rest = piece;
        while let Some(at) = memchr(b'\n', rest) {
            if let Some(end) = self.take_line(rt, alloc, &rest[..at], writer) {
                return Some(end);
            }
            rest = &rest[at + 1..];
        }
        self.take_part(alloc, rest, writer)
    }

    /// Answers the last line if it has no line feed.
    pub(crate) fn finish<T: Threads + Sync, W: Write>(
        &mut self,
        rt: &T,
        alloc: Global,
        writer: &mut W,
    ) -> Option<ScriptEnd>
        requires { self.old.number + 1 < 2 ^ 64 }
        ensures { (some : List ℕ) × Appends (W.contents writer.old) (W.contents writer.new) some
            × Finishes result (script_place self.new.number self.new.world self.new.line.items self.new.too_long)
            (to_come (script_place self.old.number self.old.world self.old.line.items self.old.too_long) []) some }
    {
        if self.line.is_empty() {
            return None;
        }
        self.end_line(rt, alloc, writer)
    }

    /// Takes the last bytes of a line, and its line feed.
    fn take_line<T: Threads + Sync, W: Write>(
        &mut self,
        rt: &T,
        alloc: Global,
        bytes: &[u8],
        writer: &mut W,
    ) -> Option<ScriptEnd>
        requires number { self.old.number + 1 < 2 ^ 64 }
        requires inside { IsTrue (list_all is_inside bytes.now) }
        ensures number { self.new.number ≤ self.old.number + 1 }
        ensures feeds { Feeds (script_place self.old.number self.old.world self.old.line.items self.old.too_long)
            (bytes.now ++ 10 ∷ [])
            (script_place self.new.number self.new.world self.new.line.items self.new.too_long) result
            (W.contents writer.old) (W.contents writer.new) }
    {
        if let Some(end) = self.take_part(alloc, bytes, writer) {
            return Some(end);
        }
        self.end_line(rt, alloc, writer)
    }

    /// Takes the next bytes of a line, which have no line feed.
    fn take_part<W: Write>(
        &mut self,
        alloc: Global,
        bytes: &[u8],
        writer: &mut W,
    ) -> Option<ScriptEnd>
        requires { IsTrue (list_all is_inside bytes.now) }
        ensures number { self.new.number ≡ self.old.number }
        ensures feeds { Feeds (script_place self.old.number self.old.world self.old.line.items self.old.too_long)
            bytes.now (script_place self.new.number self.new.world self.new.line.items self.new.too_long) result
            (W.contents writer.old) (W.contents writer.new) }
    {
        if bytes.len() > LINE_LIMIT - self.line.len() {
            self.too_long = true;
            return Some(refuse(alloc, self.number, writer));
        }
        match self.line.extend_from_slice(bytes) {
            Ok(()) => None,
            Err(_) => Some(ScriptEnd::NoMemory),
        }
    }

    /// Takes the end of the line.
    fn end_line<T: Threads + Sync, W: Write>(
        &mut self,
        rt: &T,
        alloc: Global,
        writer: &mut W,
    ) -> Option<ScriptEnd>
        requires { self.old.number + 1 < 2 ^ 64 }
        ensures number { self.new.number ≤ self.old.number + 1 }
        ensures feeds { Feeds (script_place self.old.number self.old.world self.old.line.items self.old.too_long)
            (10 ∷ []) (script_place self.new.number self.new.world self.new.line.items self.new.too_long) result
            (W.contents writer.old) (W.contents writer.new) }
        ensures cleared { IfNone result (self.new.line.items ≡ []) }
    {
        let text = match turn(
            rt,
            alloc,
            &mut self.world,
            &mut self.scratch,
            self.line.as_slice(),
        ) {
            Ok(Some(text)) => text,
            Ok(None) => {
                // The line is kept in whole.
                self.too_long = false;
                return Some(refuse(alloc, self.number, writer));
            }
            Err(_) => return Some(ScriptEnd::NoMemory),
        };
        if !write_whole(writer, text.as_slice()) {
            return Some(ScriptEnd::Device);
        }
        self.line.clear();
        self.number += 1;
        None
    }
}

/// Writes that the line of that number is bad, and returns the end of the run.
fn refuse<W: Write>(alloc: Global, number: u64, writer: &mut W) -> ScriptEnd
    ensures { (some : List ℕ) × Appends (W.contents writer.old) (W.contents writer.new) some
        × ((line : List ℕ)
        → Ends result (record { text = bad_line number; bad = Some number; spoiled = Some line }) some) }
{
    let Ok(text) = bad_line(alloc, number) else {
        return ScriptEnd::NoMemory;
    };
    if write_whole(writer, text.as_slice()) {
        ScriptEnd::BadLine(number)
    } else {
        ScriptEnd::Device
    }
}

/// Makes the text written for a bad line.
#[tactic(auto, unfolding(crate::specs::Script::bad_line))]
fn bad_line(alloc: Global, number: u64) -> Result<Vec<u8>, AllocError>
    ensures { IfOk result (λ text. text.items ≡ bad_line number) }
{
    answer_line(alloc, &CommandAnswer::BadLine(number))
}

/// Acts on a line, and returns the text of its answer, or `None` if the line is bad.
#[tactic(auto, unfolding(crate::specs::Script::step))]
fn turn<L: Ledger, T: Threads + Sync>(
    rt: &T,
    alloc: Global,
    world: &mut World<L>,
    scratch: &mut Scratch,
    line: &[u8],
) -> Result<Option<Vec<u8>>, AllocError>
    ensures { IfOk result (λ o. IsTurn (option_map (λ text. text.items) o) world.new
        (step world.old line.now)) }
{
    if line.len() > LINE_LIMIT {
        return Ok(None);
    }
    if is_blank(line) {
        return Ok(Some(Vec::new(alloc)));
    }
    let Some(command) = command_in(alloc, line, scratch)? else {
        return Ok(None);
    };
    if !world.suits(&command) {
        return Ok(None);
    }
    let answer = world.act(rt, alloc, command)?;
    Ok(Some(answer_line(alloc, &answer)?))
}

/// Returns true if a line has only spaces, tabs and carriage returns.
fn is_blank(line: &[u8]) -> bool
    ensures { result ≡ list_all is_space line.now }
{
    line.iter()
        .all(|b| *b == b' ' || *b == b'\t' || *b == b'\r')
}
