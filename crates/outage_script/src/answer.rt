//! The text of an answer, as JSON.
ghost use Rattle.std.specs.Prelude.{◌≡◌, [], ◌++◌, ◌∷◌, IfOk, OnOk};
ghost use Rattle.outage_script.specs.Answers.{answer_data, answer_line, digest_data, maybe_number, object_of, refusal_data, sync_data};
ghost use Rattle.outage_script.specs.Parts.{part_data, tokens_of};

use crate::part::{Part, write_object};
use json::Writer;
use outage_cluster::{CommandAnswer, SlotCounts};
use range_state::Synced;
use std::alloc::{AllocError, Global};
use tree_nodes::Digest;
use vclock::{Clock, Refusal};

/// The initial capacity of a line, in bytes.
const LINE_ROOM: usize = 128;

/// Makes the text of an answer, with its line feed.
pub(crate) fn answer_line(alloc: Global, answer: &CommandAnswer) -> Result<Vec<u8>, AllocError>
    ensures { IfOk result (λ line. line.items ≡ answer_line answer.now) }
{
    let mut out = Writer::new(Vec::with_capacity(alloc, LINE_ROOM)?);
    write_answer(alloc, answer, &mut out)?;
    let mut line = out.into_inner();
    line.push(b'\n')?;
    Ok(line)
}

/// Writes an answer.
fn write_answer(alloc: Global, answer: &CommandAnswer, out: &mut Writer) -> Result<(), AllocError>
    ensures tokens { OnOk result (out.new.tokens ≡ out.old.tokens ++ tokens_of (answer_data answer.now)) }
    ensures before { out.new.before ≡ out.old.before }
{
    match answer {
        CommandAnswer::Ring { nodes, ranges } => write_ring(alloc, *nodes, *ranges, out),
        CommandAnswer::Put {
            clock,
            copied,
            hinted,
            number,
        } => write_put(alloc, clock, *copied, *hinted, *number, out),
        CommandAnswer::Versions(versions) => {
            write_one(alloc, "versions", Part::Versions(versions.as_slice()), out)
        }
        CommandAnswer::Row(text) => write_one(alloc, "row", Part::Bytes(text.as_slice()), out),
        CommandAnswer::Rehash(hashed) => write_one(alloc, "hashed", Part::Number(*hashed), out),
        CommandAnswer::Sync(done) => write_sync(alloc, done, out),
        CommandAnswer::Node(digest) => write_one(alloc, "digest", digest_part(digest), out),
        CommandAnswer::Up { node, up } => write_up(alloc, *node, *up, out),
        CommandAnswer::Deliver {
            delivered,
            known,
            pending,
        } => write_delivery(alloc, *delivered, *known, *pending, out),
        CommandAnswer::Slots(slots) => write_slots(alloc, slots, out),
        CommandAnswer::Adjusted(slots, percentile) => write_adjusted(
            alloc,
            slots,
            *percentile,
            out,
        ),
        CommandAnswer::Sample(kept) => write_one(
            alloc,
            "samples",
            Part::Number(u64::from(*kept)),
            out,
        ),
        CommandAnswer::Refused(refusal) => write_refusal(alloc, refusal, out),
        CommandAnswer::BadLine(line) => write_bad_line(alloc, *line, out),
    }
}

/// Writes an answer of one member.
fn write_one(alloc: Global, name: &str, part: Part<'_>, out: &mut Writer) -> Result<(), AllocError>
    ensures tokens { OnOk result (out.new.tokens
        ≡ out.old.tokens ++ tokens_of (object_of ((name.now, part_data part.entry) ∷ []))) }
    ensures before { out.new.before ≡ out.old.before }
{
    write_object(alloc, &[(name, part)], out)
}

/// Writes the numbers of nodes and ranges of a new ring.
fn write_ring(alloc: Global, nodes: u64, ranges: u64, out: &mut Writer) -> Result<(), AllocError>
    ensures tokens { OnOk result (out.new.tokens
        ≡ out.old.tokens ++ tokens_of (answer_data (CommandAnswer.Ring nodes ranges))) }
    ensures before { out.new.before ≡ out.old.before }
{
    write_object(
        alloc,
        &[
            ("nodes", Part::Number(nodes)),
            ("ranges", Part::Number(ranges)),
        ],
        out,
    )
}

/// Writes the outcome of a put.
fn write_put(
    alloc: Global,
    clock: &Clock,
    copied: u64,
    hinted: u64,
    number: u64,
    out: &mut Writer,
) -> Result<(), AllocError>
    ensures tokens { OnOk result (out.new.tokens
        ≡ out.old.tokens ++ tokens_of (answer_data (CommandAnswer.Put clock.now copied hinted number))) }
    ensures before { out.new.before ≡ out.old.before }
{
    write_object(
        alloc,
        &[
            ("clock", Part::Clock(clock)),
            ("copied", Part::Number(copied)),
            ("hinted", Part::Number(hinted)),
            ("number", Part::Number(number)),
        ],
        out,
    )
}

/// Writes a node, and true if it is up.
fn write_up(alloc: Global, node: u64, up: bool, out: &mut Writer) -> Result<(), AllocError>
    ensures tokens { OnOk result (out.new.tokens
        ≡ out.old.tokens ++ tokens_of (answer_data (CommandAnswer.Up node up))) }
    ensures before { out.new.before ≡ out.old.before }
{
    write_object(
        alloc,
        &[("node", Part::Number(node)), ("up", Part::Flag(up))],
        out,
    )
}

/// Writes the outcome of a delivery.
fn write_delivery(
    alloc: Global,
    delivered: u64,
    known: u64,
    pending: u32,
    out: &mut Writer,
) -> Result<(), AllocError>
    ensures tokens { OnOk result (out.new.tokens
        ≡ out.old.tokens ++ tokens_of (answer_data (CommandAnswer.Deliver delivered known pending))) }
    ensures before { out.new.before ≡ out.old.before }
{
    write_object(
        alloc,
        &[
            ("delivered", Part::Number(delivered)),
            ("known", Part::Number(known)),
            ("pending", Part::Number(u64::from(pending))),
        ],
        out,
    )
}

/// Writes the counts of slots.
fn write_slots(alloc: Global, slots: &SlotCounts, out: &mut Writer) -> Result<(), AllocError>
    ensures tokens { OnOk result (out.new.tokens
        ≡ out.old.tokens ++ tokens_of (answer_data (CommandAnswer.Slots slots.now))) }
    ensures before { out.new.before ≡ out.old.before }
{
    write_object(
        alloc,
        &[
            ("allowance", Part::Number(slots.allowance)),
            ("free", Part::Number(slots.free)),
            ("lent", Part::Number(slots.lent)),
            ("target", Part::Number(slots.target)),
        ],
        out,
    )
}

/// Writes the slots, and the percentile that adjusted their target.
fn write_adjusted(
    alloc: Global,
    slots: &SlotCounts,
    percentile: Option<u32>,
    out: &mut Writer,
) -> Result<(), AllocError>
    ensures tokens { OnOk result (out.new.tokens
        ≡ out.old.tokens ++ tokens_of (answer_data (CommandAnswer.Adjusted slots.now percentile))) }
    ensures before { out.new.before ≡ out.old.before }
{
    write_object(
        alloc,
        &[
            ("allowance", Part::Number(slots.allowance)),
            ("free", Part::Number(slots.free)),
            ("lent", Part::Number(slots.lent)),
            ("p99", maybe_number(percentile)),
            ("target", Part::Number(slots.target)),
        ],
        out,
    )
}

/// Writes that a line isn't a command.
fn write_bad_line(alloc: Global, line: u64, out: &mut Writer) -> Result<(), AllocError>
    ensures tokens { OnOk result (out.new.tokens
        ≡ out.old.tokens ++ tokens_of (answer_data (CommandAnswer.BadLine line))) }
    ensures before { out.new.before ≡ out.old.before }
{
    let refusal = Refusal::BadLine;
    write_object(
        alloc,
        &[
            ("cause", Part::Text(refusal.name())),
            ("line", Part::Number(line)),
            ("refused", Part::Number(refusal.number())),
        ],
        out,
    )
}

/// Writes the report of a sync.
fn write_sync(alloc: Global, done: &Synced, out: &mut Writer) -> Result<(), AllocError>
    ensures tokens { OnOk result (out.new.tokens ≡ out.old.tokens
        ++ tokens_of (sync_data done.now.accepted done.now.asked done.now.known done.now.fault)) }
    ensures before { out.new.before ≡ out.old.before }
{
    match &done.fault {
        None => write_object(
            alloc,
            &[
                ("accepted", Part::Number(done.accepted)),
                ("asked", Part::Number(done.asked)),
                ("known", Part::Number(done.known)),
                ("state", Part::Text("Finished")),
            ],
            out,
        ),
        Some(refusal) => write_object(
            alloc,
            &[
                ("accepted", Part::Number(done.accepted)),
                ("asked", Part::Number(done.asked)),
                ("cause", Part::Text(refusal.name())),
                ("known", Part::Number(done.known)),
                ("refused", Part::Number(refusal.number())),
                ("state", Part::Text("Open")),
            ],
            out,
        ),
    }
}

/// Writes the refusal of a command.
fn write_refusal(alloc: Global, refusal: &Refusal, out: &mut Writer) -> Result<(), AllocError>
    ensures tokens { OnOk result (out.new.tokens ≡ out.old.tokens ++ tokens_of (refusal_data refusal.now)) }
    ensures before { out.new.before ≡ out.old.before }
{
    match refusal {
        Refusal::StaleContext(held) => write_object(
            alloc,
            &[
                ("cause", Part::Text(refusal.name())),
                ("held", Part::Clocks(held.as_slice())),
                ("refused", Part::Number(refusal.number())),
            ],
            out,
        ),
        _ => write_object(
            alloc,
            &[
                ("cause", Part::Text(refusal.name())),
                ("refused", Part::Number(refusal.number())),
            ],
            out,
        ),
    }
}

/// Returns a digest, or null for a dirty node.
fn digest_part(digest: &Option<Digest>) -> Part<'_>
    ensures { part_data result ≡ digest_data digest.now }
{
    match digest {
        Some(digest) => Part::Bytes(digest.as_slice()),
        None => Part::Null,
    }
}

/// Returns a number, or null for `None`.
fn maybe_number<'a>(number: Option<u32>) -> Part<'a>
    ensures { part_data result ≡ maybe_number number }
{
    match number {
        Some(number) => Part::Number(u64::from(number)),
        None => Part::Null,
    }
}
