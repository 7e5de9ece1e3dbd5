//! Commands, and how they are read from lines.
ghost use Rattle.std.specs.Prelude.{◌≡◌, IfOk, option_and_then};
ghost use Rattle.outage_commands.specs.Commands.{ring_of, put_of, get_of, rehash_of, sync_of, node_of, named, other_forms, sole_node_of, slot_of, plain_slot, numbered_slot, sample_of, command_of};
ghost use Rattle.outage_commands.specs.Reading.{value_of};
ghost use Rattle.outage_commands.specs.Trees.{seen};

use crate::items::Items;
use crate::tree::{
    has_only, items_or_none, maybe_number_at, member_at, number_at, number_or, short_number_at,
    sole_member, text_at, tree_in,
};
use json::{Scratch, Value};
use std::alloc::{AllocError, Global};
use vclock::Bytes;
use vclock::limits::ENTRIES_MAX;
use version_set::Kind;

/// The number of the format of a ring that doesn't name one.
const FIRST_FORMAT: u64 = 1;

/// A new ring.
#[derive(Drop)]
pub struct NewRing {
    /// The number of bits of a range's number.
    pub bits: u64,
    /// The number of nodes that keep a range.
    pub copies: u64,
    /// The nodes in order.
    pub nodes: Items<u64>,
    /// The limit of each journal, in entries.
    pub limit: u64,
    /// The number of the format.
    pub format: u64,
}

/// A put of a value at a node under a key.
#[derive(Drop)]
pub struct Put {
    /// The node that takes the put.
    pub node: u64,
    /// The key.
    pub key: Bytes,
    /// The pairs of the put's context.
    pub context: Items<(u64, u64)>,
    /// The kind of the value.
    pub kind: Kind,
    /// The value. A tombstone has no bytes.
    pub value: Bytes,
    /// The nodes that get no copy.
    pub lose: Items<u64>,
}

/// A get of the versions that are held at a node for a key.
#[derive(Drop)]
pub struct Get {
    /// The node that returns them.
    pub node: u64,
    /// The key.
    pub key: Bytes,
}

/// A rehash of a range.
#[derive(Drop)]
pub struct Rehash {
    /// The node that keeps the range.
    pub node: u64,
    /// The number of the range.
    pub range: u64,
}

/// A sync: a node fetches the versions of a range that another has and it doesn't.
#[derive(Drop)]
pub struct SyncFrom {
    /// The node whose rows are taken.
    pub from: u64,
    /// The node that takes them.
    pub node: u64,
    /// The number of the range.
    pub range: u64,
}

/// The digest of a node of a range's tree.
#[derive(Drop)]
pub struct ShowNode {
    /// The node that keeps the range.
    pub node: u64,
    /// The number of the range.
    pub range: u64,
    /// The depth of the node in the tree.
    pub depth: u64,
    /// The index of the node at that depth.
    pub index: u64,
}

/// A command for the slots for background work.
#[derive(Clone, Copy)]
pub enum SlotCommand {
    /// Lends a slot.
    Lend,
    /// Takes the slot back that was lent last.
    Back,
    /// Sets the target.
    Target(u64),
    /// Adjusts the target at that moment, in milliseconds.
    Adjust(u64),
}

/// A latency of the foreground.
#[derive(Clone, Copy)]
pub struct NewSample {
    /// The moment of the measurement, in milliseconds.
    pub moment: u64,
    /// The latency in microseconds.
    pub micros: u32,
}

/// A command of a script.
#[derive(Drop)]
pub enum Command {
    /// `ring`.
    Ring(NewRing),
    /// `put`.
    Put(Put),
    /// `get`.
    Get(Get),
    /// `row`: the text of a key's row.
    Row(Get),
    /// `down`: the node goes down.
    Down(u64),
    /// `up`: the node goes up again.
    Up(u64),
    /// `deliver`: the hints that the node keeps are offered to their owners.
    Deliver(u64),
    /// `rehash`.
    Rehash(Rehash),
    /// `sync`.
    Sync(SyncFrom),
    /// `node`.
    Node(ShowNode),
    /// `slot`.
    Slot(SlotCommand),
    /// `sample`.
    Sample(NewSample),
}

/// Reads the command of a line. `None` if the line isn't a command.
pub fn command_in(
    alloc: Global,
    line: &[u8],
    scratch: &mut Scratch,
) -> Result<Option<Command>, AllocError>
    ensures { IfOk result (λ o. o ≡ option_and_then command_of (value_of line.now)) }
{
    match tree_in(alloc, line, scratch)? {
        Some(tree) => named_in(alloc, &tree),
        None => Ok(None),
    }
}

/// Reads the command that the one member of an object names.
#[tactic(auto, unfolding(crate::specs::Commands::command_of))]
fn named_in(alloc: Global, value: &Value<'_>) -> Result<Option<Command>, AllocError>
    ensures { IfOk result (λ o. o ≡ command_of (seen value.now)) }
{
    let Some((name, inner)) = sole_member(value) else {
        return Ok(None);
    };
    if name == "ring" {
        Ok(ring_in(alloc, inner)?.map(Command::Ring))
    } else if name == "put" {
        Ok(put_in(alloc, inner)?.map(Command::Put))
    } else if name == "get" {
        Ok(get_in(alloc, inner)?.map(Command::Get))
    } else if name == "row" {
        Ok(get_in(alloc, inner)?.map(Command::Row))
    } else {
        Ok(other_in(name, inner))
    }
}

/// Reads the command of that name, of those that touch no key.
fn other_in(name: &str, members: &Value<'_>) -> Option<Command>
    ensures { result ≡ named other_forms (name.now, seen members.now) }
{
    if name == "down" {
        sole_node_in(members).map(Command::Down)
    } else if name == "up" {
        sole_node_in(members).map(Command::Up)
    } else if name == "deliver" {
        sole_node_in(members).map(Command::Deliver)
    } else if name == "rehash" {
        rehash_in(members).map(Command::Rehash)
    } else if name == "sync" {
        sync_in(members).map(Command::Sync)
    } else if name == "node" {
        node_in(members).map(Command::Node)
    } else if name == "slot" {
        slot_in(members).map(Command::Slot)
    } else if name == "sample" {
        sample_in(members).map(Command::Sample)
    } else {
        None
    }
}

/// Reads the ring of these members.
#[tactic(auto, unfolding(crate::specs::Commands::ring_of))]
fn ring_in(alloc: Global, members: &Value<'_>) -> Result<Option<NewRing>, AllocError>
    ensures { IfOk result (λ o. o ≡ ring_of (seen members.now)) }
{
    if !has_only(members, &["bits", "copies", "nodes", "limit", "format"]) {
        return Ok(None);
    }
    let Some(bits) = number_at(members, "bits") else {
        return Ok(None);
    };
    let Some(copies) = number_at(members, "copies") else {
        return Ok(None);
    };
    let Some(nodes) = member_at(alloc, members, "nodes")? else {
        return Ok(None);
    };
    let Some(limit) = number_or(members, "limit", ENTRIES_MAX) else {
        return Ok(None);
    };
    let format = number_or(members, "format", FIRST_FORMAT);
    Ok(format.map(|format| NewRing {
        bits,
        copies,
        nodes,
        limit,
        format,
    }))
}

/// Reads the put of these members.
#[tactic(auto, unfolding(crate::specs::Commands::put_of))]
fn put_in(alloc: Global, members: &Value<'_>) -> Result<Option<Put>, AllocError>
    ensures { IfOk result (λ o. o ≡ put_of (seen members.now)) }
{
    if !has_only(members, &["node", "key", "context", "value", "lose"]) {
        return Ok(None);
    }
    let Some(node) = number_at(members, "node") else {
        return Ok(None);
    };
    let Some(key) = member_at(alloc, members, "key")? else {
        return Ok(None);
    };
    let Some(context) = member_at(alloc, members, "context")? else {
        return Ok(None);
    };
    let Some((kind, value)) = member_at(alloc, members, "value")? else {
        return Ok(None);
    };
    let lose = items_or_none(alloc, members, "lose")?;
    Ok(lose.map(|lose| Put {
        node,
        key,
        context,
        kind,
        value,
        lose,
    }))
}

/// Reads the get of these members.
#[tactic(auto, unfolding(crate::specs::Commands::get_of))]
fn get_in(alloc: Global, members: &Value<'_>) -> Result<Option<Get>, AllocError>
    ensures { IfOk result (λ o. o ≡ get_of (seen members.now)) }
{
    if !has_only(members, &["node", "key"]) {
        return Ok(None);
    }
    let Some(node) = number_at(members, "node") else {
        return Ok(None);
    };
    let key = member_at(alloc, members, "key")?;
    Ok(key.map(|key| Get { node, key }))
}

/// Reads the rehash of these members.
#[tactic(auto, unfolding(crate::specs::Commands::rehash_of))]
fn rehash_in(members: &Value<'_>) -> Option<Rehash>
    ensures { result ≡ rehash_of (seen members.now) }
{
    if !has_only(members, &["node", "range"]) {
        return None;
    }
    Some(Rehash {
        node: number_at(members, "node")?,
        range: number_at(members, "range")?,
    })
}

/// Reads the sync of these members.
#[tactic(auto, unfolding(crate::specs::Commands::sync_of))]
fn sync_in(members: &Value<'_>) -> Option<SyncFrom>
    ensures { result ≡ sync_of (seen members.now) }
{
    if !has_only(members, &["from", "node", "range"]) {
        return None;
    }
    Some(SyncFrom {
        from: number_at(members, "from")?,
        node: number_at(members, "node")?,
        range: number_at(members, "range")?,
    })
}

/// Reads the node of a tree of these members.
#[tactic(auto, unfolding(crate::specs::Commands::node_of))]
fn node_in(members: &Value<'_>) -> Option<ShowNode>
    ensures { result ≡ node_of (seen members.now) }
{
    if !has_only(members, &["node", "range", "depth", "index"]) {
        return None;
    }
    Some(ShowNode {
        node: number_at(members, "node")?,
        range: number_at(members, "range")?,
        depth: number_at(members, "depth")?,
        index: number_at(members, "index")?,
    })
}

/// Reads the node of a command that has no other member.
#[tactic(auto, unfolding(crate::specs::Commands::sole_node_of))]
fn sole_node_in(members: &Value<'_>) -> Option<u64>
    ensures { result ≡ sole_node_of (seen members.now) }
{
    if !has_only(members, &["node"]) {
        return None;
    }
    number_at(members, "node")
}

/// Reads the command for the slots of these members. There is a number with `target` and `adjust`, and no number with
/// the others.
#[tactic(auto, unfolding(crate::specs::Commands::slot_of))]
fn slot_in(members: &Value<'_>) -> Option<SlotCommand>
    ensures { result ≡ slot_of (seen members.now) }
{
    if !has_only(members, &["do", "n"]) {
        return None;
    }
    let word = text_at(members, "do")?;
    match maybe_number_at(members, "n")? {
        Some(n) => numbered_slot(word, n),
        None => plain_slot(word),
    }
}

/// Returns the command for the slots of a word without a number.
fn plain_slot(word: &str) -> Option<SlotCommand>
    ensures { result ≡ plain_slot word.now }
{
    match word {
        "lend" => Some(SlotCommand::Lend),
        "back" => Some(SlotCommand::Back),
        _ => None,
    }
}

/// Returns the command for the slots of a word and a number.
fn numbered_slot(word: &str, n: u64) -> Option<SlotCommand>
    ensures { result ≡ numbered_slot n word.now }
{
    match word {
        "target" => Some(SlotCommand::Target(n)),
        "adjust" => Some(SlotCommand::Adjust(n)),
        _ => None,
    }
}

/// Reads the sample of these members.
#[tactic(auto, unfolding(crate::specs::Commands::sample_of))]
fn sample_in(members: &Value<'_>) -> Option<NewSample>
    ensures { result ≡ sample_of (seen members.now) }
{
    if !has_only(members, &["at", "micros"]) {
        return None;
    }
    Some(NewSample {
        moment: number_at(members, "at")?,
        micros: short_number_at(members, "micros")?,
    })
}
