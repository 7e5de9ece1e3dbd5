//! The standings of a tree's nodes.
ghost use Rattle.std.specs.Prelude.{◌≡◌, ◌+◌, ◌<◌, ◌≤◌, ◌^◌, [], None, true, false, cond, length, slice_get};
ghost use Rattle.vclock.specs.Answer.{Answers};
ghost use Rattle.tree_nodes.specs.Nodes.{node_count, place_of};
ghost use Rattle.exchange.specs.Courses.{are_left, unasked};
ghost use Rattle.exchange.specs.Standings.{in_flight, bytes_in_flight, is_in_flight, standing_of, with_standing, may_ask, may_take, was_asked, is_sent, sent_bytes, lost_in, was_left, left_in, first_askable};

use crate::standing::Standing;
use std::alloc::Global;
use std::marker::Model;
use tree_nodes::NodeAt;
use vclock::{Format, Refusal};

/// The standing of each node of a tree, by its place, with sums.
pub(crate) struct Standings {
    list: Vec<Standing>,
    sent: u64,
    bytes: u64,
}

impl Model for Standings {
    ghost use Rattle.std.specs.Prelude.{◌≡◌, List};
    ghost use Rattle.exchange.specs.declared.standing.Standing.{Standing};
    ghost use Rattle.exchange.specs.Standings.{in_flight, bytes_in_flight};

    ghost Value = { List Standing };

    ghost view = { λ s. s.list.items };

    ghost invariant = { λ s. (s.sent ≡ in_flight s.list.items) × (s.bytes ≡ bytes_in_flight s.list.items) };
}

impl Standings {
    /// Makes the standings of no nodes.
    pub(crate) fn none(alloc: Global) -> Standings
        ensures { result ≡ [] }
    {
        Standings {
            list: Vec::new(alloc),
            sent: 0,
            bytes: 0,
        }
    }

    /// Makes the standings of a tree without an asked node. Refused: NoMemory.
    pub(crate) fn unasked(alloc: Global, format: Format) -> Result<Standings, Refusal>
        ensures { Answers result None (λ standings. standings ≡ unasked format) }
    {
        let mut list = Vec::new(alloc);
        list.resize(node_count(format), Standing::Unasked)?;
        Ok(Standings {
            list,
            sent: 0,
            bytes: 0,
        })
    }

    /// Returns the number of asks in progress.
    pub(crate) fn in_flight(&self) -> u64
        ensures number { result ≡ in_flight self.now }
        ensures most { result ≤ length self.now }
    {
        self.sent
    }

    /// Returns the size of their answers in bytes.
    pub(crate) fn bytes_in_flight(&self) -> u64
        ensures { result ≡ bytes_in_flight self.now }
    {
        self.bytes
    }

    /// Returns the standing of a node, if the tree has it.
    pub(crate) fn get(&self, node: NodeAt) -> Option<Standing>
        ensures { result ≡ standing_of self.now node }
    {
        self.list.get(node.place()).copied()
    }

    /// Sets the standing of a node that may be asked: an ask is in progress, whose answer may have `bytes` bytes.
    pub(crate) fn send(&mut self, node: NodeAt, bytes: u64)
        requires may { may_ask (standing_of self.old node) ≡ true }
        requires fits { bytes_in_flight self.old + bytes < 2 ^ 64 }
        ensures { self.new ≡ with_standing self.old node (Standing.InFlight bytes) }
    {
        self.list[node.place()] = Standing::InFlight(bytes);
        self.sent += 1;
        self.bytes += bytes;
    }

    /// Sets the standing of a node whose answer may be taken; the new one has no ask in progress.
    pub(crate) fn end(&mut self, node: NodeAt, standing: Standing)
        requires may { may_take (standing_of self.old node) ≡ true }
        requires ended { is_in_flight standing ≡ false }
        ensures { self.new ≡ with_standing self.old node standing }
    {
        let before = self.get(node);
        self.sent -= in_flight_of(before);
        self.bytes -= bytes_of(before);
        self.list[node.place()] = standing;
    }

    /// Sets the standing of a node to lost if its ask is in progress. Returns true if it was.
    pub(crate) fn lose(&mut self, node: NodeAt) -> bool
        ensures was { result ≡ is_sent (standing_of self.old node) }
        ensures now { self.new ≡ lost_in self.old node }
    {
        let is_sent = self.is_sent(node);
        if is_sent {
            self.end(node, Standing::Lost);
        }
        is_sent
    }

    /// Returns true if an ask for a node is in progress.
    pub(crate) fn is_sent(&self, node: NodeAt) -> bool
        ensures { result ≡ is_sent (standing_of self.now node) }
    {
        matches!(self.get(node), Some(Standing::InFlight(_)))
    }

    /// Returns the first of some nodes that may be asked, if any.
    pub(crate) fn first_askable(&self, nodes: &[NodeAt]) -> Option<NodeAt>
        ensures { result ≡ first_askable self.now nodes.now }
    {
        for node in nodes {
            if may_ask(self.get(*node)) {
                return Some(*node);
            }
        }
        None
    }

    /// Returns one of the left nodes, by its place among them, from 0, or `None` if there are fewer.
    pub(crate) fn left_at(&self, nodes: &[NodeAt], place: usize) -> Option<NodeAt>
        ensures { result ≡ slice_get (left_in self.now nodes.now) place }
    {
        let mut before = place;
        for node in nodes {
            if self.was_left(*node) {
                if before == 0 {
                    return Some(*node);
                }
                before -= 1;
            }
        }
        None
    }

    /// Returns true if all these nodes were left.
    pub(crate) fn are_left(&self, nodes: &[NodeAt]) -> bool
        ensures { result ≡ are_left self.now nodes.now }
    {
        nodes.iter().all(|node| self.was_left(*node))
    }

    /// Returns true if the leaf of a node was left.
    fn was_left(&self, node: NodeAt) -> bool
        ensures { result ≡ was_left (standing_of self.now node) }
    {
        matches!(self.get(node), Some(Standing::Left))
    }
}

/// Returns the number of nodes of a tree.
pub(crate) fn node_count(format: Format) -> usize
    ensures { result ≡ node_count format }
{
    match format {
        Format::One => 273,
        Format::Two => 4_369,
    }
}

/// Returns the number of asks in progress for a node with this standing: 1 or 0.
fn in_flight_of(standing: Option<Standing>) -> u64
    ensures { result ≡ cond (is_sent standing) 1 0 }
{
    match standing {
        Some(Standing::InFlight(_)) => 1,
        _ => 0,
    }
}

/// Returns the size in bytes of the answer to the ask in progress for a node with this standing, or 0.
fn bytes_of(standing: Option<Standing>) -> u64
    ensures { result ≡ sent_bytes standing }
{
    match standing {
        Some(Standing::InFlight(bytes)) => bytes,
        _ => 0,
    }
}

/// Returns true if a node with this standing may be asked.
fn may_ask(standing: Option<Standing>) -> bool
    ensures { result ≡ may_ask standing }
{
    match standing {
        Some(Standing::Unasked | Standing::Lost) => true,
        Some(Standing::InFlight(_) | Standing::Left | Standing::Settled) | None => false,
    }
}

/// Returns true if the answer for a node with this standing may be taken.
pub(crate) fn may_take(standing: Option<Standing>) -> bool
    ensures { result ≡ may_take standing }
{
    match standing {
        Some(Standing::InFlight(_) | Standing::Lost) => true,
        Some(Standing::Unasked | Standing::Left | Standing::Settled) | None => false,
    }
}

/// Returns true if a node with this standing was ever asked.
pub(crate) fn was_asked(standing: Option<Standing>) -> bool
    ensures { result ≡ was_asked standing }
{
    match standing {
        Some(Standing::InFlight(_) | Standing::Lost | Standing::Left | Standing::Settled) => true,
        Some(Standing::Unasked) | None => false,
    }
}

impl Drop for Standings {
    /// Keeps the fields out of the proofs of callers that drop an exchange.
    fn drop(self) {
        let Standings {
            list: _list,
            sent: _sent,
            bytes: _bytes,
        } = self;
    }
}
