//! The ring: the nodes that keep each range, and their order (sections 4.2, 4.3 and 6.2 of the Dynamo paper).
ghost use Rattle.std.specs.Prelude.{◌≡◌, ◌==◌, ◌<◌, ◌≤◌, ◌^◌, ◌&&◌, nat_le, nat_lt, not, length, slice_get, IsTrue, Some};
ghost use Rattle.std.specs.List.{list_all, list_any};
ghost use Rattle.std.specs.List.Sorted.{IsPermutation};
ghost use Rattle.vclock.specs.Answer.{Answers};
ghost use Rattle.key_ring.specs.Places.{leaf_at, range_at};
ghost use Rattle.key_ring.specs.Ring.{repeats_number, is_node_number, is_ring, preference_list, ring_fault};

use crate::places::place;
use std::alloc::Global;
use std::marker::Model;
use vclock::limits::{NODE_MAX, RING_BITS_MAX, RING_NODES_MAX};
use vclock::{Format, Refusal};

/// A ring (sections 4.2, 4.3 and 6.2 of the Dynamo paper): 2^bits equal ranges of keys by their digests, 1 to 256; the
/// nodes in the order of the ring, 1 to 32, each once; and the number of nodes that keep a range.
///
/// ```
/// expect(
///     ring.bits() == 4 && ring.ranges() == 16 && ring.copies() == 2,
///     "a ring has its ranges and copies",
/// )?;
/// expect(
///     ring.nodes() == [10, 20, 30, 40].as_slice(),
///     "a ring has its nodes",
/// )?;
/// ```
#[derive(Debug, Drop)]
pub struct Ring {
    bits: u8,
    nodes: Vec<u16>,
    copies: usize,
}

impl Model for Ring {
    ghost use Rattle.std.specs.Prelude.{IsTrue};
    ghost use Rattle.key_ring.specs.Ring.{Places, is_ring};

    ghost Value = { Places };

    ghost view = { λ r. record { bits = r.bits; nodes = r.nodes.items; copies = r.copies } };

    ghost invariant = { λ r. IsTrue (is_ring (record { bits = r.bits; nodes = r.nodes.items; copies = r.copies })) };
}

impl Ring {
    /// Creates a ring of 2^bits ranges.
    ///
    /// `bits`: 0 to 8. `nodes`: 1 to 32 distinct numbers, each 1 to 65,535, in the order of the ring. `copies`: the
    /// number of nodes that keep a range, 1 to `nodes.len()`.
    ///
    /// Refused, in order: BadRing (an argument is outside these limits), NoMemory. A list that is too long is refused
    /// by its length only.
    pub fn new(alloc: Global, bits: u64, nodes: &[u64], copies: u64) -> Result<Ring, Refusal>
        ensures { Answers result (ring_fault (record { bits = bits; nodes = nodes.now; copies = copies })) (λ ring. ring ≡ record { bits = bits; nodes = nodes.now; copies = copies }) }
    {
        if !is_ring(bits, nodes, copies) {
            return Err(Refusal::BadRing);
        }
        let mut kept = Vec::with_capacity(alloc, nodes.len())?;
        for &node in nodes {
            kept.push(node as u16)?;
        }
        Ok(Ring {
            bits: bits as u8,
            nodes: kept,
            copies: copies as usize,
        })
    }

    /// Returns the range of a key, from 0: the first bits of its MD5 digest (RFC 1321). Doesn't allocate.
    pub fn range_of(&self, key: &[u8]) -> u16
        ensures place { result ≡ range_at self.now.bits key.now }
        ensures in_ring { result < 2 ^ self.now.bits }
    {
        // A ring of one range needs no digest.
        if self.bits == 0 {
            return 0;
        }
        // The range of a key is equal in both formats.
        place(Format::One, self.bits, key).range
    }

    /// Returns the leaf of a key in its range's tree, from 0: the 8 bits of its digest after the range's bits, or 12
    /// bits in format 2. Doesn't allocate.
    pub fn leaf_of(&self, format: Format, key: &[u8]) -> u16
        ensures { result ≡ leaf_at format self.now.bits key.now }
    {
        place(format, self.bits, key).leaf
    }

    /// Returns the node at a place of a range's preference list, from 0. The list has each node of the ring once, from
    /// node number `range` of the ring on, counted around the ring. Doesn't allocate.
    pub fn preference(&self, range: u16, place: usize) -> u16
        requires range { range < 2 ^ self.now.bits }
        requires place { place < length self.now.nodes }
        ensures node { slice_get (preference_list self.now.nodes range) place ≡ Some result }
        ensures number { 1 ≤ result }
        ensures once { IsPermutation (preference_list self.now.nodes range) self.now.nodes }
    {
        self.nodes[(usize::from(range) + place) % self.nodes.len()]
    }

    /// Returns true if a node is on the ring. The number may be any.
    pub fn contains(&self, node: u64) -> bool
        ensures { result ≡ list_any (λ n. n == node) self.now.nodes }
    {
        self.nodes.iter().any(|&n| u64::from(n) == node)
    }

    /// Returns the number of bits of a range's number, 0 to 8.
    pub fn bits(&self) -> u8
        ensures { result ≡ self.now.bits }
    {
        self.bits
    }

    /// Returns the number of ranges, 1 to 256.
    pub fn ranges(&self) -> u16
        ensures { result ≡ 2 ^ self.now.bits }
    {
        1 << self.bits
    }

    /// Returns the nodes in the order of the ring, 1 to 32.
    pub fn nodes(&self) -> &[u16]
        ensures all { result.now ≡ self.now.nodes }
        ensures valid { IsTrue (is_ring self.now) }
    {
        self.nodes.as_slice()
    }

    /// Returns the number of nodes that keep a range, 1 to all of them.
    pub fn copies(&self) -> usize
        ensures { result ≡ self.now.copies }
    {
        self.copies
    }
}

/// Returns true if these are the numbers of a ring.
fn is_ring(bits: u64, nodes: &[u64], copies: u64) -> bool
    ensures { result ≡ is_ring (record { bits = bits; nodes = nodes.now; copies = copies }) }
{
    bits <= RING_BITS_MAX && is_node_list(nodes) && 0 < copies && copies <= nodes.len() as u64
}

/// Returns true if these are the nodes of a ring: 1 to 32 nodes, each once. Only a short list is searched.
fn is_node_list(nodes: &[u64]) -> bool
    ensures { result ≡ (nat_lt 0 (length nodes.now) && nat_le (length nodes.now) 32 && list_all is_node_number nodes.now && not (repeats_number nodes.now)) }
{
    !nodes.is_empty() && nodes.len() <= RING_NODES_MAX && are_nodes(nodes) && !has_repeat(nodes)
}

/// Returns true if each number can be a node's.
fn are_nodes(nodes: &[u64]) -> bool
    ensures { result ≡ list_all is_node_number nodes.now }
{
    nodes.iter().all(|&node| 0 < node && node <= NODE_MAX)
}

/// Returns true if some number is listed twice. Takes time in proportion to the square of the length.
fn has_repeat(nodes: &[u64]) -> bool
    ensures { result ≡ repeats_number nodes.now }
{
    for i in 0..nodes.len() {
        if nodes[i + 1..].contains(&nodes[i]) {
            return true;
        }
    }
    false
}
