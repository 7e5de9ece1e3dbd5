//! The nodes of a range's tree (section 4.7 of the Dynamo paper), by depth and index.
ghost use Rattle.std.specs.Prelude.{◌≡◌, ◌+◌, ◌<◌, ◌≤◌, ◌^◌, ◌↔◌, IsSome, IfSome};
ghost use Rattle.tree_nodes.specs.Nodes.{IsNode, top, child, parent_of, nodes_above, place_of, tree_depth};

use std::marker::Model;
use vclock::Format;

/// A node of a tree, by its depth and its index there. The root is the only node of depth 0. The children of a node are
/// the nodes of the next depth with 16 times its index, and the 15 after.
///
/// ```
/// Ok(NodeAt::new(depth, index).ok_or("no such node")?)
/// ```
#[derive(Clone, Copy, Debug, PartialEq, Eq)]
pub struct NodeAt {
    /// The number of nodes on the path above it: 0 for the root, at most 3.
    pub depth: u8,
    /// The index among the nodes of this depth, from 0: below 16^depth.
    pub index: u16,
}

impl Model for NodeAt {
    ghost use Rattle.tree_nodes.specs.Nodes.{Node, IsNode};

    ghost Value = { Node };

    ghost view = { λ n. record { depth = n.depth; index = n.index } };

    ghost invariant = { λ n. IsNode 3 (record { depth = n.depth; index = n.index }) };

    ghost inverse = { λ n. record { depth = n.depth; index = n.index } };
}

/// Returns the depth of the leaves of a tree: 2, or 3 in format 2.
pub fn tree_depth(format: Format) -> u8
    ensures { result ≡ tree_depth format }
{
    match format {
        Format::One => 2,
        Format::Two => 3,
    }
}

impl NodeAt {
    /// Returns the node with a depth and an index, or `None` if the depth is over 3 or the index isn't below 16^depth.
    pub fn new(depth: u8, index: u16) -> Option<NodeAt>
        ensures node { IsSome result ↔ ((depth ≤ 3) × (index < 16 ^ depth)) }
        ensures depth { IfSome result (λ n. n.depth ≡ depth) }
        ensures index { IfSome result (λ n. n.index ≡ index) }
    {
        let width = match depth {
            0 => 1,
            1 => 16,
            2 => 256,
            3 => 4_096,
            _ => return None,
        };
        if index < width {
            Some(NodeAt { depth, index })
        } else {
            None
        }
    }

    /// Returns the root of each tree.
    pub fn root() -> NodeAt
        ensures { result ≡ top }
    {
        NodeAt { depth: 0, index: 0 }
    }

    /// Returns a child of a node that isn't at depth 3: `number` is below 16.
    pub fn child(self, number: u16) -> NodeAt
        requires inner { self.depth < 3 }
        requires few { number < 16 }
        ensures { result ≡ child self number }
    {
        NodeAt {
            depth: self.depth + 1,
            index: 16 * self.index + number,
        }
    }

    /// Returns the node above, or `None` for the root.
    pub fn parent(self) -> Option<NodeAt>
        ensures { result ≡ parent_of self }
    {
        if self.depth == 0 {
            return None;
        }
        Some(NodeAt {
            depth: self.depth - 1,
            index: self.index / 16,
        })
    }

    /// Returns the number of nodes before this one in a tree, depth by depth.
    pub fn place(self) -> usize
        ensures node { IsNode 3 self }
        ensures place { result ≡ place_of self }
        ensures before { result < nodes_above (self.depth + 1) }
        ensures below { result < nodes_above 4 }
    {
        let index = self.index as usize;
        match self.depth {
            0 => index,
            1 => 1 + index,
            2 => 17 + index,
            _ => 273 + index,
        }
    }
}
