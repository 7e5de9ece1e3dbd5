//! The outlines of an exchange.
ghost use Rattle.std.specs.Prelude.{◌≡◌, ◌≤◌, None, true};
ghost use Rattle.vclock.specs.Answer.{Answers};
ghost use Rattle.tree_nodes.specs.Nodes.{tree_depth};
ghost use Rattle.exchange.specs.declared.outlining.Outlining.TheVariants as outlining;
ghost use Rattle.exchange.specs.Outlines.{unsent, no_outlines, outlining_of, is_out, may_outline, with_outlining, after_miss, after_text, pays};

use crate::course::is_leaf;
use crate::outlining::Outlining;
use crate::standings::node_count;
use snapshot::Snapshot;
use std::alloc::Global;
use std::marker::Model;
use tree_nodes::NodeAt;
use vclock::{Format, Refusal};

/// The number of outlines in a row without a text after which no more are sent: the partner may not know outlines.
const MISSES_MAX: u8 = 3;

/// The maximum length, in bytes, of a leaf that isn't outlined: its text costs about as much as a patch.
const SMALL_LEAF: u64 = 255;

/// The state of each node's outline, by its place, and the number of outlines in a row without a text.
pub(crate) struct Outlines {
    nodes: Vec<Outlining>,
    misses: u8,
}

impl Model for Outlines {
    ghost use Rattle.exchange.specs.declared.outlining.Outlining.TheVariants as outlining;
    ghost use Rattle.exchange.specs.Outlines.{Outlines};

    ghost Value = { Outlines };

    ghost view = { λ o. record { nodes = o.nodes.items; misses = o.misses } };
}

impl Outlines {
    /// Makes the outlines of no nodes.
    pub(crate) fn none(alloc: Global) -> Outlines
        ensures { result ≡ no_outlines }
    {
        Outlines {
            nodes: Vec::new(alloc),
            misses: 0,
        }
    }

    /// Makes the outlines of a tree; none was sent yet. Refused: NoMemory.
    pub(crate) fn unsent(alloc: Global, format: Format) -> Result<Outlines, Refusal>
        ensures { Answers result None (λ outlines. outlines ≡ unsent format) }
    {
        let mut nodes = Vec::new(alloc);
        nodes.resize(node_count(format), Outlining::Never)?;
        Ok(Outlines { nodes, misses: 0 })
    }

    /// Returns true if an outline may be sent for a node.
    pub(crate) fn may_send(&self, node: NodeAt) -> bool
        ensures { result ≡ may_outline self.now node }
    {
        self.misses < MISSES_MAX && matches!(self.get(node), Some(Outlining::Never))
    }

    /// Returns true if an outline of a node is in progress.
    pub(crate) fn is_out(&self, node: NodeAt) -> bool
        ensures { result ≡ is_out (outlining_of self.now node) }
    {
        matches!(self.get(node), Some(Outlining::Sent))
    }

    /// Records that an outline of a node was sent.
    pub(crate) fn send(&mut self, node: NodeAt)
        requires { may_outline self.old node ≡ true }
        ensures { self.new ≡ with_outlining self.old node outlining.Sent }
    {
        self.nodes[node.place()] = Outlining::Sent;
    }

    /// Records that the outline of a node brought no text.
    pub(crate) fn miss(&mut self, node: NodeAt)
        requires { is_out (outlining_of self.old node) ≡ true }
        ensures { self.new ≡ after_miss self.old node }
    {
        self.nodes[node.place()] = Outlining::Ended;
        self.misses = self.misses.saturating_add(1).min(MISSES_MAX);
    }

    /// Records that the outline of a node brought a text. A count of three misses stays.
    pub(crate) fn end(&mut self, node: NodeAt)
        requires { is_out (outlining_of self.old node) ≡ true }
        ensures { self.new ≡ after_text self.old node }
    {
        self.nodes[node.place()] = Outlining::Ended;
        self.misses = if self.misses < MISSES_MAX {
            0
        } else {
            MISSES_MAX
        };
    }

    /// Returns the state of a node's outline, if the tree has the node.
    fn get(&self, node: NodeAt) -> Option<Outlining>
        ensures { result ≡ outlining_of self.now node }
    {
        self.nodes.get(node.place()).copied()
    }
}

/// Returns true if an outline of a node pays: a patch is likely to be smaller than the text.
pub(crate) fn pays(own: &Snapshot, node: NodeAt) -> bool
    requires { node.depth ≤ tree_depth own.now.format }
    ensures { result ≡ pays own.now node }
{
    if is_leaf(own, node) {
        own.rows(node.index).rows_len() > SMALL_LEAF
    } else {
        own.digest_at(node.child(0)) != own.digest_at(node.child(1))
    }
}

impl Drop for Outlines {
    /// Keeps the fields out of the proofs of callers that drop an exchange.
    fn drop(self) {
        let Outlines {
            nodes: _nodes,
            misses: _misses,
        } = self;
    }
}
