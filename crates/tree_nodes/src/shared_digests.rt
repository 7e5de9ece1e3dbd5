//! The digests of all nodes of a tree, in blocks that those who hold them share.
ghost use Rattle.std.specs.Prelude.{◌≡◌, ◌+◌, ◌*◌, ◌<◌, ◌≤◌, ℕ, List, ◌∷◌, None, length, take, drop, slice_index_or};
ghost use Rattle.vclock.specs.Answer.{Answers};
ghost use Rattle.tree_nodes.specs.Nodes.{node_count, place_at};
ghost use Rattle.tree_nodes.specs.Blocks.{joined, AreOf};

use crate::digest::Digest;
use crate::digest_block::DigestBlock;
use crate::node::NodeAt;
use std::alloc::{AllocError, Global};
use std::marker::Model;
use std::sync::Arc;
use vclock::{Format, Refusal};

/// The digests of all nodes of a tree, by place, with any number of owners. The digests of sixteen siblings are in one
/// block. The digests that marks return share the blocks that haven't changed in between.
#[derive(Debug)]
pub struct SharedDigests {
    root: Digest,
    blocks: Arc<Vec<DigestBlock>, Global>,
}

impl Model for SharedDigests {
    ghost use Rattle.std.specs.Prelude.{ℕ, List, ◌∷◌};
    ghost use Rattle.std.specs.Arc.{arc_value};
    ghost use Rattle.std.specs.Vec.{vec_items};
    ghost use Rattle.tree_nodes.specs.Blocks.{joined, AreOf};

    ghost Value = { List (List ℕ) };

    ghost view = { λ s. s.root ∷ joined (vec_items (arc_value s.blocks)) };

    ghost invariant = { λ s. AreOf 16 (vec_items (arc_value s.blocks)) };
}

impl Clone for SharedDigests {
    ghost use Rattle.std.specs.Prelude.{◌≡◌};

    ghost is_clone = { λ digests copy. copy ≡ digests };

    /// Adds an owner to the digests, and returns its handle. Fails only if memory is needed. Copies no block.
    fn clone(&self) -> Result<SharedDigests, AllocError> {
        Ok(SharedDigests {
            root: self.root,
            blocks: Arc::try_clone(&self.blocks)?,
        })
    }
}

impl SharedDigests {
    /// Copies the digests of all nodes of a tree, by place, into blocks. Refused: NoMemory.
    pub fn from_vec(
        alloc: Global,
        format: Format,
        digests: Vec<Digest>,
    ) -> Result<SharedDigests, Refusal>
        requires { length digests.items ≡ node_count format }
        ensures { Answers result None (λ all. all ≡ digests.items) }
    {
        let count = block_count(format);
        let mut blocks = Vec::with_capacity(alloc, count)?;
        for place in 0..count {
            blocks.push(DigestBlock::new(alloc, children_in(&digests, place))?)?;
        }
        SharedDigests::of_blocks(alloc, digests[0], blocks)
    }

    /// Wraps the digest of the root, and the blocks of all other nodes by the place of their parent. Refused: NoMemory.
    pub(crate) fn of_blocks(
        alloc: Global,
        root: Digest,
        blocks: Vec<DigestBlock>,
    ) -> Result<SharedDigests, Refusal>
        requires { AreOf 16 blocks.items }
        ensures { Answers result None (λ all. all ≡ root ∷ joined blocks.items) }
    {
        Ok(SharedDigests {
            root,
            blocks: Arc::new(alloc, blocks)?,
        })
    }

    /// Returns the digest of a node. Doesn't allocate.
    pub fn get(&self, node: NodeAt) -> Digest
        requires { place_at node.depth node.index < length self.now }
        ensures { (d : List ℕ) → result ≡ slice_index_or self.now (place_at node.depth node.index) d }
    {
        match node.place().checked_sub(1) {
            Some(before) => self.blocks[before / 16].get(before % 16),
            None => self.root,
        }
    }

    /// Returns the digests of the children of a node that isn't a leaf, in order. Doesn't allocate.
    pub fn children(&self, node: NodeAt) -> &[Digest; 16]
        requires { 16 * place_at node.depth node.index + 16 < length self.now }
        ensures { result.now ≡ take 16 (drop (16 * place_at node.depth node.index + 1) self.now) }
    {
        self.blocks[node.place()].digests()
    }

    /// Adds an owner to the digests, and returns its handle. Refused: NoMemory. Copies no block.
    pub fn share(&self) -> Result<SharedDigests, Refusal>
        ensures { Answers result None (λ shared. shared ≡ self.now) }
    {
        Ok(self.clone()?)
    }
}

/// Returns the number of nodes that aren't leaves: 17, or 273 in format 2.
pub(crate) fn block_count(format: Format) -> usize
    ensures { 16 * result + 1 ≡ node_count format }
{
    match format {
        Format::One => 17,
        Format::Two => 273,
    }
}

/// Returns the digests of the children of the node at a place, from the digests of all nodes.
fn children_in(digests: &[Digest], place: usize) -> [Digest; 16]
    requires { 16 * place + 17 ≤ length digests.now }
    ensures { result ≡ take 16 (drop (16 * place + 1) digests.now) }
{
    let (_, behind) = digests.split_at(16 * place + 1);
    let Some(children) = behind.first_chunk() else {
        unreachable!()
    };
    *children
}

impl Drop for SharedDigests {
    /// Keeps the fields out of the proofs of callers that drop digests.
    fn drop(self) {
        let SharedDigests {
            root: _root,
            blocks: _blocks,
        } = self;
    }
}
