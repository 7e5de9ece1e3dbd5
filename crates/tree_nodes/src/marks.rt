//! The clean nodes of a tree, and their digests.
ghost use Rattle.std.specs.Prelude.{◌≡◌, ◌+◌, ◌/◌, ◌<◌, ◌≤◌, ◌^◌, ◌∷◌, [], length, Option, Some, None, map, replicate, slice_set, false, if◌then◌else◌, IsTrue, MatchOption, IfSome};
ghost use Rattle.vclock.specs.Answer.{Answers};
ghost use Rattle.tree_nodes.specs.Nodes.{IsNode, place_of, tree_depth, node_count, place_at, kept_digest, children_of, are_clean, ready_from, dirtied, dirty_count, IsTree};
ghost use Rattle.tree_nodes.specs.Blocks.{AreCopies};

use crate::copies::{drop_block, fill_blocks, no_blocks, share_blocks};
use crate::digest::Digest;
use crate::digest_block::DigestBlock;
use crate::node::{NodeAt, tree_depth};
use crate::ready::{children_at, clean_digests, first_ready, node_of};
use crate::shared_digests::SharedDigests;
use std::alloc::Global;
use std::marker::Model;
use vclock::{Format, Refusal};

/// The digests of the clean nodes of a tree. The other nodes are dirty and have no digest. A new version makes its leaf
/// and all nodes above it dirty, and a rehash makes them clean from the leaves up, so the children of a clean node are
/// clean. Marks count the clean nodes. They also keep copies of some digests, in blocks: `keep_digests` makes the
/// copies, and a change drops them.
pub struct Marks {
    format: Format,
    digests: Vec<Option<Digest>>,
    clean: usize,
    blocks: Vec<Option<DigestBlock>>,
    whole: Option<SharedDigests>,
}

impl Model for Marks {
    ghost use Rattle.tree_nodes.specs.Nodes.{Tree};
    ghost use Rattle.tree_nodes.specs.Blocks.{AreMarks};

    ghost Value = { Tree };

    ghost view = { λ m. record { format = m.format; digests = m.digests.items } };

    ghost invariant = { λ m. AreMarks m.format m.digests.items m.clean m.blocks.items m.whole };
}

impl Marks {
    /// Creates the marks of a tree whose nodes are all dirty: 273, or 4,369 in format 2. Refused: NoMemory.
    pub fn new(alloc: Global, format: Format) -> Result<Marks, Refusal>
        ensures { Answers result None
            (λ marks. marks ≡ record { format = format; digests = replicate (node_count format) None }) }
    {
        let count = count_of(format);
        let mut digests = Vec::with_capacity(alloc, count)?;
        for _ in 0..count {
            digests.push(None)?;
        }
        Ok(Marks {
            format,
            digests,
            clean: 0,
            blocks: no_blocks(alloc, format)?,
            whole: None,
        })
    }

    /// Copies the digests, and shares the copies of blocks. Refused: NoMemory.
    pub fn try_clone(&self, alloc: Global) -> Result<Marks, Refusal>
        ensures { Answers result None (λ copy. copy ≡ self.now) }
    {
        Ok(Marks {
            format: self.format,
            digests: Vec::from_slice(alloc, &self.digests)?,
            clean: self.clean,
            blocks: Vec::from_clones(alloc, &self.blocks)?,
            whole: self.whole.clone()?,
        })
    }

    /// Returns the digest of a node, or `None` if the node is dirty or isn't in the tree. Doesn't allocate.
    pub fn get(&self, node: NodeAt) -> Option<Digest>
        ensures digest { result ≡ kept_digest self.now.digests (place_at node.depth node.index) }
        ensures valid { IsTree self.now }
        ensures node { IsNode 3 node }
    {
        match self.digests.get(node.place()) {
            Some(digest) => *digest,
            None => None,
        }
    }

    /// Returns the digests of a node's children, if all are clean. Doesn't allocate.
    pub fn children(&self, node: NodeAt) -> Option<[Digest; 16]>
        requires { node.depth < tree_depth self.now.format }
        ensures { MatchOption result
            (are_clean (children_of self.now.digests (place_at node.depth node.index)) ≡ false)
            (λ digests. children_of self.now.digests (place_at node.depth node.index) ≡ map Some digests) }
    {
        clean_digests(children_at(&self.digests, node.place()))
    }

    /// Returns the first node, in order of place from `from` on, that can be hashed: it is dirty, and its children are
    /// clean. Doesn't allocate.
    pub fn next_ready(&self, from: usize) -> Option<NodeAt>
        ensures order { MatchOption result
            (ready_from self.now.digests from ≡ [])
            (λ node. ready_from self.now.digests from
            ≡ place_of node ∷ ready_from self.now.digests (place_of node + 1)) }
        ensures node { IfSome result (IsNode 3) }
    {
        match first_ready(&self.digests, from) {
            Some(place) => Some(node_of(place)),
            None => None,
        }
    }

    /// Counts the nodes that can be hashed. Doesn't allocate.
    pub fn ready_count(&self) -> usize
        ensures { result ≡ length (ready_from self.now.digests 0) }
    {
        let mut found = 0;
        let mut next = first_ready(&self.digests, 0);
        while let Some(place) = next {
            found += 1;
            next = first_ready(&self.digests, place + 1);
        }
        found
    }

    /// Returns the number of dirty nodes. Doesn't allocate.
    pub fn dirty_count(&self) -> usize
        ensures { result ≡ dirty_count self.now.digests }
    {
        self.digests.len() - self.clean
    }

    /// Returns the digests of all nodes, by place. Shares the copies of blocks. Refused, in order: Dirty (some node has
    /// no digest), NoMemory.
    pub fn digests(&self, alloc: Global) -> Result<SharedDigests, Refusal>
        ensures { Answers result (if are_clean self.now.digests then None else Some Refusal.Dirty)
            (λ digests. map Some digests ≡ self.now.digests) }
    {
        // The children of a clean node are clean, so all nodes are if the root is.
        match self.digests[0] {
            Some(root) => self.share_clean(alloc, root),
            None => Err(Refusal::Dirty),
        }
    }

    /// Returns the digests of all nodes like `digests`, and keeps copies of all blocks, so that the next call shares
    /// the blocks that don't change in between. Refused, in order: Dirty, NoMemory.
    pub fn keep_digests(&mut self, alloc: Global) -> Result<SharedDigests, Refusal>
        ensures digests { Answers result (if are_clean self.old.digests then None else Some Refusal.Dirty)
            (λ digests. map Some digests ≡ self.old.digests) }
        ensures same { self.new ≡ self.old }
    {
        match self.digests[0] {
            Some(root) => self.keep_clean(alloc, root),
            None => Err(Refusal::Dirty),
        }
    }

    /// Returns the digests of all nodes, if all are clean. Refused: NoMemory.
    fn share_clean(&self, alloc: Global, root: Digest) -> Result<SharedDigests, Refusal>
        requires clean { IsTrue (are_clean self.now.digests) }
        requires root { kept_digest self.now.digests 0 ≡ Some root }
        ensures { Answers result None (λ digests. map Some digests ≡ self.now.digests) }
    {
        if let Some(whole) = &self.whole {
            return whole.share();
        }
        let blocks = share_blocks(alloc, &self.digests, &self.blocks)?;
        SharedDigests::of_blocks(alloc, root, blocks)
    }

    /// Returns the digests of all nodes, if all are clean, and keeps copies of all. Refused: NoMemory.
    fn keep_clean(&mut self, alloc: Global, root: Digest) -> Result<SharedDigests, Refusal>
        requires clean { IsTrue (are_clean self.old.digests) }
        requires root { kept_digest self.old.digests 0 ≡ Some root }
        ensures digests { Answers result None (λ digests. map Some digests ≡ self.old.digests) }
        ensures same { self.new ≡ self.old }
    {
        if self.whole.is_none() {
            fill_blocks(alloc, &self.digests, &mut self.blocks)?;
        }
        let shared = self.share_clean(alloc, root)?;
        self.whole = Some(shared.share()?);
        Ok(shared)
    }

    /// Makes a leaf and every node above it dirty. Doesn't allocate.
    pub fn dirty(&mut self, leaf: u16)
        requires { leaf < 16 ^ tree_depth self.old.format }
        ensures path { self.new ≡ record self.old { digests = dirtied self.old.format leaf self.old.digests } }
        ensures valid { IsTree self.new }
    {
        self.clean -= dirty_up(self.format, leaf, &mut self.digests, &mut self.blocks);
        self.whole = None;
    }

    /// Makes a node of the tree clean whose children are clean. Doesn't allocate.
    pub fn set(&mut self, node: NodeAt, digest: Digest)
        requires has { node.depth ≤ tree_depth self.old.format }
        requires children { IsTrue (are_clean (children_of self.old.digests (place_at node.depth node.index))) }
        ensures digest { self.new ≡ record self.old
            { digests = slice_set self.old.digests (place_at node.depth node.index) (Some digest) } }
        ensures valid { IsTree self.new }
    {
        let place = node.place();
        self.clean += usize::from(self.digests[place].is_none());
        self.digests[place] = Some(digest);
        drop_block(place, &mut self.blocks);
        self.whole = None;
    }
}

/// Returns the number of nodes of a tree.
fn count_of(format: Format) -> usize
    ensures { result ≡ node_count format }
{
    match format {
        Format::One => 273,
        Format::Two => 4_369,
    }
}

/// Makes a leaf and every node above it dirty, and drops the copies that have one of them. Returns the number of those
/// that were clean. The nodes above a dirty node are dirty.
fn dirty_up(
    format: Format,
    leaf: u16,
    digests: &mut [Option<Digest>],
    blocks: &mut [Option<DigestBlock>],
) -> usize
    requires leaf { leaf < 16 ^ tree_depth format }
    requires tree { IsTree (record { format = format; digests = digests.old }) }
    requires copies { AreCopies digests.old blocks.old }
    ensures path { digests.new ≡ dirtied format leaf digests.old }
    ensures copies { AreCopies digests.new blocks.new }
    ensures count { dirty_count digests.new ≡ dirty_count digests.old + result }
{
    let mut count = 0;
    let mut next = Some(NodeAt {
        depth: tree_depth(format),
        index: leaf,
    });
    while let Some(node) = next {
        let place = node.place();
        if digests[place].is_none() {
            return count;
        }
        digests[place] = None;
        drop_block(place, blocks);
        count += 1;
        next = node.parent();
    }
    count
}

impl Drop for Marks {
    /// Keeps the fields out of the proofs of callers that drop marks.
    fn drop(self) {
        let Marks {
            format: _format,
            digests: _digests,
            clean: _clean,
            blocks: _blocks,
            whole: _whole,
        } = self;
    }
}
