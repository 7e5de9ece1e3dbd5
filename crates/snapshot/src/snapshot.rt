//! Snapshots.
ghost use Rattle.std.specs.Prelude.{◌≡◌, ◌-◌, ◌<◌, ◌≤◌, ◌^◌, min, None};
ghost use Rattle.std.specs.List.{AllByRecursion, flat_map};
ghost use Rattle.std.specs.Arc.{arc_value};
ghost use Rattle.vclock.specs.Answer.{Answers};
ghost use Rattle.vclock.specs.Format.{format_number};
ghost use Rattle.version_set.specs.Kind.{value_fault};
ghost use Rattle.key_ring.specs.Places.{leaf_bits};
ghost use Rattle.row_bytes.specs.Rows.{row_text};
ghost use Rattle.hash_tree.specs.Leaves.{rows_in_leaf, versions_in};
ghost use Rattle.hash_tree.specs.Sizes.{rows_len};
ghost use Rattle.tree_nodes.specs.Nodes.{IsNode, tree_depth};
ghost use Rattle.hash_tree.specs.Texts.{inner_text, leaf_text};
ghost use Rattle.snapshot.specs.RowMaps.{IsRowMap, leaf_in, text_at, digest_at, root_of};
ghost use Rattle.snapshot.specs.Snapshots.{IsSnapshot, map_of, answer_fault, leaf_fault};

use hash_tree::{Leaves, SharedLeaf, inner_text};
use key_ring::{leaf_count, place};
use std::alloc::Global;
use std::marker::Model;
use std::sync::Arc;
use tree_nodes::{Digest, Hashed, NodeAt, SharedDigests, Text, tree_depth};
use vclock::{Format, Refusal};
use version_set::Held;
use walk_messages::{Ask, Offer};

/// All rows of a range at one moment, with the digest of each node of the tree over them. It shares leaves and digests
/// with the range, which copies a shared part before changing it, so a snapshot never changes. A node offers a snapshot
/// to its partners and answers their asks from it while writes continue. Only `new`, `of_shared`, `rows_text`, `answer`
/// and `hashed_answer` allocate.
///
/// ```
/// let snapshot = Snapshot::new(alloc, Format::One, 3, 5, leaves, digests)?;
/// expect_head(&snapshot, &root)?;
/// ```
#[derive(Debug)]
pub struct Snapshot {
    format: Format,
    bits: u8,
    range: u16,
    leaves: Leaves,
    digests: SharedDigests,
}

impl Model for Snapshot {
    ghost use Rattle.snapshot.specs.RowMaps.{RowMap};
    ghost use Rattle.snapshot.specs.Snapshots.{IsSnapshot, map_of};

    ghost Value = { RowMap };

    ghost view = { λ s. map_of s.format s.bits s.range s.leaves };

    ghost invariant = { λ s. IsSnapshot (map_of s.format s.bits s.range s.leaves) s.leaves s.digests };
}

impl Snapshot {
    /// Creates the snapshot of a range in a ring of 2^bits ranges: its leaves by ascending index, and the digests of
    /// all nodes, by depth and then by index. Refused: NoMemory.
    pub fn new(
        alloc: Global,
        format: Format,
        bits: u8,
        range: u16,
        leaves: Vec<SharedLeaf>,
        digests: Vec<Digest>,
    ) -> Result<Arc<Snapshot, Global>, Refusal>
        requires { IsSnapshot (map_of format bits range leaves.items) leaves.items digests.items }
        ensures { Answers result None (λ s. arc_value s ≡ map_of format bits range leaves.items) }
    {
        let leaves = Leaves::from_vec(alloc, format, leaves)?;
        let digests = SharedDigests::from_vec(alloc, format, digests)?;
        Snapshot::of_shared(alloc, format, bits, range, leaves, digests)
    }

    /// Creates the snapshot of a range in a ring of 2^bits ranges from its leaves and the digests of all nodes, which
    /// others may own as well. Refused: NoMemory.
    pub fn of_shared(
        alloc: Global,
        format: Format,
        bits: u8,
        range: u16,
        leaves: Leaves,
        digests: SharedDigests,
    ) -> Result<Arc<Snapshot, Global>, Refusal>
        requires { IsSnapshot (map_of format bits range leaves) leaves digests }
        ensures { Answers result None (λ s. arc_value s ≡ map_of format bits range leaves) }
    {
        let snapshot = Snapshot {
            format,
            bits,
            range,
            leaves,
            digests,
        };
        Ok(Arc::new(alloc, snapshot)?)
    }

    /// Returns the format of the rows and of the tree.
    pub fn format(&self) -> Format
        ensures format { result ≡ self.now.format }
        ensures valid { IsRowMap self.now }
    {
        self.format
    }

    /// Returns the number of bits of a range's number, at most 8.
    pub fn bits(&self) -> u8
        ensures { result ≡ self.now.bits }
    {
        self.bits
    }

    /// Returns the number of the range.
    pub fn range(&self) -> u16
        ensures { result ≡ self.now.range }
    {
        self.range
    }

    /// Returns the texts of the rows of a leaf, in ascending order of key: the text of the leaf without its first byte.
    ///
    /// Refused, in order: BadMessage (the tree has no such leaf), NoMemory.
    pub fn rows_text(&self, alloc: Global, leaf: u16) -> Result<Vec<u8>, Refusal>
        ensures { Answers result (leaf_fault self.now.format leaf)
            (λ text. text.items ≡ flat_map (row_text self.now.format)
            (rows_in_leaf (leaf_in self.now) leaf self.now.rows)) }
    {
        if leaf >= leaf_count(self.format) {
            return Err(Refusal::BadMessage);
        }
        let mut text = Vec::new(alloc);
        self.rows(leaf).put_rows(&mut text)?;
        Ok(text)
    }

    /// Returns the length in bytes of the texts of all rows, at most 2^64 - 1. Reads no row, but each chunk of 15.
    pub fn rows_len(&self) -> u64
        ensures { result ≡ min (rows_len self.now.format self.now.rows) (2 ^ 64 - 1) }
    {
        self.leaves.rows_len()
    }

    /// Returns the digest of the root.
    pub fn root(&self) -> Digest
        ensures { result ≡ root_of self.now }
    {
        self.digests.get(NodeAt::root())
    }

    /// Returns the offer of these rows to another replica. The replica's offers differ by `number`.
    pub fn offer(&self, number: u32) -> Offer
        ensures number { result.offer ≡ number }
        ensures format { result.format ≡ format_number self.now.format }
        ensures range { result.range ≡ self.now.range }
        ensures root { result.root ≡ root_of self.now }
        ensures valid { IsRowMap self.now }
    {
        Offer {
            offer: number,
            format: self.format.number(),
            range: self.range as u8,
            root: self.root(),
        }
    }

    /// Returns the digest of a node of the tree.
    pub fn digest_at(&self, node: NodeAt) -> Digest
        requires { node.depth ≤ tree_depth self.now.format }
        ensures { result ≡ digest_at self.now node.depth node.index }
    {
        // A look at a field shows that the index is one of this depth.
        let _ = &node.depth;
        self.digests.get(node)
    }

    /// Returns a leaf: its rows in ascending order of key, and their text.
    pub fn rows(&self, leaf: u16) -> &SharedLeaf
        requires { leaf < 2 ^ leaf_bits self.now.format }
        ensures { result.now ≡ record { format = self.now.format; rows = rows_in_leaf (leaf_in self.now) leaf self.now.rows } }
    {
        self.leaves.get(leaf)
    }

    /// Returns the versions of a key, by a binary search in its leaf: none if the key has no row here. The key may have
    /// any length. Doesn't allocate.
    pub fn find(&self, key: &[u8]) -> Held<'_>
        ensures held { result ≡ versions_in key.now self.now.rows }
        ensures fit { AllByRecursion (λ v. value_fault self.now.format v.kind v.value ≡ None) (versions_in key.now self.now.rows) }
    {
        // Called only for its clause: the rows have a tree.
        let format = self.format();
        let leaf = place(format, self.bits, key).leaf;
        Held::new(self.rows(leaf).find(key))
    }

    /// Returns the text of the node in an ask.
    ///
    /// Refused, in order: BadMessage (the tree has no such node), NoMemory.
    pub fn answer(&self, alloc: Global, ask: Ask) -> Result<Vec<u8>, Refusal>
        ensures { Answers result (answer_fault self.now ask.node)
            (λ text. text.items ≡ text_at self.now ask.node.depth ask.node.index) }
    {
        let node = ask.node;
        if node.depth > tree_depth(self.format) {
            return Err(Refusal::BadMessage);
        }
        if node.depth == tree_depth(self.format) {
            return text_of(alloc, self.rows(node.index));
        }
        inner_text(alloc, self.format, self.children(node))
    }

    /// Returns the text of the node in an ask with its digest, which isn't computed again. Refused, in order:
    /// BadMessage (the tree has no such node), NoMemory.
    pub fn hashed_answer(&self, alloc: Global, ask: Ask) -> Result<Hashed, Refusal>
        ensures { Answers result (answer_fault self.now ask.node)
            (λ text. text ≡ text_at self.now ask.node.depth ask.node.index) }
    {
        let at = ask.node;
        let text = self.answer(alloc, ask)?;
        Ok(Hashed::known(Text::from(text), self.digest_at(at)))
    }

    /// Returns the digests of the children of a node that isn't a leaf, in order.
    fn children(&self, node: NodeAt) -> &[Digest; 16]
        requires node { IsNode 3 node }
        requires inner { node.depth < tree_depth self.now.format }
        ensures { inner_text self.now.format result.now ≡ text_at self.now node.depth node.index }
    {
        self.digests.children(node)
    }
}

/// Returns the text of a leaf. Refused: NoMemory.
fn text_of(alloc: Global, leaf: &SharedLeaf) -> Result<Vec<u8>, Refusal>
    ensures { Answers result None (λ text. text.items ≡ leaf_text leaf.now.format leaf.now.rows) }
{
    let mut text = Vec::new(alloc);
    leaf.put_text(&mut text)?;
    Ok(text)
}

impl Drop for Snapshot {
    /// Keeps the fields out of the proofs of callers that drop a snapshot.
    fn drop(self) {
        let Snapshot {
            format: _format,
            bits: _bits,
            range: _range,
            leaves: _leaves,
            digests: _digests,
        } = self;
    }
}
