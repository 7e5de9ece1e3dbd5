//! The tree of a range.
ghost use Rattle.std.specs.Prelude.{◌≡◌, ◌-◌, ◌<◌, ◌≤◌, ◌^◌, [], None, min, slice_set};
ghost use Rattle.std.specs.List.{flat_map};
ghost use Rattle.vclock.specs.Answer.{Answers};
ghost use Rattle.vclock.specs.Bytes.{key_fault};
ghost use Rattle.vclock.specs.Outcome.{Does, gives};
ghost use Rattle.version_set.specs.Kind.{value_fault};
ghost use Rattle.version_set.specs.Version.{offer_fault};
ghost use Rattle.key_ring.specs.Places.{range_at, leaf_bits};
ghost use Rattle.row_bytes.specs.Rows.{row_text};
ghost use Rattle.hash_tree.specs.Leaves.{rows_in_leaf, versions_in};
ghost use Rattle.hash_tree.specs.Sizes.{rows_len};
ghost use Rattle.snapshot.specs.RowMaps.{RowMap, leaf_in};
ghost use Rattle.snapshot.specs.Snapshots.{leaf_fault, leaves_of};
ghost use Rattle.range_tree.specs.Trees.{bare, bucket_of, offered_to, with_rows, IsChange};

use hash_tree::{Leaves, SharedLeaf};
use key_ring::leaf_count;
use std::alloc::Global;
use std::marker::Model;
use tree_nodes::Marks;
use vclock::{Bytes, Format, Refusal};
use version_set::{Held, Version};

mod bulk;
mod jobs;
mod snapshots;

/// The rows of a range in the leaves of its tree, and the digests of the tree's clean nodes. A clean node's digest is
/// the digest of its text for the rows now. A change of a leaf makes the leaf and the nodes above it dirty.
///
/// ```
/// let home = place(Format::One, 0, key);
/// let held = tree.find(home.leaf, key);
/// ```
///
/// ```
/// tree.offer(alloc, home.leaf, &key, version)?;
/// let hashed = tree.rehash_here(alloc)?;
/// let snapshot = tree.snapshot(alloc)?;
/// ```
pub struct Tree {
    format: Format,
    bits: u8,
    range: u16,
    leaves: Leaves,
    marks: Marks,
}

impl Model for Tree {
    ghost use Rattle.std.specs.Prelude.{◌≡◌};
    ghost use Rattle.snapshot.specs.Snapshots.{map_of};
    ghost use Rattle.range_tree.specs.Trees.{RangeTree, IsRangeTree, AreLeaves};

    ghost Value = { RangeTree };

    ghost view = { λ t. record { map = map_of t.format t.bits t.range t.leaves; marks = t.marks.digests } };

    ghost invariant = { λ t. IsRangeTree (record { map = map_of t.format t.bits t.range t.leaves; marks = t.marks.digests })
        × AreLeaves (map_of t.format t.bits t.range t.leaves) t.leaves
        × (t.marks.format ≡ t.format) };
}

impl Tree {
    /// Creates the tree of a range in a ring of 2^bits ranges, at most 256, without rows. The range is below 2^bits.
    /// Every node is dirty: 273, or 4,369 in format 2. Refused: NoMemory.
    pub fn empty(alloc: Global, format: Format, bits: u8, range: u16) -> Result<Tree, Refusal>
        requires few { bits ≤ 8 }
        requires range { range < 2 ^ bits }
        ensures { Answers result None (λ tree. tree ≡ bare format bits range) }
    {
        Ok(Tree {
            format,
            bits,
            range,
            leaves: Leaves::empty(alloc, format)?,
            marks: Marks::new(alloc, format)?,
        })
    }

    /// Makes another owner of the same rows, with a copy of the digests. No row is copied. Refused: NoMemory.
    pub fn share(&self, alloc: Global) -> Result<Tree, Refusal>
        ensures { Answers result None (λ tree. tree ≡ self.now) }
    {
        Ok(Tree {
            format: self.format,
            bits: self.bits,
            range: self.range,
            leaves: self.leaves.share()?,
            marks: self.marks.try_clone(alloc)?,
        })
    }

    /// Returns the rows of a leaf, below 256, or below 4,096 in format 2, in ascending order of key. Doesn't allocate.
    pub fn rows(&self, leaf: u16) -> &SharedLeaf
        requires { leaf < 2 ^ leaf_bits self.now.map.format }
        ensures { result.now ≡ bucket_of self.now.map leaf }
    {
        self.leaves.get(leaf)
    }

    /// Returns the texts of the rows of a leaf, in ascending order of key, whether the leaf is dirty or not: the text
    /// of the leaf without its first byte.
    ///
    /// Refused, in order: BadMessage (the tree has no such leaf), NoMemory.
    pub fn rows_text(&self, alloc: Global, leaf: u16) -> Result<Vec<u8>, Refusal>
        ensures { Answers result (leaf_fault self.now.map.format leaf)
            (λ text. text.items ≡ flat_map (row_text self.now.map.format)
            (rows_in_leaf (leaf_in self.now.map) leaf self.now.map.rows)) }
    {
        if leaf >= leaf_count(self.format) {
            return Err(Refusal::BadMessage);
        }
        let mut text = Vec::new(alloc);
        self.rows(leaf).put_rows(&mut text)?;
        Ok(text)
    }

    /// Returns the length in bytes of the texts of all rows, at most 2^64 - 1. Reads each chunk of 15 rows, but no row.
    pub fn rows_len(&self) -> u64
        ensures { result ≡ min (rows_len self.now.map.format self.now.map.rows) (2 ^ 64 - 1) }
    {
        self.leaves.rows_len()
    }

    /// Returns the versions of a key of that leaf, by a binary search. Doesn't allocate.
    pub fn find(&self, leaf: u16, key: &[u8]) -> Held<'_>
        requires { leaf ≡ leaf_in self.now.map key.now }
        ensures { result ≡ versions_in key.now self.now.map.rows }
    {
        Held::new(self.leaves.get(leaf).find(key))
    }

    /// Offers a version to the set of a key of that leaf, which has capacity for it, and makes the leaf and the nodes
    /// above it dirty. Rows with other owners are copied first.
    ///
    /// Refused: NoMemory. On error the tree is unchanged.
    pub fn offer(
        &mut self,
        alloc: Global,
        leaf: u16,
        key: &Bytes,
        version: Version,
    ) -> Result<(), Refusal>
        requires leaf { leaf ≡ leaf_in self.old.map key.now }
        requires here { range_at self.old.map.bits key.now ≡ self.old.map.range }
        requires key { key_fault key.now ≡ None }
        requires value { value_fault self.old.map.format version.kind version.value ≡ None }
        requires room { offer_fault version (versions_in key.now self.old.map.rows) ≡ None }
        ensures { Does result self.old self.new (gives tt (offered_to self.old key.now version)) }
    {
        // Called only for its clause: the version's clock is valid.
        let _valid = version.clock.pairs();
        self.leaves.offer(alloc, leaf, key, version)?;
        self.marks.dirty(leaf);
        Ok(())
    }

    /// Returns the leaves with `new` at an index, below 256, or below 4,096 in format 2. The other leaves are shared
    /// with the tree, which is unchanged. Refused: NoMemory.
    pub fn with_leaf(&self, alloc: Global, leaf: u16, new: SharedLeaf) -> Result<Leaves, Refusal>
        requires { leaf < 2 ^ leaf_bits self.now.map.format }
        ensures { Answers result None (λ leaves. leaves ≡ slice_set (leaves_of self.now.map) leaf new) }
    {
        self.leaves.with_leaf(alloc, leaf, new)
    }

    /// Replaces the leaves by those that `with_leaf` made for that index, whose rows belong to this range. Makes the
    /// leaf and the nodes above it dirty. Doesn't allocate.
    pub fn change_leaf(&mut self, leaf: u16, leaves: Leaves)
        requires { (m : RowMap) × IsChange self.old.map leaf leaves m }
        ensures { (m : RowMap) → IsChange self.old.map leaf leaves m → self.new ≡ with_rows self.old leaf m }
    {
        self.leaves = leaves;
        self.marks.dirty(leaf);
    }
}

impl Drop for Tree {
    /// Keeps the fields out of the proofs of callers that drop a tree.
    fn drop(self) {
        let Tree {
            format: _format,
            bits: _bits,
            range: _range,
            leaves: _leaves,
            marks: _marks,
        } = self;
    }
}
