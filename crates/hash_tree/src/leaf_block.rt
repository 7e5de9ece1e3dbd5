//! Consecutive leaves of a range that several lists of leaves may share.
ghost use Rattle.std.specs.Prelude.{◌≡◌, ◌-◌, ◌<◌, ◌^◌, [], None, length, min, replicate, slice_index_or, slice_set};
ghost use Rattle.std.specs.List.{sum_by};
ghost use Rattle.vclock.specs.Answer.{Answers};
ghost use Rattle.vclock.specs.Bytes.{key_fault};
ghost use Rattle.vclock.specs.Outcome.{Does, gives};
ghost use Rattle.version_set.specs.Kind.{value_fault};
ghost use Rattle.version_set.specs.Version.{offer_fault};
ghost use Rattle.hash_tree.specs.Leaves.{Bucket, versions_in};
ghost use Rattle.hash_tree.specs.Blocks.{nth_leaf, leaf_with_offer};
ghost use Rattle.hash_tree.specs.Sizes.{leaf_len};

use crate::shared_leaf::SharedLeaf;
use std::alloc::{AllocError, Global};
use std::marker::Model;
use std::sync::Arc;
use vclock::{Bytes, Format, Refusal};
use version_set::Version;

/// The number of leaves of a block.
pub(crate) const BLOCK_LEN: usize = 64;

/// 64 consecutive leaves of a range. Copies of the list of leaves share them until one is changed. On error a block is
/// unchanged.
#[derive(Debug)]
pub(crate) struct LeafBlock {
    leaves: Arc<Vec<SharedLeaf>, Global>,
}

impl Model for LeafBlock {
    ghost use Rattle.std.specs.Prelude.{◌≡◌, length, List};
    ghost use Rattle.std.specs.Arc.{arc_value};
    ghost use Rattle.std.specs.Vec.{vec_items};
    ghost use Rattle.hash_tree.specs.Leaves.{Bucket};

    ghost Value = { List Bucket };

    ghost view = { λ b. vec_items (arc_value b.leaves) };

    ghost invariant = { λ b. length (vec_items (arc_value b.leaves)) ≡ 64 };
}

impl Clone for LeafBlock {
    ghost use Rattle.std.specs.Prelude.{◌≡◌};

    ghost is_clone = { λ block copy. copy ≡ block };

    /// Adds an owner to the leaves, and returns its handle. Fails only if memory is needed. Copies no leaf.
    fn clone(&self) -> Result<LeafBlock, AllocError> {
        Ok(LeafBlock {
            leaves: Arc::try_clone(&self.leaves)?,
        })
    }
}

impl LeafBlock {
    /// Creates a block of leaves without rows. Refused: NoMemory.
    pub(crate) fn empty(alloc: Global, format: Format) -> Result<LeafBlock, Refusal>
        ensures { Answers result None (λ block. block ≡ replicate 64 (record { format = format; rows = [] })) }
    {
        let mut leaves = Vec::with_capacity(alloc, BLOCK_LEN)?;
        for _ in 0..BLOCK_LEN {
            leaves.push(SharedLeaf::empty(format))?;
        }
        Ok(LeafBlock {
            leaves: Arc::new(alloc, leaves)?,
        })
    }

    /// Creates a block that shares 64 leaves. Refused: NoMemory. Copies no row.
    pub(crate) fn of(alloc: Global, leaves: &[SharedLeaf]) -> Result<LeafBlock, Refusal>
        requires { length leaves.now ≡ 64 }
        ensures { Answers result None (λ block. block ≡ leaves.now) }
    {
        Ok(LeafBlock {
            leaves: Arc::new(alloc, Vec::from_clones(alloc, leaves)?)?,
        })
    }

    /// Returns the leaf at an index.
    pub(crate) fn get(&self, at: usize) -> &SharedLeaf
        requires { at < 64 }
        ensures { (d : Bucket) → result.now ≡ slice_index_or self.now at d }
    {
        &self.leaves[at]
    }

    /// Returns the length in bytes of the texts of all rows, at most 2^64 - 1. Reads no row, but each chunk.
    pub(crate) fn rows_len(&self) -> u64
        ensures { result ≡ min (sum_by leaf_len self.now) (2 ^ 64 - 1) }
    {
        leaves_len(&self.leaves)
    }

    /// Replaces the leaf at an index. If the leaves have other owners, a block that shares the others is changed.
    /// Refused: NoMemory.
    pub(crate) fn set(&mut self, at: usize, leaf: SharedLeaf) -> Result<(), Refusal>
        requires { at < 64 }
        ensures { Does result self.old self.new (gives tt (slice_set self.old at leaf)) }
    {
        Arc::make_mut(&mut self.leaves)?[at] = leaf;
        Ok(())
    }

    /// Offers a version to the set of a key in the leaf at an index. If the leaves have other owners, a block that
    /// shares the others is changed. Refused: NoMemory.
    pub(crate) fn offer(
        &mut self,
        alloc: Global,
        at: usize,
        key: &Bytes,
        version: Version,
    ) -> Result<(), Refusal>
        requires at { at < 64 }
        requires key { key_fault key.now ≡ None }
        requires value { value_fault (nth_leaf self.old at).format version.kind version.value ≡ None }
        requires room { offer_fault version (versions_in key.now (nth_leaf self.old at).rows) ≡ None }
        ensures offered { Does result self.old self.new
            (gives tt (slice_set self.old at (leaf_with_offer key.now version (nth_leaf self.old at)))) }
        ensures valid { length self.new ≡ 64 }
    {
        Arc::make_mut(&mut self.leaves)?[at].offer(alloc, key, version)
    }
}

/// Returns the length in bytes of the texts of the rows of leaves, at most 2^64 - 1.
#[tactic(auto, using(crate::proofs::SizeLaws::one_leaf_more))]
fn leaves_len(leaves: &[SharedLeaf]) -> u64
    ensures { result ≡ min (sum_by leaf_len leaves.now) (2 ^ 64 - 1) }
{
    let mut len = 0u64;
    for leaf in leaves {
        len = len.saturating_add(leaf.rows_len());
    }
    len
}

impl Drop for LeafBlock {
    /// Keeps the fields out of the proofs of callers that drop a block.
    fn drop(self) {
        let LeafBlock { leaves: _leaves } = self;
    }
}
