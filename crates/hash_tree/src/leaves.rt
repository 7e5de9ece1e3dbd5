//! The leaves of a range, in blocks that a range and its snapshots share.
ghost use Rattle.std.specs.Prelude.{◌≡◌, ◌*◌, ◌-◌, ◌<◌, ◌^◌, [], None, length, min, replicate, slice_index_or, slice_set};
ghost use Rattle.std.specs.List.{sum_by};
ghost use Rattle.vclock.specs.Answer.{Answers};
ghost use Rattle.vclock.specs.Bytes.{key_fault};
ghost use Rattle.vclock.specs.Outcome.{Does, gives};
ghost use Rattle.version_set.specs.Kind.{value_fault};
ghost use Rattle.version_set.specs.Version.{offer_fault};
ghost use Rattle.hash_tree.specs.Leaves.{Bucket, versions_in};
ghost use Rattle.tree_nodes.specs.Nodes.{tree_depth};
ghost use Rattle.tree_nodes.specs.Blocks.{joined};
ghost use Rattle.hash_tree.specs.Blocks.{nth_leaf, leaf_with_offer};
ghost use Rattle.hash_tree.specs.Sizes.{leaf_len};

use crate::leaf_block::{BLOCK_LEN, LeafBlock};
use crate::shared_leaf::SharedLeaf;
use std::alloc::Global;
use std::marker::Model;
use std::sync::Arc;
use vclock::{Bytes, Format, Refusal};
use version_set::Version;

/// The leaves of a range by ascending index, in blocks of 64, with any number of owners: a range and its snapshots
/// share the blocks and leaves that neither has changed. A change copies the handles of shared ones, at most 64 of
/// blocks and 64 of leaves, and no row of another leaf. On error the leaves are unchanged.
#[derive(Debug)]
pub struct Leaves {
    blocks: Arc<Vec<LeafBlock>, Global>,
}

impl Model for Leaves {
    ghost use Rattle.std.specs.Prelude.{List};
    ghost use Rattle.std.specs.Arc.{arc_value};
    ghost use Rattle.std.specs.Vec.{vec_items};
    ghost use Rattle.hash_tree.specs.Leaves.{Bucket};
    ghost use Rattle.tree_nodes.specs.Blocks.{joined, AreOf};

    ghost Value = { List Bucket };

    ghost view = { λ l. joined (vec_items (arc_value l.blocks)) };

    ghost invariant = { λ l. AreOf 64 (vec_items (arc_value l.blocks)) };
}

impl Leaves {
    /// Creates the leaves of a range without rows: 256, or 4,096 in format 2. Refused: NoMemory.
    pub fn empty(alloc: Global, format: Format) -> Result<Leaves, Refusal>
        ensures { Answers result None
            (λ leaves. leaves ≡ replicate (16 ^ tree_depth format) (record { format = format; rows = [] })) }
    {
        let count = block_count(format);
        let block = LeafBlock::empty(alloc, format)?;
        let mut blocks = Vec::with_capacity(alloc, count)?;
        for _ in 0..count {
            blocks.push(block.clone()?)?;
        }
        Ok(Leaves {
            blocks: Arc::new(alloc, blocks)?,
        })
    }

    /// Creates the leaves of a range from a list of all, by ascending index. Refused: NoMemory. Copies no row.
    pub fn from_vec(
        alloc: Global,
        format: Format,
        leaves: Vec<SharedLeaf>,
    ) -> Result<Leaves, Refusal>
        requires { length leaves.items ≡ 16 ^ tree_depth format }
        ensures { Answers result None (λ all. all ≡ leaves.items) }
    {
        let count = block_count(format);
        let mut blocks = Vec::with_capacity(alloc, count)?;
        for number in 0..count {
            let first = BLOCK_LEN * number;
            blocks.push(LeafBlock::of(alloc, &leaves[first..first + BLOCK_LEN])?)?;
        }
        Ok(Leaves {
            blocks: Arc::new(alloc, blocks)?,
        })
    }

    /// Returns the leaf with an index. Doesn't allocate.
    #[tactic(auto, using(tree_nodes::proofs::BlockLaws::number_within))]
    pub fn get(&self, leaf: u16) -> &SharedLeaf
        requires { leaf < length self.now }
        ensures { (d : Bucket) → result.now ≡ slice_index_or self.now leaf d }
    {
        let leaf = leaf as usize;
        self.blocks[leaf / BLOCK_LEN].get(leaf % BLOCK_LEN)
    }

    /// Returns the length in bytes of the texts of all rows, at most 2^64 - 1. Reads no row, but each chunk.
    pub fn rows_len(&self) -> u64
        ensures { result ≡ min (sum_by leaf_len self.now) (2 ^ 64 - 1) }
    {
        blocks_len(&self.blocks)
    }

    /// Adds an owner to the leaves, and returns its handle. Refused: NoMemory. Copies no block.
    pub fn share(&self) -> Result<Leaves, Refusal>
        ensures { Answers result None (λ shared. shared ≡ self.now) }
    {
        Ok(Leaves {
            blocks: Arc::try_clone(&self.blocks)?,
        })
    }

    /// Returns the leaves with another one at an index. All else is shared. Refused: NoMemory.
    #[tactic(auto, using(tree_nodes::proofs::BlockLaws::number_within))]
    pub fn with_leaf(&self, alloc: Global, leaf: u16, new: SharedLeaf) -> Result<Leaves, Refusal>
        requires { leaf < length self.now }
        ensures { Answers result None (λ all. all ≡ slice_set self.now leaf new) }
    {
        let leaf = leaf as usize;
        let mut blocks = Vec::from_clones(alloc, &self.blocks)?;
        blocks[leaf / BLOCK_LEN].set(leaf % BLOCK_LEN, new)?;
        Ok(Leaves {
            blocks: Arc::new(alloc, blocks)?,
        })
    }

    /// Offers a version to the set of a key in the leaf with an index. The set has space for it. Parts with other
    /// owners are copied first, by handles; a leaf without other owners is changed in place. Refused: NoMemory.
    #[tactic(auto, using(tree_nodes::proofs::BlockLaws::number_within))]
    pub fn offer(
        &mut self,
        alloc: Global,
        leaf: u16,
        key: &Bytes,
        version: Version,
    ) -> Result<(), Refusal>
        requires leaf { leaf < length self.old }
        requires key { key_fault key.now ≡ None }
        requires value { value_fault (nth_leaf self.old leaf).format version.kind version.value ≡ None }
        requires room { offer_fault version (versions_in key.now (nth_leaf self.old leaf).rows) ≡ None }
        ensures { Does result self.old self.new
            (gives tt (slice_set self.old leaf (leaf_with_offer key.now version (nth_leaf self.old leaf)))) }
    {
        let leaf = leaf as usize;
        let blocks = Arc::make_mut(&mut self.blocks)?;
        blocks[leaf / BLOCK_LEN].offer(alloc, leaf % BLOCK_LEN, key, version)
    }
}

/// Returns the length in bytes of the texts of the rows of blocks, at most 2^64 - 1.
#[tactic(auto, using(crate::proofs::SizeLaws::one_block_more))]
fn blocks_len(blocks: &[LeafBlock]) -> u64
    ensures { result ≡ min (sum_by leaf_len (joined blocks.now)) (2 ^ 64 - 1) }
{
    let mut len = 0u64;
    for block in blocks {
        len = len.saturating_add(block.rows_len());
    }
    len
}

/// Returns the number of blocks: 4, or 64 in format 2.
fn block_count(format: Format) -> usize
    ensures { 64 * result ≡ 16 ^ tree_depth format }
{
    match format {
        Format::One => 4,
        Format::Two => 64,
    }
}

impl Drop for Leaves {
    /// Keeps the fields out of the proofs of callers that drop leaves.
    fn drop(self) {
        let Leaves { blocks: _blocks } = self;
    }
}
