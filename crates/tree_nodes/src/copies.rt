//! Copies of the digests of siblings, which marks share with the digests that were taken of them.
ghost use Rattle.std.specs.Prelude.{◌≡◌, ◌+◌, ◌*◌, ◌<◌, ◌≤◌, ◌^◌, ℕ, List, Option, Some, None, ⊤, IsTrue, MatchOption, length, map, drop, replicate, slice_set};
ghost use Rattle.vclock.specs.Answer.{Answers};
ghost use Rattle.tree_nodes.specs.Nodes.{node_count, are_clean};
ghost use Rattle.tree_nodes.specs.Blocks.{joined, AreOf, IsCopy, AreCopies};

use crate::digest::Digest;
use crate::digest_block::DigestBlock;
use crate::ready::{children_at, clean_digests};
use crate::shared_digests::block_count;
use std::alloc::Global;
use vclock::{Format, Refusal};

/// Returns no copy for each block of a tree. Refused: NoMemory.
pub(crate) fn no_blocks(alloc: Global, format: Format) -> Result<Vec<Option<DigestBlock>>, Refusal>
    ensures { Answers result None (λ blocks. AreCopies (replicate (node_count format) None) blocks.items) }
{
    let count = block_count(format);
    let mut blocks = Vec::with_capacity(alloc, count)?;
    for _ in 0..count {
        blocks.push(None)?;
    }
    Ok(blocks)
}

/// Drops the copy of the block that has the node at a place. The root is in no block.
pub(crate) fn drop_block(place: usize, blocks: &mut [Option<DigestBlock>])
    requires { place < 16 * length blocks.old + 1 }
    ensures { (digests : List (Option (List ℕ))) (digest : Option (List ℕ)) → AreCopies digests blocks.old
        → AreCopies (slice_set digests place digest) blocks.new }
{
    if let Some(before) = place.checked_sub(1) {
        blocks[before / 16] = None;
    }
}

/// Makes the copies that are missing, of the digests of a clean tree. Refused: NoMemory.
pub(crate) fn fill_blocks(
    alloc: Global,
    digests: &[Option<Digest>],
    blocks: &mut [Option<DigestBlock>],
) -> Result<(), Refusal>
    requires few { length digests.now < 2 ^ 32 }
    requires clean { IsTrue (are_clean digests.now) }
    requires copies { AreCopies digests.now blocks.old }
    ensures answers { Answers result None (λ _. ⊤) }
    ensures copies { AreCopies digests.now blocks.new }
{
    for place in 0..blocks.len() {
        fill_block(alloc, digests, place, &mut blocks[place])?;
    }
    Ok(())
}

/// Makes the copy of the digests of the children of the node at a place, if it is missing. Refused: NoMemory.
fn fill_block(
    alloc: Global,
    digests: &[Option<Digest>],
    place: usize,
    copy: &mut Option<DigestBlock>,
) -> Result<(), Refusal>
    requires small { place < 2 ^ 32 }
    requires within { 16 * place + 17 ≤ length digests.now }
    requires clean { IsTrue (are_clean digests.now) }
    requires copy { MatchOption copy.old ⊤ (IsCopy digests.now place) }
    ensures answers { Answers result None (λ _. ⊤) }
    ensures copy { MatchOption copy.new ⊤ (IsCopy digests.now place) }
{
    if copy.is_none() {
        *copy = Some(new_block(alloc, digests, place)?);
    }
    Ok(())
}

/// Returns the blocks of the digests of a clean tree, by the place of their parents: shares of the copies, and new
/// blocks for those that are missing. Refused: NoMemory.
pub(crate) fn share_blocks(
    alloc: Global,
    digests: &[Option<Digest>],
    blocks: &[Option<DigestBlock>],
) -> Result<Vec<DigestBlock>, Refusal>
    requires few { length digests.now < 2 ^ 32 }
    requires clean { IsTrue (are_clean digests.now) }
    requires copies { AreCopies digests.now blocks.now }
    ensures { Answers result None
        (λ shared. AreOf 16 shared.items × (map Some (joined shared.items) ≡ drop 1 digests.now)) }
{
    let mut shared = Vec::with_capacity(alloc, blocks.len())?;
    for place in 0..blocks.len() {
        shared.push(share_block(alloc, digests, place, &blocks[place])?)?;
    }
    Ok(shared)
}

/// Returns the block of the digests of the children of the node at a place: a share of the copy, or a new block if it
/// is missing. Refused: NoMemory.
fn share_block(
    alloc: Global,
    digests: &[Option<Digest>],
    place: usize,
    copy: &Option<DigestBlock>,
) -> Result<DigestBlock, Refusal>
    requires small { place < 2 ^ 32 }
    requires within { 16 * place + 17 ≤ length digests.now }
    requires clean { IsTrue (are_clean digests.now) }
    requires copy { MatchOption copy.now ⊤ (IsCopy digests.now place) }
    ensures { Answers result None (IsCopy digests.now place) }
{
    match copy {
        Some(block) => Ok(block.clone()?),
        None => new_block(alloc, digests, place),
    }
}

/// Makes the block of the digests of the children of the node at a place, in a clean tree. Refused: NoMemory.
fn new_block(
    alloc: Global,
    digests: &[Option<Digest>],
    place: usize,
) -> Result<DigestBlock, Refusal>
    requires small { place < 2 ^ 32 }
    requires within { 16 * place + 17 ≤ length digests.now }
    requires clean { IsTrue (are_clean digests.now) }
    ensures { Answers result None (IsCopy digests.now place) }
{
    let Some(digests) = clean_digests(children_at(digests, place)) else {
        unreachable!()
    };
    DigestBlock::new(alloc, digests)
}
