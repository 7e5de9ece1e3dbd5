//! The tree over rows, by the definitions.
ghost use Rattle.std.specs.Prelude.{◌≤◌};

use crate::plain::{KEYS, PlainRange, PlainVersion, key_bytes};
use crate::trouble::Trouble;
use sha2::{Digest as _, Sha256};
use std::alloc::Global;
use tree_nodes::{Digest, NodeAt};
use vclock::Format;

/// A key with its held versions, and its leaf.
#[derive(Drop)]
pub struct PlainRow {
    pub key: u64,
    pub leaf: u16,
    pub versions: Vec<PlainVersion>,
}

/// All rows of a range, by rising key, and the digests of its nodes: a list for each height, the leaves first.
#[derive(Drop)]
pub struct Tree {
    format: Format,
    pub rows: Vec<PlainRow>,
    levels: Vec<Vec<Digest>>,
}

/// Returns the depth of the leaves.
pub fn leaf_depth(format: Format) -> u8
    ensures { result ≤ 3 }
{
    match format {
        Format::One => 2,
        Format::Two => 3,
    }
}

/// Returns the number of nodes at a depth.
pub fn width(depth: u8) -> u16 {
    match depth {
        0 => 1,
        1 => 16,
        2 => 256,
        _ => 4_096,
    }
}

/// Returns the nodes at which two trees of one format differ, depth by depth and by rising index.
pub fn differing(alloc: Global, own: &Tree, other: &Tree) -> Result<Vec<NodeAt>, Trouble> {
    let mut nodes = Vec::new(alloc);
    for depth in 0..leaf_depth(own.format) + 1 {
        for index in 0..width(depth) {
            if let Some(node) = NodeAt::new(depth, index)
                && own.digest_at(node) != other.digest_at(node)
            {
                nodes.push(node)?;
            }
        }
    }
    Ok(nodes)
}

/// Returns a child of a node, or `None` if no tree has it.
pub fn child(node: NodeAt, j: u16) -> Option<NodeAt> {
    let index = node.index.wrapping_mul(16).wrapping_add(j);
    NodeAt::new(node.depth.wrapping_add(1), index)
}

impl Tree {
    /// Returns the tree over the rows of a range.
    pub fn new(alloc: Global, range: &PlainRange) -> Result<Tree, Trouble> {
        let rows = rows_of(alloc, range)?;
        let mut levels = Vec::new(alloc);
        let mut level = leaf_level(alloc, range.format, &rows)?;
        for _ in 0..leaf_depth(range.format) {
            let above = level_above(alloc, range.format, &level)?;
            levels.push(level)?;
            level = above;
        }
        levels.push(level)?;
        Ok(Tree {
            format: range.format,
            rows,
            levels,
        })
    }

    /// Returns the format.
    pub fn format(&self) -> Format {
        self.format
    }

    /// Returns the digest of a node, or `None` if the tree doesn't have it.
    pub fn digest_at(&self, node: NodeAt) -> Option<Digest> {
        let height = leaf_depth(self.format).checked_sub(node.depth)?;
        let level = self.levels.get(usize::from(height))?;
        level.get(usize::from(node.index)).copied()
    }

    /// Returns the digest of the root.
    pub fn root(&self) -> Digest {
        match NodeAt::new(0, 0) {
            Some(root) => self.digest_at(root).unwrap_or([0; 32]),
            None => [0; 32],
        }
    }

    /// Returns the text of a node.
    pub fn text(&self, alloc: Global, node: NodeAt) -> Result<Vec<u8>, Trouble> {
        if node.depth == leaf_depth(self.format) {
            return leaf_text(alloc, self.format, &self.rows, node.index);
        }
        let mut text = Vec::new(alloc);
        text.push(inner_byte(self.format))?;
        for j in 0..16u16 {
            if let Some(child) = child(node, j)
                && let Some(digest) = self.digest_at(child)
            {
                text.extend_from_slice(&digest)?;
            }
        }
        Ok(text)
    }

    /// Returns the parts of a node's text after its first byte: the rows of a leaf, or the digests of an inner node's
    /// children.
    pub fn parts(&self, alloc: Global, node: NodeAt) -> Result<Vec<Vec<u8>>, Trouble> {
        let mut parts = Vec::new(alloc);
        if node.depth == leaf_depth(self.format) {
            for row in &self.rows {
                if row.leaf == node.index {
                    let mut text = Vec::new(alloc);
                    put_row(self.format, row, &mut text)?;
                    parts.push(text)?;
                }
            }
            return Ok(parts);
        }
        for digest in self.text(alloc, node)?.get(1..).unwrap_or(&[]).chunks(32) {
            parts.push(Vec::from_slice(alloc, digest)?)?;
        }
        Ok(parts)
    }
}

/// Returns the rows of a range.
fn rows_of(alloc: Global, range: &PlainRange) -> Result<Vec<PlainRow>, Trouble> {
    let mut rows = Vec::new(alloc);
    for key in 0..KEYS {
        let versions = range.held(alloc, key)?;
        if !versions.is_empty() {
            let leaf = range.leaf_of(key);
            rows.push(PlainRow {
                key,
                leaf,
                versions,
            })?;
        }
    }
    Ok(rows)
}

/// Returns the first byte of the text of a node with children.
pub fn inner_byte(format: Format) -> u8 {
    match format {
        Format::One => 1,
        Format::Two => 3,
    }
}

/// Returns the text of a leaf, from its rows.
fn leaf_text(
    alloc: Global,
    format: Format,
    rows: &[PlainRow],
    leaf: u16,
) -> Result<Vec<u8>, Trouble> {
    let mut text = Vec::new(alloc);
    text.push(if format == Format::One { 0 } else { 2 })?;
    for row in rows {
        if row.leaf == leaf {
            put_row(format, row, &mut text)?;
        }
    }
    Ok(text)
}

/// Writes the text of a row.
fn put_row(format: Format, row: &PlainRow, text: &mut Vec<u8>) -> Result<(), Trouble> {
    let key = key_bytes(row.key);
    put_count(key.len(), text)?;
    text.extend_from_slice(key)?;
    put_count(row.versions.len(), text)?;
    for version in &row.versions {
        version.put_text(format, text)?;
    }
    Ok(())
}

/// Writes a count in two bytes.
fn put_count(count: usize, text: &mut Vec<u8>) -> Result<(), Trouble> {
    let count = u16::try_from(count).unwrap_or(u16::MAX);
    text.extend_from_slice(&count.to_be_bytes())?;
    Ok(())
}

/// Returns the digests of the leaves.
fn leaf_level(alloc: Global, format: Format, rows: &[PlainRow]) -> Result<Vec<Digest>, Trouble> {
    let empty = Sha256::digest(&leaf_text(alloc, format, &[], 0)?);
    let mut level = Vec::new(alloc);
    for leaf in 0..width(leaf_depth(format)) {
        if has_leaf(rows, leaf) {
            level.push(Sha256::digest(&leaf_text(alloc, format, rows, leaf)?))?;
        } else {
            level.push(empty)?;
        }
    }
    Ok(level)
}

/// Returns true if some row is in a leaf.
fn has_leaf(rows: &[PlainRow], leaf: u16) -> bool {
    for row in rows {
        if row.leaf == leaf {
            return true;
        }
    }
    false
}

/// Returns the digests of the nodes above a level. A text that equals the previous one isn't hashed again.
fn level_above(alloc: Global, format: Format, below: &[Digest]) -> Result<Vec<Digest>, Trouble> {
    let mut level = Vec::new(alloc);
    let mut last = Vec::new(alloc);
    let mut digest = [0; 32];
    for children in below.chunks(16) {
        let text = joined(alloc, format, children)?;
        if text != last {
            digest = Sha256::digest(&text);
            last = text;
        }
        level.push(digest)?;
    }
    Ok(level)
}

/// Returns the text of a node whose children have these digests.
fn joined(alloc: Global, format: Format, children: &[Digest]) -> Result<Vec<u8>, Trouble> {
    let mut text = Vec::with_capacity(alloc, 513)?;
    text.push(inner_byte(format))?;
    for digest in children {
        text.extend_from_slice(digest)?;
    }
    Ok(text)
}
