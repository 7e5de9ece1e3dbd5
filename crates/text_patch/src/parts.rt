//! The parts of a node's text: a leaf's are the texts of its rows, an inner node's are the digests of its children.
ghost use Rattle.std.specs.Prelude.{◌≡◌, ◌++◌, ◌<◌, None, map};
ghost use Rattle.std.specs.List.{AllByRecursion};
ghost use Rattle.vclock.specs.Answer.{Answers};
ghost use Rattle.row_bytes.specs.Rows.{row_text, FitsText};
ghost use Rattle.tree_nodes.specs.Nodes.{tree_depth};
ghost use Rattle.snapshot.specs.Snapshots.{answer_fault};
ghost use Rattle.text_patch.specs.Parts.{parts_at, first_at};

use hash_tree::{inner_byte, leaf_byte};
use row_bytes::{Row, write_row};
use snapshot::Snapshot;
use std::alloc::Global;
use tree_nodes::{NodeAt, Text, tree_depth};
use vclock::{Format, Refusal};

/// Returns the parts of a node's text, in order: joined, they are the text without its first byte.
///
/// Refused, in order: BadMessage (the tree has no such node), NoMemory.
pub fn parts_of(alloc: Global, own: &Snapshot, node: NodeAt) -> Result<Vec<Text>, Refusal>
    ensures { Answers result (answer_fault own.now node) (λ parts. parts.items ≡ parts_at own.now node) }
{
    let depth = tree_depth(own.format());
    if node.depth > depth {
        return Err(Refusal::BadMessage);
    }
    if node.depth == depth {
        rows_of(alloc, own, node)
    } else {
        digests_of(alloc, own, node)
    }
}

/// Returns the texts of the rows of a leaf. Refused: NoMemory.
fn rows_of(alloc: Global, own: &Snapshot, node: NodeAt) -> Result<Vec<Text>, Refusal>
    requires { node.depth ≡ tree_depth own.now.format }
    ensures { Answers result None (λ parts. parts.items ≡ parts_at own.now node) }
{
    let format = own.format();
    let mut parts = Vec::new(alloc);
    let mut runs = own.rows(node.index).runs();
    while let Some(rows) = runs.next_run() {
        put_texts(&mut parts, alloc, format, rows)?;
    }
    Ok(parts)
}

/// Appends the texts of rows. Refused: NoMemory. On error some may have been appended.
fn put_texts(
    parts: &mut Vec<Text>,
    alloc: Global,
    format: Format,
    rows: &[Row],
) -> Result<(), Refusal>
    requires { AllByRecursion (FitsText format) rows.now }
    ensures { Answers result None (λ _. parts.new.items ≡ parts.old.items ++ map (row_text format) rows.now) }
{
    for row in rows {
        parts.push(Text::from(write_row(alloc, format, row)?))?;
    }
    Ok(())
}

/// Returns the digests of the children of an inner node. Refused: NoMemory.
fn digests_of(alloc: Global, own: &Snapshot, node: NodeAt) -> Result<Vec<Text>, Refusal>
    requires { node.depth < tree_depth own.now.format }
    ensures { Answers result None (λ parts. parts.items ≡ parts_at own.now node) }
{
    let mut parts = Vec::with_capacity(alloc, 16)?;
    for number in 0..16u16 {
        let digest = own.digest_at(node.child(number));
        parts.push(Text::copy_of(alloc, &digest)?)?;
    }
    Ok(parts)
}

/// Returns the first byte of a node's text.
pub(crate) fn first_byte(own: &Snapshot, node: NodeAt) -> u8
    ensures { result ≡ first_at own.now node }
{
    let format = own.format();
    if node.depth < tree_depth(format) {
        inner_byte(format)
    } else {
        leaf_byte(format)
    }
}
