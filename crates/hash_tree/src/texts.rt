//! Writing the texts of nodes, as docs/FORMATS.md defines them.
ghost use Rattle.std.specs.Prelude.{◌≡◌, ◌++◌, ◌+◌, ◌<◌, ◌≤◌, ◌∷◌, length, None, OnOk, OnErr};
ghost use Rattle.std.specs.List.{AllByRecursion, flat_map};
ghost use Rattle.std.specs.Vec.{vec_capacity};
ghost use Rattle.vclock.specs.Answer.{Answers};
ghost use Rattle.row_bytes.specs.Rows.{row_text, FitsText};
ghost use Rattle.hash_tree.specs.Chunks.{chunk_text};
ghost use Rattle.hash_tree.specs.Texts.{leaf_byte, inner_byte, leaf_text, inner_text};

use crate::chunk::Chunk;
use row_bytes::{Row, put_row};
use std::alloc::{AllocError, Global};
use tree_nodes::Digest;
use vclock::{Format, Refusal};

/// The length in bytes of the text of an inner node: one byte, and the digests of its 16 children.
pub const INNER_LEN: usize = 513;

/// Returns the first byte of a leaf's text.
pub fn leaf_byte(format: Format) -> u8
    ensures { result ≡ leaf_byte format }
{
    match format {
        Format::One => 0,
        Format::Two => 2,
    }
}

/// Returns the first byte of an inner node's text.
pub fn inner_byte(format: Format) -> u8
    ensures { result ≡ inner_byte format }
{
    match format {
        Format::One => 1,
        Format::Two => 3,
    }
}

/// Appends the texts of rows, in order. Fails only if memory is needed beyond the capacity of `out`. On error some
/// texts may have been appended.
pub(crate) fn put_rows(out: &mut Vec<u8>, format: Format, rows: &[Row]) -> Result<(), AllocError>
    requires { AllByRecursion (FitsText format) rows.now }
    ensures ok { OnOk result (out.new.items ≡ out.old.items ++ flat_map (row_text format) rows.now) }
    ensures room { OnErr result (vec_capacity out.old < length out.old.items + length (flat_map (row_text format) rows.now)) }
    ensures grows { vec_capacity out.old ≤ vec_capacity out.new }
{
    for row in rows {
        put_row(out, format, row)?;
    }
    Ok(())
}

/// Appends the texts of the rows of chunks. Fails only if memory is needed beyond the capacity of `out`. On error some
/// texts may have been appended.
pub(crate) fn put_chunks(out: &mut Vec<u8>, chunks: &[Chunk]) -> Result<(), AllocError>
    ensures ok { OnOk result (out.new.items ≡ out.old.items ++ flat_map chunk_text chunks.now) }
    ensures room { OnErr result (vec_capacity out.old < length out.old.items + length (flat_map chunk_text chunks.now)) }
{
    for chunk in chunks {
        chunk.put_texts(out)?;
    }
    Ok(())
}

/// Appends the text of a node whose children have these digests, in order. Fails only if memory is needed beyond the
/// capacity of `out`, which is then unchanged.
#[tactic(auto, unfolding(crate::specs::Texts::inner_text))]
pub fn put_inner_text(
    out: &mut Vec<u8>,
    format: Format,
    digests: &[Digest; 16],
) -> Result<(), AllocError>
    ensures ok { OnOk result (out.new.items ≡ out.old.items ++ inner_text format digests.now) }
    ensures room { OnErr result (vec_capacity out.old < length out.old.items + 513) }
    ensures err { OnErr result (out.new.items ≡ out.old.items) }
{
    out.reserve(INNER_LEN)?;
    out.push(inner_byte(format))?;
    for digest in digests {
        put_digest(out, digest)?;
    }
    Ok(())
}

/// Appends a digest.
fn put_digest(out: &mut Vec<u8>, digest: &Digest) -> Result<(), AllocError>
    ensures ok { OnOk result (out.new.items ≡ out.old.items ++ digest.now) }
    ensures more { OnOk result (length out.new.items ≡ length out.old.items + 32) }
    ensures room { OnErr result (vec_capacity out.old < length out.old.items + 32) }
    ensures grows { vec_capacity out.old ≤ vec_capacity out.new }
{
    out.extend_from_slice(digest)?;
    Ok(())
}

/// Returns the text of a leaf with these rows. Refused: NoMemory.
#[tactic(auto, unfolding(crate::specs::Texts::leaf_text))]
pub fn leaf_text(alloc: Global, format: Format, rows: &[Row]) -> Result<Vec<u8>, Refusal>
    requires { AllByRecursion (FitsText format) rows.now }
    ensures { Answers result None (λ text. text.items ≡ leaf_text format rows.now) }
{
    let mut text = Vec::new(alloc);
    text.push(leaf_byte(format))?;
    put_rows(&mut text, format, rows)?;
    Ok(text)
}

/// Returns the text of a node whose children have these digests, in order. Refused: NoMemory.
pub fn inner_text(alloc: Global, format: Format, digests: &[Digest; 16]) -> Result<Vec<u8>, Refusal>
    ensures { Answers result None (λ text. text.items ≡ inner_text format digests.now) }
{
    let mut text = Vec::with_capacity(alloc, INNER_LEN)?;
    put_inner_text(&mut text, format, digests)?;
    Ok(text)
}
