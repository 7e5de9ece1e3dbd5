//! Comparing a text with the text of a node in place. Doesn't allocate.
ghost use Rattle.std.specs.Prelude.{◌≡◌, ◌↔◌, ◌∷◌, IsTrue};
ghost use Rattle.std.specs.List.{flat_map};
ghost use Rattle.row_bytes.specs.Strips.{Strips};
ghost use Rattle.hash_tree.specs.Chunks.{chunk_text};
ghost use Rattle.hash_tree.specs.Texts.{leaf_byte, inner_text};

use crate::chunk::Chunk;
use crate::texts::{inner_byte, leaf_byte};
use row_bytes::strip;
use tree_nodes::Digest;
use vclock::Format;

/// Returns true if a text is the text of a leaf with these chunks.
pub(crate) fn is_chunked_text(format: Format, text: &[u8], chunks: &[Chunk]) -> bool
    ensures { IsTrue result ↔ (text.now ≡ leaf_byte format ∷ flat_map chunk_text chunks.now) }
{
    match strip_chunked(format, text, chunks) {
        Some(rest) => rest.is_empty(),
        None => false,
    }
}

/// Returns true if a text is the text of a node whose children have these digests, in order.
pub fn is_inner_text(format: Format, text: &[u8], digests: &[Digest; 16]) -> bool
    ensures { IsTrue result ↔ (text.now ≡ inner_text format digests.now) }
{
    match strip_inner(format, text, digests) {
        Some(rest) => rest.is_empty(),
        None => false,
    }
}

/// Returns the bytes after the text of a leaf with these chunks.
fn strip_chunked<'a>(format: Format, text: &'a [u8], chunks: &[Chunk]) -> Option<&'a [u8]>
    ensures { Strips (λ x. x.now) (leaf_byte format ∷ flat_map chunk_text chunks.now) text.now result }
{
    let rest = strip(text, &[leaf_byte(format)])?;
    strip_chunks(rest, chunks)
}

/// Returns the bytes after the concatenated texts of chunks.
fn strip_chunks<'a>(text: &'a [u8], chunks: &[Chunk]) -> Option<&'a [u8]>
    ensures { Strips (λ x. x.now) (flat_map chunk_text chunks.now) text.now result }
{
    let mut rest = text;
    for chunk in chunks {
        rest = chunk.strip_texts(rest)?;
    }
    Some(rest)
}

/// Returns the bytes after the text of a node whose children have these digests.
fn strip_inner<'a>(format: Format, text: &'a [u8], digests: &[Digest; 16]) -> Option<&'a [u8]>
    ensures { Strips (λ x. x.now) (inner_text format digests.now) text.now result }
{
    let rest = strip(text, &[inner_byte(format)])?;
    strip_all(rest, digests)
}

/// Returns the bytes after these concatenated digests.
fn strip_all<'a>(text: &'a [u8], digests: &[Digest]) -> Option<&'a [u8]>
    ensures { Strips (λ x. x.now) (flat_map (λ d. d) digests.now) text.now result }
{
    let mut rest = text;
    for digest in digests {
        rest = strip(rest, digest)?;
    }
    Some(rest)
}
