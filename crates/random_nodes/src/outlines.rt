//! The outlines that an exchange sends, and the texts made from patches, by the definitions.

use plain_model::messages::PlainAnswer;
use plain_model::patches::{made_text, outline_bytes};
use plain_model::trees::{child, inner_byte};
use plain_model::trouble::Trouble;
use plain_model::walks::Walk;
use std::alloc::Global;
use tree_nodes::NodeAt;
use vclock::Format;

/// The maximum size of a leaf's local rows that aren't outlined, in bytes.
const SMALL_LEAF: usize = 255;

/// An outline that was sent for a node.
#[derive(Drop)]
pub(crate) struct Outline {
    pub(crate) node: NodeAt,
    pub(crate) bytes: Vec<u8>,
}

/// Returns the outline of a session's node, if it pays and has at most this number of bytes.
pub(crate) fn outline_of(
    alloc: Global,
    walk: &Walk,
    offer: u32,
    node: NodeAt,
    room: usize,
) -> Result<Option<Vec<u8>>, Trouble> {
    let Some(salt) = walk.expected(node) else {
        return Ok(None);
    };
    if !pays(alloc, walk, node)? {
        return Ok(None);
    }
    let parts = walk.own.parts(alloc, node)?;
    let bytes = outline_bytes(alloc, offer, node, salt, &parts)?;
    Ok((bytes.len() <= room).then_some(bytes))
}

/// Returns true if the local rows of a leaf are large, or the first two children of an inner node differ.
fn pays(alloc: Global, walk: &Walk, node: NodeAt) -> Result<bool, Trouble> {
    if walk.is_leaf(node) {
        return Ok(walk.own.text(alloc, node)?.len() > SMALL_LEAF.wrapping_add(1));
    }
    let (Some(first), Some(second)) = (child(node, 0), child(node, 1)) else {
        return Ok(false);
    };
    Ok(walk.own.digest_at(first) != walk.own.digest_at(second))
}

/// Returns the text that a patch makes from a session's local rows, or `None` if it doesn't make one. The patch has the
/// form of an answer whose text is its steps.
pub(crate) fn text_by(
    alloc: Global,
    walk: &Walk,
    patch: PlainAnswer<'_>,
) -> Result<Option<Vec<u8>>, Trouble> {
    let format = walk.own.format();
    let first = match (walk.is_leaf(patch.node), format) {
        (false, _) => inner_byte(format),
        (true, Format::One) => 0,
        (true, Format::Two) => 2,
    };
    let parts = walk.own.parts(alloc, patch.node)?;
    made_text(alloc, first, &parts, patch.text)
}
