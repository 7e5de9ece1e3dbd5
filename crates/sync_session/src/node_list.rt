//! The nodes that a session asks, and the digests that it expects.
ghost use Rattle.std.specs.Prelude.{◌≡◌, ◌+◌, ◌<◌, ◌≤◌, ◌++◌, ◌↔◌, IsTrue, IfOk, Some, true, not, length, map, option_map};
ghost use Rattle.std.specs.List.{filter};
ghost use Rattle.std.specs.Vec.{vec_len, vec_capacity};
ghost use Rattle.tree_nodes.specs.Nodes.{is_same_node, contains_node, tree_depth};
ghost use Rattle.sync_session.specs.Walks.{taken_at, child_digest, expected, differing};

use crate::taken_text::Taken;
use snapshot::Snapshot;
use std::alloc::{AllocError, Global};
use tree_nodes::{Digest, NodeAt};

/// The length of a digest, in bytes.
const DIGEST_LEN: usize = 32;

/// Returns true if the node is in the list.
pub fn has(nodes: &[NodeAt], node: NodeAt) -> bool
    ensures { result ≡ contains_node node nodes.now }
{
    nodes.iter().any(|other| node == *other)
}

/// Returns the text that was taken for a node, if any.
fn taken_text(taken: &[Taken], node: NodeAt) -> Option<&[u8]>
    ensures { option_map (λ t. t.now) result ≡ taken_at taken.now node }
{
    for entry in taken {
        if entry.node() == node {
            return Some(entry.text().text());
        }
    }
    None
}

/// Returns the digest of a child in the text of an inner node.
fn digest_in(text: &[u8], j: u16) -> &[u8]
    requires { j < 16 }
    ensures { result.now ≡ child_digest text.now j }
{
    let start = DIGEST_LEN * usize::from(j) + 1;
    if start >= text.len() {
        return &text[text.len()..];
    }
    let rest = &text[start..];
    if rest.len() < DIGEST_LEN {
        rest
    } else {
        &rest[..DIGEST_LEN]
    }
}

/// Returns the digest that is expected at a node: at the root the offered one, otherwise the one in the parent's text,
/// which may end early.
pub fn expected_digest<'a>(
    offered: &'a Digest,
    taken: &'a [Taken],
    node: NodeAt,
) -> Option<&'a [u8]>
    ensures { option_map (λ d. d.now) result ≡ expected offered.now taken.now node }
{
    match node.parent() {
        None => Some(offered),
        Some(above) => match taken_text(taken, above) {
            None => None,
            Some(text) => Some(digest_in(text, node.index % 16)),
        },
    }
}

/// Returns true if this digest is the one expected at a node.
pub fn is_expected(offered: &Digest, taken: &[Taken], node: NodeAt, digest: &Digest) -> bool
    ensures { IsTrue result ↔ (expected offered.now taken.now node ≡ Some digest.now) }
{
    match expected_digest(offered, taken, node) {
        None => false,
        Some(due) => due == digest.as_slice(),
    }
}

/// Returns the children of a node whose digests in its text differ from the local ones, by ascending index.
#[tactic(auto, unfolding(crate::specs::Walks::differing))]
pub fn differing(
    alloc: Global,
    own: &Snapshot,
    node: NodeAt,
    text: &[u8],
) -> Result<Vec<NodeAt>, AllocError>
    requires { node.depth < tree_depth own.now.format }
    ensures { IfOk result (λ nodes. nodes.items ≡ differing own.now node text.now 16) }
{
    let mut nodes = Vec::new(alloc);
    for j in 0..16u16 {
        let child = node.child(j);
        let digest = own.digest_at(child);
        if digest_in(text, j) != digest.as_slice() {
            nodes.push(child)?;
        }
    }
    Ok(nodes)
}

/// Removes a node from a list, and keeps the list's capacity.
pub fn remove(nodes: &mut Vec<NodeAt>, node: NodeAt)
    ensures kept { nodes.new.items ≡ filter (λ n. not (is_same_node n node)) nodes.old.items }
    ensures room { vec_capacity nodes.new ≡ vec_capacity nodes.old }
    ensures bound { vec_len nodes.new ≤ vec_len nodes.old }
    ensures fewer { contains_node node nodes.old.items ≡ true
        → vec_len nodes.new < vec_len nodes.old }
{
    nodes.retain(|other| *other != node);
}

/// Appends nodes to a list with capacity for them.
pub fn append(nodes: &mut Vec<NodeAt>, new: &[NodeAt])
    requires { vec_len nodes.old + length new.now ≤ vec_capacity nodes.old }
    ensures items { nodes.new.items ≡ nodes.old.items ++ new.now }
    ensures len { vec_len nodes.new ≡ vec_len nodes.old + length new.now }
{
    nodes.extend_from_slice(new).unwrap();
}
