//! The source of a node's text.
use hash_tree::SharedLeaf;
use tree_nodes::Digest;
use vclock::Format;

/// The source of a node's text.
#[derive(Debug, Drop)]
pub(crate) enum TextSource {
    /// A leaf, shared when the job was made.
    Leaf(SharedLeaf),
    /// The digests of the node's children.
    Children(Format, [Digest; 16]),
}
