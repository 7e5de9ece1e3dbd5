//! Messages, as docs/FORMATS.md defines their bytes.
use tree_nodes::{Digest, NodeAt, Text};

/// The offer of a replica's tree, by the digest of its root: the first message of a sync. A partner with another root
/// opens a session with it.
///
/// ```
/// let offer = Message::Offer(Offer {
///     offer: 258,
///     format: 2,
///     range: 255,
///     root: [7; 32],
/// });
/// ```
#[derive(Clone, Copy, Debug)]
pub struct Offer {
    /// The number of the offer at its replica. A pool of offers counts from 1.
    pub offer: u32,
    /// The format's number as received; it may be unknown.
    pub format: u8,
    /// The range's number as received; the ring may have no such range.
    pub range: u8,
    /// The digest of the root.
    pub root: Digest,
}

/// An ask for the text of a node of an offered tree. A session sends one for each of its outstanding nodes.
///
/// ```
/// let node = node_at(2, 12)?;
/// expect_bytes(alloc, &Message::Ask(Ask { offer: 1, node }), ASK)?;
/// ```
#[derive(Clone, Copy, Debug)]
pub struct Ask {
    /// The number of the offer.
    pub offer: u32,
    /// The node, of any format's tree.
    pub node: NodeAt,
}

/// The text that a replica claims for a node. It isn't trusted: a session takes it only if it has the digest that the
/// session expects.
///
/// ```
/// let answer = Message::Answer(Answer {
///     offer: 1,
///     node: node_at(2, 0)?,
///     text: Text::copy_of(alloc, b"\x00")?,
/// });
/// ```
#[derive(Debug, Drop)]
pub struct Answer {
    /// The number of the offer.
    pub offer: u32,
    /// The node, of any format's tree.
    pub node: NodeAt,
    /// The text, which may be anything.
    pub text: Text,
}

/// A message between two replicas, written by `encode` and read by `decode`.
///
/// ```
/// expect(has_bytes(alloc, message, bytes)?, "a message has its bytes")?;
/// let read = read(alloc, bytes)?;
/// expect(has_bytes(alloc, &read, bytes)?, "it is read from its bytes")
/// ```
#[derive(Debug, Drop)]
pub enum Message {
    /// An offer of a tree to compare with.
    Offer(Offer),
    /// An ask for the text of a node.
    Ask(Ask),
    /// An answer to an ask.
    Answer(Answer),
}
