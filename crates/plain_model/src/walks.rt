//! The nodes that a session asks and the texts that it takes, by the definitions.

use crate::plain::Fault;
use crate::trees::{Tree, child, inner_byte, leaf_depth};
use crate::trouble::Trouble;
use sha2::{Digest as _, Sha256};
use std::alloc::Global;
use sync_session::{Session, SessionState, Taken};
use tree_nodes::{Digest, NodeAt};
use vclock::Format;

/// A text that was sent for a node.
#[derive(Drop)]
pub struct Sent {
    pub node: NodeAt,
    pub text: Vec<u8>,
}

/// The partner's tree that a session compares.
#[derive(Drop)]
pub struct Offering {
    /// The partner's node.
    pub at: u16,
    /// The root that the partner offered.
    pub root: Digest,
    /// The text of the root, if it is not the partner's.
    pub forged: Option<Vec<u8>>,
}

/// A session's comparison: the local tree when it was opened, and the partner's offer.
pub struct Walk {
    format: Format,
    pub own: Tree,
    pub partner: Offering,
    /// All nodes that were ever asked.
    pub asked: Vec<NodeAt>,
    pub outstanding: Vec<NodeAt>,
    pub taken: Vec<Sent>,
    pub state: SessionState,
}

impl Walk {
    /// Returns a new session's walk.
    pub fn new(
        alloc: Global,
        format: Format,
        own: Tree,
        partner: Offering,
    ) -> Result<Walk, Trouble> {
        let mut outstanding = Vec::new(alloc);
        if own.root() != partner.root
            && let Some(top) = NodeAt::new(0, 0)
        {
            outstanding.push(top)?;
        }
        let asked = outstanding.clone()?;
        let state = state_by(&outstanding);
        Ok(Walk {
            format,
            own,
            partner,
            asked,
            outstanding,
            taken: Vec::new(alloc),
            state,
        })
    }

    /// Returns the digest that is expected at a node: the offered one at the root, and otherwise the one in the text of
    /// the node above.
    pub fn expected(&self, node: NodeAt) -> Option<&[u8]> {
        if node.depth == 0 {
            return Some(&self.partner.root);
        }
        let above = NodeAt::new(node.depth.wrapping_sub(1), node.index / 16)?;
        digest_in(self.taken_text(above)?, node.index % 16)
    }

    /// Returns the text that was taken for a node.
    fn taken_text(&self, node: NodeAt) -> Option<&[u8]> {
        for sent in &self.taken {
            if sent.node == node {
                return Some(&sent.text);
            }
        }
        None
    }

    /// Returns true if the node is a leaf.
    pub fn is_leaf(&self, node: NodeAt) -> bool {
        node.depth == leaf_depth(self.format)
    }

    /// Returns the reason why a text isn't taken, if any. `partners` is the partner's text of the node.
    pub fn fault_of(&self, node: NodeAt, text: &[u8], partners: &[u8]) -> Option<Fault> {
        if !self.outstanding.contains(&node) {
            return Some(Fault::NotAsked);
        }
        let digest = Sha256::digest(text);
        if self.expected(node) != Some(digest.as_slice()) {
            return Some(Fault::WrongDigest);
        }
        let is_text = if self.is_leaf(node) {
            text == partners
        } else {
            text.len() == 513 && text.first() == Some(&inner_byte(self.format))
        };
        if is_text {
            None
        } else {
            Some(Fault::NotCanonical)
        }
    }

    /// Updates the walk for a taken text: the node is no longer outstanding, and the children that differ are asked.
    pub fn take(&mut self, sent: Sent) -> Result<(), Trouble> {
        self.outstanding.retain(|other| *other != sent.node);
        if !self.is_leaf(sent.node) {
            self.ask(&sent)?;
        }
        self.state = state_by(&self.outstanding);
        self.taken.push(sent)?;
        Ok(())
    }

    /// Asks the children whose digests in the text differ from the local ones, by rising index.
    fn ask(&mut self, sent: &Sent) -> Result<(), Trouble> {
        for j in 0..16u16 {
            if let Some(node) = child(sent.node, j) {
                let own = self.own.digest_at(node).unwrap_or([0; 32]);
                if digest_in(&sent.text, j) != Some(own.as_slice()) {
                    self.asked.push(node)?;
                    self.outstanding.push(node)?;
                }
            }
        }
        Ok(())
    }

    /// Ends the walk in a state, if it is still open.
    pub fn end(&mut self, state: SessionState) {
        if self.state == SessionState::Open {
            self.outstanding.clear();
            self.state = state;
        }
    }

    /// Returns true if a session with a partner matches the walk.
    pub fn is(&self, partner: u16, session: &Session) -> bool {
        partner == self.partner.at
            && session.root() == self.partner.root
            && session.own().root() == self.own.root()
            && session.asked() == self.asked.as_slice()
            && session.outstanding() == self.outstanding.as_slice()
            && session.state() == self.state
            && session.taken().len() == self.taken.len()
    }

    /// Returns true if a session took the same texts as the walk.
    pub fn has_taken(&self, taken: &[Taken]) -> bool {
        for (sent, other) in self.taken.iter().zip(taken) {
            if sent.node != other.node() || sent.text.as_slice() != other.text().text() {
                return false;
            }
        }
        taken.len() == self.taken.len()
    }
}

/// Returns the digest of a child in the text of a node.
fn digest_in(text: &[u8], j: u16) -> Option<&[u8]> {
    let start = usize::from(j) * 32 + 1;
    text.get(start..start + 32)
}

/// Returns open, or finished if nothing is outstanding.
fn state_by(outstanding: &[NodeAt]) -> SessionState {
    if outstanding.is_empty() {
        SessionState::Finished
    } else {
        SessionState::Open
    }
}

impl Drop for Walk {
    /// Keeps the fields out of the proofs of callers that drop a walk.
    fn drop(self) {
        let Walk {
            format: _format,
            own: _own,
            partner: _partner,
            asked: _asked,
            outstanding: _outstanding,
            taken: _taken,
            state: _state,
        } = self;
    }
}
