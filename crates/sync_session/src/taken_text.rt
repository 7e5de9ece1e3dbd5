//! Texts that a session took.
ghost use Rattle.std.specs.Prelude.{◌≡◌};

use std::marker::Model;
use tree_nodes::{Hashed, NodeAt};

/// A text that a session took, with its node.
#[derive(Debug)]
pub struct Taken {
    node: NodeAt,
    text: Hashed,
}

impl Model for Taken {
    ghost use Rattle.sync_session.specs.Walks.{TakenText};

    ghost Value = { TakenText };

    ghost view = { λ t. record { node = t.node; text = t.text } };
}

impl Taken {
    /// Creates the record of a text taken for a node.
    pub(crate) fn new(node: NodeAt, text: Hashed) -> Taken
        ensures { result ≡ record { node = node; text = text } }
    {
        Taken { node, text }
    }

    /// Returns the node.
    pub fn node(&self) -> NodeAt
        ensures { result ≡ self.now.node }
    {
        self.node
    }

    /// Returns the text, with its digest.
    pub fn text(&self) -> &Hashed
        ensures { result.now ≡ self.now.text }
    {
        &self.text
    }
}

impl Drop for Taken {
    /// Keeps the fields out of the proofs of callers that drop a taken text.
    fn drop(self) {
        let Taken {
            node: _node,
            text: _text,
        } = self;
    }
}
