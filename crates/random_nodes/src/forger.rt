//! Partners whose texts match their digests but don't belong to any node.
ghost use Rattle.ring_node.specs.Links.{CountsLosses};

use hash_tree::inner_text;
use plain_model::random::Random;
use ring_node::{Link, Reached};
use std::alloc::Global;
use std::sync::Wait;
use tree_nodes::{Digest, Text, hash};
use vclock::{Format, Refusal};
use walk_messages::{Answer, Ask, Message, Offer, decode, encode};

/// A forger's text of each node below the root.
const JUNK: &[u8] = b"abc";

/// A link to a partner whose texts match the offered digests but don't belong to any node: either the root's text, or
/// the texts below it.
#[derive(Drop)]
pub(crate) struct Forger {
    alloc: Global,
    format: Format,
    range: u8,
    root: Vec<u8>,
}

impl Forger {
    /// Returns a forger of the root, or of the nodes below.
    pub(crate) fn new(
        alloc: Global,
        random: &mut Random,
        format: Format,
        range: u8,
    ) -> Result<Forger, Refusal> {
        let root = if random.once_in(2) {
            Vec::from_slice(alloc, JUNK)?
        } else {
            inner_text(alloc, format, &[digest_of(alloc, JUNK)?; 16])?
        };
        Ok(Forger {
            alloc,
            format,
            range,
            root,
        })
    }

    /// Returns a copy of the root's text.
    pub(crate) fn root(&self, alloc: Global) -> Result<Vec<u8>, Refusal> {
        Ok(Vec::from_slice(alloc, &self.root)?)
    }

    /// Returns the offer's message.
    fn offered(&self) -> Result<Vec<u8>, Refusal> {
        let offer = Offer {
            offer: 1,
            format: self.format.number(),
            range: self.range,
            root: digest_of(self.alloc, &self.root)?,
        };
        encode(self.alloc, &Message::Offer(offer))
    }

    /// Returns the message of the answer to an ask.
    fn answered(&self, ask: &Ask) -> Result<Vec<u8>, Refusal> {
        let text = if ask.node.depth == 0 {
            self.root.as_slice()
        } else {
            JUNK
        };
        let answer = Answer {
            offer: ask.offer,
            node: ask.node,
            text: Text::copy_of(self.alloc, text)?,
        };
        encode(self.alloc, &Message::Answer(answer))
    }
}

impl Link for Forger {
    ghost failed = { λ _. 0 };

    fn failures(&self) -> u64 {
        0
    }

    fn offer<R: Wait>(&mut self, _rt: &R) -> Reached {
        reached(self.offered())
    }

    fn ask<R: Wait>(&mut self, _rt: &R, message: &[u8]) -> Reached {
        match &decode(self.alloc, message) {
            Ok(Message::Ask(ask)) => reached(self.answered(ask)),
            _ => Reached::Gone,
        }
    }
}

/// Returns the digest of a text.
fn digest_of(alloc: Global, text: &[u8]) -> Result<Digest, Refusal> {
    Ok(hash(Text::copy_of(alloc, text)?).digest())
}

/// Returns the outcome of a call over a forger's link.
fn reached(bytes: Result<Vec<u8>, Refusal>) -> Reached
    ensures { CountsLosses 0 0 result }
{
    match bytes {
        Ok(bytes) => Reached::Bytes(bytes),
        Err(_) => Reached::Gone,
    }
}
