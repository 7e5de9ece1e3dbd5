//! The bytes of messages, by the page on formats.

use crate::trouble::Trouble;
use std::alloc::Global;
use tree_nodes::{Digest, NodeAt};

/// An offer.
#[derive(Clone, Copy)]
pub struct PlainOffer {
    pub number: u32,
    pub format: u8,
    pub range: u8,
    pub root: Digest,
}

/// An answer, with its text.
#[derive(Clone, Copy)]
pub struct PlainAnswer<'a> {
    pub offer: u32,
    pub node: NodeAt,
    pub text: &'a [u8],
}

/// Returns the message of an offer.
pub fn offer_bytes(alloc: Global, offer: &PlainOffer) -> Result<Vec<u8>, Trouble> {
    let mut bytes = Vec::new(alloc);
    bytes.push(1)?;
    bytes.extend_from_slice(&offer.number.to_be_bytes())?;
    bytes.push(offer.format)?;
    bytes.push(offer.range)?;
    bytes.extend_from_slice(&offer.root)?;
    Ok(bytes)
}

/// Returns the message that asks for a node in the tree of an offer.
pub fn ask_bytes(alloc: Global, offer: u32, node: NodeAt) -> Result<Vec<u8>, Trouble> {
    let mut bytes = Vec::new(alloc);
    bytes.push(2)?;
    put_node(offer, node, &mut bytes)?;
    Ok(bytes)
}

/// Returns the message of an answer.
pub fn answer_bytes(alloc: Global, answer: PlainAnswer<'_>) -> Result<Vec<u8>, Trouble> {
    let mut bytes = Vec::new(alloc);
    bytes.push(3)?;
    put_node(answer.offer, answer.node, &mut bytes)?;
    bytes.extend_from_slice(&(answer.text.len() as u64).to_be_bytes())?;
    bytes.extend_from_slice(answer.text)?;
    Ok(bytes)
}

/// Writes the number of an offer, and a node of its tree.
fn put_node(offer: u32, node: NodeAt, bytes: &mut Vec<u8>) -> Result<(), Trouble> {
    bytes.extend_from_slice(&offer.to_be_bytes())?;
    bytes.push(node.depth)?;
    bytes.extend_from_slice(&node.index.to_be_bytes())?;
    Ok(())
}

/// Reads an offer, if the bytes are the message of one.
pub fn read_offer(bytes: &[u8]) -> Option<PlainOffer> {
    let [1, a, b, c, d, format, range, rest @ ..] = bytes else {
        return None;
    };
    if rest.len() != 32 {
        return None;
    }
    let mut root = [0; 32];
    root.copy_from_slice(rest);
    Some(PlainOffer {
        number: u32::from_be_bytes([*a, *b, *c, *d]),
        format: *format,
        range: *range,
        root,
    })
}

/// Reads the number of an offer and a node of its tree, if the bytes are the message of an ask.
pub fn read_ask(bytes: &[u8]) -> Option<(u32, NodeAt)> {
    let [2, a, b, c, d, depth, high, low] = bytes else {
        return None;
    };
    let offer = u32::from_be_bytes([*a, *b, *c, *d]);
    let node = NodeAt::new(*depth, u16::from_be_bytes([*high, *low]))?;
    Some((offer, node))
}

/// Reads an answer, if the bytes are the message of one.
pub fn read_answer(bytes: &[u8]) -> Option<PlainAnswer<'_>> {
    let [3, a, b, c, d, depth, high, low, rest @ ..] = bytes else {
        return None;
    };
    let [s, t, u, v, w, x, y, z, text @ ..] = rest else {
        return None;
    };
    let offer = u32::from_be_bytes([*a, *b, *c, *d]);
    let node = NodeAt::new(*depth, u16::from_be_bytes([*high, *low]))?;
    let len = u64::from_be_bytes([*s, *t, *u, *v, *w, *x, *y, *z]);
    if len == text.len() as u64 {
        Some(PlainAnswer { offer, node, text })
    } else {
        None
    }
}
