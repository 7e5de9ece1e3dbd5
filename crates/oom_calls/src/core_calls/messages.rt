//! Messages.
use crate::lines::show;
use std::alloc::Global;
use std::io;
use tree_nodes::{NodeAt, Text};
use vclock::Refusal;
use walk_messages::{Answer, Message, decode, encode};

/// An answer for the root of offer 1. Its text is too long for a `Bytes` that doesn't allocate.
const ROOT_ANSWER: &[u8] =
    b"\x03\x00\x00\x00\x01\x00\x00\x00\x00\x00\x00\x00\x00\x00\x00\x17more than sixteen bytes";

/// Shows the calls on messages.
pub(crate) fn show_all<R: Print + AllocGlobal>(rt: &R) -> io::Result<()> {
    let alloc = rt.alloc();
    show(rt, "encode", encoded(alloc))?;
    show(rt, "decode", decoded(alloc))
}

/// Returns the length of an answer's message, in bytes.
fn encoded(alloc: Global) -> Result<u64, Refusal> {
    let message = Message::Answer(Answer {
        offer: 1,
        node: NodeAt::new(0, 0).ok_or(Refusal::Stale)?,
        text: Text::copy_of(alloc, b"text")?,
    });
    Ok(encode(alloc, &message)?.len() as u64)
}

/// Returns the length of an answer's text, in bytes.
fn decoded(alloc: Global) -> Result<u64, Refusal> {
    match decode(alloc, ROOT_ANSWER)? {
        Message::Answer(answer) => Ok(answer.text.as_slice().len() as u64),
        Message::Offer(_) | Message::Ask(_) => Err(Refusal::Stale),
    }
}
