//! Messages of a session, written and read, byte by byte.
use crate::calls::node_at;
use crate::checks::expect;
use crate::refusals::expect_refused;
use std::alloc::Global;
use std::test::Fail;
use tree_nodes::Text;
use vclock::Refusal;
use walk_messages::{Answer, Ask, Message, Offer, decode, encode};

/// The bytes of an ask for leaf 12 of a tree of format 1.
const ASK: &[u8] = b"\x02\x00\x00\x00\x01\x02\x00\x0c";

/// The bytes of an answer: the text of leaf 0, which has no rows.
const ANSWER: &[u8] = b"\x03\x00\x00\x00\x01\x02\x00\x00\x00\x00\x00\x00\x00\x00\x00\x01\x00";

/// Reads a message.
fn read(alloc: Global, bytes: &[u8]) -> Result<Message, Refusal> {
    decode(alloc, bytes)
}

/// Returns true if a message has these bytes.
fn has_bytes(alloc: Global, message: &Message, bytes: &[u8]) -> Result<bool, Refusal> {
    Ok(encode(alloc, message)?.as_slice() == bytes)
}

/// Asserts that a message has these bytes, and that the message read from them has these bytes too.
fn expect_bytes(alloc: Global, message: &Message, bytes: &[u8]) -> Result<(), Fail> {
    expect(has_bytes(alloc, message, bytes)?, "a message has its bytes")?;
    let read = read(alloc, bytes)?;
    expect(has_bytes(alloc, &read, bytes)?, "it is read from its bytes")
}

/// Asserts that these bytes aren't a message.
fn expect_none(alloc: Global, bytes: &[u8]) -> Result<(), Fail> {
    expect_refused(
        read(alloc, bytes),
        Refusal::BadMessage,
        "no message is read",
    )
}

#[test]
fn an_ask_has_eight_bytes(rt: HostRuntime) -> Result<(), Fail> {
    let alloc = rt.alloc();
    let node = node_at(2, 12)?;
    expect_bytes(alloc, &Message::Ask(Ask { offer: 1, node }), ASK)?;
    let read = read(alloc, ASK)?;
    expect(
        matches!(&read, Message::Ask(ask) if ask.offer == 1 && ask.node == node),
        "the ask is for leaf 12",
    )
}

#[test]
fn an_answer_carries_its_text(rt: HostRuntime) -> Result<(), Fail> {
    let alloc = rt.alloc();
    let answer = Message::Answer(Answer {
        offer: 1,
        node: node_at(2, 0)?,
        text: Text::copy_of(alloc, b"\x00")?,
    });
    expect_bytes(alloc, &answer, ANSWER)
}

#[test]
fn an_offer_carries_its_root(rt: HostRuntime) -> Result<(), Fail> {
    let alloc = rt.alloc();
    let offer = Message::Offer(Offer {
        offer: 258,
        format: 2,
        range: 255,
        root: [7; 32],
    });
    let mut bytes = Vec::from_slice(alloc, b"\x01\x00\x00\x01\x02\x02\xff")?;
    bytes.extend_from_slice(&[7; 32])?;
    expect_bytes(alloc, &offer, &bytes)
}

#[test]
fn other_bytes_are_no_message(rt: HostRuntime) -> Result<(), Fail> {
    for bytes in [
        // A fourth kind of message.
        b"\x04\x00\x00\x00\x01\x02\x00\x0c".as_slice(),
        // Nodes that no tree has.
        b"\x02\x00\x00\x00\x01\x02\x01\x00".as_slice(),
        b"\x02\x00\x00\x00\x01\x03\x10\x00".as_slice(),
        b"\x02\x00\x00\x00\x01\x04\x00\x00".as_slice(),
        // A length of 2^64-1.
        b"\x03\x00\x00\x00\x01\x02\x00\x00\xff\xff\xff\xff\xff\xff\xff\xff\x00".as_slice(),
    ] {
        expect_none(rt.alloc(), bytes)?;
    }
    Ok(())
}

#[test]
fn a_message_names_the_last_node_of_format_2(rt: HostRuntime) -> Result<(), Fail> {
    let last = read(rt.alloc(), b"\x02\x00\x00\x00\x01\x03\x0f\xff")?;
    expect(
        matches!(&last, Message::Ask(_)),
        "the ask is for leaf 4,095",
    )
}

/// Asserts that the bytes aren't a message if some at their end are missing, or if a byte is added.
fn expect_whole(alloc: Global, bytes: &[u8]) -> Result<(), Fail> {
    for length in 0..bytes.len() {
        expect_none(alloc, &bytes[..length])?;
    }
    let mut longer = Vec::from_slice(alloc, bytes)?;
    longer.push(0)?;
    expect_none(alloc, &longer)
}

#[test]
fn no_message_is_cut_off_or_goes_on(rt: HostRuntime) -> Result<(), Fail> {
    let alloc = rt.alloc();
    expect_whole(alloc, ASK)?;
    expect_whole(alloc, ANSWER)
}
