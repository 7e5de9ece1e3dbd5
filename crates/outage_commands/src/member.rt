//! The member of a line that isn't what its command wants, for the line's author.

use crate::fault::beginning_of;
use serde_json::Value;
use std::alloc::{AllocError, Global};

/// A kind of value.
#[derive(Clone, Copy)]
enum Shape {
    Number,
    Hex,
    HexOrNull,
    Numbers,
    Pairs,
    Word,
}

/// The name of a member, and the kind of its value.
type Member = (&'static str, Shape);

const NODE: Member = ("node", Shape::Number);

const RANGE: Member = ("range", Shape::Number);

const KEY: Member = ("key", Shape::Hex);

const RING: [Member; 3] = [
    ("bits", Shape::Number),
    ("copies", Shape::Number),
    ("nodes", Shape::Numbers),
];

const RING_OPTIONS: [Member; 2] = [("limit", Shape::Number), ("format", Shape::Number)];

const PUT: [Member; 4] = [
    NODE,
    KEY,
    ("context", Shape::Pairs),
    ("value", Shape::HexOrNull),
];

const PUT_OPTIONS: [Member; 1] = [("lose", Shape::Numbers)];

const GET: [Member; 2] = [NODE, KEY];

const SOLE_NODE: [Member; 1] = [NODE];

const REHASH: [Member; 2] = [NODE, RANGE];

const SYNC: [Member; 3] = [NODE, ("from", Shape::Number), RANGE];

const SHOW_NODE: [Member; 4] = [
    NODE,
    RANGE,
    ("depth", Shape::Number),
    ("index", Shape::Number),
];

const SLOT: [Member; 1] = [("do", Shape::Word)];

const SLOT_OPTIONS: [Member; 1] = [("n", Shape::Number)];

const SAMPLE: [Member; 2] = [("at", Shape::Number), ("micros", Shape::Number)];

/// Returns a sentence about the first wrong member of a command: one that the command doesn't have, one that is
/// missing, or one of another kind. `None` if each member is valid by itself.
pub(crate) fn wrong_member(
    alloc: Global,
    command: &str,
    members: &Value,
) -> Result<Option<String>, AllocError> {
    let Some(map) = members.as_object() else {
        return Ok(Some(format!(in alloc; "its members aren't an object")?));
    };
    let (required, optional) = (required_by(command), options_of(command));
    for (name, _) in map {
        if !has(required, name.as_str()) && !has(optional, name.as_str()) {
            let name = beginning_of(alloc, name.as_str())?;
            return said(alloc, name.as_str(), "isn't a member of it");
        }
    }
    for &(name, shape) in required {
        match members.get(name) {
            Some(value) => {
                if !fits(shape, value) {
                    return said(alloc, name, misfit(shape));
                }
            }
            None => return said(alloc, name, "is missing"),
        }
    }
    for &(name, shape) in optional {
        if let Some(value) = members.get(name) {
            if !fits(shape, value) {
                return said(alloc, name, misfit(shape));
            }
        }
    }
    Ok(None)
}

/// Returns a sentence about a member.
fn said(alloc: Global, name: &str, what: &str) -> Result<Option<String>, AllocError> {
    Ok(Some(format!(in alloc; "{name:?} {what}")?))
}

/// Returns the members that the command of a name must have.
fn required_by(command: &str) -> &'static [Member] {
    match command {
        "ring" => &RING,
        "put" => &PUT,
        "get" | "row" => &GET,
        "down" | "up" | "deliver" => &SOLE_NODE,
        "rehash" => &REHASH,
        "sync" => &SYNC,
        "node" => &SHOW_NODE,
        "slot" => &SLOT,
        "sample" => &SAMPLE,
        _ => &[],
    }
}

/// Returns the members that the command of a name may have in addition.
fn options_of(command: &str) -> &'static [Member] {
    match command {
        "ring" => &RING_OPTIONS,
        "put" => &PUT_OPTIONS,
        "slot" => &SLOT_OPTIONS,
        _ => &[],
    }
}

/// Returns true if a member of this name is in the list.
fn has(members: &[Member], name: &str) -> bool {
    members.iter().any(|member| member.0 == name)
}

/// Returns true if the value has this kind.
fn fits(shape: Shape, value: &Value) -> bool {
    match shape {
        Shape::Number => value.as_u64().is_some(),
        Shape::Hex => is_hex(value),
        Shape::HexOrNull => value.is_null() || is_hex(value),
        Shape::Numbers => are_numbers(value),
        Shape::Pairs => are_pairs(value),
        Shape::Word => value.as_str().is_some(),
    }
}

/// Returns the sentence's end for a value that isn't of this kind.
fn misfit(shape: Shape) -> &'static str {
    match shape {
        Shape::Number => "isn't a whole number below 2^64",
        Shape::Hex => "isn't a text of hexadecimal digits, two a byte",
        Shape::HexOrNull => "isn't null or a text of hexadecimal digits, two a byte",
        Shape::Numbers => "isn't a list of whole numbers below 2^64",
        Shape::Pairs => "isn't a list of pairs of whole numbers below 2^64",
        Shape::Word => "isn't a text",
    }
}

/// Returns true if the value is a text of hexadecimal digits, two a byte.
fn is_hex(value: &Value) -> bool {
    match value.as_str() {
        Some(text) => {
            text.len() % 2 == 0 && text.as_bytes().iter().all(|byte| byte.is_ascii_hexdigit())
        }
        None => false,
    }
}

/// Returns true if the value is a pair of numbers.
fn is_pair(value: &Value) -> bool {
    match value.as_array() {
        Some(items) => items.len() == 2 && are_numbers(value),
        None => false,
    }
}

/// Returns true if the value is a list of numbers.
fn are_numbers(value: &Value) -> bool {
    match value.as_array() {
        Some(items) => items.iter().all(|item| item.as_u64().is_some()),
        None => false,
    }
}

/// Returns true if the value is a list of pairs of numbers.
fn are_pairs(value: &Value) -> bool {
    match value.as_array() {
        Some(items) => items.iter().all(|item| is_pair(item)),
        None => false,
    }
}
