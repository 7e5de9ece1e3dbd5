//! Outlines and patches, by the page on formats.

use crate::messages::{PlainAnswer, answer_bytes, ask_bytes, read_answer};
use crate::trouble::Trouble;
use sha2::{Digest as _, Sha256};
use std::alloc::Global;
use tree_nodes::NodeAt;

/// The number of bytes of a mark.
const WIDTH: usize = 3;

/// The number of bytes of an outline before its marks.
const HEAD: usize = 13;

/// The kind of an outline, of an answer, and of a patch.
const OUTLINE: u8 = 4;

const ANSWER: u8 = 3;

const PATCH: u8 = 5;

/// The mark of a part.
type Mark = [u8; WIDTH];

/// A step of a patch: parts of the asker, or a part of the partner, by its number.
#[derive(Clone, Copy)]
enum Step {
    Copy { first: usize, count: usize },
    New(usize),
}

/// Returns the bytes of an outline of these parts. `salt` is the digest that is expected at the node.
pub fn outline_bytes(
    alloc: Global,
    offer: u32,
    node: NodeAt,
    salt: &[u8],
    parts: &[Vec<u8>],
) -> Result<Vec<u8>, Trouble> {
    let mut bytes = ask_bytes(alloc, offer, node)?;
    set_kind(&mut bytes, OUTLINE);
    bytes.push(WIDTH as u8)?;
    bytes.extend_from_slice(&number_bytes(parts.len()))?;
    for mark in &marks_of(alloc, salt, parts)? {
        bytes.extend_from_slice(mark)?;
    }
    Ok(bytes)
}

/// Returns the bytes of a patch for an outline: the text whose parts these are.
pub fn patch_bytes(
    alloc: Global,
    outline: &[u8],
    (offer, node): (u32, NodeAt),
    salt: &[u8],
    parts: &[Vec<u8>],
) -> Result<Vec<u8>, Trouble> {
    let marks = marks_of(alloc, salt, parts)?;
    let steps = choose(alloc, outline.get(HEAD..).unwrap_or(&[]), &marks)?;
    let mut text = Vec::new(alloc);
    for step in &steps {
        put_step(*step, parts, &mut text)?;
    }
    let text = text.as_slice();
    let mut bytes = answer_bytes(alloc, PlainAnswer { offer, node, text })?;
    set_kind(&mut bytes, PATCH);
    Ok(bytes)
}

/// Returns the bytes of a patch with the kind of an answer, or `None` if they aren't a patch: an answer whose text is
/// its steps.
pub fn patch_as_answer(alloc: Global, bytes: &[u8]) -> Result<Option<Vec<u8>>, Trouble> {
    if bytes.first() != Some(&PATCH) {
        return Ok(None);
    }
    let mut other = Vec::from_slice(alloc, bytes)?;
    set_kind(&mut other, ANSWER);
    let is_patch = read_answer(&other).is_some();
    Ok(is_patch.then_some(other))
}

/// Returns the text that steps make from these parts after a first byte, or `None` if they don't make one.
pub fn made_text(
    alloc: Global,
    first: u8,
    parts: &[Vec<u8>],
    steps: &[u8],
) -> Result<Option<Vec<u8>>, Trouble> {
    let mut text = Vec::new(alloc);
    text.push(first)?;
    let (mut rest, mut from) = (steps, 0u64);
    for _ in 0..steps.len() {
        match rest {
            [] => return Ok(Some(text)),
            [0, a, b, c, d, e, f, g, h, more @ ..] => {
                let start = u64::from(u32::from_be_bytes([*a, *b, *c, *d]));
                let end = start.wrapping_add(u64::from(u32::from_be_bytes([*e, *f, *g, *h])));
                if start < from || !put_parts(parts, start, end, &mut text)? {
                    return Ok(None);
                }
                (rest, from) = (more, end);
            }
            [1, a, b, c, d, more @ ..] => {
                let len = u32::from_be_bytes([*a, *b, *c, *d]) as usize;
                let Some((new, more)) = more.split_at_checked(len) else {
                    return Ok(None);
                };
                text.extend_from_slice(new)?;
                rest = more;
            }
            _ => return Ok(None),
        }
    }
    Ok(rest.is_empty().then_some(text))
}

/// Writes the parts `start..end`. Returns false if there are fewer.
fn put_parts(parts: &[Vec<u8>], start: u64, end: u64, text: &mut Vec<u8>) -> Result<bool, Trouble> {
    let Some(copied) = parts.get(start as usize..end as usize) else {
        return Ok(false);
    };
    for part in copied {
        text.extend_from_slice(part)?;
    }
    Ok(true)
}

/// Returns the mark of each part.
fn marks_of(alloc: Global, salt: &[u8], parts: &[Vec<u8>]) -> Result<Vec<Mark>, Trouble> {
    let mut marks = Vec::new(alloc);
    for part in parts {
        let mut text = Vec::from_slice(alloc, salt)?;
        text.extend_from_slice(part)?;
        let [first, second, third, ..] = Sha256::digest(&text);
        marks.push([first, second, third])?;
    }
    Ok(marks)
}

/// Chooses the steps for parts with these marks: each part is new, or is copied from the first place with its mark
/// after the last copied one.
fn choose(alloc: Global, places: &[u8], marks: &[Mark]) -> Result<Vec<Step>, Trouble> {
    let mut steps = Vec::new(alloc);
    let mut from = 0usize;
    for (number, mark) in marks.iter().enumerate() {
        match place_of(places, from, mark) {
            Some(place) => {
                put_copy(&mut steps, place)?;
                from = place.wrapping_add(1);
            }
            None => steps.push(Step::New(number))?,
        }
    }
    Ok(steps)
}

/// Returns the first place with a mark, from `from` on. Fewer than 1,024 places follow.
fn place_of(places: &[u8], from: usize, mark: &Mark) -> Option<usize> {
    for (place, other) in places.chunks(WIDTH).enumerate() {
        if place >= from && other == mark.as_slice() {
            return Some(place);
        }
    }
    None
}

/// Adds a copy of a part to the steps: extends the last one, if it copies the parts just before.
fn put_copy(steps: &mut Vec<Step>, place: usize) -> Result<(), Trouble> {
    let longer = match steps.last() {
        Some(Step::Copy { first, count }) if first.wrapping_add(*count) == place => {
            Some((*first, count.wrapping_add(1)))
        }
        _ => None,
    };
    if longer.is_some() {
        let _last = steps.pop();
    }
    let (first, count) = longer.unwrap_or((place, 1));
    steps.push(Step::Copy { first, count })?;
    Ok(())
}

/// Writes a step.
fn put_step(step: Step, parts: &[Vec<u8>], text: &mut Vec<u8>) -> Result<(), Trouble> {
    match step {
        Step::Copy { first, count } => {
            text.push(0)?;
            text.extend_from_slice(&number_bytes(first))?;
            text.extend_from_slice(&number_bytes(count))?;
        }
        Step::New(number) => {
            let part = parts.get(number).map_or([].as_slice(), Vec::as_slice);
            text.push(1)?;
            text.extend_from_slice(&number_bytes(part.len()))?;
            text.extend_from_slice(part)?;
        }
    }
    Ok(())
}

/// Returns a number in four bytes.
fn number_bytes(number: usize) -> [u8; 4] {
    u32::try_from(number).unwrap_or(u32::MAX).to_be_bytes()
}

/// Changes the kind of a message.
fn set_kind(bytes: &mut Vec<u8>, kind: u8) {
    if let Some(first) = bytes.first_mut() {
        *first = kind;
    }
}
