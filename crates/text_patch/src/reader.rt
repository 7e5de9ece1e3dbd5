//! Making a text from the steps of a patch.
ghost use Rattle.std.specs.Prelude.{◌≡◌, ◌++◌, ◌+◌, ◌^◌, ◌<◌, ◌≤◌, ◌∷◌, ℕ, List, ⊤, length, MatchOption, OnOk};
ghost use Rattle.std.specs.Int.{w32, to_be_bytes};
ghost use Rattle.tree_nodes.specs.Blocks.{joined};
ghost use Rattle.text_patch.specs.Patches.{Makes, Rebuilds};
ghost use Rattle.text_patch.specs.Steps.{Step, BeginsWith, IsStepRead};

use crate::parts::{first_byte, parts_of};
use snapshot::Snapshot;
use std::alloc::{AllocError, Global};
use tree_nodes::{NodeAt, Text};
use vclock::Refusal;

/// A step, and the bytes after it. A step makes some parts, then some new bytes; each may be empty.
#[derive(Drop)]
struct StepRead<'a> {
    first: usize,
    end: usize,
    new: &'a [u8],
    rest: &'a [u8],
}

/// Returns the text that steps make from the parts of a node over local rows. It is at most as long as the text of the
/// node and the steps together. It isn't trusted: its digest can be any.
///
/// Refused: BadMessage (the tree has no such node; or the steps aren't well formed, copy a part that doesn't exist, or
/// go back), NoMemory, which may replace BadMessage.
pub fn rebuild(alloc: Global, own: &Snapshot, node: NodeAt, steps: &[u8]) -> Result<Text, Refusal>
    ensures { Rebuilds own.now node steps.now result }
{
    let parts = parts_of(alloc, own, node)?;
    let len = measure(&parts, steps)?;
    let mut text = Vec::with_capacity(alloc, len)?;
    text.push(first_byte(own, node))?;
    put_made(&mut text, &parts, steps)?;
    Ok(Text::from(text))
}

/// Returns the length of the text that these steps make, plus one byte before it. Refused: BadMessage, NoMemory (the
/// length doesn't fit a usize).
fn measure(parts: &[Text], steps: &[u8]) -> Result<usize, Refusal>
    ensures { Makes parts.now steps.now (λ text len. len ≡ 1 + length text) result }
{
    let mut len = 1usize;
    let mut from = 0;
    let mut rest = steps;
    'steps: while !rest.is_empty() {
        let Some(step) = step_at(from, parts.len(), rest) else {
            return Err(Refusal::BadMessage);
        };
        let Some(copied) = len_with(len, &parts[step.first..step.end]) else {
            return Err(Refusal::NoMemory);
        };
        let Some(sum) = copied.checked_add(step.new.len()) else {
            return Err(Refusal::NoMemory);
        };
        len = sum;
        from = step.end;
        rest = step.rest;
    }
    Ok(len)
}

/// Returns the sum of a length and the lengths of parts, or `None` if it doesn't fit a usize.
fn len_with(len: usize, parts: &[Text]) -> Option<usize>
    ensures { MatchOption result ⊤ (λ sum. sum ≡ len + length (joined parts.now)) }
{
    let mut sum = len;
    for part in parts {
        sum = sum.checked_add(part.as_slice().len())?;
    }
    Some(sum)
}

/// Appends the text that steps make. Refused: BadMessage, NoMemory.
fn put_made(out: &mut Vec<u8>, parts: &[Text], steps: &[u8]) -> Result<(), Refusal>
    ensures { Makes parts.now steps.now (λ text done. out.new.items ≡ out.old.items ++ text) result }
{
    let mut from = 0;
    let mut rest = steps;
    'steps: while !rest.is_empty() {
        let Some(step) = step_at(from, parts.len(), rest) else {
            return Err(Refusal::BadMessage);
        };
        put_all(out, &parts[step.first..step.end])?;
        out.extend_from_slice(step.new)?;
        from = step.end;
        rest = step.rest;
    }
    Ok(())
}

/// Appends parts.
fn put_all(out: &mut Vec<u8>, parts: &[Text]) -> Result<(), AllocError>
    ensures { OnOk result (out.new.items ≡ out.old.items ++ joined parts.now) }
{
    for part in parts {
        out.extend_from_slice(part.as_slice())?;
    }
    Ok(())
}

/// Returns the step at the front of some bytes, or `None` if there is no whole step, or it copies a part that doesn't
/// exist or is before `from`.
fn step_at<'a>(from: usize, parts: usize, bytes: &'a [u8]) -> Option<StepRead<'a>>
    requires { from ≤ parts }
    ensures { MatchOption result ((s : Step) (rest : List ℕ) → BeginsWith from parts bytes.now s rest → ⊥)
        (λ x. IsStepRead from parts bytes.now x.first x.end x.new.now x.rest.now) }
{
    match bytes {
        [0, fields @ ..] => copy_at(from, parts, fields),
        [1, fields @ ..] => {
            let (new, rest) = new_at(fields)?;
            Some(StepRead {
                first: from,
                end: from,
                new,
                rest,
            })
        }
        _ => None,
    }
}

/// Returns the copy with these fields, or `None` in the cases of `step_at`.
fn copy_at<'a>(from: usize, parts: usize, fields: &'a [u8]) -> Option<StepRead<'a>>
    ensures { MatchOption result ((s : Step) (rest : List ℕ) → BeginsWith from parts (0 ∷ fields.now) s rest → ⊥)
        (λ x. IsStepRead from parts (0 ∷ fields.now) x.first x.end x.new.now x.rest.now) }
{
    let (first, rest) = number_at(fields)?;
    let (count, rest) = number_at(rest)?;
    let first = first as usize;
    let end = first + count as usize;
    if first < from || end > parts {
        return None;
    }
    Some(StepRead {
        first,
        end,
        new: &[],
        rest,
    })
}

/// Returns the new bytes with these fields and the bytes after them, or `None` if there are fewer.
fn new_at(fields: &[u8]) -> Option<(&[u8], &[u8])>
    ensures { MatchOption result
        ((new rest : List ℕ) → length new < 2 ^ 32 → fields.now ≡ to_be_bytes w32 (length new) ++ (new ++ rest) → ⊥)
        (λ x. (length x.0.now < 2 ^ 32) × (fields.now ≡ to_be_bytes w32 (length x.0.now) ++ (x.0.now ++ x.1.now))) }
{
    let (len, rest) = number_at(fields)?;
    rest.split_at_checked(len as usize)
}

/// Returns a number of four bytes and the bytes after it, or `None` if there are fewer.
fn number_at(bytes: &[u8]) -> Option<(u32, &[u8])>
    ensures { MatchOption result (length bytes.now < 4) (λ x. (x.0 < 2 ^ 32) × (bytes.now ≡ to_be_bytes w32 x.0 ++ x.1.now)) }
{
    let (number, rest) = bytes.split_first_chunk::<4>()?;
    Some((u32::from_be_bytes(*number), rest))
}
