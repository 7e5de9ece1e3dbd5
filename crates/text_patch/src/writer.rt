//! Writing the steps of patches.
ghost use Rattle.std.specs.Prelude.{◌≡◌, ◌++◌, [], nat_eq, if◌then◌else◌, None, OnOk};
ghost use Rattle.vclock.specs.Answer.{Answers};
ghost use Rattle.text_patch.specs.Patches.{patch_for};
ghost use Rattle.text_patch.specs.Steps.{Copy, New, step_text, steps_text};

use crate::marks::{Marks, salted};
use std::alloc::{AllocError, Global};
use tree_nodes::{Digest, Text};
use vclock::Refusal;

/// A copy that the next part may extend: `count` parts of the asker, from `first` on.
#[derive(Clone, Copy)]
struct Run {
    first: u32,
    count: u32,
}

/// Returns the steps that make these parts for an asker with these marks: a part whose mark is ahead is a copy, and any
/// other is new bytes. Refused: NoMemory.
pub(crate) fn write_steps(
    alloc: Global,
    salt: &Digest,
    marks: &Marks<'_>,
    parts: &[Text],
) -> Result<Vec<u8>, Refusal>
    ensures { Answers result None (λ bytes. bytes.items ≡ steps_text (patch_for salt.now marks.now 0 parts.now)) }
{
    let mut out = Vec::new(alloc);
    let mut run = Run { first: 0, count: 0 };
    'parts: for part in parts {
        let next = run.first + run.count;
        match marks.place_of(&salted(salt, part), next) {
            Some(place) if place == next => run.count += 1,
            Some(place) => {
                put_copy(&mut out, run)?;
                run = Run {
                    first: place,
                    count: 1,
                };
            }
            None => {
                put_copy(&mut out, run)?;
                run = Run {
                    first: next,
                    count: 0,
                };
                put_new(&mut out, part)?;
            }
        }
    }
    put_copy(&mut out, run)?;
    Ok(out)
}

/// Appends a copy, unless it has no part.
fn put_copy(out: &mut Vec<u8>, run: Run) -> Result<(), AllocError>
    ensures { OnOk result (out.new.items ≡ out.old.items ++ (if nat_eq run.count 0 then [] else step_text (Copy run.first run.count))) }
{
    if run.count == 0 {
        return Ok(());
    }
    out.push(0)?;
    out.extend_from_slice(&run.first.to_be_bytes())?;
    out.extend_from_slice(&run.count.to_be_bytes())?;
    Ok(())
}

/// Appends new bytes. Refused: NoMemory.
fn put_new(out: &mut Vec<u8>, part: &Text) -> Result<(), Refusal>
    ensures { Answers result None (λ _. out.new.items ≡ out.old.items ++ step_text (New part.now)) }
{
    let Ok(len) = u32::try_from(part.as_slice().len()) else {
        return Err(Refusal::NoMemory);
    };
    out.push(1)?;
    out.extend_from_slice(&len.to_be_bytes())?;
    out.extend_from_slice(part.as_slice())?;
    Ok(())
}
