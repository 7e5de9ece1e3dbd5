//! The marks of parts.
ghost use Rattle.std.specs.Prelude.{◌≡◌, ◌++◌, ◌<◌, ◌≤◌, ◌^◌, ⊤, take, OnOk, MatchOption};
ghost use Rattle.std.specs.List.{flat_map};
ghost use Rattle.sha2.specs.Sha256.{sha256};
ghost use Rattle.vclock.specs.Answer.{AnswersAtOnce};
ghost use Rattle.text_patch.specs.Marks.{AreMarks, width_fault, mark_of, mark_at, place_of};

use sha2::{Digest as _, Sha256};
use std::alloc::AllocError;
use std::marker::Model;
use tree_nodes::{Digest, Text};
use vclock::Refusal;

/// The maximum number of places that are searched for a mark.
const PLACES_MAX: u32 = 1_024;

/// The marks of an asker's parts, in order. A mark is the first bytes of the digest of a salt and the part; the salt is
/// the digest that is expected at the node.
///
/// ```
/// let patch = patch(alloc, &partner, read, &marks)?;
/// ```
#[derive(Debug, Drop)]
pub struct Marks<'a> {
    width: u8,
    count: u32,
    bytes: &'a [u8],
}

impl<'a> Model for Marks<'a> {
    ghost use Rattle.text_patch.specs.Marks.{AreMarks, MarkList};

    ghost Value = { MarkList };

    ghost view = { λ m. record { width = m.width; count = m.count; bytes = m.bytes.now } };

    ghost invariant = { λ m. AreMarks (record { width = m.width; count = m.count; bytes = m.bytes.now }) };
}

impl<'a> Marks<'a> {
    /// Returns the marks in some bytes, or `None` if the width isn't 1 to 8, or the bytes aren't `count` marks.
    pub fn new(width: u8, count: u32, bytes: &'a [u8]) -> Option<Marks<'a>>
        ensures marks { MatchOption result
            (AreMarks (record { width = width; count = count; bytes = bytes.now }) → ⊥)
            (λ marks. marks ≡ record { width = width; count = count; bytes = bytes.now }) }
        ensures valid { MatchOption result ⊤ (λ marks. AreMarks marks) }
    {
        check_width(width).ok()?;
        if bytes.len() as u64 != u64::from(width) * u64::from(count) {
            return None;
        }
        Some(Marks {
            width,
            count,
            bytes,
        })
    }

    /// Returns the first of the 1,024 places from `from` on that has the mark of a part with this digest, if any.
    pub(crate) fn place_of(&self, digest: &Digest, from: u32) -> Option<u32>
        ensures place { result ≡ place_of self.now (take self.now.width digest.now) from }
        ensures within { MatchOption result ⊤ (λ place. (from ≤ place) × (place < self.now.count)) }
        ensures few { self.now.count < 2 ^ 32 }
    {
        let width = usize::from(self.width);
        let mark = &digest[..width];
        let places = self.count.saturating_sub(from).min(PLACES_MAX);
        for place in from..from.saturating_add(places) {
            if self.mark_at(place) == mark {
                return Some(place);
            }
        }
        None
    }

    /// Returns the mark at a place.
    fn mark_at(&self, place: u32) -> &[u8]
        requires { place < self.now.count }
        ensures { result.now ≡ mark_at self.now place }
    {
        let width = usize::from(self.width);
        let start = width * place as usize;
        &self.bytes[start..start + width]
    }
}

/// Tests the width of marks, in bytes. Refused: BadMessage (it isn't 1 to 8).
pub fn check_width(width: u8) -> Result<(), Refusal>
    ensures { AnswersAtOnce result (width_fault width) (λ _. ⊤) }
{
    if width == 0 || width > 8 {
        return Err(Refusal::BadMessage);
    }
    Ok(())
}

/// Returns the digest of a salt and a part.
pub(crate) fn salted(salt: &Digest, part: &Text) -> Digest
    ensures { result ≡ sha256 (salt.now ++ part.now) }
{
    let mut hasher = Sha256::new();
    hasher.update(salt);
    hasher.update(part.as_slice());
    hasher.finalize()
}

/// Appends the marks of parts, in order. Fails only if memory is needed.
pub(crate) fn put_marks(
    out: &mut Vec<u8>,
    salt: &Digest,
    parts: &[Text],
    width: u8,
) -> Result<(), AllocError>
    requires { width ≤ 8 }
    ensures { OnOk result (out.new.items ≡ out.old.items ++ flat_map (mark_of salt.now width) parts.now) }
{
    for part in parts {
        let digest = salted(salt, part);
        out.extend_from_slice(&digest[..usize::from(width)])?;
    }
    Ok(())
}
