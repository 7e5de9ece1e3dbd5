//! Texts.
ghost use Rattle.std.specs.Prelude.{◌≡◌, None};
ghost use Rattle.vclock.specs.Answer.{Answers};

use std::alloc::Global;
use std::marker::Model;
use vclock::Refusal;

/// The text of a node, of a row or of a message: bytes with one owner, in the allocation in which they were written.
///
/// ```
/// let hashed = hash(Text::copy_of(alloc, b"abc")?);
/// ```
#[derive(Debug)]
pub struct Text {
    bytes: Vec<u8>,
}

impl Model for Text {
    ghost use Rattle.std.specs.Prelude.{List, ℕ};

    ghost Value = { List ℕ };

    ghost view = { λ t. t.bytes.items };
}

impl Text {
    /// Copies the bytes of a slice into a text. Refused: NoMemory.
    pub fn copy_of(alloc: Global, bytes: &[u8]) -> Result<Text, Refusal>
        ensures { Answers result None (λ copy. copy ≡ bytes.now) }
    {
        Ok(Text {
            bytes: Vec::from_slice(alloc, bytes)?,
        })
    }

    /// Returns the bytes in order.
    pub fn as_slice(&self) -> &[u8]
        ensures { result.now ≡ self.now }
    {
        self.bytes.as_slice()
    }
}

impl Drop for Text {
    /// Keeps the representation out of the proofs of callers that drop a text.
    fn drop(self) {
        let Text { bytes: _bytes } = self;
    }
}

impl From<Vec<u8>> for Text {
    ghost use Rattle.std.specs.Prelude.{◌≡◌};

    ghost from_gives = { λ bytes text. text ≡ bytes.items };

    /// Wraps a vector and keeps its allocation.
    fn from(bytes: Vec<u8>) -> Text {
        Text { bytes }
    }
}
