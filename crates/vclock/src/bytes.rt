//! The bytes of a key or a value.
ghost use Rattle.std.specs.Prelude.{◌≡◌, None, []};
ghost use Rattle.vclock.specs.Answer.{Answers};

use crate::refusal::Refusal;
use smallvec::SmallVec;
use std::alloc::Global;
use std::fmt;
use std::marker::Model;
use std::sync::Arc;

/// The maximum number of bytes stored inline. Most keys fit, so a search among rows reads no other memory.
const SHORT_LEN: usize = 14;

/// The number of bytes stored in a shared block itself: the text of a UUID fits, and so do many values.
const BLOCK_LEN: usize = 40;

/// A list of bytes that never changes: a key or a value. Up to 14 bytes are stored inline. More bytes are stored in a
/// block that all clones share, across threads: a value held by a row, a journal and a snapshot is in memory once.
///
/// ```
/// let bytes = Bytes::copy_of(rt.alloc(), &[0x78])?;
/// let clone = bytes.try_clone()?;
/// ```
pub struct Bytes {
    kept: Storage,
}

/// The place of the bytes.
#[derive(Drop)]
enum Storage {
    /// Inline: the number of bytes, and the array that begins with them.
    Short(u8, [u8; SHORT_LEN]),
    /// In a block with several owners.
    Shared(Arc<SmallVec<u8, BLOCK_LEN>>),
}

impl Model for Bytes {
    ghost use Rattle.std.specs.Prelude.{List, ℕ};
    ghost use Rattle.vclock.specs.Bytes.{kept_bytes, IsStored};

    ghost Value = { List ℕ };

    ghost view = { λ b. kept_bytes b.kept };

    ghost invariant = { λ b. IsStored b.kept };
}

impl Bytes {
    /// Creates an empty list. Doesn't allocate.
    pub fn new() -> Bytes
        ensures { result ≡ [] }
    {
        Bytes {
            kept: Storage::Short(0, [0; SHORT_LEN]),
        }
    }

    /// Copies the bytes of a slice. Refused: NoMemory.
    pub fn copy_of(alloc: Global, bytes: &[u8]) -> Result<Bytes, Refusal>
        ensures { Answers result None (λ copy. copy ≡ bytes.now) }
    {
        let kept = if bytes.len() <= SHORT_LEN {
            let mut short = [0; SHORT_LEN];
            short[..bytes.len()].copy_from_slice(bytes);
            Storage::Short(bytes.len() as u8, short)
        } else {
            Storage::Shared(Arc::new(alloc, SmallVec::from_slice(alloc, bytes)?)?)
        };
        Ok(Bytes { kept })
    }

    /// Returns equal bytes. A block is shared, not copied. Refused: NoMemory.
    pub fn try_clone(&self) -> Result<Bytes, Refusal>
        ensures { Answers result None (λ copy. copy ≡ self.now) }
    {
        let kept = match &self.kept {
            Storage::Short(len, bytes) => Storage::Short(*len, *bytes),
            Storage::Shared(block) => Storage::Shared(Arc::try_clone(block)?),
        };
        Ok(Bytes { kept })
    }

    /// Returns the bytes in order.
    pub fn as_slice(&self) -> &[u8]
        ensures { result.now ≡ self.now }
    {
        match &self.kept {
            Storage::Short(len, bytes) => &bytes[..*len as usize],
            Storage::Shared(block) => block.as_slice(),
        }
    }
}

impl fmt::Debug for Bytes {
    fn fmt<W: fmt::Write>(&self, f: &mut fmt::Formatter<W>) -> fmt::Result {
        f.debug_list().entries(self.as_slice()).finish()
    }
}

impl Drop for Bytes {
    /// Keeps the representation out of the proofs of callers that drop bytes.
    fn drop(self) {
        let Bytes { kept: _kept } = self;
    }
}
