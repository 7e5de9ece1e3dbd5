//! Hints, their deliveries and their fates.
ghost use Rattle.std.specs.Prelude.{◌≡◌, None};
ghost use Rattle.vclock.specs.Answer.{Answers};
ghost use Rattle.hint_store.specs.Hints.{delivery_by};

use std::alloc::Global;
use vclock::{Bytes, Refusal};
use version_set::Version;

/// A version that a carrier keeps for a replica that is down, the hint's owner, until it is delivered.
#[derive(Debug, Drop)]
pub struct Hint {
    /// The number of the hint at its carrier, from 1.
    pub id: u32,
    /// The replica for which the hint is kept.
    pub owner: u16,
    /// The key.
    pub key: Bytes,
    /// The version.
    pub version: Version,
}

impl Hint {
    /// Returns an equal hint. Refused: NoMemory.
    pub fn try_clone(&self, alloc: Global) -> Result<Hint, Refusal>
        ensures { Answers result None (λ copy. copy ≡ self.now) }
    {
        Ok(Hint {
            id: self.id,
            owner: self.owner,
            key: self.key.try_clone()?,
            version: self.version.try_clone()?,
        })
    }

    /// Returns the delivery of the hint to its owner, which knew the version or journaled it. Doesn't allocate.
    pub fn into_delivery(self, known: bool) -> Delivery
        ensures { result ≡ delivery_by self known }
    {
        let Hint {
            id: _,
            owner,
            key,
            version,
        } = self;
        Delivery {
            owner,
            key,
            version,
            known,
        }
    }
}

/// The delivery of a hint: its owner journaled the version, or knew it.
///
/// ```
/// let delivery = Delivery {
///     owner,
///     key: Bytes::copy_of(alloc, b"a")?,
///     version: version(alloc, (1, count), Kind::Live, b"x")?,
///     known: false,
/// };
/// store.confirm(id, delivery)
/// ```
#[derive(Debug, Drop)]
pub struct Delivery {
    /// The replica that accepted the hint or knew its version.
    pub owner: u16,
    /// The key.
    pub key: Bytes,
    /// The version.
    pub version: Version,
    /// True if the version was already covered there, false if it was journaled.
    pub known: bool,
}

/// The fate of a hint: it waits for its owner, or was delivered.
#[derive(Clone, Copy, Debug, PartialEq, Eq)]
pub enum Fate {
    /// The hint isn't delivered yet.
    Pending,
    /// Its owner journaled the version.
    Taken,
    /// The version was covered at its owner.
    Known,
}

/// A hint that was kept, and its fate.
#[derive(Debug, Drop)]
pub struct Kept {
    /// The hint.
    pub hint: Hint,
    /// The fate of the hint.
    pub fate: Fate,
}
