//! Versions.
ghost use Rattle.std.specs.Prelude.{◌≡◌, ◌-◌, ◌^◌, ◌↔◌, min, IsTrue, None};
ghost use Rattle.vclock.specs.Answer.{Answers};
ghost use Rattle.version_set.specs.Sizes.{payload_len};
ghost use Rattle.version_set.specs.Version.{is_below, IsBelow, version_cmp, text_cmp, HasText, IsLive};

use crate::kind::Kind;
use std::cmp::Ordering;
use vclock::{Bytes, Clock, ClockOrder, Format, Refusal};

/// A value or a tombstone, with the clock under which it was put. One version is below another if its clock is before
/// the other's: the other writer had seen it. Equal clocks with different values are two versions, and both are kept.
///
/// ```
/// Ok(Version {
///     clock: Clock::from_pairs(alloc, &[pair])?,
///     kind,
///     value: Bytes::copy_of(alloc, value)?,
/// })
/// ```
#[derive(Debug, Drop)]
pub struct Version {
    /// The clock: all puts that the version has seen.
    pub clock: Clock,
    /// The kind: a value or a tombstone.
    pub kind: Kind,
    /// The value, which is empty for a tombstone.
    pub value: Bytes,
}

impl Version {
    /// Returns an equal version. Refused: NoMemory.
    pub fn try_clone(&self) -> Result<Version, Refusal>
        ensures { Answers result None (λ copy. copy ≡ self.now) }
    {
        Ok(Version {
            clock: self.clock.try_clone()?,
            kind: self.kind,
            value: self.value.try_clone()?,
        })
    }

    /// Returns true if both versions have equal clocks, kinds and values.
    pub fn same(&self, other: &Version) -> bool
        ensures { IsTrue result ↔ (self.now ≡ other.now) }
    {
        self.text_order(other).is_eq()
    }

    /// Returns true if the other's clock is later: each counter is at most the other's, and the clocks differ.
    pub fn is_below(&self, other: &Version) -> bool
        ensures test { result ≡ is_below self.now other.now }
        ensures fact { IsTrue result ↔ IsBelow self.now other.now }
    {
        // The calls give the prover the fact that both clocks are valid.
        let _valid = self.clock.pairs();
        let _other_valid = other.clock.pairs();
        match self.clock.compare(&other.clock) {
            ClockOrder::Before => true,
            ClockOrder::After | ClockOrder::Equal | ClockOrder::Apart => false,
        }
    }

    /// Compares the texts of two versions: the kind, the number of pairs, the pairs, the length of the value, the
    /// value. For live versions that is also the order of the texts in format 1, which have no kind.
    pub fn text_order(&self, other: &Version) -> Ordering
        ensures fields { result ≡ version_cmp self.now other.now }
        ensures text { HasText self.now → HasText other.now → result ≡ text_cmp Format.Two self.now other.now }
        ensures live { HasText self.now → HasText other.now → IsLive self.now → IsLive other.now
            → result ≡ text_cmp Format.One self.now other.now }
    {
        let (pairs, others) = (self.clock.pairs(), other.clock.pairs());
        let (value, other_value) = (self.value.as_slice(), other.value.as_slice());
        self.kind
            .byte()
            .cmp(&other.kind.byte())
            .then(pairs.len().cmp(&others.len()))
            .then(pairs.cmp(&others))
            .then(value.len().cmp(&other_value.len()))
            .then(value.cmp(&other_value))
    }
}

/// Returns the number of bytes of a key, and of a version's value and clock, at most 2^64 - 1: 10 bytes for each pair
/// of the clock. Doesn't allocate.
pub fn payload_len(key: &[u8], version: &Version) -> u64
    ensures { result ≡ min (payload_len key.now version.now) (2 ^ 64 - 1) }
{
    let pairs_len = 10 * version.clock.pairs().len() as u64;
    let value_len = version.value.as_slice().len() as u64 + pairs_len;
    (key.len() as u64).saturating_add(value_len)
}
