//! The range and the leaf of a key (sections 4.2, 4.7 and 6.2 of the Dynamo paper), by the 128 bits of its MD5 digest
//! (RFC 1321), the first byte of the digest highest.
ghost use Rattle.std.specs.Prelude.{◌≡◌, ◌<◌, ◌≤◌, ◌^◌};
ghost use Rattle.key_ring.specs.Places.{leaf_at, leaf_bits, range_at};

use crate::hashed_key::HashedKey;
use vclock::Format;

/// The range and the leaf of a key.
#[derive(Clone, Copy, Debug, PartialEq, Eq)]
pub struct KeyPlace {
    /// The range of the ring, from 0: at most 255.
    pub range: u16,
    /// The leaf of the range's tree, from 0: at most 255, or 4,095 in format 2.
    pub leaf: u16,
}

/// Returns the range and the leaf of a key, in a ring of 2^bits equal ranges, at most 256.
///
/// The range is the first `bits` bits of the key's digest, and the leaf the next 8, or 12 in format 2. The key may have
/// any length. Doesn't allocate.
pub fn place(format: Format, bits: u8, key: &[u8]) -> KeyPlace
    requires { bits ≤ 8 }
    ensures range { result.range ≡ range_at bits key.now }
    ensures leaf { result.leaf ≡ leaf_at format bits key.now }
    ensures in_ring { result.range < 2 ^ bits }
    ensures in_tree { result.leaf < 2 ^ leaf_bits format }
{
    HashedKey::new(key).place(format, bits)
}

/// Returns the number of leaves of a range.
pub fn leaf_count(format: Format) -> u16
    ensures { result ≡ 2 ^ leaf_bits format }
{
    match format {
        Format::One => 256,
        Format::Two => 4_096,
    }
}
