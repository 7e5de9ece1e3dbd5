//! Keys with their hashes.
ghost use Rattle.std.specs.Prelude.{◌≡◌, ◌-◌, ◌/◌, ◌<◌, ◌≤◌, ◌^◌};
ghost use Rattle.key_ring.specs.Places.{key_front, key_number, leaf_at, leaf_bits, range_at};
ghost use Rattle.key_ring.specs.Hashes.{key_hash};

use crate::places::KeyPlace;
use md5::{Digest, Md5};
use std::hash::{FoldHasher, Hasher};
use std::marker::Model;
use vclock::Format;

/// A key with a fast hash of it, and maybe with the first 64 bits of its MD5 digest (RFC 1321), which give its range
/// and its leaf in either format. A caller that knows the leaf of a key needs no digest; a caller that may need one
/// computes it by `placed` before a lock is taken.
///
/// ```
/// let key = HashedKey::new(key);
/// let (one, two) = (key.place(Format::One, bits), key.place(Format::Two, bits));
/// ```
#[derive(Debug, Drop)]
pub struct HashedKey<'a> {
    bytes: &'a [u8],
    hash: u64,
    front: Option<u64>,
}

impl<'a> Model for HashedKey<'a> {
    ghost use Rattle.std.specs.Prelude.{◌≡◌, List, ℕ, IfSome};
    ghost use Rattle.key_ring.specs.Places.{key_front};
    ghost use Rattle.key_ring.specs.Hashes.{key_hash};

    ghost Value = { List ℕ };

    ghost view = { λ k. k.bytes.now };

    ghost invariant = { λ k. (k.hash ≡ key_hash k.bytes.now) × IfSome k.front (λ front. front ≡ key_front k.bytes.now) };
}

impl<'a> HashedKey<'a> {
    /// Hashes a key of any length by the fast hash only. Doesn't allocate.
    pub fn new(key: &'a [u8]) -> HashedKey<'a>
        ensures { result ≡ key.now }
    {
        HashedKey {
            bytes: key,
            hash: hash_of(key),
            front: None,
        }
    }

    /// Hashes a key of any length, by MD5 as well. Doesn't allocate.
    pub fn placed(key: &'a [u8]) -> HashedKey<'a>
        ensures { result ≡ key.now }
    {
        HashedKey {
            bytes: key,
            hash: hash_of(key),
            front: Some(front_of(key)),
        }
    }

    /// Returns the key.
    pub fn bytes(&self) -> &'a [u8]
        ensures { result.now ≡ self.now }
    {
        self.bytes
    }

    /// Returns the fast hash of the key. Equal keys have equal hashes; no other promise is made.
    pub fn hash(&self) -> u64
        ensures { result ≡ key_hash self.now }
    {
        self.hash
    }

    /// Returns the first 64 bits of the key's MD5 digest as a number, the first byte highest. Hashes, unless `placed`
    /// did.
    pub fn front(&self) -> u64
        ensures { result ≡ key_front self.now }
    {
        match self.front {
            Some(front) => front,
            None => front_of(self.bytes),
        }
    }

    /// Returns the range and the leaf of the key, as [`place`](crate::place) does. Hashes by MD5, unless `placed` did.
    pub fn place(&self, format: Format, bits: u8) -> KeyPlace
        requires { bits ≤ 8 }
        ensures range { result.range ≡ range_at bits self.now }
        ensures leaf { result.leaf ≡ leaf_at format bits self.now }
        ensures in_ring { result.range < 2 ^ bits }
        ensures in_tree { result.leaf < 2 ^ leaf_bits format }
    {
        let first = self.first_bits();
        let below_range = 24 - u32::from(bits);
        let leaf_bits = leaf_bits(format);
        let leaf_mask = (1 << leaf_bits) - 1;
        let range = (first >> below_range) as u16;
        let leaf = ((first >> (below_range - leaf_bits)) & leaf_mask) as u16;
        KeyPlace { range, leaf }
    }

    /// Returns the first 24 bits: a range and a leaf have at most 20.
    #[tactic(auto, unfolding(crate::specs::Places::key_front))]
    fn first_bits(&self) -> u32
        ensures bits { result ≡ key_number self.now / 2 ^ 104 }
        ensures short { result < 2 ^ 24 }
    {
        (self.front() >> 40) as u32
    }
}

/// Returns the hash of a key by the kit's `FoldHasher`.
#[tactic(auto, unfolding(crate::specs::Hashes::key_hash))]
fn hash_of(key: &[u8]) -> u64
    ensures { result ≡ key_hash key.now }
{
    let mut hasher = FoldHasher::default();
    hasher.write(key);
    hasher.finish()
}

/// Returns the first 64 bits of the MD5 digest of a key.
fn front_of(key: &[u8]) -> u64
    ensures { result ≡ key_front key.now }
{
    let digest = Md5::digest(key);
    u64::from_be_bytes([
        digest[0], digest[1], digest[2], digest[3], digest[4], digest[5], digest[6], digest[7],
    ])
}

/// Returns the number of bits of a leaf.
fn leaf_bits(format: Format) -> u32
    ensures { result ≡ leaf_bits format }
{
    match format {
        Format::One => 8,
        Format::Two => 12,
    }
}
