//! Texts with their digests (FIPS 180-4).
ghost use Rattle.std.specs.Prelude.{◌≡◌, ℕ, List};
ghost use Rattle.sha2.specs.Sha256.{sha256};

use crate::text::Text;
use sha2::{Digest as _, Sha256};
use std::marker::Model;

/// A SHA-256 digest.
pub type Digest = [u8; 32];

/// A text with its SHA-256 digest. Only `hash` computes one, so a call that takes a `Hashed` needn't hash the text, and
/// no text is hashed under a lock.
///
/// ```
/// let digest = hash(Text::from(leaf)).digest();
/// expect(is_spelled(alloc, digest, EMPTY_LEAF)?, "it has its digest")?;
/// let inner = inner_text(alloc, Format::One, &[digest; 16])?;
/// ```
#[derive(Debug)]
pub struct Hashed {
    text: Text,
    digest: Digest,
}

impl Model for Hashed {
    ghost Value = { List ℕ };

    ghost view = { λ h. h.text };

    ghost invariant = { λ h. h.digest ≡ sha256 h.text };
}

impl Hashed {
    /// Wraps a text and its known digest. Doesn't allocate or hash.
    pub fn known(text: Text, digest: Digest) -> Hashed
        requires { digest ≡ sha256 text }
        ensures { result ≡ text }
    {
        Hashed { text, digest }
    }

    /// Returns the text.
    pub fn text(&self) -> &[u8]
        ensures { result.now ≡ self.now }
    {
        self.text.as_slice()
    }

    /// Returns the digest of the text.
    pub fn digest(&self) -> Digest
        ensures { result ≡ sha256 self.now }
    {
        self.digest
    }
}

/// Hashes a text. Doesn't allocate.
pub fn hash(text: Text) -> Hashed
    ensures { result ≡ text }
{
    let digest = Sha256::digest(text.as_slice());
    Hashed::known(text, digest)
}

impl Drop for Hashed {
    /// Keeps the fields out of the proofs of callers that drop a text.
    fn drop(self) {
        let Hashed {
            text: _text,
            digest: _digest,
        } = self;
    }
}
