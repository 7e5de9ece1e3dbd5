//! The hash of keys.
ghost use Rattle.std.specs.Prelude.{◌≡◌};
ghost use Rattle.row_table.specs.Hashes.{key_hash};

use std::hash::{FoldHasher, Hasher};

/// Two words that the hash of a key depends on, in addition to the key: 0 by default.
#[derive(Debug, Default, Clone, Copy, PartialEq, Eq)]
pub struct Seed {
    /// The first word.
    pub first: u64,
    /// The second word.
    pub second: u64,
}

impl Seed {
    /// Returns the hash of a key. Equal keys have equal hashes; no other promise is made. Doesn't allocate.
    #[tactic(auto, unfolding(crate::specs::Hashes::key_hash))]
    pub(crate) fn hash(self, key: &[u8]) -> u64
        ensures { result ≡ key_hash self key.now }
    {
        let mut hasher = FoldHasher::default();
        hasher.write_u64(self.first);
        hasher.write_u64(self.second);
        hasher.write(key);
        hasher.finish()
    }
}
