//! The digests of sixteen siblings that several owners may share.
ghost use Rattle.std.specs.Prelude.{◌≡◌, ◌<◌, ℕ, List, None, length, slice_index_or};
ghost use Rattle.vclock.specs.Answer.{Answers};

use crate::digest::Digest;
use std::alloc::{AllocError, Global};
use std::marker::Model;
use std::sync::Arc;
use vclock::Refusal;

/// The digests of the children of one node, in order, with any number of owners: marks and the digests that were taken
/// of them share it until one of the children becomes dirty.
#[derive(Debug)]
pub(crate) struct DigestBlock {
    digests: Arc<[Digest; 16], Global>,
}

impl Model for DigestBlock {
    ghost use Rattle.std.specs.Prelude.{◌≡◌, ℕ, length, List};
    ghost use Rattle.std.specs.Arc.{arc_value};

    ghost Value = { List (List ℕ) };

    ghost view = { λ b. arc_value b.digests };

    ghost invariant = { λ b. length (arc_value b.digests) ≡ 16 };
}

impl Clone for DigestBlock {
    ghost use Rattle.std.specs.Prelude.{◌≡◌};

    ghost is_clone = { λ block copy. copy ≡ block };

    /// Adds an owner to the digests, and returns its handle. Fails only if memory is needed. Copies no digest.
    fn clone(&self) -> Result<DigestBlock, AllocError> {
        Ok(DigestBlock {
            digests: Arc::try_clone(&self.digests)?,
        })
    }
}

impl DigestBlock {
    /// Creates a block. Refused: NoMemory.
    pub(crate) fn new(alloc: Global, digests: [Digest; 16]) -> Result<DigestBlock, Refusal>
        ensures { Answers result None (λ block. block ≡ digests) }
    {
        Ok(DigestBlock {
            digests: Arc::new(alloc, digests)?,
        })
    }

    /// Returns the digests.
    pub(crate) fn digests(&self) -> &[Digest; 16]
        ensures { result.now ≡ self.now }
    {
        &self.digests
    }

    /// Returns the digest at an index.
    pub(crate) fn get(&self, at: usize) -> Digest
        requires { at < 16 }
        ensures { (d : List ℕ) → result ≡ slice_index_or self.now at d }
    {
        self.digests[at]
    }
}

impl Drop for DigestBlock {
    /// Keeps the fields out of the proofs of callers that drop a block.
    fn drop(self) {
        let DigestBlock { digests: _digests } = self;
    }
}
