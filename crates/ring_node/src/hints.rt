//! Hints that threads share.
ghost use Rattle.std.specs.Prelude.{◌≡◌, ◌-◌, ◌<◌, ◌^◌, [], ◌∷◌, min, None, IfOk, IfSome};
ghost use Rattle.vclock.specs.Answer.{Answers};
ghost use Rattle.vclock.specs.Outcome.{Does, DoesAtOnce, gives};
ghost use Rattle.hint_store.specs.Hints.{AreHints, keep, next_hint, confirm};
ghost use Rattle.hint_store.specs.Renewals.{renewed};
ghost use Rattle.hint_store.specs.Counts.{counts_of};
ghost use Rattle.hint_store.specs.Sizes.{hints_len};
ghost use Rattle.ring_node.specs.Moments.{FoundAtSomeMoment, ChangedAtSomeMoment};

use hint_store::{Delivery, Hint, HintCounts, HintStore};
use std::alloc::Global;
use std::sync::{Mutex, Wait};
use vclock::{Bytes, Refusal};
use version_set::Version;

/// The hints of a carrier that threads share: a [`HintStore`] in a lock.
///
/// ```
/// let key = Bytes::copy_of(alloc, key)?;
/// self.hints.keep(rt, range.node(), key, version)?;
/// ```
#[derive(Drop)]
pub struct SharedHints {
    hints: Mutex<HintStore>,
}

impl SharedHints {
    /// Makes a store without hints. Doesn't allocate.
    pub fn new(alloc: Global) -> SharedHints {
        SharedHints {
            hints: Mutex::new(HintStore::new(alloc)),
        }
    }

    /// Keeps a version for a replica that is down, and returns the hint's id, as [`HintStore::keep`] does.
    ///
    /// Refused, in order: HintsFull (10,000 hints are pending, or the last id was used), NoMemory. On error the version
    /// isn't kept.
    pub fn keep<R: Wait>(
        &self,
        rt: &R,
        owner: u16,
        key: Bytes,
        version: Version,
    ) -> Result<u32, Refusal>
        ensures { ChangedAtSomeMoment AreHints
            (λ before after. Does result before after (keep before owner key version)) }
    {
        let mut hints = self.hints.lock(rt);
        let _valid = hints.pending();
        hints.keep(owner, key, version)
    }

    /// Copies the pending hint of an owner with the least id over `after`, as [`HintStore::next`] does.
    ///
    /// Refused: NoMemory.
    pub fn next<R: Wait>(
        &self,
        rt: &R,
        alloc: Global,
        owner: u16,
        after: u32,
    ) -> Result<Option<Hint>, Refusal>
        ensures found { IfOk result (λ found. IfSome found (λ h. (h.owner ≡ owner) × (after < h.id))) }
        ensures moment { FoundAtSomeMoment AreHints
            (λ hints. Answers result None (λ found. found ≡ next_hint (owner ∷ []) after hints)) }
    {
        let hints = self.hints.lock(rt);
        let _valid = hints.pending();
        hints.next(alloc, owner, after)
    }

    /// Records that the owner of a hint took it or knew it, as [`HintStore::confirm`] does. Doesn't allocate.
    ///
    /// Refused: UnknownHint (no pending hint has this id with this owner, key and version). On error nothing is
    /// recorded.
    pub fn confirm<R: Wait>(&self, rt: &R, id: u32, delivery: Delivery) -> Result<(), Refusal>
        ensures { ChangedAtSomeMoment AreHints
            (λ before after. DoesAtOnce result before after (confirm before id delivery)) }
    {
        let mut hints = self.hints.lock(rt);
        let _valid = hints.pending();
        hints.confirm(id, delivery)
    }

    /// Drops the delivered hints, and numbers the pending ones again from 1, in order, as [`HintStore::renewed`] does.
    /// The caller has exclusive access to the hints, so no delivery is in progress.
    ///
    /// Refused: NoMemory. On error the hints are unchanged.
    pub fn renew<R: Wait>(&mut self, rt: &R, alloc: Global) -> Result<(), Refusal>
        ensures { ChangedAtSomeMoment AreHints
            (λ before after. Does result before after (gives tt (renewed before))) }
    {
        let mut hints = self.hints.lock(rt);
        let _valid = hints.pending();
        *hints = hints.renewed(alloc)?;
        Ok(())
    }

    /// Returns the numbers of pending and of delivered hints, at one moment. Doesn't allocate.
    pub fn counts<R: Wait>(&self, rt: &R) -> HintCounts
        ensures { FoundAtSomeMoment AreHints (λ hints. result ≡ counts_of hints) }
    {
        let hints = self.hints.lock(rt);
        let _valid = hints.pending();
        hints.counts()
    }

    /// Returns the size of the hints, pending or delivered, at one moment, as [`HintStore::bytes`] does. Doesn't
    /// allocate.
    pub fn bytes<R: Wait>(&self, rt: &R) -> u64
        ensures { FoundAtSomeMoment AreHints (λ hints. result ≡ min (hints_len hints) (2 ^ 64 - 1)) }
    {
        let hints = self.hints.lock(rt);
        let _valid = hints.pending();
        hints.bytes()
    }
}
