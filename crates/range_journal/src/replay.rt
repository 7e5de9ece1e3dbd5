//! Replays of journals.
ghost use Rattle.std.specs.Prelude.{◌≡◌, ◌+◌, ◌<◌, ◌≤◌, ◌↔◌, List, ℕ, length, take, ⊤, None, IsTrue, OnOk, OnErr, bytes_eq, if◌then◌else◌};
ghost use Rattle.vclock.specs.Answer.{Answers};
ghost use Rattle.vclock.specs.Outcome.{Does, DoesOrBreaksOff, gives};
ghost use Rattle.version_set.specs.Version.{offer_fault, offered};
ghost use Rattle.range_journal.specs.Journal.{held, NeverCrowded};
ghost use Rattle.range_journal.specs.Replays.{set_at};

use crate::journal::Entry;
use std::alloc::Global;
use std::collections::HashMap;
use std::marker::Model;
use vclock::Refusal;
use version_set::{Version, VersionSet};

/// The versions that a journal held when it was shorter. A replay begins with no entry, and takes in entries on demand.
pub struct Replay<'a> {
    entries: &'a [Entry],
    front: u64,
    /// By key: the versions that the first `front` entries hold.
    sets: HashMap<&'a [u8], VersionSet>,
}

impl<'a> Model for Replay<'a> {
    ghost use Rattle.std.specs.Prelude.{◌≡◌, List, ℕ, take};
    ghost use Rattle.range_journal.specs.Journal.{held};
    ghost use Rattle.range_journal.specs.Replays.{Replayed, IsReplay, set_at};

    ghost Value = { Replayed };

    ghost view = { λ r. record { entries = r.entries.now; front = r.front } };

    ghost invariant = { λ r. IsReplay (record { entries = r.entries.now; front = r.front })
        × ((key : List ℕ) → set_at (λ k. k.now) r.sets key ≡ held (take r.front r.entries.now) key) };
}

impl<'a> Replay<'a> {
    /// Makes the replay of entries that never hold over 64 versions of a key. None is replayed. Doesn't allocate.
    pub fn new(alloc: Global, entries: &'a [Entry]) -> Replay<'a>
        requires { (key : List ℕ) → NeverCrowded entries.now key }
        ensures { result ≡ record { entries = entries.now; front = 0 } }
    {
        Replay {
            entries,
            front: 0,
            sets: HashMap::new(alloc),
        }
    }

    /// Replays entries until `front` of them are replayed. Refused: NoMemory, and then fewer may be replayed.
    pub fn advance(&mut self, alloc: Global, front: u64) -> Result<(), Refusal>
        requires later { self.old.front ≤ front }
        requires within { front ≤ length self.old.entries }
        ensures advances { DoesOrBreaksOff result self.old self.new (gives tt (record self.old { front = front })) }
    {
        while self.front < front {
            self.step(alloc)?;
        }
        Ok(())
    }

    /// Returns true if these versions were held for a key. Doesn't allocate.
    pub fn holds(&self, key: &[u8], versions: &VersionSet) -> bool
        ensures { IsTrue result ↔ (held (take self.now.front self.now.entries) key.now ≡ versions.now) }
    {
        match self.sets.get(key) {
            Some(held) => held.same(versions),
            None => versions.is_empty(),
        }
    }

    /// Replays the next entry.
    fn step(&mut self, alloc: Global) -> Result<(), Refusal>
        requires { self.old.front < length self.old.entries }
        ensures { Does result self.old self.new (gives tt (record self.old { front = self.old.front + 1 })) }
    {
        let entries = self.entries;
        let entry = &entries[self.front as usize];
        offer_to(
            alloc,
            &mut self.sets,
            entry.key.as_slice(),
            entry.version.try_clone()?,
        )?;
        self.front += 1;
        Ok(())
    }
}

/// Offers a version to the set of a key, which has space for it. On error the sets are unchanged. Refused: NoMemory.
fn offer_to<'a>(
    alloc: Global,
    sets: &mut HashMap<&'a [u8], VersionSet>,
    key: &'a [u8],
    version: Version,
) -> Result<(), Refusal>
    requires room { offer_fault version (set_at (λ k. k.now) sets.old key.now) ≡ None }
    ensures answers { Answers result None (λ _. ⊤) }
    ensures ok { OnOk result ((k : List ℕ) → set_at (λ j. j.now) sets.new k
        ≡ (if bytes_eq key.now k then offered version (set_at (λ j. j.now) sets.old k) else set_at (λ j. j.now) sets.old k)) }
    ensures err { OnErr result ((k : List ℕ) → set_at (λ j. j.now) sets.new k ≡ set_at (λ j. j.now) sets.old k) }
{
    if let Some(set) = sets.get_mut(key) {
        set.offer(version)?;
        return Ok(());
    }
    let mut set = VersionSet::empty(alloc);
    set.offer(version)?;
    sets.insert(key, set)?;
    Ok(())
}

impl<'a> Drop for Replay<'a> {
    /// Keeps the fields out of the proofs of callers that drop a replay.
    fn drop(self) {
        let Replay {
            entries: _entries,
            front: _front,
            sets: _sets,
        } = self;
    }
}
