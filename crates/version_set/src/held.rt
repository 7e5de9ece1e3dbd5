//! Sets that may be absent.
ghost use Rattle.std.specs.Prelude.{◌≡◌, [], map, None, Some, option_map, unwrap_or, if◌then◌else◌};
ghost use Rattle.vclock.specs.Answer.{Answers};
ghost use Rattle.version_set.specs.Version.{covered, offer_fault};

use crate::set::VersionSet;
use crate::version::Version;
use std::alloc::Global;
use std::marker::Model;
use vclock::{Clocks, Refusal};

/// The versions that are held for a key: the members of its set, or none if it has no set. Clauses see them as a list.
///
/// ```
/// receipt.key.as_slice() == key && !held.covers(&receipt.version)
/// ```
#[derive(Debug, Drop)]
pub struct Held<'a> {
    set: Option<&'a VersionSet>,
}

impl<'a> Model for Held<'a> {
    ghost use Rattle.std.specs.Prelude.{List, [], option_map, unwrap_or};
    ghost use Rattle.version_set.specs.declared.version.Version.{Version};

    ghost Value = { List Version };

    ghost view = { λ h. unwrap_or (option_map (λ s. s.now) h.set) [] };
}

impl<'a> Held<'a> {
    /// Wraps a set, if any. Doesn't allocate.
    pub fn new(set: Option<&'a VersionSet>) -> Held<'a>
        ensures { result ≡ unwrap_or (option_map (λ s. s.now) set.entry) [] }
    {
        Held { set }
    }

    /// Returns the set, if any. Doesn't allocate.
    pub fn set(&self) -> Option<&'a VersionSet>
        ensures { unwrap_or (option_map (λ s. s.now) result) [] ≡ self.now }
    {
        self.set
    }

    /// Returns the versions, in ascending order of their texts. Doesn't allocate.
    pub fn as_slice(&self) -> &'a [Version]
        ensures { result.now ≡ self.now }
    {
        match self.set {
            Some(set) => set.as_slice(),
            None => &[],
        }
    }

    /// Copies the versions into a set. Refused: NoMemory.
    pub fn to_set(&self, alloc: Global) -> Result<VersionSet, Refusal>
        ensures { Answers result None (λ copy. copy ≡ self.now) }
    {
        match self.set {
            Some(set) => set.try_clone(alloc),
            None => Ok(VersionSet::empty(alloc)),
        }
    }

    /// Returns the clocks of the versions, one for each, in the order of the versions. Refused: NoMemory.
    pub fn clocks(&self, alloc: Global) -> Result<Clocks, Refusal>
        ensures { Answers result None (λ clocks. clocks ≡ map (λ v. v.clock) self.now) }
    {
        match self.set {
            Some(set) => set.clocks(alloc),
            None => Ok(Clocks::new(alloc)),
        }
    }

    /// Returns true if a version is one of these or below one. Doesn't allocate.
    pub fn covers(&self, version: &Version) -> bool
        ensures { result ≡ covered version.now self.now }
    {
        match self.set {
            Some(set) => set.covers(version),
            None => false,
        }
    }

    /// Returns true if an offer of a version is refused as Crowded: the set would have over 64 members. Doesn't
    /// allocate.
    pub fn crowds(&self, version: &Version) -> bool
        ensures { offer_fault version.now self.now ≡ (if result then Some Refusal.Crowded else None) }
    {
        match self.set {
            Some(set) => set.crowds(version),
            None => false,
        }
    }
}
