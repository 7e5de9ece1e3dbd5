//! Sets of versions.
ghost use Rattle.std.specs.Prelude.{◌≡◌, ◌↔◌, ◌||◌, [], map, length, None, Some, IsOk, OnOk, OnErr, IsTrue, if◌then◌else◌};
ghost use Rattle.std.specs.List.{AllByRecursion};
ghost use Rattle.std.specs.Slice.Iter.{iter_rest};
ghost use Rattle.vclock.specs.Answer.{Answers};
ghost use Rattle.version_set.specs.Version.{is_below, is_same, covered, IsCovered, offered, offer_fault, IsVersionSet, NoneIsBelow, AscendsBy, HasText, IsLive, text_cmp};

use crate::members::{Members, count_kept};
use crate::version::Version;
use std::alloc::Global;
use std::cmp::Ordering;
use std::marker::Model;
use std::slice::Iter;
use vclock::limits::VERSIONS_MAX;
use vclock::{ClockOrder, Clocks, Format, Refusal};

/// The outcome of offering a version: new to the set, or known.
#[derive(Clone, Copy, Debug, PartialEq, Eq)]
pub enum Offered {
    /// The version is a member now.
    Added,
    /// The version was a member or below one: the set is unchanged.
    Known,
}

/// The maximal versions of those that were offered: no member is below another. More than one member means that writers
/// were concurrent, and a client resolves them by a put whose context has all their clocks. There are at most 64
/// members, in ascending order of their texts, so equal sets look alike on all replicas. On error a set is unchanged.
///
/// ```
/// offer_version(set, version(alloc, (1, 1), Kind::Tombstone, b"")?)?;
/// offer_version(set, version(alloc, (1, 1), Kind::Live, b"x")?)?;
/// let both = "[(1, 1)] Live [120]\n[(1, 1)] Tombstone []\n";
/// let held = members(alloc, set)?;
/// expect(held.as_str() == both, "a tombstone and a value are kept")
/// ```
#[derive(Debug)]
pub struct VersionSet {
    members: Members,
}

impl Model for VersionSet {
    ghost use Rattle.std.specs.Prelude.{List};
    ghost use Rattle.version_set.specs.declared.version.Version.{Version};
    ghost use Rattle.version_set.specs.Version.{IsVersionSet};
    ghost use Rattle.version_set.specs.Members.{members_of};

    ghost Value = { List Version };

    ghost view = { λ s. members_of s.members };

    ghost invariant = { λ s. IsVersionSet (members_of s.members) };
}

impl VersionSet {
    /// Creates an empty set. Doesn't allocate.
    pub fn empty(alloc: Global) -> VersionSet
        ensures { result ≡ [] }
    {
        VersionSet {
            members: Members::Many(Vec::new(alloc)),
        }
    }

    /// Creates a set from versions that already form one: in ascending order of their texts, no version below another,
    /// at most 64. Doesn't allocate.
    pub fn of_ascending(members: Vec<Version>) -> VersionSet
        requires { IsVersionSet members.items }
        ensures { result ≡ members.items }
    {
        VersionSet {
            members: Members::of(members),
        }
    }

    /// Returns an iterator over the members, in ascending order of their texts. No member is below another.
    pub fn iter(&self) -> Iter<'_, Version>
        ensures all { iter_rest result ≡ self.now }
        ensures valid { IsVersionSet self.now }
        ensures apart { NoneIsBelow self.now }
        ensures text { AllByRecursion HasText self.now → AscendsBy (text_cmp Format.Two) self.now }
        ensures live { AllByRecursion HasText self.now → AllByRecursion IsLive self.now
            → AscendsBy (text_cmp Format.One) self.now }
    {
        self.as_slice().iter()
    }

    /// Returns the members as a slice, in ascending order of their texts.
    pub fn as_slice(&self) -> &[Version]
        ensures all { result.now ≡ self.now }
        ensures valid { IsVersionSet self.now }
    {
        self.members.as_slice()
    }

    /// Returns the number of members, at most 64.
    pub fn len(&self) -> usize
        ensures { result ≡ length self.now }
    {
        self.as_slice().len()
    }

    /// Returns true if the set is empty.
    pub fn is_empty(&self) -> bool
        ensures { IsTrue result ↔ (self.now ≡ []) }
    {
        self.as_slice().is_empty()
    }

    /// Returns an equal set. Refused: NoMemory.
    pub fn try_clone(&self, alloc: Global) -> Result<VersionSet, Refusal>
        ensures { Answers result None (λ copy. copy ≡ self.now) }
    {
        Ok(VersionSet {
            members: self.members.try_clone(alloc)?,
        })
    }

    /// Returns the clocks of the members, one for each, in the order of the members. Refused: NoMemory.
    pub fn clocks(&self, alloc: Global) -> Result<Clocks, Refusal>
        ensures { Answers result None (λ clocks. clocks ≡ map (λ v. v.clock) self.now) }
    {
        let mut clocks = Clocks::new(alloc);
        for version in self.as_slice() {
            clocks.push(version.clock.try_clone()?)?;
        }
        Ok(clocks)
    }

    /// Returns true if both sets have equal members.
    pub fn same(&self, other: &VersionSet) -> bool
        ensures { IsTrue result ↔ (self.now ≡ other.now) }
    {
        are_same(self.as_slice(), other.as_slice())
    }

    /// Returns true if the version is a member or below one.
    pub fn covers(&self, version: &Version) -> bool
        ensures test { result ≡ covered version.now self.now }
        ensures fact { IsTrue result ↔ IsCovered version.now self.now }
    {
        // The call gives the prover the fact that the version's clock is valid.
        let _valid = version.clock.pairs();
        is_covered(self.as_slice(), version)
    }

    /// Returns true if an offer of the version is refused as Crowded: the set would have over 64 members.
    pub fn crowds(&self, version: &Version) -> bool
        ensures { offer_fault version.now self.now ≡ (if result then Some Refusal.Crowded else None) }
    {
        // Most sets have so few members that any version fits.
        if self.as_slice().len() < VERSIONS_MAX {
            return false;
        }
        if is_covered(self.as_slice(), version) {
            return false;
        }
        count_kept(self.as_slice(), version) >= VERSIONS_MAX
    }

    /// Adds a version to the set and removes the members below it, unless the set covers the version.
    ///
    /// Refused, in order: Crowded (the set would have over 64 members), NoMemory.
    pub fn offer(&mut self, version: Version) -> Result<Offered, Refusal>
        ensures answers { Answers result (offer_fault version self.old) (λ offered. (offered ≡ Offered.Known) ↔ IsTrue (covered version self.old)) }
        ensures set { OnOk result (self.new ≡ offered version self.old) }
        ensures known { IsTrue (covered version self.old) → IsOk result }
        ensures err { OnErr result (self.new ≡ self.old) }
    {
        let _valid = version.clock.pairs();
        if is_covered(self.as_slice(), &version) {
            return Ok(Offered::Known);
        }
        let kept = count_kept(self.as_slice(), &version);
        if kept >= VERSIONS_MAX {
            return Err(Refusal::Crowded);
        }
        self.members.replace_below(version, kept)?;
        Ok(Offered::Added)
    }
}

/// Returns true if two lists have equal versions, in equal order.
fn are_same(versions: &[Version], others: &[Version]) -> bool
    ensures { IsTrue result ↔ (versions.now ≡ others.now) }
{
    if versions.len() != others.len() {
        return false;
    }
    for i in 0..versions.len() {
        if !versions[i].same(&others[i]) {
            return false;
        }
    }
    true
}

/// Returns true if a version is one of `versions` or below one.
fn is_covered(versions: &[Version], version: &Version) -> bool
    ensures { result ≡ covered version.now versions.now }
{
    versions.iter().any(|held| is_covered_by(version, held))
}

/// Returns true if a version equals the held one or is below it.
fn is_covered_by(version: &Version, held: &Version) -> bool
    ensures { result ≡ (is_same version.now held.now || is_below version.now held.now) }
{
    match version.clock.compare(&held.clock) {
        ClockOrder::Before => true,
        ClockOrder::Equal => version.text_order(held) == Ordering::Equal,
        ClockOrder::After | ClockOrder::Apart => false,
    }
}

impl Drop for VersionSet {
    /// Keeps the fields out of the proofs of callers that drop a set.
    fn drop(self) {
        let VersionSet { members: _members } = self;
    }
}
