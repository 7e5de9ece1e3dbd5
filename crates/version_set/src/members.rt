//! The storage of a set's members.
ghost use Rattle.std.specs.Prelude.{◌≡◌, ◌<◌, ◌≤◌, ◌+◌, not, filter, length, None, IfOk, OnOk, OnErr};
ghost use Rattle.std.specs.Vec.{vec_len, vec_capacity};
ghost use Rattle.vclock.specs.Answer.{Answers};
ghost use Rattle.version_set.specs.Version.{is_below, with_version};
ghost use Rattle.version_set.specs.Members.{members_of};

use crate::version::Version;
use std::alloc::{AllocError, Global};
use std::cmp::Ordering;
use std::slice;
use vclock::Refusal;

/// The members of a set. A single one is stored inline, since most sets have one: such a set takes no block of memory.
#[derive(Debug, Drop)]
pub(crate) enum Members {
    /// One member, and the allocator for more.
    One(Global, Version),
    /// No member, or several.
    Many(Vec<Version>),
}

impl Members {
    /// Creates the members from a list. Doesn't allocate.
    pub(crate) fn of(mut versions: Vec<Version>) -> Members
        ensures { members_of result ≡ versions.items }
    {
        if versions.len() != 1 {
            return Members::Many(versions);
        }
        let alloc = *versions.allocator();
        match versions.pop() {
            Some(version) => Members::One(alloc, version),
            None => Members::Many(versions),
        }
    }

    /// Returns the members in order.
    pub(crate) fn as_slice(&self) -> &[Version]
        ensures { result.now ≡ members_of self.now }
    {
        match self {
            Members::One(_, version) => slice::from_ref(version),
            Members::Many(versions) => versions.as_slice(),
        }
    }

    /// Returns equal members. Refused: NoMemory.
    pub(crate) fn try_clone(&self, alloc: Global) -> Result<Members, Refusal>
        ensures { Answers result None (λ copy. members_of copy ≡ members_of self.now) }
    {
        Ok(match self {
            Members::One(_, version) => Members::One(alloc, version.try_clone()?),
            Members::Many(versions) => Members::Many(clone_with_room(
                alloc,
                versions,
                versions.len(),
            )?),
        })
    }

    /// Removes the members below a version, and inserts it in the order of texts. `kept` members aren't below it. A
    /// member that takes another's place takes no memory. On error the members are unchanged. Refused: NoMemory.
    pub(crate) fn replace_below(&mut self, version: Version, kept: usize) -> Result<(), Refusal>
        requires { kept ≡ length (filter (λ w. not (is_below w version)) (members_of self.old)) }
        ensures answers { Answers result None (λ _. members_of self.new ≡ with_version version (filter (λ w. not (is_below w version)) (members_of self.old))) }
        ensures err { OnErr result (members_of self.new ≡ members_of self.old) }
    {
        if kept == 0 {
            *self = Members::One(self.allocator(), version);
            return Ok(());
        }
        match self {
            Members::One(alloc, one) => {
                let mut versions = clone_with_room(*alloc, slice::from_ref(one), 2)?;
                drop_below(&mut versions, &version);
                insert(&mut versions, version);
                *self = Members::Many(versions);
            }
            Members::Many(versions) => {
                make_room(versions, kept)?;
                drop_below(versions, &version);
                insert(versions, version);
            }
        }
        Ok(())
    }

    /// Returns the allocator.
    fn allocator(&self) -> Global {
        match self {
            Members::One(alloc, _) => *alloc,
            Members::Many(versions) => *versions.allocator(),
        }
    }
}

/// Returns equal versions in a list with capacity for `room` of them. Refused: NoMemory.
fn clone_with_room(
    alloc: Global,
    versions: &[Version],
    room: usize,
) -> Result<Vec<Version>, Refusal>
    ensures copy { Answers result None (λ copy. copy.items ≡ versions.now) }
    ensures room { IfOk result (λ copy. room ≤ vec_capacity copy) }
{
    let mut copy = Vec::with_capacity(alloc, room)?;
    for version in versions {
        copy.push(version.try_clone()?)?;
    }
    Ok(copy)
}

/// Counts the versions that aren't below `version`.
pub(crate) fn count_kept(versions: &[Version], version: &Version) -> usize
    ensures count { result ≡ length (filter (λ w. not (is_below w version.now)) versions.now) }
    ensures bound { result ≤ length versions.now }
{
    versions
        .iter()
        .filter(|held| !held.is_below(version))
        .count()
}

/// Reserves capacity for exactly one more version if all versions are kept: most sets have one version.
fn make_room(versions: &mut Vec<Version>, kept: usize) -> Result<(), AllocError>
    requires { kept ≤ length versions.old.items }
    ensures items { versions.new.items ≡ versions.old.items }
    ensures room { OnOk result (kept < vec_capacity versions.new) }
{
    if kept == versions.len() {
        versions.reserve_exact(1)?;
    }
    Ok(())
}

/// Keeps the versions that aren't below `version`.
fn drop_below(versions: &mut Vec<Version>, version: &Version)
    ensures kept { versions.new.items ≡ filter (λ w. not (is_below w version.now)) versions.old.items }
    ensures room { vec_capacity versions.new ≡ vec_capacity versions.old }
    ensures bound { vec_len versions.new ≤ vec_len versions.old }
{
    versions.retain(|held| !held.is_below(version));
}

/// Inserts a version in the order of texts, unless an equal one is there.
fn insert(versions: &mut Vec<Version>, version: Version)
    requires { vec_len versions.old < vec_capacity versions.old }
    ensures { versions.new.items ≡ with_version version versions.old.items }
{
    let mut i = 0;
    while i < versions.len() {
        match version.text_order(&versions[i]) {
            Ordering::Less => break,
            Ordering::Equal => return,
            Ordering::Greater => i += 1,
        }
    }
    versions.insert(i, version).unwrap();
}
