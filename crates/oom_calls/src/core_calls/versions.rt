//! Versions and sets of them.
use crate::lines::{show, unchanged};
use std::alloc::Global;
use std::io;
use vclock::{Bytes, Clock, Refusal};
use version_set::{Held, Kind, Version, VersionSet};

/// Shows the calls on versions and sets of them.
pub(crate) fn show_all<R: Print + AllocGlobal>(rt: &R) -> io::Result<()> {
    let alloc = rt.alloc();
    show(rt, "Version::try_clone", clone_of_version(alloc))?;
    show(rt, "VersionSet::offer", offer(alloc))?;
    show(rt, "VersionSet::clocks", clocks(alloc))?;
    show(rt, "VersionSet::try_clone", clone_of_set(alloc))?;
    show(rt, "Held::clocks", held_clocks(alloc))?;
    show(rt, "Held::to_set", held_set(alloc))
}

/// Returns a version that only one node has counted.
pub(crate) fn version(alloc: Global, node: u64) -> Result<Version, Refusal> {
    Ok(Version {
        clock: Clock::from_pairs(alloc, &[(node, 1)])?,
        kind: Kind::Live,
        value: Bytes::copy_of(alloc, b"x")?,
    })
}

/// Returns a version that two nodes have counted, so that a clone of it takes memory.
pub(crate) fn wide_version(alloc: Global, node: u64) -> Result<Version, Refusal> {
    Ok(Version {
        clock: Clock::from_pairs(alloc, &[(node, 1), (9, 1)])?,
        kind: Kind::Live,
        value: Bytes::copy_of(alloc, b"x")?,
    })
}

/// Returns the set of the versions of the nodes before this one.
fn set_before(alloc: Global, node: u64) -> Result<VersionSet, Refusal> {
    let mut set = VersionSet::empty(alloc);
    for earlier in 1..node {
        set.offer(version(alloc, earlier)?)?;
    }
    Ok(set)
}

fn clone_of_version(alloc: Global) -> Result<u64, Refusal> {
    Ok(wide_version(alloc, 7)?.try_clone()?.clock.get(7))
}

/// Offers versions until the set has grown.
fn offer(alloc: Global) -> Result<u64, Refusal> {
    let mut set = VersionSet::empty(alloc);
    for node in 1..9u64 {
        if let Err(refusal) = set.offer(version(alloc, node)?) {
            return Err(unchanged(refusal, is_before(alloc, &set, node)));
        }
    }
    Ok(set.len() as u64)
}

/// Returns true if a set has the versions of the nodes before this one.
fn is_before(alloc: Global, set: &VersionSet, node: u64) -> Result<bool, Refusal> {
    Ok(set.same(&set_before(alloc, node)?))
}

fn clocks(alloc: Global) -> Result<u64, Refusal> {
    Ok(set_before(alloc, 3)?.clocks(alloc)?.as_slice().len() as u64)
}

fn clone_of_set(alloc: Global) -> Result<u64, Refusal> {
    Ok(set_before(alloc, 3)?.try_clone(alloc)?.len() as u64)
}

fn held_clocks(alloc: Global) -> Result<u64, Refusal> {
    let set = set_before(alloc, 3)?;
    Ok(Held::new(Some(&set)).clocks(alloc)?.as_slice().len() as u64)
}

fn held_set(alloc: Global) -> Result<u64, Refusal> {
    let set = set_before(alloc, 3)?;
    Ok(Held::new(Some(&set)).to_set(alloc)?.len() as u64)
}
