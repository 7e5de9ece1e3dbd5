//! A version of one pair, and the members of a set as text.
use std::alloc::Global;
use std::fmt::Write;
use std::test::Fail;
use vclock::{Bytes, Clock, Refusal};
use version_set::{Kind, Version, VersionSet};

/// Returns the version with a clock of one pair.
pub fn version(
    alloc: Global,
    pair: (u64, u64),
    kind: Kind,
    value: &[u8],
) -> Result<Version, Refusal> {
    Ok(Version {
        clock: Clock::from_pairs(alloc, &[pair])?,
        kind,
        value: Bytes::copy_of(alloc, value)?,
    })
}

/// Returns the members of a set, each on a line.
pub fn members(alloc: Global, set: &VersionSet) -> Result<String, Fail> {
    let mut text = String::new(alloc);
    for version in set.iter() {
        let (pairs, kind, value) = (
            version.clock.pairs(),
            version.kind,
            version.value.as_slice(),
        );
        writeln!(text, "{pairs:?} {kind:?} {value:?}")?;
    }
    Ok(text)
}
