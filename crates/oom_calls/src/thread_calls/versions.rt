//! Versions, and the contexts and values of puts.
use std::alloc::Global;
use vclock::{Bytes, Clock, Refusal};
use version_set::{Kind, Version};

/// The text of the key `z` with two versions, `y` and `z`, in format 1.
pub(crate) const TWO_VERSIONS: &[u8] =
    b"\x00\x01z\x00\x02\x01\x00\x02\x00\x00\x00\x00\x00\x00\x00\x01\x00\x00\x00\x01y\x01\x00\x03\x00\x00\x00\x00\x00\x00\x00\x01\x00\x00\x00\x01z";

/// Returns a version that only one node has counted, with the value `x`.
pub(crate) fn version(alloc: Global, node: u64) -> Result<Version, Refusal> {
    Ok(Version {
        clock: Clock::from_pairs(alloc, &[(node, 1)])?,
        kind: Kind::Live,
        value: Bytes::copy_of(alloc, b"x")?,
    })
}

/// Returns the context and the value of a put.
pub(crate) fn put_parts(alloc: Global) -> Result<(Clock, Bytes), Refusal> {
    let context = Clock::from_pairs(alloc, &[(4, 1)])?;
    Ok((context, Bytes::copy_of(alloc, b"xy")?))
}
