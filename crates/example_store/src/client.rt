//! The calls of a client's thread.
use caller_pass::Pass;
use ring_node::SharedRange;
use std::alloc::Global;
use std::sync::Wait;
use std::sync::ledger::Ledger;
use vclock::{Bytes, Clock, Refusal};
use version_set::{Kind, Version, VersionSet};

/// Returns the versions of a key. If there are several, they are concurrent. Refused: Behind, NoMemory.
pub(crate) fn read<L: Ledger, R: Wait>(
    rt: &R,
    alloc: Global,
    range: &SharedRange<L>,
    pass: &mut Pass<L>,
    key: &[u8],
) -> Result<VersionSet, Refusal> {
    match range.get(rt, alloc, pass, key) {
        Ok(versions) => Ok(versions),
        Err(unread) => Err(unread.into_refusal()),
    }
}

/// Returns the context that has seen these versions: their clocks, merged. Refused: ClockFull, NoMemory.
fn context_of(alloc: Global, versions: &VersionSet) -> Result<Clock, Refusal> {
    let mut context = Clock::from_pairs(alloc, &[])?;
    for version in versions.iter() {
        context = context.merge(alloc, &version.clock)?;
    }
    Ok(context)
}

/// Puts a value for a key in place of the versions that the context has seen, and returns the new version. Refused as
/// [`SharedRange::put_read`] is.
fn put<L: Ledger, R: Wait>(
    rt: &R,
    alloc: Global,
    range: &SharedRange<L>,
    pass: &mut Pass<L>,
    key: &[u8],
    context: &Clock,
    value: &[u8],
) -> Result<Version, Refusal> {
    let value = Bytes::copy_of(alloc, value)?;
    let receipt = range.put_read(rt, alloc, pass, key, context, Kind::Live, value)?;
    Ok(receipt.version)
}

/// Reads a key, and puts a value in place of all versions found. Refused as [`read`] and [`put`] are.
pub(crate) fn update<L: Ledger, R: Wait>(
    rt: &R,
    alloc: Global,
    range: &SharedRange<L>,
    pass: &mut Pass<L>,
    key: &[u8],
    value: &[u8],
) -> Result<Version, Refusal> {
    let versions = read(rt, alloc, range, pass, key)?;
    let context = context_of(alloc, &versions)?;
    put(rt, alloc, range, pass, key, &context, value)
}

/// Puts a value for a key without a read. Returns the number of clocks that the key holds if the put is refused for
/// them, or `None` if the value was put. Refused as [`put`] is, but not as StaleContext.
pub(crate) fn put_unread<L: Ledger, R: Wait>(
    rt: &R,
    alloc: Global,
    range: &SharedRange<L>,
    pass: &mut Pass<L>,
    key: &[u8],
    value: &[u8],
) -> Result<Option<usize>, Refusal> {
    let nothing = Clock::from_pairs(alloc, &[])?;
    match put(rt, alloc, range, pass, key, &nothing, value) {
        Err(Refusal::StaleContext(held)) => Ok(Some(held.as_slice().len())),
        Err(refusal) => Err(refusal),
        Ok(_) => Ok(None),
    }
}

/// Reads each key, and puts the same value in place of all versions found. Refused as [`update`] is.
pub(crate) fn update_each<L: Ledger, R: Wait>(
    rt: &R,
    alloc: Global,
    range: &SharedRange<L>,
    pass: &mut Pass<L>,
    keys: &[String],
    value: &[u8],
) -> Result<(), Refusal> {
    for key in keys {
        update(rt, alloc, range, pass, key.as_bytes(), value)?;
    }
    Ok(())
}
