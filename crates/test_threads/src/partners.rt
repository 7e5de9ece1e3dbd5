//! Partners: their rows, snapshots and offers.

use crate::calls::publish;
use crate::nodes::all_keys;
use range_journal::Source;
use range_state::RangeState;
use ring_node::OfferPool;
use snapshot::Snapshot;
use std::alloc::Global;
use std::sync::{Arc, Wait};
use std::test::Fail;
use test_values::versions::version;
use vclock::Refusal;
use version_set::{Kind, Version};

/// A key with a version that has a clock of one pair.
#[derive(Clone, Copy)]
pub struct Row<'a> {
    /// The key.
    pub key: &'a [u8],
    /// The pair of the clock.
    pub pair: (u64, u64),
    /// The value.
    pub value: &'a [u8],
}

impl<'a> Row<'a> {
    /// Returns the row of a key with the value `x`, in whose clock a node has counted once.
    pub fn new(key: &'a [u8], node: u64) -> Row<'a> {
        Row {
            key,
            pair: (node, 1),
            value: b"x",
        }
    }

    /// Returns the version.
    pub fn version(self, alloc: Global) -> Result<Version, Refusal> {
        version(alloc, self.pair, Kind::Live, self.value)
    }
}

/// Has a range accept these rows, makes all its nodes clean, and returns its snapshot.
fn fill(
    alloc: Global,
    state: &mut RangeState,
    rows: &[Row<'_>],
) -> Result<Arc<Snapshot, Global>, Refusal> {
    for row in rows {
        let version = row.version(alloc)?;
        state.accept(alloc, 0, Source::Copy, row.key, version)?;
    }
    state.rehash_here(alloc)?;
    state.snapshot(alloc)
}

/// Returns the snapshot of a partner's range of format 1, with all keys, that has these rows.
pub fn snapshot_of(alloc: Global, rows: &[Row<'_>]) -> Result<Arc<Snapshot, Global>, Fail> {
    let mut state = RangeState::new(alloc, all_keys(1_000)?)?;
    Ok(fill(alloc, &mut state, rows)?)
}

/// Returns the pool of a partner that has published a snapshot.
fn pool_with<R: Wait>(
    rt: &R,
    alloc: Global,
    snapshot: Arc<Snapshot, Global>,
) -> Result<OfferPool, Refusal> {
    let pool = OfferPool::new(alloc);
    publish(rt, &pool, snapshot)?;
    Ok(pool)
}

/// Returns the pool of a partner that has published the snapshot of a range of format 1, with all keys, that has these
/// rows.
pub fn pool_of<R: Wait>(rt: &R, alloc: Global, rows: &[Row<'_>]) -> Result<OfferPool, Fail> {
    let snapshot = snapshot_of(alloc, rows)?;
    Ok(pool_with(rt, alloc, snapshot)?)
}
