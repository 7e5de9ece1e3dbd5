//! The store of a range, without sessions.
ghost use Rattle.std.specs.Prelude.{◌≤◌};

use crate::calls::{snapshot_of_a, text_at};
use range_store::{ContextTest, RangeConfig, RangeStore};
use std::alloc::Global;
use std::test::Fail;
use test_values::calls::{clock, node_at};
use test_values::checks::expect;
use vclock::{Bytes, Refusal};
use version_set::Kind;

/// Puts a value at a node, 1 to 65,535, with a context, and returns the number of the entry.
fn put(
    alloc: Global,
    store: &mut RangeStore,
    at: u16,
    context: &[(u64, u64)],
    key: &[u8],
    value: &[u8],
) -> Result<u64, Refusal>
    requires { 1 ≤ at }
{
    let context = clock(alloc, context)?;
    let value = Bytes::copy_of(alloc, value)?;
    let receipt = store.put(
        alloc,
        ContextTest::Fresh,
        0,
        at,
        key,
        &context,
        Kind::Live,
        value,
    )?;
    Ok(receipt.number)
}

/// Returns a store of format 1, of a ring with one range, that holds `x` under `a`, whose nodes are all clean.
fn store_of_a(alloc: Global) -> Result<RangeStore, Fail> {
    let config = RangeConfig::new(1, 0, 0, 1_000).ok_or("no such range")?;
    let mut store = RangeStore::new(alloc, config)?;
    let number = put(alloc, &mut store, 1, &[], b"a", b"x")?;
    let hashed = store.rehash_here(alloc)?;
    expect(
        number == 0 && hashed == 273,
        "the first entry, in a new tree",
    )?;
    Ok(store)
}

#[test]
fn a_store_has_the_texts_of_its_range(rt: HostRuntime) -> Result<(), Fail> {
    let alloc = rt.alloc();
    let mut store = store_of_a(alloc)?;
    let range = snapshot_of_a(&rt, alloc)?;
    let tree = store.kept_snapshot(alloc)?;
    for (depth, index) in [(0, 0), (1, 0), (2, 12), (2, 13)] {
        let node = node_at(depth, index)?;
        expect(
            text_at(alloc, &tree, node)?.as_slice() == text_at(alloc, &range, node)?.as_slice(),
            "a node has the same text",
        )?;
    }
    Ok(())
}
