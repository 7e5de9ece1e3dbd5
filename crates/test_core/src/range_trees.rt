//! The tree of a range, as one value.
use crate::calls::{snapshot_of_a, text_at};
use key_ring::place;
use range_tree::Tree;
use snapshot::Snapshot;
use std::alloc::Global;
use std::sync::Arc;
use std::test::Fail;
use test_values::calls::node_at;
use test_values::checks::expect;
use test_values::versions::version;
use vclock::{Bytes, Format, check_key};
use version_set::Kind;

/// Returns the snapshot of a tree of format 1, in a ring with one range, that holds `x` under a key.
fn snapshot_of(alloc: Global, key: &[u8]) -> Result<Arc<Snapshot, Global>, Fail> {
    let mut tree = Tree::empty(alloc, Format::One, 0, 0)?;
    let version = version(alloc, (1, 1), Kind::Live, b"x")?;
    check_key(key)?;
    version
        .kind
        .check_value(Format::One, version.value.as_slice())?;
    let home = place(Format::One, 0, key);
    let held = tree.find(home.leaf, key);
    if held.crowds(&version) {
        return Err(Fail::from("the set of a key has no room"));
    }
    let key = Bytes::copy_of(alloc, key)?;
    tree.offer(alloc, home.leaf, &key, version)?;
    let hashed = tree.rehash_here(alloc)?;
    let snapshot = tree.snapshot(alloc)?;
    expect(
        hashed == 273 && tree.dirty_count() == 0,
        "all nodes were hashed",
    )?;
    Ok(snapshot)
}

#[test]
fn a_tree_has_the_texts_of_its_range(rt: HostRuntime) -> Result<(), Fail> {
    let alloc = rt.alloc();
    let tree = snapshot_of(alloc, b"a")?;
    let range = snapshot_of_a(&rt, alloc)?;
    for (depth, index) in [(0, 0), (1, 0), (2, 12), (2, 13)] {
        let node = node_at(depth, index)?;
        expect(
            text_at(alloc, &tree, node)?.as_slice() == text_at(alloc, &range, node)?.as_slice(),
            "a node has the same text",
        )?;
    }
    Ok(())
}
