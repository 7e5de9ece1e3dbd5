//! Shared leaves.
ghost use Rattle.std.specs.Prelude.{◌≡◌, None, Some, if◌then◌else◌};
ghost use Rattle.version_set.specs.Version.{offer_fault};
ghost use Rattle.hash_tree.specs.Leaves.{versions_in};

use crate::core_calls::versions::version;
use crate::lines::{show, unchanged};
use hash_tree::SharedLeaf;
use std::alloc::Global;
use std::io;
use vclock::{Bytes, Format, Refusal, check_key};
use version_set::Version;

/// The keys, of one byte each, that are offered a version in turn.
const KEYS: &[u8] = b"acabeda";

/// Shows the calls on shared leaves.
pub(crate) fn show_all<R: Print + AllocGlobal>(rt: &R) -> io::Result<()> {
    let alloc = rt.alloc();
    show(rt, "SharedLeaf::offer", offer(alloc))?;
    show(
        rt,
        "SharedLeaf::offer, of two owners",
        offer_to_a_copy(alloc),
    )?;
    show(
        rt,
        "SharedLeaf::offer, to a full chunk",
        offer_to_a_full_chunk(alloc),
    )?;
    show(rt, "SharedLeaf::share", share(alloc))?;
    show(rt, "SharedLeaf::put_text", put_text(alloc))
}

/// Returns the number of keys of one byte that have a row.
fn count(leaf: &SharedLeaf) -> u64 {
    (0..=255u8)
        .filter(|key| leaf.find(&[*key]).is_some())
        .count() as u64
}

/// Returns true if an offer of the version to the set of a key is refused as Crowded.
fn crowds(leaf: &SharedLeaf, key: &[u8], version: &Version) -> bool
    ensures { offer_fault version.now (versions_in key.now leaf.now.rows)
        ≡ (if result then Some Refusal.Crowded else None) }
{
    match leaf.find(key) {
        Some(set) => set.crowds(version),
        None => false,
    }
}

/// Offers a version to the set of a key.
fn offer_to(alloc: Global, leaf: &mut SharedLeaf, key: u8) -> Result<(), Refusal> {
    let version = version(alloc, 2)?;
    let key = Bytes::copy_of(alloc, &[key])?;
    check_key(key.as_slice())?;
    version
        .kind
        .check_value(leaf.format(), version.value.as_slice())?;
    if crowds(leaf, key.as_slice(), &version) {
        return Err(Refusal::Crowded);
    }
    leaf.offer(alloc, &key, version)
}

/// Returns a leaf in which each of these keys was offered a version.
pub(crate) fn leaf_of(alloc: Global, keys: &[u8]) -> Result<SharedLeaf, Refusal> {
    let mut leaf = SharedLeaf::empty(Format::One);
    for key in keys {
        offer_to(alloc, &mut leaf, *key)?;
    }
    Ok(leaf)
}

/// Returns the text of a leaf.
fn text_of(alloc: Global, leaf: &SharedLeaf) -> Result<Vec<u8>, Refusal> {
    let mut text = Vec::new(alloc);
    leaf.put_text(&mut text)?;
    Ok(text)
}

/// Returns true if a leaf has the rows of one in which each of these keys was offered a version. Leaves with equal
/// texts have equal rows.
fn is_leaf_of(alloc: Global, leaf: &SharedLeaf, keys: &[u8]) -> Result<bool, Refusal> {
    let other = leaf_of(alloc, keys)?;
    let text = text_of(alloc, &other)?;
    let is_same = count(leaf) == count(&other) && leaf.text_len() == other.text_len();
    Ok(is_same && leaf.is_text(&text))
}

/// Offers a version to each key from a place on, if the keys before it were offered one.
fn grow(alloc: Global, leaf: &mut SharedLeaf, keys: &[u8], from: usize) -> Result<u64, Refusal> {
    for (at, key) in keys.iter().enumerate().skip(from) {
        if let Err(refusal) = offer_to(alloc, leaf, *key) {
            let before = keys.get(..at).unwrap_or(keys);
            return Err(unchanged(refusal, is_leaf_of(alloc, leaf, before)));
        }
    }
    Ok(count(leaf))
}

fn offer(alloc: Global) -> Result<u64, Refusal> {
    grow(alloc, &mut SharedLeaf::empty(Format::One), KEYS, 0)
}

/// Offers to a leaf that shares its rows. The other owner's leaf is unchanged.
fn offer_to_a_copy(alloc: Global) -> Result<u64, Refusal> {
    let mut leaf = leaf_of(alloc, b"a")?;
    let other = leaf.share()?;
    let grown = grow(alloc, &mut leaf, KEYS, 1);
    let is_same = is_leaf_of(alloc, &other, b"a");
    match grown {
        Ok(rows) => Ok(rows.saturating_add(count(&other))),
        Err(refusal) => Err(unchanged(refusal, is_same)),
    }
}

/// Offers more rows than a chunk holds: a chunk of 15 rows is split before it takes one more.
fn offer_to_a_full_chunk(alloc: Global) -> Result<u64, Refusal> {
    let mut keys = Vec::with_capacity(alloc, 129)?;
    for key in 0..129u8 {
        keys.push(key)?;
    }
    grow(alloc, &mut SharedLeaf::empty(Format::One), &keys, 0)
}

/// Returns the number of rows in another owner's leaf.
fn share(alloc: Global) -> Result<u64, Refusal> {
    let leaf = leaf_of(alloc, KEYS)?;
    Ok(count(&leaf.share()?))
}

/// Returns the length of a text that is put after another byte, in bytes.
fn put_text(alloc: Global) -> Result<u64, Refusal> {
    let leaf = leaf_of(alloc, KEYS)?;
    let mut text = Vec::from_slice(alloc, b"z")?;
    match leaf.put_text(&mut text) {
        Ok(()) => Ok(text.len() as u64),
        Err(_) => Err(unchanged(Refusal::NoMemory, Ok(text.as_slice() == b"z".as_slice()))),
    }
}
