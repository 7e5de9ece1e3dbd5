//! Leaves with more rows than a chunk holds. Another program made the digest from the definition.
ghost use Rattle.std.specs.Prelude.{◌≡◌, None, Some, if◌then◌else◌};
ghost use Rattle.version_set.specs.Version.{offer_fault};
ghost use Rattle.hash_tree.specs.Leaves.{versions_in};

use crate::checks::expect;
use crate::versions::version;
use hash_tree::SharedLeaf;
use std::alloc::Global;
use std::test::Fail;
use tree_nodes::{Text, hash};
use vclock::{Bytes, Format, Refusal, check_key};
use version_set::{Kind, Version};

/// The digest of a leaf of format 1 with 300 rows: the keys are the numbers from 0 to 299 as two bytes each, and each
/// has the value `x` with node 1 counted once.
const DIGEST: &str = "3d4b43aee8c45e9539c33cf37739c0af4a68f2c75518213933079d15d55106bd";

/// Returns true if an offer of the version to the set of a key is refused as Crowded.
fn crowds(leaf: &SharedLeaf, key: &[u8], version: &Version) -> bool
    ensures { offer_fault version.now (versions_in key.now leaf.now.rows)
        ≡ (if result then Some Refusal.Crowded else None) }
{
    match leaf.find(key) {
        Some(set) => set.crowds(version),
        None => false,
    }
}

/// Offers the value `x` to the set of a key.
fn offer(alloc: Global, leaf: &mut SharedLeaf, key: &[u8]) -> Result<(), Fail> {
    let version = version(alloc, (1, 1), Kind::Live, b"x")?;
    check_key(key)?;
    version
        .kind
        .check_value(leaf.format(), version.value.as_slice())?;
    if crowds(leaf, key, &version) {
        return Err(Fail::from("the set of a key has no room"));
    }
    let key = Bytes::copy_of(alloc, key)?;
    leaf.offer(alloc, &key, version)?;
    Ok(())
}

/// Asserts that a leaf has this text, and its digest.
fn expect_text(alloc: Global, leaf: &SharedLeaf, text: Vec<u8>) -> Result<(), Fail> {
    expect(
        leaf.text_len() == text.len() as u128 && leaf.is_text(text.as_slice()),
        "a leaf has its text",
    )?;
    expect(
        !leaf.is_text(&[0]),
        "a leaf with rows has another text than one without",
    )?;
    let spelled = hex::encode(alloc, hash(Text::from(text)).digest().as_slice())?;
    expect(spelled.as_str() == DIGEST, "the text has its digest")
}

/// Asserts that a leaf has 300 rows once they were offered, and their text.
fn expect_rows(alloc: Global, leaf: &mut SharedLeaf) -> Result<(), Fail> {
    for number in 0..300u16 {
        offer(alloc, leaf, &(number * 77 % 300).to_be_bytes())?;
    }
    for number in 0..300u16 {
        expect(leaf.find(&number.to_be_bytes()).is_some(), "a key is found")?;
    }
    expect(
        leaf.find(&300u16.to_be_bytes()).is_none(),
        "no other key is found",
    )?;
    let mut text = Vec::new(alloc);
    leaf.put_text(&mut text)?;
    expect_text(alloc, leaf, text)
}

#[test]
fn a_leaf_of_many_rows_keeps_their_text(rt: HostRuntime) -> Result<(), Fail> {
    expect_rows(rt.alloc(), &mut SharedLeaf::empty(Format::One))
}
