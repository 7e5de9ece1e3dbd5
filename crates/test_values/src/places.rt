//! Places of keys and rings, by the vectors of RFC 1321: MD5 of `a`, `abc` and `message digest`.
ghost use Rattle.std.specs.Prelude.{◌<◌, ◌≤◌};

use crate::checks::expect;
use crate::refusals::expect_refused;
use key_ring::{HashedKey, KeyPlace, Ring, place};
use std::alloc::Global;
use std::test::Fail;
use vclock::{Format, Refusal};

/// Asserts the range and the leaf of a key.
fn expect_place(format: Format, bits: u8, key: &[u8], range: u16, leaf: u16) -> Result<(), Fail>
    requires { bits ≤ 8 }
{
    let at = place(format, bits, key);
    expect(
        at.range == range && at.leaf == leaf,
        "a key is in its range and leaf",
    )
}

#[test]
fn keys_lie_where_their_digests_say(_rt: HostRuntime) -> Result<(), Fail> {
    expect_place(Format::One, 0, b"a", 0, 12)?;
    expect_place(Format::One, 0, b"abc", 0, 144)?;
    expect_place(Format::One, 0, b"message digest", 0, 249)?;
    expect_place(Format::One, 4, b"a", 0, 204)?;
    expect_place(Format::One, 4, b"abc", 9, 0)?;
    expect_place(Format::One, 4, b"message digest", 15, 150)
}

/// Returns the places of a key in both formats, from one hash.
fn places(bits: u8, key: &[u8]) -> (KeyPlace, KeyPlace)
    requires { bits ≤ 8 }
{
    let key = HashedKey::new(key);
    let (one, two) = (key.place(Format::One, bits), key.place(Format::Two, bits));
    (one, two)
}

#[test]
fn a_key_that_is_hashed_has_its_places(_rt: HostRuntime) -> Result<(), Fail> {
    let (one, two) = places(4, b"abc");
    expect(
        (one.range, one.leaf, two.range, two.leaf) == (9, 0, 9, 1),
        "a key has its places in both formats",
    )?;
    let front = HashedKey::new(b"abc").front();
    expect(
        front == 0x9001_5098_3cd2_4fb0,
        "a key has the front of its digest",
    )
}

#[test]
fn leaves_of_format_two_have_12_bits(_rt: HostRuntime) -> Result<(), Fail> {
    expect_place(Format::Two, 0, b"a", 0, 204)?;
    expect_place(Format::Two, 0, b"abc", 0, 2304)?;
    expect_place(Format::Two, 0, b"message digest", 0, 3990)?;
    expect_place(Format::Two, 4, b"a", 0, 3265)?;
    expect_place(Format::Two, 4, b"abc", 9, 1)?;
    expect_place(Format::Two, 4, b"message digest", 15, 2411)
}

/// Makes a ring.
fn new_ring(alloc: Global, bits: u64, nodes: &[u64], copies: u64) -> Result<Ring, Refusal> {
    Ring::new(alloc, bits, nodes, copies)
}

/// Asserts the preference list of a range.
fn expect_list(ring: &Ring, range: u16, list: [u16; 4]) -> Result<(), Fail>
    requires { range < 16 }
{
    if ring.bits() != 4 || ring.nodes().len() != 4 {
        return Err("a ring of 16 ranges and four nodes".into());
    }
    for place in 0..4usize {
        let node = ring.preference(range, place);
        expect(node == list[place], "a range has its list")?;
    }
    Ok(())
}

/// Asserts the properties of the ring of nodes 10, 20, 30 and 40.
fn expect_ring(ring: &Ring) -> Result<(), Fail> {
    expect(
        ring.bits() == 4 && ring.ranges() == 16 && ring.copies() == 2,
        "a ring has its ranges and copies",
    )?;
    expect(
        ring.nodes() == [10, 20, 30, 40].as_slice(),
        "a ring has its nodes",
    )?;
    expect(
        ring.range_of(b"abc") == 9 && ring.leaf_of(Format::Two, b"abc") == 1,
        "a key has its place",
    )?;
    expect(
        ring.contains(40) && !ring.contains(41),
        "41 is not on the ring",
    )?;
    expect_list(ring, 0, [10, 20, 30, 40])?;
    expect_list(ring, 9, [20, 30, 40, 10])?;
    expect_list(ring, 15, [40, 10, 20, 30])
}

#[test]
fn a_ring_names_who_keeps_a_range(rt: HostRuntime) -> Result<(), Fail> {
    expect_ring(&new_ring(rt.alloc(), 4, &[10, 20, 30, 40], 2)?)
}

#[test]
fn rings_have_1_to_32_nodes(rt: HostRuntime) -> Result<(), Fail> {
    let alloc = rt.alloc();
    let least = new_ring(alloc, 0, &[65_535], 1)?.ranges();
    let mut nodes = Vec::new(alloc);
    for node in 1..33u64 {
        nodes.push(node)?;
    }
    let most = new_ring(alloc, 8, &nodes, 32)?.ranges();
    expect(least == 1 && most == 256, "a ring has 1 to 256 ranges")?;
    nodes.push(33)?;
    expect_refused(new_ring(alloc, 8, &nodes, 32), Refusal::BadRing, "33 nodes")
}

#[test]
fn bad_rings_are_refused(rt: HostRuntime) -> Result<(), Fail> {
    for (bits, nodes, copies) in [
        (9, [1, 2].as_slice(), 1),
        (0, [1, 2].as_slice(), 3),
        (0, [1, 2].as_slice(), 0),
        (0, [].as_slice(), 0),
        (0, [1, 1].as_slice(), 1),
        (0, [0].as_slice(), 1),
        (0, [65_536].as_slice(), 1),
    ] {
        let ring = new_ring(rt.alloc(), bits, nodes, copies);
        expect_refused(ring, Refusal::BadRing, "no ring")?;
    }
    Ok(())
}
