//! The ranges and the nodes of keys.
ghost use Rattle.std.specs.Prelude.{◌^◌, ◌<◌, ◌≤◌};

use key_ring::Ring;
use std::alloc::Global;
use vclock::Refusal;

/// The total number of carts in both ranges.
const CARTS: u64 = 6;

/// The total number of orders in both ranges.
const ORDERS: u64 = 100;

/// The two nodes that keep a range, in the order of its preference list.
#[derive(Clone, Copy)]
pub(crate) struct Homes {
    pub(crate) first: u16,
    pub(crate) second: u16,
    ghost one: { 1 ≤ first },
    ghost other: { 1 ≤ second },
}

/// Returns the nodes that keep a range. Refused: BadRing (the ring has fewer than two nodes).
pub(crate) fn homes_of(ring: &Ring, range: u16) -> Result<Homes, Refusal>
    requires { range < 2 ^ ring.now.bits }
{
    if ring.nodes().len() < 2 {
        return Err(Refusal::BadRing);
    }
    Ok(Homes {
        first: ring.preference(range, 0),
        second: ring.preference(range, 1),
    })
}

/// Returns the keys in a range among the first `count` of `NAME-0`, `NAME-1` and so on. Refused: NoMemory.
fn keys_in(
    alloc: Global,
    ring: &Ring,
    range: u16,
    name: &str,
    count: u64,
) -> Result<Vec<String>, Refusal> {
    let mut keys = Vec::new(alloc);
    for number in 0..count {
        let key = format!(in alloc; "{name}-{number}")?;
        if ring.range_of(key.as_bytes()) == range {
            keys.push(key)?;
        }
    }
    Ok(keys)
}

/// The keys of a range.
pub(crate) struct Keys {
    pub(crate) carts: Vec<String>,
    pub(crate) orders: Vec<String>,
}

impl Keys {
    /// Returns the keys of carts and orders that are in a range. Refused: NoMemory.
    pub(crate) fn of(alloc: Global, ring: &Ring, range: u16) -> Result<Keys, Refusal> {
        let carts = keys_in(alloc, ring, range, "cart", CARTS)?;
        let orders = keys_in(alloc, ring, range, "order", ORDERS)?;
        Ok(Keys { carts, orders })
    }
}

impl Drop for Keys {
    /// Keeps the fields out of the proofs of functions that drop keys.
    fn drop(self) {
        let Keys {
            carts: _carts,
            orders: _orders,
        } = self;
    }
}
