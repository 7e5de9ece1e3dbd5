//! The receipts of a pass that a read would miss.
ghost use Rattle.std.specs.Prelude.{◌≡◌};
ghost use Rattle.caller_pass.specs.Indexes.{IsIndex};
ghost use Rattle.caller_pass.specs.Locks.{is_missing, first_missing};

use crate::receipt_index::ByKey;
use key_ring::HashedKey;
use range_state::Receipt;
use version_set::Held;

/// Finds the number of the first receipt of a key whose version isn't covered by the versions held for the key, if any.
/// Looks at the linked receipts whose keys have the hash of the key, from the last one back, and at those that aren't
/// linked.
pub(crate) fn find_missing(
    receipts: &[Receipt],
    by_key: &ByKey,
    key: &HashedKey,
    held: &Held,
) -> Option<u64>
    requires { IsIndex receipts.now by_key.now }
    ensures { result ≡ first_missing receipts.now key.now held.now }
{
    let bytes = key.bytes();
    let mut found = first_missing(&receipts[by_key.len()..], bytes, held);
    let mut next = by_key.last(key.hash());
    while next > 0 {
        let place = next - 1;
        let receipt = &receipts[place];
        if is_missing(receipt, bytes, held) {
            found = Some(receipt.number);
        }
        next = by_key.earlier(place);
    }
    found
}

/// Finds that number by looking at all receipts.
fn first_missing(receipts: &[Receipt], key: &[u8], held: &Held) -> Option<u64>
    ensures { result ≡ first_missing receipts.now key.now held.now }
{
    for receipt in receipts {
        if is_missing(receipt, key, held) {
            return Some(receipt.number);
        }
    }
    None
}

/// Returns true if a receipt has that key, and its version isn't covered by the held versions.
#[tactic(auto, unfolding(crate::specs::Locks::is_missing))]
fn is_missing(receipt: &Receipt, key: &[u8], held: &Held) -> bool
    ensures { result ≡ is_missing receipt.now key.now held.now }
{
    receipt.key.as_slice() == key && !held.covers(&receipt.version)
}
