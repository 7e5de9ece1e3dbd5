//! The places of a pass's receipts, by key.
ghost use Rattle.std.specs.Prelude.{◌≡◌, ◌+◌, ◌-◌, ◌<◌, List, Some, length, slice_get, OnOk};
ghost use Rattle.range_journal.specs.declared.journal.Entry.{Entry};
ghost use Rattle.caller_pass.specs.Indexes.{IsIndex, found_in, hash_at};

use key_ring::HashedKey;
use range_state::Receipt;
use std::alloc::{AllocError, Global};
use std::collections::HashMap;

/// An index of a pass's receipts by the hashes of their keys (`HashedKey::hash`). It has the hashes of the first few
/// receipts, `hashes.len()` of them, and links the first few of these, `earlier.len()` of them, so that the linked
/// receipts of a hash are a chain, from the last one back. A place in a chain is kept plus one, so that 0 means no
/// receipt.
///
/// An index only makes a read faster: each read looks at the receipts that it doesn't link. Therefore it takes no
/// memory for a key, and doesn't refuse.
pub(crate) struct ByKey {
    /// By the hash of a key: the last receipt whose key has that hash.
    last: HashMap<u64, usize>,
    /// By place of a receipt: the receipt before it whose key has an equal hash.
    earlier: Vec<usize>,
    /// By place of a receipt: the hash of its key.
    hashes: Vec<u64>,
}

impl ByKey {
    /// Makes an index that links no receipts. Doesn't allocate.
    pub(crate) fn new(alloc: Global) -> ByKey
        ensures { (receipts : List Entry) → IsIndex receipts result }
    {
        ByKey {
            last: HashMap::new(alloc),
            earlier: Vec::new(alloc),
            hashes: Vec::new(alloc),
        }
    }

    /// The number of receipts that are linked.
    pub(crate) fn len(&self) -> usize
        ensures { result ≡ length self.now.earlier.items }
    {
        self.earlier.len()
    }

    /// The place, plus one, of the last receipt whose key has that hash, or 0.
    pub(crate) fn last(&self, hash: u64) -> usize
        ensures { result ≡ found_in self.now hash }
    {
        self.last.get(&hash).copied().unwrap_or(0)
    }

    /// The place, plus one, of the receipt before a receipt whose key has an equal hash, or 0.
    pub(crate) fn earlier(&self, place: usize) -> usize
        requires { place < length self.now.earlier.items }
        ensures { slice_get self.now.earlier.items place ≡ Some result }
    {
        self.earlier[place]
    }

    /// Keeps the hash of the last receipt's key, if it has the hashes of all receipts before it, and has capacity for
    /// one more.
    pub(crate) fn note(&mut self, receipts: &[Receipt], hash: u64)
        requires index { IsIndex receipts.now self.old }
        requires last { hash_at receipts.now (length receipts.now - 1) ≡ Some hash }
        ensures { IsIndex receipts.now self.new }
    {
        if self.hashes.len() + 1 == receipts.len() && self.hashes.reserve(1).is_ok() {
            self.hashes.push_reserved(hash);
        }
    }

    /// Links the receipts that aren't linked yet, or the first few of them if memory runs out. Hashes the key of a
    /// receipt whose hash it doesn't have.
    pub(crate) fn index(&mut self, receipts: &[Receipt])
        requires { IsIndex receipts.now self.old }
        ensures { IsIndex receipts.now self.new }
    {
        while self.earlier.len() < receipts.len() {
            if self.link(receipts).is_err() {
                return;
            }
        }
    }

    /// Links the first receipt that isn't linked yet. If memory runs out, nothing is linked.
    fn link(&mut self, receipts: &[Receipt]) -> Result<(), AllocError>
        requires index { IsIndex receipts.now self.old }
        requires more { length self.old.earlier.items < length receipts.now }
        ensures index { IsIndex receipts.now self.new }
        ensures longer { OnOk result (length self.new.earlier.items ≡ length self.old.earlier.items + 1) }
    {
        self.know_next(receipts)?;
        self.earlier.reserve(1)?;
        let place = self.earlier.len();
        let earlier = self.last.insert(self.hashes[place], place + 1)?;
        self.earlier.push_reserved(earlier.unwrap_or(0));
        Ok(())
    }

    /// Ensures that the hash of the first unlinked receipt is known, and hashes its key if necessary.
    fn know_next(&mut self, receipts: &[Receipt]) -> Result<(), AllocError>
        requires index { IsIndex receipts.now self.old }
        requires more { length self.old.earlier.items < length receipts.now }
        ensures index { IsIndex receipts.now self.new }
        ensures known { OnOk result (length self.new.earlier.items < length self.new.hashes.items) }
        ensures same { self.new.earlier ≡ self.old.earlier }
    {
        let place = self.hashes.len();
        if place == self.earlier.len() {
            let hash = HashedKey::new(receipts[place].key.as_slice()).hash();
            self.hashes.push(hash)?;
        }
        Ok(())
    }
}

impl Drop for ByKey {
    /// Keeps the fields out of the proofs of callers that drop the index.
    fn drop(self) {
        let ByKey {
            last: _last,
            earlier: _earlier,
            hashes: _hashes,
        } = self;
    }
}
