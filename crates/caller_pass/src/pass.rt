//! Passes.
ghost use Rattle.std.specs.Prelude.{◌≡◌};
ghost use Rattle.caller_pass.specs.Passes.{IsPass};

use crate::reading::Reading;
use crate::receipt_index::ByKey;
use range_state::Receipt;
use std::marker::Model;
use std::sync::ledger::{Ledger, Share};

/// The record of one caller of a range: the entries that the caller made, and its readings. A thread that uses a range
/// has its own pass, and returns it when the range is closed. Only the range's calls add to it. It has one share of the
/// book's count, which is the number of its receipts. An index finds its receipts of a key.
///
/// ```
/// let held = range.get(alloc, one, b"a")?;
/// expect(held.len() == 1, "one version is held")?;
/// expect(
///     one.seen() == 1 && one.receipts().len() == 1 && one.readings().len() == 1,
///     "the pass has a receipt and a reading",
/// )
/// ```
#[derive(Drop)]
pub struct Pass<L: Ledger> {
    pub(crate) seat: u16,
    pub(crate) seen: u64,
    pub(crate) receipts: Vec<Receipt>,
    pub(crate) readings: Vec<Reading>,
    pub(crate) by_key: ByKey,
    pub(crate) share: Share<L>,
}

impl<L: Ledger> Model for Pass<L> {
    ghost use Rattle.std.specs.Prelude.{◌≡◌};
    ghost use Rattle.caller_pass.specs.Passes.{PassView, IsPass};
    ghost use Rattle.caller_pass.specs.Indexes.{IsIndex};

    ghost Value = { PassView };

    ghost view = { λ p. record {
      seat = p.seat;
      seen = p.seen;
      share = p.share.amount;
      receipts = p.receipts.items;
      readings = p.readings.items;
    } };

    ghost invariant = { λ p. (p.share.parts ≡ 1) × IsPass L.parts (record {
      seat = p.seat;
      seen = p.seen;
      share = p.share.amount;
      receipts = p.receipts.items;
      readings = p.readings.items;
    }) × IsIndex p.receipts.items p.by_key };
}

impl<L: Ledger> Pass<L> {
    /// The number of the caller, from 0.
    pub fn seat(&self) -> u16
        ensures value { result ≡ self.now.seat }
        ensures valid { IsPass L.parts self.now }
    {
        self.seat
    }

    /// The number of entries of the journal that the caller has seen.
    pub fn seen(&self) -> u64
        ensures { result ≡ self.now.seen }
    {
        self.seen
    }

    /// The entries that the caller made, in order. Doesn't allocate.
    pub fn receipts(&self) -> &[Receipt]
        ensures { result.now ≡ self.now.receipts }
    {
        &self.receipts
    }

    /// The readings of the caller, in order. Doesn't allocate.
    pub fn readings(&self) -> &[Reading]
        ensures { result.now ≡ self.now.readings }
    {
        &self.readings
    }

    /// Indexes the receipts that are new since the last call, so that the next read of a key looks only at the receipts
    /// of that key and of keys with the same hash. It hashes the keys that a partner sent; the keys of puts and copies
    /// were hashed before. If memory runs out, the remaining receipts stay unindexed, and reads look at each of them.
    pub fn index(&mut self)
        ensures { self.new ≡ self.old }
    {
        self.by_key.index(self.receipts.as_slice());
    }
}
