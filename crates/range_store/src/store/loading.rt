//! Loading the rows of a leaf.
ghost use Rattle.std.specs.Prelude.{◌≡◌, ◌++◌, drop, length};
ghost use Rattle.vclock.specs.Answer.{AnswersOrNoMemory};
ghost use Rattle.vclock.specs.Outcome.{DoesOrNoMemory};
ghost use Rattle.range_journal.specs.declared.journal.Source.TheVariants.{Copy};
ghost use Rattle.range_store.specs.Batches.{IsAcceptable};
ghost use Rattle.range_store.specs.Loads.{load, load_text};
ghost use Rattle.range_store.specs.Offers.{offers_of, crowded_in};

use crate::leaf_rows::LeafRows;
use crate::receipt::Receipt;
use crate::store::RangeStore;
use crate::store::batch::Batch;
use crate::store::receipts::{move_to, receipts_beside};
use range_journal::Source;
use std::alloc::Global;
use vclock::Refusal;

/// The counts of a load.
#[derive(Clone, Copy, Debug, PartialEq, Eq)]
pub struct Loaded {
    /// The number of accepted versions: each has an entry at the end of the journal.
    pub taken: u64,
    /// The number of known versions.
    pub known: u64,
}

impl RangeStore {
    /// Loads rows of one leaf from their texts in ascending order of key: accepts each of their versions in its turn,
    /// as a copy by a seat, or none. A version that is equal to or below one accepted before is known, and isn't
    /// journaled again.
    ///
    /// Refused, in order: RowBroken (with the offset in bytes of the first field that isn't whole or breaks its rule),
    /// OtherRange (a key belongs to another range, or to another leaf than the first key), Crowded (one version, in its
    /// turn, would be too many for its key), JournalFull, NoMemory. Reading allocates, so NoMemory may replace any
    /// cause. On error the store is unchanged.
    pub fn load_rows(&mut self, alloc: Global, seat: u16, text: &[u8]) -> Result<Loaded, Refusal>
        ensures { DoesOrNoMemory result self.old self.new (load_text self.old seat text.now) }
    {
        let rows = LeafRows::read(alloc, self.config, text)?;
        let batch = self.prepare_load(alloc, seat, &rows)?;
        self.accept_batch(alloc, rows.leaf(), batch)
    }

    /// Loads rows that were read before for this range's configuration, like `load_rows`, and appends copies of the
    /// receipts to a list. Refused like `load_rows`. On error the list is unchanged.
    pub fn load_into(
        &mut self,
        alloc: Global,
        receipts: &mut Vec<Receipt>,
        seat: u16,
        rows: &LeafRows,
    ) -> Result<Loaded, Refusal>
        requires { rows.now.config ≡ self.old.config }
        ensures loads { DoesOrNoMemory result self.old self.new (load self.old seat rows.now.rows) }
        ensures appended { receipts.new.items ≡ receipts.old.items ++ drop (length self.old.entries) self.new.entries }
    {
        let leaf = rows.leaf();
        let batch = self.prepare_load(alloc, seat, rows)?;
        let added = receipts_beside(alloc, receipts, batch.entries())?;
        let loaded = self.accept_batch(alloc, leaf, batch)?;
        move_to(receipts, added);
        Ok(loaded)
    }

    /// Prepares the versions of rows, as copies by a seat. Refused like a load into a journal that isn't full.
    fn prepare_load(&self, alloc: Global, seat: u16, rows: &LeafRows) -> Result<Batch, Refusal>
        requires { rows.now.config ≡ self.now.config }
        ensures { AnswersOrNoMemory result (crowded_in self.now seat Copy (offers_of rows.now.rows))
            (IsAcceptable self.now seat Copy rows.now.leaf (offers_of rows.now.rows)) }
    {
        self.prepare(alloc, seat, Source::Copy, rows.leaf(), rows.as_slice())
    }
}
