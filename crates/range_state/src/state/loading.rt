//! Loading rows.
ghost use Rattle.std.specs.Prelude.{◌≡◌, ◌++◌, drop, length};
ghost use Rattle.vclock.specs.Outcome.{DoesOrNoMemory};
ghost use Rattle.range_state.specs.Loads.{load, load_text, load_format};

use crate::state::RangeState;
use range_store::{LeafRows, Loaded, Receipt};
use std::alloc::Global;
use vclock::{Format, Refusal};

impl RangeState {
    /// Loads rows of one leaf from their joined texts, in ascending order of key: accepts all of their versions, in
    /// order, as copies by a seat, or none. A version that is equal to or below one accepted before is known, and isn't
    /// journaled again.
    ///
    /// Refused, in order: RowBroken (with the offset in bytes of the first field that isn't whole or breaks its rule),
    /// OtherRange (a key belongs to another range, or to another leaf than the first one), Crowded (one version, in its
    /// turn, would be too many for its key), JournalFull, NoMemory. Reading allocates, so NoMemory may replace any of
    /// them. On error the state is unchanged.
    pub fn load_rows(&mut self, alloc: Global, seat: u16, text: &[u8]) -> Result<Loaded, Refusal>
        ensures { DoesOrNoMemory result self.old self.new (load_text self.old seat text.now) }
    {
        let done = self.store.load_rows(alloc, seat, text);
        // Called only for its clause: the store is sound.
        let _sound = self.store.journal();
        done
    }

    /// Loads rows, like `load_rows`, that were already read for this range's configuration, and appends copies of the
    /// receipts to a list. Refused like `load_rows`. On error the list is unchanged.
    pub fn load_into(
        &mut self,
        alloc: Global,
        receipts: &mut Vec<Receipt>,
        seat: u16,
        rows: &LeafRows,
    ) -> Result<Loaded, Refusal>
        requires { rows.now.config ≡ self.old.store.config }
        ensures loads { DoesOrNoMemory result self.old self.new (load self.old seat rows.now.rows) }
        ensures appended { receipts.new.items ≡ receipts.old.items ++ drop (length self.old.store.entries) self.new.store.entries }
    {
        let done = self.store.load_into(alloc, receipts, seat, rows);
        // Called only for its clause: the store is sound.
        let _sound = self.store.journal();
        done
    }

    /// Loads rows of a format, of any leaves of the range, from their joined texts, in ascending order of key: accepts
    /// all of their versions, in order, as copies by a seat, or none. Use it to load rows after a migration that were
    /// saved in format 1. A version that is equal to or below one accepted before is known, and isn't journaled again.
    ///
    /// Refused, in order: OtherFormat (rows of format 2 for a range of format 1), RowBroken (with the offset in bytes
    /// of the first field that isn't whole or breaks its rule), OtherRange (a key belongs to another range), Crowded
    /// (one version, in its turn, would be too many for its key), JournalFull, NoMemory. Reading allocates, so NoMemory
    /// may replace any of them. On error the state is unchanged.
    pub fn load_format(
        &mut self,
        alloc: Global,
        seat: u16,
        format: Format,
        text: &[u8],
    ) -> Result<Loaded, Refusal>
        ensures { DoesOrNoMemory result self.old self.new (load_format self.old seat format text.now) }
    {
        let done = self.store.load_format(alloc, seat, format, text);
        // Called only for its clause: the store is sound.
        let _sound = self.store.journal();
        done
    }
}
