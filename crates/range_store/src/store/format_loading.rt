//! Loading rows of a named format, of any leaves of a range.
ghost use Rattle.std.specs.Prelude.{◌≡◌, ◌+◌, ◌<◌, ◌^◌, ◌==◌, ◌++◌, ◌∷◌, ⊤, [], ℕ, List, None, length};
ghost use Rattle.std.specs.List.{AllByRecursion};
ghost use Rattle.vclock.specs.Answer.{Answers, AnswersAtOnce, AnswersOrNoMemory, first_fault};
ghost use Rattle.vclock.specs.Outcome.{Does, DoesOrNoMemory};
ghost use Rattle.version_set.specs.declared.version.Version.{Version};
ghost use Rattle.range_journal.specs.declared.journal.Source.TheVariants.{Copy};
ghost use Rattle.key_ring.specs.Places.{range_at};
ghost use Rattle.row_bytes.specs.Rows.{AreRows};
ghost use Rattle.row_bytes.specs.declared.row.Row.{Row};
ghost use Rattle.range_store.specs.FormatLoads.{newer_fault, are_here, astray_fault, load_format, seen_count, IsSpread, IsSpreadable};
ghost use Rattle.range_store.specs.Loads.{accept_offers};
ghost use Rattle.range_store.specs.Offers.{offers_in, offers_of, crowded_in};
ghost use Rattle.range_store.specs.Store.{leaf_in, place_fault};

use crate::config::RangeConfig;
use crate::leaf_rows::place_in;
use crate::store::RangeStore;
use crate::store::loading::Loaded;
use crate::store::table_rows::rows_from_tree;
use range_journal::{Entry, Source};
use range_tree::Tree;
use row_bytes::{Row, read_rows};
use std::alloc::Global;
use vclock::{Bytes, Format, Refusal};
use version_set::Version;

/// Versions of any leaves that are to be accepted together.
#[derive(Drop)]
pub(super) struct Spread {
    /// The tree with them.
    tree: Tree,
    /// Their entries, which have the next numbers.
    entries: Vec<Entry>,
    /// The number of versions that were looked at and are known already.
    known: u64,
}

impl RangeStore {
    /// Loads rows of a format, of any leaves of the range, from their texts in ascending order of key: accepts each of
    /// their versions in its turn, as a copy by a seat, or none. Rows that were saved in format 1 can be loaded after a
    /// migration. A version that is equal to or below one accepted before is known, and isn't journaled again.
    ///
    /// Refused, in order: OtherFormat (rows of format 2 for a range of format 1), RowBroken (with the offset in bytes
    /// of the first field that isn't whole or breaks its rule), OtherRange (a key belongs to another range), Crowded
    /// (one version, in its turn, would be too many for its key), JournalFull, NoMemory. Reading allocates, so NoMemory
    /// may replace any cause. On error the state is unchanged.
    pub fn load_format(
        &mut self,
        alloc: Global,
        seat: u16,
        format: Format,
        text: &[u8],
    ) -> Result<Loaded, Refusal>
        ensures { DoesOrNoMemory result self.old self.new (load_format self.old seat format text.now) }
    {
        check_format(self.config.format(), format)?;
        let rows = read_rows(alloc, format, text)?;
        let spread = self.spread(alloc, seat, format, rows.as_slice())?;
        self.accept_spread(alloc, spread)
    }

    /// Prepares the versions of rows of a format, as copies by a seat. Refused like a load into a journal that isn't
    /// full.
    fn spread(
        &self,
        alloc: Global,
        seat: u16,
        format: Format,
        rows: &[Row],
    ) -> Result<Spread, Refusal>
        requires older { newer_fault self.now.config.format format ≡ None }
        requires rows { AreRows format rows.now }
        requires few { length (offers_of rows.now) < 2 ^ 64 }
        ensures { AnswersOrNoMemory result (first_fault (astray_fault self.now.config rows.now)
            (crowded_in self.now seat Copy (offers_of rows.now))) (IsSpreadable self.now seat rows.now) }
    {
        if !are_here(&self.config, rows) {
            return Err(Refusal::OtherRange);
        }
        let mut spread = Spread {
            tree: self.tree.share(alloc)?,
            entries: Vec::new(alloc),
            known: 0,
        };
        for row in rows {
            self.spread_row(alloc, seat, row, &mut spread)?;
        }
        Ok(spread)
    }

    /// Prepares the versions of one more row. Refused: Crowded, NoMemory, which may replace Crowded.
    fn spread_row(
        &self,
        alloc: Global,
        seat: u16,
        row: &Row,
        spread: &mut Spread,
    ) -> Result<(), Refusal>
        requires here { AllByRecursion (λ (v : Version). place_fault self.now.config row.now.key v.kind v.value ≡ None)
            row.now.versions }
        requires before { (offers : List (List ℕ × Version)) × IsSpread self.now seat offers spread.old }
        requires few { seen_count spread.old + length (offers_in row.now) < 2 ^ 64 }
        ensures { (offers : List (List ℕ × Version)) → IsSpread self.now seat offers spread.old
            → AnswersOrNoMemory result (crowded_in self.now seat Copy (offers ++ offers_in row.now))
            (λ _. IsSpread self.now seat (offers ++ offers_in row.now) spread.new) }
    {
        let leaf = place_in(&self.config, row.key.as_slice()).leaf;
        for version in row.versions.as_slice() {
            self.spread_version(alloc, seat, leaf, &row.key, version, spread)?;
        }
        Ok(())
    }

    /// Prepares one more version. Refused: Crowded, NoMemory, which may replace Crowded.
    fn spread_version(
        &self,
        alloc: Global,
        seat: u16,
        leaf: u16,
        key: &Bytes,
        version: &Version,
        spread: &mut Spread,
    ) -> Result<(), Refusal>
        requires leaf { leaf ≡ leaf_in self.now.config key.now }
        requires here { place_fault self.now.config key.now version.now.kind version.now.value ≡ None }
        requires before { (offers : List (List ℕ × Version)) × IsSpread self.now seat offers spread.old }
        requires few { seen_count spread.old + 1 < 2 ^ 64 }
        ensures { (offers : List (List ℕ × Version)) → IsSpread self.now seat offers spread.old
            → AnswersOrNoMemory result (crowded_in self.now seat Copy (offers ++ (key.now, version.now) ∷ []))
            (λ _. IsSpread self.now seat (offers ++ (key.now, version.now) ∷ []) spread.new) }
    {
        let held = spread.tree.find(leaf, key.as_slice());
        if held.covers(version) {
            spread.known += 1;
            return Ok(());
        }
        if held.crowds(version) {
            return Err(Refusal::Crowded);
        }
        let entry = Entry {
            number: self.journal.len() + spread.entries.len() as u64,
            seat,
            source: Source::Copy,
            key: key.try_clone()?,
            version: version.try_clone()?,
        };
        let row_version = version.try_clone()?;
        spread.entries.reserve(1)?;
        spread.tree.offer(alloc, leaf, key, row_version)?;
        spread.entries.push_reserved(entry);
        Ok(())
    }

    /// Accepts the versions that are prepared. Allocates before it changes anything. Refused, in order: JournalFull,
    /// NoMemory.
    fn accept_spread(&mut self, alloc: Global, spread: Spread) -> Result<Loaded, Refusal>
        requires { (seat : ℕ) × (rows : List Row) × IsSpreadable self.old seat rows spread }
        ensures { (seat : ℕ) (rows : List Row) → IsSpreadable self.old seat rows spread
            → Does result self.old self.new (accept_offers self.old seat Copy (offers_of rows)) }
    {
        let Spread {
            tree,
            entries,
            known,
        } = spread;
        let taken = entries.len() as u64;
        self.journal.reserve(taken)?;
        let rows = rows_from_tree(alloc, &self.config, &tree, &entries)?;
        self.table.reserve(taken)?;
        self.tree = tree;
        self.journal.append_entries(entries);
        self.table.put_all(rows);
        Ok(Loaded { taken, known })
    }
}

/// Refuses rows of one format for a range of the other. Refused: OtherFormat.
fn check_format(own: Format, format: Format) -> Result<(), Refusal>
    ensures { AnswersAtOnce result (newer_fault own format) (λ _. ⊤) }
{
    match (own, format) {
        (Format::One, Format::Two) => Err(Refusal::OtherFormat),
        (Format::One, Format::One) | (Format::Two, _) => Ok(()),
    }
}

/// Returns true if the key of each row belongs to the range.
fn are_here(config: &RangeConfig, rows: &[Row]) -> bool
    ensures { result ≡ are_here config.now rows.now }
{
    rows.iter().all(|row| is_here(config, row))
}

/// Returns true if the key of a row belongs to the range.
fn is_here(config: &RangeConfig, row: &Row) -> bool
    ensures { result ≡ (range_at config.now.bits row.now.key == config.now.range) }
{
    place_in(config, row.key.as_slice()).range == config.range()
}
