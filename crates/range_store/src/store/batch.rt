//! Batches: the versions of a leaf, prepared so that all of them are accepted or none.
ghost use Rattle.std.specs.Prelude.{◌≡◌, ◌+◌, ◌<◌, ◌^◌, ◌∷◌, ⊤, ℕ, List, [], nat_eq, length, OnOk, if◌then◌else◌};
ghost use Rattle.std.specs.List.{AllByRecursion};
ghost use Rattle.vclock.specs.Answer.{AnswersOrNoMemory};
ghost use Rattle.vclock.specs.Outcome.{Does};
ghost use Rattle.version_set.specs.declared.version.Version.{Version};
ghost use Rattle.range_journal.specs.declared.journal.Source.{Source};
ghost use Rattle.snapshot.specs.RowMaps.{RowMap};
ghost use Rattle.range_tree.specs.Trees.{IsChange, with_rows};
ghost use Rattle.range_store.specs.Store.{leaf_in, leaf_count, place_fault};
ghost use Rattle.range_store.specs.Offers.{offers_in, offers_of, crowded_in};
ghost use Rattle.range_store.specs.Batches.{IsRowFor, ahead, IsBatch, seen_count, IsPrepared, IsBatchOf, IsAcceptable};
ghost use Rattle.range_store.specs.Loads.{accept_offers};

use crate::store::RangeStore;
use crate::store::loading::Loaded;
use crate::store::table_rows::rows_from_leaf;
use hash_tree::{Leaves, SharedLeaf};
use range_journal::{Entry, Source};
use range_tree::Tree;
use row_bytes::Row;
use std::alloc::Global;
use vclock::{Bytes, Refusal};
use version_set::{Held, Version};

/// Versions of one leaf that are to be accepted together.
#[derive(Drop)]
pub struct Batch {
    /// The leaf with them.
    pub(super) leaf: SharedLeaf,
    /// Their entries, which have the next numbers.
    pub(super) entries: Vec<Entry>,
    /// The number of versions that were looked at and are known already.
    pub(super) known: u64,
}

impl Batch {
    /// Returns the entries of the versions that are new, in order. Doesn't allocate.
    pub fn entries(&self) -> &[Entry]
        ensures { result.now ≡ self.now.entries.items }
    {
        &self.entries
    }
}

impl RangeStore {
    /// Prepares the versions of rows of a leaf, each in its turn, as from a source, so that `accept_batch` accepts all
    /// or none. Refused: Crowded (one version, in its turn, would be too many for its key), NoMemory, which may replace
    /// Crowded.
    pub fn prepare(
        &self,
        alloc: Global,
        seat: u16,
        source: Source,
        leaf: u16,
        rows: &[Row],
    ) -> Result<Batch, Refusal>
        requires inside { leaf < leaf_count self.now.config }
        requires here { AllByRecursion (IsRowFor self.now.config leaf) rows.now }
        requires few { length (offers_of rows.now) < 2 ^ 64 }
        ensures { AnswersOrNoMemory result (crowded_in self.now seat source (offers_of rows.now))
            (IsBatchOf self.now seat source leaf (offers_of rows.now)) }
    {
        let mut batch = Batch {
            leaf: self.tree.rows(leaf).share()?,
            entries: Vec::new(alloc),
            known: 0,
        };
        for row in rows {
            self.prepare_row(alloc, seat, source, leaf, row, &mut batch)?;
        }
        Ok(batch)
    }

    /// Adds the versions of a row to the batch.
    fn prepare_row(
        &self,
        alloc: Global,
        seat: u16,
        source: Source,
        leaf: u16,
        row: &Row,
        batch: &mut Batch,
    ) -> Result<(), Refusal>
        requires here { IsRowFor self.now.config leaf row.now }
        requires batch { IsBatch self.now leaf batch.old }
        requires few { seen_count batch.old + length (offers_in row.now) < 2 ^ 64 }
        ensures answers { AnswersOrNoMemory result (crowded_in (ahead self.now batch.old) seat source (offers_in row.now)) (λ _. ⊤) }
        ensures ok { OnOk result (IsPrepared self.now seat source leaf (offers_in row.now) batch.old batch.new) }
    {
        for version in row.versions.as_slice() {
            self.prepare_version(alloc, seat, source, leaf, &row.key, version, batch)?;
        }
        Ok(())
    }

    /// Adds a version to the batch. Allocates first, so a refused version doesn't count.
    fn prepare_version(
        &self,
        alloc: Global,
        seat: u16,
        source: Source,
        leaf: u16,
        key: &Bytes,
        version: &Version,
        batch: &mut Batch,
    ) -> Result<(), Refusal>
        requires leaf { leaf ≡ leaf_in self.now.config key.now }
        requires here { place_fault self.now.config key.now version.now.kind version.now.value ≡ None }
        requires batch { IsBatch self.now leaf batch.old }
        requires few { seen_count batch.old + 1 < 2 ^ 64 }
        ensures answers { AnswersOrNoMemory result
            (crowded_in (ahead self.now batch.old) seat source ((key.now, version.now) ∷ [])) (λ _. ⊤) }
        ensures ok { OnOk result
            (IsPrepared self.now seat source leaf ((key.now, version.now) ∷ []) batch.old batch.new) }
    {
        let held = Held::new(batch.leaf.find(key.as_slice()));
        if held.covers(version) {
            batch.known += 1;
            return Ok(());
        }
        if held.crowds(version) {
            return Err(Refusal::Crowded);
        }
        let number = self.journal.len() + batch.entries.len() as u64;
        let entry = Entry {
            number,
            seat,
            source,
            key: key.try_clone()?,
            version: version.try_clone()?,
        };
        let row_version = version.try_clone()?;
        batch.leaf.offer(alloc, key, row_version)?;
        batch.entries.push(entry)?;
        Ok(())
    }

    /// Accepts the versions of a batch for a leaf. Allocates before it changes anything. Refused, in order:
    /// JournalFull, NoMemory. On error the store is unchanged.
    pub fn accept_batch(
        &mut self,
        alloc: Global,
        leaf: u16,
        batch: Batch,
    ) -> Result<Loaded, Refusal>
        requires { (seat : ℕ) × (source : Source) × (offers : List (List ℕ × Version))
            × IsAcceptable self.old seat source leaf offers batch }
        ensures { (seat : ℕ) (source : Source) (offers : List (List ℕ × Version))
            → IsAcceptable self.old seat source leaf offers batch
            → Does result self.old self.new (accept_offers self.old seat source offers) }
    {
        let Batch {
            leaf: changed,
            entries,
            known,
        } = batch;
        let taken = entries.len() as u64;
        self.journal.reserve(taken)?;
        let rows = rows_from_leaf(alloc, &self.config, leaf, &changed, &entries)?;
        self.table.reserve(taken)?;
        let leaves = self.tree.with_leaf(alloc, leaf, changed)?;
        keep_leaves(&mut self.tree, leaf, leaves, &entries);
        self.journal.append_entries(entries);
        self.table.put_all(rows);
        Ok(Loaded { taken, known })
    }
}

/// Changes to the leaves of a batch for a leaf, if the batch has new entries.
fn keep_leaves(tree: &mut Tree, leaf: u16, leaves: Leaves, entries: &[Entry])
    requires { (m : RowMap) × IsChange tree.old.map leaf leaves m }
    ensures { (m : RowMap) → IsChange tree.old.map leaf leaves m
        → tree.new ≡ (if nat_eq (length entries.now) 0 then tree.old else with_rows tree.old leaf m) }
{
    if !entries.is_empty() {
        tree.change_leaf(leaf, leaves);
    }
}
