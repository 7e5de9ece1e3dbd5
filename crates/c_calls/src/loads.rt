//! Rows of leaves: written from a snapshot, and loaded into a replica.
ghost use Rattle.std.specs.Prelude.{◌≡◌, Some, None, if◌then◌else◌};
ghost use Rattle.std.specs.List.{flat_map};
ghost use Rattle.vclock.specs.Answer.{Answers};
ghost use Rattle.vclock.specs.Format.{format_of};
ghost use Rattle.vclock.specs.Outcome.{DoesOrNoMemory};
ghost use Rattle.vclock.specs.declared.refusal.Refusal.{Refusal};
ghost use Rattle.row_bytes.specs.Rows.{row_text};
ghost use Rattle.hash_tree.specs.Leaves.{rows_in_leaf};
ghost use Rattle.snapshot.specs.RowMaps.{leaf_in};
ghost use Rattle.snapshot.specs.Snapshots.{leaf_fault};
ghost use Rattle.range_store.specs.FormatLoads.{newer_fault};
ghost use Rattle.c_calls.specs.Loads.{load_numbered, numbered_fault, TellsLoaded};
ghost use Rattle.c_calls.specs.Puts.{NoMemoryAfter};

use key_ring::leaf_count;
use range_state::{Loaded, RangeState};
use snapshot::Snapshot;
use std::alloc::Global;
use tree_nodes::Text;
use vclock::{Format, Refusal};

/// The result of a load.
#[repr(C)]
#[derive(Clone, Copy)]
pub struct LoadReceipt {
    /// The number of new versions.
    pub taken: u64,
    /// The number of versions that were known.
    pub known: u64,
    /// The offset in bytes of the broken field, if the rows were refused for it. 0 if they weren't refused.
    pub offset: u64,
}

/// Writes the texts of the rows of a leaf of a snapshot, in ascending order of key. Refused, in order: BadMessage (the
/// tree has no such leaf), NoMemory.
pub fn rows_of(alloc: Global, snapshot: &Snapshot, leaf: u64) -> Result<Text, Refusal>
    ensures { Answers result (leaf_fault snapshot.now.format leaf)
        (λ bytes. bytes ≡ flat_map (row_text snapshot.now.format) (rows_in_leaf (leaf_in snapshot.now) leaf snapshot.now.rows)) }
{
    if leaf >= u64::from(leaf_count(snapshot.format())) {
        return Err(Refusal::BadMessage);
    }
    Ok(Text::from(snapshot.rows_text(alloc, leaf as u16)?))
}

/// Loads rows of a format, of any leaves, from their texts, as [`RangeState::load_format`] does at seat 0.
///
/// Refused, in order: BadRing (the format is neither 1 nor 2); then as `load_format` is: OtherFormat, RowBroken,
/// OtherRange, Crowded, JournalFull, NoMemory. On error the replica is unchanged. NoMemory may replace a cause from
/// RowBroken on.
pub fn load_format(
    alloc: Global,
    state: &mut RangeState,
    format: u64,
    rows: &[u8],
) -> Result<Loaded, Refusal>
    ensures does { DoesOrNoMemory result state.old state.new (load_numbered state.old (format_of format) rows.now) }
    ensures early { NoMemoryAfter (numbered_fault state.old (format_of format)) result }
{
    let Some(format) = Format::of_number(format) else {
        return Err(Refusal::BadRing);
    };
    if is_newer(format, state.store().config().format()) {
        return Err(Refusal::OtherFormat);
    }
    state.load_format(alloc, 0, format, rows)
}

/// Returns true if a replica of a format can't load rows of another one, since that one is newer.
fn is_newer(rows: Format, replica: Format) -> bool
    ensures { newer_fault replica rows ≡ (if result then Some Refusal.OtherFormat else None) }
{
    match (rows, replica) {
        (Format::Two, Format::One) => true,
        (Format::One, _) | (Format::Two, Format::Two) => false,
    }
}

/// Stores the counts of a load, or the offset of a broken field. After any other refusal the receipt is unchanged.
pub fn tell_loaded(outcome: &Result<Loaded, Refusal>, receipt: &mut LoadReceipt)
    ensures { TellsLoaded outcome.now receipt.old receipt.new }
{
    match outcome {
        Ok(Loaded { taken, known }) => {
            *receipt = LoadReceipt {
                taken: *taken,
                known: *known,
                offset: 0,
            }
        }
        Err(Refusal::RowBroken(offset)) => receipt.offset = *offset,
        Err(_) => {}
    }
}
