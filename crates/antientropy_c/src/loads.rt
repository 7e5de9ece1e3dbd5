//! Rows of leaves: written from a snapshot, and loaded into a replica.
ghost use Rattle.std.specs.Prelude.{◌≡◌, Result};
ghost use Rattle.std.specs.List.{flat_map};
ghost use Rattle.vclock.specs.Answer.{Answers};
ghost use Rattle.vclock.specs.Format.{format_of};
ghost use Rattle.vclock.specs.Outcome.{DoesOrNoMemory};
ghost use Rattle.vclock.specs.declared.refusal.Refusal.{Refusal};
ghost use Rattle.row_bytes.specs.Rows.{row_text};
ghost use Rattle.hash_tree.specs.Leaves.{rows_in_leaf};
ghost use Rattle.snapshot.specs.RowMaps.{leaf_in};
ghost use Rattle.snapshot.specs.Snapshots.{leaf_fault};
ghost use Rattle.range_state.specs.Loads.{load_text};
ghost use Rattle.range_store.specs.declared.store.loading.Loaded.{Loaded};
ghost use Rattle.antientropy_c.specs.Calls.{Calls};
ghost use Rattle.c_calls.specs.Hands.{HandsNothing, HandsOutRight};
ghost use Rattle.c_calls.specs.Loads.{load_numbered, numbered_fault, TellsLoaded};
ghost use Rattle.c_calls.specs.Numbers.{Returns};
ghost use Rattle.antientropy_c.specs.Offers.{ShowsRows};
ghost use Rattle.c_calls.specs.Puts.{NoMemoryAfter};

use crate::frame::with_state;
use crate::publication_share::PublicationShare;
use crate::replica::Replica;
use c_calls::frame::read;
use c_calls::loads::{LoadReceipt, load_format, rows_of, tell_loaded};
use c_calls::numbers::code;
use c_calls::output::hand_out;
use c_calls::published::Published;
use range_state::RangeState;
use std::alloc::Global;

/// Writes the texts of the rows of a leaf of a snapshot, in ascending order of key. Refused, in order: EMPTY,
/// BadMessage (the tree has no such leaf), NoMemory, SMALL.
#[unsafe(no_mangle)]
#[tactic(auto, using(crate::proofs::CallLaws::reads_nothing, crate::proofs::CallLaws::reads_held, crate::proofs::CallLaws::gives))]
pub extern "C" fn antientropy_share_rows(
    alloc: Global,
    share: &mut PublicationShare,
    leaf: u64,
    out: &mut [u8],
    need: &mut u64,
) -> u32
    ensures { ShowsRows result share.old share.new (HandsNothing (need.old, out.old) (need.new, out.new))
        (λ m. HandsOutRight result (need.old, out.old) (need.new, out.new)
        (λ r. Answers r (leaf_fault m.format leaf)
        (λ bytes. bytes ≡ flat_map (row_text m.format) (rows_in_leaf (leaf_in m) leaf m.rows)))) }
{
    let mut call = |rows: &Published| {
        let outcome = rows_of(alloc, rows.snapshot(), leaf);
        hand_out(&outcome, out, need)
    };
    read(share, &mut call)
}

/// Loads rows of one leaf from their texts, as [`RangeState::load_rows`](range_state::RangeState::load_rows) does at
/// seat 0.
///
/// Refused, in order: EMPTY; then as `load_rows` is: RowBroken, OtherRange, Crowded, JournalFull, NoMemory. On error
/// the replica is unchanged. After RowBroken the offset is stored; after any other refusal the result is unchanged.
#[unsafe(no_mangle)]
#[tactic(auto, using(crate::proofs::CallLaws::state_empty, crate::proofs::CallLaws::state_held, crate::proofs::CallLaws::returns))]
pub extern "C" fn antientropy_load(
    alloc: Global,
    replica: &mut Replica,
    rows: &[u8],
    loaded: &mut LoadReceipt,
) -> u32
    ensures { Calls result replica.old replica.new (loaded.new ≡ loaded.old)
        (λ s t. Returns result (λ (r : Result Loaded Refusal).
        DoesOrNoMemory r s t (load_text s 0 rows.now) × TellsLoaded r loaded.old loaded.new)) }
{
    let mut call = |state: &mut RangeState| {
        let outcome = state.load_rows(alloc, 0, rows);
        tell_loaded(&outcome, loaded);
        code(&outcome)
    };
    with_state(replica, alloc, &mut call)
}

/// Loads rows of a format, of any leaves, from their texts, as
/// [`RangeState::load_format`](range_state::RangeState::load_format) does at seat 0.
///
/// Refused, in order: EMPTY, BadRing (the format is neither 1 nor 2); then as `load_format` is: OtherFormat, RowBroken,
/// OtherRange, Crowded, JournalFull, NoMemory. On error the replica is unchanged. After RowBroken the offset is stored;
/// after any other refusal the result is unchanged. NoMemory may replace a cause from RowBroken on.
#[unsafe(no_mangle)]
#[tactic(auto, using(crate::proofs::CallLaws::state_empty, crate::proofs::CallLaws::state_held, crate::proofs::CallLaws::returns))]
pub extern "C" fn antientropy_load_format(
    alloc: Global,
    replica: &mut Replica,
    format: u64,
    rows: &[u8],
    loaded: &mut LoadReceipt,
) -> u32
    ensures { Calls result replica.old replica.new (loaded.new ≡ loaded.old)
        (λ s t. Returns result (λ (r : Result Loaded Refusal).
        DoesOrNoMemory r s t (load_numbered s (format_of format) rows.now)
        × NoMemoryAfter (numbered_fault s (format_of format)) r × TellsLoaded r loaded.old loaded.new)) }
{
    let mut call = |state: &mut RangeState| {
        let outcome = load_format(alloc, state, format, rows);
        tell_loaded(&outcome, loaded);
        code(&outcome)
    };
    with_state(replica, alloc, &mut call)
}
