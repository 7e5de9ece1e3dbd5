//! The counts of a replica.
ghost use Rattle.std.specs.Prelude.{◌≡◌};
ghost use Rattle.c_calls.specs.Counts.{counts_of};

use crate::kept::Kept;

/// The counts of a replica.
#[repr(C)]
#[derive(Clone, Copy)]
pub struct Counts {
    /// The number of entries, with those before the last renewals: the number of the next entry.
    pub entries: u64,
    /// The maximum number of entries of the journal, which has the entries from `first` on.
    pub limit: u64,
    /// The number of nodes of the tree without a digest.
    pub dirty: u64,
    /// The number of sessions that are kept.
    pub sessions: u64,
    /// The number of sessions that are open.
    pub open_sessions: u64,
    /// The number of the journal's first entry: 0 before the first renewal.
    pub first: u64,
    /// The number of entries at the last moment that was whole: `first` if there was none since the renewal.
    pub front: u64,
}

/// Counts the parts of a replica.
pub fn count(kept: &Kept) -> Counts
    ensures { result ≡ counts_of kept.now }
{
    let state = kept.state();
    Counts {
        entries: kept.entries(),
        limit: state.store().config().limit(),
        dirty: state.store().tree().dirty_count() as u64,
        sessions: state.records().len() as u64,
        open_sessions: state.open_sessions() as u64,
        first: kept.first(),
        front: kept.front(),
    }
}
