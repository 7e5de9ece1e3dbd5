//! The counts of a range.
ghost use Rattle.std.specs.Prelude.{◌≡◌};
ghost use Rattle.range_state.specs.Counts.{counts_of};

use crate::state::RangeState;

/// The counts of a range at one moment.
#[derive(Clone, Copy, Debug, PartialEq, Eq)]
pub struct RangeCounts {
    /// The number of entries of the journal.
    pub entries: u64,
    /// The maximum number of entries.
    pub limit: u64,
    /// The number of nodes of the tree without a digest.
    pub dirty: u64,
    /// The number of sessions ever opened.
    pub sessions: u64,
    /// The number of open sessions.
    pub open_sessions: u64,
}

impl RangeState {
    /// Returns the numbers of entries, of dirty nodes and of sessions, and the limit of the journal. Doesn't allocate.
    pub fn counts(&self) -> RangeCounts
        ensures { result ≡ counts_of self.now }
    {
        RangeCounts {
            entries: self.store.journal().len(),
            limit: self.store.config().limit(),
            dirty: self.store.tree().dirty_count() as u64,
            sessions: self.records().len() as u64,
            open_sessions: self.open_sessions() as u64,
        }
    }
}
