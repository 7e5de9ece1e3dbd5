//! The end of records.
ghost use Rattle.std.specs.Prelude.{◌≡◌};
ghost use Rattle.range_state.specs.Endings.{without_ended_sessions};

use crate::state::RangeState;
use crate::state::sessions::is_open;

impl RangeState {
    /// Drops the records of ended sessions, with the rows and texts that they kept. The records of open sessions and
    /// all numbers are unchanged: an open session keeps its number, the number of an ended one is UnknownSession
    /// afterwards, and the next session's number is the same.
    ///
    /// The source of each partner's entry becomes Copy, since its session may be gone. Otherwise the journal, the rows,
    /// the digests and the moment are unchanged. Takes time in proportion to the entries since the last such call, and
    /// to the memory that is freed. Doesn't allocate.
    ///
    /// A caller's receipts that say Partner no longer match the journal afterwards, so a range that is shared by
    /// threads doesn't have this call.
    pub fn drop_ended_sessions(&mut self)
        ensures { self.new ≡ without_ended_sessions self.old }
    {
        let entries = self.store.journal().len();
        self.store.make_copies(self.settled);
        self.records.retain(is_open);
        self.settled = entries;
    }
}
