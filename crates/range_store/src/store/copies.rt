//! Entries that become copies.
ghost use Rattle.std.specs.Prelude.{◌≡◌};
ghost use Rattle.range_journal.specs.Copies.{IsSettled};
ghost use Rattle.range_store.specs.Copies.{with_copies};

use crate::store::RangeStore;

impl RangeStore {
    /// Turns each partner's entry from number `from` on into a copy, like `Journal::make_copies`. The held versions,
    /// the rows and the digests are unchanged. No earlier entry is a partner's. Doesn't allocate.
    pub fn make_copies(&mut self, from: u64)
        requires { IsSettled from self.old.entries }
        ensures { self.new ≡ with_copies self.old }
    {
        self.journal.make_copies(from);
    }
}
