//! Migration to format 2.
ghost use Rattle.std.specs.Prelude.{◌≡◌, map};
ghost use Rattle.vclock.specs.Outcome.{Does};
ghost use Rattle.range_state.specs.Migrates.{cancelled, migrate};

use crate::record::Record;
use crate::state::RangeState;
use std::alloc::Global;
use vclock::{Format, Refusal};

impl RangeState {
    /// Migrates a range of format 1 to format 2. The journal is unchanged, and its versions are live; the rows are in
    /// 4,096 leaves, and all 4,369 nodes are dirty. Open sessions are cancelled; each record keeps the format of its
    /// snapshot. The moment is dropped. A range of format 2 is unchanged.
    ///
    /// The journal is replayed once, with the present leaves still in memory. Refused: NoMemory. On error the state is
    /// unchanged.
    pub fn migrate(&mut self, alloc: Global) -> Result<(), Refusal>
        ensures { Does result self.old self.new (migrate self.old) }
    {
        match self.store.config().format() {
            Format::One => {
                let whole = self.whole_front();
                self.store.migrate(alloc)?;
                cancel_all(&mut self.records);
                self.moment = None;
                self.whole_before = whole;
                Ok(())
            }
            Format::Two => Ok(()),
        }
    }
}

/// Cancels all open sessions.
fn cancel_all(records: &mut Vec<Record>)
    ensures { records.new.items ≡ map cancelled records.old.items }
{
    for record in records.iter_mut() {
        record.session.cancel();
    }
}
