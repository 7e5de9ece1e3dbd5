//! A snapshot that is published, and the number of entries that made its rows.
ghost use Rattle.std.specs.Prelude.{◌≡◌, None};
ghost use Rattle.std.specs.Arc.{arc_value};
ghost use Rattle.vclock.specs.Answer.{Answers};

use snapshot::Snapshot;
use std::alloc::Global;
use std::marker::Model;
use std::sync::Arc;
use vclock::Refusal;

/// A snapshot of a replica's rows, which shares its leaves with the replica.
#[derive(Drop)]
pub struct Published {
    snapshot: Arc<Snapshot, Global>,
    /// The number of entries that made the rows, with those before the journal's first one.
    entries: u64,
}

impl Model for Published {
    ghost use Rattle.std.specs.Arc.{arc_value};
    ghost use Rattle.c_calls.specs.Published.{Shown};

    ghost Value = { Shown };

    ghost view = { λ p. record { rows = arc_value p.snapshot; entries = p.entries } };
}

impl Published {
    /// Makes the published form of a snapshot whose rows were made by that number of entries.
    pub(crate) fn new(snapshot: Arc<Snapshot, Global>, entries: u64) -> Published
        ensures { result ≡ record { rows = arc_value snapshot; entries = entries } }
    {
        Published { snapshot, entries }
    }

    /// Shares the snapshot once more. Copies no row. Refused: NoMemory.
    pub(crate) fn share(&self) -> Result<Published, Refusal>
        ensures { Answers result None (λ other. other ≡ self.now) }
    {
        Ok(Published {
            snapshot: Arc::try_clone(&self.snapshot)?,
            entries: self.entries,
        })
    }

    /// The snapshot.
    pub fn snapshot(&self) -> &Snapshot
        ensures { result.now ≡ self.now.rows }
    {
        &self.snapshot
    }

    /// The number of entries that made the rows.
    pub(crate) fn entries(&self) -> u64
        ensures { result ≡ self.now.entries }
    {
        self.entries
    }
}
