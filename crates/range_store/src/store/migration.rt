//! Migration to format 2.
ghost use Rattle.std.specs.Prelude.{◌≡◌};
ghost use Rattle.vclock.specs.Outcome.{Does, gives};
ghost use Rattle.vclock.specs.declared.format.Format.TheVariants as formats;
ghost use Rattle.range_store.specs.Migrates.{in_two, migrate};

use crate::replay::tree_of;
use crate::store::RangeStore;
use std::alloc::Global;
use vclock::{Format, Refusal};

impl RangeStore {
    /// Migrates a range of format 1 to format 2. The journal is unchanged, word for word, and its versions are live;
    /// the rows are in 4,096 leaves, and all 4,369 nodes are dirty. A range of format 2 is unchanged.
    ///
    /// The journal is replayed once, with the present leaves still in memory. Refused: NoMemory. On error the store is
    /// unchanged.
    pub fn migrate(&mut self, alloc: Global) -> Result<(), Refusal>
        ensures { Does result self.old self.new (migrate self.old) }
    {
        match self.config.format() {
            Format::One => self.go_over(alloc),
            Format::Two => Ok(()),
        }
    }

    /// Migrates a range of format 1. Allocates before it changes anything.
    fn go_over(&mut self, alloc: Global) -> Result<(), Refusal>
        requires { self.old.config.format ≡ formats.One }
        ensures { Does result self.old self.new (gives tt (in_two self.old)) }
    {
        let config = self.config.in_format_2();
        let tree = tree_of(alloc, config, self.journal.entries())?;
        self.config = config;
        self.tree = tree;
        Ok(())
    }
}
