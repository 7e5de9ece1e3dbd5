//! The outcome of a partner's leaf, by the definitions.

use crate::plain::{Fault, PlainEntry, PlainRange};
use crate::trees::{PlainRow, Tree};
use crate::trouble::Trouble;
use range_journal::Source;
use std::alloc::Global;

/// The outcome of a leaf that is taken: the new versions, in order, and the number of known ones.
#[derive(Drop)]
pub struct Taken {
    pub news: Vec<PlainEntry>,
    pub known: u64,
}

impl Taken {
    /// Returns the outcome of a text that isn't a leaf's.
    pub fn none(alloc: Global) -> Taken {
        Taken {
            news: Vec::new(alloc),
            known: 0,
        }
    }
}

impl PlainRange {
    /// Returns the outcome of a leaf of a partner's tree, whose versions are accepted in turn, or the reason why they
    /// aren't all accepted: a version is one too many for its key, or the journal is full.
    pub fn take_leaf(
        &self,
        alloc: Global,
        seat: u16,
        tree: &Tree,
        leaf: u16,
    ) -> Result<Result<Taken, Fault>, Trouble> {
        let mut after = self.try_clone()?;
        let mut taken = Taken::none(alloc);
        for row in &tree.rows {
            if row.leaf == leaf && !after.take_row(seat, row, &mut taken)? {
                return Ok(Err(Fault::Crowded));
            }
        }
        if after.has_room(0) {
            Ok(Ok(taken))
        } else {
            Ok(Err(Fault::JournalFull))
        }
    }

    /// Accepts a partner's row. Returns false at a version that is one too many for the key.
    fn take_row(&mut self, seat: u16, row: &PlainRow, taken: &mut Taken) -> Result<bool, Trouble> {
        for version in &row.versions {
            if self.knows(row.key, version) {
                taken.known = taken.known.wrapping_add(1);
            } else if self.is_crowded_by(row.key, version) {
                return Ok(false);
            } else {
                let entry = PlainEntry {
                    seat,
                    key: row.key,
                    version: *version,
                    source: Source::Partner,
                };
                self.entries.push(entry)?;
                taken.news.push(entry)?;
            }
        }
        Ok(true)
    }
}
