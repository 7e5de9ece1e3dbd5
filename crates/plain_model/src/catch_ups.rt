//! Renewals alongside puts, by the definitions: a new range that catches up with the old one.

use crate::plain::{Fault, PlainEntry, PlainRange};
use crate::trouble::Trouble;
use range_journal::Source;
use std::alloc::Global;

/// A new range alongside the old one. It began with the rows of a moment.
#[derive(Drop)]
pub struct PlainRenewal {
    pub range: PlainRange,
    /// The number of the old range's entries that the new one has.
    pub front: usize,
}

impl PlainRange {
    /// Returns the range made of its first `count` entries.
    pub fn first(&self, count: usize) -> Result<PlainRange, Trouble> {
        let mut range = self.try_clone()?;
        range.entries.truncate(count);
        Ok(range)
    }

    /// Returns the renewal that begins with the rows of this range, as entries of a seat.
    pub fn renewal(&self, alloc: Global, seat: u16, limit: u64) -> Result<PlainRenewal, Trouble> {
        Ok(PlainRenewal {
            range: PlainRange {
                format: self.format,
                part: self.part,
                limit,
                entries: self.held_entries(alloc, seat)?,
            },
            front: self.entries.len(),
        })
    }
}

impl PlainRenewal {
    /// Accepts the next entries of the old range as copies by a seat, at most `most` of them. Returns the number of
    /// entries left, or the reason why one isn't accepted; those before it are.
    pub fn catch_up(
        &mut self,
        old: &PlainRange,
        seat: u16,
        most: u64,
    ) -> Result<Result<u64, Fault>, Trouble> {
        if self.is_stranger(old) {
            return Ok(Err(Fault::Stale));
        }
        let later = old.entries.get(self.front..).unwrap_or(&[]);
        let mut left = later.len() as u64;
        for (number, entry) in later.iter().enumerate() {
            if number as u64 >= most {
                break;
            }
            if let Err(fault) = self.accept(entry, seat)? {
                return Ok(Err(fault));
            }
            left = left.saturating_sub(1);
        }
        Ok(Ok(left))
    }

    /// Returns true if a range can't be the old one: its format or its part differs, or it has fewer entries.
    fn is_stranger(&self, old: &PlainRange) -> bool {
        let is_same = old.format == self.range.format && old.part == self.range.part;
        !is_same || old.entries.len() < self.front
    }

    /// Accepts an entry of the old range, or returns the reason why it isn't accepted.
    fn accept(&mut self, entry: &PlainEntry, seat: u16) -> Result<Result<(), Fault>, Trouble> {
        let PlainEntry { key, version, .. } = *entry;
        match self.range.accept(key, &version) {
            Ok(true) => {
                self.range.entries.push(PlainEntry {
                    seat,
                    key,
                    version,
                    source: Source::Copy,
                })?;
                self.front = self.front.saturating_add(1);
                Ok(Ok(()))
            }
            Ok(false) => Ok(Err(Fault::Stale)),
            Err(fault) => Ok(Err(fault)),
        }
    }
}
