//! Copies of passes' receipts and readings.
use crate::states::begins;
use caller_pass::{Pass, Reading};
use range_journal::copy_entries;
use range_state::Receipt;
use std::alloc::Global;
use std::sync::ledger::Ledger;
use vclock::Refusal;

/// The receipts and the readings of a pass.
pub(crate) struct PassCopy {
    seat: u16,
    seen: u64,
    receipts: Vec<Receipt>,
    readings: Vec<Reading>,
}

impl PassCopy {
    /// Copies the receipts and the readings of a pass. Refused: NoMemory.
    pub(crate) fn of<L: Ledger>(alloc: Global, pass: &Pass<L>) -> Result<PassCopy, Refusal> {
        let receipts = copy_entries(alloc, pass.receipts())?;
        let mut readings = Vec::new(alloc);
        for reading in pass.readings() {
            readings.push(Reading {
                front: reading.front,
                key: reading.key.try_clone()?,
                versions: reading.versions.try_clone(alloc)?,
            })?;
        }
        Ok(PassCopy {
            seat: pass.seat(),
            seen: pass.seen(),
            receipts,
            readings,
        })
    }

    /// Returns true if a pass recorded everything of `before` and the first few receipts of `after`. If `before` and
    /// `after` are equal, its records equal theirs.
    pub(crate) fn is_between(&self, before: &PassCopy, after: &PassCopy) -> bool {
        self.seat == before.seat
            && before.seen <= self.seen
            && self.seen <= after.seen
            && begins(&self.receipts, &before.receipts)
            && begins(&after.receipts, &self.receipts)
            && are_same_readings(&self.readings, &before.readings)
    }
}

fn are_same_readings(readings: &[Reading], others: &[Reading]) -> bool {
    readings.len() == others.len()
        && readings
            .iter()
            .zip(others)
            .all(|(reading, other)| is_same_reading(reading, other))
}

fn is_same_reading(reading: &Reading, other: &Reading) -> bool {
    reading.front == other.front
        && reading.key.as_slice() == other.key.as_slice()
        && reading.versions.same(&other.versions)
}

impl Drop for PassCopy {
    /// Keeps the fields out of the proofs of callers that drop the value.
    fn drop(self) {
        let PassCopy {
            seat: _seat,
            seen: _seen,
            receipts: _receipts,
            readings: _readings,
        } = self;
    }
}
