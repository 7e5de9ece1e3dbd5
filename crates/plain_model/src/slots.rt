//! The slots of background work, by the definitions.

use crate::trouble::Trouble;
use std::alloc::Global;

/// The least and the greatest number of slots.
pub const FLOOR: u32 = 1;

pub const CEILING: u32 = 8;

/// The latency above which the target falls, in microseconds.
pub const THRESHOLD: u32 = 50_000;

/// The age at which a sample no longer counts, in milliseconds.
const WINDOW: u64 = 60_000;

/// The latency of a call of the foreground, in microseconds, with its moment in milliseconds.
#[derive(Clone, Copy)]
struct PlainSample {
    moment: u64,
    micros: u32,
}

/// The lent and the free slots, with all samples: there are fewer than a controller keeps.
#[derive(Drop)]
pub struct PlainSlots {
    pub target: u32,
    pub lent: u32,
    pub latest: u64,
    samples: Vec<PlainSample>,
}

impl PlainSlots {
    /// Returns slots that are all free, without samples.
    pub fn new(alloc: Global) -> PlainSlots {
        PlainSlots {
            target: CEILING,
            lent: 0,
            latest: 0,
            samples: Vec::new(alloc),
        }
    }

    /// Returns the number of slots that could be lent.
    pub fn free(&self) -> u32 {
        self.target.saturating_sub(self.lent)
    }

    /// Keeps a sample whose moment isn't before the latest one, and returns the number of samples.
    pub fn sample(&mut self, moment: u64, micros: u32) -> Result<u32, Trouble> {
        self.samples.push(PlainSample { moment, micros })?;
        self.latest = moment;
        Ok(u32::try_from(self.samples.len()).unwrap_or(u32::MAX))
    }

    /// Sets the target by the samples that count at a moment that isn't before the latest one, and returns their 99th
    /// percentile, if there are any.
    pub fn adjust(&mut self, now: u64) -> Option<u32> {
        self.latest = now;
        let found = self.percentile(now)?;
        if found > THRESHOLD {
            self.target = FLOOR.max(self.target / 2);
        } else if found <= THRESHOLD / 2 {
            self.target = CEILING.min(self.target.saturating_add(1));
        }
        Some(found)
    }

    /// Returns the smallest latency that at least 99 of 100 of the samples that count don't exceed.
    fn percentile(&self, now: u64) -> Option<u32> {
        let all = self.count(now, u32::MAX);
        let mut found = None;
        for sample in &self.samples {
            let is_enough = self.count(now, sample.micros).saturating_mul(100)
                >= all.saturating_mul(99);
            if counts_at(sample, now) && is_enough {
                found = Some(sample.micros.min(found.unwrap_or(u32::MAX)));
            }
        }
        found
    }

    /// Returns the number of samples that count and don't exceed a latency.
    fn count(&self, now: u64, micros: u32) -> u64 {
        let mut count = 0u64;
        for sample in &self.samples {
            if counts_at(sample, now) && sample.micros <= micros {
                count = count.wrapping_add(1);
            }
        }
        count
    }
}

/// Returns true if a sample counts at a moment.
fn counts_at(sample: &PlainSample, now: u64) -> bool {
    now < sample.moment.saturating_add(WINDOW)
}
