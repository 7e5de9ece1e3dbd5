//! The configuration of a range.
ghost use Rattle.std.specs.Prelude.{◌≡◌, ◌<◌, ◌^◌, IsTrue};
ghost use Rattle.range_store.specs.Config.{checked, config_of, is_config};
ghost use Rattle.range_store.specs.Migrates.{config_in_two};
ghost use Rattle.range_store.specs.Renewals.{config_to};

use std::marker::Model;
use vclock::Format;
use vclock::limits::{ENTRIES_MAX, RING_BITS_MAX};

/// The number of a range, its format, and the limit of its journal. Replicas of a range have equal formats, ring bits
/// and ranges; their limits may differ.
///
/// ```
/// let config = RangeConfig::new(2, 8, 255, 1_000_000).ok_or("no such range")?;
/// expect(
///     config.format() == Format::Two && config.bits() == 8 && config.range() == 255,
///     "a range has its format and place",
/// )?;
/// ```
#[derive(Clone, Copy, Debug, PartialEq, Eq)]
pub struct RangeConfig {
    format: Format,
    bits: u8,
    range: u16,
    limit: u64,
}

impl Model for RangeConfig {
    ghost use Rattle.std.specs.Prelude.{IsTrue};
    ghost use Rattle.range_store.specs.Config.{Config, is_config};

    ghost Value = { Config };

    ghost view = { λ c. record { format = c.format; bits = c.bits; range = c.range; limit = c.limit } };

    ghost inverse = { λ c. record { format = c.format; bits = c.bits; range = c.range; limit = c.limit } };

    ghost invariant = { λ c. IsTrue (is_config (record { format = c.format; bits = c.bits; range = c.range; limit = c.limit })) };
}

impl RangeConfig {
    /// Makes the configuration of range number `range`, from 0, in a ring of 2^bits ranges, in format 1 or 2, with a
    /// journal of at most `limit` entries. Returns `None` if the format is neither 1 nor 2, the bits are over 8, the
    /// ring has no such range, or the limit isn't 1 to 1,000,000. Doesn't allocate.
    pub fn new(format: u64, bits: u64, range: u64, limit: u64) -> Option<RangeConfig>
        ensures { result ≡ config_of format bits range limit }
    {
        let format = Format::of_number(format)?;
        if bits > RING_BITS_MAX || range >= 1 << bits || limit == 0 || limit > ENTRIES_MAX {
            return None;
        }
        Some(RangeConfig {
            format,
            bits: bits as u8,
            range: range as u16,
            limit,
        })
    }

    /// Returns this configuration for another range of the ring.
    pub fn for_range(&self, range: u16) -> RangeConfig
        requires { range < 2 ^ self.now.bits }
        ensures { result ≡ record self.now { range = range } }
    {
        RangeConfig { range, ..*self }
    }

    /// Returns this configuration in format 2.
    pub(crate) fn in_format_2(&self) -> RangeConfig
        ensures { result ≡ config_in_two self.now }
    {
        RangeConfig {
            format: Format::Two,
            ..*self
        }
    }

    /// Returns this configuration with another limit, or `None` if the limit isn't 1 to 1,000,000.
    pub(crate) fn with_limit(&self, limit: u64) -> Option<RangeConfig>
        ensures { result ≡ checked (config_to self.now limit) }
    {
        if limit == 0 || limit > ENTRIES_MAX {
            return None;
        }
        Some(RangeConfig { limit, ..*self })
    }

    /// Returns the format of rows and tree.
    pub fn format(&self) -> Format
        ensures { result ≡ self.now.format }
    {
        self.format
    }

    /// Returns the number of bits of a range's number, 0 to 8.
    pub fn bits(&self) -> u8
        ensures { result ≡ self.now.bits }
    {
        self.bits
    }

    /// Returns the number of the range, from 0.
    pub fn range(&self) -> u16
        ensures { result ≡ self.now.range }
    {
        self.range
    }

    /// Returns the maximum length of the journal, 1 to 1,000,000 entries.
    pub fn limit(&self) -> u64
        ensures limit { result ≡ self.now.limit }
        ensures valid { IsTrue (is_config self.now) }
    {
        self.limit
    }
}
