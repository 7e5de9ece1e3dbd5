//! The place of a replica's range, and the number of its entries.
ghost use Rattle.std.specs.Prelude.{◌≡◌};
ghost use Rattle.c_calls.specs.About.{about_of, about_shown};

use crate::kept::Kept;
use crate::published::Published;

/// The data that a checkpoint has to name: the range, and the position of its log.
#[repr(C)]
#[derive(Clone, Copy)]
pub struct About {
    /// The number of the format, 1 or 2.
    pub format: u64,
    /// The number of bits of the range's number.
    pub bits: u64,
    /// The number of the range, from 0.
    pub range: u64,
    /// The number of entries, with those before the last renewals: the number of the next entry.
    pub entries: u64,
}

/// Returns the place of the range of a replica, and the number of its entries.
pub fn about_of(kept: &Kept) -> About
    ensures { result ≡ about_of kept.now }
{
    let config = kept.state().store().config();
    About {
        format: u64::from(config.format().number()),
        bits: u64::from(config.bits()),
        range: u64::from(config.range()),
        entries: kept.entries(),
    }
}

/// Returns the place of the range of a snapshot, and the number of entries that made its rows.
pub fn about_shown(rows: &Published) -> About
    ensures { result ≡ about_shown rows.now }
{
    let snapshot = rows.snapshot();
    About {
        format: u64::from(snapshot.format().number()),
        bits: u64::from(snapshot.bits()),
        range: u64::from(snapshot.range()),
        entries: rows.entries(),
    }
}
