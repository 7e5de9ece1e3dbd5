//! The size of a replica.
ghost use Rattle.std.specs.Prelude.{◌≡◌};
ghost use Rattle.c_calls.specs.Sizes.{sizes_of};

use range_state::RangeState;

/// The size of a replica: lengths of contents in bytes, each at most 2^64 - 1. Memory differs, since rows, entries and
/// sessions share values. The contents of the moment aren't counted.
#[repr(C)]
#[derive(Clone, Copy)]
pub struct Sizes {
    /// The texts of the rows.
    pub rows: u64,
    /// The keys, values and clocks of the journal's entries: 10 bytes for each pair of a clock.
    pub journal: u64,
    /// The texts that sessions took, and the texts of the leaves of their rows that have changed since.
    pub sessions: u64,
}

/// Returns the size of a replica.
pub fn sizes_of(state: &RangeState) -> Sizes
    ensures { result ≡ sizes_of state.now }
{
    let bytes = state.bytes();
    Sizes {
        rows: bytes.rows,
        journal: bytes.journal,
        sessions: bytes.sessions,
    }
}
