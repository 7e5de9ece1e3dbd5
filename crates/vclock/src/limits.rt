//! The limits of the service. The definitions in `specs/` state the same numbers, and the prover ties the two.

/// The maximum length of a key, in bytes.
pub const KEY_LEN_MAX: usize = 255;

/// The maximum number of pairs in a clock.
pub const PAIRS_MAX: usize = 32;

/// The greatest number that a node can have.
pub const NODE_MAX: u64 = 65_535;

/// The maximum number of concurrent versions of a key.
pub const VERSIONS_MAX: usize = 64;

/// The maximum number of bits in a range's number: a ring has at most 2^8 ranges.
pub const RING_BITS_MAX: u64 = 8;

/// The maximum number of nodes on a ring.
pub const RING_NODES_MAX: usize = 32;

/// The maximum number of entries in a journal.
pub const ENTRIES_MAX: u64 = 1_000_000;

/// The maximum number of open sessions of a range.
pub const OPEN_SESSIONS_MAX: usize = 64;

/// The maximum number of session records of a range.
pub const SESSIONS_MAX: usize = 1_024;

/// The maximum number of pending hints in a store.
pub const PENDING_HINTS_MAX: u32 = 10_000;

/// The maximum number of snapshots in a pool of offers.
pub const OFFERS_MAX: usize = 16;
