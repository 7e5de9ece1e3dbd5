//! Readings of keys.
use vclock::Bytes;
use version_set::VersionSet;

/// The versions that a caller read for a key, and the length of the journal at that time.
#[derive(Debug, Drop)]
pub struct Reading {
    /// The number of entries of the journal.
    pub front: u64,
    /// The key.
    pub key: Bytes,
    /// The versions that were held for the key.
    pub versions: VersionSet,
}
