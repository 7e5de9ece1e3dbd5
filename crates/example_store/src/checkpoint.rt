//! A range as bytes: its rows, saved and loaded.
use crate::replica::Replica;
use caller_pass::Pass;
use key_ring::leaf_count;
use ring_node::SharedRange;
use snapshot::Snapshot;
use std::alloc::Global;
use std::sync::Wait;
use std::sync::ledger::Ledger;
use tree_nodes::Digest;
use vclock::Refusal;

/// The texts of the rows of each leaf of a range, and the digest of the root over them. A store writes them to a file.
#[derive(Drop)]
pub(crate) struct Checkpoint {
    leaves: Vec<Vec<u8>>,
    root: Digest,
}

impl Checkpoint {
    /// Saves the rows of a snapshot. Refused: NoMemory.
    fn of(alloc: Global, snapshot: &Snapshot) -> Result<Checkpoint, Refusal> {
        let mut leaves = Vec::new(alloc);
        for leaf in 0..leaf_count(snapshot.format()) {
            leaves.push(snapshot.rows_text(alloc, leaf)?)?;
        }
        let root = snapshot.root();
        Ok(Checkpoint { leaves, root })
    }

    /// Loads the rows into an empty range, for a pass, and returns the number of versions. Refused as
    /// [`SharedRange::load_rows`] is.
    pub(crate) fn load<L: Ledger, R: Wait>(
        &self,
        rt: &R,
        alloc: Global,
        range: &SharedRange<L>,
        pass: &mut Pass<L>,
    ) -> Result<u64, Refusal> {
        let mut versions = 0u64;
        for rows in &self.leaves {
            let loaded = range.load_rows(rt, alloc, pass, rows)?;
            versions = versions.saturating_add(loaded.taken);
        }
        Ok(versions)
    }

    /// Returns the digest of the root over the rows. After a load and a rehash the range's root must be equal.
    pub(crate) fn root(&self) -> Digest {
        self.root
    }
}

impl<L: Ledger> Replica<L> {
    /// Saves the rows of a replica. Refused: Dirty (a put followed the last rehash), NoMemory.
    pub(crate) fn save<R: Wait>(&self, rt: &R, alloc: Global) -> Result<Checkpoint, Refusal> {
        let snapshot = self.range.snapshot(rt, alloc)?;
        Checkpoint::of(alloc, &snapshot)
    }
}
