//! The snapshot that a range offers to another replica.
ghost use Rattle.std.specs.Prelude.{◌≡◌, None, Some, map};
ghost use Rattle.std.specs.Arc.{arc_value};
ghost use Rattle.vclock.specs.Answer.{Answers};
ghost use Rattle.range_tree.specs.Jobs.{dirty_fault};

use crate::tree::Tree;
use snapshot::Snapshot;
use std::alloc::Global;
use std::sync::Arc;
use tree_nodes::SharedDigests;
use vclock::Refusal;

impl Tree {
    /// Makes a snapshot of the rows now with the digests of the whole tree, to offer to another replica. No row is
    /// copied: the snapshot shares the leaves with the tree, and the digests that haven't changed since a session was
    /// opened. Refused, in order: Dirty (some node has no digest), NoMemory.
    pub fn snapshot(&self, alloc: Global) -> Result<Arc<Snapshot, Global>, Refusal>
        ensures { Answers result (dirty_fault self.now) (λ snapshot. arc_value snapshot ≡ self.now.map) }
    {
        let digests = self.marks.digests(alloc)?;
        self.snapshot_with(alloc, digests)
    }

    /// Makes a snapshot, like `snapshot`, and keeps copies of all digests, which later snapshots share. Refused, in
    /// order: Dirty, NoMemory.
    pub fn kept_snapshot(&mut self, alloc: Global) -> Result<Arc<Snapshot, Global>, Refusal>
        ensures snapshot { Answers result (dirty_fault self.old) (λ snapshot. arc_value snapshot ≡ self.old.map) }
        ensures same { self.new ≡ self.old }
    {
        let digests = self.marks.keep_digests(alloc)?;
        self.snapshot_with(alloc, digests)
    }

    /// Makes a snapshot of the rows now with these digests. Refused: NoMemory.
    fn snapshot_with(
        &self,
        alloc: Global,
        digests: SharedDigests,
    ) -> Result<Arc<Snapshot, Global>, Refusal>
        requires { map Some digests ≡ self.now.marks }
        ensures { Answers result None (λ snapshot. arc_value snapshot ≡ self.now.map) }
    {
        Snapshot::of_shared(
            alloc,
            self.format,
            self.bits,
            self.range,
            self.leaves.share()?,
            digests,
        )
    }
}
