//! Hashing the nodes of a store's tree.
ghost use Rattle.std.specs.Prelude.{◌≡◌, None, OnOk};
ghost use Rattle.std.specs.Arc.{arc_value};
ghost use Rattle.vclock.specs.Answer.{Answers};
ghost use Rattle.vclock.specs.Outcome.{DoesAtOnce};
ghost use Rattle.tree_nodes.specs.Nodes.{dirty_count};
ghost use Rattle.range_store.specs.Store.{install, rows_now, dirty_fault};
ghost use Rattle.range_store.specs.Trees.{rehashed, HashesSome, IsSameRange};

use crate::store::RangeStore;
use snapshot::Snapshot;
use std::alloc::Global;
use std::sync::Arc;
use std::thread::Threads;
use tree_nodes::{Hashed, NodeAt};
use vclock::Refusal;

impl RangeStore {
    /// Installs the digest of a text at a node.
    ///
    /// Refused: Stale (the range's tree has no such node, one of its children is dirty, or the text is no longer the
    /// node's). On error the state is unchanged. Doesn't allocate: the text is compared with the rows in place.
    pub fn install(&mut self, node: NodeAt, hashed: &Hashed) -> Result<(), Refusal>
        ensures { DoesAtOnce result self.old self.new (install self.old node hashed.now) }
    {
        self.tree.install(node, hashed)
    }

    /// Hashes every dirty node, installs the digests, and returns the number of nodes that were dirty. Each round
    /// hashes the nodes whose children are clean, in several threads if there is enough to hash.
    ///
    /// Refused: NoMemory. Then some of the dirty nodes may be clean, and everything else is unchanged.
    pub fn rehash(&mut self, rt: &(impl Threads + Sync), alloc: Global) -> Result<u64, Refusal>
        ensures count { Answers result None (λ hashed. hashed ≡ dirty_count self.old.marks) }
        ensures ok { OnOk result (self.new ≡ rehashed self.old) }
        ensures same { IsSameRange self.old self.new }
    {
        self.tree.rehash(rt, alloc)
    }

    /// Hashes every dirty node like `rehash`, but only in the caller's thread.
    ///
    /// Refused: NoMemory. Then some of the dirty nodes may be clean, and everything else is unchanged.
    pub fn rehash_here(&mut self, alloc: Global) -> Result<u64, Refusal>
        ensures count { Answers result None (λ hashed. hashed ≡ dirty_count self.old.marks) }
        ensures ok { OnOk result (self.new ≡ rehashed self.old) }
        ensures same { IsSameRange self.old self.new }
    {
        self.tree.rehash_here(alloc)
    }

    /// Hashes at most `most` of the dirty nodes whose children are clean, in the order of their places, in the caller's
    /// thread, and returns the number of nodes that are still dirty. A new tree's leaves are first. A caller that
    /// repeats it until that number is 0 can do other work in between.
    ///
    /// Refused: NoMemory. Then the state is unchanged.
    pub fn rehash_some(&mut self, alloc: Global, most: usize) -> Result<usize, Refusal>
        ensures { HashesSome result most self.old self.new }
    {
        self.tree.rehash_some(alloc, most)
    }

    /// Makes a snapshot of the rows now, like `Tree::snapshot`, and keeps its digests in shared blocks, so that later
    /// snapshots share the blocks that haven't changed. Refused, in order: Dirty (some node has no digest), NoMemory.
    pub fn kept_snapshot(&mut self, alloc: Global) -> Result<Arc<Snapshot, Global>, Refusal>
        ensures snapshot { Answers result (dirty_fault self.old) (λ snapshot. arc_value snapshot ≡ rows_now self.old) }
        ensures same { self.new ≡ self.old }
    {
        self.tree.kept_snapshot(alloc)
    }
}
