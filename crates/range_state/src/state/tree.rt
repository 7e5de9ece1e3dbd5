//! The tree of a range: hashing its nodes, and snapshots of its rows.
ghost use Rattle.std.specs.Prelude.{◌≡◌, None, IfSome, OnOk};
ghost use Rattle.std.specs.Arc.{arc_value};
ghost use Rattle.sha2.specs.Sha256.{sha256};
ghost use Rattle.vclock.specs.Answer.{Answers};
ghost use Rattle.vclock.specs.Outcome.{DoesAtOnce};
ghost use Rattle.tree_nodes.specs.Nodes.{place_of, kept_digest, dirty_count};
ghost use Rattle.range_tree.specs.Jobs.{text_in, GivesJob, AreJobs};
ghost use Rattle.range_store.specs.Store.{tree_in, rows_now, dirty_fault};
ghost use Rattle.range_state.specs.State.{install};
ghost use Rattle.range_state.specs.Trees.{rehashed, HashesSome, IsSameRange};

use crate::state::RangeState;
use rehash::Job;
use snapshot::Snapshot;
use std::alloc::Global;
use std::sync::Arc;
use std::thread::Threads;
use tree_nodes::{Digest, Hashed, NodeAt};
use vclock::Refusal;

impl RangeState {
    /// Returns the digest of a clean node's text for the rows now, or `None` if the node is dirty or the range's tree
    /// has no such node. Doesn't allocate.
    pub fn digest_at(&self, node: NodeAt) -> Option<Digest>
        ensures digest { result ≡ kept_digest self.now.store.marks (place_of node) }
        ensures right { IfSome result (λ digest. digest ≡ sha256 (text_in (tree_in self.now.store) node)) }
    {
        self.store.tree().digest_at(node)
    }

    /// Returns a job: a dirty node whose children are clean, and its text now; or `None` if no node is dirty. Of
    /// several such nodes it takes the one at `skip`, modulo their number, so workers that are numbered from 0 get
    /// different jobs as long as there are enough. Refused: NoMemory.
    pub fn take_job(&self, alloc: Global, skip: u64) -> Result<Option<Job>, Refusal>
        ensures { Answers result None (GivesJob (tree_in self.now.store)) }
    {
        self.store.tree().take_job(alloc, skip)
    }

    /// Returns jobs of different nodes: of all dirty nodes whose children are clean, but at most of the first `most`.
    /// Refused: NoMemory.
    pub fn take_jobs(&self, alloc: Global, most: usize) -> Result<Vec<Job>, Refusal>
        ensures { Answers result None (λ jobs. AreJobs (tree_in self.now.store) most jobs.items) }
    {
        self.store.tree().take_jobs(alloc, most)
    }

    /// Installs the digest of a text at a node.
    ///
    /// Refused: Stale (the range's tree has no such node, one of its children is dirty, or the text is no longer the
    /// node's). On error the state is unchanged. Doesn't allocate: the text is compared with the rows in place.
    pub fn install(&mut self, node: NodeAt, hashed: &Hashed) -> Result<(), Refusal>
        ensures { DoesAtOnce result self.old self.new (install self.old node hashed.now) }
    {
        let done = self.store.install(node, hashed);
        // Called only for its clause: the store is sound.
        let _sound = self.store.journal();
        done
    }

    /// Hashes every dirty node, installs the digests, and returns the number of nodes that were dirty. Each round
    /// hashes the nodes whose children are clean, in several threads if there is enough to hash.
    ///
    /// Refused: NoMemory. On error some of the dirty nodes may be clean, and everything else is unchanged.
    pub fn rehash(&mut self, rt: &(impl Threads + Sync), alloc: Global) -> Result<u64, Refusal>
        ensures count { Answers result None (λ hashed. hashed ≡ dirty_count self.old.store.marks) }
        ensures ok { OnOk result (self.new ≡ rehashed self.old) }
        ensures same { IsSameRange self.old self.new }
    {
        let done = self.store.rehash(rt, alloc);
        // Called only for its clause: the store is sound.
        let _sound = self.store.journal();
        done
    }

    /// Hashes every dirty node, like `rehash`, but only in the caller's thread.
    ///
    /// Refused: NoMemory. On error some of the dirty nodes may be clean, and everything else is unchanged.
    pub fn rehash_here(&mut self, alloc: Global) -> Result<u64, Refusal>
        ensures count { Answers result None (λ hashed. hashed ≡ dirty_count self.old.store.marks) }
        ensures ok { OnOk result (self.new ≡ rehashed self.old) }
        ensures same { IsSameRange self.old self.new }
    {
        let done = self.store.rehash_here(alloc);
        // Called only for its clause: the store is sound.
        let _sound = self.store.journal();
        done
    }

    /// Hashes at most `most` of the dirty nodes whose children are clean, in the order of their places, in the caller's
    /// thread. A new tree's leaves are first. Returns the number of nodes that are still dirty; a caller that repeats
    /// the call until that number is 0 can do other work in between.
    ///
    /// Refused: NoMemory. On error the state is unchanged.
    pub fn rehash_some(&mut self, alloc: Global, most: usize) -> Result<usize, Refusal>
        ensures { HashesSome result most self.old self.new }
    {
        let done = self.store.rehash_some(alloc, most);
        // Called only for its clause: the store is sound.
        let _sound = self.store.journal();
        done
    }

    /// Makes a snapshot of the rows now with the digests of the whole tree, to offer to another replica. No row is
    /// copied: the snapshot shares the leaves with the range, and the digests that haven't changed since a session was
    /// opened. Refused, in order: Dirty (some node has no digest), NoMemory.
    pub fn snapshot(&self, alloc: Global) -> Result<Arc<Snapshot, Global>, Refusal>
        ensures { Answers result (dirty_fault self.now.store) (λ snapshot. arc_value snapshot ≡ rows_now self.now.store) }
    {
        self.store.tree().snapshot(alloc)
    }
}
