//! Jobs of hashing the nodes of a tree, and their digests.
ghost use Rattle.std.specs.Prelude.{◌≡◌, ◌+◌, ◌∷◌, [], None, IsTrue, IfSome, MatchOption};
ghost use Rattle.sha2.specs.Sha256.{sha256};
ghost use Rattle.vclock.specs.Answer.{Answers};
ghost use Rattle.vclock.specs.Outcome.{DoesAtOnce};
ghost use Rattle.tree_nodes.specs.Nodes.{place_of, kept_digest, is_ready, ready_from};
ghost use Rattle.range_tree.specs.Trees.{IsRangeTree};
ghost use Rattle.range_tree.specs.Jobs.{has_node, text_in, GivesJob, AreJobs, is_current, install, installed};

use crate::tree::Tree;
use hash_tree::is_inner_text;
use rehash::Job;
use std::alloc::Global;
use tree_nodes::{Digest, Hashed, NodeAt, tree_depth};
use vclock::Refusal;

impl Tree {
    /// Returns the digest of a clean node's text for the rows now, or `None` if the node is dirty or the tree has no
    /// such node. Doesn't allocate.
    pub fn digest_at(&self, node: NodeAt) -> Option<Digest>
        ensures digest { result ≡ kept_digest self.now.marks (place_of node) }
        ensures right { IfSome result (λ digest. digest ≡ sha256 (text_in self.now node)) }
    {
        self.marks.get(node)
    }

    /// Returns a job: a dirty node whose children are clean, and its text now; or `None` if no node is dirty. Of
    /// several such nodes it takes the one at `skip`, modulo their number, so workers that are numbered from 0 get
    /// different jobs as long as there are enough. Refused: NoMemory.
    pub fn take_job(&self, alloc: Global, skip: u64) -> Result<Option<Job>, Refusal>
        ensures { Answers result None (GivesJob self.now) }
    {
        match self.choose(skip) {
            Some(node) => Ok(Some(self.job_of(alloc, node)?)),
            None => Ok(None),
        }
    }

    /// Returns jobs of different nodes: of all dirty nodes whose children are clean, but at most of the first `most`.
    /// Refused: NoMemory.
    pub fn take_jobs(&self, alloc: Global, most: usize) -> Result<Vec<Job>, Refusal>
        ensures { Answers result None (λ jobs. AreJobs self.now most jobs.items) }
    {
        let mut jobs = Vec::new(alloc);
        let mut from = 0;
        while jobs.len() < most {
            let Some(node) = self.next_ready(from) else {
                return Ok(jobs);
            };
            jobs.push(self.job_of(alloc, node)?)?;
            from = node.place() + 1;
        }
        Ok(jobs)
    }

    /// Installs the digest of a text at a node.
    ///
    /// Refused: Stale (the tree has no such node, one of its children is dirty, or the text is no longer the node's).
    /// On error the tree is unchanged. Doesn't allocate: the text is compared with the rows in place.
    pub fn install(&mut self, node: NodeAt, hashed: &Hashed) -> Result<(), Refusal>
        ensures installs { DoesAtOnce result self.old self.new (install self.old node hashed.now) }
        ensures valid { IsRangeTree self.new }
    {
        // Called only for its clause: the tree is valid.
        let _right = self.dirty_count();
        if !self.is_current(node, hashed.text()) {
            return Err(Refusal::Stale);
        }
        self.make_clean(node, hashed);
        Ok(())
    }

    /// Installs the digest of a node's text.
    pub(super) fn make_clean(&mut self, node: NodeAt, hashed: &Hashed)
        requires { IsTrue (is_current self.old node hashed.now) }
        ensures digest { self.new ≡ installed self.old node hashed.now }
        ensures valid { IsRangeTree self.new }
    {
        // Reading a field shows that the index is valid for this depth.
        let _ = &node.depth;
        self.marks.set(node, hashed.digest());
    }

    /// Returns true if the tree has the node, its children are clean, and this is its text now.
    fn is_current(&self, node: NodeAt, text: &[u8]) -> bool
        ensures { result ≡ is_current self.now node text.now }
    {
        let format = self.format;
        if node.depth == tree_depth(format) {
            return self.leaves.get(node.index).is_text(text);
        }
        node.depth < tree_depth(format)
            && match self.marks.children(node) {
                Some(digests) => is_inner_text(format, text, &digests),
                None => false,
            }
    }

    /// Chooses a node for a job, if any: of several, the one at `skip`, modulo their number.
    fn choose(&self, skip: u64) -> Option<NodeAt>
        ensures { MatchOption result (ready_from self.now.marks 0 ≡ [])
            (λ node. IsTrue (has_node self.now node) × IsTrue (is_ready self.now.marks (place_of node))) }
    {
        let mut chosen = self.next_ready(0)?;
        let round = self.marks.ready_count() as u64;
        for _ in 0..skip % round {
            match self.next_ready(chosen.place() + 1) {
                Some(next) => chosen = next,
                None => return Some(chosen),
            }
        }
        Some(chosen)
    }

    /// Finds the first node from a place on that is ready for a job.
    fn next_ready(&self, from: usize) -> Option<NodeAt>
        ensures order { MatchOption result (ready_from self.now.marks from ≡ [])
            (λ node. ready_from self.now.marks from
            ≡ place_of node ∷ ready_from self.now.marks (place_of node + 1)) }
        ensures has { IfSome result (λ node. IsTrue (has_node self.now node)) }
        ensures ready { IfSome result (λ node. IsTrue (is_ready self.now.marks (place_of node))) }
    {
        self.marks.next_ready(from)
    }

    /// Makes the job of a node whose children are clean.
    fn job_of(&self, alloc: Global, node: NodeAt) -> Result<Job, Refusal>
        requires has { IsTrue (has_node self.now node) }
        requires ready { IsTrue (is_ready self.now.marks (place_of node)) }
        ensures { Answers result None (λ job. job ≡ record { node = node; text = text_in self.now node }) }
    {
        let format = self.format;
        if node.depth == tree_depth(format) {
            let leaf = self.leaves.get(node.index).share()?;
            return Job::of_leaf(alloc, node, leaf);
        }
        let Some(digests) = self.marks.children(node) else {
            unreachable!()
        };
        Job::of_children(alloc, format, node, digests)
    }
}
