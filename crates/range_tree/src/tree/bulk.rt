//! Rehashing a whole tree.
ghost use Rattle.std.specs.Prelude.{◌≡◌, ◌<◌, ⊤, ℕ, List, length, map, take, slice_index_or, false, IsTrue, IfOk, IfErr, OnOk, None};
ghost use Rattle.vclock.specs.Answer.{Answers};
ghost use Rattle.tree_nodes.specs.Nodes.{Node, place_of, are_clean, dirty_count, kept_digest, ready_from};
ghost use Rattle.range_tree.specs.Jobs.{is_current};
ghost use Rattle.range_tree.specs.Trees.{IsRangeTree};
ghost use Rattle.range_tree.specs.Rehashes.{rehashed, HasHashed, HashesSome, IsSameTree};

use crate::tree::Tree;
use rehash::{Job, hash_all, hash_here};
use std::alloc::{AllocError, Global};
use std::thread::Threads;
use tree_nodes::{Hashed, NodeAt};
use vclock::Refusal;

/// The number of bytes of text that a round of a rehash has in memory if each text is as long as the first leaf's.
const ROUND_LEN: u128 = 4 << 20;

/// The minimum number of nodes in a round, so that each thread has some.
const ROUND_SIZE_MIN: usize = 16;

impl Tree {
    /// Returns the number of nodes of the tree that have no digest, at most 273, or 4,369 in format 2. Doesn't
    /// allocate.
    pub fn dirty_count(&self) -> usize
        ensures count { result ≡ dirty_count self.now.marks }
        ensures valid { IsRangeTree self.now }
    {
        self.marks.dirty_count()
    }

    /// Hashes every dirty node, installs the digests, and returns the number of nodes that were dirty. Each round
    /// hashes some nodes whose children are clean, in several threads if there is enough to hash, and keeps their texts
    /// in memory: 4 MiB if each is as long as the first leaf's, but at least 16 texts.
    ///
    /// Refused: NoMemory. On error some of the dirty nodes may be clean, and everything else is unchanged.
    pub fn rehash(&mut self, rt: &(impl Threads + Sync), alloc: Global) -> Result<u64, Refusal>
        ensures count { Answers result None (λ hashed. hashed ≡ dirty_count self.old.marks) }
        ensures ok { OnOk result (self.new ≡ rehashed self.old) }
        ensures same { IsSameTree self.old self.new }
        ensures valid { IsRangeTree self.new }
    {
        let hash = |jobs: Vec<Job>| -> Result<Vec<Hashed>, Refusal>
            ensures { Answers result None (λ all. all.items ≡ map (λ j. j.text) jobs.items) }
        { hash_all(rt, alloc, jobs) };
        let dirty = self.rehash_by(&hash, alloc);
        // Called only for its clause: the tree is valid.
        let _right = self.dirty_count();
        dirty
    }

    /// Hashes every dirty node, like `rehash`, but only in the caller's thread.
    ///
    /// Refused: NoMemory. On error some of the dirty nodes may be clean, and everything else is unchanged.
    pub fn rehash_here(&mut self, alloc: Global) -> Result<u64, Refusal>
        ensures count { Answers result None (λ hashed. hashed ≡ dirty_count self.old.marks) }
        ensures ok { OnOk result (self.new ≡ rehashed self.old) }
        ensures same { IsSameTree self.old self.new }
        ensures valid { IsRangeTree self.new }
    {
        let hash = |jobs: Vec<Job>| -> Result<Vec<Hashed>, Refusal>
            ensures { Answers result None (λ all. all.items ≡ map (λ j. j.text) jobs.items) }
        { hash_here(alloc, jobs) };
        let dirty = self.rehash_by(&hash, alloc);
        // Called only for its clause: the tree is valid.
        let _right = self.dirty_count();
        dirty
    }

    /// Hashes at most `most` of the dirty nodes whose children are clean, in the order of their places, in the caller's
    /// thread. A new tree's leaves are first. Returns the number of nodes that are still dirty; a caller that repeats
    /// the call until that number is 0 can do other work in between.
    ///
    /// Refused: NoMemory. On error the tree is unchanged.
    pub fn rehash_some(&mut self, alloc: Global, most: usize) -> Result<usize, Refusal>
        ensures some { HashesSome result most self.old self.new }
        ensures valid { IsRangeTree self.new }
    {
        let hash = |ready: Vec<Job>| -> Result<Vec<Hashed>, Refusal>
            ensures { Answers result None (λ all. all.items ≡ map (λ j. j.text) ready.items) }
        { hash_here(alloc, ready) };
        let hashed = self.rehash_ready(&hash, alloc, most);
        let left = self.dirty_count();
        hashed?;
        Ok(left)
    }

    /// Hashes every dirty node with a function that hashes jobs.
    fn rehash_by<F: Fn(Vec<Job>) -> Result<Vec<Hashed>, Refusal>>(
        &mut self,
        hash: &F,
        alloc: Global,
    ) -> Result<u64, Refusal>
        requires callable { F.IsAlwaysCallable hash.now }
        requires hashes { (jobs : _) (hashed : _) → F.post hash.now jobs hashed
            → Answers hashed None (λ all. all.items ≡ map (λ j. j.text) jobs.items) }
        ensures count { Answers result None (λ hashed. hashed ≡ dirty_count self.old.marks) }
        ensures ok { OnOk result (self.new ≡ rehashed self.old) }
        ensures same { IsSameTree self.old self.new }
    {
        let dirty = self.dirty_count() as u64;
        let most = self.round_size();
        while self.rehash_ready(hash, alloc, most)? {}
        // Called only for its clause: the tree is valid.
        let _right = self.dirty_count();
        Ok(dirty)
    }

    /// Returns the number of nodes that a round hashes: `ROUND_LEN` bytes of text if each text is as long as the first
    /// leaf's, but at least `ROUND_SIZE_MIN` nodes.
    fn round_size(&self) -> usize
        ensures { 0 < result }
    {
        let leaf_len = self.rows(0).text_len().max(1);
        let size = usize::try_from(ROUND_LEN / leaf_len).unwrap_or(usize::MAX);
        size.max(ROUND_SIZE_MIN)
    }

    /// Hashes at most `most` of the dirty nodes whose children are clean, and makes them clean. Returns true if there
    /// was any.
    fn rehash_ready<F: Fn(Vec<Job>) -> Result<Vec<Hashed>, Refusal>>(
        &mut self,
        hash: &F,
        alloc: Global,
        most: usize,
    ) -> Result<bool, Refusal>
        requires callable { F.IsAlwaysCallable hash.now }
        requires hashes { (jobs : _) (hashed : _) → F.post hash.now jobs hashed
            → Answers hashed None (λ all. all.items ≡ map (λ j. j.text) jobs.items) }
        ensures memory { Answers result None (λ _. ⊤) }
        ensures more { IfOk result (λ any. IsTrue any → dirty_count self.new.marks < dirty_count self.old.marks) }
        ensures none { IfOk result (λ any. any ≡ false → 0 < most → IsTrue (are_clean self.new.marks)) }
        ensures ok { OnOk result (HasHashed (take most (ready_from self.old.marks 0)) self.old self.new) }
        ensures err { IfErr result (λ _. self.new ≡ self.old) }
    {
        let jobs = self.take_jobs(alloc, most)?;
        let nodes = nodes_of(alloc, &jobs)?;
        let hashed = hash(jobs)?;
        self.make_all_clean(&nodes, &hashed);
        Ok(!nodes.is_empty())
    }

    /// Makes nodes clean whose texts are the hashed ones.
    fn make_all_clean(&mut self, nodes: &[NodeAt], hashed: &[Hashed])
        requires all { length hashed.now ≡ length nodes.now }
        requires current { (i : ℕ) (node : Node) (text : List ℕ) → i < length nodes.now
            → IsTrue (is_current self.old (slice_index_or nodes.now i node) (slice_index_or hashed.now i text)) }
        requires has { (i : ℕ) (node : Node) → i < length nodes.now
            → place_of (slice_index_or nodes.now i node) < length self.old.marks }
        requires dirty { (i : ℕ) (node : Node) → i < length nodes.now
            → kept_digest self.old.marks (place_of (slice_index_or nodes.now i node)) ≡ None }
        ensures hashed { HasHashed (map place_of nodes.now) self.old self.new }
        ensures none { length nodes.now ≡ 0 → self.new ≡ self.old }
        ensures fewer { 0 < length nodes.now → dirty_count self.new.marks < dirty_count self.old.marks }
    {
        for i in 0..nodes.len() {
            self.make_clean(nodes[i], &hashed[i]);
        }
    }
}

/// Lists the node of each job.
fn nodes_of(alloc: Global, jobs: &[Job]) -> Result<Vec<NodeAt>, AllocError>
    ensures { IfOk result (λ nodes. nodes.items ≡ map (λ j. j.node) jobs.now) }
{
    let mut nodes = Vec::with_capacity(alloc, jobs.len())?;
    for job in jobs {
        nodes.push(job.node())?;
    }
    Ok(nodes)
}
