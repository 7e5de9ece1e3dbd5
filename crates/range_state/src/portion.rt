//! Portions of a moment's nodes, which are hashed without the range.
ghost use Rattle.std.specs.Prelude.{◌≡◌, ◌≤◌, ◌+◌, ◌++◌, None, length, take};
ghost use Rattle.std.specs.Vec.{vec_capacity};
ghost use Rattle.vclock.specs.Answer.{Answers};
ghost use Rattle.range_state.specs.Portions.{begun_within};

use rehash::{Job, run_job};
use std::alloc::Global;
use std::marker::Model;
use std::mem::replace;
use tree_nodes::{Hashed, NodeAt};
use vclock::Refusal;

/// The size in bytes of texts at which a portion ends. A range compares about this number of bytes under its lock.
const PORTION_LEN: usize = 262_144;

/// A node of a moment, and its hashed text.
#[derive(Drop)]
pub(crate) struct HashedNode {
    pub(crate) node: NodeAt,
    pub(crate) hashed: Hashed,
}

impl Model for HashedNode {
    ghost use Rattle.rehash.specs.Jobs.{NodeText};

    ghost Value = { NodeText };

    ghost view = { λ h. record { node = h.node; text = h.hashed } };
}

/// Some dirty nodes of a moment, to be hashed. A range makes a portion in little time, any thread hashes it, and the
/// range takes the digests.
/// ```
/// let mut portion = state.take_portion(alloc, 20)?;
/// portion.run(alloc);
/// let left = state.install_portion(portion);
/// ```
#[derive(Drop)]
pub struct Portion {
    /// The hashed nodes, with capacity for the others.
    hashed: Vec<HashedNode>,
    /// The jobs of the others.
    jobs: Vec<Job>,
}

impl Model for Portion {
    ghost use Rattle.std.specs.Prelude.{◌≤◌, ◌+◌, ◌++◌, List, length};
    ghost use Rattle.std.specs.Vec.{vec_capacity};
    ghost use Rattle.rehash.specs.Jobs.{NodeText};

    ghost Value = { List NodeText };

    ghost view = { λ p. p.hashed.items ++ p.jobs.items };

    ghost invariant = { λ p. length p.hashed.items + length p.jobs.items ≤ vec_capacity p.hashed };
}

impl Portion {
    /// Makes a portion of the first jobs, up to the one with which their texts have 262,144 bytes. Other jobs are
    /// dropped. Refused: NoMemory.
    pub(crate) fn of(alloc: Global, mut jobs: Vec<Job>) -> Result<Portion, Refusal>
        ensures { Answers result None (λ portion. portion ≡ begun_within 262144 jobs.items) }
    {
        jobs.truncate(portion_len(&jobs));
        Ok(Portion {
            hashed: Vec::with_capacity(alloc, jobs.len())?,
            jobs,
        })
    }

    /// Hashes the nodes that aren't hashed yet. Doesn't allocate.
    pub fn run(&mut self, alloc: Global)
        ensures { self.new ≡ self.old }
    {
        let hashed = replace(&mut self.hashed, Vec::new(alloc));
        let jobs = replace(&mut self.jobs, Vec::new(alloc));
        self.hashed = hash_all(hashed, jobs);
    }

    /// Hashes the nodes that aren't hashed yet, and returns all of them. Doesn't allocate.
    pub(crate) fn into_hashed(self) -> Vec<HashedNode>
        ensures nodes { result.items ≡ self }
    {
        hash_all(self.hashed, self.jobs)
    }
}

/// Returns the number of jobs that a portion takes. Doesn't allocate.
fn portion_len(jobs: &[Job]) -> usize
    ensures { take result jobs.now ≡ begun_within 262144 jobs.now }
{
    let mut left = PORTION_LEN;
    for (count, job) in jobs.iter().enumerate() {
        if left == 0 {
            return count;
        }
        left = left.saturating_sub(job.text_len());
    }
    jobs.len()
}

/// Hashes the nodes of some jobs, and appends them to others that are hashed. Doesn't allocate.
fn hash_all(mut hashed: Vec<HashedNode>, jobs: Vec<Job>) -> Vec<HashedNode>
    requires room { length hashed.items + length jobs.items ≤ vec_capacity hashed }
    ensures nodes { result.items ≡ hashed.items ++ jobs.items }
    ensures room { length result.items ≤ vec_capacity result }
{
    for job in jobs {
        let node = job.node();
        let hashed_text = run_job(job);
        hashed
            .push(HashedNode {
                node,
                hashed: hashed_text,
            })
            .unwrap();
    }
    hashed
}
