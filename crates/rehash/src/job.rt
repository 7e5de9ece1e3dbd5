//! Jobs: nodes whose texts are to be hashed.
ghost use Rattle.std.specs.Prelude.{◌≡◌, None, length};
ghost use Rattle.vclock.specs.Answer.{Answers};
ghost use Rattle.hash_tree.specs.Texts.{leaf_text, inner_text};

use crate::source::TextSource;
use hash_tree::{INNER_LEN, SharedLeaf, put_inner_text};
use std::alloc::Global;
use std::marker::Model;
use tree_nodes::{Digest, Hashed, NodeAt, Text, hash};
use vclock::{Format, Refusal};

/// A node whose text is to be hashed, with the source of the text and a buffer for it. A range makes jobs under its
/// lock in little time, and their texts are written and hashed without the lock. The result is installed in the range,
/// which refuses it as Stale if the node has changed since.
/// ```
/// let node = job.node();
/// state.install(node, &run_job(job))
/// ```
#[derive(Debug, Drop)]
pub struct Job {
    node: NodeAt,
    source: TextSource,
    room: Vec<u8>,
}

impl Model for Job {
    ghost use Rattle.std.specs.Prelude.{◌≡◌, ◌≤◌, []};
    ghost use Rattle.std.specs.Vec.{vec_capacity};
    ghost use Rattle.rehash.specs.Jobs.{NodeText, source_text, source_len};

    ghost Value = { NodeText };

    ghost view = { λ j. record { node = j.node; text = source_text j.source } };

    ghost invariant = { λ j. (j.room.items ≡ []) × (source_len j.source ≤ vec_capacity j.room) };
}

impl Job {
    /// Creates the job of a leaf. Refused: NoMemory.
    pub fn of_leaf(alloc: Global, node: NodeAt, leaf: SharedLeaf) -> Result<Job, Refusal>
        ensures { Answers result None (λ job. job ≡ record { node = node; text = leaf_text leaf.format leaf.rows }) }
    {
        let Ok(len) = usize::try_from(leaf.text_len()) else {
            return Err(Refusal::NoMemory);
        };
        Ok(Job {
            node,
            source: TextSource::Leaf(leaf),
            room: Vec::with_capacity(alloc, len)?,
        })
    }

    /// Creates the job of a node whose children have these digests, in order. Refused: NoMemory.
    pub fn of_children(
        alloc: Global,
        format: Format,
        node: NodeAt,
        digests: [Digest; 16],
    ) -> Result<Job, Refusal>
        ensures { Answers result None (λ job. job ≡ record { node = node; text = inner_text format digests }) }
    {
        Ok(Job {
            node,
            source: TextSource::Children(format, digests),
            room: Vec::with_capacity(alloc, INNER_LEN)?,
        })
    }

    /// Returns the node.
    pub fn node(&self) -> NodeAt
        ensures { result ≡ self.now.node }
    {
        self.node
    }

    /// Returns the length of its text in bytes. Reads no row.
    #[tactic(auto, unfolding(hash_tree::specs::Texts::inner_text))]
    pub fn text_len(&self) -> usize
        ensures { result ≡ length self.now.text }
    {
        let _room = self.room.capacity();
        match &self.source {
            TextSource::Leaf(leaf) => leaf.text_len() as usize,
            TextSource::Children(_, digests) => 1 + digests.as_flattened().len(),
        }
    }

    /// Writes the text into its buffer. Doesn't allocate.
    fn into_text(self) -> Vec<u8>
        ensures { result.items ≡ self.text }
    {
        let mut text = self.room;
        match &self.source {
            TextSource::Leaf(leaf) => leaf.put_text(&mut text).unwrap(),
            TextSource::Children(format, digests) => {
                put_inner_text(&mut text, *format, digests).unwrap()
            }
        }
        text
    }
}

/// Writes the text of a job and hashes it. Doesn't allocate.
pub fn run_job(job: Job) -> Hashed
    ensures { result ≡ job.text }
{
    run_job_passing(job, || {})
}

/// Runs a job as [`run_job`] does, and calls a function once the text is written and before it is hashed, so that a
/// test can hold a worker there.
pub fn run_job_passing<F: FnOnce()>(job: Job, pass: F) -> Hashed
    requires { F.IsAlwaysCallable pass }
    ensures text { result ≡ job.text }
    ensures passed { F.post pass tt }
{
    let text = Text::from(job.into_text());
    pass();
    hash(text)
}
