//! Hashing many jobs.
ghost use Rattle.std.specs.Prelude.{◌≡◌, None, map};
ghost use Rattle.vclock.specs.Answer.{Answers};

use crate::job::{Job, run_job};
use rayon::prelude::*;
use std::alloc::Global;
use std::thread::Threads;
use tree_nodes::Hashed;
use vclock::Refusal;

/// The least number of bytes that a thread is to write and hash, so that it is worth starting.
const PIECE_LEN: usize = 65_536;

/// Runs `run_job` for each job, in several threads if there is enough to hash, and returns the results in order.
/// Refused: NoMemory; the jobs are then lost.
pub fn hash_all(
    rt: &(impl Threads + Sync),
    alloc: Global,
    jobs: Vec<Job>,
) -> Result<Vec<Hashed>, Refusal>
    ensures { Answers result None (λ hashed. hashed.items ≡ map (λ j. j.text) jobs.items) }
{
    let least = least_piece(&jobs);
    let hashed = jobs
        .into_par_iter()
        .with_min_len(least)
        .map(
            |job: Job| -> Hashed
                ensures { result ≡ job.text }
            { run_job(job) },
        )
        .collect(rt, alloc)?;
    Ok(hashed)
}

/// Runs `run_job` for each job in the caller's thread, and returns the results in order. Refused: NoMemory; the jobs
/// are then lost.
pub fn hash_here(alloc: Global, jobs: Vec<Job>) -> Result<Vec<Hashed>, Refusal>
    ensures { Answers result None (λ hashed. hashed.items ≡ map (λ j. j.text) jobs.items) }
{
    let mut hashed = Vec::with_capacity(alloc, jobs.len())?;
    for job in jobs {
        hashed.push(run_job(job))?;
    }
    Ok(hashed)
}

/// Returns the least number of jobs that a thread runs: `PIECE_LEN` bytes of text, by the mean of all jobs.
fn least_piece(jobs: &[Job]) -> usize {
    let bytes = jobs
        .iter()
        .fold(0usize, |sum, job| sum.saturating_add(job.text_len()));
    jobs.len().saturating_mul(PIECE_LEN) / bytes.max(1)
}
