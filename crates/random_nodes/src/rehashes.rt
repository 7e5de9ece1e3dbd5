//! Rehash workers, with other steps at their points.

use crate::node::Node;
use crate::points::Points;
use crate::steps::Step;
use admission::Slot;
use plain_model::trouble::{Trouble, expect};
use ring_node::{Gate, RehashReport, Step as Passed};
use std::alloc::Global;
use std::sync::ledger::Ledger;
use std::sync::{Mutex, Wait};
use vclock::Refusal;

/// A rehash in progress.
#[derive(Clone, Copy)]
struct Progress {
    points: Points,
    /// True if no step was taken since the last job was taken.
    is_quiet: bool,
    /// The number of workers that were started before the last job was taken.
    workers: u64,
    /// The number of dirty nodes at the last point, if a digest is yet to be installed.
    dirty: Option<u64>,
    /// The number of jobs.
    jobs: u64,
    /// The number of digests that made a node clean.
    cleaned: u64,
    /// The number of digests that were too late.
    late: u64,
    /// False if a digest changed something else.
    is_right: bool,
}

impl Progress {
    /// Compares the number of dirty nodes with the number at the last point. It is one less if the digest made its node
    /// clean, which is required if no step was taken meanwhile. Otherwise the digest was too late, unless another
    /// worker had made the node clean.
    fn settle(&mut self, now: u64, workers: u64) {
        let Some(before) = self.dirty.take() else {
            return;
        };
        if now.wrapping_add(1) == before {
            self.cleaned = self.cleaned.wrapping_add(1);
        } else if now != before || self.is_quiet {
            self.is_right = false;
        } else if workers == self.workers {
            self.late = self.late.wrapping_add(1);
        }
    }
}

/// A gate that takes other steps at the points of a rehash worker.
#[derive(Drop)]
struct Watch<'a, L: Ledger, G: Gate> {
    node: &'a Node<L>,
    gate: &'a G,
    progress: Mutex<Progress>,
}

impl<'a, L: Ledger, G: Gate> Watch<'a, L, G> {
    /// Takes steps at a point. The progress isn't locked meanwhile.
    fn take_steps<R: Wait>(&self, rt: &R, progress: Progress) -> Progress {
        let mut points = progress.points;
        let is_quiet = points.pass(rt, self.gate) && progress.is_quiet;
        Progress {
            points,
            is_quiet,
            ..progress
        }
    }

    /// Judges the last digest, and returns the number of workers that were started.
    fn settle<R: Wait>(&self, rt: &R, progress: &mut Progress) -> u64 {
        let workers = self.node.workers(rt);
        progress.settle(self.node.dirty(rt), workers);
        workers
    }

    /// Returns the progress.
    fn progress<R: Wait>(&self, rt: &R) -> Progress {
        *self.progress.lock(rt)
    }
}

impl<'a, L: Ledger, G: Gate> Gate for Watch<'a, L, G> {
    fn pass<R: Wait>(&self, rt: &R, step: Passed) {
        // No call can change a written text, so a step here is one before the text is hashed.
        if step == Passed::Written {
            return;
        }
        let mut progress = self.progress(rt);
        if step == Passed::Taken {
            progress.workers = self.settle(rt, &mut progress);
            progress.jobs = progress.jobs.wrapping_add(1);
            progress.is_quiet = true;
            progress = self.take_steps(rt, progress);
        } else {
            progress = self.take_steps(rt, progress);
            progress.dirty = Some(self.node.dirty(rt));
        }
        *self.progress.lock(rt) = progress;
    }
}

/// Hashes dirty nodes of a node's tree, and compares the report with the work done.
pub(crate) fn run_rehash<L: Ledger, C: Ledger, G: Gate, R: Wait>(
    rt: &R,
    alloc: Global,
    node: &Node<L>,
    slot: &Slot<C>,
    gate: &G,
    step: &Step,
    (skip, turns): (u64, u64),
) -> Result<(), Trouble> {
    let watch = Watch {
        node,
        gate,
        progress: Mutex::new(Progress {
            points: Points::of(step),
            is_quiet: false,
            workers: 0,
            dirty: None,
            jobs: 0,
            cleaned: 0,
            late: 0,
            is_right: true,
        }),
    };
    node.count_worker(rt);
    let report = rehash_in(rt, alloc, node, slot, &watch, (skip, turns))?;
    let mut progress = watch.progress(rt);
    let _workers = watch.settle(rt, &mut progress);
    expect(progress.is_right, "the dirty nodes in a rehash")?;
    let jobs = report.installed.wrapping_add(report.stale);
    expect(jobs == progress.jobs, "the number of jobs of a rehash")?;
    let are_due = report.installed >= progress.cleaned && report.stale >= progress.late;
    expect(are_due, "the numbers of installed and of late digests")?;
    let has_ended = if report.clean {
        node.dirty(rt) == 0
    } else {
        jobs == turns
    };
    expect(has_ended, "the end of a rehash")
}

/// Hashes dirty nodes.
fn rehash_in<L: Ledger, C: Ledger, G: Gate, R: Wait>(
    rt: &R,
    alloc: Global,
    node: &Node<L>,
    slot: &Slot<C>,
    gate: &G,
    (skip, turns): (u64, u64),
) -> Result<RehashReport, Refusal> {
    node.range()
        .rehash_worker(rt, alloc, slot, gate, skip, turns)
}
