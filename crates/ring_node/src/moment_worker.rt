//! Workers that hash a moment of a range while puts continue.
ghost use Rattle.std.specs.Prelude.{◌≡◌, ◌⊎◌, ◌+◌, ◌<◌, ◌≤◌, [], None, Some, IfOk, IfErr, MatchOption};
ghost use Rattle.std.specs.Arc.{arc_value};
ghost use Rattle.vclock.specs.Answer.{Answers};
ghost use Rattle.vclock.specs.Outcome.{Does, gives};
ghost use Rattle.range_state.specs.Moments.{with_moment, without_moment, AreMomentJobs, moment_fault};
ghost use Rattle.caller_pass.specs.Locks.{IsLocked, moved};
ghost use Rattle.ring_node.specs.Moments.{FoundAtSomeMoment, ChangedAtSomeMoment};
ghost use Rattle.ring_node.specs.Reports.{IsSnapshotOfMoment};

use crate::gate::{Gate, Step};
use crate::range::SharedRange;
use admission::Slot;
use rehash::{Job, run_job_passing};
use snapshot::Snapshot;
use std::alloc::Global;
use std::sync::ledger::Ledger;
use std::sync::{Arc, Wait};
use vclock::Refusal;

/// The maximum number of jobs that a worker takes under one lock.
const JOBS_MAX: usize = 64;

/// The report of a worker that hashes a moment.
#[derive(Debug, Drop)]
pub struct MomentReport {
    /// The number of digests that it installed in the moment.
    pub installed: u64,
    /// The number of digests that were too late: the range had another moment by then, or none.
    pub stale: u64,
    /// The snapshot of the moment, to publish: `None` if some node of it had no digest when the turns were used.
    pub snapshot: Option<Arc<Snapshot, Global>>,
}

impl<L: Ledger> SharedRange<L> {
    /// Keeps the current rows as the moment of the range, and hashes its dirty nodes, one in each turn. It ends when a
    /// turn finds no dirty node, or when the turns are used. Then it makes a snapshot of the moment, if all its nodes
    /// have digests.
    ///
    /// A node's text is written and hashed with no lock held, and the rows of a moment don't change, so puts continue
    /// meanwhile and make no digest late. A node that no put has changed is also clean in the range. The worker passes
    /// the gate as a rehash worker does.
    ///
    /// Refused: NoMemory. On error the digests installed before stay.
    pub fn moment_worker<R: Wait, C: Ledger, G: Gate>(
        &self,
        rt: &R,
        alloc: Global,
        _slot: &Slot<C>,
        gate: &G,
        turns: u64,
    ) -> Result<MomentReport, Refusal>
        ensures turns { IfOk result (λ report. report.installed + report.stale ≤ turns) }
        ensures early { IfOk result (λ report. report.installed + report.stale < turns
            → FoundAtSomeMoment (IsLocked L.parts) (λ locked. AreMomentJobs locked.state.moment 64 [])) }
        ensures snapshot { IfOk result (λ report. FoundAtSomeMoment (IsLocked L.parts) (λ locked.
            MatchOption report.snapshot (moment_fault locked.state.moment ≡ Some Refusal.Dirty)
            (λ snapshot. IsSnapshotOfMoment (arc_value snapshot) locked))) }
        ensures refusal { IfErr result (λ e. e ≡ Refusal.NoMemory) }
    {
        self.hold_moment(rt, alloc)?;
        let (mut installed, mut stale) = (0, 0);
        let mut jobs = Vec::new(alloc);
        for _ in 0..turns {
            let Some(job) = self.next_moment_job(rt, alloc, &mut jobs)? else {
                break;
            };
            if self.hash_moment(rt, gate, job) {
                installed += 1;
            } else {
                stale += 1;
            }
        }
        let snapshot = self.whole_moment(rt, alloc)?;
        Ok(MomentReport {
            installed,
            stale,
            snapshot,
        })
    }

    /// Keeps the current rows as the moment of the range, as [`LockedRange::hold_moment`] does. The previous moment is
    /// freed with no lock held. Refused: NoMemory. On error the range is unchanged.
    ///
    /// [`LockedRange::hold_moment`]: caller_pass::LockedRange::hold_moment
    pub fn hold_moment<R: Wait>(&self, rt: &R, alloc: Global) -> Result<(), Refusal>
        ensures refusal { IfErr result (λ e. e ≡ Refusal.NoMemory) }
        ensures moment { ChangedAtSomeMoment (IsLocked L.parts) (λ before after.
            Does result before after (gives tt (moved before (with_moment before.state)))) }
    {
        let _before = {
            let mut range = self.range.lock(rt);
            // Called only for its clause `valid`: the range's invariants hold.
            let _valid = range.store();
            range.hold_moment(alloc)?
        };
        Ok(())
    }

    /// Releases the moment, if any, and frees it with no lock held. Doesn't allocate.
    pub fn drop_moment<R: Wait>(&self, rt: &R)
        ensures { ChangedAtSomeMoment (IsLocked L.parts) (λ before after.
            after ≡ moved before (without_moment before.state)) }
    {
        let _moment = {
            let mut range = self.range.lock(rt);
            // Called only for its clause `valid`: the range's invariants hold.
            let _valid = range.store();
            range.take_moment()
        };
    }

    /// Makes a snapshot of the moment, as [`LockedRange::moment`] does.
    ///
    /// Refused, in order: Dirty (the range has no moment, or some node of it has no digest), NoMemory.
    ///
    /// [`LockedRange::moment`]: caller_pass::LockedRange::moment
    pub fn moment<R: Wait>(&self, rt: &R, alloc: Global) -> Result<Arc<Snapshot, Global>, Refusal>
        ensures refusal { IfErr result (λ e. (e ≡ Refusal.Dirty) ⊎ (e ≡ Refusal.NoMemory)) }
        ensures moment { FoundAtSomeMoment (IsLocked L.parts) (λ locked.
            Answers result (moment_fault locked.state.moment)
            (λ snapshot. IsSnapshotOfMoment (arc_value snapshot) locked)) }
    {
        let range = self.range.lock(rt);
        // Called only for its clause `valid`: the range's invariants hold.
        let _valid = range.store();
        range.moment(alloc)
    }

    /// Returns the last job of a list. If the list is empty, takes jobs of the moment first, and returns `None` if the
    /// moment has no job. Refused: NoMemory.
    fn next_moment_job<R: Wait>(
        &self,
        rt: &R,
        alloc: Global,
        jobs: &mut Vec<Job>,
    ) -> Result<Option<Job>, Refusal>
        ensures refusal { IfErr result (λ e. e ≡ Refusal.NoMemory) }
        ensures none { IfOk result (λ job. job ≡ None
            → FoundAtSomeMoment (IsLocked L.parts) (λ locked. AreMomentJobs locked.state.moment 64 [])) }
    {
        if let Some(job) = jobs.pop() {
            return Ok(Some(job));
        }
        *jobs = self.take_moment_jobs(rt, alloc)?;
        Ok(jobs.pop())
    }

    /// Returns jobs of the moment, up to the maximum for one lock.
    fn take_moment_jobs<R: Wait>(&self, rt: &R, alloc: Global) -> Result<Vec<Job>, Refusal>
        ensures refusal { IfErr result (λ e. e ≡ Refusal.NoMemory) }
        ensures moment { FoundAtSomeMoment (IsLocked L.parts)
            (λ locked. IfOk result (λ jobs. AreMomentJobs locked.state.moment 64 jobs.items)) }
    {
        let range = self.range.lock(rt);
        // Called only for its clause `valid`: the range's invariants hold.
        let _valid = range.store();
        range.take_moment_jobs(alloc, JOBS_MAX)
    }

    /// Hashes the text of a job, and installs its digest in the moment. Returns false if it was too late.
    fn hash_moment<R: Wait, G: Gate>(&self, rt: &R, gate: &G, job: Job) -> bool {
        gate.pass(rt, Step::Taken);
        let node = job.node();
        let hashed = run_job_passing(job, || gate.pass(rt, Step::Written));
        gate.pass(rt, Step::Hashed);
        let installed = self.range.lock(rt).install_moment(node, &hashed);
        installed.is_ok()
    }

    /// Makes a snapshot of the moment, or returns `None` if some node has no digest. Refused: NoMemory.
    fn whole_moment<R: Wait>(
        &self,
        rt: &R,
        alloc: Global,
    ) -> Result<Option<Arc<Snapshot, Global>>, Refusal>
        ensures snapshot { IfOk result (λ made. FoundAtSomeMoment (IsLocked L.parts) (λ locked.
            MatchOption made (moment_fault locked.state.moment ≡ Some Refusal.Dirty)
            (λ snapshot. IsSnapshotOfMoment (arc_value snapshot) locked))) }
        ensures refusal { IfErr result (λ e. e ≡ Refusal.NoMemory) }
    {
        match self.moment(rt, alloc) {
            Ok(snapshot) => Ok(Some(snapshot)),
            Err(Refusal::Dirty) => Ok(None),
            Err(_) => Err(Refusal::NoMemory),
        }
    }
}
