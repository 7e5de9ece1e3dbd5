//! Workers that hash a range's tree while puts continue.
ghost use Rattle.std.specs.Prelude.{◌≡◌, ◌+◌, ◌<◌, IfOk, IfErr, IsTrue};
ghost use Rattle.tree_nodes.specs.Nodes.{are_clean};
ghost use Rattle.range_tree.specs.Jobs.{GivesJob};
ghost use Rattle.range_store.specs.Store.{tree_in};
ghost use Rattle.caller_pass.specs.Locks.{IsLocked};
ghost use Rattle.ring_node.specs.Moments.{FoundAtSomeMoment};
ghost use Rattle.ring_node.specs.Reports.{IsRehashReport};

use crate::gate::{Gate, Step};
use crate::range::SharedRange;
use admission::Slot;
use rehash::{Job, run_job_passing};
use std::alloc::Global;
use std::sync::Wait;
use std::sync::ledger::Ledger;
use vclock::Refusal;

/// The report of a rehash worker.
#[derive(Clone, Copy, Debug, PartialEq, Eq)]
pub struct RehashReport {
    /// The number of digests that it installed.
    pub installed: u64,
    /// The number of digests that were too late: by then the node had another text, or a child of it was dirty.
    pub stale: u64,
    /// True if it ended because no node was dirty.
    pub clean: bool,
}

impl<L: Ledger> SharedRange<L> {
    /// Hashes dirty nodes, one in each turn, until a turn finds no dirty node, or until the turns are used. `skip` is
    /// as in `RangeState::take_job`, so that workers take different nodes.
    ///
    /// A node's text is written and hashed with no lock held, so puts continue meanwhile. A digest that is too late is
    /// counted, and its node is hashed again in a later turn. The worker passes the gate after it took a job
    /// ([`Step::Taken`]), wrote its text ([`Step::Written`]) and hashed it ([`Step::Hashed`]), with no lock held.
    ///
    /// Refused: NoMemory. On error the digests installed before stay.
    pub fn rehash_worker<R: Wait, C: Ledger, G: Gate>(
        &self,
        rt: &R,
        alloc: Global,
        _slot: &Slot<C>,
        gate: &G,
        skip: u64,
        turns: u64,
    ) -> Result<RehashReport, Refusal>
        ensures turns { IfOk result (IsRehashReport turns) }
        ensures clean { IfOk result (λ report. IsTrue report.clean
            → FoundAtSomeMoment (IsLocked L.parts) (λ locked. IsTrue (are_clean locked.state.store.marks))) }
        ensures refusal { IfErr result (λ e. e ≡ Refusal.NoMemory) }
    {
        let mut report = RehashReport {
            installed: 0,
            stale: 0,
            clean: false,
        };
        for _ in 0..turns {
            let Some(job) = self.take_job(rt, alloc, skip)? else {
                report.clean = true;
                break;
            };
            if self.hash(rt, gate, job) {
                report.installed += 1;
            } else {
                report.stale += 1;
            }
        }
        Ok(report)
    }

    /// Returns a job for a dirty node with clean children, or `None` if no node is dirty.
    fn take_job<R: Wait>(&self, rt: &R, alloc: Global, skip: u64) -> Result<Option<Job>, Refusal>
        ensures refusal { IfErr result (λ e. e ≡ Refusal.NoMemory) }
        ensures moment { FoundAtSomeMoment (IsLocked L.parts)
            (λ locked. IfOk result (GivesJob (tree_in locked.state.store))) }
    {
        let range = self.range.lock(rt);
        // Called only for its clause `valid`: the range's invariants hold.
        let _valid = range.store();
        range.take_job(alloc, skip)
    }

    /// Hashes the text of a job, and installs its digest. Returns false if it was too late.
    fn hash<R: Wait, G: Gate>(&self, rt: &R, gate: &G, job: Job) -> bool {
        gate.pass(rt, Step::Taken);
        let node = job.node();
        let hashed = run_job_passing(job, || gate.pass(rt, Step::Written));
        gate.pass(rt, Step::Hashed);
        let installed = self.range.lock(rt).install(node, &hashed);
        installed.is_ok()
    }
}
