//! Reconciliation of two replicas of a range.
ghost use Rattle.std.specs.Prelude.{◌≡◌, ⊤, [], None, MatchResult, IfOk, OnOk};
ghost use Rattle.vclock.specs.Answer.{AnswersAtOnce};
ghost use Rattle.range_store.specs.Store.{rows_now, dirty_fault};
ghost use Rattle.range_state.specs.Sessions.{standings, crowd_fault};
ghost use Rattle.range_state.specs.Syncs.{IsOfRange};
ghost use Rattle.sync_session.specs.Walks.{NoTwoShareADigest};
ghost use Rattle.range_state.specs.Reconciles.{pair_fault, HasCaughtUp, HasStopped, Reconciles, HaveAskedAlike, HoldBoth, HaveEqualRoots};
ghost use Rattle.vclock.specs.Answer.{first_fault};

use crate::state::RangeState;
use crate::state::moments::check_whole;
use crate::state::sessions::check_crowd;
use crate::state::sync::Synced;
use snapshot::Snapshot;
use std::alloc::Global;
use vclock::Refusal;

/// The report of a reconciliation: for each replica, the number of nodes that it asked and of versions that it
/// journaled.
///
/// ```
/// reconcile(alloc, a, 1, b, 2, 5)
/// ```
#[derive(Debug, Drop)]
pub struct Reconciled {
    /// The number of nodes that the first asked: the nodes at which the two trees differed.
    pub asked_a: u64,
    /// The number of versions that the first received: each has an entry at the end of its journal.
    pub accepted_a: u64,
    /// The number of nodes that the second asked.
    pub asked_b: u64,
    /// The number of versions that the second received.
    pub accepted_b: u64,
}

/// Makes two replicas of a range hold equal versions: each runs a whole session on the rows that the other had before
/// the call, first `a`, then `b`. `at_a` and `at_b` are the nodes that the replicas are at.
///
/// Refused, in order, before anything changes: Dirty (some node of the tree of `a`, then of `b`, has no digest),
/// SessionsFull (of `a`, then of `b`, 64 sessions are open, or there are 1,024 records). Refused during the sessions:
/// Crowded, JournalFull, NoMemory. The refused session is cancelled, and the versions that it accepted stay. If it is
/// the session of `a`, then `b` is unchanged.
///
/// Otherwise each asked the nodes at which their trees differed, and no others. If no two different texts of the nodes
/// of the two trees share a digest, both hold, for each key, the maximal versions of all that they held before; and
/// once both are clean, the digests of their roots are equal.
pub fn reconcile(
    alloc: Global,
    a: &mut RangeState,
    at_a: u16,
    b: &mut RangeState,
    at_b: u16,
    seat: u16,
) -> Result<Reconciled, Refusal>
    requires { IsOfRange a.old.store.config (rows_now b.old.store) }
    ensures sessions { Reconciles a.old at_a b.old at_b seat result a.new b.new }
    ensures asked { IfOk result (λ report. HaveAskedAlike a.old b.old a.new b.new report.asked_a report.asked_b) }
    ensures union { OnOk result (NoTwoShareADigest (rows_now a.old.store) (rows_now b.old.store) []
        → HoldBoth a.old b.old a.new b.new) }
    ensures roots { OnOk result (NoTwoShareADigest (rows_now a.old.store) (rows_now b.old.store) []
        → HaveEqualRoots a.new b.new) }
{
    // Called only for their clauses: both states are valid.
    let _right = a.journal();
    let _other = b.journal();
    run_both(alloc, a, at_a, b, at_b, seat)
}

/// Reconciles two replicas. Its contract covers only the two sessions.
fn run_both(
    alloc: Global,
    a: &mut RangeState,
    at_a: u16,
    b: &mut RangeState,
    at_b: u16,
    seat: u16,
) -> Result<Reconciled, Refusal>
    requires { IsOfRange a.old.store.config (rows_now b.old.store) }
    ensures { Reconciles a.old at_a b.old at_b seat result a.new b.new }
{
    check_pair(a, b)?;
    let of_a = a.snapshot(alloc)?;
    let of_b = b.snapshot(alloc)?;
    let first = a.catch_up(alloc, seat, at_b, &of_b)?;
    let second = b.catch_up(alloc, seat, at_a, &of_a)?;
    Ok(Reconciled {
        asked_a: first.asked,
        accepted_a: first.accepted,
        asked_b: second.asked,
        accepted_b: second.accepted,
    })
}

/// Tests that both replicas can begin.
fn check_pair(a: &RangeState, b: &RangeState) -> Result<(), Refusal>
    ensures { AnswersAtOnce result (pair_fault a.now b.now) (λ _. ⊤) }
{
    a.check_clean()?;
    b.check_clean()?;
    check_crowd(a.records())?;
    check_crowd(b.records())
}

impl RangeState {
    /// Runs a whole session on a partner's snapshot. A session that is refused midway is cancelled.
    fn catch_up(
        &mut self,
        alloc: Global,
        seat: u16,
        partner: u16,
        other: &Snapshot,
    ) -> Result<Synced, Refusal>
        requires range { IsOfRange self.old.store.config other.now }
        requires free { first_fault (crowd_fault (standings self.old.records)) (dirty_fault self.old.store) ≡ None }
        ensures { MatchResult result
            (λ report. HasCaughtUp self.old seat partner other.now report.asked report.accepted self.new)
            (λ e. HasStopped self.old seat partner other.now e self.new) }
    {
        let place = self.records.len();
        match self.sync_with(alloc, seat, partner, other) {
            Ok(synced) => match synced.fault {
                None => Ok(synced),
                Some(refusal) => {
                    let _cancelled = self.cancel_at(place);
                    Err(refusal)
                }
            },
            Err(refusal) => {
                // If the session wasn't opened, there is nothing to cancel.
                let _cancelled = self.cancel_at(place);
                Err(refusal)
            }
        }
    }

    /// Tests that each node of the tree has a digest.
    fn check_clean(&self) -> Result<(), Refusal>
        ensures { AnswersAtOnce result (dirty_fault self.now.store) (λ _. ⊤) }
    {
        check_whole(self.store.tree())
    }
}
