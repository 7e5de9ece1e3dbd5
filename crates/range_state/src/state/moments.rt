//! The moment of a range: its rows at one time, which are hashed and offered while the range changes.
ghost use Rattle.std.specs.Prelude.{◌≡◌, ⊤, None, Some};
ghost use Rattle.std.specs.Arc.{arc_value};
ghost use Rattle.vclock.specs.Answer.{Answers, AnswersAtOnce};
ghost use Rattle.vclock.specs.Outcome.{Does, DoesAtOnce, gives};
ghost use Rattle.range_tree.specs.Jobs.{dirty_fault};
ghost use Rattle.range_state.specs.State.{rows_at};
ghost use Rattle.range_state.specs.Moments.{with_moment, without_moment, AreMomentJobs, with_digest, install_moment, moment_fault, front_of, open_at_moment, shown_fault, shown_rows, opening};

use crate::local_rows::LocalRows;
use crate::moment::Moment;
use crate::record::Record;
use crate::state::RangeState;
use crate::state::sessions::check_crowd;
use crate::state::sync::sum;
use range_tree::Tree;
use rehash::Job;
use snapshot::Snapshot;
use std::alloc::Global;
use std::sync::Arc;
use sync_session::Session;
use tree_nodes::{Hashed, NodeAt};
use vclock::Refusal;
use walk_messages::Offer;

impl RangeState {
    /// Keeps the rows now, and the digests of their tree, as the moment of the range, and returns the previous one, if
    /// any. Shares the leaves, and copies no row: while the moment is kept, the first change of a chunk of rows copies
    /// it.
    ///
    /// Refused: NoMemory. On error the state is unchanged.
    pub fn hold_moment(&mut self, alloc: Global) -> Result<Option<Moment>, Refusal>
        ensures { Does result self.old self.new (gives self.old.moment (with_moment self.old)) }
    {
        let tree = self.store.tree().share(alloc)?;
        let front = self.store.journal().len();
        let before = self.take_moment();
        self.moment = Some(Moment { tree, front });
        Ok(before)
    }

    /// Takes the moment out of the range, and returns it, if any; `whole_front` is unchanged. Dropping it frees its
    /// rows, so a caller with a lock releases the lock first. Doesn't allocate.
    pub fn take_moment(&mut self) -> Option<Moment>
        ensures moment { result ≡ self.old.moment }
        ensures state { self.new ≡ without_moment self.old }
    {
        self.whole_before = self.whole_front();
        self.moment.take()
    }

    /// Returns jobs of different nodes of the moment: of all its dirty nodes whose children are clean, but at most of
    /// the first `most`. Returns no job without a moment. Refused: NoMemory.
    pub fn take_moment_jobs(&self, alloc: Global, most: usize) -> Result<Vec<Job>, Refusal>
        ensures { Answers result None (λ jobs. AreMomentJobs self.now.moment most jobs.items) }
    {
        match &self.moment {
            Some(moment) => moment.tree.take_jobs(alloc, most),
            None => Ok(Vec::new(alloc)),
        }
    }

    /// Installs the digest of a text at a node of the moment, and at that node of the range's tree, if its children are
    /// clean and this is its text now.
    ///
    /// Refused: Stale (the moment is missing, its tree has no such node, one of its children is dirty, or the node has
    /// another text). On error the state is unchanged. Doesn't allocate: the text is compared with the rows in place.
    pub fn install_moment(&mut self, node: NodeAt, hashed: &Hashed) -> Result<(), Refusal>
        ensures { DoesAtOnce result self.old self.new (install_moment self.old node hashed.now) }
    {
        let Some(mut moment) = self.moment.take() else {
            return Err(Refusal::Stale);
        };
        let done = moment.tree.install(node, hashed);
        self.moment = Some(moment);
        if done.is_ok() {
            self.install_if_current(node, hashed);
        }
        done
    }

    /// Installs the digest of a text at a node, if its children are clean and this is its text now.
    fn install_if_current(&mut self, node: NodeAt, hashed: &Hashed)
        ensures { self.new ≡ record self.old { store = with_digest self.old.store node hashed.now } }
    {
        let _changed = self.install(node, hashed);
    }

    /// Makes a snapshot of the moment, to offer to another replica. Copies no row. Refused, in order: Dirty (the moment
    /// is missing, or one of its nodes has no digest), NoMemory.
    pub fn moment(&self, alloc: Global) -> Result<Arc<Snapshot, Global>, Refusal>
        ensures { Answers result (moment_fault self.now.moment)
            (λ snapshot. arc_value snapshot ≡ rows_at self.now.store (front_of self.now.moment)) }
    {
        match &self.moment {
            Some(moment) => moment.tree.snapshot(alloc),
            None => Err(Refusal::Dirty),
        }
    }

    /// Returns the moment, if each node of its tree has a digest. Doesn't allocate. Refused: Dirty.
    pub(super) fn whole_moment(&self) -> Result<&Moment, Refusal>
        ensures { AnswersAtOnce result (moment_fault self.now.moment) (λ moment. self.now.moment ≡ Some moment.now) }
    {
        let Some(moment) = &self.moment else {
            return Err(Refusal::Dirty);
        };
        check_whole(&moment.tree)?;
        Ok(moment)
    }

    /// Makes a snapshot of the rows now, like `snapshot`, or of the moment, like `moment`.
    pub fn snapshot_of(
        &self,
        alloc: Global,
        rows: LocalRows,
    ) -> Result<Arc<Snapshot, Global>, Refusal>
        ensures { Answers result (shown_fault rows self.now) (λ snapshot. arc_value snapshot ≡ shown_rows rows self.now) }
    {
        match rows {
            LocalRows::Now => self.snapshot(alloc),
            LocalRows::Moment => self.moment(alloc),
        }
    }

    /// Opens a session that compares the rows now, like `open_session`, or the moment's rows, like
    /// `open_session_at_moment`.
    pub fn open_session_by(
        &mut self,
        alloc: Global,
        rows: LocalRows,
        partner: u16,
        offer: Offer,
    ) -> Result<u64, Refusal>
        ensures { Does result self.old self.new (opening rows self.old partner offer) }
    {
        match rows {
            LocalRows::Now => self.open_session(alloc, partner, offer),
            LocalRows::Moment => self.open_session_at_moment(alloc, partner, offer),
        }
    }

    /// Opens a session with a partner's offer: the rows of the moment are compared with the rows under the offered
    /// root, so it may ask for leaves that differ only because the range has changed since. Returns the number of the
    /// session: one more than the last, from 0.
    ///
    /// Refused, in order: OtherFormat, OtherRange, SessionsFull (64 sessions are open, or there are 1,024 records),
    /// Dirty (the moment is missing, or one of its nodes has no digest), NoMemory (also if the number would be
    /// 2^64 - 1). On error the state is unchanged.
    pub fn open_session_at_moment(
        &mut self,
        alloc: Global,
        partner: u16,
        offer: Offer,
    ) -> Result<u64, Refusal>
        ensures { Does result self.old self.new (open_at_moment self.old partner offer) }
    {
        self.check_offer(&offer)?;
        check_crowd(&self.records)?;
        let own = self.moment(alloc)?;
        let session = Session::start(alloc, own, offer.root)?;
        let number = self.next_session;
        let next = sum(number, 1)?;
        self.records.push(Record {
            number,
            partner,
            session,
        })?;
        self.next_session = next;
        Ok(number)
    }
}

/// Tests that each node of a tree has a digest. Doesn't allocate. Refused: Dirty.
pub(super) fn check_whole(tree: &Tree) -> Result<(), Refusal>
    ensures { AnswersAtOnce result (dirty_fault tree.now) (λ _. ⊤) }
{
    if tree.dirty_count() > 0 {
        return Err(Refusal::Dirty);
    }
    Ok(())
}
