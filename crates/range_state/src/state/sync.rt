//! Whole sessions with an honest partner.
ghost use Rattle.std.specs.Prelude.{◌≡◌, ◌≢◌, ◌⊎◌, ◌+◌, ◌≤◌, ⊤, None, length, slice_get, MatchOption, IfOk, IfErr, OnOk, OnErr, Err};
ghost use Rattle.vclock.specs.Answer.{Answers, AnswersOrNoMemory, first_fault};
ghost use Rattle.tree_nodes.specs.Nodes.{tree_depth};
ghost use Rattle.sync_session.specs.TreeNodes.{text_of};
ghost use Rattle.range_store.specs.Store.{dirty_fault};
ghost use Rattle.range_state.specs.Sessions.{standings, crowd_fault, unknown_at, TakesAt};
ghost use Rattle.range_state.specs.Syncs.{IsOfRange, HasAskedAll, IsSyncedTo, IsPartWay};

use crate::event::AnswerTaken;
use crate::state::RangeState;
use snapshot::Snapshot;
use std::alloc::Global;
use tree_nodes::NodeAt;
use vclock::Refusal;
use walk_messages::Ask;

/// The report of a session with an honest partner.
#[derive(Debug, Drop)]
pub struct Synced {
    /// The number of new versions: each has an entry at the end of the journal.
    pub accepted: u64,
    /// The number of versions in the taken leaves that were covered by versions accepted before.
    pub known: u64,
    /// The number of nodes that were asked: the nodes at which the two trees differ.
    pub asked: u64,
    /// The refusal of a leaf, if any: Crowded or JournalFull.
    pub fault: Option<Refusal>,
}

impl RangeState {
    /// Opens a session with a partner's snapshot and answers each outstanding node from it, in order, until no node is
    /// outstanding or a leaf is refused; in the second case the session stays open.
    ///
    /// Refused, in order, before anything changes: SessionsFull (64 sessions are open, or there are 1,024 records),
    /// Dirty (some node of the local tree has no digest), NoMemory. NoMemory is possible later, too: then the session
    /// stays, and so do the versions of the taken leaves, which are the first leaves at which the two trees differ.
    pub fn sync_with(
        &mut self,
        alloc: Global,
        seat: u16,
        partner: u16,
        other: &Snapshot,
    ) -> Result<Synced, Refusal>
        requires { IsOfRange self.old.store.config other.now }
        ensures answers { Answers result
            (first_fault (crowd_fault (standings self.old.records)) (dirty_fault self.old.store)) (λ _. ⊤) }
        ensures ok { IfOk result (λ a. IsSyncedTo self.old seat other.now self.new a) }
        ensures session { OnOk result (HasAskedAll self.old partner other.now self.new.records) }
        ensures err { IfErr result (λ e. e ≢ Refusal.NoMemory → self.new ≡ self.old) }
        ensures late { OnErr result ((self.new ≡ self.old) ⊎ IsPartWay self.old seat partner other.now self.new) }
    {
        // Called only for its clause: the rows have a tree.
        let _format = other.format();
        let before = self.store.journal().len();
        let place = self.records.len();
        self.open_with(alloc, partner, other.root())?;
        let mut known = 0;
        while let Some(node) = self.outstanding_at(place)? {
            match self.answer_from(alloc, seat, place, node, other) {
                Ok(taken) => known = sum(known, taken.known)?,
                Err(Refusal::NoMemory) => return Err(Refusal::NoMemory),
                Err(fault) => return Ok(self.synced(before, place, known, Some(fault))),
            }
        }
        Ok(self.synced(before, place, known, None))
    }

    /// Answers a node of the session at a place from a snapshot.
    fn answer_from(
        &mut self,
        alloc: Global,
        seat: u16,
        place: usize,
        node: NodeAt,
        other: &Snapshot,
    ) -> Result<AnswerTaken, Refusal>
        requires { node.depth ≤ tree_depth other.now.format }
        ensures { ((result ≡ Err Refusal.NoMemory) × (self.new ≡ self.old))
            ⊎ TakesAt self.old seat place
            (record { node = node; text = text_of other.now node }) result self.new }
    {
        let text = other.hashed_answer(alloc, Ask { offer: 0, node })?;
        self.take_answer_at(alloc, seat, place, node, text)
    }

    /// Makes the report of the session at a place.
    fn synced(&self, before: u64, place: usize, known: u64, fault: Option<Refusal>) -> Synced
        requires before { before ≤ length self.now.store.entries }
        requires there { unknown_at self.now place ≡ None }
        ensures accepted { before + result.accepted ≡ length self.now.store.entries }
        ensures known { result.known ≡ known }
        ensures asked { MatchOption (slice_get self.now.records place) ⊥ (λ r. result.asked ≡ length r.session.asked) }
        ensures fault { result.fault ≡ fault }
    {
        let session = &self.record_at(place).unwrap().session;
        Synced {
            accepted: self.store.journal().len() - before,
            known,
            asked: session.asked().len() as u64,
            fault,
        }
    }
}

/// Adds two counts. Refused: NoMemory (the sum is over 2^64 - 1: no memory holds that number of versions).
pub(super) fn sum(count: u64, more: u64) -> Result<u64, Refusal>
    ensures { AnswersOrNoMemory result None (λ sum. sum ≡ count + more) }
{
    count.checked_add(more).ok_or(Refusal::NoMemory)
}
