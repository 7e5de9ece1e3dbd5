//! Sessions of a range with its partners.
ghost use Rattle.std.specs.Prelude.{◌≡◌, ◌<◌, ⊤, Some, slice_get, MatchOption};
ghost use Rattle.version_set.specs.Order.{Pairwise};
ghost use Rattle.vclock.specs.Answer.{AnswersAtOnce};
ghost use Rattle.vclock.specs.Outcome.{Does, DoesAtOnce};
ghost use Rattle.range_state.specs.State.{IsRight};
ghost use Rattle.range_state.specs.Records.{is_open, open_count, place_of, record_of};
ghost use Rattle.range_state.specs.Sessions.{foreign_fault, standings, crowd_fault, unknown_at, unknown_fault, open_with, open_session, cancel_at, cancel_session};
ghost use Rattle.range_state.specs.Syncs.{IsFirstOf};

use crate::record::Record;
use crate::state::RangeState;
use crate::state::sync::sum;
use std::alloc::Global;
use sync_session::{Session, SessionState};
use tree_nodes::{Digest, NodeAt};
use vclock::Refusal;
use vclock::limits::{OPEN_SESSIONS_MAX, SESSIONS_MAX};
use walk_messages::Offer;

impl RangeState {
    /// Returns the records of the sessions, in the order of their numbers. Doesn't allocate.
    pub fn records(&self) -> &[Record]
        ensures all { result.now ≡ self.now.records }
        ensures valid { IsRight self.now }
    {
        &self.records
    }

    /// Returns the number of open sessions. Doesn't allocate.
    pub fn open_sessions(&self) -> usize
        ensures { result ≡ open_count self.now.records }
    {
        open_count(&self.records)
    }

    /// Opens a session with a partner's offer: the rows now are compared with the rows under the offered root. Returns
    /// the number of the session: one more than the last, from 0.
    ///
    /// Refused, in order: OtherFormat, OtherRange, SessionsFull (64 sessions are open, or there are 1,024 records),
    /// Dirty (some node of the local tree has no digest), NoMemory (also if the number would be 2^64 - 1). On error the
    /// state is unchanged.
    pub fn open_session(
        &mut self,
        alloc: Global,
        partner: u16,
        offer: Offer,
    ) -> Result<u64, Refusal>
        ensures { Does result self.old self.new (open_session self.old partner offer) }
    {
        self.check_offer(&offer)?;
        self.open_with(alloc, partner, offer.root)
    }

    /// Opens a session that compares the rows now with the rows under a partner's root. Returns the number of the
    /// session. Refused, in order: SessionsFull, Dirty, NoMemory.
    pub(super) fn open_with(
        &mut self,
        alloc: Global,
        partner: u16,
        root: Digest,
    ) -> Result<u64, Refusal>
        ensures { Does result self.old self.new (open_with self.old partner root) }
    {
        check_crowd(&self.records)?;
        let own = self.store.kept_snapshot(alloc)?;
        let session = Session::start(alloc, own, root)?;
        let number = self.next_session;
        let next = sum(number, 1)?;
        self.records.push(Record {
            number,
            partner,
            session,
        })?;
        self.next_session = next;
        Ok(number)
    }

    /// Cancels an open session; an ended one is unchanged. Doesn't allocate. Refused: UnknownSession (no record has
    /// that number).
    pub fn cancel_session(&mut self, id: u64) -> Result<(), Refusal>
        ensures { DoesAtOnce result self.old self.new (cancel_session self.old id) }
    {
        let place = self.place(id);
        self.cancel_at(place)
    }

    /// Cancels the session at a place among the records. Refused: UnknownSession (no record is at that place).
    pub(super) fn cancel_at(&mut self, place: usize) -> Result<(), Refusal>
        ensures { DoesAtOnce result self.old self.new (cancel_at self.old place) }
    {
        if place >= self.records.len() {
            return Err(Refusal::UnknownSession);
        }
        self.records[place].session.cancel();
        Ok(())
    }

    /// Returns the first outstanding node of a session, if any. Doesn't allocate. Refused: UnknownSession (no record
    /// has that number).
    pub fn outstanding(&self, id: u64) -> Result<Option<NodeAt>, Refusal>
        ensures first { AnswersAtOnce result (unknown_fault self.now id)
            (λ first. MatchOption (record_of id self.now.records) ⊥
            (λ r. IsFirstOf r.session.outstanding first)) }
        ensures valid { IsRight self.now }
    {
        self.outstanding_at(self.place(id))
    }

    /// Returns the first outstanding node of the session at a place, if any.
    pub(super) fn outstanding_at(&self, place: usize) -> Result<Option<NodeAt>, Refusal>
        ensures first { AnswersAtOnce result (unknown_at self.now place)
            (λ first. MatchOption (slice_get self.now.records place) ⊥
            (λ r. IsFirstOf r.session.outstanding first)) }
        ensures valid { IsRight self.now }
    {
        let nodes = self.record_at(place)?.session.outstanding();
        Ok(nodes.first().copied())
    }

    /// Returns the record of a session. Doesn't allocate. Refused: UnknownSession (no record has that number).
    pub fn record(&self, id: u64) -> Result<&Record, Refusal>
        ensures found { AnswersAtOnce result (unknown_fault self.now id)
            (λ r. record_of id self.now.records ≡ Some r.now) }
        ensures valid { IsRight self.now }
    {
        self.record_at(self.place(id))
    }

    /// Returns the record at a place. Refused: UnknownSession (no record is at that place).
    pub(super) fn record_at(&self, place: usize) -> Result<&Record, Refusal>
        ensures found { AnswersAtOnce result (unknown_at self.now place)
            (λ r. slice_get self.now.records place ≡ Some r.now) }
        ensures valid { IsRight self.now }
    {
        self.records.get(place).ok_or(Refusal::UnknownSession)
    }

    /// Returns the place of a session's record, or the number of records if the session has no record.
    pub(super) fn place(&self, id: u64) -> usize
        ensures { result ≡ place_of id self.now.records }
    {
        place_in(&self.records, id)
    }

    /// Tests that a partner's offer is for this range, in its format. Doesn't allocate. Refused, in order: OtherFormat,
    /// OtherRange.
    pub fn check_offer(&self, offer: &Offer) -> Result<(), Refusal>
        ensures { AnswersAtOnce result (foreign_fault self.now.store.config offer.now) (λ _. ⊤) }
    {
        if offer.format != self.store.config().format().number() {
            return Err(Refusal::OtherFormat);
        }
        if u16::from(offer.range) != self.store.config().range() {
            return Err(Refusal::OtherRange);
        }
        Ok(())
    }
}

/// Tests that another session can be opened.
pub(super) fn check_crowd(records: &[Record]) -> Result<(), Refusal>
    ensures { AnswersAtOnce result (crowd_fault (standings records.now)) (λ _. ⊤) }
{
    if open_count(records) >= OPEN_SESSIONS_MAX || records.len() >= SESSIONS_MAX {
        return Err(Refusal::SessionsFull);
    }
    Ok(())
}

/// Returns the place of the record with a number, or the number of records if no record has it. Their numbers ascend.
fn place_in(records: &[Record], id: u64) -> usize
    requires { Pairwise (λ r s. r.number < s.number) records.now }
    ensures { result ≡ place_of id records.now }
{
    records
        .binary_search_by_key(&id, |record| record.number)
        .unwrap_or(records.len())
}

/// Counts the open sessions.
fn open_count(records: &[Record]) -> usize
    ensures { result ≡ open_count records.now }
{
    let mut count = 0;
    for record in records {
        if is_open(record) {
            count += 1;
        }
    }
    count
}

/// Returns true if a session can still take texts.
#[tactic(auto, unfolding(crate::specs::Records::is_open))]
pub(super) fn is_open(kept: &Record) -> bool
    ensures { result ≡ is_open kept.now }
{
    match kept.session.state() {
        SessionState::Open => true,
        SessionState::Finished | SessionState::Failed | SessionState::Cancelled => false,
    }
}
