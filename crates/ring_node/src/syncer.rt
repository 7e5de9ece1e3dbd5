//! Workers that fetch the versions that a partner has and a range doesn't.
ghost use Rattle.std.specs.Prelude.{◌≡◌, ◌⊎◌, ◌+◌, ◌<◌, ◌≤◌, None, IfOk, IfErr, IfSome, OnErr, MatchOption};
ghost use Rattle.vclock.specs.Answer.{AnswersAtOnce};
ghost use Rattle.vclock.specs.Outcome.{Does, through};
ghost use Rattle.range_journal.specs.declared.journal.Source.{Source};
ghost use Rattle.range_state.specs.Records.{record_of};
ghost use Rattle.range_state.specs.Sessions.{open_session, unknown_fault};
ghost use Rattle.range_state.specs.Moments.{open_at_moment, opening};
ghost use Rattle.range_state.specs.Syncs.{IsFirstOf};
ghost use Rattle.caller_pass.specs.Locks.{IsLocked, moved, TellsAnswer};
ghost use Rattle.ring_node.specs.Gains.{Gains, GainsSome};
ghost use Rattle.ring_node.specs.Links.{IsLostExactly};
ghost use Rattle.ring_node.specs.Moments.{FoundAtSomeMoment, ChangedAtSomeMoment};
ghost use Rattle.ring_node.specs.Walks.{IsOfferRefusal, IsOpenRefusal, IsAskRefusal, IsTakeRefusal, IsWalkRefusal, IsEndIn, IsOpening, IsOpeningBy, IsNextOrNone};
ghost use Rattle.range_state.specs.declared.local_rows.LocalRows.TheVariants as rows;

use crate::link::{Link, Reached};
use crate::range::SharedRange;
use admission::Slot;
use caller_pass::Pass;
use range_journal::Source;
use range_state::{AnswerCounted, LocalRows};
use std::alloc::Global;
use std::sync::Wait;
use std::sync::ledger::Ledger;
use sync_session::SessionState;
use tree_nodes::{NodeAt, hash};
use vclock::Refusal;
use walk_messages::{Answer, Ask, Message, Offer, decode, encode};

/// The report of a sync worker.
///
/// ```
/// let slot = slots.lend(rt)?;
/// let report = range.sync_worker(rt, alloc, &slot, link, pass, partner, SYNC_TURNS);
/// slots.give_back(rt, slot);
/// ```
#[derive(Clone, Copy, Debug, PartialEq, Eq)]
pub struct SyncReport {
    /// The number of the session in the range.
    pub id: u64,
    /// The state of the session at its end: Finished, Failed or Cancelled.
    pub state: SessionState,
    /// The number of nodes that the session asked for.
    pub asked: u64,
    /// The number of versions that were journaled, each with a receipt in the pass.
    pub accepted: u64,
    /// The number of versions that were known.
    pub known: u64,
    /// The number of messages that weren't the true answer to an ask of the session.
    pub bad: u64,
}

/// Running totals of a session.
#[derive(Clone, Copy, Debug, PartialEq, Eq)]
struct Walk {
    known: u64,
    bad: u64,
}

impl Walk {
    /// Returns the totals after the outcome of an answer: `None` if the answer made the session fail. Refused as the
    /// answer was, except that NotAsked and WrongDigest count as a bad message.
    fn after(self, answered: Result<AnswerCounted, Refusal>) -> Result<Option<Walk>, Refusal>
        requires turns { self.bad < u64.MAX }
        requires refusal { IfErr answered IsTakeRefusal }
        ensures bad { IfOk result (λ walk. IfSome walk (λ w. w.bad ≤ self.bad + 1)) }
        ensures refusal { IfErr result (λ e. IsWalkRefusal e × IsTakeRefusal e) }
    {
        let Walk { known, bad } = self;
        match answered {
            Ok(taken) => Ok(Some(Walk {
                known: known.saturating_add(taken.known),
                bad,
            })),
            Err(Refusal::NotAsked | Refusal::WrongDigest) => Ok(Some(Walk {
                known,
                bad: bad + 1,
            })),
            Err(Refusal::NotCanonical) => Ok(None),
            Err(refusal) => Err(refusal),
        }
    }
}

/// The end of a session.
#[derive(Clone, Copy, Debug, PartialEq, Eq)]
struct End {
    state: SessionState,
    asked: u64,
}

impl<L: Ledger> SharedRange<L> {
    /// Opens a session with the offer of a link's partner, and asks for the first outstanding node in each turn, until
    /// no node is outstanding or the turns are used. The pass gets the receipts of the new entries. A session that is
    /// open at the end is cancelled. The slot is the permission to sync.
    ///
    /// The partner isn't trusted. A message that isn't an answer, belongs to another offer, or is refused as NotAsked
    /// or WrongDigest counts as bad, and the node is asked for again. A text with the right digest that no node can
    /// have makes the session fail. The link is asked, and texts are hashed, with no lock held, so puts continue
    /// meanwhile.
    ///
    /// Refused, in order: LinkLost (the link failed), Gone (the partner doesn't have the offer), BadMessage (the
    /// message isn't an offer), OtherFormat, OtherRange, SessionsFull, Dirty (some node of the local tree has no
    /// digest), UnknownSession (no run meets it), Crowded, JournalFull, NoMemory. On error the versions accepted before
    /// stay, and the session is cancelled.
    pub fn sync_worker<R: Wait, C: Ledger, K: Link>(
        &self,
        rt: &R,
        alloc: Global,
        _slot: &Slot<C>,
        link: &mut K,
        pass: &mut Pass<L>,
        partner: u16,
        turns: u64,
    ) -> Result<SyncReport, Refusal>
        ensures gains { IfOk result (λ report. Gains pass.old pass.new Source.Partner report.accepted) }
        ensures turns { IfOk result (λ report. report.bad ≤ turns) }
        ensures opened { IfOk result (λ report. ChangedAtSomeMoment (IsLocked L.parts) (IsOpening report.id partner)) }
        ensures end { IfOk result (λ report. FoundAtSomeMoment (IsLocked L.parts)
            (λ locked. IsEndIn locked.state.records report.id report.state report.asked)) }
        ensures some { OnErr result (GainsSome pass.old pass.new Source.Partner) }
        ensures lost { IsLostExactly (K.failed link.old) (K.failed link.new) result }
        ensures refusal { IfErr result (λ e. ((IsOfferRefusal e ⊎ IsOpenRefusal e) × (pass.new ≡ pass.old))
            ⊎ IsWalkRefusal e) }
    {
        self.sync_by(rt, alloc, link, pass, partner, turns, LocalRows::Now)
    }

    /// Syncs like `sync_worker`, by a session that compares the rows of the moment that the range keeps. It doesn't
    /// wait until all nodes of the tree are clean, but may ask for a leaf that differs only because the range has
    /// changed since.
    ///
    /// Refused as `sync_worker` is; Dirty if the range has no moment, or some node of it has no digest.
    pub fn sync_worker_at_moment<R: Wait, C: Ledger, K: Link>(
        &self,
        rt: &R,
        alloc: Global,
        _slot: &Slot<C>,
        link: &mut K,
        pass: &mut Pass<L>,
        partner: u16,
        turns: u64,
    ) -> Result<SyncReport, Refusal>
        ensures gains { IfOk result (λ report. Gains pass.old pass.new Source.Partner report.accepted) }
        ensures turns { IfOk result (λ report. report.bad ≤ turns) }
        ensures opened { IfOk result (λ report. ChangedAtSomeMoment (IsLocked L.parts) (IsOpeningBy rows.Moment report.id partner)) }
        ensures end { IfOk result (λ report. FoundAtSomeMoment (IsLocked L.parts)
            (λ locked. IsEndIn locked.state.records report.id report.state report.asked)) }
        ensures some { OnErr result (GainsSome pass.old pass.new Source.Partner) }
        ensures lost { IsLostExactly (K.failed link.old) (K.failed link.new) result }
        ensures refusal { IfErr result (λ e. ((IsOfferRefusal e ⊎ IsOpenRefusal e) × (pass.new ≡ pass.old))
            ⊎ IsWalkRefusal e) }
    {
        self.sync_by(rt, alloc, link, pass, partner, turns, LocalRows::Moment)
    }

    /// Runs a session that compares these local rows with those under the offer of a link's partner.
    #[tactic(auto, using(crate::proofs::GainLaws::some_none, crate::proofs::GainLaws::some_same, crate::proofs::WalkLaws::gains_grow, crate::proofs::WalkLaws::gains_counted, crate::proofs::WalkLaws::open_keeps))]
    fn sync_by<R: Wait, K: Link>(
        &self,
        rt: &R,
        alloc: Global,
        link: &mut K,
        pass: &mut Pass<L>,
        partner: u16,
        turns: u64,
        local: LocalRows,
    ) -> Result<SyncReport, Refusal>
        ensures gains { IfOk result (λ report. Gains pass.old pass.new Source.Partner report.accepted) }
        ensures turns { IfOk result (λ report. report.bad ≤ turns) }
        ensures opened { IfOk result (λ report. ChangedAtSomeMoment (IsLocked L.parts) (IsOpeningBy local report.id partner)) }
        ensures end { IfOk result (λ report. FoundAtSomeMoment (IsLocked L.parts)
            (λ locked. IsEndIn locked.state.records report.id report.state report.asked)) }
        ensures some { OnErr result (GainsSome pass.old pass.new Source.Partner) }
        ensures lost { IsLostExactly (K.failed link.old) (K.failed link.new) result }
        ensures refusal { IfErr result (λ e. ((IsOfferRefusal e ⊎ IsOpenRefusal e) × (pass.new ≡ pass.old))
            ⊎ IsWalkRefusal e) }
    {
        let before = pass.receipts().len();
        let offer = reach_offer(rt, alloc, link)?;
        let id = self.open(rt, alloc, partner, offer, local)?;
        let walk = self.walk(rt, alloc, link, pass, id, offer.offer, turns);
        // After a refusal, too.
        let end = self.end_session(rt, id);
        let Walk { known, bad } = walk?;
        let End { state, asked } = end?;
        Ok(SyncReport {
            id,
            state,
            asked,
            accepted: (pass.receipts().len() - before) as u64,
            known,
            bad,
        })
    }

    /// Opens a session that compares these local rows.
    fn open<R: Wait>(
        &self,
        rt: &R,
        alloc: Global,
        partner: u16,
        offer: Offer,
        local: LocalRows,
    ) -> Result<u64, Refusal>
        ensures refusal { IfErr result IsOpenRefusal }
        ensures moment { ChangedAtSomeMoment (IsLocked L.parts) (λ before after.
            Does result before after (through (moved before) (opening local before.state partner offer))) }
    {
        match local {
            LocalRows::Now => self.open_session(rt, alloc, partner, offer),
            LocalRows::Moment => self.open_at_moment(rt, alloc, partner, offer),
        }
    }

    /// Opens a session, as [`LockedRange::open_session`] does.
    fn open_session<R: Wait>(
        &self,
        rt: &R,
        alloc: Global,
        partner: u16,
        offer: Offer,
    ) -> Result<u64, Refusal>
        ensures refusal { IfErr result IsOpenRefusal }
        ensures moment { ChangedAtSomeMoment (IsLocked L.parts) (λ before after.
            Does result before after (through (moved before) (open_session before.state partner offer))) }
    {
        let mut range = self.range.lock(rt);
        // Called only for its clause `valid`: the range's invariants hold.
        let _valid = range.store();
        range.open_session(alloc, partner, offer)
    }

    /// Opens a session at the moment, as [`LockedRange::open_session_at_moment`] does.
    fn open_at_moment<R: Wait>(
        &self,
        rt: &R,
        alloc: Global,
        partner: u16,
        offer: Offer,
    ) -> Result<u64, Refusal>
        ensures refusal { IfErr result IsOpenRefusal }
        ensures moment { ChangedAtSomeMoment (IsLocked L.parts) (λ before after.
            Does result before after (through (moved before) (open_at_moment before.state partner offer))) }
    {
        let mut range = self.range.lock(rt);
        // Called only for its clause `valid`: the range's invariants hold.
        let _valid = range.store();
        range.open_session_at_moment(alloc, partner, offer)
    }

    /// Runs the turns of a session with an offer of that number.
    #[tactic(auto, using(crate::proofs::GainLaws::some_none, crate::proofs::WalkLaws::take_keeps))]
    fn walk<R: Wait, K: Link>(
        &self,
        rt: &R,
        alloc: Global,
        link: &mut K,
        pass: &mut Pass<L>,
        id: u64,
        offer: u32,
        turns: u64,
    ) -> Result<Walk, Refusal>
        ensures some { GainsSome pass.old pass.new Source.Partner }
        ensures turns { IfOk result (λ walk. walk.bad ≤ turns) }
        ensures lost { IsLostExactly (K.failed link.old) (K.failed link.new) result }
        ensures refusal { IfErr result IsWalkRefusal }
    {
        let mut walk = Walk { known: 0, bad: 0 };
        let mut next = self.outstanding(rt, id)?;
        for _ in 0..turns {
            let Some(node) = next else {
                return Ok(walk);
            };
            let Some(answer) = reach_answer(rt, alloc, link, Ask { offer, node })? else {
                walk.bad += 1;
                next = self.outstanding(rt, id)?;
                continue;
            };
            let (answered, first) = self.take_answer(rt, alloc, pass, id, answer);
            let Some(more) = walk.after(answered)? else {
                return Ok(walk);
            };
            walk = more;
            next = first;
        }
        Ok(walk)
    }

    /// The first outstanding node of a session, as [`LockedRange::outstanding`] returns it.
    fn outstanding<R: Wait>(&self, rt: &R, id: u64) -> Result<Option<NodeAt>, Refusal>
        ensures refusal { IfErr result (λ e. e ≡ Refusal.UnknownSession) }
        ensures moment { FoundAtSomeMoment (IsLocked L.parts) (λ locked.
            AnswersAtOnce result (unknown_fault locked.state id) (λ first.
            MatchOption (record_of id locked.state.records) ⊥ (λ r. IsFirstOf r.session.outstanding first))) }
    {
        let range = self.range.lock(rt);
        // Called only for its clause `valid`: the range's invariants hold.
        let _valid = range.store();
        range.outstanding(id)
    }

    /// Takes a partner's answer for a session, as [`LockedRange::take_answer_next`] does, and returns the first
    /// outstanding node afterwards, also after a refusal: `None` if the session is unknown. The text is hashed before
    /// the lock is taken.
    fn take_answer<R: Wait>(
        &self,
        rt: &R,
        alloc: Global,
        pass: &mut Pass<L>,
        id: u64,
        answer: Answer,
    ) -> (Result<AnswerCounted, Refusal>, Option<NodeAt>)
        ensures gains { IfOk result.0 (λ taken. Gains pass.old pass.new Source.Partner taken.receipts) }
        ensures same { OnErr result.0 (pass.new ≡ pass.old) }
        ensures some { GainsSome pass.old pass.new Source.Partner }
        ensures refusal { IfErr result.0 IsTakeRefusal }
        ensures moment { ChangedAtSomeMoment (IsLocked L.parts) (λ before after. TellsAnswer before pass.old id
            (record { node = answer.node; text = answer.text }) result.0 after pass.new
            × IsNextOrNone after.state.records id result.1) }
    {
        let text = hash(answer.text);
        let mut range = self.range.lock(rt);
        // Called only for its clause `valid`: the range's invariants hold.
        let _valid = range.store();
        match range.take_answer_next(alloc, pass, id, answer.node, text) {
            Ok((taken, next)) => (Ok(taken), next),
            Err(refusal) => (Err(refusal), range.outstanding(id).unwrap_or(None)),
        }
    }

    /// Ends a session if it is open, and returns its end. Refused: UnknownSession.
    fn end_session<R: Wait>(&self, rt: &R, id: u64) -> Result<End, Refusal>
        ensures end { IfOk result (λ end. FoundAtSomeMoment (IsLocked L.parts)
            (λ locked. IsEndIn locked.state.records id end.state end.asked)) }
        ensures refusal { IfErr result (λ e. e ≡ Refusal.UnknownSession) }
    {
        let mut range = self.range.lock(rt);
        range.cancel_session(id)?;
        // Called only for its clause `valid`: the range's invariants hold.
        let _valid = range.store();
        let session = range.record(id)?.session();
        Ok(End {
            state: session.state(),
            asked: session.asked().len() as u64,
        })
    }
}

/// Fetches the offer of a link's partner.
fn reach_offer<R: Wait, K: Link>(rt: &R, alloc: Global, link: &mut K) -> Result<Offer, Refusal>
    ensures lost { IsLostExactly (K.failed link.old) (K.failed link.new) result }
    ensures refusal { IfErr result IsOfferRefusal }
{
    match link.offer(rt) {
        Reached::Bytes(bytes) => offer_in(alloc, &bytes),
        Reached::Lost => Err(Refusal::LinkLost),
        Reached::Gone => Err(Refusal::Gone),
    }
}

/// Fetches the answer to an ask: `None` if the message isn't an answer, or belongs to another offer.
fn reach_answer<R: Wait, K: Link>(
    rt: &R,
    alloc: Global,
    link: &mut K,
    ask: Ask,
) -> Result<Option<Answer>, Refusal>
    ensures offer { IfOk result (λ found. IfSome found (λ answer. answer.offer ≡ ask.offer)) }
    ensures lost { IsLostExactly (K.failed link.old) (K.failed link.new) result }
    ensures refusal { IfErr result IsAskRefusal }
{
    let offer = ask.offer;
    let message = encode(alloc, &Message::Ask(ask))?;
    match link.ask(rt, &message) {
        Reached::Bytes(bytes) => answer_in(alloc, &bytes, offer),
        Reached::Lost => Err(Refusal::LinkLost),
        Reached::Gone => Err(Refusal::Gone),
    }
}

/// Reads the offer whose message has these bytes. Refused, in order: BadMessage, NoMemory.
fn offer_in(alloc: Global, bytes: &[u8]) -> Result<Offer, Refusal>
    ensures { IfErr result (λ e. (e ≡ Refusal.BadMessage) ⊎ (e ≡ Refusal.NoMemory)) }
{
    match decode(alloc, bytes)? {
        Message::Offer(offer) => Ok(offer),
        _ => Err(Refusal::BadMessage),
    }
}

/// Reads the answer to an ask of that offer, if the bytes are the message of one. Refused: NoMemory.
fn answer_in(alloc: Global, bytes: &[u8], offer: u32) -> Result<Option<Answer>, Refusal>
    ensures offer { IfOk result (λ found. IfSome found (λ answer. answer.offer ≡ offer)) }
    ensures refusal { IfErr result (λ e. e ≡ Refusal.NoMemory) }
{
    match decode(alloc, bytes) {
        Ok(Message::Answer(answer)) if answer.offer == offer => Ok(Some(answer)),
        Err(Refusal::NoMemory) => Err(Refusal::NoMemory),
        _ => Ok(None),
    }
}
