//! Exchanges.
ghost use Rattle.std.specs.Prelude.{◌≡◌, ◌≤◌, ◌&&◌, ⊤, None, length, true, false, slice_get, option_map, MatchOption, MatchResult};
ghost use Rattle.vclock.specs.Answer.{Answers};
ghost use Rattle.vclock.specs.Outcome.{Does};
ghost use Rattle.tree_nodes.specs.Nodes.{tree_depth};
ghost use Rattle.range_state.specs.Sessions.{foreign_fault};
ghost use Rattle.exchange.specs.Standings.{in_flight, bytes_in_flight, standing_of, is_sent, may_take};
ghost use Rattle.exchange.specs.Courses.{IsFair, is_over, unasked, after_go_on, closed};
ghost use Rattle.exchange.specs.Outlines.{unsent, may_outline, pays, outline_for};
ghost use Rattle.exchange.specs.Exchanges.{on, is_of, record_in, going_in, level_with, opening, OpensUnless, asks_of, outlines_of, awaits, missed, lost_for, concluded, TakesText, TakesPatch, TakesFor, Takes, report_in, left_of, after_close};

use crate::bounds::Bounds;
use crate::course::{Course, is_leaf};
use crate::outlines::{Outlines, pays};
use crate::report::Report;
use crate::standings::Standings;
use crate::tally::Tally;
use crate::verdict::Verdict;
use range_state::{AnswerTaken, RangeState, Record};
use snapshot::Snapshot;
use std::alloc::Global;
use sync_session::Session;
use text_patch::{outline, parts_of, patch_parts, rebuild};
use tree_nodes::{Digest, NodeAt, Text, hash, tree_depth};
use vclock::{Format, Refusal};
use walk_messages::{Ask, Offer};

/// The width of a mark in an outline, in bytes: two different rows of a leaf share one in some 350 leaves of 220 rows.
const WIDTH: u8 = 3;

/// The number of bytes of an outline before its marks.
const HEAD_LEN: usize = 13;

/// A session of a range with a partner, as its owner runs it: the asks in progress, the number of bad answers, and the
/// end. It starts no thread and sends no message: its owner sends the asks that `next` returns, passes each answer to
/// `take`, and reads `report`. Its owner may keep it as long as it wants: between two calls the range may change in any
/// way. A renewal or a migration of the range ends it.
///
/// ```
/// let exchange = Exchange::open(alloc, &mut state, 2, partner.offer(7), bounds)?;
/// ```
pub struct Exchange {
    partner: u16,
    local_root: Digest,
    session: u64,
    course: Course,
    outlines: Outlines,
}

impl Exchange {
    /// Begins an exchange with a partner's offer: opens a session that compares the rows of the range's moment with it.
    /// If the moment has the offered root, the exchange is finished immediately, and no session is opened.
    ///
    /// Refused, in order: OtherFormat, OtherRange, Dirty (the moment is missing, or one of its nodes has no digest),
    /// SessionsFull (64 sessions are open, or there are 1,024 records), NoMemory, which may replace the two before it.
    /// On error the range is unchanged.
    #[tactic(auto, using(crate::proofs::OpenLaws::opens_refused))]
    pub fn open(
        alloc: Global,
        state: &mut RangeState,
        partner: u16,
        offer: Offer,
        bounds: Bounds,
    ) -> Result<Exchange, Refusal>
        ensures { OpensUnless (foreign_fault state.old.store.config offer) result state.old state.new
            (opening state.old partner offer bounds) }
    {
        state.check_offer(&offer)?;
        let own = state.moment(alloc)?;
        let local_root = own.root();
        if local_root == offer.root {
            return Ok(Exchange::level(alloc, partner, offer, bounds));
        }
        let (standings, outlines) = untouched(alloc, own.format())?;
        let session = state.open_session_at_moment(alloc, partner, offer)?;
        Ok(Exchange {
            partner,
            local_root,
            session,
            course: Course::new(offer, bounds, standings),
            outlines,
        })
    }

    /// Makes an exchange with a partner that offers the local root: it has no session, and is finished. Doesn't
    /// allocate.
    pub fn level(alloc: Global, partner: u16, offer: Offer, bounds: Bounds) -> Exchange
        ensures { result ≡ level_with partner offer bounds }
    {
        let local_root = offer.root;
        Exchange {
            partner,
            local_root,
            session: 0,
            course: Course::level(alloc, offer, bounds),
            outlines: Outlines::none(alloc),
        }
    }

    /// Returns the number of the partner's offer.
    pub fn offer_number(&self) -> u32
        ensures { result ≡ self.now.course.offer.offer }
    {
        self.course.offer.offer
    }

    /// Returns the next ask to send. Returns `None` if each outstanding node has an ask in progress or was left, the
    /// bounds allow no other ask, asks have stopped, or the exchange is over. Doesn't allocate.
    pub fn next(&mut self, state: &RangeState) -> Option<Ask>
        ensures ask { result ≡ (asks_of self.old (record_in self.old state.now)).0 }
        ensures sent { self.new ≡ (asks_of self.old (record_in self.old state.now)).1 }
    {
        let record = self.find(state)?;
        self.course.next(record.session())
    }

    /// Returns the bytes of an outline to send in place of the ask for a node, which `next` has returned: the ask with
    /// marks for the parts of the node's text in the local snapshot. Returns `None` if a patch isn't likely to be
    /// smaller than the text, an outline was already sent for the node, three in a row brought no text (the partner may
    /// not know outlines), the outline has more bytes than `room`, or no ask for the node is in progress. Refused:
    /// NoMemory. On error the exchange is unchanged, and the ask may be sent.
    ///
    /// An outline that brings no text, since it was lost or its answer was bad, isn't counted: the ask is sent next.
    pub fn outline(
        &mut self,
        alloc: Global,
        state: &RangeState,
        node: NodeAt,
        room: usize,
    ) -> Result<Option<Text>, Refusal>
        ensures outline { Does result self.old self.new (outlines_of self.old (record_in self.old state.now) node room) }
        ensures fits { MatchResult result (λ outline. MatchOption outline ⊤ (λ bytes. length bytes ≤ room)) (λ _. ⊤) }
    {
        let Some(record) = self.find(state) else {
            return Ok(None);
        };
        let Some(bytes) = self.outline_of(alloc, record.session(), node, room)? else {
            return Ok(None);
        };
        self.outlines.send(node);
        Ok(Some(bytes))
    }

    /// Returns the outline of a node, if one may be sent and pays.
    #[tactic(auto, using(crate::proofs::OutlineLaws::outline_len))]
    fn outline_of(
        &self,
        alloc: Global,
        session: &Session,
        node: NodeAt,
        room: usize,
    ) -> Result<Option<Text>, Refusal>
        ensures result { Answers result None (λ bytes. bytes ≡ outline_for self.now.outlines self.now.course session.now node room) }
        ensures may { MatchResult result (λ outline. MatchOption outline ⊤ (λ _. may_outline self.now.outlines node ≡ true)) (λ _. ⊤) }
        ensures fits { MatchResult result (λ outline. MatchOption outline ⊤ (λ bytes. length bytes ≤ room)) (λ _. ⊤) }
    {
        let own = session.own();
        if node.depth > tree_depth(own.format()) || !self.may_outline(own, node) {
            return Ok(None);
        }
        let Some(salt) = session.expected(node) else {
            return Ok(None);
        };
        let parts = parts_of(alloc, own, node)?;
        if HEAD_LEN + WIDTH as usize * parts.len() > room {
            return Ok(None);
        }
        let ask = Ask {
            offer: self.course.offer.offer,
            node,
        };
        Ok(Some(Text::from(outline(alloc, ask, &salt, WIDTH, &parts)?)))
    }

    /// Returns true if the ask for a node is in progress, and an outline may be sent instead, and pays.
    fn may_outline(&self, own: &Snapshot, node: NodeAt) -> bool
        requires { node.depth ≤ tree_depth own.now.format }
        ensures { result ≡ (is_sent (standing_of self.now.course.standings node) && (may_outline self.now.outlines node && pays own.now node)) }
    {
        self.course.standings.is_sent(node) && self.outlines.may_send(node) && pays(own, node)
    }

    /// Takes a partner's answer or patch, as bytes, and judges it by the node that it names. Answers may arrive in any
    /// order. The range changes as by `take_answer`, or not at all. An answer to an exchange that is over is late.
    pub fn take(
        &mut self,
        alloc: Global,
        state: &mut RangeState,
        seat: u16,
        answer: &[u8],
    ) -> Verdict
        ensures { Takes self.old state.old seat answer.now result self.new state.new }
    {
        match patch_parts(alloc, answer) {
            Some((ask, steps)) => self.take_patch(alloc, state, seat, ask, steps),
            None => self.take_answer(alloc, state, seat, answer),
        }
    }

    /// Counts the ask for a node as lost, if it is in progress: its link was lost, say, or its time is over. It may be
    /// sent again. A lost outline isn't counted. Doesn't allocate.
    pub fn lose(&mut self, node: NodeAt)
        ensures { self.new ≡ lost_for self.old node }
    {
        if self.course.is_over() {
            return;
        }
        if self.awaits(node) {
            self.miss(node);
        } else {
            self.course.lose(node);
        }
    }

    /// Resumes the asks after an answer exceeded the capacity. Each ask whose answer was refused counts as lost.
    /// Doesn't allocate.
    pub fn go_on(&mut self)
        ensures { self.new ≡ on self.old (after_go_on self.old.course) }
    {
        self.course.go_on();
    }

    /// Returns the progress of the exchange. Doesn't allocate.
    pub fn report(&self, state: &RangeState) -> Report
        ensures { result ≡ report_in self.now state.now }
    {
        if let Some(end) = self.course.end {
            return Report::of(end);
        }
        match self.find(state) {
            Some(record) => self.course.report(record.session()),
            None => Report::Gone,
        }
    }

    /// Returns one of the left leaves, by its place among them, from 0, in the order of the session's asks, or `None`
    /// if there are fewer. Each has a crowded key. Doesn't allocate.
    pub fn left(&self, state: &RangeState, place: usize) -> Option<NodeAt>
        ensures { result ≡ slice_get (left_of self.now (record_in self.now state.now)) place }
    {
        let nodes = self.find(state)?.session().outstanding();
        self.course.standings.left_at(nodes, place)
    }

    /// Closes the exchange: cancels its session if it is in progress, so that its record may be dropped. Doesn't
    /// allocate.
    pub fn close(&mut self, state: &mut RangeState)
        ensures exchange { self.new ≡ on self.old (closed self.old.course) }
        ensures state { state.new ≡ after_close self.old state.old }
    {
        if self.course.end.is_none() && self.find(state).is_some() {
            let _done = state.cancel_session(self.session);
        }
        self.course.close();
    }

    /// Returns the counts of the exchange. No more asks are sent than the tree has nodes, and the bounds allow bad
    /// answers and lost asks.
    pub fn tally(&self) -> Tally
        ensures counts { result ≡ self.now.course.tally }
        ensures fair { IsFair self.now.course }
    {
        self.course.tally
    }

    /// Returns the number of asks in progress.
    pub fn in_flight(&self) -> u64
        ensures { result ≡ in_flight self.now.course.standings }
    {
        self.course.standings.in_flight()
    }

    /// Returns the estimated size of the answers to the asks in progress, in bytes.
    pub fn bytes_in_flight(&self) -> u64
        ensures { result ≡ bytes_in_flight self.now.course.standings }
    {
        self.course.standings.bytes_in_flight()
    }

    /// Takes bytes that aren't a patch.
    fn take_answer(
        &mut self,
        alloc: Global,
        state: &mut RangeState,
        seat: u16,
        answer: &[u8],
    ) -> Verdict
        ensures { TakesFor self.old state.old seat answer.now (going_in self.old state.old) result self.new state.new }
    {
        let Some(record) = self.going(state) else {
            return Verdict::Late;
        };
        let (node, text) = match self.course.sort(answer) {
            Ok(due) => due,
            Err(verdict) => return verdict,
        };
        let is_leaf = is_leaf(record.session().own(), node);
        let said = take_text(alloc, state, seat, self.session, node, text);
        self.conclude(node, is_leaf, text.len(), said)
    }

    /// Takes the steps of a patch: the text that they make from the local parts is offered to the session.
    fn take_patch(
        &mut self,
        alloc: Global,
        state: &mut RangeState,
        seat: u16,
        ask: Ask,
        steps: &[u8],
    ) -> Verdict
        ensures { TakesPatch self.old state.old seat ask steps.now (going_in self.old state.old) result self.new state.new }
    {
        let Some(record) = self.going(state) else {
            return Verdict::Late;
        };
        if ask.offer != self.course.offer.offer || !self.awaits(ask.node) {
            return Verdict::Late;
        }
        let own = record.session().own();
        let is_leaf = is_leaf(own, ask.node);
        match rebuild(alloc, own, ask.node, steps) {
            Ok(text) => {
                let len = text.as_slice().len();
                let said = state.take_answer(alloc, seat, self.session, ask.node, hash(text));
                self.conclude(ask.node, is_leaf, len, said)
            }
            Err(refusal) => self.conclude(ask.node, is_leaf, 0, Err(refusal)),
        }
    }

    /// Returns the verdict on an answer for a node, by its session's result, and counts it. An answer to an outline
    /// isn't counted if it brought another text, or none.
    fn conclude(
        &mut self,
        node: NodeAt,
        is_leaf: bool,
        len: usize,
        said: Result<AnswerTaken, Refusal>,
    ) -> Verdict
        requires going { is_over self.old.course ≡ false }
        requires due { may_take (standing_of self.old.course.standings node) ≡ true }
        ensures verdict { result ≡ (concluded self.old node is_leaf len said).0 }
        ensures exchange { self.new ≡ (concluded self.old node is_leaf len said).1 }
    {
        if self.awaits(node) {
            if let Err(Refusal::WrongDigest | Refusal::BadMessage) = &said {
                self.miss(node);
                return Verdict::Late;
            }
            self.outlines.end(node);
        }
        self.course.judge(node, is_leaf, len, said)
    }

    /// Returns true if the ask for a node is in progress, and was sent as an outline.
    fn awaits(&self, node: NodeAt) -> bool
        ensures { result ≡ awaits self.now node }
    {
        self.outlines.is_out(node) && self.course.standings.is_sent(node)
    }

    /// Withdraws the ask for a node whose outline brought no text.
    fn miss(&mut self, node: NodeAt)
        requires { awaits self.old node ≡ true }
        ensures { self.new ≡ missed self.old node }
    {
        self.outlines.miss(node);
        self.course.retract(node);
    }

    /// Returns the record of the session, if the exchange isn't over and the range has it.
    fn going<'a>(&self, state: &'a RangeState) -> Option<&'a Record>
        ensures { option_map (λ r. r.now) result ≡ going_in self.now state.now }
    {
        if self.course.is_over() {
            None
        } else {
            self.find(state)
        }
    }

    /// Returns the record of the session, if the range has it.
    fn find<'a>(&self, state: &'a RangeState) -> Option<&'a Record>
        ensures { option_map (λ r. r.now) result ≡ record_in self.now state.now }
    {
        match state.record(self.session) {
            Ok(record) if self.is_of(record) => Some(record),
            _ => None,
        }
    }

    /// Returns true if a record with the session's number belongs to the session.
    fn is_of(&self, kept: &Record) -> bool
        ensures { result ≡ is_of self.now kept.now }
    {
        let session = kept.session();
        kept.partner() == self.partner
            && session.root() == self.course.offer.root
            && session.own().root() == self.local_root
    }
}

/// Makes the standings and the outlines of a tree without an asked node. Refused: NoMemory.
fn untouched(alloc: Global, format: Format) -> Result<(Standings, Outlines), Refusal>
    ensures { Answers result None (λ both. both ≡ (unasked format, unsent format)) }
{
    let standings = Standings::unasked(alloc, format)?;
    let outlines = Outlines::unsent(alloc, format)?;
    Ok((standings, outlines))
}

/// Passes a text to a session.
fn take_text(
    alloc: Global,
    state: &mut RangeState,
    seat: u16,
    session: u64,
    node: NodeAt,
    text: &[u8],
) -> Result<AnswerTaken, Refusal>
    ensures { TakesText state.old seat session (record { node = node; text = text.now }) result state.new }
{
    let text = hash(Text::copy_of(alloc, text)?);
    state.take_answer(alloc, seat, session, node, text)
}

impl Drop for Exchange {
    /// Keeps the fields out of the proofs of callers that drop an exchange.
    fn drop(self) {
        let Exchange {
            partner: _partner,
            local_root: _local_root,
            session: _session,
            course: _course,
            outlines: _outlines,
        } = self;
    }
}
