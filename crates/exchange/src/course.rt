//! The course of an exchange.
ghost use Rattle.std.specs.Prelude.{◌≡◌, ◌+◌, ◌<◌, ◌^◌, true, false, nat_lt, nat_le, Option, MatchResult};
ghost use Rattle.vclock.specs.declared.format.Format.{Format};
ghost use Rattle.walk_messages.specs.declared.message.Answer.{Answer};
ghost use Rattle.exchange.specs.declared.verdict.Verdict.TheVariants as verdicts;
ghost use Rattle.exchange.specs.Standings.{bytes_in_flight, standing_of, may_take, is_sent};
ghost use Rattle.exchange.specs.Courses.{is_over, begun, unasked, level, after_loss, retracted, after_go_on, closed, report_by_state, bounded_report};
ghost use Rattle.exchange.specs.Asks.{is_leaf, estimate, has_room, next_in, ask_for, after_ask};
ghost use Rattle.exchange.specs.Answers.{IsRead, IsDueBy, IsVerdictBy, sorted, end_by, after_refused, judged};

use crate::bounds::Bounds;
use crate::report::{End, Report, Stop};
use crate::standing::Standing;
use crate::standings::{Standings, may_take, was_asked};
use crate::tally::Tally;
use crate::verdict::Verdict;
use range_state::AnswerTaken;
use snapshot::Snapshot;
use std::alloc::Global;
use std::marker::Model;
use sync_session::{Session, SessionState};
use tree_nodes::{NodeAt, tree_depth};
use vclock::Refusal;
use walk_messages::{Ask, Offer, answer_parts};

/// The length in bytes of the text of an inner node.
const INNER_LEN: u64 = 513;

/// The maximum number of asks in progress, including one for a leaf, before the first leaf was taken.
const FIRST_WAYS: u64 = 16;

/// The asks for an offer that are in progress, the counts, and the cause for which no more may be sent, if any.
pub(crate) struct Course {
    pub(crate) offer: Offer,
    pub(crate) bounds: Bounds,
    pub(crate) standings: Standings,
    pub(crate) tally: Tally,
    pub(crate) stop: Option<Stop>,
    pub(crate) end: Option<End>,
}

impl Model for Course {
    ghost use Rattle.exchange.specs.Courses.{Course, IsFair};

    ghost Value = { Course };

    ghost view = { λ c. record { offer = c.offer; bounds = c.bounds; standings = c.standings; tally = c.tally; stop = c.stop; end = c.end } };

    ghost invariant = { λ c. IsFair (record { offer = c.offer; bounds = c.bounds; standings = c.standings; tally = c.tally; stop = c.stop; end = c.end }) };
}

impl Course {
    /// Makes the course of an exchange that has sent no ask.
    pub(crate) fn new(offer: Offer, bounds: Bounds, standings: Standings) -> Course
        requires { (format : Format) × (standings ≡ unasked format) }
        ensures { result ≡ begun offer bounds standings }
    {
        Course {
            offer,
            bounds,
            standings,
            tally: Tally::none(),
            stop: None,
            end: None,
        }
    }

    /// Makes the course of an exchange with a partner that has the local root: finished.
    pub(crate) fn level(alloc: Global, offer: Offer, bounds: Bounds) -> Course
        ensures { result ≡ level offer bounds }
    {
        Course {
            offer,
            bounds,
            standings: Standings::none(alloc),
            tally: Tally::none(),
            stop: None,
            end: Some(End::Finished),
        }
    }

    /// Returns the next ask to send for a session, if any.
    pub(crate) fn next(&mut self, session: &Session) -> Option<Ask>
        ensures ask { result ≡ ask_for self.old (next_in self.old session.now) }
        ensures sent { self.new ≡ after_ask self.old (next_in self.old session.now) }
    {
        if self.stop.is_some() || self.is_over() {
            return None;
        }
        let node = self.standings.first_askable(session.outstanding())?;
        let own = session.own();
        let bytes = self.estimate(own, node);
        if !self.has_room(is_leaf(own, node), bytes) {
            return None;
        }
        self.standings.send(node, bytes);
        self.tally.asks += 1;
        Some(Ask {
            offer: self.offer.offer,
            node,
        })
    }

    /// Estimates the size of the answer for a node in bytes.
    fn estimate(&self, own: &Snapshot, node: NodeAt) -> u64
        ensures { result ≡ estimate self.now own.now node }
    {
        if !is_leaf(own, node) {
            return INNER_LEN;
        }
        let local = own.rows(node.index).rows_len();
        local.max(self.tally.mean_leaf())
    }

    /// Returns true if another ask may be sent, for an answer of that size.
    fn has_room(&self, is_leaf: bool, bytes: u64) -> bool
        ensures room { result ≡ has_room self.now is_leaf bytes }
        ensures fits { result ≡ true → bytes_in_flight self.now.standings + bytes < 2 ^ 64 }
    {
        let in_flight = self.standings.in_flight();
        if in_flight == 0 {
            return true;
        }
        let mut most = u64::from(self.bounds.asks);
        if is_leaf && self.tally.leaves == 0 {
            most = most.min(FIRST_WAYS);
        }
        in_flight < most && fits(self.standings.bytes_in_flight(), bytes, self.bounds.bytes)
    }

    /// Returns the node and the text of a due answer, or the verdict on any other, which is counted if it is bad.
    pub(crate) fn sort<'a>(&mut self, answer: &'a [u8]) -> Result<(NodeAt, &'a [u8]), Verdict>
        requires { is_over self.old ≡ false }
        ensures { (read : Option Answer) × IsRead answer.now read × MatchResult result
            (λ parts. IsDueBy (sorted self.old read) (parts.0, parts.1.now) self.new)
            (λ verdict. IsVerdictBy (sorted self.old read) verdict self.new) }
    {
        let Some((ask, text)) = answer_parts(answer) else {
            self.tally.bad += 1;
            return Err(Verdict::Bad(Refusal::BadMessage));
        };
        if ask.offer != self.offer.offer {
            return Err(Verdict::Late);
        }
        let standing = self.standings.get(ask.node);
        if may_take(standing) {
            return Ok((ask.node, text));
        }
        if was_asked(standing) {
            return Err(Verdict::Late);
        }
        self.tally.bad += 1;
        Err(Verdict::Bad(Refusal::NotAsked))
    }

    /// Returns the verdict on a due answer, by its session's result, and counts it.
    pub(crate) fn judge(
        &mut self,
        node: NodeAt,
        is_leaf: bool,
        len: usize,
        said: Result<AnswerTaken, Refusal>,
    ) -> Verdict
        requires going { is_over self.old ≡ false }
        requires due { may_take (standing_of self.old.standings node) ≡ true }
        ensures verdict { result ≡ (judged self.old node is_leaf len said).0 }
        ensures counts { self.new ≡ (judged self.old node is_leaf len said).1 }
    {
        match said {
            Ok(taken) => {
                self.standings.end(node, Standing::Settled);
                self.tally.count(&taken, is_leaf, len);
                self.end = end_by(taken.state);
                Verdict::Taken(taken)
            }
            Err(Refusal::Crowded) => {
                self.standings.end(node, Standing::Left);
                Verdict::Left
            }
            Err(Refusal::NotAsked) => {
                self.standings.end(node, Standing::Settled);
                Verdict::Late
            }
            Err(Refusal::WrongDigest) => {
                self.standings.lose(node);
                self.tally.bad += 1;
                Verdict::Bad(Refusal::WrongDigest)
            }
            Err(Refusal::NotCanonical) => {
                self.end = Some(End::Failed);
                Verdict::Failed
            }
            Err(Refusal::JournalFull) => self.refuse(node, Stop::JournalFull),
            Err(Refusal::NoMemory) => self.refuse(node, Stop::NoMemory),
            Err(_) => Verdict::Late,
        }
    }

    /// Refuses an answer that exceeded the capacity: no ask is sent until `go_on`.
    fn refuse(&mut self, node: NodeAt, cause: Stop) -> Verdict
        ensures verdict { result ≡ verdicts.Refused cause }
        ensures counts { self.new ≡ after_refused self.old node cause }
    {
        let was_sent = self.standings.lose(node);
        self.tally.refused += u64::from(was_sent);
        self.stop = self.stop.or(Some(cause));
        Verdict::Refused(cause)
    }

    /// Counts the ask for a node as lost, if it is in progress.
    pub(crate) fn lose(&mut self, node: NodeAt)
        ensures { self.new ≡ after_loss self.old node }
    {
        if !self.is_over() && self.standings.lose(node) {
            self.tally.lost += 1;
        }
    }

    /// Withdraws the ask in progress for a node, so that another one may be sent: it was an outline, and brought no
    /// text.
    pub(crate) fn retract(&mut self, node: NodeAt)
        requires { is_sent (standing_of self.old.standings node) ≡ true }
        ensures { self.new ≡ retracted self.old node }
    {
        let _was_sent = self.standings.lose(node);
        self.tally.asks -= 1;
    }

    /// Resumes the asks after an answer exceeded the capacity.
    pub(crate) fn go_on(&mut self)
        ensures { self.new ≡ after_go_on self.old }
    {
        if self.is_over() {
            return;
        }
        self.tally.lost += self.tally.refused;
        self.tally.refused = 0;
        self.stop = None;
    }

    /// Ends the course, if it hasn't ended.
    pub(crate) fn close(&mut self)
        ensures { self.new ≡ closed self.old }
    {
        self.end = self.end.or(Some(End::Closed));
    }

    /// Returns the progress of the exchange with this session.
    pub(crate) fn report(&self, session: &Session) -> Report
        ensures { result ≡ report_by_state self.now session.now.outstanding session.now.state }
    {
        match session.state() {
            SessionState::Open => self.bounded_report(session.outstanding()),
            SessionState::Finished => Report::Finished,
            SessionState::Failed => Report::Failed,
            SessionState::Cancelled => Report::Gone,
        }
    }

    /// Returns the progress of an exchange whose session has these outstanding nodes.
    fn bounded_report(&self, outstanding: &[NodeAt]) -> Report
        ensures { result ≡ bounded_report self.now outstanding.now }
    {
        if self.has_too_many_bad() {
            return Report::TooManyBad;
        }
        if self.has_too_many_lost() {
            return Report::TooManyLost;
        }
        match self.stop {
            Some(cause) => Report::Stopped(cause),
            None if self.standings.are_left(outstanding) => Report::Left,
            None => Report::Waiting,
        }
    }

    /// Returns true if no ask is sent and no answer is taken any more.
    pub(crate) fn is_over(&self) -> bool
        ensures { result ≡ is_over self.now }
    {
        self.end.is_some() || self.has_too_many_bad() || self.has_too_many_lost()
    }

    /// Returns true if more answers were bad than the bounds allow.
    fn has_too_many_bad(&self) -> bool
        ensures { result ≡ nat_lt self.now.bounds.bad self.now.tally.bad }
    {
        self.tally.bad > u64::from(self.bounds.bad)
    }

    /// Returns true if more asks were lost than the bounds allow.
    fn has_too_many_lost(&self) -> bool
        ensures { result ≡ nat_lt self.now.bounds.lost self.now.tally.lost }
    {
        self.tally.lost > u64::from(self.bounds.lost)
    }
}

/// Returns true if a node is a leaf of the tree over these rows.
pub(crate) fn is_leaf(own: &Snapshot, node: NodeAt) -> bool
    ensures { result ≡ is_leaf own.now node }
{
    node.depth == tree_depth(own.format())
}

/// Returns true if the sum of two sizes is at most a bound.
fn fits(first: u64, second: u64, most: u64) -> bool
    ensures within { result ≡ nat_le (first + second) most }
    ensures fits { result ≡ true → first + second < 2 ^ 64 }
{
    first <= most && second <= most - first
}

/// Returns the end of an exchange whose session has this state after it took a text.
fn end_by(state: SessionState) -> Option<End>
    ensures { result ≡ end_by state }
{
    match state {
        SessionState::Finished => Some(End::Finished),
        SessionState::Open | SessionState::Failed | SessionState::Cancelled => None,
    }
}

impl Drop for Course {
    /// Keeps the fields out of the proofs of callers that drop an exchange.
    fn drop(self) {
        let Course {
            offer: _offer,
            bounds: _bounds,
            standings: _standings,
            tally: _tally,
            stop: _stop,
            end: _end,
        } = self;
    }
}
