//! Dry exchanges, which only show the partner's rows that are missing locally.
ghost use Rattle.std.specs.Prelude.{◌≡◌, Some, None};
ghost use Rattle.std.specs.Arc.{arc_value};
ghost use Rattle.vclock.specs.Answer.{Answers};
ghost use Rattle.exchange.specs.Courses.{IsFair, after_loss, after_go_on, report_of};
ghost use Rattle.exchange.specs.Asks.{next_in, ask_for};
ghost use Rattle.exchange.specs.Dry.{dry_fault, dry, after_dry_ask, TakesNews, Shows};
ghost use Rattle.exchange.specs.Estimates.{estimate_of};

use crate::bounds::Bounds;
use crate::course::{Course, is_leaf};
use crate::estimate::estimate;
use crate::report::Report;
use crate::standings::Standings;
use crate::tally::Tally;
use crate::verdict::Verdict;
use range_state::AnswerTaken;
use snapshot::Snapshot;
use std::alloc::Global;
use std::sync::Arc;
use sync_session::{News, Session};
use tree_nodes::{NodeAt, Text, hash, tree_depth};
use vclock::Refusal;
use walk_messages::{Ask, Offer};

/// An exchange that takes nothing into a range. It walks a partner's tree like an [`Exchange`](crate::Exchange), and
/// shows the rows that are missing from a local snapshot.
///
/// ```
/// let mut exchange = DryExchange::open(alloc, own, partner.offer(7), bounds)?;
/// ```
pub struct DryExchange {
    session: Session,
    course: Course,
}

/// The verdict on an answer, and the news in it.
#[derive(Debug, Drop)]
pub struct Shown {
    /// The verdict on the answer. A taken one has no receipts.
    pub verdict: Verdict,
    /// The rows of the partner's leaf that are missing from the local snapshot, and the number of versions that it has;
    /// no rows for an inner node. `None` if the answer wasn't taken.
    pub news: Option<News>,
}

impl DryExchange {
    /// Begins a dry exchange of a snapshot with a partner's offer. Refused, in order: OtherFormat, OtherRange,
    /// NoMemory.
    pub fn open(
        alloc: Global,
        own: Arc<Snapshot, Global>,
        offer: Offer,
        bounds: Bounds,
    ) -> Result<DryExchange, Refusal>
        ensures { Answers result (dry_fault (arc_value own) offer) (λ x. x ≡ dry (arc_value own) offer bounds) }
    {
        let local = own.offer(offer.offer);
        if offer.format != local.format {
            return Err(Refusal::OtherFormat);
        }
        if offer.range != local.range {
            return Err(Refusal::OtherRange);
        }
        let standings = Standings::unasked(alloc, own.format())?;
        Ok(DryExchange {
            session: Session::start(alloc, own, offer.root)?,
            course: Course::new(offer, bounds, standings),
        })
    }

    /// Returns the next ask to send, like an exchange. Doesn't allocate.
    pub fn next(&mut self) -> Option<Ask>
        ensures ask { result ≡ ask_for self.old.course (next_in self.old.course self.old.session) }
        ensures sent { self.new ≡ after_dry_ask self.old }
    {
        self.course.next(&self.session)
    }

    /// Takes the bytes of a partner's answer, like an exchange, and shows the rows that are missing from the local
    /// snapshot.
    pub fn take(&mut self, alloc: Global, answer: &[u8]) -> Shown
        ensures { Shows self.old answer.now result.verdict result.news self.new }
    {
        if self.course.is_over() {
            return Shown::nothing(Verdict::Late);
        }
        let (node, text) = match self.course.sort(answer) {
            Ok(due) => due,
            Err(verdict) => return Shown::nothing(verdict),
        };
        let is_leaf = is_leaf(self.session.own(), node);
        match take_news(alloc, &mut self.session, node, text) {
            Ok(news) => {
                let taken = AnswerTaken {
                    receipts: Vec::new(alloc),
                    known: news.known,
                    state: self.session.state(),
                };
                let verdict = self.course.judge(node, is_leaf, text.len(), Ok(taken));
                Shown {
                    verdict,
                    news: Some(news),
                }
            }
            Err(refusal) => {
                let verdict = self.course.judge(node, is_leaf, text.len(), Err(refusal));
                Shown::nothing(verdict)
            }
        }
    }

    /// Counts the ask for a node as lost, if it is in progress. Doesn't allocate.
    pub fn lose(&mut self, node: NodeAt)
        ensures { self.new ≡ record self.old { course = after_loss self.old.course node } }
    {
        self.course.lose(node);
    }

    /// Resumes the asks after memory for an answer ran out. Doesn't allocate.
    pub fn go_on(&mut self)
        ensures { self.new ≡ record self.old { course = after_go_on self.old.course } }
    {
        self.course.go_on();
    }

    /// Returns the progress of the exchange: never Left, Closed or Gone. Doesn't allocate.
    pub fn report(&self) -> Report
        ensures { result ≡ report_of self.now.course (Some self.now.session) }
    {
        match self.course.end {
            Some(end) => Report::of(end),
            None => self.course.report(&self.session),
        }
    }

    /// Estimates the number of keys that differ, from only the first two levels of the trees. It is the number of keys
    /// with which, on average, the same number of the 256 nodes at depth 2 differ; if all of these differ, there may be
    /// more keys. Returns `None` until the root and the nodes below it that differ were taken, or if the session has
    /// failed. Doesn't allocate.
    pub fn differing_keys(&self) -> Option<u64>
        ensures { result ≡ estimate_of self.now.session }
    {
        estimate(&self.session)
    }

    /// Returns the counts of the exchange: `known` counts the versions of rows that the local snapshot has, too.
    pub fn tally(&self) -> Tally
        ensures counts { result ≡ self.now.course.tally }
        ensures fair { IsFair self.now.course }
    {
        self.course.tally
    }
}

impl Shown {
    /// Returns a verdict without news.
    fn nothing(verdict: Verdict) -> Shown
        ensures { result ≡ record { verdict = verdict; news = None } }
    {
        Shown {
            verdict,
            news: None,
        }
    }
}

/// Passes a text to a session, and returns its rows that are missing from the local snapshot.
fn take_news(
    alloc: Global,
    session: &mut Session,
    node: NodeAt,
    text: &[u8],
) -> Result<News, Refusal>
    ensures { TakesNews session.old (record { node = node; text = text.now }) result session.new }
{
    let text = hash(Text::copy_of(alloc, text)?);
    match session.news_of(alloc, node, &text) {
        Ok(news) => {
            if node.depth == tree_depth(session.own().format()) {
                session.take_leaf(node, text);
            } else {
                session.take_inner(alloc, node, text)?;
            }
            Ok(news)
        }
        Err(Refusal::NotCanonical) => {
            session.fail();
            Err(Refusal::NotCanonical)
        }
        Err(refusal) => Err(refusal),
    }
}

impl Drop for DryExchange {
    /// Keeps the fields out of the proofs of callers that drop an exchange.
    fn drop(self) {
        let DryExchange {
            session: _session,
            course: _course,
        } = self;
    }
}
