//! Syncs in progress, by the definitions.

use crate::mirror::Mirror;
use crate::partner::format_number;
use plain_model::messages::{PlainAnswer, PlainOffer, ask_bytes, read_answer, read_offer};
use plain_model::plain::Fault;
use plain_model::trees::Tree;
use plain_model::trouble::{Trouble, expect};
use plain_model::walks::{Offering, Sent, Walk};
use range_state::LocalRows;
use ring_node::SyncReport;
use std::alloc::Global;
use std::mem::replace;
use std::sync::Arc;
use sync_session::SessionState;
use tree_nodes::{Digest, NodeAt};
use vclock::Refusal;

/// The maximum number of open sessions.
const OPEN_MAX: u64 = 64;

/// The maximum number of sessions.
const SESSIONS_MAX: usize = 1_024;

/// The bytes that a link returned and the range hasn't taken yet.
#[derive(Drop)]
pub(crate) enum Pending {
    Nothing,
    Offer(Vec<u8>),
    Answer(Vec<u8>),
}

/// The outcome of a sync without differences.
#[derive(Clone, Copy, PartialEq, Eq)]
pub(crate) enum Outcome {
    Finished,
    Failed,
    Cancelled,
    Refused,
}

/// A sync in progress.
#[derive(Drop)]
pub(crate) struct Progress {
    seat: u16,
    partner: u16,
    turns: u64,
    local: LocalRows,
    /// The text of the root, if the partner is a forger.
    forged: Option<Vec<u8>>,
    pending: Pending,
    /// The numbers of the session and of the offer.
    opened: Option<(usize, u32)>,
    asks: u64,
    accepted: u64,
    known: u64,
    bad: u64,
    refused: Option<Fault>,
}

impl Progress {
    /// Returns a sync that has fetched nothing.
    pub(crate) fn new(
        seat: u16,
        partner: u16,
        turns: u64,
        local: LocalRows,
        forged: Option<Vec<u8>>,
    ) -> Progress {
        Progress {
            seat,
            partner,
            turns,
            local,
            forged,
            pending: Pending::Nothing,
            opened: None,
            asks: 0,
            accepted: 0,
            known: 0,
            bad: 0,
            refused: None,
        }
    }

    /// Returns the local rows that the sync compares.
    pub(crate) fn local(&self) -> LocalRows {
        self.local
    }

    /// Keeps the link's reply. The range takes it before the next call.
    pub(crate) fn keep(&mut self, pending: Pending) {
        self.pending = pending;
    }

    /// Ends the sync by a call of the link.
    pub(crate) fn refuse(&mut self, fault: Fault) {
        self.refused = Some(fault);
    }

    /// Returns the root that the link offered last, if that offer is pending.
    pub(crate) fn pending_root(&self) -> Option<Digest> {
        match &self.pending {
            Pending::Offer(bytes) => Some(read_offer(bytes)?.root),
            Pending::Nothing | Pending::Answer(_) => None,
        }
    }

    /// Has the node take the pending reply. `tree` is the partner's tree with the offered root, if any. `has_rows` is
    /// true if each node of the local rows' tree has a digest.
    pub(crate) fn settle(
        &mut self,
        alloc: Global,
        here: &mut Mirror,
        tree: Option<Arc<Tree, Global>>,
        has_rows: bool,
    ) -> Result<(), Trouble> {
        match replace(&mut self.pending, Pending::Nothing) {
            Pending::Nothing => Ok(()),
            Pending::Offer(bytes) => self.open(alloc, here, tree, &bytes, has_rows),
            Pending::Answer(bytes) => self.take(alloc, here, &bytes),
        }
    }

    /// Opens a session with an offer, unless that is refused.
    fn open(
        &mut self,
        alloc: Global,
        here: &mut Mirror,
        tree: Option<Arc<Tree, Global>>,
        bytes: &[u8],
        has_rows: bool,
    ) -> Result<(), Trouble> {
        let Some(offer) = read_offer(bytes) else {
            self.refuse(Fault::BadMessage);
            return Ok(());
        };
        if let Some(fault) = offer_fault(here, &offer, has_rows) {
            self.refuse(fault);
            return Ok(());
        }
        let partner = Offering {
            at: self.partner,
            root: offer.root,
            forged: self.forged.take(),
        };
        let own = match self.local {
            LocalRows::Now => Tree::new(alloc, &here.plain)?,
            LocalRows::Moment => here.moment_tree(alloc)?,
        };
        let walk = Walk::new(alloc, here.plain.format, own, partner)?;
        self.opened = Some((here.walks.len(), offer.number));
        here.add_walk(walk, tree)
    }

    /// Compares an ask with the session's first outstanding node.
    pub(crate) fn check_ask(
        &mut self,
        alloc: Global,
        here: &Mirror,
        message: &[u8],
    ) -> Result<(), Trouble> {
        self.asks = self.asks.wrapping_add(1);
        expect(self.asks <= self.turns, "the number of asks")?;
        let Some((id, offer)) = self.opened else {
            return Err(Trouble::Differs("whether a sync asks"));
        };
        let Some(node) = first_outstanding(here, id) else {
            return Err(Trouble::Differs("whether a sync goes on"));
        };
        let bytes = ask_bytes(alloc, offer, node)?;
        expect(bytes.as_slice() == message, "an ask")
    }

    /// Takes a message as an answer.
    fn take(&mut self, alloc: Global, here: &mut Mirror, bytes: &[u8]) -> Result<(), Trouble> {
        let Some((id, offer)) = self.opened else {
            return Err(Trouble::Differs("whether a sync has opened a session"));
        };
        let answer = match read_answer(bytes) {
            Some(answer) if answer.offer == offer => answer,
            _ => {
                self.bad = self.bad.wrapping_add(1);
                return Ok(());
            }
        };
        match take_text(alloc, here, id, self.seat, answer)? {
            Ok((accepted, known)) => {
                self.accepted = self.accepted.wrapping_add(accepted);
                self.known = self.known.wrapping_add(known);
            }
            Err(Fault::NotCanonical) => {}
            Err(fault @ (Fault::Crowded | Fault::JournalFull)) => self.refuse(fault),
            Err(_) => self.bad = self.bad.wrapping_add(1),
        }
        Ok(())
    }

    /// Compares the end of the sync. `gained` is the number of receipts that the pass got.
    pub(crate) fn finish(
        &self,
        here: &mut Mirror,
        reply: &Result<SyncReport, Refusal>,
        gained: u64,
    ) -> Result<Outcome, Trouble> {
        expect(gained == self.accepted, "the number of receipts of a sync")?;
        let is_stopped = match self.opened {
            Some((id, _)) => end(here, id, SessionState::Cancelled),
            None => false,
        };
        match (reply, self.refused) {
            (Err(refusal), Some(fault)) => {
                expect(fault.is(refusal), "the refusal of a sync")?;
                Ok(Outcome::Refused)
            }
            (Ok(report), None) => {
                let is_due = !is_stopped || self.asks == self.turns;
                expect(is_due, "the turns of a sync")?;
                self.check_report(here, report)
            }
            _ => Err(Trouble::Differs("whether a sync is refused")),
        }
    }

    /// Compares a report.
    fn check_report(&self, here: &Mirror, report: &SyncReport) -> Result<Outcome, Trouble> {
        let Some((id, _)) = self.opened else {
            return Err(Trouble::Differs("whether a sync has opened a session"));
        };
        let Some(walk) = here.walks.get(id) else {
            return Err(Trouble::Differs("the number of sessions"));
        };
        let same = here.sessions.get(id) == Some(&report.id)
            && report.state == walk.state
            && report.asked == walk.asked.len() as u64
            && report.accepted == self.accepted
            && report.known == self.known
            && report.bad == self.bad;
        expect(same, "the report of a sync")?;
        Ok(match walk.state {
            SessionState::Finished => Outcome::Finished,
            SessionState::Failed => Outcome::Failed,
            SessionState::Cancelled | SessionState::Open => Outcome::Cancelled,
        })
    }
}

/// Passes a text for a node to a session, with the versions of a leaf. Returns the numbers of new and of known
/// versions, or the reason why the text isn't taken.
pub(crate) fn take_text(
    alloc: Global,
    here: &mut Mirror,
    id: usize,
    seat: u16,
    answer: PlainAnswer<'_>,
) -> Result<Result<(u64, u64), Fault>, Trouble> {
    let node = answer.node;
    let partners = text_of(alloc, here, id, node)?;
    if let Some(fault) = fault_of(here, id, node, answer.text, &partners) {
        if matches!(fault, Fault::NotCanonical) {
            end(here, id, SessionState::Failed);
        }
        return Ok(Err(fault));
    }
    let (mut accepted, mut known) = (0, 0);
    if let Some(tree) = leaf_tree(here, id, node)? {
        match here.plain.take_leaf(alloc, seat, &tree, node.index)? {
            Ok(taken) => {
                (accepted, known) = (taken.news.len() as u64, taken.known);
                here.add_all(&taken.news)?;
            }
            Err(fault) => return Ok(Err(fault)),
        }
    }
    let text = Vec::from_slice(alloc, answer.text)?;
    match here.walks.get_mut(id) {
        Some(walk) => walk.take(Sent { node, text })?,
        None => return Err(Trouble::Differs("the number of sessions")),
    }
    Ok(Ok((accepted, known)))
}

/// Returns the reason why an offer is refused, if any.
pub(crate) fn offer_fault(here: &Mirror, offer: &PlainOffer, has_rows: bool) -> Option<Fault> {
    if offer.format != format_number(here.plain.format) {
        Some(Fault::OtherFormat)
    } else if offer.range != here.plain.part.number() {
        Some(Fault::OtherRange)
    } else if here.open_count() >= OPEN_MAX || here.walks.len() >= SESSIONS_MAX {
        Some(Fault::SessionsFull)
    } else if !has_rows {
        Some(Fault::Dirty)
    } else {
        None
    }
}

/// Returns the first outstanding node of a session.
fn first_outstanding(here: &Mirror, id: usize) -> Option<NodeAt> {
    here.walks.get(id)?.outstanding.first().copied()
}

/// Returns the text of a node of a session's partner, or an empty text if the partner offered no such tree.
fn text_of(alloc: Global, here: &Mirror, id: usize, node: NodeAt) -> Result<Vec<u8>, Trouble> {
    match here.partners.get(id) {
        Some(Some(tree)) => tree.text(alloc, node),
        _ => Ok(Vec::new(alloc)),
    }
}

/// Returns the reason why a session doesn't take an answer, if any.
fn fault_of(here: &Mirror, id: usize, node: NodeAt, sent: &[u8], text: &[u8]) -> Option<Fault> {
    match here.walks.get(id) {
        Some(walk) => walk.fault_of(node, sent, text),
        None => Some(Fault::UnknownSession),
    }
}

/// Returns the partner's tree, if the node is a leaf.
fn leaf_tree(here: &Mirror, id: usize, node: NodeAt) -> Result<Option<Arc<Tree, Global>>, Trouble> {
    let (Some(walk), Some(Some(tree))) = (here.walks.get(id), here.partners.get(id)) else {
        return Ok(None);
    };
    if walk.is_leaf(node) {
        Ok(Some(Arc::try_clone(tree)?))
    } else {
        Ok(None)
    }
}

/// Ends a session if it is open, and returns true if it was.
fn end(here: &mut Mirror, id: usize, state: SessionState) -> bool {
    let Some(walk) = here.walks.get_mut(id) else {
        return false;
    };
    let is_open = walk.state == SessionState::Open;
    walk.end(state);
    is_open
}
