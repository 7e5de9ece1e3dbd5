//! Exchanges of closed nodes with each other, compared with the plain program: answers in any order, lost, late,
//! repeated, false or of another node, with copies, renewals and migrations in between. Half of the exchanges send
//! outlines, which get patches.
ghost use Rattle.std.specs.Prelude.{◌<◌};

use crate::book::{Book, Ruling, Took, Way};
use crate::catch_ups::CatchUps;
use crate::mirror::Mirror;
use crate::outlines::{Outline, outline_of, text_by};
use crate::pairs::Closed;
use crate::tally::Tally;
use crate::walking::{offer_fault, take_text};
use exchange::{Bounds, Exchange, Report, Stop, Verdict};
use plain_model::messages::{PlainAnswer, PlainOffer, answer_bytes, read_answer};
use plain_model::patches::{patch_as_answer, patch_bytes};
use plain_model::plain::{Fault, KEYS, LONG, PlainEntry, PlainVersion, key_bytes};
use plain_model::random::Random;
use plain_model::trees::Tree;
use plain_model::trouble::{Trouble, expect};
use plain_model::walks::{Offering, Walk};
use range_journal::Source;
use std::alloc::Global;
use std::sync::Arc;
use sync_session::SessionState;
use tree_nodes::{Digest, NodeAt, Text, hash};
use vclock::Refusal;
use walk_messages::Offer;

/// The seat of all versions that are taken.
const SEAT: u16 = 5;

/// The number of random events of an exchange.
const EVENTS: u64 = 60;

/// More asks than an exchange needs to end after them.
const LAST_ASKS: u64 = 200;

/// The text of each node of a partner that forges.
const JUNK: &[u8] = b"\x01bc";

/// The maximum length of most outlines, in bytes.
const ROOM: usize = 4_096;

/// A partner's offer, and its tree, or `None` if it forges.
#[derive(Drop)]
struct Partner {
    at: u16,
    offer: Offer,
    tree: Option<Arc<Tree, Global>>,
}

/// An exchange, and its expected state.
struct Dialogue {
    exchange: Exchange,
    book: Book,
    /// The number of its session, if one was opened.
    session: Option<u64>,
    /// The nodes that were asked, once for each ask.
    sent: Vec<NodeAt>,
    /// True if it sends outlines.
    has_outlines: bool,
    outlines: Vec<Outline>,
    patches: Patches,
}

/// The number of texts that were taken from patches.
#[derive(Clone, Copy)]
pub(crate) struct Patches {
    pub(crate) of_inner: u64,
    pub(crate) of_leaves: u64,
}

/// Has a closed node take the versions that it is missing from another one, by an exchange with random events, and
/// compares all its results. Rarely the node is renewed alongside these events.
pub(crate) fn exchange_with(
    alloc: Global,
    random: &mut Random,
    here: &mut Closed,
    there: &mut Closed,
    tally: &mut Tally,
) -> Result<(), Trouble> {
    let mut catch_ups = CatchUps::draw(alloc, *random, here)?;
    feed(alloc, random, here, there)?;
    let partner = Partner::draw(alloc, random, &there.mirror)?;
    here.hold(alloc)?;
    if let Some(mut dialogue) = open(alloc, random, here, &partner)? {
        for _ in 0..EVENTS {
            dialogue.run_event(alloc, random, here, there, &partner)?;
            catch_ups.step(alloc, here, tally)?;
            dialogue.check(alloc, here)?;
        }
        dialogue.answer_rest(alloc, random, here, &partner)?;
        dialogue.check(alloc, here)?;
        let walk = walk_of(&here.mirror, dialogue.session);
        tally.count_exchange(dialogue.book.report(walk), dialogue.patches);
        dialogue.close(here);
        dialogue.check(alloc, here)?;
    }
    catch_ups.end(alloc, here, tally)?;
    here.check(alloc)
}

impl Partner {
    /// Draws a partner with the rows of a node. Rarely it forges, or offers another range.
    fn draw(alloc: Global, random: &mut Random, mirror: &Mirror) -> Result<Partner, Trouble> {
        let plain = &mirror.plain;
        let tree = if random.once_in(20) {
            None
        } else {
            Some(Arc::new(alloc, Tree::new(alloc, plain)?)?)
        };
        let root = match &tree {
            Some(tree) => tree.root(),
            None => digest_of(alloc, JUNK)?,
        };
        let range = plain.part.number();
        let offer = Offer {
            offer: random.below(1_000) as u32,
            format: plain.format.number(),
            range: if random.once_in(40) { range ^ 1 } else { range },
            root,
        };
        Ok(Partner {
            at: mirror.number,
            offer,
            tree,
        })
    }

    /// Returns the text for a node.
    fn text(&self, alloc: Global, node: NodeAt) -> Result<Vec<u8>, Trouble> {
        match &self.tree {
            Some(tree) => tree.text(alloc, node),
            None => Ok(Vec::from_slice(alloc, JUNK)?),
        }
    }

    /// Returns the parts of the text for a node, and its digest.
    fn parts(&self, alloc: Global, node: NodeAt) -> Result<(Vec<Vec<u8>>, Digest), Trouble> {
        if let Some(tree) = &self.tree {
            let digest = tree.digest_at(node).unwrap_or([0; 32]);
            return Ok((tree.parts(alloc, node)?, digest));
        }
        let mut parts = Vec::new(alloc);
        parts.push(Vec::from_slice(alloc, &JUNK[1..])?)?;
        Ok((parts, self.offer.root))
    }

    /// Returns the true answer for a node, or the patch for an outline of it.
    fn answer(
        &self,
        alloc: Global,
        outline: Option<&[u8]>,
        node: NodeAt,
    ) -> Result<Vec<u8>, Trouble> {
        self.claim(alloc, outline, (self.offer.offer, node), node)
    }

    /// Returns an answer of an offer for a node, with another node's text or a patch that makes it.
    fn claim(
        &self,
        alloc: Global,
        outline: Option<&[u8]>,
        (offer, node): (u32, NodeAt),
        of: NodeAt,
    ) -> Result<Vec<u8>, Trouble> {
        if let Some(outline) = outline {
            let (parts, salt) = self.parts(alloc, of)?;
            return patch_bytes(alloc, outline, (offer, node), &salt, &parts);
        }
        let text = self.text(alloc, of)?;
        let text = text.as_slice();
        answer_bytes(alloc, PlainAnswer { offer, node, text })
    }

    /// Returns a false answer for a node, or a false patch. `other` is another node that was asked.
    fn lie(
        &self,
        alloc: Global,
        random: &mut Random,
        outline: Option<&[u8]>,
        node: NodeAt,
        other: NodeAt,
    ) -> Result<Vec<u8>, Trouble> {
        let offer = self.offer.offer;
        match random.below(6) {
            0 => self.answer(alloc, outline, draw_node(random).unwrap_or(node)),
            1 => self.claim(alloc, outline, (offer, node), other),
            2 => self.claim(alloc, outline, (offer.wrapping_add(1), node), node),
            3 => {
                let mut bytes = self.answer(alloc, outline, node)?;
                let count = random.below(1 + bytes.len() as u64);
                bytes.truncate(count as usize);
                Ok(bytes)
            }
            _ => {
                let mut bytes = self.answer(alloc, outline, node)?;
                let place = random.below(1 + bytes.len() as u64);
                let change = 1 + random.below(255);
                if let Some(byte) = bytes.get_mut(place as usize) {
                    *byte ^= change as u8;
                }
                Ok(bytes)
            }
        }
    }
}

/// Opens an exchange of a node with a partner. Returns `None` if it is refused, as expected.
fn open(
    alloc: Global,
    random: &mut Random,
    here: &mut Closed,
    partner: &Partner,
) -> Result<Option<Dialogue>, Trouble> {
    let bounds = draw_bounds(random);
    let offer = partner.offer;
    let own = Tree::new(alloc, &here.mirror.plain)?;
    let opened = here.range.open_exchange(alloc, partner.at, offer, bounds);
    let wanted = PlainOffer {
        number: offer.offer,
        format: offer.format,
        range: offer.range,
        root: offer.root,
    };
    match (opened, offer_fault(&here.mirror, &wanted, true)) {
        (Ok(exchange), None) => {
            let is_level = own.root() == offer.root;
            let end = if is_level {
                Some(Report::Finished)
            } else {
                None
            };
            let session = if is_level {
                None
            } else {
                Some(add_walk(alloc, &mut here.mirror, own, partner)?)
            };
            Ok(Some(Dialogue {
                exchange,
                book: Book::new(alloc, bounds, end),
                session,
                sent: Vec::new(alloc),
                has_outlines: random.once_in(2),
                outlines: Vec::new(alloc),
                patches: Patches {
                    of_inner: 0,
                    of_leaves: 0,
                },
            }))
        }
        (Err(refusal), Some(fault)) => {
            expect(fault.is(&refusal), "the refusal of an exchange")?;
            Ok(None)
        }
        _ => Err(Trouble::Differs("whether an exchange is opened")),
    }
}

/// Adds the session of an exchange to a mirror, and returns its number.
fn add_walk(
    alloc: Global,
    here: &mut Mirror,
    own: Tree,
    partner: &Partner,
) -> Result<u64, Trouble> {
    let offering = Offering {
        at: partner.at,
        root: partner.offer.root,
        forged: None,
    };
    let tree = match &partner.tree {
        Some(tree) => Some(Arc::try_clone(tree)?),
        None => None,
    };
    let walk = Walk::new(alloc, here.plain.format, own, offering)?;
    here.add_walk(walk, tree)?;
    match here.sessions.last() {
        Some(number) => Ok(*number),
        None => Err(Trouble::Differs("the number of sessions")),
    }
}

impl Dialogue {
    /// Does a random event, and compares its result.
    fn run_event(
        &mut self,
        alloc: Global,
        random: &mut Random,
        here: &mut Closed,
        there: &mut Closed,
        partner: &Partner,
    ) -> Result<(), Trouble> {
        match random.below(32) {
            0..=11 => self.ask(alloc, random, here),
            12..=19 => match self.draw_sent(random) {
                Some(node) => {
                    let outline = self.draw_outline(random, node);
                    let reply = partner.answer(alloc, outline, node)?;
                    self.take(alloc, here, &reply)
                }
                None => Ok(()),
            },
            20..=21 => match self.draw_sent(random) {
                Some(node) => {
                    let other = self.draw_sent(random).unwrap_or(node);
                    let outline = self.draw_outline(random, node);
                    let lie = partner.lie(alloc, random, outline, node, other)?;
                    self.take(alloc, here, &lie)
                }
                None => Ok(()),
            },
            22..=24 => match self.draw_sent(random).or_else(|| draw_node(random)) {
                Some(node) => self.lose(node),
                None => Ok(()),
            },
            25 => match self.draw_sent(random) {
                Some(node) => {
                    let outline = self.draw_outline(random, node);
                    let reply = partner.answer(alloc, outline, node)?;
                    self.take_elsewhere(alloc, there, &reply)
                }
                None => Ok(()),
            },
            26 => {
                self.exchange.go_on();
                self.book.go_on();
                Ok(())
            }
            27 => match self.draw_sent(random).or_else(|| draw_node(random)) {
                Some(node) => self.outline(alloc, random, here, node),
                None => Ok(()),
            },
            28..=29 => {
                let (key, version) = draw_copy(random);
                copy(alloc, here, key, version)
            }
            30 => {
                here.range.drop_ended_sessions();
                here.mirror.drop_ended_sessions(alloc)
            }
            _ => turn(alloc, random, here),
        }
    }

    /// Sends the next ask, if any, or an outline in its place.
    fn ask(&mut self, alloc: Global, random: &mut Random, here: &Closed) -> Result<(), Trouble> {
        let sent = here.range.next_ask(&mut self.exchange);
        expect(
            self.is_next(alloc, &here.mirror, sent)?,
            "the next ask of an exchange",
        )?;
        if let Some(node) = sent {
            self.sent.push(node)?;
            self.outline(alloc, random, here, node)?;
        }
        Ok(())
    }

    /// Sends the outline of a node, if the exchange sends outlines and one is due. Rarely the maximum length is small.
    fn outline(
        &mut self,
        alloc: Global,
        random: &mut Random,
        here: &Closed,
        node: NodeAt,
    ) -> Result<(), Trouble> {
        if !self.has_outlines {
            return Ok(());
        }
        let room = if random.once_in(8) {
            random.below(64) as usize
        } else {
            ROOM
        };
        let sent = here.range.outline(alloc, &mut self.exchange, node, room)?;
        match (sent, self.due_outline(alloc, &here.mirror, node, room)?) {
            (None, None) => Ok(()),
            (Some(text), Some(bytes)) => {
                expect(
                    text.as_slice() == bytes.as_slice(),
                    "the bytes of an outline",
                )?;
                self.book.outline(node);
                self.outlines.push(Outline { node, bytes })?;
                Ok(())
            }
            _ => Err(Trouble::Differs("whether an outline is sent")),
        }
    }

    /// Returns the bytes of the outline that the definitions send for a node, if any.
    fn due_outline(
        &self,
        alloc: Global,
        here: &Mirror,
        node: NodeAt,
        room: usize,
    ) -> Result<Option<Vec<u8>>, Trouble> {
        match walk_of(here, self.session) {
            Some(walk) if self.book.may_outline(node) => {
                outline_of(alloc, walk, self.exchange.offer_number(), node, room)
            }
            _ => Ok(None),
        }
    }

    /// Returns the outline that was sent for a node, if any.
    fn sent_outline(&self, node: NodeAt) -> Option<&[u8]> {
        for outline in &self.outlines {
            if outline.node == node {
                return Some(&outline.bytes);
            }
        }
        None
    }

    /// Draws whether the answer for a node is a patch, and returns its outline if so.
    fn draw_outline(&self, random: &mut Random, node: NodeAt) -> Option<&[u8]> {
        if random.once_in(4) {
            return None;
        }
        self.sent_outline(node)
    }

    /// Sends the next ask by the definitions. Returns true if it is for `sent`, or both are `None`.
    fn is_next(
        &mut self,
        alloc: Global,
        here: &Mirror,
        sent: Option<NodeAt>,
    ) -> Result<bool, Trouble> {
        let Some(walk) = walk_of(here, self.session) else {
            return Ok(sent.is_none());
        };
        let Some(node) = self.book.askable(&walk.outstanding) else {
            return Ok(sent.is_none());
        };
        let len = walk.own.text(alloc, node)?.len() as u64;
        let is_sent = self.book.send(node, walk.is_leaf(node).then_some(len))?;
        Ok(sent == is_sent.then_some(node))
    }

    /// Takes an answer.
    fn take(&mut self, alloc: Global, here: &mut Closed, bytes: &[u8]) -> Result<(), Trouble> {
        let verdict = here
            .range
            .take_answer(alloc, &mut self.exchange, SEAT, bytes);
        let ruling = self.rule(alloc, &mut here.mirror, bytes)?;
        expect(is_by(&verdict, ruling), "the verdict of an exchange")
    }

    /// Passes an answer to the exchange with the range of another node: the answer is late, and that range is
    /// unchanged.
    fn take_elsewhere(
        &mut self,
        alloc: Global,
        there: &mut Closed,
        bytes: &[u8],
    ) -> Result<(), Trouble> {
        let verdict = there
            .range
            .take_answer(alloc, &mut self.exchange, SEAT, bytes);
        expect(
            is_by(&verdict, Ruling::Late),
            "the verdict with another range",
        )
    }

    /// Counts an ask as lost.
    fn lose(&mut self, node: NodeAt) -> Result<(), Trouble> {
        self.exchange.lose(node);
        self.book.lose(node)
    }

    /// Takes an answer by the definitions.
    fn rule(&mut self, alloc: Global, here: &mut Mirror, bytes: &[u8]) -> Result<Ruling, Trouble> {
        let Some(id) = place_of(here, self.session) else {
            return Ok(Ruling::Late);
        };
        if self.book.is_over() {
            return Ok(Ruling::Late);
        }
        if let Some(patch) = patch_as_answer(alloc, bytes)? {
            return self.rule_patch(alloc, here, id, &patch);
        }
        let Some(answer) = read_answer(bytes) else {
            return Ok(self.book.count_bad(Fault::BadMessage));
        };
        if answer.offer != self.exchange.offer_number() {
            return Ok(Ruling::Late);
        }
        match self.book.way(answer.node) {
            None => Ok(self.book.count_bad(Fault::NotAsked)),
            Some(Way::Left | Way::Settled) => Ok(Ruling::Late),
            Some(Way::Open(_) | Way::Outlined(_) | Way::Lost) => {
                self.rule_text(alloc, here, id, answer)
            }
        }
    }

    /// Takes a patch, which has the kind of an answer here, by the definitions.
    fn rule_patch(
        &mut self,
        alloc: Global,
        here: &mut Mirror,
        id: usize,
        bytes: &[u8],
    ) -> Result<Ruling, Trouble> {
        let (Some(walk), Some(patch)) = (here.walks.get(id), read_answer(bytes)) else {
            return Err(Trouble::Differs("a patch"));
        };
        let PlainAnswer { offer, node, .. } = patch;
        if offer != self.exchange.offer_number() || !self.book.awaits_patch(node) {
            return Ok(Ruling::Late);
        }
        let Some(text) = text_by(alloc, walk, patch)? else {
            self.book.miss_outline(node)?;
            return Ok(Ruling::Late);
        };
        let is_leaf = walk.is_leaf(node);
        let text = text.as_slice();
        let ruling = self.rule_text(alloc, here, id, PlainAnswer { offer, node, text })?;
        if let Ruling::Taken(_) = ruling {
            self.patches.count(is_leaf);
        }
        Ok(ruling)
    }

    /// Takes the text for a node by the definitions.
    fn rule_text(
        &mut self,
        alloc: Global,
        here: &mut Mirror,
        id: usize,
        answer: PlainAnswer<'_>,
    ) -> Result<Ruling, Trouble> {
        let PlainAnswer { offer, node, text } = answer;
        let len = text.len() as u64;
        match take_text(alloc, here, id, SEAT, PlainAnswer { offer, node, text })? {
            Ok((accepted, known)) => {
                let Some(walk) = here.walks.get(id) else {
                    return Err(Trouble::Differs("the number of sessions"));
                };
                let (state, leaf_len) = (walk.state, walk.is_leaf(node).then_some(len));
                let took = Took {
                    accepted,
                    known,
                    state,
                };
                self.book.take(node, leaf_len, took)
            }
            Err(fault) => self.book.refuse(node, fault),
        }
    }

    /// Answers each ask truly, those in progress first, until no more are sent.
    fn answer_rest(
        &mut self,
        alloc: Global,
        random: &mut Random,
        here: &mut Closed,
        partner: &Partner,
    ) -> Result<(), Trouble> {
        for place in 0..self.sent.len() {
            if let Some(node) = self.sent.get(place).copied() {
                self.take_true(alloc, here, partner, node)?;
            }
        }
        for _ in 0..LAST_ASKS {
            let before = self.sent.len();
            self.ask(alloc, random, here)?;
            match self.sent.get(before).copied() {
                Some(node) => self.take_true(alloc, here, partner, node)?,
                None => return Ok(()),
            }
        }
        Err(Trouble::Differs("the end of the asks of an exchange"))
    }

    /// Takes the true answer for a node, or the patch if its ask is in progress as an outline.
    fn take_true(
        &mut self,
        alloc: Global,
        here: &mut Closed,
        partner: &Partner,
        node: NodeAt,
    ) -> Result<(), Trouble> {
        let outline = if self.book.awaits_patch(node) {
            self.sent_outline(node)
        } else {
            None
        };
        let reply = partner.answer(alloc, outline, node)?;
        self.take(alloc, here, &reply)
    }

    /// Closes the exchange.
    fn close(&mut self, here: &mut Closed) {
        here.range.close_exchange(&mut self.exchange);
        if let Some(id) = place_of(&here.mirror, self.session)
            && !self.book.has_ended()
            && let Some(walk) = here.mirror.walks.get_mut(id)
        {
            walk.end(SessionState::Cancelled);
        }
        self.book.close();
    }

    /// Compares the results of the exchange.
    fn check(&self, alloc: Global, here: &Closed) -> Result<(), Trouble> {
        let walk = walk_of(&here.mirror, self.session);
        let same = self.exchange.tally() == self.book.tally;
        expect(same, "the counts of an exchange")?;
        let in_flight = (self.exchange.in_flight(), self.exchange.bytes_in_flight());
        expect(in_flight == self.book.in_flight(), "the asks on their way")?;
        let report = here.range.report_of(&self.exchange);
        expect(report == self.book.report(walk), "how far an exchange is")?;
        let left = self.book.left(alloc, walk)?;
        for place in 0..left.len() + 1 {
            let node = here.range.left_at(&self.exchange, place);
            expect(
                node == left.get(place).copied(),
                "a leaf that an exchange left",
            )?;
        }
        Ok(())
    }

    /// Draws a node that was asked, if any.
    fn draw_sent(&self, random: &mut Random) -> Option<NodeAt> {
        let place = random.below(1 + self.sent.len() as u64);
        self.sent.get(place as usize).copied()
    }
}

impl Patches {
    /// Counts a text.
    fn count(&mut self, is_leaf: bool) {
        let count = if is_leaf {
            &mut self.of_leaves
        } else {
            &mut self.of_inner
        };
        *count = count.wrapping_add(1);
    }
}

impl Drop for Dialogue {
    /// Keeps the fields out of the proofs of callers that drop a dialogue.
    fn drop(self) {
        let Dialogue {
            exchange: _exchange,
            book: _book,
            session: _session,
            sent: _sent,
            has_outlines: _has_outlines,
            outlines: _outlines,
            patches: _patches,
        } = self;
    }
}

/// Has one or both of two nodes accept random versions as copies.
fn feed(
    alloc: Global,
    random: &mut Random,
    here: &mut Closed,
    there: &mut Closed,
) -> Result<(), Trouble> {
    for _ in 0..random.below(8) {
        let (key, version) = draw_copy(random);
        if !random.once_in(3) {
            copy(alloc, here, key, version)?;
        }
        if !random.once_in(3) {
            copy(alloc, there, key, version)?;
        }
    }
    Ok(())
}

/// Draws a key and a version for it, whose value is often long.
pub(crate) fn draw_copy(random: &mut Random) -> (u64, PlainVersion) {
    let (key, mut version) = (1 + random.below(KEYS - 1), random.version());
    if version.value.is_some() && random.once_in(2) {
        version.value = Some(LONG);
    }
    (key, version)
}

/// Has a node accept a version as a copy.
pub(crate) fn copy(
    alloc: Global,
    here: &mut Closed,
    key: u64,
    version: PlainVersion,
) -> Result<(), Trouble> {
    let wanted = here.mirror.plain.accept(key, &version);
    let sent = version.version(alloc)?;
    let reply = here.range.copy(alloc, SEAT, key_bytes(key), sent);
    let entry = PlainEntry {
        seat: SEAT,
        key,
        version,
        source: Source::Copy,
    };
    here.mirror.check_sent(entry, &reply, wanted)
}

/// Rarely renews or migrates the range of a node.
fn turn(alloc: Global, random: &mut Random, here: &mut Closed) -> Result<(), Trouble> {
    match random.below(12) {
        0 => {
            let limit = random.limit(4);
            let wanted = here.mirror.plain.renewal_fault(alloc, limit)?;
            match (here.range.renew(alloc, SEAT, limit), wanted) {
                (Ok(()), None) => here.mirror.renew(alloc, SEAT, limit),
                (Err(refusal), Some(fault)) => {
                    expect(fault.is(&refusal), "the refusal of a renewal")
                }
                _ => Err(Trouble::Differs("whether a range is renewed")),
            }
        }
        1 => {
            here.range.migrate(alloc)?;
            here.mirror.migrate();
            Ok(())
        }
        _ => Ok(()),
    }
}

/// Draws the bounds of an exchange: small ones half of the time.
fn draw_bounds(random: &mut Random) -> Bounds {
    if random.once_in(2) {
        return Bounds {
            asks: 64,
            bytes: 1_000_000,
            bad: 100,
            lost: 100,
        };
    }
    Bounds {
        asks: random.below(24) as u32,
        bytes: random.below(3_000),
        bad: random.below(6) as u32,
        lost: random.below(12) as u32,
    }
}

/// Draws a node of a tree of some format.
fn draw_node(random: &mut Random) -> Option<NodeAt> {
    let depth = random.below(4) as u8;
    NodeAt::new(depth, random.below(1 << (4 * u64::from(depth))) as u16)
}

/// Returns the place of a session among a node's sessions, if it is one of them.
fn place_of(here: &Mirror, session: Option<u64>) -> Option<usize> {
    let session = session?;
    here.sessions.iter().position(|number| *number == session)
}

/// Returns the walk of a session, if a node has it.
fn walk_of(here: &Mirror, session: Option<u64>) -> Option<&Walk> {
    here.walks.get(place_of(here, session)?)
}

/// Returns true if a verdict agrees with the definitions.
fn is_by(verdict: &Verdict, ruling: Ruling) -> bool {
    match (verdict, ruling) {
        (Verdict::Taken(taken), Ruling::Taken(took)) => {
            taken.receipts.len() as u64 == took.accepted
                && taken.known == took.known
                && taken.state == took.state
        }
        (Verdict::Bad(refusal), Ruling::Bad(fault)) => fault.is(refusal),
        (Verdict::Left, Ruling::Left)
        | (Verdict::Late, Ruling::Late)
        | (Verdict::Refused(Stop::JournalFull), Ruling::Refused)
        | (Verdict::Failed, Ruling::Failed) => true,
        _ => false,
    }
}

/// Returns the digest of a text.
fn digest_of(alloc: Global, text: &[u8]) -> Result<Digest, Refusal> {
    Ok(hash(Text::copy_of(alloc, text)?).digest())
}
