//! Closed nodes, and pairs of them that take from each other or are reconciled.

use crate::exchanges::exchange_with;
use crate::mirror::Mirror;
use crate::ranges::{Range, reconcile_ranges};
use crate::tally::Tally;
use plain_model::plain::{Fault, KEYS};
use plain_model::random::Random;
use plain_model::trees::{Tree, differing, leaf_depth, width};
use plain_model::trouble::{Trouble, expect};
use plain_model::walks::{Offering, Sent, Walk};
use range_state::Reconciled;
use std::alloc::Global;
use std::sync::Arc;
use sync_session::SessionState;
use tree_nodes::NodeAt;
use vclock::Refusal;

/// The seat of all versions that are taken in a reconciliation.
const SEAT: u16 = 5;

/// A closed node: its range and its mirror.
#[derive(Drop)]
pub(crate) struct Closed {
    pub(crate) range: Range,
    pub(crate) mirror: Mirror,
}

/// The outcome of a whole session: the numbers of nodes asked and of versions accepted.
#[derive(Clone, Copy)]
struct CaughtUp {
    asked: u64,
    accepted: u64,
}

impl Closed {
    /// Compares all that the range has.
    pub(crate) fn check(&self, alloc: Global) -> Result<(), Trouble> {
        let Mirror {
            plain,
            walks,
            sessions,
            ..
        } = &self.mirror;
        for key in 0..KEYS {
            self.range.check_held(alloc, plain, key)?;
        }
        self.range.check_journal(plain)?;
        self.range.check_walks(walks, sessions)?;
        self.range.check_texts(walks)?;
        let tree = Tree::new(alloc, plain)?;
        for depth in 0..leaf_depth(plain.format) + 1 {
            self.check_digests(&tree, depth)?;
        }
        Ok(())
    }

    /// Holds the current rows as a moment, and hashes it.
    pub(crate) fn hold(&mut self, alloc: Global) -> Result<(), Refusal> {
        self.range.hold(alloc)?;
        let front = self.mirror.plain.entries.len();
        self.mirror.set_moment(Some(front));
        Ok(())
    }

    /// Compares the digests of the clean nodes of a depth.
    fn check_digests(&self, tree: &Tree, depth: u8) -> Result<(), Trouble> {
        for index in 0..width(depth) {
            if let Some(node) = NodeAt::new(depth, index)
                && let Some(digest) = self.range.digest_at(node)
            {
                expect(tree.digest_at(node) == Some(digest), "a digest")?;
            }
        }
        Ok(())
    }
}

/// All nodes, closed.
#[derive(Drop)]
pub(crate) struct AllClosed {
    pub(crate) one: Closed,
    pub(crate) two: Closed,
    pub(crate) three: Closed,
}

impl AllClosed {
    /// Compares all that the ranges have.
    pub(crate) fn check(&self, alloc: Global) -> Result<(), Trouble> {
        self.one.check(alloc)?;
        self.two.check(alloc)?;
        self.three.check(alloc)
    }

    /// Has each node take from the next one by an exchange, which is drawn by a seed and counted.
    pub(crate) fn exchange(
        &mut self,
        alloc: Global,
        seed: u64,
        tally: &mut Tally,
    ) -> Result<(), Trouble> {
        let mut random = Random::new(seed);
        exchange_with(alloc, &mut random, &mut self.one, &mut self.two, tally)?;
        exchange_with(alloc, &mut random, &mut self.two, &mut self.three, tally)?;
        exchange_with(alloc, &mut random, &mut self.three, &mut self.one, tally)
    }

    /// Reconciles each node with the next one.
    pub(crate) fn reconcile(&mut self, alloc: Global) -> Result<(), Trouble> {
        reconcile_both(alloc, &mut self.one, &mut self.two)?;
        reconcile_both(alloc, &mut self.two, &mut self.three)?;
        reconcile_both(alloc, &mut self.three, &mut self.one)
    }
}

/// Hashes two closed ranges of one format, reconciles them, and compares the result and both states. If nothing is
/// refused, both hold the same versions. Then drops the ended sessions of the first.
fn reconcile_both(alloc: Global, a: &mut Closed, b: &mut Closed) -> Result<(), Trouble> {
    if a.mirror.plain.format != b.mirror.plain.format {
        return Ok(());
    }
    a.range.rehash(alloc)?;
    b.range.rehash(alloc)?;
    let (at_a, at_b) = (a.mirror.number, b.mirror.number);
    let reply = reconcile_ranges(alloc, (&mut a.range, at_a), (&mut b.range, at_b), SEAT);
    let wanted = catch_up_both(alloc, &mut a.mirror, &mut b.mirror)?;
    check_reply(&reply, wanted)?;
    if wanted.is_ok() {
        check_equal(alloc, &a.mirror, &b.mirror)?;
    }
    a.check(alloc)?;
    b.check(alloc)?;
    drop_ended_sessions(alloc, a)
}

/// Drops the ended sessions of a closed range, and compares the result.
fn drop_ended_sessions(alloc: Global, closed: &mut Closed) -> Result<(), Trouble> {
    closed.range.drop_ended_sessions();
    closed.mirror.drop_ended_sessions(alloc)?;
    closed.check(alloc)
}

/// Compares the versions that two nodes hold.
pub(crate) fn check_equal(alloc: Global, a: &Mirror, b: &Mirror) -> Result<(), Trouble> {
    for key in 0..KEYS {
        let same = a.plain.held(alloc, key)? == b.plain.held(alloc, key)?;
        expect(same, "what both nodes hold")?;
    }
    Ok(())
}

/// Runs the plain program's two sessions, each on the rows that the other node had at the beginning. If the first is
/// refused, the second doesn't begin.
fn catch_up_both(
    alloc: Global,
    a: &mut Mirror,
    b: &mut Mirror,
) -> Result<Result<(CaughtUp, CaughtUp), Fault>, Trouble> {
    let (of_a, of_b) = (Tree::new(alloc, &a.plain)?, Tree::new(alloc, &b.plain)?);
    let first = match catch_up(alloc, a, of_b, b.number)? {
        Ok(first) => first,
        Err(fault) => return Ok(Err(fault)),
    };
    match catch_up(alloc, b, of_a, a.number)? {
        Ok(second) => Ok(Ok((first, second))),
        Err(fault) => Ok(Err(fault)),
    }
}

/// Runs a whole session of the plain program on a partner's rows. A refused leaf cancels the session, and the accepted
/// versions stay.
fn catch_up(
    alloc: Global,
    here: &mut Mirror,
    tree: Tree,
    at: u16,
) -> Result<Result<CaughtUp, Fault>, Trouble> {
    let before = here.plain.entries.len();
    let partner = Offering {
        at,
        root: tree.root(),
        forged: None,
    };
    let own = Tree::new(alloc, &here.plain)?;
    let mut walk = Walk::new(alloc, here.plain.format, own, partner)?;
    let asked = differing(alloc, &walk.own, &tree)?;
    let fault = take_all(alloc, here, &mut walk, &asked, &tree)?;
    expect(walk.asked == asked, "the nodes that a session asks")?;
    walk.end(SessionState::Cancelled);
    here.add_walk(walk, Some(Arc::new(alloc, tree)?))?;
    let accepted = here.plain.entries.len().saturating_sub(before) as u64;
    match fault {
        Some(fault) => Ok(Err(fault)),
        None => Ok(Ok(CaughtUp {
            asked: asked.len() as u64,
            accepted,
        })),
    }
}

/// Takes a partner's texts of some nodes, with the versions of the leaves, up to the first leaf that is refused.
/// Returns the reason of the refusal, if any.
fn take_all(
    alloc: Global,
    here: &mut Mirror,
    walk: &mut Walk,
    nodes: &[NodeAt],
    tree: &Tree,
) -> Result<Option<Fault>, Trouble> {
    for node in nodes {
        if walk.is_leaf(*node) {
            match here.plain.take_leaf(alloc, SEAT, tree, node.index)? {
                Ok(taken) => here.add_all(&taken.news)?,
                Err(fault) => return Ok(Some(fault)),
            }
        }
        let text = tree.text(alloc, *node)?;
        walk.take(Sent { node: *node, text })?;
    }
    Ok(None)
}

/// Compares the result.
fn check_reply(
    reply: &Result<Reconciled, Refusal>,
    wanted: Result<(CaughtUp, CaughtUp), Fault>,
) -> Result<(), Trouble> {
    match (reply, wanted) {
        (Ok(report), Ok((first, second))) => {
            let asked = (report.asked_a, report.asked_b) == (first.asked, second.asked);
            expect(asked, "the number of nodes that a pair asked")?;
            let accepted = (report.accepted_a, report.accepted_b)
                == (first.accepted, second.accepted);
            expect(accepted, "the number of versions that a pair accepted")
        }
        (Err(refusal), Err(fault)) => expect(fault.is(refusal), "the refusal of a pair"),
        _ => Err(Trouble::Differs("whether a pair is refused")),
    }
}
