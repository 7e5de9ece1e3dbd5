//! The partner of a sync.

use crate::failures::counted;
use crate::forger::Forger;
use crate::mirror::Mirror;
use crate::node::Node;
use plain_model::messages::{PlainAnswer, PlainOffer, answer_bytes, offer_bytes, read_ask};
use plain_model::trees::leaf_depth;
use plain_model::trouble::{Trouble, expect};
use ring_node::{Link, MemoryLink, Reached};
use std::alloc::Global;
use std::sync::Wait;
use std::sync::ledger::Ledger;
use vclock::Format;

/// A link to a node, or to a forger. The node's replies are compared with the plain program's. A node that is down
/// isn't reached.
#[derive(Drop)]
pub(crate) struct Partner<'a, M: Ledger> {
    alloc: Global,
    node: &'a Node<M>,
    link: MemoryLink<'a>,
    forger: Option<Forger>,
    failures: u64,
}

impl<'a, M: Ledger> Partner<'a, M> {
    /// Returns a link to a node, or to a forger.
    pub(crate) fn new(alloc: Global, node: &'a Node<M>, forger: Option<Forger>) -> Partner<'a, M> {
        Partner {
            alloc,
            node,
            link: MemoryLink::new(alloc, node.pool()),
            forger,
            failures: 0,
        }
    }
}

impl<'a, M: Ledger> Link for Partner<'a, M> {
    ghost failed = { λ p. p.failures };

    fn failures(&self) -> u64 {
        self.failures
    }

    fn offer<R: Wait>(&mut self, rt: &R) -> Reached {
        let reached = match &mut self.forger {
            Some(forger) => forger.offer(rt),
            None => offered(rt, self.alloc, self.node, &mut self.link),
        };
        counted(&mut self.failures, reached)
    }

    fn ask<R: Wait>(&mut self, rt: &R, message: &[u8]) -> Reached {
        let reached = match &mut self.forger {
            Some(forger) => forger.ask(rt, message),
            None => answered(rt, self.alloc, self.node, &mut self.link, message),
        };
        counted(&mut self.failures, reached)
    }
}

/// Fetches a node's newest offer, and compares it with the plain program's.
fn offered<M: Ledger, R: Wait>(
    rt: &R,
    alloc: Global,
    node: &Node<M>,
    link: &mut MemoryLink<'_>,
) -> Reached {
    let mut mirror = node.mirror().lock(rt);
    if mirror.is_down {
        return Reached::Lost;
    }
    let reached = link.offer(rt);
    let compared = check_offer(alloc, &mirror, &reached);
    mirror.note(compared);
    reached
}

/// Compares the offer that a node made.
fn check_offer(alloc: Global, mirror: &Mirror, reached: &Reached) -> Result<(), Trouble> {
    let Some(published) = mirror.published.last() else {
        return expect(matches!(reached, Reached::Gone), "the offer of a new node");
    };
    let offer = PlainOffer {
        number: mirror.newest,
        format: format_number(published.tree.format()),
        range: mirror.plain.part.number(),
        root: published.tree.root(),
    };
    let bytes = offer_bytes(alloc, &offer)?;
    expect(has_bytes(reached, &bytes), "an offer")
}

/// Asks a node, and compares its reply with the plain program's.
fn answered<M: Ledger, R: Wait>(
    rt: &R,
    alloc: Global,
    node: &Node<M>,
    link: &mut MemoryLink<'_>,
    message: &[u8],
) -> Reached {
    let mut mirror = node.mirror().lock(rt);
    if mirror.is_down {
        return Reached::Lost;
    }
    let reached = link.ask(rt, message);
    let compared = check_answer(alloc, &mirror, message, &reached);
    mirror.note(compared);
    reached
}

/// Compares a node's answer to an ask.
fn check_answer(
    alloc: Global,
    mirror: &Mirror,
    message: &[u8],
    reached: &Reached,
) -> Result<(), Trouble> {
    let Some((offer, node)) = read_ask(message) else {
        return expect(matches!(reached, Reached::Lost), "the answer to no ask");
    };
    let Some(tree) = mirror.kept(offer) else {
        return expect(
            matches!(reached, Reached::Gone),
            "the answer for an old offer",
        );
    };
    if node.depth > leaf_depth(tree.format()) {
        return expect(matches!(reached, Reached::Lost), "the answer for no node");
    }
    let text = tree.text(alloc, node)?;
    let answer = PlainAnswer {
        offer,
        node,
        text: &text,
    };
    let bytes = answer_bytes(alloc, answer)?;
    expect(has_bytes(reached, &bytes), "an answer")
}

/// Returns true if these bytes were reached.
fn has_bytes(reached: &Reached, bytes: &[u8]) -> bool {
    match reached {
        Reached::Bytes(others) => others.as_slice() == bytes,
        Reached::Lost | Reached::Gone => false,
    }
}

/// Returns the number of a format.
pub(crate) fn format_number(format: Format) -> u8 {
    match format {
        Format::One => 1,
        Format::Two => 2,
    }
}
