//! Outlines and patches, byte by byte: the worked example of docs/FORMATS.md, which `patches.py` computes.
ghost use Rattle.std.specs.Prelude.{◌≤◌};

use crate::calls::{hold_moment, new_range, put};
use exchange::{Bounds, Exchange, Report};
use range_state::{AnswerTaken, RangeState};
use snapshot::Snapshot;
use std::alloc::Global;
use std::sync::Arc;
use std::test::Fail;
use sync_session::SessionState;
use test_values::calls::node_at;
use test_values::checks::expect;
use test_values::refusals::expect_refused;
use text_patch::{outline, outline_parts, parts_of, patch, patch_parts, rebuild};
use tree_nodes::{Digest, NodeAt, Text, hash};
use vclock::Refusal;
use walk_messages::{Answer, Ask, Message, encode};

/// The digest of the partner's leaf 12.
const EXPECTED: &Digest = b"\xc1\x22\xdd\x9d\xc3\xe8\x07\x33\xea\x9e\xf3\x3c\x7f\x4b\x6d\x61\
    \xc5\xe0\xe8\x28\xf6\xa3\xec\xe1\x01\x6e\x14\xc3\x40\xf9\x45\xad";

/// The outline of leaf 12 of an asker that holds `a` and `c218`.
const OUTLINE: &[u8] =
    b"\x04\x00\x00\x00\x01\x02\x00\x0c\x03\x00\x00\x00\x02\xaf\xc2\x6c\xe9\x8b\xd7";

/// The patch of a partner that also holds `b871`.
const PATCH: &[u8] = b"\x05\x00\x00\x00\x01\x02\x00\x0c\x00\x00\x00\x00\x00\x00\x00\x2f\
    \x00\x00\x00\x00\x00\x00\x00\x00\x01\
    \x01\x00\x00\x00\x18\x00\x04b871\x00\x01\x01\x00\x02\x00\x00\x00\x00\x00\x00\x00\x01\x00\x00\x00\x01x\
    \x00\x00\x00\x00\x01\x00\x00\x00\x01";

/// Bounds that nothing here reaches.
const WIDE: Bounds = Bounds {
    asks: 64,
    bytes: 1_000_000,
    bad: 8,
    lost: 8,
};

/// The maximum length of an outline, in bytes.
const ROOM: usize = 1_000;

/// A key, and the node at which it is put, 1 to 65,535.
type Put<'a> = (&'a [u8], u16);

/// Makes a range of format 1 that holds one value of some keys.
fn range_of(alloc: Global, value: &[u8], puts: &[Put<'_>]) -> Result<RangeState, Fail> {
    let mut state = new_range(alloc, 1, 1_000)?;
    for (key, node) in puts {
        put(alloc, &mut state, (*node).max(1), &[], key, value)?;
    }
    Ok(state)
}

/// Returns the current rows of a range as a whole moment.
fn moment(alloc: Global, state: &mut RangeState) -> Result<Arc<Snapshot, Global>, Fail> {
    hold_moment(alloc, state)?;
    for _portion in 0..1_000 {
        if state.hash_moment(alloc, 1_000)? == 0 {
            break;
        }
    }
    Ok(state.moment(alloc)?)
}

#[test]
fn an_outline_and_its_patch_have_their_bytes(rt: HostRuntime) -> Result<(), Fail> {
    let alloc = rt.alloc();
    let asker = moment(
        alloc,
        &mut range_of(alloc, b"x", &[(b"a", 1), (b"c218", 1)])?,
    )?;
    let puts = [(b"a".as_slice(), 1), (b"b871", 2), (b"c218", 1)];
    let partner = moment(alloc, &mut range_of(alloc, b"x", &puts)?)?;
    let node = node_at(2, 12)?;
    let ask = Ask { offer: 1, node };
    let parts = parts_of(alloc, &asker, node)?;
    let outline = outline(alloc, ask, EXPECTED, 3, &parts)?;
    expect(outline.as_slice() == OUTLINE, "the outline has its bytes")?;
    let Some((read, marks)) = outline_parts(alloc, OUTLINE) else {
        return Err("it is no outline")?;
    };
    let patch = patch(alloc, &partner, read, &marks)?;
    expect(patch.as_slice() == PATCH, "the patch has its bytes")?;
    let Some((_, steps)) = patch_parts(alloc, PATCH) else {
        return Err("it is no patch")?;
    };
    let text = rebuild(alloc, &asker, node, steps)?;
    expect(
        text.as_slice() == partner.answer(alloc, ask)?.as_slice(),
        "it makes the partner's text",
    )
}

/// A session of a range with a partner's rows, which the range outlines node by node, without an exchange.
struct Walk {
    state: RangeState,
    partner: Arc<Snapshot, Global>,
    session: u64,
}

impl Walk {
    /// Opens a session of the range that holds `a` and `c218` with a partner that also holds `b871`.
    fn new(alloc: Global) -> Result<Walk, Fail> {
        let mut state = range_of(alloc, b"x", &[(b"a", 1), (b"c218", 1)])?;
        let puts = [(b"a".as_slice(), 1), (b"b871", 2), (b"c218", 1)];
        let partner = moment(alloc, &mut range_of(alloc, b"x", &puts)?)?;
        moment(alloc, &mut state)?;
        let session = state.open_session_at_moment(alloc, 2, partner.offer(1))?;
        Ok(Walk {
            state,
            partner,
            session,
        })
    }

    /// Returns the partner's patch for the outline of a node.
    fn patch_for(&self, alloc: Global, node: NodeAt) -> Result<Vec<u8>, Fail> {
        let outline = self.state.outline(alloc, self.session, node, 1, 3)?;
        let Some((ask, marks)) = outline_parts(alloc, outline.as_slice()) else {
            return Err("it is no outline")?;
        };
        Ok(patch(alloc, &self.partner, ask, &marks)?)
    }

    /// Takes the text made by a patch.
    fn take(&mut self, alloc: Global, bytes: &[u8]) -> Result<AnswerTaken, Fail> {
        let Some((ask, steps)) = patch_parts(alloc, bytes) else {
            return Err("it is no patch")?;
        };
        let text = self.state.patched(alloc, self.session, ask.node, steps)?;
        Ok(
            self.state
                .take_answer(alloc, 0, self.session, ask.node, hash(text))?,
        )
    }
}

impl Drop for Walk {
    fn drop(self) {
        let Walk {
            state: _state,
            partner: _partner,
            session: _session,
        } = self;
    }
}

#[test]
fn a_session_goes_on_by_patches(rt: HostRuntime) -> Result<(), Fail> {
    let alloc = rt.alloc();
    let mut walk = Walk::new(alloc)?;
    for place in [(0, 0), (1, 0)] {
        let node = node_at(place.0, place.1)?;
        let patch = walk.patch_for(alloc, node)?;
        walk.take(alloc, &patch)?;
    }
    let leaf = node_at(2, 12)?;
    let outline = walk.state.outline(alloc, walk.session, leaf, 1, 3)?;
    expect(
        outline.as_slice() == OUTLINE,
        "the leaf's outline has its bytes",
    )?;
    let taken = walk.take(alloc, PATCH)?;
    expect(
        taken.state == SessionState::Finished && taken.receipts.len() == 1 && taken.known == 2,
        "the patch of the leaf brings one version",
    )
}

#[test]
fn a_patch_that_lies_is_refused(rt: HostRuntime) -> Result<(), Fail> {
    let alloc = rt.alloc();
    let mut walk = Walk::new(alloc)?;
    let (session, root) = (walk.session, NodeAt::root());
    let patch = walk.patch_for(alloc, root)?;
    let lie = changed(alloc, &patch)?;
    let Some((_, steps)) = patch_parts(alloc, &lie) else {
        return Err("it is no patch")?;
    };
    let text = hash(walk.state.patched(alloc, session, root, steps)?);
    let said = walk.state.take_answer(alloc, 0, session, root, text);
    expect_refused(said, Refusal::WrongDigest, "a lie is refused")?;
    let said = walk.state.patched(alloc, session, root, &[2]);
    expect_refused(said, Refusal::BadMessage, "there is no such step")?;
    walk.take(alloc, &patch)?;
    Ok(())
}

#[test]
fn outlines_and_patches_are_for_outstanding_nodes(rt: HostRuntime) -> Result<(), Fail> {
    let alloc = rt.alloc();
    let walk = Walk::new(alloc)?;
    let (state, session) = (&walk.state, walk.session);
    let (root, leaf) = (NodeAt::root(), node_at(2, 12)?);
    for width in [0, 9] {
        let said = state.outline(alloc, 9, leaf, 1, width);
        expect_refused(said, Refusal::BadMessage, "no such width")?;
    }
    let said = state.outline(alloc, 9, leaf, 1, 8);
    expect_refused(said, Refusal::UnknownSession, "no such session")?;
    let said = state.outline(alloc, session, leaf, 1, 8);
    expect_refused(said, Refusal::NotAsked, "the leaf isn't asked")?;
    state.outline(alloc, session, root, 1, 8)?;
    let said = state.patched(alloc, 9, leaf, &[2]);
    expect_refused(said, Refusal::UnknownSession, "no such session")?;
    let said = state.patched(alloc, session, leaf, &[2]);
    expect_refused(said, Refusal::NotAsked, "the leaf isn't asked")
}

#[test]
fn bytes_cut_off_are_no_outline_and_no_patch(rt: HostRuntime) -> Result<(), Fail> {
    let alloc = rt.alloc();
    for len in 0..OUTLINE.len() {
        expect(
            outline_parts(alloc, &OUTLINE[..len]).is_none(),
            "no outline",
        )?;
    }
    for len in 0..PATCH.len() {
        expect(patch_parts(alloc, &PATCH[..len]).is_none(), "no patch")?;
    }
    expect(
        outline_parts(alloc, PATCH).is_none() && patch_parts(alloc, OUTLINE).is_none(),
        "one isn't the other",
    )
}

/// An exchange of a range with the rows of another one, by outlines.
#[derive(Drop)]
struct Pair {
    state: RangeState,
    partner: Arc<Snapshot, Global>,
    exchange: Exchange,
    /// The number of outlines that were sent.
    outlines: u32,
}

impl Pair {
    /// Makes an exchange of two ranges of format 1 that hold values of 300 bytes.
    fn new(alloc: Global, own: &[Put<'_>], others: &[Put<'_>]) -> Result<Pair, Fail> {
        let mut state = range_of(alloc, &[b'x'; 300], own)?;
        let partner = moment(alloc, &mut range_of(alloc, &[b'x'; 300], others)?)?;
        moment(alloc, &mut state)?;
        let exchange = Exchange::open(alloc, &mut state, 2, partner.offer(7), WIDE)?;
        Ok(Pair {
            state,
            partner,
            exchange,
            outlines: 0,
        })
    }

    /// Returns the message of the next ask: an outline, if the exchange makes one.
    fn message(&mut self, alloc: Global, ask: Ask) -> Result<Vec<u8>, Fail> {
        match self.exchange.outline(alloc, &self.state, ask.node, ROOM)? {
            Some(outline) => {
                self.outlines = self.outlines.saturating_add(1);
                Ok(Vec::from_slice(alloc, outline.as_slice())?)
            }
            None => Ok(encode(alloc, &Message::Ask(ask))?),
        }
    }

    /// Sends an ask, and takes the answer. A patch is changed if the partner `lies`, and lost if it `is_old`.
    fn send(&mut self, alloc: Global, ask: Ask, lies: bool, is_old: bool) -> Result<(), Fail> {
        let message = self.message(alloc, ask)?;
        let answer = answer_to(alloc, &self.partner, ask, &message)?;
        let is_patch = patch_parts(alloc, &answer).is_some();
        if is_patch && is_old {
            self.exchange.lose(ask.node);
        } else if is_patch && lies {
            self.take(alloc, &changed(alloc, &answer)?);
        } else {
            self.take(alloc, &answer);
        }
        Ok(())
    }

    /// Takes an answer.
    fn take(&mut self, alloc: Global, answer: &[u8]) {
        self.exchange.take(alloc, &mut self.state, 0, answer);
    }

    /// Sends asks until the exchange has no more.
    fn run(&mut self, alloc: Global, lies: bool, is_old: bool) -> Result<Report, Fail> {
        for _ in 0..1_000 {
            let Some(ask) = self.exchange.next(&self.state) else {
                return Ok(self.exchange.report(&self.state));
            };
            self.send(alloc, ask, lies, is_old)?;
        }
        Err("there is no end of asks")?
    }
}

/// Returns a partner's answer to the message of an ask, or its patch.
fn answer_to(alloc: Global, partner: &Snapshot, ask: Ask, message: &[u8]) -> Result<Vec<u8>, Fail> {
    if let Some((ask, marks)) = outline_parts(alloc, message) {
        return Ok(patch(alloc, partner, ask, &marks)?);
    }
    let text = Text::from(partner.answer(alloc, ask)?);
    let Ask { offer, node } = ask;
    Ok(encode(alloc, &Message::Answer(Answer { offer, node, text }))?)
}

/// Returns the bytes with the last one changed.
fn changed(alloc: Global, bytes: &[u8]) -> Result<Vec<u8>, Fail> {
    let mut other = Vec::from_slice(alloc, bytes)?;
    let last = other.pop().ok_or("there are no bytes")?;
    other.push(last ^ 1)?;
    Ok(other)
}

/// Keys that are in different leaves of format 1.
const KEYS: [&[u8]; 5] = [b"a", b"b", b"c", b"d", b"e"];

/// Returns the exchange of two ranges that hold different versions of five keys.
fn five(alloc: Global) -> Result<Pair, Fail> {
    Pair::new(alloc, &KEYS.map(|key| (key, 1)), &KEYS.map(|key| (key, 2)))
}

#[test]
fn a_patch_is_taken(rt: HostRuntime) -> Result<(), Fail> {
    let alloc = rt.alloc();
    let mut pair = Pair::new(alloc, &[(b"a", 1)], &[(b"a", 1), (b"b871", 2)])?;
    let report = pair.run(alloc, false, false)?;
    expect(
        report == Report::Finished && pair.outlines >= 1,
        "it is finished by a patch",
    )?;
    let tally = pair.exchange.tally();
    expect(
        tally.accepted == 1 && tally.known == 1 && tally.bad == 0 && tally.lost == 0,
        "one version was new",
    )
}

#[test]
fn patches_that_lie_count_as_nothing(rt: HostRuntime) -> Result<(), Fail> {
    let alloc = rt.alloc();
    let mut pair = five(alloc)?;
    expect(
        pair.run(alloc, true, false)? == Report::Finished,
        "each node is asked plainly",
    )?;
    let tally = pair.exchange.tally();
    expect(
        tally.accepted == 5 && tally.bad == 0 && tally.lost == 0 && pair.outlines == 3,
        "after three lies no outline is sent",
    )
}

#[test]
fn a_partner_without_outlines_is_asked_plainly(rt: HostRuntime) -> Result<(), Fail> {
    let alloc = rt.alloc();
    let mut pair = five(alloc)?;
    expect(
        pair.run(alloc, false, true)? == Report::Finished,
        "each node is asked plainly",
    )?;
    let tally = pair.exchange.tally();
    expect(
        tally.lost == 0 && pair.outlines == 3,
        "after three in a row no outline is sent",
    )
}
