//! A sync by messages, whose bytes stay in memory.
use range_state::{AnswerTaken, RangeState};
use snapshot::Snapshot;
use std::alloc::Global;
use sync_session::SessionState;
use tree_nodes::{NodeAt, Text, hash, tree_depth};
use vclock::{Format, Refusal};
use walk_messages::{Answer, Ask, Message, decode, encode};

/// The node that offers.
const PARTNER: u16 = 1;

/// The number of its offer.
const OFFER: u32 = 1;

/// The number of nodes of a tree of format 2, the larger one. No node is asked for twice.
const NODES: u64 = 4_369;

/// The result of a sync.
#[derive(Clone, Copy, Default, PartialEq, Eq)]
pub(crate) struct Walk {
    /// The number of nodes that were asked for.
    pub(crate) asked: u64,
    /// The number of new versions.
    pub(crate) accepted: u64,
    /// True if nothing was left to ask for.
    pub(crate) finished: bool,
}

impl Walk {
    /// Returns the result of a sync of one key: it asks for a node at each depth, from the root to a leaf.
    pub(crate) fn of_one_key(format: Format) -> Walk {
        Walk {
            asked: u64::from(tree_depth(format)) + 1,
            accepted: 1,
            finished: true,
        }
    }

    /// Counts an answer that was taken.
    fn count(&mut self, taken: &AnswerTaken) {
        self.asked = self.asked.saturating_add(1);
        self.accepted = self.accepted.saturating_add(taken.receipts.len() as u64);
        self.finished = taken.state == SessionState::Finished;
    }
}

/// Has a range take over the versions of a snapshot that the range is missing. Refused as the calls of a session are.
pub(crate) fn sync(
    alloc: Global,
    range: &mut RangeState,
    snapshot: &Snapshot,
) -> Result<Walk, Refusal> {
    let offer = encode(alloc, &Message::Offer(snapshot.offer(OFFER)))?;
    let id = start(alloc, range, &offer)?;
    let mut walk = Walk::default();
    for _ in 0..NODES {
        let Some(node) = range.outstanding(id)? else {
            break;
        };
        let ask = encode(alloc, &Message::Ask(Ask { offer: OFFER, node }))?;
        let answer = serve(alloc, snapshot, &ask)?;
        walk.count(&take(alloc, range, id, &answer)?);
    }
    Ok(walk)
}

/// Opens a session with the bytes of an offer, and returns its number. Refused: BadMessage, or as
/// [`RangeState::open_session`] is.
fn start(alloc: Global, range: &mut RangeState, bytes: &[u8]) -> Result<u64, Refusal> {
    match decode(alloc, bytes)? {
        Message::Offer(offer) => range.open_session(alloc, PARTNER, offer),
        Message::Ask(_) | Message::Answer(_) => Err(Refusal::BadMessage),
    }
}

/// Returns the bytes of the answer to the bytes of an ask. Refused: BadMessage, NoMemory.
fn serve(alloc: Global, snapshot: &Snapshot, bytes: &[u8]) -> Result<Vec<u8>, Refusal> {
    let message = decode(alloc, bytes)?;
    let Message::Ask(ask) = &message else {
        return Err(Refusal::BadMessage);
    };
    answer(alloc, snapshot, ask)
}

/// Returns the bytes of the answer to an ask. Refused: BadMessage, NoMemory.
fn answer(alloc: Global, snapshot: &Snapshot, ask: &Ask) -> Result<Vec<u8>, Refusal> {
    let Ask { offer, node } = *ask;
    let text = snapshot.answer(alloc, Ask { offer, node })?;
    let answer = Answer {
        offer,
        node,
        text: Text::from(text),
    };
    encode(alloc, &Message::Answer(answer))
}

/// Takes the bytes of an answer. Refused: BadMessage, or as [`RangeState::take_answer`] is.
fn take(
    alloc: Global,
    range: &mut RangeState,
    id: u64,
    bytes: &[u8],
) -> Result<AnswerTaken, Refusal> {
    match decode(alloc, bytes)? {
        Message::Answer(Answer { node, text, .. }) => {
            range.take_answer(alloc, 0, id, node, hash(text))
        }
        Message::Offer(_) | Message::Ask(_) => Err(Refusal::BadMessage),
    }
}
