//! Exchanges.
use crate::core_calls::moments::held_range;
use crate::core_calls::snapshots::Snapshots;
use crate::lines::{show, unchanged};
use exchange::{Bounds, DryExchange, Exchange, Report, Stop, Verdict};
use snapshot::Snapshot;
use std::alloc::Global;
use std::io;
use std::sync::Arc;
use std::thread::Threads;
use text_patch::{outline, outline_parts, parts_of, patch, patch_parts, rebuild};
use tree_nodes::{NodeAt, Text};
use vclock::Refusal;
use walk_messages::{Answer, Ask, Message, encode};

/// Bounds that nothing here reaches.
const BOUNDS: Bounds = Bounds {
    asks: 16,
    bytes: 100_000,
    bad: 0,
    lost: 0,
};

/// More asks than an exchange here sends.
const ASKS: u64 = 8;

/// Shows the calls of exchanges.
pub(crate) fn show_all<R: Print + AllocGlobal + Threads + Sync>(
    rt: &R,
    both: &Snapshots,
) -> io::Result<()> {
    let (alloc, partner) = (rt.alloc(), &both.partner);
    show(rt, "Exchange::open", open(rt, alloc, partner))?;
    show(rt, "Exchange::take", take(rt, alloc, partner))?;
    show(
        rt,
        "DryExchange::open and DryExchange::take",
        take_dry(alloc, both),
    )?;
    show(
        rt,
        "parts_of, outline, patch and rebuild",
        take_patch(alloc, both),
    )
}

/// Opens an exchange, and returns the number of the range's sessions.
fn open(rt: &(impl Threads + Sync), alloc: Global, partner: &Snapshot) -> Result<u64, Refusal> {
    let mut state = held_range(rt, alloc)?;
    match Exchange::open(alloc, &mut state, 2, partner.offer(1), BOUNDS) {
        Ok(_exchange) => Ok(state.records().len() as u64),
        Err(refusal) => Err(unchanged(refusal, Ok(state.records().is_empty()))),
    }
}

/// Takes all versions of a partner, and returns the number of versions accepted. If the memory for an answer is
/// refused, the range is unchanged and the asks stop.
fn take(rt: &(impl Threads + Sync), alloc: Global, partner: &Snapshot) -> Result<u64, Refusal> {
    let mut state = held_range(rt, alloc)?;
    let mut exchange = Exchange::open(alloc, &mut state, 2, partner.offer(1), BOUNDS)?;
    for _ask in 0..ASKS {
        let Some(ask) = exchange.next(&state) else {
            break;
        };
        let answer = answer(alloc, partner, ask)?;
        let entries = state.journal().len();
        if let Verdict::Refused(Stop::NoMemory) = exchange.take(alloc, &mut state, 0, &answer) {
            let is_stopped = exchange.report(&state) == Report::Stopped(Stop::NoMemory);
            let is_as_it_was = is_stopped && state.journal().len() == entries;
            return Err(unchanged(Refusal::NoMemory, Ok(is_as_it_was)));
        }
    }
    Ok(exchange.tally().accepted)
}

/// Sees all versions of a partner in a dry exchange, and returns the number of asks.
fn take_dry(alloc: Global, both: &Snapshots) -> Result<u64, Refusal> {
    let (own, partner) = (Arc::try_clone(&both.own)?, &both.partner);
    let mut exchange = DryExchange::open(alloc, own, partner.offer(1), BOUNDS)?;
    for _ask in 0..ASKS {
        let Some(ask) = exchange.next() else {
            break;
        };
        let answer = answer(alloc, partner, ask)?;
        if let Verdict::Refused(Stop::NoMemory) = exchange.take(alloc, &answer).verdict {
            let is_stopped = exchange.report() == Report::Stopped(Stop::NoMemory);
            return Err(unchanged(Refusal::NoMemory, Ok(is_stopped)));
        }
    }
    Ok(exchange.tally().asks)
}

/// Makes the outline of the root, the partner's patch for it, and the text from the patch. Returns the length of the
/// text.
fn take_patch(alloc: Global, both: &Snapshots) -> Result<u64, Refusal> {
    let ask = Ask {
        offer: 1,
        node: NodeAt::root(),
    };
    let parts = parts_of(alloc, &both.own, ask.node)?;
    let outline = outline(alloc, ask, &both.partner.root(), 3, &parts)?;
    let Some((ask, marks)) = outline_parts(alloc, &outline) else {
        return Err(Refusal::BadMessage);
    };
    let patch = patch(alloc, &both.partner, ask, &marks)?;
    let Some((ask, steps)) = patch_parts(alloc, &patch) else {
        return Err(Refusal::BadMessage);
    };
    let text = rebuild(alloc, &both.own, ask.node, steps)?;
    Ok(text.as_slice().len() as u64)
}

/// Returns a partner's answer to an ask, as bytes.
fn answer(alloc: Global, partner: &Snapshot, ask: Ask) -> Result<Vec<u8>, Refusal> {
    let (offer, node) = (ask.offer, ask.node);
    let text = Text::from(partner.answer(alloc, ask)?);
    encode(alloc, &Message::Answer(Answer { offer, node, text }))
}
