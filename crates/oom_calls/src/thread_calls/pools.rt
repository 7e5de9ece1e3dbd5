//! Pools of offers.
use crate::lines::{show, unchanged};
use crate::thread_calls::partner::Partner;
use ring_node::OfferPool;
use std::alloc::Global;
use std::io;
use std::sync::{Arc, Wait};
use text_patch::Marks;
use tree_nodes::NodeAt;
use vclock::Refusal;
use walk_messages::Ask;

/// Shows the calls on a pool.
pub(crate) fn show_all<R: Print + AllocGlobal + Wait>(rt: &R, partner: &Partner) -> io::Result<()> {
    let alloc = rt.alloc();
    show(rt, "OfferPool::publish", publish(rt, alloc, partner))?;
    show(rt, "OfferPool::serve", serve(rt, alloc, partner))?;
    show(rt, "OfferPool::patch", patch(rt, alloc, partner))
}

/// Returns the ask for the root of an offer.
fn ask(offer: u32) -> Result<Ask, Refusal> {
    let node = NodeAt::new(0, 0).ok_or(Refusal::BadMessage)?;
    Ok(Ask { offer, node })
}

/// Publishes a snapshot until the pool has grown twice, and returns the number of the last offer.
fn publish<R: Wait>(rt: &R, alloc: Global, partner: &Partner) -> Result<u64, Refusal> {
    let pool = OfferPool::new(alloc);
    for count in 0..5u32 {
        if let Err(refusal) = pool.publish(rt, Arc::try_clone(&partner.snapshot)?) {
            let same = has(rt, alloc, &pool, partner, count);
            return Err(unchanged(refusal, same));
        }
    }
    Ok(u64::from(newest(rt, &pool)))
}

/// Returns the number of the newest offer, or 0.
fn newest<R: Wait>(rt: &R, pool: &OfferPool) -> u32 {
    match pool.latest(rt) {
        Some(offer) => offer.offer,
        None => 0,
    }
}

/// Returns true if a pool has exactly this number of offers, each of the partner's snapshot.
fn has<R: Wait>(
    rt: &R,
    alloc: Global,
    pool: &OfferPool,
    partner: &Partner,
    count: u32,
) -> Result<bool, Refusal> {
    let wanted = partner.snapshot.answer(alloc, ask(1)?)?;
    for number in 1..=count {
        let answer = pool.serve(rt, alloc, ask(number)?)?;
        if answer.offer != number || answer.text.as_slice() != wanted.as_slice() {
            return Ok(false);
        }
    }
    let next = pool.serve(rt, alloc, ask(count.saturating_add(1))?);
    let is_last = match pool.latest(rt) {
        Some(offer) => offer.offer == count && offer.root == partner.snapshot.root(),
        None => count == 0,
    };
    Ok(is_last && matches!(next, Err(Refusal::Gone)))
}

/// Asks for the root's text, and returns its length.
fn serve<R: Wait>(rt: &R, alloc: Global, partner: &Partner) -> Result<u64, Refusal> {
    match partner.first.serve(rt, alloc, ask(1)?) {
        Ok(answer) => Ok(answer.text.as_slice().len() as u64),
        Err(refusal) => {
            let same = has(rt, alloc, &partner.first, partner, 1);
            Err(unchanged(refusal, same))
        }
    }
}

/// Asks for the root's patch, for an asker without parts, and returns its length.
fn patch<R: Wait>(rt: &R, alloc: Global, partner: &Partner) -> Result<u64, Refusal> {
    let marks = Marks::new(3, 0, &[]).ok_or(Refusal::BadMessage)?;
    match partner.first.patch(rt, alloc, ask(1)?, &marks) {
        Ok(patch) => Ok(patch.as_slice().len() as u64),
        Err(refusal) => {
            let same = has(rt, alloc, &partner.first, partner, 1);
            Err(unchanged(refusal, same))
        }
    }
}
