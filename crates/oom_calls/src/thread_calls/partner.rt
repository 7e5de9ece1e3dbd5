//! A partner with rows that the ranges don't have.
use crate::lines::show;
use crate::thread_calls::versions::version;
use range_journal::Source;
use range_state::{RangeConfig, RangeState};
use rehash::run_job;
use ring_node::OfferPool;
use snapshot::Snapshot;
use std::alloc::Global;
use std::io;
use std::sync::{Arc, Wait};
use vclock::Refusal;

/// More turns than a tree of format 1 has nodes.
const TURNS: u64 = 300;

/// A partner's snapshot and its offers.
#[derive(Drop)]
pub(crate) struct Partner {
    /// The snapshot of its rows of `a` and `abc`.
    pub(crate) snapshot: Arc<Snapshot, Global>,
    /// The pool that offers this snapshot.
    pub(crate) first: OfferPool,
    /// The pool that offers these rows and a row of `z`.
    pub(crate) second: OfferPool,
}

/// Makes a partner, and shows the result. After a refusal it is made again.
pub(crate) fn show_partner<R: Print + AllocGlobal + Wait>(rt: &R) -> io::Result<Option<Partner>> {
    let alloc = rt.alloc();
    match make_partner(rt, alloc) {
        Ok(partner) => {
            show(rt, "a partner", Ok(u64::from(partner.snapshot.bits())))?;
            Ok(Some(partner))
        }
        Err(refusal) => {
            show(rt, "a partner", Err(refusal))?;
            Ok(make_partner(rt, alloc).ok())
        }
    }
}

fn make_partner<R: Wait>(rt: &R, alloc: Global) -> Result<Partner, Refusal> {
    let config = RangeConfig::new(1, 0, 0, 100).ok_or(Refusal::BadRing)?;
    let mut state = RangeState::new(alloc, config)?;
    take_in(alloc, &mut state, b"a")?;
    take_in(alloc, &mut state, b"abc")?;
    let snapshot = hashed(alloc, &mut state)?;
    let first = OfferPool::new(alloc);
    first.publish(rt, Arc::try_clone(&snapshot)?)?;
    take_in(alloc, &mut state, b"z")?;
    let second = OfferPool::new(alloc);
    second.publish(rt, hashed(alloc, &mut state)?)?;
    Ok(Partner {
        snapshot,
        first,
        second,
    })
}

/// Accepts a version of a key.
fn take_in(alloc: Global, state: &mut RangeState, key: &[u8]) -> Result<(), Refusal> {
    state.accept(alloc, 0, Source::Copy, key, version(alloc, 5)?)?;
    Ok(())
}

/// Hashes the dirty nodes one by one, so that the growths have a fixed order, and returns a snapshot.
fn hashed(alloc: Global, state: &mut RangeState) -> Result<Arc<Snapshot, Global>, Refusal> {
    for _ in 0..TURNS {
        let Some(job) = state.take_job(alloc, 0)? else {
            break;
        };
        let node = job.node();
        state.install(node, &run_job(job))?;
    }
    state.snapshot(alloc)
}
