//! Links to the other replica.
use crate::replica::Replica;
use ring_node::{Deed, MemoryLink, ScriptedLink, SharedController, SyncReport, channel_link};
use std::alloc::Global;
use std::sync::Wait;
use std::sync::ledger::Ledger;
use std::thread;
use std::thread::Threads;
use vclock::Refusal;

/// Syncs a replica with another one over a channel, while a thread serves the other one's offers. Refused as
/// [`Replica::sync`] is; LinkLost also if the thread can't be spawned.
pub(crate) fn sync_over_channel<A, B, C, R>(
    rt: &R,
    alloc: Global,
    slots: &SharedController<C>,
    replica: &mut Replica<A>,
    partner: &Replica<B>,
) -> Result<SyncReport, Refusal>
where
    A: Ledger,
    B: Ledger,
    C: Ledger,
    R: Threads + Wait + Sync,
{
    let (mut link, server) = channel_link(alloc)?;
    let (offers, node) = (&partner.offers, partner.range.node());
    thread::scope(thread::scope_env(), rt, |scope| {
        let _served = scope.spawn(move || server.run(rt, offers));
        let report = replica.sync(rt, alloc, slots, &mut link, node);
        link.stop(rt);
        report
    })
}

/// Syncs a replica with another one over a link that does these deeds, one in each call. Refused as [`Replica::sync`]
/// is.
pub(crate) fn sync_over_deeds<A: Ledger, B: Ledger, C: Ledger, R: Wait>(
    rt: &R,
    alloc: Global,
    slots: &SharedController<C>,
    replica: &mut Replica<A>,
    partner: &Replica<B>,
    deeds: &[Deed],
) -> Result<SyncReport, Refusal> {
    let deeds = Vec::from_slice(alloc, deeds)?;
    let link = MemoryLink::new(alloc, &partner.offers);
    let mut link = ScriptedLink::new(alloc, link, deeds);
    replica.sync(rt, alloc, slots, &mut link, partner.range.node())
}
