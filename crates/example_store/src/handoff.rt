//! The path of a version to the other replica.
use crate::replica::Replica;
use range_journal::Source;
use ring_node::{DeliverReport, SharedController, deliver};
use std::alloc::Global;
use std::sync::Wait;
use std::sync::ledger::Ledger;
use vclock::{Bytes, Refusal};
use version_set::Version;

/// The maximum number of hints that a round delivers.
const HINTS_MAX: u64 = 1_000;

/// The state of a node, as the store's failure detector sees it.
#[derive(Clone, Copy)]
pub(crate) enum Health {
    Up,
    Down,
}

impl<A: Ledger> Replica<A> {
    /// Sends a version to another replica, or keeps it as a hint while that replica is down.
    ///
    /// Refused as [`ring_node::SharedRange::copy`] is, or as [`SharedHints::keep`](ring_node::SharedHints) is.
    pub(crate) fn send<B: Ledger, R: Wait>(
        &self,
        rt: &R,
        alloc: Global,
        other: &mut Replica<B>,
        health: Health,
        key: &[u8],
        version: Version,
    ) -> Result<(), Refusal> {
        let (range, pass) = (&other.range, &mut other.peer);
        match health {
            Health::Up => {
                range.copy(rt, alloc, pass, Source::Copy, key, version)?;
            }
            Health::Down => {
                let key = Bytes::copy_of(alloc, key)?;
                self.hints.keep(rt, range.node(), key, version)?;
            }
        }
        Ok(())
    }

    /// Delivers the hints for a replica that is up again. Refused: NoSlot, NoMemory.
    pub(crate) fn hand_off<B: Ledger, C: Ledger, R: Wait>(
        &self,
        rt: &R,
        alloc: Global,
        slots: &SharedController<C>,
        other: &mut Replica<B>,
    ) -> Result<DeliverReport, Refusal> {
        let slot = slots.lend(rt)?;
        let (hints, range, pass) = (&self.hints, &other.range, &mut other.peer);
        let owner = range.node();
        let report = deliver(rt, alloc, &slot, hints, range, pass, owner, HINTS_MAX);
        slots.give_back(rt, slot);
        report
    }
}
