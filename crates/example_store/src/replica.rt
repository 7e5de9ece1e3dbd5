//! A replica of a range.
ghost use Rattle.std.specs.Prelude.{◌≡◌, ◌≤◌};

use caller_pass::{Pass, open_passes};
use range_state::{RangeConfig, RangeState};
use ring_node::{OfferPool, SharedHints, SharedRange};
use std::alloc::Global;
use std::sync::ledger::{Blank, Ledger};
use vclock::Refusal;

/// The number of callers of a replica.
const SEATS: u16 = 3;

/// A node's replica of a range: the range, the hints that the node keeps for the other replica, the offers that it
/// makes to it, and a pass for each caller: one for clients, one for copies and hints, and one for syncs.
pub(crate) struct Replica<L: Ledger> {
    pub(crate) range: SharedRange<L>,
    pub(crate) hints: SharedHints,
    pub(crate) offers: OfferPool,
    pub(crate) client: Pass<L>,
    pub(crate) peer: Pass<L>,
    pub(crate) syncer: Pass<L>,
}

impl<L: Ledger> Replica<L> {
    /// Opens a replica that has accepted nothing. Refused: NoMemory.
    pub(crate) fn open(
        alloc: Global,
        blank: Blank,
        node: u16,
        config: RangeConfig,
    ) -> Result<Replica<L>, Refusal>
        requires ledger { (blank.name ≡ L.name) × (blank.parts ≡ L.parts) × (blank.parts ≡ 3) }
        requires node { 1 ≤ node }
    {
        let state = RangeState::new(alloc, config)?;
        let (book, passes) = open_passes::<L>(blank, alloc, SEATS)?;
        let range = SharedRange::new(node, state, book);
        let (hints, offers) = (SharedHints::new(alloc), OfferPool::new(alloc));
        Replica::of_parts(range, passes, hints, offers)
    }

    /// Makes a replica of a range and its passes, which are in the order of their seats.
    pub(crate) fn of_parts(
        range: SharedRange<L>,
        passes: Vec<Pass<L>>,
        hints: SharedHints,
        offers: OfferPool,
    ) -> Result<Replica<L>, Refusal> {
        let (client, peer, syncer) = three_of(passes)?;
        Ok(Replica {
            range,
            hints,
            offers,
            client,
            peer,
            syncer,
        })
    }

    /// Returns the range, its passes, the hints and the offers. Refused: NoMemory.
    pub(crate) fn into_parts(
        self,
        alloc: Global,
    ) -> Result<(SharedRange<L>, Vec<Pass<L>>, SharedHints, OfferPool), Refusal> {
        let mut passes = Vec::with_capacity(alloc, 3)?;
        let Replica {
            range,
            hints,
            offers,
            client,
            peer,
            syncer,
        } = self;
        passes.push_reserved(client);
        passes.push_reserved(peer);
        passes.push_reserved(syncer);
        Ok((range, passes, hints, offers))
    }
}

impl<L: Ledger> Drop for Replica<L> {
    /// Keeps the fields out of the proofs of functions that drop a replica.
    fn drop(self) {
        let Replica {
            range: _range,
            hints: _hints,
            offers: _offers,
            client: _client,
            peer: _peer,
            syncer: _syncer,
        } = self;
    }
}

/// Returns the passes of the clients, of copies and hints, and of syncs: the one of the last seat first. Refused:
/// Stranger (a pass is missing).
fn three_of<L: Ledger>(mut passes: Vec<Pass<L>>) -> Result<(Pass<L>, Pass<L>, Pass<L>), Refusal> {
    let Some(client) = passes.pop() else {
        return Err(Refusal::Stranger);
    };
    let Some(peer) = passes.pop() else {
        return Err(Refusal::Stranger);
    };
    let Some(syncer) = passes.pop() else {
        return Err(Refusal::Stranger);
    };
    Ok((client, peer, syncer))
}
