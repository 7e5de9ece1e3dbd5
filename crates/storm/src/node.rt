//! A node of a storm, with the passes of its threads.
ghost use Rattle.std.specs.Prelude.{◌≡◌, ◌≤◌};

use crate::tally::SharedTally;
use caller_pass::{Pass, open_passes};
use range_state::{RangeConfig, RangeState};
use ring_node::{Gate, OfferPool, SharedController, SharedRange};
use std::alloc::Global;
use std::sync::ledger::{Blank, Ledger};
use vclock::Refusal;
use vclock::limits::ENTRIES_MAX;

/// A node: its replica of the one range, the offers of its snapshots, the tally of its threads, and the number of the
/// other node.
#[derive(Drop)]
pub(crate) struct Node<'a, L: Ledger> {
    pub(crate) range: SharedRange<L>,
    pub(crate) pool: OfferPool,
    pub(crate) tally: &'a SharedTally,
    pub(crate) partner: u16,
}

/// The passes of a node: one for its writer, and one for its sync worker.
#[derive(Drop)]
pub(crate) struct Passes<L: Ledger> {
    pub(crate) writer: Pass<L>,
    pub(crate) syncer: Pass<L>,
}

/// A node with its passes.
pub(crate) struct Member<'a, L: Ledger> {
    pub(crate) node: Node<'a, L>,
    pub(crate) passes: Passes<L>,
}

/// The slots and the gate that the threads of both nodes share, and the number of puts of each writer.
#[derive(Drop)]
pub(crate) struct Plan<'a, C: Ledger, G: Gate> {
    pub(crate) slots: &'a SharedController<C>,
    pub(crate) gate: &'a G,
    pub(crate) puts: u64,
}

impl<'a, L: Ledger> Member<'a, L> {
    /// Makes a node that has accepted nothing, and its passes. Refused: NoMemory.
    pub(crate) fn open(
        alloc: Global,
        blank: Blank,
        tally: &'a SharedTally,
        number: u16,
        partner: u16,
    ) -> Result<Member<'a, L>, Refusal>
        requires ledger { (blank.name ≡ L.name) × (blank.parts ≡ L.parts) × (blank.parts ≡ 2) }
        requires number { 1 ≤ number }
    {
        let config = RangeConfig::new(1, 0, 0, ENTRIES_MAX).ok_or(Refusal::BadRing)?;
        let state = RangeState::new(alloc, config)?;
        let (book, passes) = open_passes::<L>(blank, alloc, 2)?;
        let node = Node {
            range: SharedRange::new(number, state, book),
            pool: OfferPool::new(alloc),
            tally,
            partner,
        };
        let passes = taken_apart(passes)?;
        Ok(Member { node, passes })
    }

    /// Closes the range. Returns true if its passes agree with its journal. Refused: NoMemory.
    pub(crate) fn close(self, alloc: Global) -> Result<bool, Refusal> {
        let Member { node, passes } = self;
        let passes = listed(alloc, passes)?;
        let Node { range, .. } = node;
        match range.close(alloc, passes) {
            Ok(_) => Ok(true),
            Err(refused) => match refused.refusal {
                Refusal::Unsettled { .. } => Ok(false),
                other => Err(other),
            },
        }
    }
}

impl<'a, L: Ledger> Drop for Member<'a, L> {
    /// Keeps the fields out of the proofs of callers that drop a node.
    fn drop(self) {
        let Member {
            node: _node,
            passes: _passes,
        } = self;
    }
}

/// Returns the two passes of a list.
fn taken_apart<L: Ledger>(mut passes: Vec<Pass<L>>) -> Result<Passes<L>, Refusal> {
    let syncer = passes.pop().ok_or(Refusal::Stranger)?;
    let writer = passes.pop().ok_or(Refusal::Stranger)?;
    Ok(Passes { writer, syncer })
}

/// Lists the passes of a node.
fn listed<L: Ledger>(alloc: Global, passes: Passes<L>) -> Result<Vec<Pass<L>>, Refusal> {
    let mut list = Vec::with_capacity(alloc, 2)?;
    let Passes { writer, syncer } = passes;
    list.push_reserved(writer);
    list.push_reserved(syncer);
    Ok(list)
}
