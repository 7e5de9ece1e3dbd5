//! The answers of the commands.
ghost use Rattle.std.specs.Prelude.{◌≡◌};
ghost use Rattle.outage_cluster.specs.Slots.{counts};

use admission::Controller;
use range_state::Synced;
use std::sync::ledger::Ledger;
use tree_nodes::{Digest, Text};
use vclock::{Clock, Refusal};
use version_set::VersionSet;

/// The answer of a command.
#[derive(Drop)]
pub enum CommandAnswer {
    /// A new ring.
    Ring {
        /// The number of nodes.
        nodes: u64,
        /// The number of ranges.
        ranges: u64,
    },
    /// A put.
    Put {
        /// The clock of the new version.
        clock: Clock,
        /// The number of replicas that accepted a copy or knew it.
        copied: u64,
        /// The number of hints that are kept.
        hinted: u64,
        /// The number of the entry.
        number: u64,
    },
    /// The versions that are held for a key.
    Versions(VersionSet),
    /// The text of the row of a key.
    Row(Text),
    /// The number of nodes that a rehash found dirty.
    Rehash(u64),
    /// The report of a sync.
    Sync(Synced),
    /// The digest of a tree's node, or `None` if it is dirty.
    Node(Option<Digest>),
    /// A node that was taken down or up.
    Up {
        /// The node.
        node: u64,
        /// True if it is up now.
        up: bool,
    },
    /// A delivery of hints.
    Deliver {
        /// The number that their owners accepted.
        delivered: u64,
        /// The number that their owners knew.
        known: u64,
        /// The number that are pending after it.
        pending: u32,
    },
    /// The slots.
    Slots(SlotCounts),
    /// The slots, and the percentile that adjusted their target, or `None` without a sample.
    Adjusted(SlotCounts, Option<u32>),
    /// The number of samples that are kept.
    Sample(u32),
    /// The refusal of a command.
    Refused(Refusal),
    /// The line of that number isn't a command.
    BadLine(u64),
}

/// The counts of slots.
#[derive(Clone, Copy)]
pub struct SlotCounts {
    /// The number that are lent or could be.
    pub allowance: u64,
    /// The number that could be lent.
    pub free: u64,
    /// The number that are lent.
    pub lent: u64,
    /// The maximum number.
    pub target: u64,
}

impl SlotCounts {
    /// Counts the slots of a controller.
    pub(crate) fn of<L: Ledger>(slots: &Controller<L>) -> SlotCounts
        ensures { result ≡ counts slots.now }
    {
        SlotCounts {
            allowance: u64::from(slots.allowance()),
            free: u64::from(slots.free()),
            lent: u64::from(slots.lent()),
            target: u64::from(slots.target()),
        }
    }
}
