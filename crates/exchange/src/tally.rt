//! The counts of an exchange.
ghost use Rattle.std.specs.Prelude.{◌≡◌};
ghost use Rattle.exchange.specs.Courses.{no_tally};
ghost use Rattle.exchange.specs.Asks.{mean_leaf};
ghost use Rattle.exchange.specs.Answers.{tallied};

use range_state::AnswerTaken;

/// The counts of an exchange. The counts of versions and bytes stop at 2^64 - 1.
#[derive(Clone, Copy, Debug, PartialEq, Eq)]
pub struct Tally {
    /// The number of asks that were sent, without outlines that brought no text.
    pub asks: u64,
    /// The number of bad answers.
    pub bad: u64,
    /// The number of lost asks.
    pub lost: u64,
    /// The number of asks whose answers exceeded the capacity, since asks were last resumed.
    pub refused: u64,
    /// The number of new versions: each is an entry of the range's journal.
    pub accepted: u64,
    /// The number of known versions in the taken answers.
    pub known: u64,
    /// The number of leaves that were taken.
    pub leaves: u64,
    /// The size of their texts in bytes.
    pub leaf_bytes: u64,
}

impl Tally {
    /// Returns counts of 0.
    pub(crate) fn none() -> Tally
        ensures { result ≡ no_tally }
    {
        Tally {
            asks: 0,
            bad: 0,
            lost: 0,
            refused: 0,
            accepted: 0,
            known: 0,
            leaves: 0,
            leaf_bytes: 0,
        }
    }

    /// Returns the mean length of the taken leaves, or 0 without any.
    pub(crate) fn mean_leaf(&self) -> u64
        ensures { result ≡ mean_leaf self.now }
    {
        if self.leaves == 0 {
            0
        } else {
            self.leaf_bytes / self.leaves
        }
    }

    /// Counts a taken text of a leaf or an inner node.
    pub(crate) fn count(&mut self, taken: &AnswerTaken, is_leaf: bool, len: usize)
        ensures { self.new ≡ tallied self.old taken.now is_leaf len }
    {
        self.accepted = self.accepted.saturating_add(taken.receipts.len() as u64);
        self.known = self.known.saturating_add(taken.known);
        if is_leaf {
            self.leaves = self.leaves.saturating_add(1);
            self.leaf_bytes = self.leaf_bytes.saturating_add(len as u64);
        }
    }
}
