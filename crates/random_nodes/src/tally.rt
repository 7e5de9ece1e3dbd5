//! The counts of the steps, the syncs and the exchanges of lists.

use crate::exchanges::Patches;
use crate::walking::Outcome;
use exchange::Report;
use std::fmt;

/// The counts of steps by their depth, of syncs by their outcome, and of exchanges by their last report.
#[derive(Clone, Copy)]
pub(crate) struct Tally {
    steps: [u64; 4],
    finished: u64,
    failed: u64,
    cancelled: u64,
    refused: u64,
    exchanges: Exchanges,
    /// The number of renewals finished alongside exchanges, and of the entries that they caught up with.
    renewals: u64,
    later: u64,
}

/// The counts of exchanges.
#[derive(Clone, Copy)]
struct Exchanges {
    finished: u64,
    left: u64,
    stopped: u64,
    spent: u64,
    failed: u64,
    gone: u64,
    /// The number of texts of inner nodes and of leaves that were taken from patches.
    inner_patches: u64,
    leaf_patches: u64,
}

impl Tally {
    /// Returns a tally of zeros.
    pub(crate) fn new() -> Tally {
        Tally {
            steps: [0; 4],
            finished: 0,
            failed: 0,
            cancelled: 0,
            refused: 0,
            exchanges: Exchanges {
                finished: 0,
                left: 0,
                stopped: 0,
                spent: 0,
                failed: 0,
                gone: 0,
                inner_patches: 0,
                leaf_patches: 0,
            },
            renewals: 0,
            later: 0,
        }
    }

    /// Counts a step of that depth.
    pub(crate) fn count_step(&mut self, depth: u16) {
        if let Some(count) = self.steps.get_mut(usize::from(depth)) {
            *count = count.wrapping_add(1);
        }
    }

    /// Counts a sync.
    pub(crate) fn count_sync(&mut self, outcome: Outcome) {
        let count = match outcome {
            Outcome::Finished => &mut self.finished,
            Outcome::Failed => &mut self.failed,
            Outcome::Cancelled => &mut self.cancelled,
            Outcome::Refused => &mut self.refused,
        };
        *count = count.wrapping_add(1);
    }

    /// Counts an exchange by its report before it was closed, and its patches.
    pub(crate) fn count_exchange(&mut self, report: Report, patches: Patches) {
        let exchanges = &mut self.exchanges;
        exchanges.inner_patches = exchanges.inner_patches.wrapping_add(patches.of_inner);
        exchanges.leaf_patches = exchanges.leaf_patches.wrapping_add(patches.of_leaves);
        let count = match report {
            Report::Finished => &mut exchanges.finished,
            Report::Left | Report::Waiting => &mut exchanges.left,
            Report::Stopped(_) => &mut exchanges.stopped,
            Report::TooManyBad | Report::TooManyLost => &mut exchanges.spent,
            Report::Failed => &mut exchanges.failed,
            Report::Gone | Report::Closed => &mut exchanges.gone,
        };
        *count = count.wrapping_add(1);
    }

    /// Counts a renewal that was finished, with this number of later entries.
    pub(crate) fn count_renewal(&mut self, later: u64) {
        self.renewals = self.renewals.wrapping_add(1);
        self.later = self.later.wrapping_add(later);
    }

    /// Returns the number of finished syncs.
    pub(crate) fn finished(&self) -> u64 {
        self.finished
    }

    /// Adds the counts of a list.
    pub(crate) fn add(&mut self, other: &Tally) {
        for i in 0..4usize {
            self.steps[i] = self.steps[i].wrapping_add(other.steps[i]);
        }
        self.finished = self.finished.wrapping_add(other.finished);
        self.failed = self.failed.wrapping_add(other.failed);
        self.cancelled = self.cancelled.wrapping_add(other.cancelled);
        self.refused = self.refused.wrapping_add(other.refused);
        let (exchanges, more) = (&mut self.exchanges, &other.exchanges);
        exchanges.finished = exchanges.finished.wrapping_add(more.finished);
        exchanges.left = exchanges.left.wrapping_add(more.left);
        exchanges.stopped = exchanges.stopped.wrapping_add(more.stopped);
        exchanges.spent = exchanges.spent.wrapping_add(more.spent);
        exchanges.failed = exchanges.failed.wrapping_add(more.failed);
        exchanges.gone = exchanges.gone.wrapping_add(more.gone);
        exchanges.inner_patches = exchanges.inner_patches.wrapping_add(more.inner_patches);
        exchanges.leaf_patches = exchanges.leaf_patches.wrapping_add(more.leaf_patches);
        self.renewals = self.renewals.wrapping_add(other.renewals);
        self.later = self.later.wrapping_add(other.later);
    }
}

impl fmt::Display for Tally {
    fn fmt<W: fmt::Write>(&self, f: &mut fmt::Formatter<W>) -> fmt::Result {
        let [zero, one, two, three] = self.steps;
        write!(f, "{zero} steps, {one}, {two} and {three} at points; ")?;
        write!(
            f,
            "{} syncs finished, {} failed, {} cancelled, {} refused",
            self.finished, self.failed, self.cancelled, self.refused
        )?;
        let exchanges = &self.exchanges;
        write!(
            f,
            "; {} exchanges finished, {} with leaves left, {} stopped, {} out of bounds, {} failed, {} gone",
            exchanges.finished,
            exchanges.left,
            exchanges.stopped,
            exchanges.spent,
            exchanges.failed,
            exchanges.gone
        )?;
        write!(
            f,
            "; patches of {} inner nodes and {} leaves",
            exchanges.inner_patches, exchanges.leaf_patches
        )?;
        write!(
            f,
            "; {} renewals beside exchanges, which caught up with {} entries",
            self.renewals, self.later
        )
    }
}
