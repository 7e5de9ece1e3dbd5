//! The states and passes after the ranges are closed.
use crate::states::{clean_nodes, is_between};
use crate::thread_calls::pass_copy::PassCopy;
use caller_pass::Closed;
use hint_store::Hint;
use range_journal::Source;
use range_state::RangeState;
use std::alloc::Global;
use std::sync::ledger::Ledger;
use vclock::Refusal;

/// The state of a closed range, and its passes.
pub(crate) struct Left {
    state: RangeState,
    passes: Vec<PassCopy>,
}

impl Left {
    /// Returns the state of a closed range and its passes. Refused: NoMemory.
    pub(crate) fn of<L: Ledger>(alloc: Global, closed: Closed<L>) -> Result<Left, Refusal> {
        let Closed { state, passes } = closed;
        let mut copies = Vec::new(alloc);
        for pass in &passes {
            copies.push(PassCopy::of(alloc, pass)?)?;
        }
        Ok(Left {
            state,
            passes: copies,
        })
    }

    /// Returns the number of entries in the journal.
    pub(crate) fn entries(&self) -> u64 {
        self.state.journal().len()
    }

    /// Returns true if the state and the passes are between `before` and `after`.
    pub(crate) fn is_between(&self, before: &Left, after: &Left) -> bool {
        let places = before.passes.iter().zip(&after.passes);
        let mut passes = self.passes.iter().zip(places);
        self.passes.len() == before.passes.len()
            && passes.all(|(pass, (first, last))| pass.is_between(first, last))
            && is_between(&self.state, &before.state, &after.state)
    }

    /// Returns the number of entries that were delivered as hints.
    fn delivered(&self) -> usize {
        let entries = self.state.journal().entries().iter();
        entries.filter(|entry| entry.source == Source::Hint).count()
    }
}

/// A locked range and a shared one after their close, with the hints for the shared one.
#[derive(Drop)]
pub(crate) struct Ended {
    pub(crate) locked: Left,
    pub(crate) shared: Left,
    /// The pending hints, by rising id.
    pub(crate) pending: Vec<Hint>,
    /// The number of digests that rehash workers installed in the shared range.
    pub(crate) installed: u64,
}

impl Ended {
    /// Returns true if both ranges are between `before` and `after`. Each hint that was pending in `before` is pending
    /// or was delivered, and each digest that a worker installed is there.
    pub(crate) fn is_between(&self, before: &Ended, after: &Ended) -> bool {
        let clean = clean_nodes(&self.shared.state).saturating_sub(clean_nodes(
            &before.shared.state,
        ));
        self.locked.is_between(&before.locked, &after.locked)
            && self.shared.is_between(&before.shared, &after.shared)
            && self.has_hints_of(before)
            && clean == self.installed.saturating_sub(before.installed)
    }

    /// Returns true if the pending hints are the last ones of `before`, and the first ones were delivered.
    fn has_hints_of(&self, before: &Ended) -> bool {
        let delivered = self
            .shared
            .delivered()
            .saturating_sub(before.shared.delivered());
        let rest = before.pending.iter().skip(delivered);
        self.pending.len().saturating_add(delivered) == before.pending.len()
            && self
                .pending
                .iter()
                .zip(rest)
                .all(|(hint, other)| is_same_hint(hint, other))
    }
}

fn is_same_hint(hint: &Hint, other: &Hint) -> bool {
    hint.id == other.id
        && hint.owner == other.owner
        && hint.key.as_slice() == other.key.as_slice()
        && hint.version.same(&other.version)
}

impl Drop for Left {
    /// Keeps the fields out of the proofs of callers that drop the value.
    fn drop(self) {
        let Left {
            state: _state,
            passes: _passes,
        } = self;
    }
}
