//! A fixture: a range behind a lock, with two passes. A test that drops it carries no facts about its fields, and is
//! proved fast.
ghost use Rattle.std.specs.Prelude.{◌≡◌, [], IfOk};

use caller_pass::{LockedRange, Pass, open_passes};
use range_state::{RangeConfig, RangeState};
use std::alloc::Global;
use std::sync::ledger::{Blank, Ledger};
use std::test::Fail;

/// Returns the state of a range of format 1 that has accepted nothing, whose nodes are all clean.
fn clean_state(alloc: Global) -> Result<RangeState, Fail>
    ensures { IfOk result (λ state. state.store.entries ≡ []) }
{
    let config = RangeConfig::new(1, 0, 0, 1_000).ok_or("no such range")?;
    let mut state = RangeState::new(alloc, config)?;
    state.rehash_here(alloc)?;
    Ok(state)
}

/// A range, with the passes of its seats 1 and 0.
pub struct Locked<L: Ledger> {
    /// The range.
    pub range: LockedRange<L>,
    /// The pass of seat 1.
    pub one: Pass<L>,
    /// The pass of seat 0.
    pub zero: Pass<L>,
}

impl<L: Ledger> Locked<L> {
    /// Opens a range that has accepted nothing, whose nodes are all clean.
    pub fn open(alloc: Global, blank: Blank) -> Result<Locked<L>, Fail>
        requires name { blank.name ≡ L.name }
        requires parts { (blank.parts ≡ L.parts) × (L.parts ≡ 2) }
    {
        let state = clean_state(alloc)?;
        let (book, mut passes) = open_passes::<L>(blank, alloc, 2)?;
        let one = passes.pop().ok_or("no pass")?;
        let zero = passes.pop().ok_or("one pass")?;
        Ok(Locked {
            range: LockedRange::new(state, book),
            one,
            zero,
        })
    }

    /// Returns the range and the passes of its seats 1 and 0.
    pub fn into_parts(self) -> (LockedRange<L>, Pass<L>, Pass<L>) {
        let Locked { range, one, zero } = self;
        (range, one, zero)
    }
}

impl<L: Ledger> Drop for Locked<L> {
    /// Keeps the fields out of the proofs of tests that drop a range.
    fn drop(self) {
        let Locked {
            range: _range,
            one: _one,
            zero: _zero,
        } = self;
    }
}
