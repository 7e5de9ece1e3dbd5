//! Work with one range: snapshots in turn, or a migration to format 2.
use crate::fault::Fault;
use crate::ranges::{accept, new_range, rehash, snapshot};
use range_state::RangeState;
use std::alloc::Global;
use std::io;
use std::thread::Threads;
use vclock::{Format, Refusal};

/// The plan of the work.
#[derive(Clone, Copy)]
pub(crate) struct SnapshotPlan {
    /// The number of keys of the range.
    keys: u64,
    /// The work.
    deed: Deed,
}

/// The work with a range.
#[derive(Clone, Copy)]
enum Deed {
    /// A number of snapshots.
    Snapshots(u64),
    /// A migration to format 2.
    Migrate,
}

impl SnapshotPlan {
    /// Returns the plan from these arguments, or `None` if they are invalid: the number of keys, and the number of
    /// snapshots or `migrate`.
    pub(crate) fn of_words(words: &[String]) -> Option<SnapshotPlan> {
        let [keys, deed] = words else {
            return None;
        };
        Some(SnapshotPlan {
            keys: keys.parse::<u64>().ok()?,
            deed: Deed::of_word(deed)?,
        })
    }
}

impl Deed {
    /// Returns the deed named by an argument.
    fn of_word(word: &str) -> Option<Deed> {
        match word {
            "migrate" => Some(Deed::Migrate),
            _ => Some(Deed::Snapshots(word.parse::<u64>().ok()?)),
        }
    }

    /// Does the work.
    fn run(self, alloc: Global, state: &mut RangeState) -> Result<(), Refusal> {
        match self {
            Deed::Snapshots(count) => {
                for _ in 0..count {
                    let _snapshot = snapshot(alloc, state)?;
                }
                Ok(())
            }
            Deed::Migrate => state.migrate(alloc),
        }
    }
}

/// Makes the range, does the work with it, and reports the work.
pub(crate) fn run<R: Threads + Print + AllocGlobal + Sync>(
    rt: &R,
    plan: SnapshotPlan,
) -> Result<bool, Fault> {
    let alloc = rt.alloc();
    let mut state = clean_range(rt, alloc, plan.keys)?;
    plan.deed.run(alloc, &mut state)?;
    tell(rt, plan)?;
    Ok(true)
}

/// Returns a range of this number of keys, whose nodes are all clean.
fn clean_range(
    rt: &(impl Threads + Sync),
    alloc: Global,
    keys: u64,
) -> Result<RangeState, Refusal> {
    let mut state = new_range(alloc, Format::One)?;
    for number in 0..keys {
        accept(alloc, &mut state, number)?;
    }
    rehash(rt, alloc, &mut state)?;
    Ok(state)
}

/// Prints a summary.
fn tell(rt: &impl Print, plan: SnapshotPlan) -> io::Result<()> {
    let keys = plan.keys;
    match plan.deed {
        Deed::Snapshots(count) => println!(rt; "{keys} keys, {count} snapshots"),
        Deed::Migrate => println!(rt; "{keys} keys, migrated"),
    }
}
