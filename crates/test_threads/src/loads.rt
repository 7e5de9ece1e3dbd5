//! Rows that are loaded behind a lock.
ghost use Rattle.std.specs.Prelude.{◌≡◌};

use crate::calls::{count, load_locked, load_passing, load_rows, migrate};
use crate::locked::Locked;
use crate::nodes::{Node, Replica, all_keys};
use crate::runs::{NodeTest, run_node};
use range_state::Loaded;
use ring_node::{Gate, SharedRange, Step};
use std::alloc::Global;
use std::marker::Brand;
use std::process::Abort;
use std::sync::Wait;
use std::sync::ledger::{Blank, Ledger};
use std::test::Fail;
use std::thread::Threads;
use test_values::checks::expect;
use vclock::Refusal;

/// The text of key `a` with the versions of the clocks (2,1) and (3,1) and the values `y` and `z`, in format 1.
const TWO_VERSIONS: &[u8] =
    b"\x00\x01a\x00\x02\x01\x00\x02\x00\x00\x00\x00\x00\x00\x00\x01\x00\x00\x00\x01y\x01\x00\x03\x00\x00\x00\x00\x00\x00\x00\x01\x00\x00\x00\x01z";

/// The text of the same row in format 2.
const TWO_VERSIONS_2: &[u8] =
    b"\x00\x01a\x00\x02\x00\x01\x00\x02\x00\x00\x00\x00\x00\x00\x00\x01\x00\x00\x00\x01y\x00\x01\x00\x03\x00\x00\x00\x00\x00\x00\x00\x01\x00\x00\x00\x01z";

/// Expects the counts of a load.
fn expect_loaded(loaded: Result<Loaded, Refusal>, counts: (u64, u64)) -> Result<(), Fail> {
    let Loaded { taken, known } = loaded?;
    expect((taken, known) == counts, "versions are taken or known")
}

/// Loads a row twice, then one of another format, and closes the range.
fn load_shared<L: Ledger, R: Wait>(rt: &R, alloc: Global, blank: Blank) -> Result<(), Fail>
    requires ledger { (blank.name ≡ L.name) × (blank.parts ≡ L.parts) × (blank.parts ≡ 2) }
{
    let config = all_keys(10)?;
    let mut replica = Replica::<L>::open(alloc, blank, 2, config)?;
    let Replica { range, passes, .. } = &mut replica;
    let pass = passes.first_mut().ok_or("no pass")?;
    expect_loaded(load_rows(rt, alloc, range, pass, TWO_VERSIONS), (2, 0))?;
    expect_loaded(load_rows(rt, alloc, range, pass, TWO_VERSIONS), (0, 2))?;
    expect(
        matches!(
            load_rows(rt, alloc, range, pass, TWO_VERSIONS_2),
            Err(Refusal::RowBroken(6))
        ),
        "a row of another format is broken",
    )?;
    expect(
        pass.receipts().len() == 2 && count(rt, range).entries == 2,
        "the pass has the receipts of the entries",
    )?;
    let state = replica.close(alloc)?;
    expect(state.journal().len() == 2, "two entries are closed")
}

#[test]
fn a_shared_range_loads_rows(rt: HostRuntime) -> Result<(), Fail> {
    load_shared::<Brand, HostRuntime>(&rt, rt.alloc(), Blank::new(2))
}

/// A gate at which a range is migrated to format 2 once rows are read.
#[derive(Drop)]
struct Migration<'a, L: Ledger> {
    alloc: Global,
    range: &'a SharedRange<L>,
}

impl<'a, L: Ledger> Gate for Migration<'a, L> {
    fn pass<R: Wait>(&self, rt: &R, step: Step) {
        if step == Step::Read {
            let _ = migrate(rt, self.alloc, self.range);
        }
    }
}

/// A load of a row of format 1 that meets a migration, and one of the row of format 2 after it.
struct LateLoad;

impl NodeTest for LateLoad {
    fn run<L: Ledger, C: Ledger, R: Threads + Wait + Sync>(
        &self,
        rt: &R,
        alloc: Global,
        node: &mut Node<L, C>,
    ) -> Result<(), Fail> {
        let Replica { range, passes, .. } = &mut node.replica;
        let range: &SharedRange<L> = range;
        let pass = passes.first_mut().ok_or("no pass")?;
        let gate = Migration { alloc, range };
        let late = load_passing(rt, alloc, range, &gate, pass, TWO_VERSIONS);
        expect(
            matches!(late, Err(Refusal::RowBroken(7))),
            "the row is read again, in the range's new format",
        )?;
        expect_loaded(load_rows(rt, alloc, range, pass, TWO_VERSIONS_2), (2, 0))
    }
}

#[test]
fn a_load_meets_a_migration(rt: HostRuntime) -> Result<(), Fail> {
    run_node(&rt, rt.alloc(), 10, &LateLoad)
}

/// Loads a row into a locked range for its seat 1.
fn load_into_locked<L: Ledger>(_rt: &impl Abort, alloc: Global, blank: Blank) -> Result<(), Fail>
    requires name { blank.name ≡ L.name }
    requires parts { (blank.parts ≡ L.parts) × (L.parts ≡ 2) }
{
    let mut locked = Locked::<L>::open(alloc, blank)?;
    let Locked { range, one, .. } = &mut locked;
    expect_loaded(load_locked(alloc, range, one, TWO_VERSIONS), (2, 0))?;
    expect(one.receipts().len() == 2, "the pass has two receipts")
}

#[test]
fn a_locked_range_loads_rows(rt: HostRuntime) -> Result<(), Fail> {
    load_into_locked::<Brand>(&rt, rt.alloc(), Blank::new(2))
}
