//! Syncs that are held while another call is made on their range.
ghost use Rattle.std.specs.Prelude.{◌≡◌};

use crate::barrier::Barrier;
use crate::calls::{count, look, migrate, put, sync};
use crate::nodes::{Node, Replica, TURNS, all_keys};
use crate::outcomes::finished;
use crate::partners::{Row, pool_of};
use caller_pass::Pass;
use ring_node::{Link, MemoryLink, Reached, SharedController, SharedRange, Step, SyncReport};
use std::alloc::Global;
use std::marker::Brand;
use std::sync::Wait;
use std::sync::ledger::{Blank, Ledger};
use std::test::Fail;
use std::thread;
use std::thread::Threads;
use sync_session::SessionState;
use test_values::checks::expect;
use vclock::Refusal;

/// A link that is held at a barrier before each ask.
#[derive(Drop)]
struct Held<'a, K: Link> {
    link: K,
    barrier: &'a Barrier,
}

impl<'a, K: Link> Link for Held<'a, K> {
    ghost failed = { λ h. K.failed h.link };

    fn failures(&self) -> u64 {
        self.link.failures()
    }

    fn offer<R: Wait>(&mut self, rt: &R) -> Reached {
        self.link.offer(rt)
    }

    fn ask<R: Wait>(&mut self, rt: &R, message: &[u8]) -> Reached {
        self.barrier.hold();
        self.link.ask(rt, message)
    }
}

/// Syncs a range over a link that is held at a barrier.
fn sync_held<L: Ledger, C: Ledger, R: Wait>(
    rt: &R,
    alloc: Global,
    range: &SharedRange<L>,
    slots: &SharedController<C>,
    held: Held<'_, MemoryLink<'_>>,
    pass: &mut Pass<L>,
) -> Result<SyncReport, Refusal> {
    let mut link = held;
    sync(rt, alloc, range, slots, pass, &mut link, TURNS)
}

/// A call that is made on a range while a sync is held.
#[derive(Clone, Copy)]
enum Deed {
    /// A put of `b`.
    Put,
    /// A look at `a` and a count, of an open session.
    Look,
    /// A migration to format 2.
    Migrate,
}

impl Deed {
    /// Makes the call, and returns the number of its entry, if any.
    fn run<L: Ledger, R: Wait>(
        self,
        rt: &R,
        alloc: Global,
        range: &SharedRange<L>,
        pass: &mut Pass<L>,
    ) -> Result<Option<u64>, Refusal> {
        match self {
            Deed::Put => Ok(Some(put(rt, alloc, range, pass, b"b", 0)?)),
            Deed::Look => {
                let is_absent = look(rt, alloc, range, b"a")?.is_empty();
                let is_open = count(rt, range).open_sessions == 1;
                Ok(if is_absent && is_open { None } else { Some(0) })
            }
            Deed::Migrate => {
                migrate(rt, alloc, range)?;
                Ok(None)
            }
        }
    }
}

/// Makes a call while a thread is held at the barrier, then opens the barrier.
fn do_beside<L: Ledger, R: Wait>(
    rt: &R,
    alloc: Global,
    range: &SharedRange<L>,
    barrier: &Barrier,
    deed: Deed,
    pass: &mut Pass<L>,
) -> Result<Option<u64>, Refusal> {
    barrier.wait_for_arrival();
    let done = deed.run(rt, alloc, range, pass);
    barrier.open();
    done
}

/// A sync with a partner that has `a`. It is held at its asks until a call is made on the range, which is clean and has
/// no rows. The sync has the last of two passes.
#[derive(Clone, Copy)]
struct Interrupted {
    /// The call.
    deed: Deed,
    /// The number of its entry, if any.
    done: Option<u64>,
    /// The report of the sync.
    report: SyncReport,
    /// The number of entries afterwards.
    entries: u64,
}

/// Syncs a clean replica, with the call at the first ask.
fn sync_beside<L: Ledger + Send + Sync, C: Ledger + Send + Sync, R: Threads + Wait + Sync>(
    rt: &R,
    alloc: Global,
    replica: &mut Replica<L>,
    slots: &SharedController<C>,
    test: Interrupted,
) -> Result<(), Fail> {
    let Replica { range, passes, .. } = replica;
    let range: &SharedRange<L> = range;
    let (second, others) = passes.split_last_mut().ok_or("no pass")?;
    let first = others.first_mut().ok_or("one pass")?;
    let pool = pool_of(rt, alloc, &[Row::new(b"a", 1)])?;
    let barrier = Barrier::new(Step::Taken);
    let held = Held {
        link: MemoryLink::new(alloc, &pool),
        barrier: &barrier,
    };
    let (report, done) = thread::join(
        rt,
        || sync_held(rt, alloc, range, slots, held, second),
        || do_beside(rt, alloc, range, &barrier, test.deed, first),
    );
    expect(!barrier.gave_up(), "the sync is held until the call ends")?;
    expect(done? == test.done, "the call has the expected entry")?;
    expect(report? == test.report, "the report is the expected one")
}

/// Runs the sync up to the close of its range.
fn interrupt<L: Ledger + Send + Sync, C: Ledger + Send + Sync, R: Threads + Wait + Sync>(
    rt: &R,
    alloc: Global,
    blank: Blank,
    slots: Blank,
    test: Interrupted,
) -> Result<(), Fail>
    requires range { (blank.name ≡ L.name) × (blank.parts ≡ L.parts) × (blank.parts ≡ 2) }
    requires slots { (slots.name ≡ C.name) × (slots.parts ≡ C.parts) × (slots.parts ≡ 1024) }
{
    let mut node = Node::<L, C>::open(alloc, blank, slots, 2, all_keys(10)?)?;
    node.rehash(rt, alloc)?;
    sync_beside(rt, alloc, &mut node.replica, &node.slots, test)?;
    expect(
        node.count(alloc)? == test.entries,
        "the number of entries is the expected one",
    )
}

#[test]
fn a_write_passes_a_sync(rt: HostRuntime) -> Result<(), Fail> {
    let test = Interrupted {
        deed: Deed::Put,
        done: Some(0),
        report: finished(3, 1),
        entries: 2,
    };
    let (blank, slots) = (Blank::new(2), Blank::new(1_024));
    interrupt::<Brand, Brand, HostRuntime>(&rt, rt.alloc(), blank, slots, test)
}

#[test]
fn a_look_passes_a_sync(rt: HostRuntime) -> Result<(), Fail> {
    let test = Interrupted {
        deed: Deed::Look,
        done: None,
        report: finished(3, 1),
        entries: 1,
    };
    let (blank, slots) = (Blank::new(2), Blank::new(1_024));
    interrupt::<Brand, Brand, HostRuntime>(&rt, rt.alloc(), blank, slots, test)
}

#[test]
fn a_sync_ends_when_its_range_is_migrated(rt: HostRuntime) -> Result<(), Fail> {
    let test = Interrupted {
        deed: Deed::Migrate,
        done: None,
        report: SyncReport {
            state: SessionState::Cancelled,
            bad: 1,
            ..finished(1, 0)
        },
        entries: 0,
    };
    let (blank, slots) = (Blank::new(2), Blank::new(1_024));
    interrupt::<Brand, Brand, HostRuntime>(&rt, rt.alloc(), blank, slots, test)
}
