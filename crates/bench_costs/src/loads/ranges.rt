//! The range, and the two threads that use it.
ghost use Rattle.std.specs.Prelude.{◌≡◌};

use crate::fault::Fault;
use crate::loads::plan::LoadPlan;
use crate::loads::snapshots::{hash_all, make_snapshots};
use crate::loads::writer::{Counters, fill, write_keys};
use crate::threads::ranges::open_range;
use crate::times::Times;
use admission::Controller;
use caller_pass::Pass;
use ring_node::{SharedController, SharedRange};
use std::alloc::Global;
use std::marker::Brand;
use std::sync::ledger::{Blank, Ledger};
use std::sync::{Mutex, Wait};
use std::thread;
use std::thread::Threads;
use std::time::{Clock, Duration, Instant};

/// The times of a load, sorted.
#[derive(Drop)]
pub(crate) struct Done {
    /// The time that hashing all nodes took before the puts began.
    pub(crate) alone: Duration,
    /// The time from the first put to the end of the last thread.
    pub(crate) whole: Duration,
    pub(crate) puts: Times,
    pub(crate) snapshots: Times,
}

/// The work of the two threads.
#[derive(Drop)]
struct Load<'a, L: Ledger, C: Ledger> {
    range: &'a SharedRange<L>,
    slots: &'a SharedController<C>,
    plan: &'a LoadPlan,
    /// The counters of the keys, which the writer takes.
    counters: Mutex<Option<Counters>>,
    is_over: Mutex<bool>,
}

/// Runs a load.
pub(crate) fn run_load<R: Threads + Wait + Clock + Sync>(
    rt: &R,
    alloc: Global,
    plan: &LoadPlan,
) -> Result<Done, Fault> {
    let (range, slots) = (Blank::new(2), Blank::new(1_024));
    run_on::<Brand, Brand, R>(rt, alloc, plan, range, slots)
}

/// Runs a load on a range and slots with these ledgers.
fn run_on<L: Ledger + Send + Sync, C: Ledger + Send + Sync, R: Threads + Wait + Clock + Sync>(
    rt: &R,
    alloc: Global,
    plan: &LoadPlan,
    range: Blank,
    slots: Blank,
) -> Result<Done, Fault>
    requires range { (range.name ≡ L.name) × (range.parts ≡ L.parts) × (L.parts ≡ 2) }
    requires slots { (slots.name ≡ C.name) × (slots.parts ≡ C.parts) × (slots.parts ≡ 1024) }
{
    let (range, mut passes) = open_range::<L>(alloc, range, plan.shape.format, 2)?;
    let slots = SharedController::new(Controller::<C>::new(slots, alloc, 1, 1, 1)?);
    let mut counters = Counters::new(alloc, plan.keys)?;
    let pass = passes.first_mut().ok_or(Fault::TooFewPasses)?;
    fill(rt, alloc, &range, pass, plan, &mut counters)?;
    let alone = hash_alone(rt, alloc, &range, &slots)?;
    let load = Load {
        range: &range,
        slots: &slots,
        plan,
        counters: Mutex::new(Some(counters)),
        is_over: Mutex::new(false),
    };
    let begin = Instant::now(rt)?;
    let all = thread::map_vec(rt, passes, &|pass| load.run(rt, alloc, pass))?;
    let whole = begin.elapsed(rt)?;
    let mut all = all.into_iter();
    let mut puts = all.next().ok_or(Fault::NotTogether)??;
    let mut snapshots = all.next().ok_or(Fault::NotTogether)??;
    puts.sort();
    snapshots.sort();
    Ok(Done {
        alone,
        whole,
        puts,
        snapshots,
    })
}

/// Hashes all nodes, and returns the time that it took.
fn hash_alone<L: Ledger, C: Ledger, R: Wait + Clock>(
    rt: &R,
    alloc: Global,
    range: &SharedRange<L>,
    slots: &SharedController<C>,
) -> Result<Duration, Fault> {
    let begin = Instant::now(rt)?;
    let slot = slots.lend(rt)?;
    let done = hash_all(rt, alloc, range, &slot);
    slots.give_back(rt, slot);
    done?;
    Ok(begin.elapsed(rt)?)
}

impl<'a, L: Ledger, C: Ledger> Load<'a, L, C> {
    /// Writes keys with the first pass, and makes snapshots in the thread of the other one.
    fn run<R: Wait + Clock>(
        &self,
        rt: &R,
        alloc: Global,
        mut pass: Pass<L>,
    ) -> Result<Times, Fault> {
        if pass.seat() == 0 {
            let written = self.write(rt, alloc, &mut pass);
            *self.is_over.lock(rt) = true;
            return written;
        }
        let slot = self.slots.lend(rt)?;
        let made = make_snapshots(rt, alloc, self.range, &slot, self.plan, &self.is_over);
        self.slots.give_back(rt, slot);
        made
    }

    /// Writes keys.
    fn write<R: Wait + Clock>(
        &self,
        rt: &R,
        alloc: Global,
        pass: &mut Pass<L>,
    ) -> Result<Times, Fault> {
        let taken = self.counters.lock(rt).take();
        let counters = taken.ok_or(Fault::NotTogether)?;
        write_keys(rt, alloc, self.range, pass, self.plan, counters)
    }
}
