//! A writer that puts keys at a pace.
use crate::fault::Fault;
use crate::loads::plan::LoadPlan;
use crate::times::Times;
use caller_pass::Pass;
use ring_node::SharedRange;
use std::alloc::Global;
use std::sync::Wait;
use std::sync::ledger::Ledger;
use std::thread;
use std::time::{Clock, Duration, Instant};
use vclock::{Clock as VersionClock, Refusal};
use version_set::Kind;

/// The factor and the step of the random numbers that draw keys.
const FACTOR: u64 = 6_364_136_223_846_793_005;

const STEP: u64 = 1_442_695_040_888_963_407;

/// The counters of the keys: the number of puts of each.
#[derive(Drop)]
pub(crate) struct Counters {
    puts: Vec<u64>,
}

impl Counters {
    /// Returns counters of 0.
    pub(crate) fn new(alloc: Global, keys: u64) -> Result<Counters, Refusal> {
        let mut puts = Vec::new(alloc);
        puts.resize(keys as usize, 0)?;
        Ok(Counters { puts })
    }

    /// Returns the number of puts of a key.
    fn of(&self, number: u64) -> u64 {
        self.puts.get(number as usize).copied().unwrap_or(0)
    }

    /// Counts a put of a key.
    fn count(&mut self, number: u64) {
        if let Some(puts) = self.puts.get_mut(number as usize) {
            *puts = puts.saturating_add(1);
        }
    }
}

/// Puts each key once.
pub(crate) fn fill<L: Ledger, R: Wait>(
    rt: &R,
    alloc: Global,
    range: &SharedRange<L>,
    pass: &mut Pass<L>,
    plan: &LoadPlan,
    counters: &mut Counters,
) -> Result<(), Refusal> {
    for number in 0..plan.keys {
        put(rt, alloc, range, pass, plan, counters, number)?;
    }
    Ok(())
}

/// Puts keys at the pace, and returns the time that each put took, with its wait for the lock.
pub(crate) fn write_keys<L: Ledger, R: Wait + Clock>(
    rt: &R,
    alloc: Global,
    range: &SharedRange<L>,
    pass: &mut Pass<L>,
    plan: &LoadPlan,
    mut counters: Counters,
) -> Result<Times, Fault> {
    let mut times = Times::new(alloc, plan.puts as usize)?;
    let mut random = 1u64;
    let begin = Instant::now(rt)?;
    for number in 0..plan.puts {
        wait_until(rt, begin, plan.due(number))?;
        random = random.wrapping_mul(FACTOR).wrapping_add(STEP);
        let start = Instant::now(rt)?;
        put(
            rt,
            alloc,
            range,
            pass,
            plan,
            &mut counters,
            plan.draw(random),
        )?;
        times.note(start.elapsed(rt)?);
    }
    Ok(times)
}

/// Puts a key with the context of its last put.
fn put<L: Ledger, R: Wait>(
    rt: &R,
    alloc: Global,
    range: &SharedRange<L>,
    pass: &mut Pass<L>,
    plan: &LoadPlan,
    counters: &mut Counters,
    number: u64,
) -> Result<(), Refusal> {
    let before = counters.of(number);
    let (key, value) = (
        plan.shape.key(alloc, number)?,
        plan.shape.value(alloc, number.wrapping_add(before))?,
    );
    let context = if before == 0 {
        VersionClock::from_pairs(alloc, &[])?
    } else {
        VersionClock::from_pairs(alloc, &[(1, before)])?
    };
    range.put(rt, alloc, pass, key.as_slice(), &context, Kind::Live, value)?;
    counters.count(number);
    Ok(())
}

/// Sleeps until some time after a moment.
pub(crate) fn wait_until<R: Clock>(rt: &R, begin: Instant, due: Duration) -> Result<(), Fault> {
    if let Some(left) = due.checked_sub(begin.elapsed(rt)?) {
        thread::sleep(rt, left);
    }
    Ok(())
}
