//! The ranges, and the threads that write them.
ghost use Rattle.std.specs.Prelude.{◌≡◌, ◌≤◌};

use crate::fault::Fault;
use crate::ranges::config;
use crate::threads::calls::{Starts, put_and_get};
use crate::threads::plan::{Sharing, ThreadPlan};
use crate::threads::spans::{Span, Spans};
use caller_pass::{Pass, open_passes};
use range_state::RangeState;
use ring_node::SharedRange;
use std::alloc::Global;
use std::marker::Brand;
use std::sync::Wait;
use std::sync::ledger::{Blank, Ledger};
use std::thread;
use std::thread::Threads;
use std::time::{Clock, Instant};
use vclock::{Format, Refusal};

/// The times of the calls, the time when the ranges were closed, and whether they were closed: the passes and the
/// journals agreed.
#[derive(Clone, Copy)]
pub(crate) struct Done {
    pub(crate) spans: Spans,
    pub(crate) closing: Span,
    pub(crate) closed: bool,
}

/// The result of a thread on a range that all share.
#[derive(Drop)]
struct Returned<L: Ledger> {
    pass: Pass<L>,
    spans: Spans,
}

impl Done {
    /// Returns both results, combined.
    fn and(self, other: Done) -> Done {
        Done {
            spans: self.spans.cover(other.spans),
            closing: self.closing.cover(other.closing),
            closed: self.closed && other.closed,
        }
    }
}

/// Runs all threads of a plan.
pub(crate) fn run_plan<R: Threads + Wait + Clock + Sync>(
    rt: &R,
    alloc: Global,
    plan: &ThreadPlan,
) -> Result<Done, Fault> {
    match plan.sharing {
        Sharing::One => run_on_one::<Brand, R>(
            rt,
            alloc,
            plan,
            Blank::new(u64::from(plan.threads)),
        ),
        Sharing::Each => run_on_each(rt, alloc, plan),
    }
}

/// Runs all threads on one range.
fn run_on_one<L: Ledger + Send + Sync, R: Threads + Wait + Clock + Sync>(
    rt: &R,
    alloc: Global,
    plan: &ThreadPlan,
    blank: Blank,
) -> Result<Done, Fault>
    requires { (blank.name ≡ L.name) × (blank.parts ≡ L.parts) × (L.parts ≡ plan.now.threads) }
{
    let (range, passes) = open_range::<L>(alloc, blank, plan.shape.format, plan.threads)?;
    let (passes, spans) = run_passes(rt, alloc, plan, &range, passes)?;
    end(rt, alloc, range, passes, spans)
}

/// Runs a thread with each pass, and returns the passes.
fn run_passes<L: Ledger + Send + Sync, R: Threads + Wait + Clock + Sync>(
    rt: &R,
    alloc: Global,
    plan: &ThreadPlan,
    range: &SharedRange<L>,
    passes: Vec<Pass<L>>,
) -> Result<(Vec<Pass<L>>, Spans), Fault> {
    let starts = Starts::new(plan.threads);
    let all = thread::map_vec(
        rt,
        passes,
        &|pass| run_with(rt, alloc, plan, &starts, range, pass),
    )?;
    gather(alloc, all)
}

/// Returns the passes of all threads, and the spans that cover theirs.
fn gather<L: Ledger>(
    alloc: Global,
    all: Vec<Result<Returned<L>, Fault>>,
) -> Result<(Vec<Pass<L>>, Spans), Fault> {
    let mut passes = Vec::new(alloc);
    let mut spans = None;
    for returned in all {
        let Returned {
            pass,
            spans: others,
        } = returned?;
        passes.push(pass)?;
        spans = Some(covered(spans, others));
    }
    Ok((passes, spans.ok_or(Fault::NotTogether)?))
}

/// Returns the spans that cover both, or `others` if `spans` is `None`.
fn covered(spans: Option<Spans>, others: Spans) -> Spans {
    match spans {
        Some(spans) => spans.cover(others),
        None => others,
    }
}

/// Runs a thread on the range that all share. Its seat gives its part.
fn run_with<L: Ledger, R: Wait + Clock>(
    rt: &R,
    alloc: Global,
    plan: &ThreadPlan,
    starts: &Starts,
    range: &SharedRange<L>,
    mut pass: Pass<L>,
) -> Result<Returned<L>, Fault> {
    let part = plan.part(pass.seat());
    let spans = put_and_get(rt, alloc, range, &mut pass, starts, part)?;
    Ok(Returned { pass, spans })
}

/// Runs each thread on a range of its own.
fn run_on_each<R: Threads + Wait + Clock + Sync>(
    rt: &R,
    alloc: Global,
    plan: &ThreadPlan,
) -> Result<Done, Fault> {
    let starts = Starts::new(plan.threads);
    let mut numbers = Vec::new(alloc);
    for number in 0..plan.threads {
        numbers.push(number)?;
    }
    let all = thread::map_vec(
        rt,
        numbers,
        &|number| run_alone(rt, alloc, plan, &starts, number),
    )?;
    let mut done = None;
    for own in all {
        let own = own?;
        done = Some(match done {
            Some(done) => own.and(done),
            None => own,
        });
    }
    done.ok_or(Fault::NotTogether)
}

/// Runs a thread on a range of its own.
fn run_alone<R: Wait + Clock>(
    rt: &R,
    alloc: Global,
    plan: &ThreadPlan,
    starts: &Starts,
    number: u16,
) -> Result<Done, Fault> {
    run_on_own::<Brand, R>(rt, alloc, plan, starts, number, Blank::new(1))
}

/// Runs a thread on a range of its own, with the range's ledger.
fn run_on_own<L: Ledger, R: Wait + Clock>(
    rt: &R,
    alloc: Global,
    plan: &ThreadPlan,
    starts: &Starts,
    number: u16,
    blank: Blank,
) -> Result<Done, Fault>
    requires { (blank.name ≡ L.name) × (blank.parts ≡ L.parts) × (L.parts ≡ 1) }
{
    let (range, mut passes) = open_range::<L>(alloc, blank, plan.shape.format, 1)?;
    let pass = passes.first_mut().ok_or(Fault::TooFewPasses)?;
    let spans = put_and_get(rt, alloc, &range, pass, starts, plan.part(number))?;
    end(rt, alloc, range, passes, spans)
}

/// Opens a range with all keys at node 1, and the passes of its seats, 1 to 64. Refused: NoMemory.
pub(crate) fn open_range<L: Ledger>(
    alloc: Global,
    blank: Blank,
    format: Format,
    seats: u16,
) -> Result<(SharedRange<L>, Vec<Pass<L>>), Refusal>
    requires ledger { (blank.name ≡ L.name) × (blank.parts ≡ L.parts) × (L.parts ≡ seats) }
    requires few { (1 ≤ seats) × (seats ≤ 64) }
{
    let state = RangeState::new(alloc, config(format)?)?;
    let (book, passes) = open_passes::<L>(blank, alloc, seats)?;
    Ok((SharedRange::new(1, state, book), passes))
}

/// Closes a range whose calls are done. Refused: Stranger, NoMemory.
fn end<L: Ledger, R: Clock>(
    rt: &R,
    alloc: Global,
    range: SharedRange<L>,
    passes: Vec<Pass<L>>,
    spans: Spans,
) -> Result<Done, Fault> {
    let from = Instant::now(rt)?;
    let closed = close(alloc, range, passes)?;
    let to = Instant::now(rt)?;
    Ok(Done {
        spans,
        closing: Span { from, to },
        closed,
    })
}

/// Closes a range, and returns true if its passes and its journal agreed. Refused: Stranger, NoMemory.
fn close<L: Ledger>(
    alloc: Global,
    range: SharedRange<L>,
    passes: Vec<Pass<L>>,
) -> Result<bool, Refusal> {
    match range.close(alloc, passes) {
        Ok(_) => Ok(true),
        Err(refused) => match refused.refusal {
            Refusal::Unsettled { .. } => Ok(false),
            other => Err(other),
        },
    }
}
