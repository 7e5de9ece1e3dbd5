//! Lists of steps: drawn, run, and shortened if they fail.

use crate::steps::{Setup, Step};
use crate::tally::Tally;
use crate::trial;
use plain_model::random::Random;
use plain_model::trouble::Trouble;
use std::alloc::Global;
use std::sync::Wait;

/// Runs the list of a seed, and adds its counts. Returns true if nothing differs. Otherwise it writes the first
/// difference on standard error, with the steps that show it.
pub(crate) fn run_list<R>(rt: &R, seed: u64, count: u64, tally: &mut Tally) -> bool
where
    R: Eprint + AllocGlobal + Wait,
{
    let alloc = rt.alloc();
    let mut random = Random::new(seed);
    let setup = Setup::draw(&mut random, seed);
    let result = match setup.draw_steps(alloc, &mut random, count) {
        Ok(steps) => run_steps(rt, alloc, &setup, &steps, tally),
        Err(refusal) => Err(Trouble::from(refusal)),
    };
    match result {
        Ok(()) => true,
        Err(trouble) => {
            let _ = eprintln!(rt; "list {seed}: {trouble}");
            false
        }
    }
}

/// Runs steps, and adds their counts.
fn run_steps<R: Eprint + Wait>(
    rt: &R,
    alloc: Global,
    setup: &Setup,
    steps: &[Step],
    tally: &mut Tally,
) -> Result<(), Trouble> {
    match trial::run_list(rt, alloc, setup, Vec::from_slice(alloc, steps)?) {
        Ok(counts) => {
            tally.add(&counts);
            Ok(())
        }
        Err(trouble) => {
            show(rt, alloc, setup, steps)?;
            Err(trouble)
        }
    }
}

/// Leaves out each step without which the list still fails, from the last one, and writes the others on standard error.
fn show<R: Eprint + Wait>(
    rt: &R,
    alloc: Global,
    setup: &Setup,
    steps: &[Step],
) -> Result<(), Trouble> {
    let mut left = Vec::from_slice(alloc, steps)?;
    for place in (0..steps.len()).rev() {
        if place < left.len() {
            let mut fewer = left.clone()?;
            let _step = fewer.remove(place);
            if trial::run_list(rt, alloc, setup, fewer.clone()?).is_err() {
                left = fewer;
            }
        }
    }
    for step in &left {
        let _ = eprintln!(rt; "  {step}");
    }
    Ok(())
}
