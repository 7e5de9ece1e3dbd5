//! A gate that looks at the clock.
use crate::storms::latencies::Latencies;
use crate::storms::{StormPlan, Workers};
use crate::times::Times;
use ring_node::{Gate, Step};
use std::alloc::{AllocError, Global};
use std::sync::{Mutex, Wait};
use std::thread;
use std::time::{Clock, Duration, Instant};
use storm::Tallies;

/// The maximum number of times that a worker checks whether both writers have ended, once a millisecond.
const LOOKS_MAX: u64 = 60_000;

/// A gate that notes the time of each put of a storm, which includes making its key and value: from the time at which
/// its writer has passed the gate to the time at which it reaches the gate again. If the workers are to run after the
/// writers, the gate holds them until the writers have ended, for at most a minute.
#[derive(Drop)]
pub(crate) struct Watch<'a, R: Clock> {
    clock: &'a R,
    tallies: &'a Tallies,
    plan: StormPlan,
    latencies: Mutex<Latencies>,
}

impl<'a, R: Clock> Watch<'a, R> {
    /// Returns a gate for the storm of a plan, which has noted nothing.
    pub(crate) fn new(
        alloc: Global,
        clock: &'a R,
        tallies: &'a Tallies,
        plan: StormPlan,
    ) -> Result<Watch<'a, R>, AllocError> {
        // (both writers' puts: at most 20,000)
        let latencies = Latencies::new(alloc, 20_000)?;
        Ok(Watch {
            clock,
            tallies,
            plan,
            latencies: Mutex::new(latencies),
        })
    }

    /// Returns the times of the puts, sorted.
    pub(crate) fn into_times(self) -> Times {
        self.latencies.into_inner().into_times()
    }

    /// Notes a put. The time that this takes isn't part of the next put's time.
    fn note_put<W: Wait>(&self, rt: &W) {
        let Ok(ended) = Instant::now(self.clock) else {
            return;
        };
        let mut latencies = self.latencies.lock(rt);
        let is_one = latencies.note(ended, self.tallies.one.look(rt).puts);
        latencies.go_on(is_one, Instant::now(self.clock).ok());
    }

    /// Holds a worker until both writers have ended.
    fn hold_worker<W: Wait>(&self, rt: &W) {
        for _ in 0..LOOKS_MAX {
            if self.have_written(rt) {
                return;
            }
            thread::sleep(self.clock, Duration::from_millis(1));
        }
    }

    /// Returns true if both writers have done all their puts.
    fn have_written<W: Wait>(&self, rt: &W) -> bool {
        let puts = self.plan.puts;
        self.tallies.one.look(rt).puts >= puts && self.tallies.two.look(rt).puts >= puts
    }
}

impl<'a, R: Clock> Gate for Watch<'a, R> {
    fn pass<W: Wait>(&self, rt: &W, step: Step) {
        if step == Step::Put {
            self.note_put(rt);
        } else if self.plan.workers == Workers::Afterwards {
            self.hold_worker(rt);
        }
    }
}
