//! A line at which threads wait for one another.
use crate::fault::Fault;
use std::sync::{Condvar, Mutex, Wait};
use std::time::{Clock, Duration};

/// The time that a thread waits for the others, in seconds. A thread that couldn't be spawned never arrives.
const PATIENCE: u64 = 30;

/// A line at which threads wait until all have arrived.
#[derive(Drop)]
pub(crate) struct StartLine {
    threads: u16,
    arrived: Mutex<u16>,
    came: Condvar,
}

impl StartLine {
    /// Returns a line for this number of threads, before any of them arrives.
    pub(crate) fn new(threads: u16) -> StartLine {
        StartLine {
            threads,
            arrived: Mutex::new(0),
            came: Condvar::new(),
        }
    }

    /// Waits until all have arrived. Refused: NotTogether.
    pub(crate) fn meet<R: Wait + Clock>(&self, rt: &R) -> Result<(), Fault> {
        let all = self.threads;
        let mut arrived = self.arrived.lock(rt);
        *arrived = arrived.saturating_add(1);
        self.came.notify_all();
        let patience = Duration::from_secs(PATIENCE);
        let (_, waited) = self
            .came
            .wait_timeout_while(rt, arrived, patience, |arrived| *arrived < all);
        if waited.timed_out() {
            Err(Fault::NotTogether)
        } else {
            Ok(())
        }
    }
}
