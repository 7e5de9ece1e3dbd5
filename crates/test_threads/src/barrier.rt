//! A barrier that holds a thread until another one opens it.
use ring_node::{Gate, Step};
use std::sync::Wait;
use std::sync::atomic::{AtomicU64, Ordering};
use std::thread;

/// The maximum number of times that a thread checks if it may continue.
const LOOKS_MAX: u64 = 10_000_000;

/// A barrier that holds a thread until it is opened. As a gate it holds a worker at one step.
#[derive(Drop)]
pub struct Barrier {
    step: Step,
    arrived: AtomicU64,
    opened: AtomicU64,
    gave_up: AtomicU64,
}

impl Barrier {
    /// Returns a closed barrier that no thread has reached.
    pub fn new(step: Step) -> Barrier {
        Barrier {
            step,
            arrived: AtomicU64::new(0),
            opened: AtomicU64::new(0),
            gave_up: AtomicU64::new(0),
        }
    }

    /// Holds a thread until the barrier is opened.
    pub fn hold(&self) {
        self.arrived.store(1, Ordering::SeqCst);
        self.wait_for(&self.opened);
    }

    /// Waits until a thread is held.
    pub fn wait_for_arrival(&self) {
        self.wait_for(&self.arrived);
    }

    /// Releases the held thread, and each one that reaches the barrier later.
    pub fn open(&self) {
        self.opened.store(1, Ordering::SeqCst);
    }

    /// Returns true if a thread checked 10,000,000 times in vain.
    pub fn gave_up(&self) -> bool {
        self.gave_up.load(Ordering::SeqCst) > 0
    }

    /// Waits until the word is set, or gives up.
    fn wait_for(&self, word: &AtomicU64) {
        for _ in 0..LOOKS_MAX {
            if word.load(Ordering::SeqCst) > 0 {
                return;
            }
            thread::yield_now();
        }
        self.gave_up.store(1, Ordering::SeqCst);
    }
}

impl Gate for Barrier {
    fn pass<R: Wait>(&self, _rt: &R, step: Step) {
        if step == self.step {
            self.hold();
        }
    }
}
