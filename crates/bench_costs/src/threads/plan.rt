//! The plan of the threads.
ghost use Rattle.std.specs.Prelude.{◌≤◌};

use crate::entries::Shape;
use vclock::limits::ENTRIES_MAX;

/// The maximum number of threads.
const THREADS_MAX: u16 = 8;

/// The ranges that the threads write.
#[derive(Clone, Copy)]
pub(crate) enum Sharing {
    /// All write one range.
    One,
    /// Each writes a range of its own.
    Each,
}

/// The number of keys to write, their shape, the number of threads, and the ranges.
#[derive(Clone, Copy)]
pub(crate) struct ThreadPlan {
    pub(crate) keys: u64,
    pub(crate) shape: Shape,
    pub(crate) threads: u16,
    pub(crate) sharing: Sharing,
    ghost some: { 1 ≤ threads },
    ghost few: { threads ≤ 8 },
}

/// The keys of a thread, numbered `from..to`.
#[derive(Clone, Copy)]
pub(crate) struct Part {
    pub(crate) from: u64,
    pub(crate) to: u64,
    pub(crate) shape: Shape,
}

impl Sharing {
    /// Returns the sharing named by an argument.
    fn of_word(word: &str) -> Option<Sharing> {
        match word {
            "one" => Some(Sharing::One),
            "each" => Some(Sharing::Each),
            _ => None,
        }
    }
}

impl ThreadPlan {
    /// Returns the plan from these arguments, or `None` if they are invalid: the number of keys, the number of threads,
    /// `one` or `each`, and the arguments of the shape.
    pub(crate) fn of_words(words: &[String]) -> Option<ThreadPlan> {
        let [keys, threads, sharing, shape @ ..] = words else {
            return None;
        };
        ThreadPlan::new(
            keys.parse::<u64>().ok()?,
            Shape::of_words(shape)?,
            threads.parse::<u16>().ok()?,
            Sharing::of_word(sharing)?,
        )
    }

    /// Returns a plan if it has 1 to 1,000,000 keys, the maximum number of entries of a journal, and 1 to 8 threads.
    fn new(keys: u64, shape: Shape, threads: u16, sharing: Sharing) -> Option<ThreadPlan> {
        if 1 <= keys && keys <= ENTRIES_MAX && 1 <= threads && threads <= THREADS_MAX {
            Some(ThreadPlan {
                keys,
                shape,
                threads,
                sharing,
            })
        } else {
            None
        }
    }

    /// Returns the number of ranges that the threads write.
    pub(crate) fn ranges(&self) -> u16 {
        match self.sharing {
            Sharing::One => 1,
            Sharing::Each => self.threads,
        }
    }

    /// Returns the part of a thread by its number, from 0. A number past the last thread has no keys.
    pub(crate) fn part(&self, number: u16) -> Part {
        Part {
            from: self.of_first(number),
            to: self.of_first(number.saturating_add(1)),
            shape: self.shape,
        }
    }

    /// Returns the number of keys of the first threads.
    fn of_first(&self, threads: u16) -> u64 {
        let threads = u64::from(threads.min(self.threads));
        threads.saturating_mul(self.keys) / u64::from(self.threads)
    }
}
