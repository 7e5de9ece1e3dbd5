//! The plan of a load.
ghost use Rattle.std.specs.Prelude.{◌≤◌};

use crate::entries::Shape;
use std::time::Duration;

/// The maximum number of keys. A journal takes 1,000,000 entries, so 900,000 keys leave some for the puts.
const KEYS_MAX: u64 = 900_000;

/// The maximum number of puts.
const PUTS_MAX: u64 = 1_000_000;

/// The worker alongside the puts.
#[derive(Clone, Copy, PartialEq, Eq)]
pub(crate) enum Worker {
    /// It makes no snapshot.
    Nothing,
    /// It holds moments, hashes them, and makes their snapshots.
    Moments,
    /// It hashes dirty nodes until all are clean, then makes a snapshot.
    Rounds,
}

/// The number of keys and their shape, the pace and the number of the puts, and the worker alongside.
#[derive(Clone, Copy)]
pub(crate) struct LoadPlan {
    pub(crate) keys: u64,
    pub(crate) shape: Shape,
    pub(crate) puts: u64,
    pub(crate) worker: Worker,
    puts_per_s: u64,
    ghost some: { 1 ≤ keys },
    ghost paced: { 1 ≤ puts_per_s },
}

impl Worker {
    /// Returns the worker named by an argument.
    fn of_word(word: &str) -> Option<Worker> {
        match word {
            "nothing" => Some(Worker::Nothing),
            "moments" => Some(Worker::Moments),
            "rounds" => Some(Worker::Rounds),
            _ => None,
        }
    }
}

impl LoadPlan {
    /// Returns the plan from these arguments, or `None` if they are invalid: the number of keys, the number of puts in
    /// a second, the number of seconds, the worker, and the arguments of the shape.
    pub(crate) fn of_words(words: &[String]) -> Option<LoadPlan> {
        let [keys, puts_per_s, seconds, worker, shape @ ..] = words else {
            return None;
        };
        let puts_per_s = puts_per_s.parse::<u64>().ok()?;
        let puts = puts_per_s.checked_mul(seconds.parse::<u64>().ok()?)?;
        let keys = keys.parse::<u64>().ok()?;
        let (shape, worker) = (Shape::of_words(shape)?, Worker::of_word(worker)?);
        if 1 <= keys && keys <= KEYS_MAX && 1 <= puts_per_s && puts <= PUTS_MAX {
            Some(LoadPlan {
                keys,
                shape,
                puts,
                worker,
                puts_per_s,
            })
        } else {
            None
        }
    }

    /// Returns the time from the first put to the put of a number, from 0.
    pub(crate) fn due(&self, number: u64) -> Duration {
        Duration::from_nanos(number.saturating_mul(1_000_000_000) / self.puts_per_s)
    }

    /// Returns the number of the key for a random number.
    pub(crate) fn draw(&self, random: u64) -> u64 {
        (random >> 33) % self.keys
    }
}
