//! Latencies, and their percentile.
ghost use Rattle.std.specs.Prelude.{◌≡◌, ◌+◌, ◌*◌, ◌<◌, ◌≤◌, length, [], ◌∷◌, ◌++◌, MatchOption, vec_capacity, vec_len};
ghost use Rattle.admission.specs.Admission.{window_of, IsPercentile, percentile, pairs};

use circular_buffer::HeapCircularBuffer;

/// The maximum number of samples kept.
pub(crate) const MOST: usize = 1024;

/// The age in milliseconds from which a sample no longer counts.
const MINUTE: u64 = 60_000;

/// A latency of a read or a write of the foreground, in microseconds, and the moment in milliseconds when it was
/// measured.
#[derive(Clone, Copy)]
pub struct Sample {
    pub moment: u64,
    pub micros: u32,
}

/// Writes the latencies of the last 60,000 milliseconds to the buffer, oldest first.
#[tactic(auto, using(crate::proofs::Ranks::window_more))]
pub(crate) fn window(room: &mut Vec<u32>, samples: &HeapCircularBuffer<Sample>, now: u64)
    requires { (1024 ≤ vec_capacity room.old) × (samples.now.capacity ≡ 1024) }
    ensures items { room.new.items ≡ window_of now (pairs samples.now.items) }
    ensures short { vec_len room.new ≤ 1024 }
    ensures capacity { vec_capacity room.new ≡ vec_capacity room.old }
{
    room.clear();
    for i in 0..samples.len() {
        let Some(sample) = samples.get(i) else {
            unreachable!();
        };
        keep_new(room, sample, now);
    }
}

/// Appends the latency of a sample from the last 60,000 milliseconds; skips an older one.
fn keep_new(room: &mut Vec<u32>, sample: &Sample, now: u64)
    requires { vec_len room.old < vec_capacity room.old }
    ensures items { room.new.items ≡ room.old.items ++ window_of now (pairs (sample.now ∷ [])) }
    ensures len { vec_len room.new ≤ vec_len room.old + 1 }
    ensures capacity { vec_capacity room.new ≡ vec_capacity room.old }
{
    if now.saturating_sub(sample.moment) < MINUTE {
        room.push_reserved(sample.micros);
    }
}

/// Returns the 99th percentile of the latencies in the buffer and sorts them, or returns `None` if the buffer is empty.
pub(crate) fn percentile(room: &mut Vec<u32>) -> Option<u32>
    requires { vec_len room.old ≤ 1024 }
    ensures value { result ≡ percentile room.old.items }
    ensures fact { MatchOption result (room.old.items ≡ []) (IsPercentile room.old.items) }
    ensures capacity { vec_capacity room.new ≡ vec_capacity room.old }
{
    if room.is_empty() {
        return None;
    }
    Some(ranked(room.as_mut_slice()))
}

/// Returns the 99th percentile of a slice that isn't empty, and sorts it.
fn ranked(latencies: &mut [u32]) -> u32
    requires { (0 < length latencies.old) × (length latencies.old ≤ 1024) }
    ensures { IsPercentile latencies.old result }
{
    latencies.sort_unstable();
    latencies[place(latencies.len())]
}

/// Returns the smallest index, among `count` sorted latencies, with at least 99 of 100 at or before it.
fn place(count: usize) -> usize
    requires { (0 < count) × (count ≤ 1024) }
    ensures within { result < count }
    ensures enough { 99 * count ≤ 100 * (result + 1) }
    ensures first { 100 * result < 99 * count }
{
    (99 * count + 99) / 100 - 1
}
