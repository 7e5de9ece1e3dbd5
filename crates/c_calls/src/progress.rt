//! The progress of exchanges.
ghost use Rattle.std.specs.Prelude.{◌≡◌, slice_get};
ghost use Rattle.exchange.specs.Exchanges.{left_of, record_in};
ghost use Rattle.c_calls.specs.Progress.{report_number, report_cause, progress_in, TellsNode};

use crate::exchanges::number_of;
use crate::numbers::NO_VERSION;
use exchange::{Exchange, Report};
use range_state::RangeState;

/// The progress of an exchange, with its counts.
#[repr(C)]
#[derive(Clone, Copy)]
pub struct Progress {
    /// 0 finished, 1 waiting, 2 left, 3 stopped, 4 too many bad, 5 too many lost, 6 failed, 7 closed, 8 gone.
    pub report: u64,
    /// The number of JournalFull or NoMemory if it is stopped; otherwise 0.
    pub cause: u64,
    /// The number of asks that were sent.
    pub asks: u64,
    /// The number of asks in progress.
    pub in_flight: u64,
    /// The estimated size of the answers to them, in bytes.
    pub bytes_in_flight: u64,
    /// The number of bad answers.
    pub bad: u64,
    /// The number of lost asks.
    pub lost: u64,
    /// The number of new versions in the taken answers.
    pub accepted: u64,
    /// The number of known versions in them.
    pub known: u64,
    /// The number of leaves that were taken.
    pub leaves: u64,
}

/// A leaf that was left.
#[repr(C)]
#[derive(Clone, Copy)]
pub struct LeftNode {
    /// Its depth.
    pub depth: u64,
    /// Its index there.
    pub index: u64,
}

/// Returns the progress of an exchange. Doesn't allocate.
pub fn progress_of(exchange: &Exchange, state: &RangeState) -> Progress
    ensures { result ≡ progress_in exchange.now state.now }
{
    let report = exchange.report(state);
    let tally = exchange.tally();
    Progress {
        report: number_of_report(report),
        cause: cause_of(report),
        asks: tally.asks,
        in_flight: exchange.in_flight(),
        bytes_in_flight: exchange.bytes_in_flight(),
        bad: tally.bad,
        lost: tally.lost,
        accepted: tally.accepted,
        known: tally.known,
        leaves: tally.leaves,
    }
}

/// Returns the number of a report.
fn number_of_report(report: Report) -> u64
    ensures { result ≡ report_number report }
{
    match report {
        Report::Finished => 0,
        Report::Waiting => 1,
        Report::Left => 2,
        Report::Stopped(_) => 3,
        Report::TooManyBad => 4,
        Report::TooManyLost => 5,
        Report::Failed => 6,
        Report::Closed => 7,
        Report::Gone => 8,
    }
}

/// Returns the number of the cause for which asks stopped, if they did; otherwise 0.
fn cause_of(report: Report) -> u64
    ensures { result ≡ report_cause report }
{
    match report {
        Report::Stopped(stop) => number_of(stop),
        _ => 0,
    }
}

/// Stores a leaf that was left, by its place among them from 0. Doesn't allocate. Refused: NO_VERSION (fewer were
/// left).
pub fn left(exchange: &Exchange, state: &RangeState, place: u64, node: &mut LeftNode) -> u32
    ensures { TellsNode (slice_get (left_of exchange.now (record_in exchange.now state.now)) place) result node.old node.new }
{
    let Some(leaf) = exchange.left(state, place as usize) else {
        return NO_VERSION;
    };
    *node = LeftNode {
        depth: u64::from(leaf.depth),
        index: u64::from(leaf.index),
    };
    0
}
