//! Ranges that are closed.
use caller_pass::{Closed, LockedRange, Pass, Unclosed};
use ring_node::{NotClosed, SharedRange};
use std::alloc::Global;
use std::sync::ledger::Ledger;
use vclock::Refusal;

/// A range that was closed, on the second try if the first one was refused.
#[derive(Drop)]
pub(crate) struct Closing<L: Ledger> {
    pub(crate) closed: Closed<L>,
    /// The refusal of the first try, if any.
    pub(crate) refusal: Option<Refusal>,
}

/// Closes a locked range.
pub(crate) fn close_locked<L: Ledger>(
    alloc: Global,
    range: LockedRange<L>,
    passes: Vec<Pass<L>>,
) -> Result<Closing<L>, Refusal> {
    let unclosed = match range.close(alloc, passes) {
        Ok(closed) => return Ok(at_once(closed)),
        Err(unclosed) => unclosed,
    };
    let Unclosed {
        range,
        passes,
        refusal,
    } = unclosed;
    match range.close(alloc, passes) {
        Ok(closed) => Ok(again(closed, refusal)),
        Err(unclosed) => Err(unclosed.refusal),
    }
}

/// Closes a shared range.
pub(crate) fn close_shared<L: Ledger>(
    alloc: Global,
    range: SharedRange<L>,
    passes: Vec<Pass<L>>,
) -> Result<Closing<L>, Refusal> {
    let unclosed = match range.close(alloc, passes) {
        Ok(closed) => return Ok(at_once(closed)),
        Err(unclosed) => unclosed,
    };
    let NotClosed {
        range,
        passes,
        refusal,
    } = unclosed;
    match range.close(alloc, passes) {
        Ok(closed) => Ok(again(closed, refusal)),
        Err(unclosed) => Err(unclosed.refusal),
    }
}

/// Renews a locked range for its seat 1, and closes it. If the renewal is refused, closes the range itself.
pub(crate) fn renew_locked<L: Ledger>(
    alloc: Global,
    range: LockedRange<L>,
    passes: Vec<Pass<L>>,
) -> Result<Closing<L>, Refusal> {
    let unclosed = match range.renew(alloc, passes, 1, 50) {
        Ok(renewed) => {
            return match renewed.range.close(alloc, renewed.passes) {
                Ok(closed) => Ok(at_once(closed)),
                Err(unclosed) => Err(unclosed.refusal),
            };
        }
        Err(unclosed) => unclosed,
    };
    let Unclosed {
        range,
        passes,
        refusal,
    } = unclosed;
    match range.close(alloc, passes) {
        Ok(closed) => Ok(again(closed, refusal)),
        Err(unclosed) => Err(unclosed.refusal),
    }
}

/// Renews a shared range for its seat 1, and closes it. If the renewal is refused, closes the range itself.
pub(crate) fn renew_shared<L: Ledger>(
    alloc: Global,
    range: SharedRange<L>,
    passes: Vec<Pass<L>>,
) -> Result<Closing<L>, Refusal> {
    let unclosed = match range.renew(alloc, passes, 1, 50) {
        Ok(renewed) => {
            return match renewed.range.close(alloc, renewed.passes) {
                Ok(closed) => Ok(at_once(closed)),
                Err(unclosed) => Err(unclosed.refusal),
            };
        }
        Err(unclosed) => unclosed,
    };
    let NotClosed {
        range,
        passes,
        refusal,
    } = unclosed;
    match range.close(alloc, passes) {
        Ok(closed) => Ok(again(closed, refusal)),
        Err(unclosed) => Err(unclosed.refusal),
    }
}

fn at_once<L: Ledger>(closed: Closed<L>) -> Closing<L> {
    Closing {
        closed,
        refusal: None,
    }
}

fn again<L: Ledger>(closed: Closed<L>, refusal: Refusal) -> Closing<L> {
    Closing {
        closed,
        refusal: Some(refusal),
    }
}
