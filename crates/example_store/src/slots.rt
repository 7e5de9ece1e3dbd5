//! The slots of background work.
ghost use Rattle.std.specs.Prelude.{◌≡◌};

use admission::Controller;
use ring_node::SharedController;
use std::alloc::Global;
use std::sync::Wait;
use std::sync::ledger::{Blank, Ledger};
use vclock::Refusal;

/// The minimum number of slots.
const FLOOR: u32 = 1;

/// The maximum number of slots.
const CEILING: u32 = 8;

/// The latency, in microseconds, above which slots are taken away.
const THRESHOLD: u32 = 50_000;

/// Opens a node's slots. Refused: NoMemory.
pub(crate) fn open_slots<C: Ledger>(
    alloc: Global,
    blank: Blank,
) -> Result<SharedController<C>, Refusal>
    requires { (blank.name ≡ C.name) × (blank.parts ≡ C.parts) × (blank.parts ≡ 1024) }
{
    let controller = Controller::<C>::new(blank, alloc, FLOOR, CEILING, THRESHOLD)?;
    Ok(SharedController::new(controller))
}

/// Reports the latency of a foreground call, in microseconds, at a moment in milliseconds, and returns the number of
/// slots allowed afterwards. Refused: ClockBack.
pub(crate) fn report_latency<C: Ledger, R: Wait>(
    rt: &R,
    slots: &SharedController<C>,
    moment: u64,
    micros: u32,
) -> Result<u32, Refusal> {
    slots.sample(rt, moment, micros)?;
    slots.adjust(rt, moment)?;
    Ok(slots.counts(rt).allowance)
}
