//! Slots for background work, lent while the foreground is fast enough: section 6.5 of the Dynamo paper. Use it to
//! admit background work such as syncs by the latency of reads and writes.
//!
//! - [`budget`]: the numbers of slots that are lent and may be, which follow the latency of the foreground.
//! - [`controller`]: lends slots within a budget.
//! - [`slot`]: a slot, which can't be dropped: a program that loses one doesn't compile.
//!
//! ```
//! controller.set_target(3);
//! expect_slots(&controller, 3, 0, 3)?;
//! controller.reset();
//! expect_slots(&controller, 8, 0, 8)?;
//! ```
#![tactic(auto)]

pub mod budget;
pub mod controller;
mod latency;
pub mod slot;

pub use budget::SlotBudget;
pub use controller::Controller;
pub use slot::Slot;
