//! Slots.
ghost use Rattle.std.specs.Prelude.{◌≡◌};

use crate::lines::show;
use admission::{Controller, SlotBudget};
use std::alloc::Global;
use std::io;
use std::marker::Brand;
use std::sync::ledger::{Blank, Ledger};
use vclock::Refusal;

/// Shows the calls on slots.
pub(crate) fn show_all<R: Print + AllocGlobal>(rt: &R) -> io::Result<()> {
    show(rt, "Controller::new", controller(rt.alloc()))?;
    show(rt, "SlotBudget::new", budget(rt.alloc()))
}

/// Returns the number of slots that a new budget can lend.
fn budget(alloc: Global) -> Result<u64, Refusal> {
    let budget = SlotBudget::new(alloc, 1, 8, 50_000)?;
    Ok(u64::from(budget.free()))
}

fn controller(alloc: Global) -> Result<u64, Refusal> {
    free_slots::<Brand>(Blank::new(1024), alloc)
}

/// Returns the number of slots that a new controller can lend.
fn free_slots<L: Ledger>(blank: Blank, alloc: Global) -> Result<u64, Refusal>
    requires ledger { (blank.name ≡ L.name) × (blank.parts ≡ L.parts) × (blank.parts ≡ 1024) }
{
    let controller = Controller::<L>::new(blank, alloc, 1, 8, 50_000)?;
    Ok(u64::from(controller.free()))
}
