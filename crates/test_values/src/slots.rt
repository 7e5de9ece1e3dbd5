//! Slots.
ghost use Rattle.std.specs.Prelude.{◌≡◌};

use crate::checks::expect;
use admission::Controller;
use std::alloc::Global;
use std::marker::Brand;
use std::sync::ledger::{Blank, Ledger};
use std::test::Fail;
use vclock::Refusal;

/// Asserts a controller's target, and its numbers of lent and free slots. All slots of the target are allowed.
fn expect_slots<L: Ledger>(
    controller: &Controller<L>,
    target: u32,
    lent: u32,
    free: u32,
) -> Result<(), Fail> {
    expect(
        controller.target() == target && controller.allowance() == target,
        "a controller has its target",
    )?;
    expect(
        controller.lent() == lent && controller.free() == free,
        "a controller counts its slots",
    )
}

/// Lends a slot and returns it to the controller. Returns the numbers of lent and free slots in between.
fn counts_of_one<L: Ledger>(controller: &mut Controller<L>) -> Result<(u32, u32), Refusal> {
    let slot = controller.lend()?;
    let counts = (controller.lent(), controller.free());
    controller.give_back(slot);
    Ok(counts)
}

/// Asserts that a controller counts a lent slot.
fn expect_one_lent<L: Ledger>(controller: &mut Controller<L>) -> Result<(), Fail> {
    let (lent, free) = counts_of_one(controller)?;
    expect(lent == 1 && free == 7, "one slot is lent")?;
    expect_slots(controller, 8, 0, 8)
}

/// Asserts that all slots of a new controller are free, and again once its target was lowered and it was reset.
fn expect_reset<L: Ledger>(blank: Blank, alloc: Global) -> Result<(), Fail>
    requires ledger { (blank.name ≡ L.name) × (blank.parts ≡ L.parts) × (blank.parts ≡ 1024) }
{
    let mut controller = Controller::<L>::new(blank, alloc, 1, 8, 50_000)?;
    expect_slots(&controller, 8, 0, 8)?;
    controller.set_target(3);
    expect_slots(&controller, 3, 0, 3)?;
    controller.reset();
    expect_slots(&controller, 8, 0, 8)?;
    expect_one_lent(&mut controller)
}

#[test]
fn a_reset_restores_the_target(rt: HostRuntime) -> Result<(), Fail> {
    expect_reset::<Brand>(Blank::new(1024), rt.alloc())
}
