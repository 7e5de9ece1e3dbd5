//! Slots.
ghost use Rattle.std.specs.Prelude.{◌≡◌};

use std::sync::ledger::{Ledger, Share};

/// The right to do one piece of background work.
///
/// It is one part of the ledger of its controller, and counts as one there, so that no slot is made or counted twice,
/// and no slot of one controller is given to another. It can't be dropped: its borrower must give it back.
///
/// ```
/// let slot = controller.lend()?;
/// let counts = (controller.lent(), controller.free());
/// controller.give_back(slot);
/// ```
pub struct Slot<L: Ledger> {
    pub(crate) share: Share<L>,
    pub ghost part: { share.parts ≡ 1 },
    pub ghost one: { share.amount ≡ 1 },
}
