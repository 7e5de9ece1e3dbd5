//! Refusals of reads.
ghost use Rattle.std.specs.Prelude.{◌≡◌};

use std::marker::{Model, PhantomData};
use std::sync::ledger::Ledger;
use vclock::Refusal;

/// The refusal of a read. Only a read of the range of this ledger makes one, for the pass that it was lent.
///
/// ```
/// match range.get(rt, alloc, pass, key) {
///     Ok(versions) => Ok(versions),
///     Err(unread) => Err(unread.into_refusal()),
/// }
/// ```
#[derive(Drop)]
pub struct Unread<L: Ledger> {
    seat: u16,
    refusal: Refusal,
    of: PhantomData<L>,
}

impl<L: Ledger> Model for Unread<L> {
    ghost use Rattle.caller_pass.specs.Locks.{UnreadView};

    ghost Value = { UnreadView };

    ghost view = { λ u. record { seat = u.seat; refusal = u.refusal } };
}

impl<L: Ledger> Unread<L> {
    /// Makes the refusal of a read by the pass of that seat.
    pub(crate) fn new(seat: u16, refusal: Refusal) -> Unread<L>
        ensures { result ≡ record { seat = seat; refusal = refusal } }
    {
        Unread {
            seat,
            refusal,
            of: PhantomData,
        }
    }

    /// The seat of the pass.
    pub fn seat(&self) -> u16
        ensures { result ≡ self.now.seat }
    {
        self.seat
    }

    /// The refusal.
    pub fn into_refusal(self) -> Refusal
        ensures { result ≡ self.refusal }
    {
        self.refusal
    }
}
