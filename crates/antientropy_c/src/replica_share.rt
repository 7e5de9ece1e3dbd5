//! The handle of a share of a replica, which is only read.
ghost use Rattle.std.specs.Prelude.{◌≡◌, ℕ, Some};
ghost use Rattle.c_handle.specs.Shares.{share_owns};
ghost use Rattle.c_calls.specs.Kept.{KeptState};
ghost use Rattle.c_calls.specs.contracts.kept.Kept.{the_row};

use c_calls::kept::Kept;
use c_handle::{Lent, ReadInC};
use std::marker::Model;

/// A share of a replica on the heap, or nothing. The ghost state of an empty share is arbitrary. A replica has 2^63
/// shares.
#[repr(C)]
#[derive(Drop)]
pub struct ReplicaShare {
    at: *mut u8,
    pub held: bool,
    pub ghost kept: { KeptState },
    pub ghost round: { ℕ },
    pub ghost count: { ℕ },
}

impl Model for ReplicaShare {
    ghost also_owns = { λ h. share_owns the_row h.held h.at (Some h.kept) h.round h.count };
}

// A share may go to another thread, since a replica may be read there.
unsafe impl Send for ReplicaShare {}

impl ReadInC for ReplicaShare {
    type Held = Kept;

    ghost lent = { λ h. record { at = h.at; held = h.held; value = Some h.kept; round = h.round; count = h.count } };

    fn of(share: Lent<Kept>) -> ReplicaShare
        ensures { (h : ReplicaShare)
            → share ≡ record { at = h.at; held = h.held; value = Some h.kept; round = h.round; count = h.count }
            → result ≡ h }
    {
        let Lent { at, held } = share;
        ReplicaShare {
            at: at as *mut u8,
            held,
        }
    }

    fn into_lent(self) -> Lent<Kept>
        ensures { result
            ≡ record { at = self.at; held = self.held; value = Some self.kept; round = self.round; count = self.count } }
    {
        let ReplicaShare { at, held } = self;
        Lent {
            at: at as *mut Kept,
            held,
        }
    }
}
