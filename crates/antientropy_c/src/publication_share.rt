//! The handle of a share of a snapshot, which is only read.
ghost use Rattle.std.specs.Prelude.{◌≡◌, ℕ, Some};
ghost use Rattle.c_handle.specs.Shares.{share_owns};
ghost use Rattle.c_calls.specs.Published.{Shown};
ghost use Rattle.c_calls.specs.contracts.published.Published.{the_row};

use c_calls::published::Published;
use c_handle::{Lent, ReadInC};
use std::marker::Model;

/// A share of a snapshot on the heap, or nothing. The ghost value of an empty share is arbitrary. A snapshot has 2^63
/// shares.
#[repr(C)]
#[derive(Drop)]
pub struct PublicationShare {
    at: *mut u8,
    pub held: bool,
    pub ghost shown: { Shown },
    pub ghost round: { ℕ },
    pub ghost count: { ℕ },
}

impl Model for PublicationShare {
    ghost also_owns = { λ h. share_owns the_row h.held h.at (Some h.shown) h.round h.count };
}

// A share may go to another thread, since a snapshot may be read there.
unsafe impl Send for PublicationShare {}

impl ReadInC for PublicationShare {
    type Held = Published;

    ghost lent = { λ h. record { at = h.at; held = h.held; value = Some h.shown; round = h.round; count = h.count } };

    fn of(share: Lent<Published>) -> PublicationShare
        ensures { (h : PublicationShare)
            → share ≡ record { at = h.at; held = h.held; value = Some h.shown; round = h.round; count = h.count }
            → result ≡ h }
    {
        let Lent { at, held } = share;
        PublicationShare {
            at: at as *mut u8,
            held,
        }
    }

    fn into_lent(self) -> Lent<Published>
        ensures { result
            ≡ record { at = self.at; held = self.held; value = Some self.shown; round = self.round; count = self.count } }
    {
        let PublicationShare { at, held } = self;
        Lent {
            at: at as *mut Published,
            held,
        }
    }
}
