//! A share of a value on the heap, or nothing.
ghost use Rattle.std.specs.Prelude.{◌≡◌, ℕ, true, false, Option, Some, None, MatchOption};
ghost use Rattle.c_handle.specs.Shares.{share_owns, share_shares};

use std::marker::Model;
use std::ptr::null_mut;

/// A share of a value on the heap, or nothing. A value has 2^63 shares, and each lets it be read.
#[repr(C)]
#[derive(Drop)]
pub struct Lent<T> {
    /// The place of the value, or null.
    pub at: *mut T,
    /// True if a share is held.
    pub held: bool,
    pub ghost value: { Option T },
    pub ghost round: { ℕ },
    pub ghost count: { ℕ },
}

impl<T> Model for Lent<T> {
    ghost also_owns = { λ h. share_owns T.row h.held h.at h.value h.round h.count };

    ghost also_shares = { λ h _ κ. share_shares T.row h.held h.at h.value h.round κ };
}

impl<T> Lent<T> {
    /// Makes a handle of nothing.
    pub fn none() -> Lent<T>
        ensures { (result.held ≡ false) × (result.value ≡ None) }
    {
        Lent {
            at: null_mut(),
            held: false,
        }
    }

    /// Returns the value, if a share of it is held.
    pub fn get(&self) -> Option<&T>
        ensures { MatchOption result (self.now.held ≡ false) (λ x. (self.now.held ≡ true) × (self.now.value ≡ Some x.now)) }
    {
        if self.is_held() {
            return Some(self.shown());
        }
        None
    }

    /// Returns true if a share is held.
    fn is_held(&self) -> bool
        ensures { result ≡ self.now.held }
    {
        self.held
    }

    /// Returns the value, of which a share is held.
    fn shown(&self) -> &T
        requires { self.now.held ≡ true }
        ensures { self.now.value ≡ Some result.now }
    {
        unsafe { &*self.at }
    }
}
