//! The structs of C that hold a share of a value, one for each type.
ghost use Rattle.std.specs.Prelude.{◌≡◌};
ghost use Rattle.c_handle.specs.declared.lent.Lent.{Lent};

use crate::lent::Lent;
use std::mem::replace;

/// A struct of C that holds a share of a value of one type.
///
/// An export takes no struct with type arguments or `also_shares`, so there is a struct for each type, with the fields of
/// a [`Lent`]. `proofs/LentLaws.antt` proves its two conversions.
pub trait ReadInC: Drop {
    /// The type of the value.
    type Held;

    ghost lent: { Self → Lent Self.Held };

    /// Converts a handle of a share into the one of C.
    fn of(share: Lent<Self::Held>) -> Self
        ensures { (h : Self) → share ≡ lent h → result ≡ h };

    /// Converts the handle of C into a handle of a share.
    fn into_lent(self) -> Lent<Self::Held>
        ensures { result ≡ lent self };

    /// Takes the share out. The handle is empty then.
    final fn take(&mut self) -> Lent<Self::Held>
        ensures { result ≡ lent self.old }
    {
        replace(self, Self::of(Lent::none())).into_lent()
    }

    /// Puts a share into an empty handle. A share that is dropped with its handle would never be given back.
    final fn hold(&mut self, share: Lent<Self::Held>)
        ensures { (h : Self) → share ≡ lent h → self.new ≡ h }
    {
        let _before = replace(self, Self::of(share));
    }
}
