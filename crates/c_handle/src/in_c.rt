//! The structs of C that are handles, one for each type.
ghost use Rattle.std.specs.Prelude.{◌≡◌, true, false, Bool, MatchOption, Some, IfSome};

use crate::handle::Handle;
use std::alloc::Global;
use std::mem::replace;

/// A struct of C that is a handle of one type.
///
/// An export takes no struct with type arguments, so there is a struct for each type, with the fields of a [`Handle`].
/// `proofs/HandleLaws.antt` proves its two conversions.
pub trait InC: Drop {
    /// The type of the value.
    type Held: Drop;

    ghost held: { Self → Bool };

    ghost value: { Self → Self.Held };

    /// Converts a handle into the one of C.
    fn of(handle: Handle<Self::Held, Global>) -> Self
        ensures { (held result ≡ handle.held) × IfSome handle.value (λ x. value result ≡ x) };

    /// Converts the handle of C into a handle.
    fn into_handle(self) -> Handle<Self::Held, Global>
        ensures { (result.held ≡ held self) × (result.value ≡ Some (value self)) };

    /// Takes the value out, if any. The handle is empty then.
    final fn take(&mut self, alloc: Global) -> Option<Box<Self::Held, Global>>
        ensures value { MatchOption result (held self.old ≡ false)
            (λ whole. (held self.old ≡ true) × (whole.value ≡ value self.old)) }
        ensures none { held self.new ≡ false }
    {
        replace(self, Self::of(Handle::none(alloc)))
            .into_handle()
            .into_box()
            .ok()
    }

    /// Puts a value into an empty handle. A value that is dropped with its handle would never be freed.
    final fn hold(&mut self, whole: Box<Self::Held, Global>)
        requires { held self.old ≡ false }
        ensures held { held self.new ≡ true }
        ensures value { value self.new ≡ whole.value }
    {
        let _before = replace(self, Self::of(Handle::of(whole)));
    }
}
