//! The handle of a renewal of a replica.
ghost use Rattle.std.specs.Prelude.{◌≡◌, Some, IfSome};
ghost use Rattle.c_calls.specs.KeptRenewals.{KeptRenewal};
ghost use Rattle.c_handle.specs.Handles.{c_owns};
ghost use Rattle.c_calls.specs.contracts.kept_renewal.KeptRenewal.{the_row};

use c_calls::kept_renewal::KeptRenewal;
use c_handle::{Handle, InC};
use std::alloc::Global;
use std::marker::Model;

/// A renewal on the heap, or nothing. All bytes of an empty handle are zero, and its ghost renewal is arbitrary.
#[repr(C)]
#[derive(Drop)]
pub struct RenewalHandle {
    at: *mut u8,
    pub held: bool,
    alloc: Global,
    pub ghost renewal: { KeptRenewal },
}

impl Model for RenewalHandle {
    ghost also_owns = { λ h. c_owns the_row h.alloc h.held h.at h.renewal };
}

// The allocator and the contents may go to another thread, and so may the handle.
unsafe impl Send for RenewalHandle {}

impl InC for RenewalHandle {
    type Held = KeptRenewal;

    ghost held = { λ h. h.held };

    ghost value = { λ h. h.renewal };

    fn of(handle: Handle<KeptRenewal, Global>) -> RenewalHandle
        ensures { (result.held ≡ handle.held) × IfSome handle.value (λ x. result.renewal ≡ x) }
    {
        let Handle { at, held, alloc } = handle;
        RenewalHandle {
            at: at as *mut u8,
            held,
            alloc,
        }
    }

    fn into_handle(self) -> Handle<KeptRenewal, Global>
        ensures { (result.held ≡ self.held) × (result.value ≡ Some self.renewal) }
    {
        let RenewalHandle { at, held, alloc } = self;
        Handle {
            at: at as *mut KeptRenewal,
            held,
            alloc,
        }
    }
}
