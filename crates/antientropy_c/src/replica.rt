//! The handle of a replica.
ghost use Rattle.std.specs.Prelude.{◌≡◌, Some, IfSome};
ghost use Rattle.c_handle.specs.Handles.{c_owns};
ghost use Rattle.c_calls.specs.Kept.{KeptState};
ghost use Rattle.c_calls.specs.contracts.kept.Kept.{the_row};

use c_calls::kept::Kept;
use c_handle::{Handle, InC};
use std::alloc::Global;
use std::marker::Model;

/// A replica on the heap, or nothing. All bytes of an empty handle are zero, and its ghost state is arbitrary.
#[repr(C)]
#[derive(Drop)]
pub struct Replica {
    at: *mut u8,
    pub held: bool,
    alloc: Global,
    pub ghost kept: { KeptState },
}

impl Model for Replica {
    ghost also_owns = { λ h. c_owns the_row h.alloc h.held h.at h.kept };
}

// The allocator and the contents may go to another thread, and so may the handle.
unsafe impl Send for Replica {}

impl InC for Replica {
    type Held = Kept;

    ghost held = { λ h. h.held };

    ghost value = { λ h. h.kept };

    fn of(handle: Handle<Kept, Global>) -> Replica
        ensures { (result.held ≡ handle.held) × IfSome handle.value (λ x. result.kept ≡ x) }
    {
        let Handle { at, held, alloc } = handle;
        Replica {
            at: at as *mut u8,
            held,
            alloc,
        }
    }

    fn into_handle(self) -> Handle<Kept, Global>
        ensures { (result.held ≡ self.held) × (result.value ≡ Some self.kept) }
    {
        let Replica { at, held, alloc } = self;
        Handle {
            at: at as *mut Kept,
            held,
            alloc,
        }
    }
}
