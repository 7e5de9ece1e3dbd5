//! The handle of a snapshot.
ghost use Rattle.std.specs.Prelude.{◌≡◌, Some, IfSome};
ghost use Rattle.c_calls.specs.Published.{Shown};
ghost use Rattle.c_handle.specs.Handles.{c_owns};
ghost use Rattle.c_calls.specs.contracts.published.Published.{the_row};

use c_calls::published::Published;
use c_handle::{Handle, InC};
use std::alloc::Global;
use std::marker::Model;

/// A snapshot on the heap, or nothing. All bytes of an empty handle are zero, and its ghost value is arbitrary.
#[repr(C)]
#[derive(Drop)]
pub struct Publication {
    at: *mut u8,
    pub held: bool,
    alloc: Global,
    pub ghost shown: { Shown },
}

impl Model for Publication {
    ghost also_owns = { λ h. c_owns the_row h.alloc h.held h.at h.shown };
}

// The allocator and the contents may go to another thread, and so may the handle.
unsafe impl Send for Publication {}

impl InC for Publication {
    type Held = Published;

    ghost held = { λ h. h.held };

    ghost value = { λ h. h.shown };

    fn of(handle: Handle<Published, Global>) -> Publication
        ensures { (result.held ≡ handle.held) × IfSome handle.value (λ x. result.shown ≡ x) }
    {
        let Handle { at, held, alloc } = handle;
        Publication {
            at: at as *mut u8,
            held,
            alloc,
        }
    }

    fn into_handle(self) -> Handle<Published, Global>
        ensures { (result.held ≡ self.held) × (result.value ≡ Some self.shown) }
    {
        let Publication { at, held, alloc } = self;
        Handle {
            at: at as *mut Published,
            held,
            alloc,
        }
    }
}
