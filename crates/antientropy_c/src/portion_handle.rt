//! The handle of a portion of a moment's nodes.
ghost use Rattle.std.specs.Prelude.{◌≡◌, List, Some, IfSome};
ghost use Rattle.rehash.specs.Jobs.{NodeText};
ghost use Rattle.c_handle.specs.Handles.{c_owns};
ghost use Rattle.range_state.specs.contracts.portion.Portion.{the_row};

use c_handle::{Handle, InC};
use range_state::Portion;
use std::alloc::Global;
use std::marker::Model;

/// A portion on the heap, or nothing. All bytes of an empty handle are zero, and its ghost nodes are arbitrary.
#[repr(C)]
#[derive(Drop)]
pub struct PortionHandle {
    at: *mut u8,
    pub held: bool,
    alloc: Global,
    pub ghost nodes: { List NodeText },
}

impl Model for PortionHandle {
    ghost also_owns = { λ h. c_owns the_row h.alloc h.held h.at h.nodes };
}

// The allocator and the contents may go to another thread, and so may the handle.
unsafe impl Send for PortionHandle {}

impl InC for PortionHandle {
    type Held = Portion;

    ghost held = { λ h. h.held };

    ghost value = { λ h. h.nodes };

    fn of(handle: Handle<Portion, Global>) -> PortionHandle
        ensures { (result.held ≡ handle.held) × IfSome handle.value (λ x. result.nodes ≡ x) }
    {
        let Handle { at, held, alloc } = handle;
        PortionHandle {
            at: at as *mut u8,
            held,
            alloc,
        }
    }

    fn into_handle(self) -> Handle<Portion, Global>
        ensures { (result.held ≡ self.held) × (result.value ≡ Some self.nodes) }
    {
        let PortionHandle { at, held, alloc } = self;
        Handle {
            at: at as *mut Portion,
            held,
            alloc,
        }
    }
}
