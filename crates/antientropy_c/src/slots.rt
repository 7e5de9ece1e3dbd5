//! The handle of slots.
ghost use Rattle.std.specs.Prelude.{◌≡◌, Some, IfSome};
ghost use Rattle.admission.specs.Admission.{Admission};
ghost use Rattle.c_handle.specs.Handles.{c_owns};
ghost use Rattle.admission.specs.contracts.budget.SlotBudget.{the_row};

use admission::SlotBudget;
use c_handle::{Handle, InC};
use std::alloc::Global;
use std::marker::Model;

/// A budget of slots on the heap, or nothing. All bytes of an empty handle are zero, and its ghost budget is arbitrary.
#[repr(C)]
#[derive(Drop)]
pub struct Slots {
    at: *mut u8,
    pub held: bool,
    alloc: Global,
    pub ghost budget: { Admission },
}

impl Model for Slots {
    ghost also_owns = { λ h. c_owns the_row h.alloc h.held h.at h.budget };
}

// The allocator and the contents may go to another thread, and so may the handle.
unsafe impl Send for Slots {}

impl InC for Slots {
    type Held = SlotBudget;

    ghost held = { λ h. h.held };

    ghost value = { λ h. h.budget };

    fn of(handle: Handle<SlotBudget, Global>) -> Slots
        ensures { (result.held ≡ handle.held) × IfSome handle.value (λ x. result.budget ≡ x) }
    {
        let Handle { at, held, alloc } = handle;
        Slots {
            at: at as *mut u8,
            held,
            alloc,
        }
    }

    fn into_handle(self) -> Handle<SlotBudget, Global>
        ensures { (result.held ≡ self.held) × (result.value ≡ Some self.budget) }
    {
        let Slots { at, held, alloc } = self;
        Handle {
            at: at as *mut SlotBudget,
            held,
            alloc,
        }
    }
}
