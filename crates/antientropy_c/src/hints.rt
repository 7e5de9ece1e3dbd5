//! The handle of a store of hints.
ghost use Rattle.std.specs.Prelude.{◌≡◌, List, Some, IfSome};
ghost use Rattle.hint_store.specs.declared.hint.Kept.{Kept};
ghost use Rattle.c_handle.specs.Handles.{c_owns};
ghost use Rattle.hint_store.specs.contracts.store.HintStore.{the_row};

use c_handle::{Handle, InC};
use hint_store::HintStore;
use std::alloc::Global;
use std::marker::Model;

/// A store of hints on the heap, or nothing. All bytes of an empty handle are zero, and its ghost hints are arbitrary.
#[repr(C)]
#[derive(Drop)]
pub struct Hints {
    at: *mut u8,
    pub held: bool,
    alloc: Global,
    pub ghost kept: { List Kept },
}

impl Model for Hints {
    ghost also_owns = { λ h. c_owns the_row h.alloc h.held h.at h.kept };
}

// The allocator and the contents may go to another thread, and so may the handle.
unsafe impl Send for Hints {}

impl InC for Hints {
    type Held = HintStore;

    ghost held = { λ h. h.held };

    ghost value = { λ h. h.kept };

    fn of(handle: Handle<HintStore, Global>) -> Hints
        ensures { (result.held ≡ handle.held) × IfSome handle.value (λ x. result.kept ≡ x) }
    {
        let Handle { at, held, alloc } = handle;
        Hints {
            at: at as *mut u8,
            held,
            alloc,
        }
    }

    fn into_handle(self) -> Handle<HintStore, Global>
        ensures { (result.held ≡ self.held) × (result.value ≡ Some self.kept) }
    {
        let Hints { at, held, alloc } = self;
        Handle {
            at: at as *mut HintStore,
            held,
            alloc,
        }
    }
}
