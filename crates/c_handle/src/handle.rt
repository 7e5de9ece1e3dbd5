//! A value on the heap, or nothing.
ghost use Rattle.std.specs.Prelude.{◌≡◌, true, false, MatchResult, Option, Some, None};
ghost use Rattle.c_handle.specs.Handles.{held_owns};

use std::alloc::Allocator;
use std::marker::Model;
use std::ptr::null_mut;

/// A value on the heap, or nothing.
#[repr(C)]
pub struct Handle<T, A: Allocator> {
    /// The place of the value, or null.
    pub at: *mut T,
    /// True if a value is held.
    pub held: bool,
    /// The allocator of the value's memory.
    pub alloc: A,
    pub ghost value: { Option T },
}

impl<T, A: Allocator> Model for Handle<T, A> {
    ghost also_owns = { λ h. held_owns (A.dealloc_token h.alloc) T.row h.held h.at h.value };
}

impl<T: Drop, A: Allocator> Handle<T, A> {
    /// Makes a handle of nothing.
    pub fn none(alloc: A) -> Handle<T, A>
        ensures { (result.held ≡ false) × (result.value ≡ None) }
    {
        Handle {
            at: null_mut(),
            held: false,
            alloc,
        }
    }

    /// Makes a handle of a value.
    pub fn of(whole: Box<T, A>) -> Handle<T, A>
        ensures { (result.held ≡ true) × (result.value ≡ Some whole.value) }
    {
        let (at, alloc) = Box::into_raw_with_allocator(whole);
        Handle {
            at,
            held: true,
            alloc,
        }
    }

    /// Returns the value. If nothing is held, returns the allocator.
    pub fn into_box(self) -> Result<Box<T, A>, A>
        ensures { MatchResult result (λ whole. (self.held ≡ true) × (self.value ≡ Some whole.value))
            (λ _. self.held ≡ false) }
    {
        let Handle { at, held, alloc } = self;
        if !held {
            return Err(alloc);
        }
        Ok(unsafe { Box::from_raw(alloc, at) })
    }
}
