//! The handle of an exchange.
ghost use Rattle.std.specs.Prelude.{◌≡◌, Some, IfSome};
ghost use Rattle.c_handle.specs.Handles.{c_owns};
ghost use Rattle.exchange.specs.declared.exchange.Exchange.{Exchange};
ghost use Rattle.exchange.specs.contracts.exchange.Exchange.{the_row};

use c_handle::{Handle, InC};
use exchange::Exchange;
use std::alloc::Global;
use std::marker::Model;

/// An exchange on the heap, or nothing. All bytes of an empty handle are zero, and its ghost exchange is arbitrary.
#[repr(C)]
#[derive(Drop)]
pub struct ExchangeHandle {
    at: *mut u8,
    pub held: bool,
    alloc: Global,
    pub ghost exchange: { Exchange },
}

impl Model for ExchangeHandle {
    ghost also_owns = { λ h. c_owns the_row h.alloc h.held h.at h.exchange };
}

// The allocator and the contents may go to another thread, and so may the handle.
unsafe impl Send for ExchangeHandle {}

impl InC for ExchangeHandle {
    type Held = Exchange;

    ghost held = { λ h. h.held };

    ghost value = { λ h. h.exchange };

    fn of(handle: Handle<Exchange, Global>) -> ExchangeHandle
        ensures { (result.held ≡ handle.held) × IfSome handle.value (λ x. result.exchange ≡ x) }
    {
        let Handle { at, held, alloc } = handle;
        ExchangeHandle {
            at: at as *mut u8,
            held,
            alloc,
        }
    }

    fn into_handle(self) -> Handle<Exchange, Global>
        ensures { (result.held ≡ self.held) × (result.value ≡ Some self.exchange) }
    {
        let ExchangeHandle { at, held, alloc } = self;
        Handle {
            at: at as *mut Exchange,
            held,
            alloc,
        }
    }
}
