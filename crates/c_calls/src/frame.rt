//! The frame of a call on a handle.
ghost use Rattle.std.specs.Prelude.{◌≡◌, true, false, MatchResult, IfSome};
ghost use Rattle.std.specs.Fn.{CalledAt, CalledAtMut, FnOnceReturnsAt};
ghost use Rattle.c_calls.specs.Frame.{OnHeld, FillsWhere};
ghost use Rattle.c_calls.specs.Numbers.{code_of};

use crate::numbers::{EMPTY, HELD};
use c_handle::{InC, ReadInC};
use std::alloc::Global;
use vclock::Refusal;

/// Calls a function with the value of a handle, and returns its code. Returns EMPTY if the handle is empty.
pub fn with<H: InC, F: FnMut(&mut H::Held) -> u32>(
    handle: &mut H,
    alloc: Global,
    call: &mut F,
) -> u32
    requires { F.IsAlwaysCallable call.old }
    ensures { OnHeld (H.held handle.old) (H.held handle.new) result (call.new ≡ call.old)
        (CalledAtMut F.FnMut call.old (H.value handle.old) result call.new (H.value handle.new)) }
{
    let Some(mut value) = handle.take(alloc) else {
        return EMPTY;
    };
    let result = call(&mut value);
    handle.hold(value);
    result
}

/// Calls a function with the value that a handle shares, and returns its code. The handle is unchanged. Returns EMPTY
/// if the handle is empty.
pub fn read<H: ReadInC, F: FnMut(&H::Held) -> u32>(handle: &mut H, call: &mut F) -> u32
    requires { F.IsAlwaysCallable call.old }
    ensures same { handle.new ≡ handle.old }
    ensures called { OnHeld (H.lent handle.old).held (H.lent handle.old).held result (call.new ≡ call.old)
        (IfSome (H.lent handle.old).value (λ x. CalledAt F.FnMut call.old x result call.new)) }
{
    let share = handle.take();
    let result = match share.get() {
        Some(value) => call(value),
        None => EMPTY,
    };
    handle.hold(share);
    result
}

/// Puts a new value into an empty handle, and returns the number of the outcome. On error the handle stays empty.
pub fn fill<H: InC>(handle: &mut H, made: Result<Box<H::Held, Global>, Refusal>) -> u32
    requires { H.held handle.old ≡ false }
    ensures number { result ≡ code_of made }
    ensures filled { MatchResult made (λ whole. (H.held handle.new ≡ true) × (H.value handle.new ≡ whole.value))
        (λ _. H.held handle.new ≡ false) }
{
    match made {
        Ok(whole) => {
            handle.hold(whole);
            0
        }
        Err(refusal) => refusal.number() as u32,
    }
}

/// Fills a handle with a value that a function makes of the value that another handle shares. The other handle is
/// unchanged. Returns the number of the outcome. Returns EMPTY if the other handle is empty, and HELD if this one
/// isn't; in both cases nothing is made.
pub fn read_into<G: ReadInC, H: InC, F: FnOnce(&G::Held) -> Result<Box<H::Held, Global>, Refusal>>(
    from: &mut G,
    into: &mut H,
    alloc: Global,
    make: F,
) -> u32
    requires { F.IsAlwaysCallable make }
    ensures same { from.new ≡ from.old }
    ensures filled { OnHeld (G.lent from.old).held (G.lent from.old).held result (into.new ≡ into.old)
        (IfSome (G.lent from.old).value (λ x.
        FillsWhere (H.held into.old) result (H.held into.old, H.value into.old) (H.held into.new, H.value into.new)
        (λ r. FnOnceReturnsAt F.FnOnce make x r) (λ whole. whole.value))) }
{
    let share = from.take();
    let result = match share.get() {
        Some(value) => fill_of(into, alloc, value, make),
        None => EMPTY,
    };
    from.hold(share);
    result
}

/// Fills a handle with a value that a function makes of another one. Returns the number of the outcome. Returns HELD if
/// the handle isn't empty, and makes nothing.
#[tactic(auto, using(crate::proofs::FrameLaws::full))]
fn fill_of<V, H: InC, F: FnOnce(&V) -> Result<Box<H::Held, Global>, Refusal>>(
    handle: &mut H,
    alloc: Global,
    value: &V,
    make: F,
) -> u32
    requires { F.IsAlwaysCallable make }
    ensures { FillsWhere (H.held handle.old) result (H.held handle.old, H.value handle.old) (H.held handle.new, H.value handle.new)
        (λ r. FnOnceReturnsAt F.FnOnce make value.now r) (λ whole. whole.value) }
{
    if let Some(held) = handle.take(alloc) {
        handle.hold(held);
        return HELD;
    }
    fill(handle, make(value))
}
