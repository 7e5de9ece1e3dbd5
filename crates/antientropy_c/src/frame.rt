//! The frame of a call on the state of a replica.
ghost use Rattle.std.specs.Prelude.{◌≡◌};
ghost use Rattle.std.specs.Fn.{CalledAtMut};
ghost use Rattle.c_calls.specs.Frame.{OnHeld};

use crate::replica::Replica;
use c_calls::numbers::EMPTY;
use c_handle::InC;
use range_state::RangeState;
use std::alloc::Global;

/// Calls a function with the state of a replica, and returns its code. The numbers of entries are unchanged. Returns
/// EMPTY if the handle is empty.
pub(crate) fn with_state<F: FnMut(&mut RangeState) -> u32>(
    replica: &mut Replica,
    alloc: Global,
    call: &mut F,
) -> u32
    requires { F.IsAlwaysCallable call.old }
    ensures { OnHeld replica.old.held replica.new.held result (call.new ≡ call.old)
        ((replica.new.kept.first ≡ replica.old.kept.first) × (replica.new.kept.renewed ≡ replica.old.kept.renewed)
        × CalledAtMut F.FnMut call.old replica.old.kept.state result call.new replica.new.kept.state) }
{
    let Some(mut kept) = replica.take(alloc) else {
        return EMPTY;
    };
    let result = kept.call(call);
    replica.hold(kept);
    result
}
