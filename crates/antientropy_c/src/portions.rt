//! Portions of a replica's moment, which are hashed while the replica is in other calls.
ghost use Rattle.std.specs.Prelude.{◌≡◌, false, None, ⊤};
ghost use Rattle.range_state.specs.Portions.{IsPortion};
ghost use Rattle.antientropy_c.specs.Calls.{Calls, CallsOn, ReadsState};
ghost use Rattle.antientropy_c.specs.Makes.{MakesIn};
ghost use Rattle.antientropy_c.specs.Portions.{nodes_in, Installs};

use crate::frame::with_state;
use crate::portion_handle::PortionHandle;
use crate::replica::Replica;
use crate::replica_share::ReplicaShare;
use c_calls::frame::{read_into, with};
use c_calls::kept::Kept;
use c_calls::numbers::EMPTY;
use c_calls::portions::take_portion;
use c_handle::InC;
use range_state::{Portion, RangeState};
use std::alloc::Global;

/// Takes a portion of the dirty nodes of a replica's moment: those whose children are clean, or the first `most` of
/// them if there are more. Without a moment it has no node.
///
/// Refused, in order: EMPTY (the replica), HELD (the handle holds a portion already), NoMemory. On error the handle is
/// unchanged.
#[unsafe(no_mangle)]
pub extern "C" fn antientropy_share_take_portion(
    alloc: Global,
    share: &mut ReplicaShare,
    most: u64,
    portion: &mut PortionHandle,
) -> u32
    ensures { ReadsState result share.old share.new (portion.new ≡ portion.old) (λ s.
        MakesIn result (nodes_in portion.old) (nodes_in portion.new) None (IsPortion s.moment most)) }
{
    read_into(share, portion, alloc, |kept: &Kept| {
        take_portion(alloc, kept.state(), most)
    })
}

/// Hashes the nodes of a portion; a node that was hashed stays hashed. Uses no replica. Refused: EMPTY.
#[unsafe(no_mangle)]
#[tactic(auto, using(crate::proofs::CallLaws::empty, crate::proofs::CallLaws::held))]
pub extern "C" fn antientropy_hash_portion(alloc: Global, portion: &mut PortionHandle) -> u32
    ensures { CallsOn result (nodes_in portion.old) (nodes_in portion.new) ⊤ (λ nodes after. (result ≡ 0) × (after ≡ nodes)) }
{
    let mut call = |nodes: &mut Portion| {
        nodes.run(alloc);
        0
    };
    with(portion, alloc, &mut call)
}

/// Installs the digests of a portion in the moment of its replica, and in the replica's tree if the node has the same
/// text there now. Leaves out a node that isn't in the moment, or has another text there because it belongs to a
/// previous moment. Hashes the nodes that aren't hashed yet. Empties the portion's handle. Stores the number of the
/// moment's nodes that are dirty afterwards: 0 without a moment.
///
/// Refused: EMPTY (the replica or the portion). On error nothing changes.
#[unsafe(no_mangle)]
#[tactic(auto, using(crate::proofs::CallLaws::state_empty, crate::proofs::CallLaws::state_held))]
pub extern "C" fn antientropy_install_portion(
    alloc: Global,
    replica: &mut Replica,
    portion: &mut PortionHandle,
    left: &mut u64,
) -> u32
    ensures { Calls result replica.old replica.new ((portion.new ≡ portion.old) × (left.new ≡ left.old)) (λ s t.
        Installs result (nodes_in portion.old) (nodes_in portion.new) s t left.old left.new) }
{
    let mut call = |state: &mut RangeState| install(alloc, state, portion, left);
    with_state(replica, alloc, &mut call)
}

/// Installs the digests of a portion, if any.
#[tactic(auto, using(crate::proofs::PortionLaws::installed, crate::proofs::PortionLaws::none))]
fn install(
    alloc: Global,
    state: &mut RangeState,
    portion: &mut PortionHandle,
    left: &mut u64,
) -> u32
    ensures { Installs result (nodes_in portion.old) (nodes_in portion.new) state.old state.new left.old left.new }
{
    let Some(nodes) = portion.take(alloc) else {
        return EMPTY;
    };
    *left = state.install_portion(Box::into_inner(nodes)) as u64;
    0
}

/// Frees the portion of a handle, if any.
#[unsafe(no_mangle)]
pub extern "C" fn antientropy_portion_free(alloc: Global, portion: &mut PortionHandle)
    ensures { portion.new.held ≡ false }
{
    let _nodes = portion.take(alloc);
}
