//! The moment of a replica: its rows at a time, which are hashed and offered while the replica continues.
ghost use Rattle.std.specs.Prelude.{◌≡◌, ℕ, Result, ⊤};
ghost use Rattle.vclock.specs.Outcome.{Does, gives};
ghost use Rattle.vclock.specs.declared.refusal.Refusal.{Refusal};
ghost use Rattle.range_state.specs.Moments.{with_moment, without_moment, moment_fault};
ghost use Rattle.range_state.specs.Portions.{HashesMoment};
ghost use Rattle.range_state.specs.declared.local_rows.LocalRows.TheVariants as local_rows;
ghost use Rattle.antientropy_c.specs.Calls.{Calls, ReadsKept};
ghost use Rattle.c_calls.specs.Numbers.{Returns};
ghost use Rattle.antientropy_c.specs.Offers.{Publishes};
ghost use Rattle.c_calls.specs.Published.{shown_by};
ghost use Rattle.c_calls.specs.Sessions.{TellsNumber};

use crate::frame::with_state;
use crate::publication::Publication;
use crate::replica::Replica;
use crate::replica_share::ReplicaShare;
use c_calls::frame::read_into;
use c_calls::kept::Kept;
use c_calls::moments::{hash_moment, hold};
use c_calls::numbers::code;
use c_calls::offers::shown;
use c_calls::sessions::tell_number;
use range_state::{LocalRows, RangeState};
use std::alloc::Global;

/// Keeps the current rows as the moment of a replica, in place of the previous one. Copies no row. Refused, in order:
/// EMPTY, NoMemory. On error the replica is unchanged.
#[unsafe(no_mangle)]
#[tactic(auto, using(crate::proofs::CallLaws::state_empty, crate::proofs::CallLaws::state_held, crate::proofs::CallLaws::returns))]
pub extern "C" fn antientropy_hold(alloc: Global, replica: &mut Replica) -> u32
    ensures { Calls result replica.old replica.new ⊤ (λ s t. Returns result (λ (r : Result (Unit {0}) Refusal).
        Does r s t (gives tt (with_moment s)))) }
{
    let mut call = |state: &mut RangeState| {
        let outcome = hold(alloc, state);
        code(&outcome)
    };
    with_state(replica, alloc, &mut call)
}

/// Releases the moment of a replica, if any. Refused: EMPTY.
#[unsafe(no_mangle)]
#[tactic(auto, using(crate::proofs::CallLaws::state_empty, crate::proofs::CallLaws::state_held))]
pub extern "C" fn antientropy_drop_moment(alloc: Global, replica: &mut Replica) -> u32
    ensures { Calls result replica.old replica.new ⊤ (λ s t. (result ≡ 0) × (t ≡ without_moment s)) }
{
    let mut call = |state: &mut RangeState| {
        let _moment = state.take_moment();
        0
    };
    with_state(replica, alloc, &mut call)
}

/// Hashes at most `most` of the moment's dirty nodes whose children are clean, and stores the number of its nodes that
/// are dirty afterwards: 0 without a moment. Refused, in order: EMPTY, NoMemory. On error the replica is unchanged.
#[unsafe(no_mangle)]
#[tactic(auto, using(crate::proofs::CallLaws::state_empty, crate::proofs::CallLaws::state_held, crate::proofs::CallLaws::returns))]
pub extern "C" fn antientropy_hash_moment(
    alloc: Global,
    replica: &mut Replica,
    most: u64,
    left: &mut u64,
) -> u32
    ensures { Calls result replica.old replica.new (left.new ≡ left.old) (λ s t. Returns result (λ (r : Result ℕ Refusal).
        HashesMoment r most s t × TellsNumber r left.old left.new)) }
{
    let mut call = |state: &mut RangeState| {
        let outcome = hash_moment(alloc, state, most);
        tell_number(&outcome, left);
        code(&outcome)
    };
    with_state(replica, alloc, &mut call)
}

/// Publishes the rows of the moment of a replica. Refused, in order: EMPTY, HELD (the publication holds a snapshot
/// already), Dirty (the replica has no moment, or some node of it has no digest), NoMemory. On error the publication is
/// unchanged.
#[unsafe(no_mangle)]
pub extern "C" fn antientropy_share_moment(
    alloc: Global,
    share: &mut ReplicaShare,
    publication: &mut Publication,
) -> u32
    ensures { ReadsKept result share.old share.new (publication.new ≡ publication.old) (λ s.
        Publishes result publication.old publication.new (moment_fault s.state.moment) (shown_by local_rows.Moment s)) }
{
    read_into(share, publication, alloc, |kept: &Kept| {
        shown(alloc, kept, LocalRows::Moment)
    })
}
