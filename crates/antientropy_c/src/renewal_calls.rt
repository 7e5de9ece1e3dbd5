//! Renewals of replicas in parallel with puts.
ghost use Rattle.std.specs.Prelude.{◌≡◌, false, ⊤};
ghost use Rattle.range_state.specs.Moments.{moment_fault};
ghost use Rattle.c_calls.specs.KeptRenewals.{start_in, renewing_in, BeginsAt, Builds, CatchesUpWith, Finishes};
ghost use Rattle.antientropy_c.specs.Calls.{CallsKept, CallsOn, ReadsKept};
ghost use Rattle.antientropy_c.specs.Makes.{MakesIn};
ghost use Rattle.antientropy_c.specs.RenewalCalls.{renewal_in};

use crate::renewal_handle::RenewalHandle;
use crate::replica::Replica;
use crate::replica_share::ReplicaShare;
use c_calls::frame::{read, read_into, with};
use c_calls::kept::Kept;
use c_calls::kept_renewal::{KeptRenewal, begin};
use c_calls::numbers::EMPTY;
use c_handle::InC;
use std::alloc::Global;

/// Begins a renewal of a replica in an empty handle: takes the rows of the replica's moment. Copies no row.
///
/// Refused, in order: EMPTY (the replica), HELD (the handle holds a renewal already), Dirty (the replica has no moment,
/// or some node of it has no digest), NoMemory. On error the handle is unchanged.
#[unsafe(no_mangle)]
pub extern "C" fn antientropy_share_renewal_begin(
    alloc: Global,
    share: &mut ReplicaShare,
    limit: u64,
    renewal: &mut RenewalHandle,
) -> u32
    ensures { ReadsKept result share.old share.new (renewal.new ≡ renewal.old) (λ k.
        MakesIn result (renewal_in renewal.old) (renewal_in renewal.new) (moment_fault k.state.moment) (BeginsAt k limit)) }
{
    read_into(
        share,
        renewal,
        alloc,
        |kept: &Kept| begin(alloc, kept, limit),
    )
}

/// Makes the new range of a renewal, without the replica. Its journal has the limit with which the renewal began.
///
/// Refused, in order: EMPTY, HELD (it is made already), BadRing (the limit isn't 1 to 1,000,000), JournalFull (the rows
/// have more versions than the limit), NoMemory. On error the renewal is unchanged.
#[unsafe(no_mangle)]
#[tactic(auto, using(crate::proofs::CallLaws::empty, crate::proofs::CallLaws::held))]
pub extern "C" fn antientropy_renewal_build(alloc: Global, renewal: &mut RenewalHandle) -> u32
    ensures { CallsOn result (renewal_in renewal.old) (renewal_in renewal.new) ⊤
        (λ r t. Builds (start_in r.stage) result r t) }
{
    let mut call = |renewal: &mut KeptRenewal| renewal.build(alloc);
    with(renewal, alloc, &mut call)
}

/// Accepts the next entries that the replica accepted and the new range doesn't have, at most `most`, and stores the
/// number of those that are left. Only reads the replica.
///
/// Refused, in order: EMPTY (the renewal or the replica; or the new range isn't made, or is in the replica's place),
/// Stale (the replica's journal begins at another number, its format, ring or range differs, or it has fewer entries
/// than were accepted); then, for one of the entries, Stale (it isn't new), Crowded (the key would hold over 64
/// versions), JournalFull, NoMemory, which may replace the three before it. In that case the entries before it are
/// accepted.
#[unsafe(no_mangle)]
#[tactic(auto, using(crate::proofs::CallLaws::empty, crate::proofs::CallLaws::held))]
pub extern "C" fn antientropy_share_renewal_catch_up(
    alloc: Global,
    renewal: &mut RenewalHandle,
    share: &mut ReplicaShare,
    most: u64,
    left: &mut u64,
) -> u32
    ensures { CallsOn result (renewal_in renewal.old) (renewal_in renewal.new)
        ((share.new ≡ share.old) × (left.new ≡ left.old))
        (λ r t. ReadsKept result share.old share.new ((t ≡ r) × (left.new ≡ left.old))
        (λ k. CatchesUpWith (renewing_in r.stage) k most result (r, left.old) (t, left.new))) }
{
    let Some(mut value) = renewal.take(alloc) else {
        return EMPTY;
    };
    let result = catch_up_with(alloc, &mut value, share, most, left);
    renewal.hold(value);
    result
}

/// Lets a renewal catch up with a replica.
#[tactic(auto, using(crate::proofs::CallLaws::reads_nothing, crate::proofs::CallLaws::reads_held))]
fn catch_up_with(
    alloc: Global,
    renewal: &mut KeptRenewal,
    share: &mut ReplicaShare,
    most: u64,
    left: &mut u64,
) -> u32
    ensures { ReadsKept result share.old share.new ((renewal.new ≡ renewal.old) × (left.new ≡ left.old))
        (λ k. CatchesUpWith (renewing_in renewal.old.stage) k most result (renewal.old, left.old) (renewal.new, left.new)) }
{
    let mut call = |kept: &Kept| renewal.catch_up(alloc, kept, most, left);
    read(share, &mut call)
}

/// Accepts all entries that are left, and puts the new range in the replica's place. The numbers of entries continue.
/// Afterwards the renewal holds the old range.
///
/// Refused, in order: EMPTY (the renewal or the replica; or the new range isn't made, or is in a replica's place),
/// Stale (the replica's journal begins at another number), JournalFull (after 1,000,000 entries more a number could be
/// over 2^64 - 1); then as [`antientropy_share_renewal_catch_up`] is. On error the replica is unchanged.
#[unsafe(no_mangle)]
#[tactic(auto, using(crate::proofs::CallLaws::empty, crate::proofs::CallLaws::held))]
pub extern "C" fn antientropy_renewal_finish(
    alloc: Global,
    renewal: &mut RenewalHandle,
    replica: &mut Replica,
) -> u32
    ensures { CallsOn result (renewal_in renewal.old) (renewal_in renewal.new) (replica.new ≡ replica.old)
        (λ r t. CallsKept result replica.old replica.new (t ≡ r)
        (λ k l. Finishes (renewing_in r.stage) result r t k l)) }
{
    let Some(mut value) = renewal.take(alloc) else {
        return EMPTY;
    };
    let result = finish_in(alloc, &mut value, replica);
    renewal.hold(value);
    result
}

/// Puts the new range of a renewal in the replica's place.
#[tactic(auto, using(crate::proofs::CallLaws::empty, crate::proofs::CallLaws::held))]
fn finish_in(alloc: Global, renewal: &mut KeptRenewal, replica: &mut Replica) -> u32
    ensures { CallsKept result replica.old replica.new (renewal.new ≡ renewal.old)
        (λ k l. Finishes (renewing_in renewal.old.stage) result renewal.old renewal.new k l) }
{
    let mut call = |kept: &mut Kept| renewal.finish(alloc, kept);
    with(replica, alloc, &mut call)
}

/// Frees the renewal of a handle, if any: the rows, the new range or the old one.
#[unsafe(no_mangle)]
pub extern "C" fn antientropy_renewal_free(alloc: Global, renewal: &mut RenewalHandle)
    ensures { renewal.new.held ≡ false }
{
    let _renewal = renewal.take(alloc);
}
