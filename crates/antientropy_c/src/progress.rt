//! The progress of exchanges.
ghost use Rattle.std.specs.Prelude.{◌≡◌, slice_get};
ghost use Rattle.exchange.specs.Exchanges.{left_of, record_in};
ghost use Rattle.c_calls.specs.Progress.{progress_in, TellsNode};
ghost use Rattle.antientropy_c.specs.Calls.{CallsOn, ReadsState};
ghost use Rattle.antientropy_c.specs.Exchanges.{exchange_in};

use crate::exchange_handle::ExchangeHandle;
use crate::replica_share::ReplicaShare;
use c_calls::frame::{read, with};
use c_calls::kept::Kept;
use c_calls::numbers::EMPTY;
use c_calls::progress::{LeftNode, Progress, left, progress_of};
use c_handle::InC;
use exchange::Exchange;
use std::alloc::Global;

/// Stores the progress of an exchange. Refused: EMPTY (the exchange or the replica).
#[unsafe(no_mangle)]
#[tactic(auto, using(crate::proofs::CallLaws::empty, crate::proofs::CallLaws::held))]
pub extern "C" fn antientropy_share_exchange_report(
    alloc: Global,
    exchange: &mut ExchangeHandle,
    share: &mut ReplicaShare,
    progress: &mut Progress,
) -> u32
    ensures { CallsOn result (exchange_in exchange.old) (exchange_in exchange.new)
        ((share.new ≡ share.old) × (progress.new ≡ progress.old))
        (λ x y. (y ≡ x) × ReadsState result share.old share.new (progress.new ≡ progress.old)
        (λ s. (result ≡ 0) × (progress.new ≡ progress_in x s))) }
{
    let Some(mut value) = exchange.take(alloc) else {
        return EMPTY;
    };
    let result = report_to(&value, share, progress);
    exchange.hold(value);
    result
}

/// Stores the progress of an exchange with a replica.
#[tactic(auto, using(crate::proofs::CallLaws::reads_nothing, crate::proofs::CallLaws::reads_held))]
fn report_to(exchange: &Exchange, share: &mut ReplicaShare, progress: &mut Progress) -> u32
    ensures { ReadsState result share.old share.new (progress.new ≡ progress.old)
        (λ s. (result ≡ 0) × (progress.new ≡ progress_in exchange.now s)) }
{
    let mut call = |kept: &Kept| {
        *progress = progress_of(exchange, kept.state());
        0
    };
    read(share, &mut call)
}

/// Stores a leaf that was left, by its place among them from 0 in the session's order.
///
/// Refused, in order: EMPTY (the exchange), EMPTY (the replica), NO_VERSION (fewer were left).
#[unsafe(no_mangle)]
#[tactic(auto, using(crate::proofs::CallLaws::empty, crate::proofs::CallLaws::held))]
pub extern "C" fn antientropy_share_exchange_left(
    alloc: Global,
    exchange: &mut ExchangeHandle,
    share: &mut ReplicaShare,
    place: u64,
    node: &mut LeftNode,
) -> u32
    ensures { CallsOn result (exchange_in exchange.old) (exchange_in exchange.new)
        ((share.new ≡ share.old) × (node.new ≡ node.old))
        (λ x y. (y ≡ x) × ReadsState result share.old share.new (node.new ≡ node.old)
        (λ s. TellsNode (slice_get (left_of x (record_in x s)) place) result node.old node.new)) }
{
    let mut call = |exchange: &mut Exchange| left_at(exchange, share, place, node);
    with(exchange, alloc, &mut call)
}

/// Stores a leaf that an exchange with a replica left.
#[tactic(auto, using(crate::proofs::CallLaws::reads_nothing, crate::proofs::CallLaws::reads_held))]
fn left_at(exchange: &Exchange, share: &mut ReplicaShare, place: u64, node: &mut LeftNode) -> u32
    ensures { ReadsState result share.old share.new (node.new ≡ node.old)
        (λ s. TellsNode (slice_get (left_of exchange.now (record_in exchange.now s)) place) result node.old node.new) }
{
    let mut call = |kept: &Kept| left(exchange, kept.state(), place, node);
    read(share, &mut call)
}
