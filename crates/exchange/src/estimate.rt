//! An estimate of the number of keys that differ, from the first two levels of two trees.
ghost use Rattle.std.specs.Prelude.{◌≡◌, nat_lt, nat_eq, length};
ghost use Rattle.std.specs.List.{filter, list_any};
ghost use Rattle.exchange.specs.Estimates.{keys_in, estimate_of, has_failed};

use sync_session::{Session, SessionState};
use tree_nodes::NodeAt;

/// The depth of the nodes that are counted.
const DEPTH: u8 = 2;

/// Their number.
const NODES: u64 = 256;

/// Returns the estimate of a session, or `None` if a node above these nodes is outstanding, or the session has failed.
pub(crate) fn estimate(session: &Session) -> Option<u64>
    ensures { result ≡ estimate_of session.now }
{
    if has_failed(session.state()) || has_above(session.outstanding()) {
        return None;
    }
    Some(keys_in(count(session.asked())))
}

/// Returns true if a session has failed.
fn has_failed(state: SessionState) -> bool
    ensures { result ≡ has_failed state }
{
    match state {
        SessionState::Failed => true,
        SessionState::Open | SessionState::Finished | SessionState::Cancelled => false,
    }
}

/// Returns true if some node is above the nodes that are counted.
fn has_above(nodes: &[NodeAt]) -> bool
    ensures { result ≡ list_any (λ n. nat_lt n.depth 2) nodes.now }
{
    nodes.iter().any(|node| node.depth < DEPTH)
}

/// Counts the nodes at that depth.
fn count(nodes: &[NodeAt]) -> u64
    ensures { result ≡ length (filter (λ n. nat_eq n.depth 2) nodes.now) }
{
    nodes.iter().filter(|node| node.depth == DEPTH).count() as u64
}

/// Returns the number of keys that are in this number of nodes on average.
#[tactic(auto, using(crate::proofs::EstimateLaws::drawn_most, crate::proofs::EstimateLaws::drawn_more))]
fn keys_in(nodes: u64) -> u64
    ensures { result ≡ keys_in nodes }
{
    let mut parts = 0;
    for seen in 0..nodes.min(NODES) {
        parts += NODES * NODES / (NODES - seen);
    }
    parts / NODES
}
