//! The nodes of a tree that can be hashed: dirty ones whose children are clean.
ghost use Rattle.std.specs.Prelude.{◌≡◌, ◌+◌, ◌*◌, ◌<◌, ◌≤◌, ◌^◌, ◌∷◌, [], ℕ, length, Some, map, true, false, is_some, IsTrue, MatchOption};
ghost use Rattle.tree_nodes.specs.Nodes.{IsNode, place_of, nodes_above, place_at, kept_digest, children_of, are_clean, ready_from, AreCleanBelow};

use crate::digest::Digest;
use crate::node::NodeAt;

/// Returns the place of the first node from a place on that can be hashed. Passes the nodes below a clean one together.
pub(crate) fn first_ready(digests: &[Option<Digest>], from: usize) -> Option<usize>
    requires few { length digests.now ≤ nodes_above 4 }
    requires below { AreCleanBelow digests.now }
    ensures { MatchOption result
        (ready_from digests.now from ≡ [])
        (λ place. (ready_from digests.now from ≡ place ∷ ready_from digests.now (place + 1)) × (place < length digests.now)) }
{
    let mut place = from;
    while place < digests.len() {
        if digests[place].is_some() {
            place = past_clean(digests, place);
        } else if are_clean(children_at(digests, place)) {
            return Some(place);
        } else {
            place += 1;
        }
    }
    None
}

/// Returns a place behind a clean node: it is the first behind it that has no clean node above it, if its depth has
/// one.
fn past_clean(digests: &[Option<Digest>], place: usize) -> usize
    requires has { place < length digests.now }
    requires few { length digests.now ≤ nodes_above 4 }
    requires below { AreCleanBelow digests.now }
    requires clean { IsTrue (is_some (kept_digest digests.now place)) }
    ensures later { place < result }
    ensures near { result ≤ 16 * place + 1 }
    ensures clean { (k : ℕ) → place ≤ k → k < result → k < length digests.now → is_some (kept_digest digests.now k) ≡ true }
{
    let Some(before) = place.checked_sub(1) else {
        return 1;
    };
    let parent = before / 16;
    match digests[parent] {
        Some(_) => 16 * past_clean(digests, parent) + 1,
        None => place + 1,
    }
}

/// Returns the children of the node at a place. A leaf has no children.
pub(crate) fn children_at(digests: &[Option<Digest>], place: usize) -> &[Option<Digest>]
    requires { place < 2 ^ 32 }
    ensures { result.now ≡ children_of digests.now place }
{
    let first = (16 * place + 1).min(digests.len());
    let behind = &digests[first..];
    &behind[..behind.len().min(16)]
}

/// Returns 16 digests, if all are there.
pub(crate) fn clean_digests(nodes: &[Option<Digest>]) -> Option<[Digest; 16]>
    requires { length nodes.now ≡ 16 }
    ensures { MatchOption result (are_clean nodes.now ≡ false) (λ digests. nodes.now ≡ map Some digests) }
{
    let mut digests = [[0; 32]; 16];
    for j in 0..16usize {
        match nodes[j] {
            Some(digest) => digests[j] = digest,
            None => return None,
        }
    }
    Some(digests)
}

/// Returns true if all these nodes are clean.
fn are_clean(digests: &[Option<Digest>]) -> bool
    ensures { result ≡ are_clean digests.now }
{
    digests.iter().all(|digest| digest.is_some())
}

/// Returns the node at a place.
pub(crate) fn node_of(place: usize) -> NodeAt
    requires { place < nodes_above 4 }
    ensures place { place_of result ≡ place }
    ensures node { IsNode 3 result }
{
    let (depth, before) = match place {
        0 => (0, 0),
        1..=16 => (1, 1),
        17..=272 => (2, 17),
        _ => (3, 273),
    };
    NodeAt {
        depth,
        index: (place - before) as u16,
    }
}
