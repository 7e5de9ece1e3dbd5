//! The size of a range.
ghost use Rattle.std.specs.Prelude.{◌≡◌, ◌-◌, ◌<◌, ◌^◌, min};
ghost use Rattle.key_ring.specs.Places.{leaf_bits};
ghost use Rattle.range_state.specs.Bytes.{bytes_of, sessions_len, session_len, replaced_len, replaced_leaf_len, taken_len, later_digest, is_digest};

use crate::record::Record;
use crate::state::RangeState;
use key_ring::leaf_count;
use range_tree::Tree;
use snapshot::Snapshot;
use sync_session::{Session, Taken};
use tree_nodes::{Digest, NodeAt, tree_depth};

/// The size of a range at one moment: lengths of contents in bytes, each at most 2^64 - 1. Memory differs, since rows,
/// entries and sessions share values. The moment isn't counted.
#[derive(Clone, Copy, Debug, PartialEq, Eq)]
pub struct RangeBytes {
    /// The texts of the rows.
    pub rows: u64,
    /// The keys, values and clocks of the journal's entries: 10 bytes for each pair of a clock.
    pub journal: u64,
    /// The texts that sessions took, and an upper bound for the rows that only they keep: the texts of those leaves
    /// that have another digest, or none, in the next session, or in the range now for the last session. Of these
    /// leaves they keep only the chunks of 15 rows that have changed.
    pub sessions: u64,
}

impl RangeState {
    /// Returns the size of the rows, of the journal, and of the data that sessions keep in addition. Reads each chunk
    /// of 15 rows, but no row or entry, and for each session the digests of the leaves and the length of each text that
    /// it took. Doesn't allocate.
    pub fn bytes(&self) -> RangeBytes
        ensures { result ≡ bytes_of self.now }
    {
        let tree = self.store.tree();
        RangeBytes {
            rows: tree.rows_len(),
            journal: self.store.journal().bytes(),
            sessions: sessions_len(&self.records, tree),
        }
    }
}

/// Returns the size of the data that sessions keep in addition to a tree, at most 2^64 - 1.
#[tactic(auto, using(crate::proofs::SizeLaws::next_session))]
fn sessions_len(records: &[Record], tree: &Tree) -> u64
    ensures { result ≡ min (sessions_len tree.now records.now) (2 ^ 64 - 1) }
{
    let mut len = 0u64;
    for at in 0..records.len() {
        let session = session_len(records[at].session(), &records[at + 1..], tree);
        len = len.saturating_add(session);
    }
    len
}

/// Returns the size of the data that a session keeps in addition to later ones and a tree, at most 2^64 - 1.
fn session_len(session: &Session, later: &[Record], tree: &Tree) -> u64
    ensures { result ≡ min (session_len tree.now session.now later.now) (2 ^ 64 - 1) }
{
    replaced_len(session.own(), later, tree).saturating_add(taken_len(session.taken()))
}

/// Returns the size of the texts that a session took, at most 2^64 - 1.
#[tactic(auto, using(crate::proofs::SizeLaws::next_text))]
fn taken_len(taken: &[Taken]) -> u64
    ensures { result ≡ min (taken_len taken.now) (2 ^ 64 - 1) }
{
    let mut len = 0u64;
    for text in taken {
        len = len.saturating_add(text.text().text().len() as u64);
    }
    len
}

/// Returns the size of the leaves of rows that were replaced later, at most 2^64 - 1.
#[tactic(auto, using(crate::proofs::SizeLaws::next_leaf))]
fn replaced_len(own: &Snapshot, later: &[Record], tree: &Tree) -> u64
    ensures { result ≡ min (replaced_len tree.now own.now later.now) (2 ^ 64 - 1) }
{
    let mut len = 0u64;
    for leaf in 0..leaf_count(own.format()) {
        len = len.saturating_add(replaced_leaf_len(own, leaf, later, tree));
    }
    len
}

/// Returns the size of a leaf if it was replaced later, otherwise 0; at most 2^64 - 1.
fn replaced_leaf_len(own: &Snapshot, leaf: u16, later: &[Record], tree: &Tree) -> u64
    requires { leaf < 2 ^ leaf_bits own.now.format }
    ensures { result ≡ min (replaced_leaf_len tree.now own.now later.now leaf) (2 ^ 64 - 1) }
{
    let node = NodeAt {
        depth: tree_depth(own.format()),
        index: leaf,
    };
    if is_digest(later_digest(later, tree, node), own.digest_at(node)) {
        return 0;
    }
    own.rows(leaf).rows_len()
}

/// Returns the digest of a node in the rows of the first of some sessions, or in a tree without sessions. Returns
/// `None` if the node is dirty, or isn't in the tree.
fn later_digest(later: &[Record], tree: &Tree, node: NodeAt) -> Option<Digest>
    ensures { result ≡ later_digest tree.now later.now node }
{
    let Some(next) = later.first() else {
        return tree.digest_at(node);
    };
    let own = next.session().own();
    if node.depth > tree_depth(own.format()) {
        return None;
    }
    Some(own.digest_at(node))
}

/// Returns true if a digest is present and equal to the other one.
fn is_digest(digest: Option<Digest>, other: Digest) -> bool
    ensures { result ≡ is_digest digest other }
{
    match digest {
        Some(digest) => digest == other,
        None => false,
    }
}
