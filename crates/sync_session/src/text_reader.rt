//! Reading the texts that partners send.
ghost use Rattle.std.specs.Prelude.{◌≡◌, ◌↔◌, ◌&&◌, ◌∷◌, ℕ, List, IsTrue, nat_eq};
ghost use Rattle.std.specs.List.{list_all};
ghost use Rattle.std.specs.Option.{MatchOption};
ghost use Rattle.key_ring.specs.Places.{range_at};
ghost use Rattle.row_bytes.specs.declared.row.Row.{Row};
ghost use Rattle.hash_tree.specs.Texts.{leaf_byte, inner_byte};
ghost use Rattle.snapshot.specs.RowMaps.{leaf_in};
ghost use Rattle.sync_session.specs.Walks.{IsInnerText};
ghost use Rattle.sync_session.specs.Readings.{ReadsLeaf};

use hash_tree::{INNER_LEN, inner_byte, leaf_byte};
use key_ring::place;
use row_bytes::{Row, RowList, read_rows};
use snapshot::Snapshot;
use std::alloc::Global;
use tree_nodes::NodeAt;
use vclock::{Format, Refusal};

/// Returns true if a text has an inner node's form.
pub fn is_inner(format: Format, text: &[u8]) -> bool
    ensures { IsTrue result ↔ IsInnerText format text.now }
{
    text.len() == INNER_LEN && text[0] == inner_byte(format)
}

/// Returns the bytes after the first byte of a text, if that byte is `mark`.
pub fn body_of(mark: u8, text: &[u8]) -> Option<&[u8]>
    ensures { MatchOption result ((body : List ℕ) → text.now ≡ mark ∷ body → ⊥) (λ body. text.now ≡ mark ∷ body.now) }
{
    match text {
        [first, body @ ..] if *first == mark => Some(body),
        _ => None,
    }
}

/// Returns true if a key is in the range of the local rows and in this leaf.
pub fn is_here(own: &Snapshot, leaf: u16, key: &[u8]) -> bool
    ensures { result ≡ (nat_eq (range_at own.now.bits key.now) own.now.range && nat_eq (leaf_in own.now key.now) leaf) }
{
    let place = place(own.format(), own.bits(), key);
    place.range == own.range() && place.leaf == leaf
}

/// Returns true if each row is in the range of the local rows and in this leaf.
fn are_here(own: &Snapshot, leaf: u16, rows: &[Row]) -> bool
    ensures { result ≡ list_all (λ (r : Row). nat_eq (range_at own.now.bits r.key) own.now.range && nat_eq (leaf_in own.now r.key) leaf) rows.now }
{
    rows.iter()
        .all(|row| is_here(own, leaf, row.key.as_slice()))
}

/// Returns the rows that a leaf's text spells. Refused: NotCanonical (no rows of the range give the leaf this text),
/// NoMemory, which may replace NotCanonical.
pub fn leaf_rows(
    alloc: Global,
    own: &Snapshot,
    node: NodeAt,
    text: &[u8],
) -> Result<RowList, Refusal>
    ensures { ReadsLeaf own.now node text.now result }
{
    let format = own.format();
    let Some(body) = body_of(leaf_byte(format), text) else {
        return Err(Refusal::NotCanonical);
    };
    let rows = match read_rows(alloc, format, body) {
        Ok(rows) => rows,
        Err(Refusal::RowBroken(_)) => return Err(Refusal::NotCanonical),
        Err(_) => return Err(Refusal::NoMemory),
    };
    if are_here(own, node.index, rows.as_slice()) {
        Ok(rows)
    } else {
        Err(Refusal::NotCanonical)
    }
}
