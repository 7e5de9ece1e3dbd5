//! The rows of a partner's leaf that are missing from the local snapshot.
ghost use Rattle.std.specs.Prelude.{◌≡◌, ◌<◌, ◌^◌, ℕ, List, [], None, length, MatchResult, option_map};
ghost use Rattle.std.specs.List.{sum_by};
ghost use Rattle.vclock.specs.Answer.{Answers};
ghost use Rattle.row_bytes.specs.declared.row.Row.{Row};
ghost use Rattle.hash_tree.specs.Leaves.{AscendByKey};
ghost use Rattle.tree_nodes.specs.Nodes.{tree_depth};
ghost use Rattle.sync_session.specs.Readings.{ReadsNews, IsReadTo, StepsTo, IsReadFault, FrontRow, FrontOwn};

use crate::text_reader::is_here;
use hash_tree::SharedLeaf;
use row_bytes::{Row, key_at, read_row, strip_rows};
use snapshot::Snapshot;
use std::alloc::Global;
use tree_nodes::NodeAt;
use vclock::Refusal;

/// The rows of a leaf's text that are missing from the local snapshot. A row that the local snapshot has, byte for
/// byte, is counted and not read, so most of a text costs no more than a comparison.
#[derive(Debug)]
pub struct News {
    /// The rows of the text that aren't rows of the local snapshot, in ascending order of key.
    pub rows: Vec<Row>,
    /// The number of versions of the other rows of the text.
    pub known: u64,
}

impl News {
    /// Returns no news: no rows, and no known versions.
    pub(crate) fn none(alloc: Global) -> News
        ensures rows { result.rows.items ≡ [] }
        ensures known { result.known ≡ 0 }
    {
        News {
            rows: Vec::new(alloc),
            known: 0,
        }
    }
}

/// A place in the text of a leaf: the rows before it were compared with the local snapshot's.
#[derive(Clone, Copy)]
pub struct NewsPlace<'a> {
    /// The key of the last row before the place: empty at the first row.
    pub(crate) last: &'a [u8],
    /// The bytes from the place on.
    pub(crate) rest: &'a [u8],
    /// The number of versions of the rows before the place that the local snapshot has.
    pub known: u64,
}

/// A step through the text of a leaf.
#[derive(Drop)]
pub struct NewsStep<'a> {
    /// The next row that is missing from the local snapshot, or `None` at the end of the text.
    pub row: Option<Row>,
    /// The place after that row, or at the end.
    pub place: NewsPlace<'a>,
}

/// Reads to the next row that is missing from the local snapshot. Refused: NotCanonical (no rows of the range give the
/// leaf this text), NoMemory, which may replace NotCanonical.
pub(crate) fn next_news<'a>(
    alloc: Global,
    own: &'a Snapshot,
    node: NodeAt,
    place: NewsPlace<'a>,
) -> Result<NewsStep<'a>, Refusal>
    requires leaf { node.depth ≡ tree_depth own.now.format }
    requires read { (text : List ℕ) × (others : List Row)
        × IsReadTo own.now node text place.last.now place.rest.now others place.known }
    ensures { (text : List ℕ) (others : List Row)
        → IsReadTo own.now node text place.entry.last.now place.entry.rest.now others place.entry.known
        → MatchResult result (λ step. StepsTo own.now node text (length place.entry.rest.now) others
        step.row step.place.last.now step.place.rest.now step.place.known)
        (IsReadFault own.now node text) }
{
    // Called only for its clause: the local rows belong to one range.
    let _format = own.format();
    let leaf = own.rows(node.index);
    let mut known = place.known;
    let mut last = place.last;
    let mut rest = place.rest;
    'rows: while !rest.is_empty() {
        let Some(key) = key_at(rest) else {
            return Err(Refusal::NotCanonical);
        };
        if !last.cmp(key).is_lt() {
            return Err(Refusal::NotCanonical);
        }
        if let Some(skipped) = front_run(leaf, key, rest) {
            known += skipped.versions;
            last = skipped.last;
            rest = skipped.after;
            continue;
        }
        let Some((row, after)) = front_row(alloc, own, node.index, rest)? else {
            return Err(Refusal::NotCanonical);
        };
        let place = NewsPlace {
            last: key,
            rest: after,
            known,
        };
        return Ok(NewsStep {
            row: Some(row),
            place,
        });
    }
    let place = NewsPlace { last, rest, known };
    Ok(NewsStep { row: None, place })
}

/// Collects the news in a leaf's text from its first row on. Refused: NotCanonical (no rows of the range give the leaf
/// this text), NoMemory, which may replace NotCanonical.
pub(crate) fn leaf_news(
    alloc: Global,
    own: &Snapshot,
    node: NodeAt,
    first: NewsPlace<'_>,
) -> Result<News, Refusal>
    requires leaf { node.depth ≡ tree_depth own.now.format }
    requires read { (text : List ℕ)
        × IsReadTo own.now node text first.last.now first.rest.now [] first.known }
    ensures { (text : List ℕ) → IsReadTo own.now node text first.entry.last.now first.entry.rest.now [] first.entry.known
        → ReadsNews own.now node text result }
{
    let mut rows = Vec::new(alloc);
    let mut place = first;
    'rows: loop {
        let NewsStep { row, place: after } = next_news(alloc, own, node, place)?;
        place = after;
        match row {
            Some(row) => rows.push(row)?,
            None => {
                return Ok(News {
                    rows,
                    known: place.known,
                });
            }
        }
    }
}

/// Consecutive local rows at the front of a text.
#[derive(Clone, Copy)]
struct Run<'a> {
    /// The number of their versions.
    versions: u64,
    /// The key of the last row.
    last: &'a [u8],
    /// The bytes after their texts.
    after: &'a [u8],
}

/// Returns the rows of a leaf at the front of the bytes, from the row of `key` on, or `None` if the bytes don't begin
/// with that row. Most of a text is skipped in this way, one run at a time.
fn front_run<'a>(leaf: &'a SharedLeaf, key: &[u8], text: &'a [u8]) -> Option<Run<'a>>
    requires { AscendByKey leaf.now.rows }
    ensures { FrontOwn leaf.now key.now text.now (option_map (λ x. (x.versions, x.last.now, x.after.now)) result) }
{
    let rows = leaf.find_run(key)?;
    let (count, after) = strip_rows(text, leaf.format(), rows);
    let (same, _) = rows.split_at(count);
    let last = same.last()?;
    Some(Run {
        versions: version_count(same),
        last: last.key.as_slice(),
        after,
    })
}

/// Counts the versions of rows.
fn version_count(rows: &[Row]) -> u64
    requires { sum_by (λ (r : Row). length r.versions) rows.now < 2 ^ 64 }
    ensures { result ≡ sum_by (λ (r : Row). length r.versions) rows.now }
{
    rows.iter().map(|row| row.versions.len() as u64).sum()
}

/// Returns the row at the front and the bytes after it, or `None` if the bytes don't begin with a row of this leaf.
/// Refused: NoMemory.
fn front_row<'a>(
    alloc: Global,
    own: &Snapshot,
    leaf: u16,
    text: &'a [u8],
) -> Result<Option<(Row, &'a [u8])>, Refusal>
    ensures { Answers result None (λ found. FrontRow own.now leaf text.now (option_map (λ x. (x.0, x.1.now)) found)) }
{
    let (row, after) = match read_row(alloc, own.format(), text) {
        Ok(found) => found,
        Err(Refusal::RowBroken(_)) => return Ok(None),
        Err(_) => return Err(Refusal::NoMemory),
    };
    if is_here(own, leaf, row.key.as_slice()) {
        Ok(Some((row, after)))
    } else {
        Ok(None)
    }
}

impl Drop for News {
    /// Keeps the fields out of the proofs of callers that drop news.
    fn drop(self) {
        let News {
            rows: _rows,
            known: _known,
        } = self;
    }
}
