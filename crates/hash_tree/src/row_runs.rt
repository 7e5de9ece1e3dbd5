//! The rows of a leaf in runs.
ghost use Rattle.std.specs.Prelude.{◌≡◌, ◌++◌, ◌≤◌, [], length, MatchOption};
ghost use Rattle.std.specs.List.{AllByRecursion};
ghost use Rattle.hash_tree.specs.Leaves.{Bucket};
ghost use Rattle.hash_tree.specs.Chunks.{all_rows};

use crate::chunk::Chunk;
use row_bytes::Row;
use std::marker::Model;

/// The rows of a leaf that are still to be read, in ascending order of key. They are read a run at a time.
#[derive(Debug, Drop)]
pub struct RowRuns<'a> {
    chunks: &'a [Chunk],
}

impl<'a> Model for RowRuns<'a> {
    ghost use Rattle.std.specs.Prelude.{◌≤◌, List, length};
    ghost use Rattle.std.specs.List.{AllByRecursion};
    ghost use Rattle.row_bytes.specs.declared.row.Row.{Row};
    ghost use Rattle.hash_tree.specs.Leaves.{Bucket};
    ghost use Rattle.hash_tree.specs.Chunks.{all_rows};

    ghost Value = { List Row };

    ghost view = { λ r. all_rows r.chunks.now };

    ghost invariant = { λ r. AllByRecursion (λ (c : Bucket). 1 ≤ length c.rows) r.chunks.now };
}

impl<'a> RowRuns<'a> {
    /// Wraps the chunks of a leaf.
    pub(crate) fn of(chunks: &'a [Chunk]) -> RowRuns<'a>
        requires { AllByRecursion (λ (c : Bucket). 1 ≤ length c.rows) chunks.now }
        ensures { result ≡ all_rows chunks.now }
    {
        RowRuns { chunks }
    }

    /// Returns the next rows, at least one, or `None` if all were read. The number of rows matters only for speed: they
    /// end with a chunk. Doesn't allocate.
    pub fn next_run(&mut self) -> Option<&'a [Row]>
        ensures { MatchOption result ((self.old ≡ []) × (self.new ≡ []))
            (λ rows. (self.old ≡ rows.now ++ self.new) × (1 ≤ length rows.now)) }
    {
        let (chunk, rest) = self.chunks.split_first()?;
        self.chunks = rest;
        Some(chunk.rows())
    }
}
