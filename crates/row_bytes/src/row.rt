//! Rows.
ghost use Rattle.std.specs.Prelude.{◌≡◌, ◌↔◌, IsTrue, [], length};
ghost use Rattle.std.specs.Slice.Iter.{iter_rest};

use std::marker::Model;
use std::slice::Iter;
use vclock::Bytes;
use version_set::VersionSet;

/// A key with the versions that are held for it. A leaf of the tree consists of rows, and its text contains their
/// texts.
///
/// ```
/// let (row, _) = read_row(alloc, format, text)?;
/// a_held_set_is_a_row();
/// let written = write_row(alloc, format, &row)?;
/// Ok((row, written))
/// ```
#[derive(Debug, Drop)]
pub struct Row {
    /// The key. The row has a text only if the key has 1 to 255 bytes.
    pub key: Bytes,
    /// The versions. The row has a text only if there are 1 to 64 of them.
    pub versions: VersionSet,
}

/// The rows that were read from one text.
///
/// ```
/// let rows = read_all(alloc, Format::One, &twice);
/// expect(
///     matches!(&rows, Err(Refusal::RowBroken(21))),
///     "the second row is broken",
/// )?;
/// ```
#[derive(Debug, Drop)]
pub struct RowList {
    rows: Vec<Row>,
}

impl Model for RowList {
    ghost use Rattle.std.specs.Prelude.{List};
    ghost use Rattle.row_bytes.specs.declared.row.Row.{Row};

    ghost Value = { List Row };

    ghost view = { λ r. r.rows.items };
}

impl RowList {
    /// Returns the rows in order.
    pub fn as_slice(&self) -> &[Row]
        ensures { result.now ≡ self.now }
    {
        &self.rows
    }

    /// Returns an iterator over the rows in order.
    pub fn iter(&self) -> Iter<'_, Row>
        ensures { iter_rest result ≡ self.now }
    {
        self.rows.iter()
    }

    /// Returns the number of rows.
    pub fn len(&self) -> usize
        ensures { result ≡ length self.now }
    {
        self.rows.len()
    }

    /// Returns true if the list is empty.
    pub fn is_empty(&self) -> bool
        ensures { IsTrue result ↔ (self.now ≡ []) }
    {
        self.rows.is_empty()
    }
}

impl From<Vec<Row>> for RowList {
    ghost use Rattle.std.specs.Prelude.{◌≡◌};

    ghost from_gives = { λ rows kept. kept ≡ rows.items };

    /// Wraps a vector of rows.
    fn from(rows: Vec<Row>) -> RowList {
        RowList { rows }
    }
}
