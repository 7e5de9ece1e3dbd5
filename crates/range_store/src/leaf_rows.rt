//! The rows of one leaf, read from their texts.
ghost use Rattle.std.specs.Prelude.{◌≡◌, ◌<◌, Ok, length, IfOk};
ghost use Rattle.std.specs.List.{list_all};
ghost use Rattle.vclock.specs.Answer.{AnswersAtOnce, AnswersOrNoMemory};
ghost use Rattle.key_ring.specs.Places.{range_at};
ghost use Rattle.row_bytes.specs.declared.row.Row.{Row};
ghost use Rattle.range_store.specs.Store.{leaf_in, leaf_count};
ghost use Rattle.range_store.specs.Loads.{first_leaf, is_home, apart_fault, rows_in, read_fault, AreLeafRows};

use crate::config::RangeConfig;
use key_ring::{KeyPlace, place};
use row_bytes::{Row, RowList, read_rows};
use std::alloc::Global;
use std::marker::Model;
use vclock::Refusal;

/// Rows of one leaf of a range, in ascending order of key, that were read from their texts. A caller reads them before
/// it takes a lock, since reading hashes each key.
#[derive(Debug, Drop)]
pub struct LeafRows {
    config: RangeConfig,
    leaf: u16,
    rows: RowList,
}

impl Model for LeafRows {
    ghost use Rattle.range_store.specs.Loads.{RowsFor, AreLeafRows};

    ghost Value = { RowsFor };

    ghost view = { λ r. record { config = r.config; leaf = r.leaf; rows = r.rows } };

    ghost invariant = { λ r. AreLeafRows r.config r.leaf r.rows };
}

impl LeafRows {
    /// Reads the rows of one leaf of a range from their texts, in ascending order of key. Returns no rows for an empty
    /// text.
    ///
    /// Refused, in order: RowBroken (with the offset in bytes of the first field that isn't whole or breaks its rule),
    /// OtherRange (a key belongs to another range, or to another leaf than the first key), NoMemory. Reading allocates,
    /// so NoMemory may replace any cause.
    pub fn read(alloc: Global, config: RangeConfig, text: &[u8]) -> Result<LeafRows, Refusal>
        ensures { AnswersOrNoMemory result (read_fault config (length text.now) (rows_in config.format text.now))
            (λ read. (read.config ≡ config) × (read.leaf ≡ first_leaf config read.rows)
            × (rows_in config.format text.now ≡ Ok read.rows)) }
    {
        let rows = read_rows(alloc, config.format(), text)?;
        let leaf = leaf_of(&config, rows.as_slice())?;
        Ok(LeafRows { config, leaf, rows })
    }

    /// Returns the configuration of the range for which the rows were read.
    pub fn config(&self) -> RangeConfig
        ensures { result ≡ self.now.config }
    {
        self.config
    }

    /// Returns the leaf of the rows, or 0 without rows.
    pub fn leaf(&self) -> u16
        ensures value { result ≡ self.now.leaf }
        ensures valid { AreLeafRows self.now.config self.now.leaf self.now.rows }
    {
        self.leaf
    }

    /// Returns the rows in ascending order of key.
    pub fn as_slice(&self) -> &[Row]
        ensures { result.now ≡ self.now.rows }
    {
        self.rows.as_slice()
    }
}

/// Returns the leaf of rows, or 0 without rows. Refused: OtherRange (a key belongs to another range, or to another leaf
/// than the first key).
fn leaf_of(config: &RangeConfig, rows: &[Row]) -> Result<u16, Refusal>
    ensures leaf { AnswersAtOnce result (apart_fault config.now rows.now) (λ leaf. leaf ≡ first_leaf config.now rows.now) }
    ensures inside { IfOk result (λ leaf. leaf < leaf_count config.now) }
{
    let Some(first) = rows.first() else {
        return Ok(0);
    };
    let leaf = place_in(config, first.key.as_slice()).leaf;
    if !are_home(config, leaf, rows) {
        return Err(Refusal::OtherRange);
    }
    Ok(leaf)
}

/// Returns true if the key of each row belongs to the range and to a leaf.
fn are_home(config: &RangeConfig, leaf: u16, rows: &[Row]) -> bool
    ensures { result ≡ list_all (λ (r : Row). is_home config.now leaf r.key) rows.now }
{
    rows.iter().all(|row| is_home(config, leaf, row))
}

/// Returns true if the key of a row belongs to the range and to a leaf.
fn is_home(config: &RangeConfig, leaf: u16, row: &Row) -> bool
    ensures { result ≡ is_home config.now leaf row.now.key }
{
    let at = place_in(config, row.key.as_slice());
    at.range == config.range() && at.leaf == leaf
}

/// Returns the range and the leaf of a key, in a configuration.
pub(crate) fn place_in(config: &RangeConfig, key: &[u8]) -> KeyPlace
    ensures range { result.range ≡ range_at config.now.bits key.now }
    ensures leaf { result.leaf ≡ leaf_in config.now key.now }
    ensures in_tree { result.leaf < leaf_count config.now }
{
    // Called only for its clause: the configuration is valid.
    let _valid = config.limit();
    place(config.format(), config.bits(), key)
}
