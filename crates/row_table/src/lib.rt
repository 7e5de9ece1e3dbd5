//! The rows of a range by key: a key of any length is found by one probe and, mostly, one comparison.
//!
//! - [`table`]: tables of rows.
//! - `index`: the index by which a table finds its rows.
//! - [`seed`]: the hash of keys.
//!
//! ```
//! let place = table.find(row.key.as_slice());
//! table.make_room_at(place)?;
//! table.put_at(place, row);
//! ```
#![tactic(auto)]

mod index;
pub mod seed;
pub mod table;

pub use seed::Seed;
pub use table::{RowTable, TableRow};
