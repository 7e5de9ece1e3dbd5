//! The texts of rows, which replicas must agree on byte for byte: reading, writing, comparing and measuring them. Use
//! it to read and write rows as docs/FORMATS.md defines them.
//!
//! - [`row`]: a row, and a list of rows.
//! - [`reader`]: reading rows from texts.
//! - [`writer`]: writing texts of rows.
//! - [`comparison`]: comparing a text with a row's text in place.
//! - [`lengths`]: the lengths of texts.
//!
//! ```
//! let (row, _) = read_row(alloc, format, text)?;
//! a_held_set_is_a_row();
//! let written = write_row(alloc, format, &row)?;
//! Ok((row, written))
//! ```
#![tactic(auto)]

pub mod comparison;
mod fault;
mod fields;
pub mod lengths;
pub mod reader;
pub mod row;
pub mod writer;

pub use comparison::{strip, strip_row, strip_rows};
pub use lengths::{row_len, version_len};
pub use reader::{a_held_set_is_a_row, a_row_has_one_text, key_at, read_row, read_rows};
pub use row::{Row, RowList};
pub use writer::{put_row, write_held, write_row};
