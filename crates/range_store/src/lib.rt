//! The versions of one replica of a range, for one thread: the journal of the accepted versions, the rows that the
//! journal makes, and the digests of their tree (section 4.7 of the Dynamo paper). Use it to put, accept and read
//! versions, to load and renew them, and to migrate their format. Sessions are in `range_state`.
//!
//! - [`config`]: the number of a range, its format, and the limit of its journal.
//! - [`context_test`]: the tests of a put's context.
//! - [`receipt`]: the entry that a call journaled, and the outcome of accepting a version.
//! - [`store`]: the store and its calls: `put`, `accept`, `get`, `versions` and `find`, and `put_into` and
//!   `accept_into` for receipts in a list; `tree` for rows, texts, jobs and snapshots, and `install`, `rehash`,
//!   `rehash_here` and `rehash_some` to hash it; `load_rows`, `load_into` and `load_format` for rows as bytes, and
//!   `prepare` and `accept_batch` for rows of a leaf; `migrate` to format 2; `check_limit` and `renewed` for a new
//!   store that begins with the versions held, and `basis` to make one alongside the puts.
//! - [`leaf_rows`]: rows of a leaf that were read from bytes.
//! - [`laws`]: laws proved from the definitions, such as that a renewed range holds the same versions.
//!
//! ```
//! let context = clock(alloc, context)?;
//! let value = Bytes::copy_of(alloc, value)?;
//! let receipt = store.put(
//!     alloc,
//!     ContextTest::Fresh,
//!     0,
//!     at,
//!     key,
//!     &context,
//!     Kind::Live,
//!     value,
//! )?;
//! Ok(receipt.number)
//! ```
#![tactic(auto)]

pub mod config;
pub mod context_test;
pub mod laws;
pub mod leaf_rows;
pub mod receipt;
mod replay;
pub mod store;

pub use config::RangeConfig;
pub use context_test::ContextTest;
pub use leaf_rows::LeafRows;
pub use receipt::{Accepted, Receipt};
pub use row_table::Seed;
pub use store::RangeStore;
pub use store::batch::Batch;
pub use store::loading::Loaded;
pub use store::receipts::{move_to, receipts_beside};
pub use store::renewal::RenewalBasis;
