//! A replica of a range, for one thread: its store, which has the versions that it accepted, and the sessions with
//! partners. Use it to put, accept and read versions, and to synchronise replicas.
//!
//! - [`state`]: the state and its calls. For the store: `put`, `put_read`, `accept` and `get`, and `put_into` and
//!   `accept_into` for receipts in a list; for the tree: `take_job`, `take_jobs`, `install`, `digest_at`, `rehash`,
//!   `rehash_here`, `rehash_some` and `snapshot`; for a moment, whose rows are hashed while the range changes:
//!   `hold_moment`, `take_moment_jobs` and `install_moment`, or `hash_moment`, `take_portion` and `install_portion` for
//!   many of its nodes, `moment`, `open_session_at_moment`, `whole_front` and `take_moment`; `load_rows`, `load_into`
//!   and `load_format` for rows as bytes; `migrate` to format 2; `renewed` for a new range that begins with the
//!   versions held, and `begin_renewal` for one that is made alongside the puts; `store` for other reads. For sessions
//!   with partners: `check_offer`, `open_session`, `outstanding`, `take_answer`, `take_answer_into`, `cancel_session`,
//!   `records` and `open_sessions`, `outline` and `patched` so that a partner sends only the missing parts, and
//!   `sync_with` for a whole session; `reconcile` for a session each way; `counts`.
//! - [`local_rows`]: the choice between the rows now and the moment's rows, for `snapshot_of` and `open_session_by`.
//! - [`moment`]: the rows that a range had at a moment; [`portion`]: some of its nodes, which any thread can hash.
//! - [`record`]: a session of a range, and its partner.
//! - [`event`], [`run`]: the calls as events, and lists of events.
//! - [`laws`]: laws proved from the definitions, such as that a range that finished a session holds the versions that
//!   its partner had, if no two different texts share a digest.
//!
//! ```
//! let context = clock(alloc, context)?;
//! let value = Bytes::copy_of(alloc, value)?;
//! let receipt = state.put(alloc, 0, at, key, &context, Kind::Live, value)?;
//! Ok(receipt.number)
//! ```
#![tactic(auto)]

pub mod event;
pub mod laws;
pub mod local_rows;
pub mod moment;
pub mod portion;
pub mod record;
pub mod run;
pub mod state;

pub use event::{
    AcceptEvent, AnswerCounted, AnswerEvent, AnswerTaken, Event, InstallEvent, OpenEvent, PutEvent,
    Reply,
};
pub use local_rows::LocalRows;
pub use moment::Moment;
pub use portion::Portion;
pub use range_store::{Accepted, ContextTest, LeafRows, Loaded, RangeConfig, Receipt, Seed};
pub use record::Record;
pub use state::RangeState;
pub use state::bytes::RangeBytes;
pub use state::counts::RangeCounts;
pub use state::reconciliation::{Reconciled, reconcile};
pub use state::renewal::{Renewal, RenewalStart, Unfinished};
pub use state::sync::Synced;
