//! The parts of a node that its threads share: its hints, the controller of its slots, the ranges that it replicates,
//! and the offers of its snapshots. Use it to write a node whose puts, rehashing, syncs and deliveries run in different
//! threads.
//!
//! Each shared part is a lock around a proved value. A call takes the lock once, for one call of the value, and
//! releases it. Threads see only whole calls, in some order, and the invariants of the values' types hold for running
//! threads. No code outside can name the value behind a lock. A contract therefore states the result of the call, and
//! that at some moment there was a valid value with this outcome.
//!
//! - [`range`], [`hints`], [`controller`], [`offers`]: the shared parts.
//! - [`rehasher`], [`moment_worker`], [`syncer`], [`delivery`]: background work, in turns.
//! - [`link`]: the trait of a link to a partner. [`channel`], [`memory`]: links over channels, and to a pool in the
//!   same memory.
//! - [`gate`], [`scripted_link`], [`deed`]: gates and links for tests.
//!
//! ```
//! let slot = slots.lend(rt)?;
//! let report = range.rehash_worker(rt, alloc, &slot, &OpenGate, worker, REHASH_TURNS);
//! slots.give_back(rt, slot);
//! ```
#![tactic(auto)]

pub mod channel;
pub mod controller;
pub mod deed;
pub mod delivery;
pub mod gate;
pub mod hints;
pub mod link;
pub mod memory;
pub mod moment_worker;
pub mod offers;
pub mod range;
pub mod rehasher;
pub mod scripted_link;
mod server;
pub mod syncer;

pub use channel::{ChannelLink, ChannelServer, channel_link};
pub use controller::{Counts, SharedController};
pub use deed::Deed;
pub use delivery::{DeliverReport, deliver};
pub use gate::{Gate, OpenGate, Step};
pub use hints::SharedHints;
pub use link::{Link, Reached};
pub use memory::MemoryLink;
pub use moment_worker::MomentReport;
pub use offers::{OfferCounts, OfferPool};
pub use range::{NotClosed, RenewedRange, SharedRange};
pub use rehasher::RehashReport;
pub use scripted_link::ScriptedLink;
pub use syncer::SyncReport;
