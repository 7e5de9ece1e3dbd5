//! Calls from C on a replica's state, a snapshot, a store of hints or a budget of slots, with the numbers and the
//! buffers of C. `antientropy_c` has the exports, which make these calls with the value of a handle.
//!
//! - [`frame`]: the frame of a call with the value that a handle has or shares.
//! - [`numbers`]: the number that a call returns: 0, a refusal's number, or one that only C has; [`library`]: their
//!   names.
//! - [`kept`]: a replica's state, with the numbers of its entries; [`lifecycle`], [`renewal`]: new ones;
//!   [`kept_renewal`]: one that is made in parallel with puts.
//! - [`published`]: a snapshot, with the number of its entries; [`offers`], [`readers`], [`loads`]: the calls on it.
//! - [`pair`], [`clocks`]: clocks as pairs; [`puts`]: puts, and versions of other replicas.
//! - [`rows`], [`versions`], [`readings`], [`keys`], [`counters`]: reads of a replica.
//! - [`counts`], [`sizes`], [`about`], [`entries`], [`packed`]: its counts, its size, its place, and its entries.
//! - [`tree`], [`moments`], [`portions`]: hashing; [`sessions`], [`asks`], [`offer_parts`]: sessions with partners.
//! - [`exchanges`]: the loop of a sync with a partner; [`progress`]: its progress.
//! - [`hint_calls`]: hints, whose numbers continue through renewals.
//! - [`laws`]: no number names two hints, and entries keep their numbers over a renewal in parallel with puts.
//! - [`slot_calls`]: slots for background work; [`spots`]: the range and the leaf of a key.
//! - [`output`]: copies of bytes to the buffers of C.
//!
//! ```
//! let outcome = ask(alloc, kept.state(), session, place, number);
//! hand_out(&outcome, out, need)
//! ```
#![tactic(auto)]

pub mod about;
pub mod asks;
pub mod clocks;
pub mod counters;
pub mod counts;
pub mod entries;
pub mod exchanges;
pub mod frame;
pub mod hint_calls;
pub mod kept;
pub mod kept_renewal;
pub mod keys;
pub mod laws;
pub mod library;
pub mod lifecycle;
pub mod loads;
pub mod moments;
pub mod numbers;
pub mod offer_parts;
pub mod offers;
pub mod output;
pub mod packed;
pub mod pair;
pub mod portions;
pub mod progress;
pub mod published;
pub mod puts;
pub mod readers;
pub mod readings;
pub mod renewal;
pub mod rows;
pub mod sessions;
pub mod sizes;
pub mod slot_calls;
pub mod spots;
pub mod tree;
pub mod versions;
