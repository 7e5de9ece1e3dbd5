//! A replica of a range, for programs in C and in languages that can call C. Use it through `include/antientropy.h`,
//! which declares these calls. An export that changes a value takes it out of its handle, makes a call of `c_calls`
//! with it, and puts it back. An export that reads a replica or a snapshot shares the value: the caller passes a copy
//! of the handle, so threads may read at the same time. Its name begins with `antientropy_share_`.
#![tactic(auto)]

pub mod about;
pub mod asks;
pub mod carrier;
pub mod clocks;
pub mod counters;
pub mod counts;
pub mod entries;
pub mod exchange_handle;
pub mod exchanges;
mod frame;
pub mod hint_calls;
pub mod hints;
pub mod keys;
pub mod library;
pub mod lifecycle;
pub mod loads;
pub mod moments;
pub mod offer_parts;
pub mod offers;
pub mod packed;
pub mod portion_handle;
pub mod portions;
pub mod progress;
pub mod publication;
pub mod publication_share;
pub mod puts;
pub mod readers;
pub mod readings;
pub mod renewal;
pub mod renewal_calls;
pub mod renewal_handle;
pub mod replica;
pub mod replica_share;
pub mod rows;
pub mod sessions;
pub mod sizes;
pub mod slot_calls;
pub mod slots;
pub mod spots;
pub mod tree;
pub mod versions;
