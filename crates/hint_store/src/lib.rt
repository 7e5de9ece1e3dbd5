//! Hinted handoff (section 4.6 of the Dynamo paper): the versions that a carrier keeps for replicas that are down, and
//! their fates. Use it to keep hints and to record their deliveries.
//!
//! - [`hint`]: a hint, its delivery and its fate.
//! - [`store`]: the hints of a carrier.
//! - [`counts`]: the numbers of its pending and delivered hints.
//!
//! ```
//! expect(keep(alloc, store, 2, 1)? == 1, "the first hint is 1")?;
//! let hint = store.next(alloc, 2, 0)?.ok_or("no hint for 2")?;
//! ```
#![tactic(auto)]

pub mod counts;
pub mod hint;
pub mod store;

pub use counts::HintCounts;
pub use hint::{Delivery, Fate, Hint, Kept};
pub use store::HintStore;
