//! Values on the heap in the form in which C keeps them: a pointer and a flag.
//!
//! - [`handle`]: a value on the heap, or nothing.
//! - [`in_c`]: the structs of C that are handles, one for each type.
//! - [`lent`]: a share of a value on the heap, or nothing: the value is only read.
//! - [`read_in_c`]: the structs of C that hold a share, one for each type.
//!
//! ```
//! let Handle { at, held, alloc } = handle;
//! Replica {
//!     at: at as *mut u8,
//!     held,
//!     alloc,
//! }
//! ```
#![tactic(auto)]

pub mod handle;
pub mod in_c;
pub mod lent;
pub mod read_in_c;

pub use handle::Handle;
pub use in_c::InC;
pub use lent::Lent;
pub use read_in_c::ReadInC;
