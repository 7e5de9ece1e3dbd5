//! The handle of a carrier: its hints, and their numbers.
use crate::hints::Hints;

/// The hints of a carrier, or nothing. All bytes of an empty handle are zero.
#[repr(C)]
pub struct Carrier {
    /// The store of the hints, which numbers them from 1.
    pub store: Hints,
    /// The number before the first one: hint n of the store has the number `before` + n in C.
    pub before: u64,
}
