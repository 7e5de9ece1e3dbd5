//! The two formats of rows, trees and messages.

/// The format of rows, trees and messages, which also sets the maximum length of a value. Replicas of a range sync only
/// if their formats are equal. A range of format 1 can be migrated to format 2, but not back.
#[derive(Clone, Copy, Debug, PartialEq, Eq)]
pub enum Format {
    /// Live versions only, and a tree of depth 2 with 256 leaves.
    One,
    /// Tombstones as well, longer values, and a tree of depth 3 with 4,096 leaves.
    Two,
}

impl Format {
    ghost use Rattle.std.specs.Prelude.{◌≡◌};
    ghost use Rattle.vclock.specs.Format.{format_of, format_number, value_limit};

    /// Returns the format with this number, 1 or 2, as written in a ring's line and in an offer; `None` for other
    /// numbers.
    pub fn of_number(number: u64) -> Option<Format>
        ensures { result ≡ format_of number }
    {
        match number {
            1 => Some(Format::One),
            2 => Some(Format::Two),
            _ => None,
        }
    }

    /// Returns the number of the format, 1 or 2.
    pub fn number(self) -> u8
        ensures { result ≡ format_number self }
    {
        match self {
            Format::One => 1,
            Format::Two => 2,
        }
    }

    /// Returns the maximum length of a value, in bytes: 4,096, or 65,536 in format 2.
    pub fn value_limit(self) -> usize
        ensures { result ≡ value_limit self }
    {
        match self {
            Format::One => 4_096,
            Format::Two => 65_536,
        }
    }
}
