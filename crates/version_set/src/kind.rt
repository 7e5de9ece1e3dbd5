//! The kinds of versions.
ghost use Rattle.std.specs.Prelude.{◌≡◌, ⊤};
ghost use Rattle.vclock.specs.Answer.{AnswersAtOnce};
ghost use Rattle.version_set.specs.Kind.{kind_byte, value_fault};

use vclock::{Format, Refusal};

/// The kind of a version: it has a value or deletes the key.
#[derive(Clone, Copy, Debug, PartialEq, Eq)]
pub enum Kind {
    /// A value that was put.
    Live,
    /// A deletion of the key: the value is empty. Format 1 has no tombstones.
    Tombstone,
}

impl Kind {
    /// Returns the byte that represents the kind in texts: 0 for a live version, 1 for a tombstone.
    pub fn byte(self) -> u8
        ensures { result ≡ kind_byte self }
    {
        match self {
            Kind::Live => 0,
            Kind::Tombstone => 1,
        }
    }

    /// Checks that a version of this kind may have the value: up to the format's limit if it is live; the empty value
    /// if it is a tombstone of format 2. Refused: BadValue.
    pub fn check_value(self, format: Format, value: &[u8]) -> Result<(), Refusal>
        ensures { AnswersAtOnce result (value_fault format self value.now) (λ _. ⊤) }
    {
        let fits = match (self, format) {
            (Kind::Live, _) => value.len() <= format.value_limit(),
            (Kind::Tombstone, Format::One) => false,
            (Kind::Tombstone, Format::Two) => value.is_empty(),
        };
        if fits { Ok(()) } else { Err(Refusal::BadValue) }
    }
}
