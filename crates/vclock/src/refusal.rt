//! The causes of a refusal.
ghost use Rattle.std.specs.Prelude.{◌≡◌, [], ◌∷◌, ◌++◌, OnOk, OnErr};

use crate::clock::Clock;
use std::alloc::{AllocError, AllocFailed, Global};
use std::error::Error;
use std::fmt;
use std::marker::Model;

/// A list of clocks: those that a key held when its put was refused as [`Refusal::StaleContext`]. A client merges them
/// into its context and puts again.
#[derive(Debug)]
pub struct Clocks {
    clocks: Vec<Clock>,
}

impl Model for Clocks {
    ghost use Rattle.std.specs.Prelude.{List, ℕ};

    ghost Value = { List (List (ℕ × ℕ)) };

    ghost view = { λ c. c.clocks.items };
}

impl Clocks {
    /// Creates an empty list. Doesn't allocate.
    pub fn new(alloc: Global) -> Clocks
        ensures { result ≡ [] }
    {
        Clocks {
            clocks: Vec::new(alloc),
        }
    }

    /// Adds a clock at the end. On error the list is unchanged.
    pub fn push(&mut self, clock: Clock) -> Result<(), AllocError>
        ensures ok { OnOk result (self.new ≡ self.old ++ clock ∷ []) }
        ensures err { OnErr result (self.new ≡ self.old) }
    {
        self.clocks.push(clock)?;
        Ok(())
    }

    /// Returns the clocks in order.
    pub fn as_slice(&self) -> &[Clock]
        ensures { result.now ≡ self.now }
    {
        &self.clocks
    }
}

/// The part of a caller's pass that differs from the journal, in [`Refusal::Unsettled`].
#[derive(Clone, Copy, Debug, PartialEq, Eq)]
pub enum PassPart {
    /// A receipt: an entry of the journal that was reported to the caller.
    Receipt,
    /// A reading: a set of versions that was reported to the caller for a key.
    Reading,
}

/// The cause of a refusal, in the order of the numbers that scripts print, 1 to 32. It is the one error type of all
/// crates, so a caller passes it on by `?`. docs/FORMATS.md lists the causes and what to do about each.
///
/// A call tests its causes in the order listed in its doc comment, returns the first that is present, and leaves its
/// value unchanged, with four exceptions: a session that refuses a text as `NotCanonical` has failed; a rehash or a
/// whole sync that runs out of memory keeps the work done so far; and a `reconcile` that is refused part of the way
/// cancels that session and keeps the versions it accepted.
///
/// ```
/// expect_refused(
///     full.raise(alloc, 1),
///     Refusal::ClockFull,
///     "33 pairs by a raise",
/// )?;
/// ```
#[derive(Debug, Drop)]
pub enum Refusal {
    /// A pair has node 0, a node over 65,535 or counter 0, or a node is in two pairs.
    BadClock,
    /// The clock would have more than 32 pairs.
    ClockFull,
    /// The counter to raise is 2^64 - 1.
    CounterFull,
    /// The key's length is not 1 to 255 bytes.
    BadKey,
    /// The value is too long for the format, a tombstone has a value, or the format has no tombstones.
    BadValue,
    /// Some held version has seen the put's clock. Contains the clocks that the key holds, in the order of its set.
    StaleContext(Clocks),
    /// A key's set would have over 64 versions.
    Crowded,
    /// The entries would not fit the journal's limit.
    JournalFull,
    /// The key, offer or command belongs to a range that isn't held here.
    OtherRange,
    /// Some node of the tree has no digest.
    Dirty,
    /// The node isn't in the tree, a child of it is dirty, or its text has changed since.
    Stale,
    /// No record has this id.
    UnknownSession,
    /// The node isn't outstanding.
    NotAsked,
    /// The text's digest isn't the expected one.
    WrongDigest,
    /// The digest matches, but the text isn't a text of that node.
    NotCanonical,
    /// The offer's format differs from the range's.
    OtherFormat,
    /// There are 64 open sessions or 1,024 records, or the last offer number was used.
    SessionsFull,
    /// No slot is free.
    NoSlot,
    /// The moment is before the greatest accepted one.
    ClockBack,
    /// No pending hint has this id together with this owner, key and version.
    UnknownHint,
    /// 10,000 hints are pending, or the last id was used.
    HintsFull,
    /// The pool has no such offer.
    Gone,
    /// The journal is shorter than the caller saw, or a receipt of the caller isn't covered.
    Behind {
        /// The length of the journal when the caller saw it.
        seen: u64,
        /// The length of the journal now.
        held: u64,
        /// The number of the receipt that isn't covered.
        missing: Option<u64>,
    },
    /// A caller's pass and the journal differ. Contains the first difference.
    Unsettled {
        /// The seat of the pass.
        seat: u16,
        /// The part that differs: a receipt or a reading.
        part: PassPart,
        /// The index of the receipt or reading, from 0.
        place: u64,
    },
    /// A seat is missing at the close, or the owner of a hint isn't the range's node.
    Stranger,
    /// The link failed in this call.
    LinkLost,
    /// The ring or the journal's limit is outside the limits, a node is listed twice, or a named node isn't on the
    /// ring.
    BadRing,
    /// A named node is down.
    Down,
    /// A script line isn't a command.
    BadLine,
    /// The text of a row is broken. Contains the offset of the first byte of the wrong field.
    RowBroken(u64),
    /// The bytes aren't a message, the message has the wrong kind, or the tree has no such node.
    BadMessage,
    /// A request for memory was refused.
    NoMemory,
}

impl Refusal {
    ghost use Rattle.vclock.specs.Refusal.{cause_number, name_of};

    /// Returns the number that scripts print, 1 to 32.
    pub fn number(&self) -> u64
        ensures { result ≡ cause_number self.now }
    {
        match self {
            Refusal::BadClock => 1,
            Refusal::ClockFull => 2,
            Refusal::CounterFull => 3,
            Refusal::BadKey => 4,
            Refusal::BadValue => 5,
            Refusal::StaleContext(_) => 6,
            Refusal::Crowded => 7,
            Refusal::JournalFull => 8,
            Refusal::OtherRange => 9,
            Refusal::Dirty => 10,
            Refusal::Stale => 11,
            Refusal::UnknownSession => 12,
            Refusal::NotAsked => 13,
            Refusal::WrongDigest => 14,
            Refusal::NotCanonical => 15,
            Refusal::OtherFormat => 16,
            Refusal::SessionsFull => 17,
            Refusal::NoSlot => 18,
            Refusal::ClockBack => 19,
            Refusal::UnknownHint => 20,
            Refusal::HintsFull => 21,
            Refusal::Gone => 22,
            Refusal::Behind { .. } => 23,
            Refusal::Unsettled { .. } => 24,
            Refusal::Stranger => 25,
            Refusal::LinkLost => 26,
            Refusal::BadRing => 27,
            Refusal::Down => 28,
            Refusal::BadLine => 29,
            Refusal::RowBroken(_) => 30,
            Refusal::BadMessage => 31,
            Refusal::NoMemory => 32,
        }
    }

    /// Returns the name that scripts print.
    pub fn name(&self) -> &'static str
        ensures { result.now ≡ name_of self.now }
    {
        match self {
            Refusal::BadClock => "BadClock",
            Refusal::ClockFull => "ClockFull",
            Refusal::CounterFull => "CounterFull",
            Refusal::BadKey => "BadKey",
            Refusal::BadValue => "BadValue",
            Refusal::StaleContext(_) => "StaleContext",
            Refusal::Crowded => "Crowded",
            Refusal::JournalFull => "JournalFull",
            Refusal::OtherRange => "OtherRange",
            Refusal::Dirty => "Dirty",
            Refusal::Stale => "Stale",
            Refusal::UnknownSession => "UnknownSession",
            Refusal::NotAsked => "NotAsked",
            Refusal::WrongDigest => "WrongDigest",
            Refusal::NotCanonical => "NotCanonical",
            Refusal::OtherFormat => "OtherFormat",
            Refusal::SessionsFull => "SessionsFull",
            Refusal::NoSlot => "NoSlot",
            Refusal::ClockBack => "ClockBack",
            Refusal::UnknownHint => "UnknownHint",
            Refusal::HintsFull => "HintsFull",
            Refusal::Gone => "Gone",
            Refusal::Behind { .. } => "Behind",
            Refusal::Unsettled { .. } => "Unsettled",
            Refusal::Stranger => "Stranger",
            Refusal::LinkLost => "LinkLost",
            Refusal::BadRing => "BadRing",
            Refusal::Down => "Down",
            Refusal::BadLine => "BadLine",
            Refusal::RowBroken(_) => "RowBroken",
            Refusal::BadMessage => "BadMessage",
            Refusal::NoMemory => "NoMemory",
        }
    }
}

impl fmt::Display for Refusal {
    ghost use Rattle.std.specs.Prelude.{Some};
    ghost use Rattle.vclock.specs.Refusal.{name_of};

    ghost output = { λ r. Some (name_of r) };

    fn fmt<W: fmt::Write>(&self, f: &mut fmt::Formatter<W>) -> fmt::Result {
        let name = self.name();
        write!(f, "{name}")
    }
}

impl Error for Refusal {}

impl From<AllocError> for Refusal {
    ghost use Rattle.std.specs.Prelude.{◌≡◌};
    ghost use Rattle.vclock.specs.declared.refusal.Refusal.TheVariants.{NoMemory};

    ghost from_gives = { λ _ e. e ≡ NoMemory };

    fn from(_e: AllocError) -> Refusal {
        Refusal::NoMemory
    }
}

impl<T: Drop> From<AllocFailed<T>> for Refusal {
    ghost use Rattle.std.specs.Prelude.{◌≡◌};
    ghost use Rattle.vclock.specs.declared.refusal.Refusal.TheVariants.{NoMemory};

    ghost from_gives = { λ _ e. e ≡ NoMemory };

    fn from(_e: AllocFailed<T>) -> Refusal {
        Refusal::NoMemory
    }
}

impl Drop for Clocks {
    /// Keeps the fields out of the proofs of callers that drop a list.
    fn drop(self) {
        let Clocks { clocks: _clocks } = self;
    }
}
