//! The progress of an exchange.
ghost use Rattle.std.specs.Prelude.{◌≡◌};
ghost use Rattle.exchange.specs.Courses.{end_report};

/// The cause for which an exchange currently sends no asks.
#[derive(Clone, Copy, Debug, PartialEq, Eq)]
pub enum Stop {
    /// The range's journal had no capacity for the versions of a leaf.
    JournalFull,
    /// Memory for an answer ran out.
    NoMemory,
}

/// The end of an exchange.
#[derive(Clone, Copy, Debug, PartialEq, Eq)]
pub enum End {
    /// The roots were equal, or the session is finished.
    Finished,
    /// The session has failed.
    Failed,
    /// Its owner closed the exchange.
    Closed,
}

/// The progress of an exchange.
///
/// ```
/// expect(pair.report() == Report::Waiting, "the root is to be asked")?;
/// ```
#[derive(Clone, Copy, Debug, PartialEq, Eq)]
pub enum Report {
    /// The range holds each version of the offer, or one that has seen it.
    Finished,
    /// Some node has to be asked, or its ask is in progress.
    Waiting,
    /// Only leaves that were left are outstanding: in each of them a key is crowded.
    Left,
    /// An answer exceeded the capacity: `go_on` or `close`.
    Stopped(Stop),
    /// More answers were bad than the bounds allow.
    TooManyBad,
    /// More asks were lost than the bounds allow.
    TooManyLost,
    /// A text had the right digest, but its node can't have it: the session has failed.
    Failed,
    /// Its owner closed the exchange.
    Closed,
    /// The range doesn't have the session, or the session was cancelled: by a renewal or a migration, say.
    Gone,
}

impl Report {
    /// Returns the report of an exchange that has ended.
    pub(crate) fn of(end: End) -> Report
        ensures { result ≡ end_report end }
    {
        match end {
            End::Finished => Report::Finished,
            End::Failed => Report::Failed,
            End::Closed => Report::Closed,
        }
    }
}
