//! The verdict on an answer.

use crate::report::Stop;
use range_state::AnswerTaken;
use vclock::Refusal;

/// The verdict on an answer.
#[derive(Debug, Drop)]
pub enum Verdict {
    /// The session took it.
    Taken(AnswerTaken),
    /// The leaf was left: a key in its text is crowded.
    Left,
    /// It counts as bad: BadMessage (it isn't an answer), NotAsked (a node that was never asked) or WrongDigest.
    Bad(Refusal),
    /// It is late, for another offer, or the exchange is over: it isn't counted.
    Late,
    /// It exceeded the capacity. No ask is sent until `go_on`.
    Refused(Stop),
    /// The text had the right digest, but its node can't have it: the session has failed.
    Failed,
}
