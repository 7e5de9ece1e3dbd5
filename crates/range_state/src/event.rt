//! The calls of a range as events, and their replies.
ghost use Rattle.std.specs.Prelude.{◌≤◌, IsTrue};
ghost use Rattle.range_store.specs.Store.{is_sent};

use range_journal::Source;
use range_store::{Accepted, Receipt};
use rehash::Job;
use snapshot::Snapshot;
use std::alloc::Global;
use std::sync::Arc;
use sync_session::SessionState;
use tree_nodes::{Hashed, NodeAt};
use vclock::{Bytes, Clock, Refusal};
use version_set::{Kind, Version, VersionSet};
use walk_messages::Offer;

/// The outcome of a text that a session took.
///
/// ```
/// state.take_answer(alloc, 5, id, node, text)
/// ```
#[derive(Debug, Drop)]
pub struct AnswerTaken {
    /// The new entries, in order: empty for an inner node.
    pub receipts: Vec<Receipt>,
    /// The number of versions that were covered by those accepted before, and weren't journaled.
    pub known: u64,
    /// The state of the session.
    pub state: SessionState,
}

/// The outcome of a text that a session took, with its receipts in the caller's list.
#[derive(Clone, Copy, Debug)]
pub struct AnswerCounted {
    /// The number of receipts: 0 for an inner node.
    pub receipts: u64,
    /// The number of versions that were covered by those accepted before, and weren't journaled.
    pub known: u64,
    /// The state of the session.
    pub state: SessionState,
}

/// A value to put at a node.
#[derive(Debug, Drop)]
pub struct PutEvent {
    /// The seat of the caller.
    pub seat: u16,
    /// The node whose counter is raised, 1 to 65,535.
    pub at: u16,
    /// The key.
    pub key: Bytes,
    /// The clock that the caller has seen.
    pub context: Clock,
    /// The kind of the version: live, or a tombstone.
    pub kind: Kind,
    /// The value.
    pub value: Bytes,
    pub ghost node: { 1 ≤ at },
}

/// A version that another node sent.
#[derive(Debug, Drop)]
pub struct AcceptEvent {
    /// The seat of the caller.
    pub seat: u16,
    /// The way that it was sent: as a copy or as a hint.
    pub source: Source,
    /// The key.
    pub key: Bytes,
    /// The version.
    pub version: Version,
    pub ghost sent: { IsTrue (is_sent source) },
}

/// A node's text with its digest.
#[derive(Debug, Drop)]
pub struct InstallEvent {
    /// The node.
    pub node: NodeAt,
    /// A text with its digest. The digest is installed if the text is the node's.
    pub hashed: Hashed,
}

/// A partner's offer, to open a session with.
#[derive(Debug, Drop)]
pub struct OpenEvent {
    /// The number of the partner.
    pub partner: u16,
    /// The offer.
    pub offer: Offer,
}

/// A text that a partner sent.
#[derive(Debug, Drop)]
pub struct AnswerEvent {
    /// The seat of the caller.
    pub seat: u16,
    /// The number of the session.
    pub id: u64,
    /// The node that the text claims to belong to.
    pub node: NodeAt,
    /// The text, with its digest.
    pub text: Hashed,
}

/// A call of a range, as data: `RangeState::run_events` runs a list of them. The theorems hold over every list.
///
/// ```
/// events.push(Event::TakeJob(0))?;
/// events.push(install_of_abc(alloc)?)?;
/// ```
#[derive(Debug, Drop)]
pub enum Event {
    /// `put`.
    Put(PutEvent),
    /// `accept`.
    Accept(AcceptEvent),
    /// `get` of a key.
    Get(Bytes),
    /// `take_job` with the number of a worker.
    TakeJob(u64),
    /// `install`.
    Install(InstallEvent),
    /// `snapshot`.
    Snapshot,
    /// `open_session`.
    OpenSession(OpenEvent),
    /// `take_answer`.
    TakeAnswer(AnswerEvent),
    /// `cancel_session` of a number.
    CancelSession(u64),
    /// `migrate`.
    Migrate,
}

/// The reply to an event.
#[derive(Debug, Drop)]
pub enum Reply {
    /// The entry of a put.
    Put(Result<Receipt, Refusal>),
    /// The outcome of a version that was sent.
    Accept(Result<Accepted, Refusal>),
    /// The versions that are held for a key.
    Get(Result<VersionSet, Refusal>),
    /// A job, or `None` if every node is clean.
    TakeJob(Result<Option<Job>, Refusal>),
    /// The result of installing a digest.
    Install(Result<(), Refusal>),
    /// The rows with the digests of their tree.
    Snapshot(Result<Arc<Snapshot, Global>, Refusal>),
    /// The number of a new session.
    OpenSession(Result<u64, Refusal>),
    /// The outcome of a partner's text.
    TakeAnswer(Result<AnswerTaken, Refusal>),
    /// The result of cancelling a session.
    CancelSession(Result<(), Refusal>),
    /// The result of the migration.
    Migrate(Result<(), Refusal>),
}
