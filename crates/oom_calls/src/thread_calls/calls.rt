//! The calls on ranges, in order.

/// A call on a locked range. The byte is the key.
#[derive(Clone, Copy)]
pub(crate) enum LockedCall {
    /// `take_job` and `install`, until all nodes are clean.
    Hash,
    Snapshot,
    OpenSession,
    TakeAnswer,
    Put(u8),
    /// A put that is refused as StaleContext.
    StalePut(u8),
    /// A put that checks what its client has read, and is refused as StaleContext.
    UnreadPut(u8),
    Accept(u8),
    Index,
    Get(u8),
    Read(u8),
    /// A read of the store, without a pass.
    Look(u8),
    HoldMoment,
    /// `take_moment_jobs` and `install_moment`, until all nodes of the moment are clean.
    HashMoment,
    Moment,
    OpenAtMoment,
    /// Loads a row of two versions.
    Load,
    Migrate,
}

/// A call on a shared range, or on the hints for it. The byte is the key.
#[derive(Clone, Copy)]
pub(crate) enum SharedCall {
    Put(u8),
    /// A put that is refused as StaleContext.
    StalePut(u8),
    /// A put that checks what its client has read, and is refused as StaleContext.
    UnreadPut(u8),
    Copy(u8),
    Get(u8),
    Look(u8),
    Rehash,
    Snapshot,
    Sync,
    /// A sync over a link with bad answers.
    SyncByScript,
    Keep(u8),
    Next,
    Deliver,
    Renew,
    /// `hold_moment`, `moment_worker` and `moment`.
    Moment,
    SyncAtMoment,
    /// Loads a row of two versions.
    Load,
    Migrate,
}

/// A call.
#[derive(Clone, Copy)]
pub(crate) enum Call {
    Locked(LockedCall),
    Shared(SharedCall),
}

/// The calls in order. Each list that grows by its calls grows at least twice.
pub(crate) const CALLS: [Call; 57] = [
    Call::Locked(LockedCall::Hash),
    Call::Locked(LockedCall::Snapshot),
    Call::Locked(LockedCall::OpenSession),
    Call::Locked(LockedCall::OpenSession),
    Call::Locked(LockedCall::TakeAnswer),
    Call::Locked(LockedCall::TakeAnswer),
    Call::Locked(LockedCall::TakeAnswer),
    Call::Locked(LockedCall::TakeAnswer),
    Call::Locked(LockedCall::TakeAnswer),
    Call::Locked(LockedCall::Put(b'b')),
    Call::Locked(LockedCall::Put(b'c')),
    Call::Locked(LockedCall::StalePut(b'b')),
    Call::Locked(LockedCall::UnreadPut(b'b')),
    Call::Locked(LockedCall::Accept(b'd')),
    Call::Locked(LockedCall::Accept(b'd')),
    Call::Locked(LockedCall::Accept(b'e')),
    Call::Locked(LockedCall::Index),
    Call::Locked(LockedCall::Accept(b'f')),
    Call::Locked(LockedCall::Get(b'b')),
    Call::Locked(LockedCall::Read(b'c')),
    Call::Locked(LockedCall::Look(b'b')),
    Call::Locked(LockedCall::HoldMoment),
    Call::Locked(LockedCall::HashMoment),
    Call::Locked(LockedCall::Moment),
    Call::Locked(LockedCall::OpenAtMoment),
    Call::Locked(LockedCall::Load),
    Call::Locked(LockedCall::Migrate),
    Call::Shared(SharedCall::Put(b'b')),
    Call::Shared(SharedCall::Put(b'c')),
    Call::Shared(SharedCall::StalePut(b'b')),
    Call::Shared(SharedCall::UnreadPut(b'b')),
    Call::Shared(SharedCall::Copy(b'd')),
    Call::Shared(SharedCall::Copy(b'd')),
    Call::Shared(SharedCall::Copy(b'e')),
    Call::Shared(SharedCall::Copy(b'f')),
    Call::Shared(SharedCall::Get(b'b')),
    Call::Shared(SharedCall::Look(b'b')),
    Call::Shared(SharedCall::Rehash),
    Call::Shared(SharedCall::Snapshot),
    Call::Shared(SharedCall::Sync),
    Call::Shared(SharedCall::Rehash),
    Call::Shared(SharedCall::SyncByScript),
    Call::Shared(SharedCall::Keep(b'g')),
    Call::Shared(SharedCall::Keep(b'h')),
    Call::Shared(SharedCall::Keep(b'i')),
    Call::Shared(SharedCall::Keep(b'j')),
    Call::Shared(SharedCall::Keep(b'k')),
    Call::Shared(SharedCall::Next),
    Call::Shared(SharedCall::Deliver),
    Call::Shared(SharedCall::Get(b'g')),
    Call::Shared(SharedCall::Keep(b'l')),
    Call::Shared(SharedCall::Keep(b'm')),
    Call::Shared(SharedCall::Renew),
    Call::Shared(SharedCall::Moment),
    Call::Shared(SharedCall::SyncAtMoment),
    Call::Shared(SharedCall::Load),
    Call::Shared(SharedCall::Migrate),
];

impl Call {
    /// Returns the printed name.
    pub(crate) fn name(self) -> &'static str {
        match self {
            Call::Locked(call) => call.name(),
            Call::Shared(call) => call.name(),
        }
    }

    /// Returns true if a refused call keeps its completed steps.
    pub(crate) fn is_in_steps(self) -> bool {
        matches!(
            self,
            Call::Locked(LockedCall::Hash | LockedCall::HashMoment)
                | Call::Shared(
                    SharedCall::Rehash
                        | SharedCall::Sync
                        | SharedCall::SyncByScript
                        | SharedCall::Deliver
                        | SharedCall::Moment
                        | SharedCall::SyncAtMoment
                )
        )
    }
}

impl LockedCall {
    fn name(self) -> &'static str {
        match self {
            LockedCall::Hash => "LockedRange::take_job and install",
            LockedCall::Snapshot => "LockedRange::snapshot",
            LockedCall::OpenSession => "LockedRange::open_session",
            LockedCall::TakeAnswer => "LockedRange::take_answer and LockedRange::take_answer_next",
            LockedCall::Put(_) => "LockedRange::put and LockedRange::put_hashed",
            LockedCall::StalePut(_) => "LockedRange::put, stale",
            LockedCall::UnreadPut(_) => "LockedRange::put_read",
            LockedCall::Accept(_) => "LockedRange::accept and LockedRange::accept_hashed",
            LockedCall::Index => "Pass::index",
            LockedCall::Get(_) => "LockedRange::get",
            LockedCall::Read(_) => "LockedRange::read",
            LockedCall::Look(_) => "RangeStore::get of a LockedRange",
            LockedCall::HoldMoment => "LockedRange::hold_moment",
            LockedCall::HashMoment => "LockedRange::take_moment_jobs and install_moment",
            LockedCall::Moment => "LockedRange::moment",
            LockedCall::OpenAtMoment => "LockedRange::open_session_at_moment",
            LockedCall::Load => "LockedRange::load_rows and LockedRange::load_read",
            LockedCall::Migrate => "LockedRange::migrate",
        }
    }
}

impl SharedCall {
    fn name(self) -> &'static str {
        match self {
            SharedCall::Put(_) => "SharedRange::put",
            SharedCall::StalePut(_) => "SharedRange::put, stale",
            SharedCall::UnreadPut(_) => "SharedRange::put_read",
            SharedCall::Copy(_) => "SharedRange::copy",
            SharedCall::Get(_) => "SharedRange::get",
            SharedCall::Look(_) => "SharedRange::look",
            SharedCall::Rehash => "SharedRange::rehash_worker",
            SharedCall::Snapshot => "SharedRange::snapshot",
            SharedCall::Sync => "SharedRange::sync_worker",
            SharedCall::SyncByScript => "SharedRange::sync_worker, by a script",
            SharedCall::Keep(_) => "SharedHints::keep",
            SharedCall::Next => "SharedHints::next",
            SharedCall::Deliver => "deliver",
            SharedCall::Renew => "SharedHints::renew",
            SharedCall::Moment => {
                "SharedRange::hold_moment, SharedRange::moment_worker and SharedRange::moment"
            }
            SharedCall::SyncAtMoment => "SharedRange::sync_worker_at_moment",
            SharedCall::Load => "SharedRange::load_rows and SharedRange::load_rows_passing",
            SharedCall::Migrate => "SharedRange::migrate",
        }
    }
}
