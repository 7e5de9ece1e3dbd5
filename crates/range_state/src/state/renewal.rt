//! New ranges that begin with the versions that a range holds, or held at a moment.
ghost use Rattle.std.specs.Prelude.{◌≡◌, ◌+◌, ◌^◌, ◌<◌, ⊤, [], length, drop, None, IfOk, IfErr, MatchOption};
ghost use Rattle.std.specs.List.{AllByRecursion};
ghost use Rattle.vclock.specs.Answer.{Answers, AnswersAtOnce};
ghost use Rattle.vclock.specs.Outcome.{DoesOrNoMemory};
ghost use Rattle.range_store.specs.Renewals.{renew_fault, basis_fault};
ghost use Rattle.range_store.specs.Store.{IsOwn};
ghost use Rattle.range_state.specs.CatchUps.{start_at, renewing_from, stranger_fault, accept_entry, Accepts, StopsAmong, FallsBehind, CatchesUp, IsInPlaceOf};
ghost use Rattle.range_state.specs.Moments.{moment_fault};
ghost use Rattle.range_state.specs.Renewals.{renewed_by};

use crate::state::RangeState;
use range_journal::{Entry, Source};
use range_store::{Accepted, RenewalBasis};
use std::alloc::Global;
use std::marker::Model;
use std::mem::replace;
use vclock::Refusal;

impl RangeState {
    /// Makes a new range that begins with the versions that this one holds: each is an entry, as a copy by the seat,
    /// leaf by leaf, row by row and version by version, numbered from 0. The new range has this one's configuration
    /// with another limit, its rows and its digests, no session and no moment; it continues the session numbers. It
    /// shares the leaves, so no row is copied. This range is unchanged.
    ///
    /// Refused, in order: BadRing (the limit isn't 1 to 1,000,000), JournalFull (more versions are held than the
    /// limit), NoMemory.
    pub fn renewed(&self, alloc: Global, seat: u16, limit: u64) -> Result<RangeState, Refusal>
        ensures { Answers result (renew_fault self.now.store limit) (λ range. range ≡ renewed_by self.now seat limit) }
    {
        Ok(RangeState {
            store: self.store.renewed(alloc, seat, limit)?,
            records: Vec::new(alloc),
            moment: None,
            whole_before: 0,
            next_session: self.next_session,
            settled: 0,
        })
    }

    /// Begins a renewal alongside the puts: returns the rows of the moment. A new range is made from them, without
    /// access to this one. Copies no row. Refused, in order: Dirty (the moment is missing, or one of its nodes has no
    /// digest), NoMemory.
    pub fn begin_renewal(&self, alloc: Global) -> Result<RenewalStart, Refusal>
        ensures { Answers result (moment_fault self.now.moment)
            (λ start. MatchOption self.now.moment ⊥ (λ m. start ≡ start_at self.now m)) }
    {
        let moment = self.whole_moment()?;
        Ok(RenewalStart {
            basis: self.store.basis(moment.tree.share(alloc)?),
            front: moment.front,
            next_session: self.next_session,
        })
    }

    /// Numbers the next session.
    fn number_sessions_from(&mut self, next: u64)
        requires { self.old.records ≡ [] }
        ensures { self.new ≡ record self.old { next_session = next } }
    {
        self.next_session = next;
    }
}

/// The rows of a range at a moment, to begin a new range with. Any thread can make the new range, while the old one is
/// in use.
#[derive(Drop)]
pub struct RenewalStart {
    basis: RenewalBasis,
    front: u64,
    next_session: u64,
}

impl Model for RenewalStart {
    ghost use Rattle.range_state.specs.CatchUps.{Start};

    ghost Value = { Start };

    ghost view = { λ s. record { basis = s.basis; front = s.front; next_session = s.next_session } };
}

impl RenewalStart {
    /// Makes a new range that begins with these rows, like [`RangeState::renewed`] with the rows now. It shares the
    /// leaves and the digests.
    ///
    /// Refused, in order: BadRing (the limit isn't 1 to 1,000,000), JournalFull (the rows have more versions than the
    /// limit), NoMemory.
    pub fn renewal(&self, alloc: Global, seat: u16, limit: u64) -> Result<Renewal, Refusal>
        ensures { Answers result (basis_fault self.now.basis limit) (λ renewal. renewal ≡ renewing_from self.now seat limit) }
    {
        let store = self.basis.renewed(alloc, seat, limit)?;
        // Called only for its clause: the store is sound.
        let _sound = store.journal();
        let state = RangeState {
            store,
            records: Vec::new(alloc),
            moment: None,
            whole_before: 0,
            next_session: self.next_session,
            settled: 0,
        };
        Ok(Renewal {
            state,
            began: self.front,
            front: self.front,
        })
    }
}

/// A new range alongside the old one, which is still in use. It began with the rows of a moment, catches up with the
/// entries that the old one accepted since then, some at a time, and takes its place.
///
/// The caller must pass the range that the renewal began from: another one isn't always refused.
#[derive(Drop)]
pub struct Renewal {
    state: RangeState,
    /// The number of the old range's entries that the new one began with.
    began: u64,
    /// The number of the old range's entries that the new one has.
    front: u64,
}

impl Model for Renewal {
    ghost use Rattle.std.specs.Prelude.{◌≡◌, []};
    ghost use Rattle.range_state.specs.CatchUps.{Renewing};

    ghost Value = { Renewing };

    ghost view = { λ r. record { state = r.state; began = r.began; front = r.front } };

    ghost invariant = { λ r. r.state.records ≡ [] };
}

impl Renewal {
    /// Returns the number of the old range's entries that the new one began with.
    pub fn began(&self) -> u64
        ensures { result ≡ self.now.began }
    {
        self.began
    }

    /// Returns the new range in its current state.
    pub fn state(&self) -> &RangeState
        ensures { result.now ≡ self.now.state }
    {
        &self.state
    }

    /// Accepts the next entries that the old range accepted, at most `most`, in order and as copies by a seat. Returns
    /// the number of entries that are left.
    ///
    /// Refused, in order: Stale (the range can't be the old one: its format, its ring or its range differs, or it has
    /// fewer entries than were accepted); then, for one of the entries, Stale (it isn't new), Crowded (the key would
    /// hold over 64 versions), JournalFull, NoMemory, which may replace the three before it. The entries before it are
    /// accepted, and a later call continues with it.
    pub fn catch_up(
        &mut self,
        alloc: Global,
        seat: u16,
        old: &RangeState,
        most: u64,
    ) -> Result<u64, Refusal>
        ensures { CatchesUp self.old old.now seat most result self.new }
    {
        self.check_old(old)?;
        let later = &old.journal().entries()[self.front as usize..];
        let count = later.len().min(most as usize);
        self.accept_all(alloc, seat, &later[..count])?;
        Ok((later.len() - count) as u64)
    }

    /// Accepts all entries that are left, replaces the old range by the new one, and returns the old one. The caller
    /// should drop it without holding a lock. The new range continues the old one's session numbers, but doesn't have
    /// its sessions.
    ///
    /// Refused like [`Renewal::catch_up`]. On error the old range is unchanged.
    pub fn finish(
        mut self,
        alloc: Global,
        seat: u16,
        range: &mut RangeState,
    ) -> Result<RangeState, Unfinished>
        ensures done { IfOk result (λ old. (old ≡ range.old) × IsInPlaceOf self range.old seat range.new) }
        ensures refused { IfErr result (λ unfinished. (range.new ≡ range.old) × FallsBehind self range.old seat
            (drop self.front range.old.store.entries) unfinished.refusal unfinished.renewal) }
    {
        let all = range.journal().len();
        match self.catch_up(alloc, seat, range, all) {
            Ok(_left) => {
                let Renewal { mut state, .. } = self;
                state.number_sessions_from(range.next_session);
                Ok(replace(range, state))
            }
            Err(refusal) => Err(Unfinished {
                renewal: self,
                refusal,
            }),
        }
    }

    /// Tests that a range can be the old one. Doesn't allocate. Refused: Stale.
    fn check_old(&self, old: &RangeState) -> Result<(), Refusal>
        ensures { AnswersAtOnce result (stranger_fault self.now old.now) (λ _. ⊤) }
    {
        let new = self.state.store.config();
        let config = old.store.config();
        let is_same = new.format().number() == config.format().number()
            && new.bits() == config.bits()
            && new.range() == config.range();
        if !is_same || self.front > old.journal().len() {
            return Err(Refusal::Stale);
        }
        Ok(())
    }

    /// Accepts entries of the old range. Refused: Stale, Crowded, JournalFull, NoMemory. On error the entries before
    /// the refused one are accepted.
    fn accept_all(&mut self, alloc: Global, seat: u16, entries: &[Entry]) -> Result<(), Refusal>
        requires own { AllByRecursion (IsOwn self.old.state.store.config) entries.now }
        requires few { self.old.front + length entries.now < 2 ^ 64 }
        ensures accepted { IfOk result (λ _. Accepts self.old seat entries.now self.new) }
        ensures stopped { IfErr result (λ e. StopsAmong self.old seat entries.now e self.new) }
    {
        for entry in entries {
            self.accept(alloc, seat, entry)?;
        }
        Ok(())
    }

    /// Accepts an entry of the old range. Refused: Stale, Crowded, JournalFull, NoMemory, which may replace any of
    /// them. On error the renewal is unchanged.
    fn accept(&mut self, alloc: Global, seat: u16, entry: &Entry) -> Result<(), Refusal>
        requires own { IsOwn self.old.state.store.config entry.now }
        requires few { self.old.front + 1 < 2 ^ 64 }
        ensures { DoesOrNoMemory result self.old self.new (accept_entry self.old seat entry.now) }
    {
        let version = entry.version.try_clone()?;
        let key = entry.key.as_slice();
        match self.state.accept(alloc, seat, Source::Copy, key, version)? {
            Accepted::Taken(_) => {
                self.front += 1;
                Ok(())
            }
            Accepted::Known => Err(Refusal::Stale),
        }
    }
}

/// A renewal that wasn't finished, with the cause, so nothing is lost.
#[derive(Drop)]
pub struct Unfinished {
    /// The renewal.
    pub renewal: Renewal,
    /// The cause: Stale, Crowded, JournalFull or NoMemory.
    pub refusal: Refusal,
}
