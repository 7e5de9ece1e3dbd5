//! The range that a lock keeps.
ghost use Rattle.std.specs.Prelude.{◌≡◌, ◌≤◌, [], None, IfErr, IsTrue, MatchOption, Some};
ghost use Rattle.std.specs.Arc.{arc_value};
ghost use Rattle.vclock.specs.Answer.{Answers, AnswersAtOnce};
ghost use Rattle.range_tree.specs.Jobs.{GivesJob};
ghost use Rattle.vclock.specs.Outcome.{Does, DoesAtOnce, DoesOrNoMemory, gives, through};
ghost use Rattle.range_state.specs.Bytes.{bytes_of};
ghost use Rattle.range_state.specs.Counts.{counts_of};
ghost use Rattle.range_store.specs.Store.{is_sent, ask_fault, dirty_fault, rows_now, tree_in};
ghost use Rattle.range_state.specs.Records.{record_of};
ghost use Rattle.range_state.specs.State.{install, rows_at};
ghost use Rattle.range_state.specs.Moments.{with_moment, without_moment, AreMomentJobs, install_moment, moment_fault, front_of, open_at_moment};
ghost use Rattle.range_state.specs.Sessions.{open_session, cancel_session, unknown_fault};
ghost use Rattle.range_state.specs.Migrates.{migrate};
ghost use Rattle.range_state.specs.Syncs.{IsFirstOf};
ghost use Rattle.caller_pass.specs.Loads.{load_in, load_text_in};
ghost use Rattle.caller_pass.specs.Locks.{IsLocked, moved, put_in_by, put_in, put_read_in, accept_in, get_in, plainly, TellsAnswer, TellsAnswerNext};

use crate::book::Book;
use crate::missing::find_missing;
use crate::pass::Pass;
use crate::reading::Reading;
use crate::unread::Unread;
use key_ring::HashedKey;
use range_journal::Source;
use range_state::{
    Accepted, AnswerCounted, ContextTest, LeafRows, Loaded, Moment, RangeBytes, RangeCounts,
    RangeState, Receipt, Record,
};
use range_store::RangeStore;
use rehash::Job;
use snapshot::Snapshot;
use std::alloc::Global;
use std::marker::Model;
use std::sync::Arc;
use std::sync::ledger::Ledger;
use tree_nodes::{Hashed, NodeAt};
use vclock::{Bytes, Clock, Refusal};
use version_set::{Kind, Version, VersionSet};
use walk_messages::Offer;

/// A range with its book, as a lock keeps it. Each call is one step of the range. The pass that it is lent gets exactly
/// the receipts of the new entries, or the one reading that is returned; no other call adds to a pass.
///
/// ```
/// let context = Clock::from_pairs(alloc, &[])?;
/// let value = Bytes::copy_of(alloc, b"x")?;
/// let receipt = range.put(alloc, pass, 1, b"a", &context, Kind::Live, value)?;
/// Ok(receipt.number)
/// ```
#[derive(Drop)]
pub struct LockedRange<L: Ledger> {
    pub(crate) state: RangeState,
    pub(crate) book: Book<L>,
}

impl<L: Ledger> Model for LockedRange<L> {
    ghost use Rattle.caller_pass.specs.Locks.{Locked, IsLocked};

    ghost Value = { Locked };

    ghost view = { λ r. record { state = r.state; book = r.book } };

    ghost invariant = { λ r. IsLocked L.parts (record { state = r.state; book = r.book }) };
}

impl<L: Ledger> LockedRange<L> {
    /// Makes the locked range of a state that has accepted nothing and a book that has counted nothing. Doesn't
    /// allocate.
    pub fn new(state: RangeState, book: Book<L>) -> LockedRange<L>
        requires empty { state.store.entries ≡ [] }
        requires none { book.number ≡ 0 }
        ensures { result ≡ record { state = state; book = book } }
    {
        // Called only for its clause: the state is valid.
        let _right = state.journal();
        LockedRange { state, book }
    }

    /// The store: its configuration and its tree, and the versions that are held for a key, for no pass. The clause
    /// `valid` states the facts that hold whenever the lock is free. Doesn't allocate.
    pub fn store(&self) -> &RangeStore
        ensures store { result.now ≡ self.now.state.store }
        ensures valid { IsLocked L.parts self.now }
    {
        self.state.store()
    }

    /// Puts a value at a node for the seat of the pass (see `RangeState::put`), and adds the receipt to the pass.
    ///
    /// Refused as `RangeState::put` is. On error range and pass are unchanged.
    pub fn put(
        &mut self,
        alloc: Global,
        pass: &mut Pass<L>,
        at: u16,
        key: &[u8],
        context: &Clock,
        kind: Kind,
        value: Bytes,
    ) -> Result<Receipt, Refusal>
        requires { 1 ≤ at }
        ensures puts { DoesOrNoMemory result (self.old, pass.old) (self.new, pass.new)
            (put_in self.old pass.old at key.now context.now kind value) }
        ensures early { IfErr result (λ e. e ≡ Refusal.NoMemory
            → ask_fault self.old.state.store.config at key.now context.now kind value ≡ None) }
    {
        let test = ContextTest::Fresh;
        let key = HashedKey::new(key);
        self.put_hashed(alloc, test, pass, at, &key, context, kind, value)
    }

    /// Puts a value at a node for the seat of the pass, only if its client has read all that the node put (see
    /// `RangeState::put_read`), and adds the receipt to the pass.
    ///
    /// Refused as `RangeState::put_read` is. On error range and pass are unchanged.
    pub fn put_read(
        &mut self,
        alloc: Global,
        pass: &mut Pass<L>,
        at: u16,
        key: &[u8],
        context: &Clock,
        kind: Kind,
        value: Bytes,
    ) -> Result<Receipt, Refusal>
        requires { 1 ≤ at }
        ensures puts { DoesOrNoMemory result (self.old, pass.old) (self.new, pass.new)
            (put_read_in self.old pass.old at key.now context.now kind value) }
        ensures early { IfErr result (λ e. e ≡ Refusal.NoMemory
            → ask_fault self.old.state.store.config at key.now context.now kind value ≡ None) }
    {
        let test = ContextTest::Read;
        let key = HashedKey::new(key);
        self.put_hashed(alloc, test, pass, at, &key, context, kind, value)
    }

    /// Puts a value like [`LockedRange::put`] or [`LockedRange::put_read`], by the test of its context, for a key that
    /// was hashed before the lock was taken.
    pub fn put_hashed(
        &mut self,
        alloc: Global,
        test: ContextTest,
        pass: &mut Pass<L>,
        at: u16,
        key: &HashedKey,
        context: &Clock,
        kind: Kind,
        value: Bytes,
    ) -> Result<Receipt, Refusal>
        requires { 1 ≤ at }
        ensures puts { DoesOrNoMemory result (self.old, pass.old) (self.new, pass.new)
            (put_in_by test self.old pass.old at key.now context.now kind value) }
        ensures early { IfErr result (λ e. e ≡ Refusal.NoMemory
            → ask_fault self.old.state.store.config at key.now context.now kind value ≡ None) }
    {
        let LockedRange { state, book } = self;
        let receipts = &mut pass.receipts;
        let seat = pass.seat;
        let receipt = state.put_into(alloc, receipts, test, seat, at, key, context, kind, value)?;
        pass.by_key.note(receipts, key.hash());
        book.count(&mut pass.share, &mut pass.seen, state.store().journal(), 1);
        Ok(receipt)
    }

    /// Accepts a version that another node sent, for the seat of the pass (see `RangeState::accept`), and adds the
    /// receipt to the pass if the version is new.
    ///
    /// Refused as `RangeState::accept` is. On error range and pass are unchanged.
    pub fn accept(
        &mut self,
        alloc: Global,
        pass: &mut Pass<L>,
        source: Source,
        key: &[u8],
        version: Version,
    ) -> Result<Accepted, Refusal>
        requires { IsTrue (is_sent source) }
        ensures { Does result (self.old, pass.old) (self.new, pass.new)
            (accept_in self.old pass.old source key.now version) }
    {
        self.accept_hashed(alloc, pass, source, &HashedKey::new(key), version)
    }

    /// Accepts a version like [`LockedRange::accept`], for a key that was hashed before the lock was taken.
    pub fn accept_hashed(
        &mut self,
        alloc: Global,
        pass: &mut Pass<L>,
        source: Source,
        key: &HashedKey,
        version: Version,
    ) -> Result<Accepted, Refusal>
        requires { IsTrue (is_sent source) }
        ensures { Does result (self.old, pass.old) (self.new, pass.new)
            (accept_in self.old pass.old source key.now version) }
    {
        let LockedRange { state, book } = self;
        let receipts = &mut pass.receipts;
        let receipt = match state.accept_into(alloc, receipts, pass.seat, source, key, version)? {
            Accepted::Known => return Ok(Accepted::Known),
            Accepted::Taken(receipt) => receipt,
        };
        pass.by_key.note(receipts, key.hash());
        book.count(&mut pass.share, &mut pass.seen, state.journal(), 1);
        Ok(Accepted::Taken(receipt))
    }

    /// Copies the versions that are held for a key, in the order of their texts: an empty set if the key isn't held.
    /// The pass keeps them as a reading.
    ///
    /// Refused, in order: Behind (the journal is shorter than the part that the pass has seen; or the held versions
    /// don't cover a receipt of the pass for the key: then with the number of the first such receipt), NoMemory. On
    /// error the pass is unchanged.
    pub fn get(&self, alloc: Global, pass: &mut Pass<L>, key: &[u8]) -> Result<VersionSet, Refusal>
        ensures { Does result pass.old pass.new (get_in self.now pass.old key.now) }
    {
        self.take_reading(alloc, pass, &HashedKey::new(key))
    }

    /// Reads a key like [`LockedRange::get`], for a key that was hashed before the lock was taken, and for a caller who
    /// has to show that a refusal comes from a read of this range.
    pub fn read(
        &self,
        alloc: Global,
        pass: &mut Pass<L>,
        key: &HashedKey,
    ) -> Result<VersionSet, Unread<L>>
        ensures reads { Does (plainly result) pass.old pass.new (get_in self.now pass.old key.now) }
        ensures seat { IfErr result (λ unread. unread.seat ≡ pass.old.seat) }
    {
        match self.take_reading(alloc, pass, key) {
            Ok(versions) => Ok(versions),
            Err(refusal) => Err(Unread::new(pass.seat(), refusal)),
        }
    }

    /// Reads a key like `get`. The row is found once: its set judges the receipts of the pass, and is copied.
    fn take_reading(
        &self,
        alloc: Global,
        pass: &mut Pass<L>,
        key: &HashedKey,
    ) -> Result<VersionSet, Refusal>
        ensures { Does result pass.old pass.new (get_in self.now pass.old key.now) }
    {
        pass.index();
        let front = self.state.journal().len();
        if front < pass.seen {
            return Err(Refusal::Behind {
                seen: pass.seen,
                held: front,
                missing: None,
            });
        }
        let held = self.state.store().find(key.bytes());
        if let Some(number) = find_missing(&pass.receipts, &pass.by_key, key, &held) {
            return Err(Refusal::Behind {
                seen: pass.seen,
                held: front,
                missing: Some(number),
            });
        }
        pass.readings.reserve(1)?;
        let versions = held.to_set(alloc)?;
        let reading = Reading {
            front,
            key: Bytes::copy_of(alloc, key.bytes())?,
            versions: versions.try_clone(alloc)?,
        };
        pass.seen = front;
        pass.readings.push_reserved(reading);
        Ok(versions)
    }

    /// Returns a job for a node; see `RangeState::take_job`. Refused: NoMemory.
    pub fn take_job(&self, alloc: Global, skip: u64) -> Result<Option<Job>, Refusal>
        ensures { Answers result None (GivesJob (tree_in self.now.state.store)) }
    {
        self.state.take_job(alloc, skip)
    }

    /// Installs the digest of a text at a node; see `RangeState::install`. Doesn't allocate. Refused: Stale.
    pub fn install(&mut self, node: NodeAt, hashed: &Hashed) -> Result<(), Refusal>
        ensures { DoesAtOnce result self.old self.new
            (through (moved self.old) (install self.old.state node hashed.now)) }
    {
        let installed = self.state.install(node, hashed);
        let _right = self.state.journal();
        installed
    }

    /// Makes a snapshot; see `RangeState::snapshot`. Refused, in order: Dirty, NoMemory.
    pub fn snapshot(&self, alloc: Global) -> Result<Arc<Snapshot, Global>, Refusal>
        ensures { Answers result (dirty_fault self.now.state.store)
            (λ snapshot. arc_value snapshot ≡ rows_now self.now.state.store) }
    {
        self.state.snapshot(alloc)
    }

    /// Opens a session with a partner's offer, and returns its number; see `RangeState::open_session`. Refused as
    /// `RangeState::open_session` is. On error the range is unchanged.
    pub fn open_session(
        &mut self,
        alloc: Global,
        partner: u16,
        offer: Offer,
    ) -> Result<u64, Refusal>
        ensures { Does result self.old self.new
            (through (moved self.old) (open_session self.old.state partner offer)) }
    {
        let id = self.state.open_session(alloc, partner, offer);
        let _right = self.state.journal();
        id
    }

    /// Keeps the current rows as the range's moment, and returns the previous one; see `RangeState::hold_moment`.
    /// Refused: NoMemory. On error the range is unchanged.
    pub fn hold_moment(&mut self, alloc: Global) -> Result<Option<Moment>, Refusal>
        ensures { Does result self.old self.new (gives self.old.state.moment (moved self.old (with_moment self.old.state))) }
    {
        let held = self.state.hold_moment(alloc);
        let _right = self.state.journal();
        held
    }

    /// Releases the moment, if any, and returns it. Doesn't allocate.
    pub fn take_moment(&mut self) -> Option<Moment>
        ensures moment { result ≡ self.old.state.moment }
        ensures range { self.new ≡ moved self.old (without_moment self.old.state) }
    {
        let moment = self.state.take_moment();
        let _right = self.state.journal();
        moment
    }

    /// Returns jobs of the moment's nodes; see `RangeState::take_moment_jobs`. Refused: NoMemory.
    pub fn take_moment_jobs(&self, alloc: Global, most: usize) -> Result<Vec<Job>, Refusal>
        ensures { Answers result None (λ jobs. AreMomentJobs self.now.state.moment most jobs.items) }
    {
        self.state.take_moment_jobs(alloc, most)
    }

    /// Installs the digest of a text at a node of the moment; see `RangeState::install_moment`. Doesn't allocate.
    /// Refused: Stale. On error the range is unchanged.
    pub fn install_moment(&mut self, node: NodeAt, hashed: &Hashed) -> Result<(), Refusal>
        ensures { DoesAtOnce result self.old self.new
            (through (moved self.old) (install_moment self.old.state node hashed.now)) }
    {
        let installed = self.state.install_moment(node, hashed);
        let _right = self.state.journal();
        installed
    }

    /// Makes a snapshot of the moment; see `RangeState::moment`. Refused, in order: Dirty, NoMemory.
    pub fn moment(&self, alloc: Global) -> Result<Arc<Snapshot, Global>, Refusal>
        ensures { Answers result (moment_fault self.now.state.moment)
            (λ snapshot. arc_value snapshot ≡ rows_at self.now.state.store (front_of self.now.state.moment)) }
    {
        self.state.moment(alloc)
    }

    /// Opens a session at the moment, and returns its number. Refused as `RangeState::open_session_at_moment` is. On
    /// error the range is unchanged.
    pub fn open_session_at_moment(
        &mut self,
        alloc: Global,
        partner: u16,
        offer: Offer,
    ) -> Result<u64, Refusal>
        ensures { Does result self.old self.new
            (through (moved self.old) (open_at_moment self.old.state partner offer)) }
    {
        let id = self.state.open_session_at_moment(alloc, partner, offer);
        let _right = self.state.journal();
        id
    }

    /// Takes a partner's text for a node of a session, for the seat of the pass (see `RangeState::take_answer`). Moves
    /// the receipts into the pass, and returns their number.
    ///
    /// Refused as `RangeState::take_answer` is. On error the pass is unchanged, and so is the range, except that
    /// NotCanonical makes the session fail.
    pub fn take_answer(
        &mut self,
        alloc: Global,
        pass: &mut Pass<L>,
        id: u64,
        node: NodeAt,
        text: Hashed,
    ) -> Result<AnswerCounted, Refusal>
        ensures { TellsAnswer self.old pass.old id
            (record { node = node; text = text }) result self.new pass.new }
    {
        let LockedRange { state, book } = self;
        let receipts = &mut pass.receipts;
        let answered = state.take_answer_into(alloc, receipts, pass.seat, id, node, text);
        let journal = state.journal();
        let taken = answered?;
        book.count(&mut pass.share, &mut pass.seen, journal, taken.receipts);
        Ok(taken)
    }

    /// Takes a partner's text like [`LockedRange::take_answer`], and also returns the first outstanding node of the
    /// session afterwards, like [`LockedRange::outstanding`]. Refused as `take_answer` is.
    pub fn take_answer_next(
        &mut self,
        alloc: Global,
        pass: &mut Pass<L>,
        id: u64,
        node: NodeAt,
        text: Hashed,
    ) -> Result<(AnswerCounted, Option<NodeAt>), Refusal>
        ensures { TellsAnswerNext self.old pass.old id
            (record { node = node; text = text }) result self.new pass.new }
    {
        let taken = self.take_answer(alloc, pass, id, node, text)?;
        let next = self.outstanding(id)?;
        Ok((taken, next))
    }

    /// Loads rows of one leaf from their texts, for the seat of the pass (see `RangeState::load_rows`). Moves the
    /// receipts into the pass.
    ///
    /// Refused as `RangeState::load_rows` is. On error range and pass are unchanged.
    pub fn load_rows(
        &mut self,
        alloc: Global,
        pass: &mut Pass<L>,
        text: &[u8],
    ) -> Result<Loaded, Refusal>
        ensures { DoesOrNoMemory result (self.old, pass.old) (self.new, pass.new)
            (load_text_in self.old pass.old text.now) }
    {
        let rows = LeafRows::read(alloc, self.store().config(), text)?;
        self.load_read(alloc, pass, &rows)
    }

    /// Loads rows like [`LockedRange::load_rows`]. They were read before the lock was taken, for this range's
    /// configuration.
    pub fn load_read(
        &mut self,
        alloc: Global,
        pass: &mut Pass<L>,
        rows: &LeafRows,
    ) -> Result<Loaded, Refusal>
        requires { rows.now.config ≡ self.old.state.store.config }
        ensures { DoesOrNoMemory result (self.old, pass.old) (self.new, pass.new)
            (load_in self.old pass.old rows.now.rows) }
    {
        let LockedRange { state, book } = self;
        let loaded = state.load_into(alloc, &mut pass.receipts, pass.seat, rows)?;
        let journal = state.journal();
        book.count(&mut pass.share, &mut pass.seen, journal, loaded.taken);
        Ok(loaded)
    }

    /// Cancels an open session; see `RangeState::cancel_session`. Doesn't allocate. Refused: UnknownSession.
    pub fn cancel_session(&mut self, id: u64) -> Result<(), Refusal>
        ensures { DoesAtOnce result self.old self.new
            (through (moved self.old) (cancel_session self.old.state id)) }
    {
        let ended = self.state.cancel_session(id);
        let _right = self.state.journal();
        ended
    }

    /// Migrates the range to format 2; see `RangeState::migrate`. The receipts and readings of passes stay true.
    /// Refused: NoMemory. On error the range is unchanged.
    pub fn migrate(&mut self, alloc: Global) -> Result<(), Refusal>
        ensures { Does result self.old self.new
            (through (moved self.old) (migrate self.old.state)) }
    {
        let migrated = self.state.migrate(alloc);
        let _right = self.state.journal();
        migrated
    }

    /// Returns the counts of the range; see `RangeState::counts`. Doesn't allocate.
    pub fn counts(&self) -> RangeCounts
        ensures { result ≡ counts_of self.now.state }
    {
        self.state.counts()
    }

    /// Returns the size of the range; see `RangeState::bytes`. Doesn't allocate.
    pub fn bytes(&self) -> RangeBytes
        ensures { result ≡ bytes_of self.now.state }
    {
        self.state.bytes()
    }

    /// The records of the sessions, in the order of their numbers. Doesn't allocate.
    pub fn records(&self) -> &[Record]
        ensures { result.now ≡ self.now.state.records }
    {
        self.state.records()
    }

    /// The first outstanding node of a session, if any. Doesn't allocate. Refused: UnknownSession.
    pub fn outstanding(&self, id: u64) -> Result<Option<NodeAt>, Refusal>
        ensures { AnswersAtOnce result (unknown_fault self.now.state id)
            (λ first. MatchOption (record_of id self.now.state.records) ⊥
            (λ r. IsFirstOf r.session.outstanding first)) }
    {
        self.state.outstanding(id)
    }

    /// Returns the record of a session. Doesn't allocate. Refused: UnknownSession.
    pub fn record(&self, id: u64) -> Result<&Record, Refusal>
        ensures { AnswersAtOnce result (unknown_fault self.now.state id)
            (λ r. record_of id self.now.state.records ≡ Some r.now) }
    {
        self.state.record(id)
    }
}
