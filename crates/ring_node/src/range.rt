//! A range that threads share.
ghost use Rattle.std.specs.Prelude.{◌≡◌, ◌⊎◌, ◌≤◌, [], map, None, IfOk, IfErr, OnOk, OnErr, IsTrue, All};
ghost use Rattle.std.specs.Arc.{arc_value};
ghost use Rattle.vclock.specs.Answer.{Answers};
ghost use Rattle.vclock.specs.Clock.{raise_fault};
ghost use Rattle.vclock.specs.Bytes.{key_fault};
ghost use Rattle.vclock.specs.Outcome.{Does, DoesOrNoMemory, through};
ghost use Rattle.range_journal.specs.Journal.{held};
ghost use Rattle.range_state.specs.Bytes.{bytes_of};
ghost use Rattle.range_state.specs.Counts.{counts_of};
ghost use Rattle.range_state.specs.Migrates.{migrate};
ghost use Rattle.range_store.specs.Store.{is_sent, put_version, dirty_fault, rows_now};
ghost use Rattle.caller_pass.specs.Closings.{AllThere, IsSettled, IsUnclosed};
ghost use Rattle.caller_pass.specs.Locks.{IsLocked, moved, put_in, put_read_in, accept_in, get_in, plainly};
ghost use Rattle.caller_pass.specs.Loads.{load_text_in};
ghost use Rattle.caller_pass.specs.Renewals.{carried_passes, renewed_in, pass_of, IsUnrenewed};
ghost use Rattle.ring_node.specs.Gains.{Gains};
ghost use Rattle.ring_node.specs.Moments.{FoundAtSomeMoment, ChangedAtSomeMoment};
ghost use Rattle.ring_node.specs.Passes.{IsReceiptOf, HasReceiptOf, IsSent, IsPutRefusal, IsSentRefusal, IsReading, IsBehind};

use crate::gate::{Gate, OpenGate, Step};
use caller_pass::{Book, Closed, LockedRange, Pass, Renewed, ReturnedPass, Unclosed, Unread};
use key_ring::HashedKey;
use range_journal::Source;
use range_state::{
    Accepted, ContextTest, LeafRows, Loaded, RangeBytes, RangeConfig, RangeCounts, RangeState,
    Receipt,
};
use snapshot::Snapshot;
use std::alloc::Global;
use std::marker::Model;
use std::sync::ledger::Ledger;
use std::sync::{Arc, Mutex, Wait};
use vclock::{Bytes, Clock, Refusal};
use version_set::{Kind, Version, VersionSet};

/// A node's replica of a range that threads share: a [`LockedRange`] in a lock.
///
/// Contracts see the node. A caller has a pass of the range's ledger, so a pass of another range doesn't compile here.
/// No call holds two locks, waits for anything while it holds one, or writes or hashes a node's text under it. Only
/// three calls hash keys under the lock: the keys of a partner's new rows, of rows that are read again, and of all
/// entries in a migration.
///
/// ```
/// let value = Bytes::copy_of(alloc, value)?;
/// let receipt = range.put_read(rt, alloc, pass, key, context, Kind::Live, value)?;
/// Ok(receipt.version)
/// ```
#[derive(Drop)]
pub struct SharedRange<L: Ledger> {
    node: u16,
    pub(crate) range: Mutex<LockedRange<L>>,
    ghost valid: { 1 ≤ node },
}

impl<L: Ledger> Model for SharedRange<L> {
    ghost use Rattle.std.specs.Prelude.{ℕ};

    ghost Value = { ℕ };

    ghost view = { λ s. s.node };
}

/// A range that wasn't closed or renewed, with its passes and the cause, so nothing is lost.
///
/// ```
/// match range.close(alloc, passes) {
///     Ok(closed) => Ok(closed.state.journal().len()),
///     Err(refused) => Err(refused.refusal),
/// }
/// ```
#[derive(Drop)]
pub struct NotClosed<L: Ledger> {
    /// The range.
    pub range: SharedRange<L>,
    /// The passes.
    pub passes: Vec<Pass<L>>,
    /// The cause: Stranger, Unsettled or NoMemory; of a renewal also BadRing or JournalFull, before Unsettled.
    pub refusal: Refusal,
}

/// A range that was closed and opened again, with its new passes and the returned ones.
#[derive(Drop)]
pub struct RenewedRange<L: Ledger> {
    /// The new range, of the same node.
    pub range: SharedRange<L>,
    /// Its passes, in the order of their seats.
    pub passes: Vec<Pass<L>>,
    /// The returned passes, in the order in which they were given.
    pub kept: Vec<ReturnedPass>,
}

impl<L: Ledger> SharedRange<L> {
    /// Makes the shared range of a node, 1 to 65,535, with a state that has accepted nothing and a book that has
    /// counted nothing. Doesn't allocate.
    pub fn new(node: u16, state: RangeState, book: Book<L>) -> SharedRange<L>
        requires node { 1 ≤ node }
        requires empty { state.store.entries ≡ [] }
        requires none { book.number ≡ 0 }
        ensures { result ≡ node }
    {
        let range = Mutex::new(LockedRange::new(state, book));
        SharedRange { node, range }
    }

    /// The node, 1 to 65,535.
    pub fn node(&self) -> u16
        ensures value { result ≡ self.now }
        ensures valid { 1 ≤ self.now }
    {
        self.node
    }

    /// Puts a value at the range's node, or a tombstone, as [`LockedRange::put`] does. The pass gets the receipt.
    ///
    /// Refused as [`LockedRange::put`] is, in order: BadKey, BadValue (of the range's format), OtherRange, ClockFull,
    /// CounterFull, StaleContext (with the clocks that are held), Crowded, JournalFull, NoMemory. On error range and
    /// pass are unchanged. NoMemory may replace a cause from StaleContext on.
    pub fn put<R: Wait>(
        &self,
        rt: &R,
        alloc: Global,
        pass: &mut Pass<L>,
        key: &[u8],
        context: &Clock,
        kind: Kind,
        value: Bytes,
    ) -> Result<Receipt, Refusal>
        ensures receipt { IfOk result (IsReceiptOf pass.old.seat Source.Client key.now
            (put_version self.now context.now kind value)) }
        ensures kept { IfOk result (HasReceiptOf pass.old pass.new) }
        ensures fits { OnOk result ((key_fault key.now ≡ None) × (raise_fault context.now self.now ≡ None)) }
        ensures refusal { IfErr result (IsPutRefusal self.now key.now context.now kind value) }
        ensures same { OnErr result (pass.new ≡ pass.old) }
        ensures moment { ChangedAtSomeMoment (IsLocked L.parts) (λ before after.
            DoesOrNoMemory result (before, pass.old) (after, pass.new)
            (put_in before pass.old self.now key.now context.now kind value)) }
    {
        let node = self.node;
        let test = ContextTest::Fresh;
        let key = HashedKey::placed(key);
        let mut range = self.range.lock(rt);
        // Called only for its clause `valid`: the range's invariants hold.
        let _valid = range.store();
        range.put_hashed(alloc, test, pass, node, &key, context, kind, value)
    }

    /// Puts a value at the range's node, or a tombstone, as [`LockedRange::put_read`] does: only if its client has read
    /// all that the node put. The pass gets the receipt.
    ///
    /// Refused as [`SharedRange::put`] is, and as StaleContext also if some held version has a greater counter of the
    /// node than the context. On error range and pass are unchanged.
    pub fn put_read<R: Wait>(
        &self,
        rt: &R,
        alloc: Global,
        pass: &mut Pass<L>,
        key: &[u8],
        context: &Clock,
        kind: Kind,
        value: Bytes,
    ) -> Result<Receipt, Refusal>
        ensures receipt { IfOk result (IsReceiptOf pass.old.seat Source.Client key.now
            (put_version self.now context.now kind value)) }
        ensures kept { IfOk result (HasReceiptOf pass.old pass.new) }
        ensures fits { OnOk result ((key_fault key.now ≡ None) × (raise_fault context.now self.now ≡ None)) }
        ensures refusal { IfErr result (IsPutRefusal self.now key.now context.now kind value) }
        ensures same { OnErr result (pass.new ≡ pass.old) }
        ensures moment { ChangedAtSomeMoment (IsLocked L.parts) (λ before after.
            DoesOrNoMemory result (before, pass.old) (after, pass.new)
            (put_read_in before pass.old self.now key.now context.now kind value)) }
    {
        let node = self.node;
        let test = ContextTest::Read;
        let key = HashedKey::placed(key);
        let mut range = self.range.lock(rt);
        // Called only for its clause `valid`: the range's invariants hold.
        let _valid = range.store();
        range.put_hashed(alloc, test, pass, node, &key, context, kind, value)
    }

    /// Accepts a version that another node sent, as a copy or as a hint, as [`LockedRange::accept`] does. The pass gets
    /// the receipt if the version wasn't known.
    ///
    /// Refused as [`LockedRange::accept`] is, in order: BadKey, BadValue (of the range's format), OtherRange, Crowded,
    /// JournalFull, NoMemory. On error range and pass are unchanged.
    pub fn copy<R: Wait>(
        &self,
        rt: &R,
        alloc: Global,
        pass: &mut Pass<L>,
        source: Source,
        key: &[u8],
        version: Version,
    ) -> Result<Accepted, Refusal>
        requires { IsTrue (is_sent source) }
        ensures reply { IfOk result (IsSent pass.old source key.now version pass.new) }
        ensures fits { OnOk result (key_fault key.now ≡ None) }
        ensures refusal { IfErr result (IsSentRefusal key.now version) }
        ensures same { OnErr result (pass.new ≡ pass.old) }
        ensures moment { ChangedAtSomeMoment (IsLocked L.parts) (λ before after.
            Does result (before, pass.old) (after, pass.new) (accept_in before pass.old source key.now version)) }
    {
        let key = HashedKey::placed(key);
        let mut range = self.range.lock(rt);
        // Called only for its clause `valid`: the range's invariants hold.
        let _valid = range.store();
        range.accept_hashed(alloc, pass, source, &key, version)
    }

    /// Copies the versions that are held for a key, in the order of their texts, as [`LockedRange::read`] does: they
    /// cover each receipt of the pass for the key. The pass keeps them as a reading.
    ///
    /// Refused, in order: Behind (the journal is shorter than the part that the pass has seen; or the held versions
    /// don't cover a receipt of the pass for the key, with the number of the first such receipt), NoMemory. On error
    /// the pass is unchanged. Only a read of this range makes the refusal.
    pub fn get<R: Wait>(
        &self,
        rt: &R,
        alloc: Global,
        pass: &mut Pass<L>,
        key: &[u8],
    ) -> Result<VersionSet, Unread<L>>
        ensures reading { IfOk result (IsReading pass.old key.now pass.new) }
        ensures behind { IfErr result (λ unread. (unread.seat ≡ pass.old.seat)
            × IsBehind pass.old key.now unread.refusal) }
        ensures same { OnErr result (pass.new ≡ pass.old) }
        ensures moment { FoundAtSomeMoment (IsLocked L.parts)
            (λ locked. Does (plainly result) pass.old pass.new (get_in locked pass.old key.now)) }
    {
        // Before the lock is taken, so that only the search is done under it.
        let key = HashedKey::new(key);
        pass.index();
        let range = self.range.lock(rt);
        // Called only for its clause `valid`: the range's invariants hold.
        let _valid = range.store();
        range.read(alloc, pass, &key)
    }

    /// Copies the versions that are held for a key at one moment, in the order of their texts, without a pass: nothing
    /// is recorded, and the result needn't include the caller's own puts. Returns an empty set if the key isn't held.
    /// Refused: NoMemory.
    pub fn look<R: Wait>(&self, rt: &R, alloc: Global, key: &[u8]) -> Result<VersionSet, Refusal>
        ensures refusal { IfErr result (λ e. e ≡ Refusal.NoMemory) }
        ensures moment { FoundAtSomeMoment (IsLocked L.parts)
            (λ locked. Answers result None (λ set. set ≡ held locked.state.store.entries key.now)) }
    {
        self.range.lock(rt).store().find(key).to_set(alloc)
    }

    /// Loads rows of one leaf from their texts, as [`LockedRange::load_rows`] does. The pass gets the receipts. The
    /// rows are read before the lock is taken. If the range was migrated meanwhile, they are read again under the lock.
    ///
    /// Refused as [`LockedRange::load_rows`] is, in order: RowBroken (with the offset in bytes), OtherRange (a key
    /// belongs to another range, or to another leaf than the first one), Crowded, JournalFull, NoMemory, which may
    /// replace any cause. On error range and pass are unchanged.
    pub fn load_rows<R: Wait>(
        &self,
        rt: &R,
        alloc: Global,
        pass: &mut Pass<L>,
        text: &[u8],
    ) -> Result<Loaded, Refusal>
        ensures reply { IfOk result (λ loaded. Gains pass.old pass.new Source.Copy loaded.taken) }
        ensures same { OnErr result (pass.new ≡ pass.old) }
        ensures moment { ChangedAtSomeMoment (IsLocked L.parts) (λ before after.
            DoesOrNoMemory result (before, pass.old) (after, pass.new) (load_text_in before pass.old text.now)) }
    {
        self.load_rows_passing(rt, alloc, &OpenGate, pass, text)
    }

    /// Loads rows as [`SharedRange::load_rows`] does, and passes the gate after the rows are read ([`Step::Read`]),
    /// with no lock held, so that a test can change the range there.
    pub fn load_rows_passing<R: Wait, G: Gate>(
        &self,
        rt: &R,
        alloc: Global,
        gate: &G,
        pass: &mut Pass<L>,
        text: &[u8],
    ) -> Result<Loaded, Refusal>
        ensures reply { IfOk result (λ loaded. Gains pass.old pass.new Source.Copy loaded.taken) }
        ensures same { OnErr result (pass.new ≡ pass.old) }
        ensures moment { ChangedAtSomeMoment (IsLocked L.parts) (λ before after.
            DoesOrNoMemory result (before, pass.old) (after, pass.new) (load_text_in before pass.old text.now)) }
    {
        let config = self.config(rt);
        let rows = LeafRows::read(alloc, config, text)?;
        gate.pass(rt, Step::Read);
        let mut range = self.range.lock(rt);
        if range.store().config() == config {
            range.load_read(alloc, pass, &rows)
        } else {
            range.load_rows(alloc, pass, text)
        }
    }

    /// Returns the configuration of the range at one moment: its format may change once, by `migrate`.
    pub fn config<R: Wait>(&self, rt: &R) -> RangeConfig
        ensures { FoundAtSomeMoment (IsLocked L.parts) (λ locked. result ≡ locked.state.store.config) }
    {
        self.range.lock(rt).store().config()
    }

    /// Returns the numbers of entries, of dirty nodes and of sessions at one moment, and the limit of the journal, as
    /// [`LockedRange::counts`] does. Doesn't allocate.
    pub fn counts<R: Wait>(&self, rt: &R) -> RangeCounts
        ensures { FoundAtSomeMoment (IsLocked L.parts) (λ locked. result ≡ counts_of locked.state) }
    {
        let range = self.range.lock(rt);
        // Called only for its clause `valid`: the range's invariants hold.
        let _valid = range.store();
        range.counts()
    }

    /// Returns the size of the rows, of the journal and of the additional data of sessions, at one moment, as
    /// [`LockedRange::bytes`] does. Doesn't allocate. Calls of other threads wait meanwhile, for a walk over chunks of
    /// 15 rows.
    pub fn bytes<R: Wait>(&self, rt: &R) -> RangeBytes
        ensures { FoundAtSomeMoment (IsLocked L.parts) (λ locked. result ≡ bytes_of locked.state) }
    {
        let range = self.range.lock(rt);
        // Called only for its clause `valid`: the range's invariants hold.
        let _valid = range.store();
        range.bytes()
    }

    /// Makes a snapshot of the rows at one moment, with the digests of their tree.
    ///
    /// Refused, in order: Dirty (some node of the tree has no digest), NoMemory.
    pub fn snapshot<R: Wait>(&self, rt: &R, alloc: Global) -> Result<Arc<Snapshot, Global>, Refusal>
        ensures refusal { IfErr result (λ e. (e ≡ Refusal.Dirty) ⊎ (e ≡ Refusal.NoMemory)) }
        ensures moment { FoundAtSomeMoment (IsLocked L.parts) (λ locked.
            Answers result (dirty_fault locked.state.store)
            (λ snapshot. arc_value snapshot ≡ rows_now locked.state.store)) }
    {
        let range = self.range.lock(rt);
        // Called only for its clause `valid`: the range's invariants hold.
        let _valid = range.store();
        range.snapshot(alloc)
    }

    /// Migrates the range to format 2, as [`LockedRange::migrate`] does: the journal is unchanged, open sessions are
    /// cancelled, and all nodes are dirty. The lock is held while the journal is replayed. Refused: NoMemory. On error
    /// the range is unchanged.
    pub fn migrate<R: Wait>(&self, rt: &R, alloc: Global) -> Result<(), Refusal>
        ensures refusal { IfErr result (λ e. e ≡ Refusal.NoMemory) }
        ensures moment { ChangedAtSomeMoment (IsLocked L.parts) (λ before after.
            Does result before after (through (moved before) (migrate before.state))) }
    {
        let mut range = self.range.lock(rt);
        // Called only for its clause `valid`: the range's invariants hold.
        let _valid = range.store();
        range.migrate(alloc)
    }

    /// Closes the range, if each of its seats has a pass and each pass agrees with the journal, as
    /// [`LockedRange::close`] does. Takes no lock, since no other thread has the range any more.
    ///
    /// Refused as [`LockedRange::close`] is: Stranger, Unsettled, NoMemory. On error range and passes are returned.
    pub fn close(self, alloc: Global, passes: Vec<Pass<L>>) -> Result<Closed<L>, NotClosed<L>>
        ensures back { IfOk result (λ closed. closed.passes.items ≡ passes.items) }
        ensures there { OnOk result (AllThere L.parts passes.items) }
        ensures settled { IfOk result (λ closed. All (IsSettled closed.state.store.entries) passes.items) }
        ensures right { IfOk result (λ closed. FoundAtSomeMoment (IsLocked L.parts)
            (λ locked. closed.state ≡ locked.state)) }
        ensures handed_back { IfErr result (λ refused. (refused.range ≡ self) × (refused.passes.items ≡ passes.items)) }
        ensures refusal { IfErr result (λ refused. FoundAtSomeMoment (IsLocked L.parts)
            (λ locked. IsUnclosed L.parts locked.state.store.entries passes.items refused.refusal)) }
    {
        let SharedRange { node, range } = self;
        let range = range.into_inner();
        // Called only for its clause `valid`: the range's invariants hold.
        let _valid = range.store();
        match range.close(alloc, passes) {
            Ok(closed) => Ok(closed),
            Err(unclosed) => Err(not_closed(node, unclosed)),
        }
    }

    /// Closes the range, and opens a new one at the same node that begins with the versions held, as
    /// [`LockedRange::renew`] does. The pass of `seat` has the carried entries as receipts, and has seen them; the
    /// other passes are empty. Takes no lock, since no other thread has the range any more.
    ///
    /// Refused as [`LockedRange::renew`] is, in order: Stranger (a seat has no pass, or the range has no such seat),
    /// BadRing (the limit), JournalFull, Unsettled, NoMemory, which may replace Unsettled. On error range and passes
    /// are returned.
    pub fn renew(
        self,
        alloc: Global,
        passes: Vec<Pass<L>>,
        seat: u16,
        limit: u64,
    ) -> Result<RenewedRange<L>, NotClosed<L>>
        ensures node { IfOk result (λ renewed. renewed.range ≡ self) }
        ensures kept { IfOk result (λ renewed. map pass_of renewed.kept.items ≡ passes.items) }
        ensures there { OnOk result (AllThere L.parts passes.items) }
        ensures right { IfOk result (λ renewed. ChangedAtSomeMoment (IsLocked L.parts) (λ before after.
            (after ≡ renewed_in before seat limit) × All (IsSettled before.state.store.entries) passes.items
            × (renewed.passes.items ≡ carried_passes seat after.state.store.entries L.parts))) }
        ensures handed_back { IfErr result (λ refused. (refused.range ≡ self) × (refused.passes.items ≡ passes.items)) }
        ensures refusal { IfErr result (λ refused. FoundAtSomeMoment (IsLocked L.parts)
            (λ locked. IsUnrenewed L.parts locked.state seat limit passes.items refused.refusal)) }
    {
        let SharedRange { node, range } = self;
        let range = range.into_inner();
        // Called only for its clause `valid`: the range's invariants hold.
        let _valid = range.store();
        match range.renew(alloc, passes, seat, limit) {
            Ok(renewed) => Ok(share(node, renewed)),
            Err(unrenewed) => Err(not_closed(node, unrenewed)),
        }
    }
}

/// Adds its node to a renewed range, which threads share again.
fn share<L: Ledger>(node: u16, renewed: Renewed<L>) -> RenewedRange<L>
    requires { 1 ≤ node }
    ensures range { result.range ≡ node }
    ensures passes { result.passes.items ≡ renewed.passes.items }
    ensures kept { result.kept.items ≡ renewed.kept.items }
{
    let Renewed {
        range,
        passes,
        kept,
    } = renewed;
    let range = Mutex::new(range);
    RenewedRange {
        range: SharedRange { node, range },
        passes,
        kept,
    }
}

/// Adds its node to a range that wasn't closed.
fn not_closed<L: Ledger>(node: u16, unclosed: Unclosed<L>) -> NotClosed<L>
    requires { 1 ≤ node }
    ensures range { result.range ≡ node }
    ensures passes { result.passes.items ≡ unclosed.passes.items }
    ensures refusal { result.refusal ≡ unclosed.refusal }
{
    let Unclosed {
        range,
        passes,
        refusal,
    } = unclosed;
    let range = Mutex::new(range);
    NotClosed {
        range: SharedRange { node, range },
        passes,
        refusal,
    }
}
