//! The state of a range.
ghost use Rattle.std.specs.Prelude.{◌≡◌, ◌≤◌, None, IfErr, IfOk, IsTrue};
ghost use Rattle.std.specs.List.{AllByRecursion};
ghost use Rattle.vclock.specs.Answer.{Answers};
ghost use Rattle.vclock.specs.Outcome.{Does, DoesOrNoMemory};
ghost use Rattle.version_set.specs.Kind.{value_fault};
ghost use Rattle.range_journal.specs.Journal.{held};
ghost use Rattle.range_store.specs.Store.{is_sent, ask_fault};
ghost use Rattle.range_store.specs.declared.context_test.ContextTest.TheVariants as tests;
ghost use Rattle.range_state.specs.State.{IsRight, fresh, put, put_by, accept};

use crate::moment::Moment;
use crate::record::Record;
use range_journal::{Journal, Source};
use range_store::{Accepted, ContextTest, RangeConfig, RangeStore, Receipt, Seed};
use std::alloc::Global;
use std::marker::Model;
use vclock::{Bytes, Clock, Refusal};
use version_set::{Kind, Version, VersionSet};

mod answers;
pub mod bytes;
pub mod counts;
mod endings;
mod judgement;
mod loading;
mod migration;
mod moments;
mod patches;
mod portions;
mod receipts;
pub mod reconciliation;
pub mod renewal;
mod sessions;
pub mod sync;
mod tree;

/// One replica of a range, for one thread: its store, which has the versions that it accepted, the sessions with its
/// partners, and a moment, whose rows are offered while the range changes.
///
/// Threads that share a range keep it in `ring_node`'s `SharedRange`, which has `copy` in place of `accept`, workers in
/// place of `rehash` and `sync_with`, and no `store` or `reconcile`.
///
/// ```
/// let context = clock(alloc, context)?;
/// let value = Bytes::copy_of(alloc, value)?;
/// let receipt = state.put(alloc, 0, at, key, &context, Kind::Live, value)?;
/// Ok(receipt.number)
/// ```
pub struct RangeState {
    store: RangeStore,
    records: Vec<Record>,
    moment: Option<Moment>,
    /// The number of entries at the last whole moment before this one, which had a digest at each node; 0 if none was
    /// whole.
    whole_before: u64,
    /// The number of the next session, which no session had.
    next_session: u64,
    /// The number of the journal's first entries that are known to include no partner's entry.
    settled: u64,
}

impl Model for RangeState {
    ghost use Rattle.range_state.specs.State.{State, IsRight};

    ghost Value = { State };

    ghost view = { λ r. record { store = r.store; records = r.records.items; moment = r.moment; whole_before = r.whole_before; next_session = r.next_session; settled = r.settled } };

    ghost invariant = { λ r. IsRight (record { store = r.store; records = r.records.items; moment = r.moment; whole_before = r.whole_before; next_session = r.next_session; settled = r.settled }) };
}

impl RangeState {
    /// Makes a range that has accepted nothing. Refused: NoMemory.
    pub fn new(alloc: Global, config: RangeConfig) -> Result<RangeState, Refusal>
        ensures { Answers result None (λ state. state ≡ fresh config) }
    {
        RangeState::seeded(alloc, config, Seed::default())
    }

    /// Makes a range, like `new`, with a store from `RangeStore::seeded`. Refused: NoMemory.
    pub fn seeded(alloc: Global, config: RangeConfig, seed: Seed) -> Result<RangeState, Refusal>
        ensures { Answers result None (λ state. state ≡ fresh config) }
    {
        Ok(RangeState {
            store: RangeStore::seeded(alloc, config, seed)?,
            records: Vec::new(alloc),
            moment: None,
            whole_before: 0,
            next_session: 0,
            settled: 0,
        })
    }

    /// Returns the store: its configuration, its tree, and the versions held for a key. Doesn't allocate.
    pub fn store(&self) -> &RangeStore
        ensures store { result.now ≡ self.now.store }
        ensures valid { IsRight self.now }
    {
        &self.store
    }

    /// Returns the journal. Its entries belong to this range, and each was new when it was accepted; no key ever held
    /// over 64 versions; the rows that it makes have texts; and the marks of the tree are valid for them. Doesn't
    /// allocate.
    pub fn journal(&self) -> &Journal
        ensures entries { result.now.entries ≡ self.now.store.entries }
        ensures limit { result.now.limit ≡ self.now.store.config.limit }
        ensures valid { IsRight self.now }
    {
        self.store.journal()
    }

    /// Copies the versions held for a key: an empty set if the key isn't held. Refused: NoMemory.
    pub fn get(&self, alloc: Global, key: &[u8]) -> Result<VersionSet, Refusal>
        ensures held { Answers result None (λ set. set ≡ held self.now.store.entries key.now) }
        ensures fit { IfOk result (AllByRecursion (λ v. value_fault self.now.store.config.format v.kind v.value ≡ None)) }
    {
        self.store.get(alloc, key)
    }

    /// Accepts a version that another node sent, as a copy or as a hint. A version that is equal to or below one
    /// accepted before is known, and isn't journaled again.
    ///
    /// Refused, in order: BadKey, BadValue (of the range's format), OtherRange (the key belongs to another range);
    /// then, if the version isn't known, Crowded (the key would hold over 64 versions), JournalFull, NoMemory. On error
    /// the state is unchanged.
    pub fn accept(
        &mut self,
        alloc: Global,
        seat: u16,
        source: Source,
        key: &[u8],
        version: Version,
    ) -> Result<Accepted, Refusal>
        requires { IsTrue (is_sent source) }
        ensures { Does result self.old self.new (accept self.old seat source key.now version) }
    {
        let done = self.store.accept(alloc, seat, source, key, version);
        // Called only for its clause: the store is sound.
        let _sound = self.store.journal();
        done
    }

    /// Puts a value at a node, 1 to 65,535, or a tombstone: the new version's clock is the context with the node's
    /// counter raised by one (the Dynamo paper, section 4.4).
    ///
    /// Refused, in order: BadKey, BadValue (of the range's format), OtherRange (the key belongs to another range),
    /// ClockFull and CounterFull (the context can't be raised), StaleContext with the held clocks (some held version
    /// has seen everything that the raised clock has), Crowded (the key would hold over 64 versions), JournalFull,
    /// NoMemory. On error the state is unchanged. The raised clock and the list of clocks are allocated, so NoMemory
    /// may replace a cause from StaleContext on.
    pub fn put(
        &mut self,
        alloc: Global,
        seat: u16,
        at: u16,
        key: &[u8],
        context: &Clock,
        kind: Kind,
        value: Bytes,
    ) -> Result<Receipt, Refusal>
        requires { 1 ≤ at }
        ensures puts { DoesOrNoMemory result self.old self.new
            (put self.old seat at key.now context.now kind value) }
        ensures early { IfErr result (λ e. e ≡ Refusal.NoMemory
            → ask_fault self.old.store.config at key.now context.now kind value ≡ None) }
    {
        let done = self.store.put(
            alloc,
            ContextTest::Fresh,
            seat,
            at,
            key,
            context,
            kind,
            value,
        );
        // Called only for its clause: the store is sound.
        let _sound = self.store.journal();
        done
    }

    /// Puts a value at a node, like `put`, but only if the client has read all that the node put: otherwise the put
    /// could replace a version that the client never read. The context has seen each version that the put replaces.
    ///
    /// Refused like `put`, and as StaleContext also if some held version has a greater counter of the node than the
    /// context.
    pub fn put_read(
        &mut self,
        alloc: Global,
        seat: u16,
        at: u16,
        key: &[u8],
        context: &Clock,
        kind: Kind,
        value: Bytes,
    ) -> Result<Receipt, Refusal>
        requires { 1 ≤ at }
        ensures puts { DoesOrNoMemory result self.old self.new
            (put_by tests.Read self.old seat at key.now context.now kind value) }
        ensures early { IfErr result (λ e. e ≡ Refusal.NoMemory
            → ask_fault self.old.store.config at key.now context.now kind value ≡ None) }
    {
        let done = self.store.put(
            alloc,
            ContextTest::Read,
            seat,
            at,
            key,
            context,
            kind,
            value,
        );
        // Called only for its clause: the store is sound.
        let _sound = self.store.journal();
        done
    }
}

impl Drop for RangeState {
    /// Keeps the fields out of the proofs of callers that drop a range.
    fn drop(self) {
        let RangeState {
            store: _store,
            records: _records,
            moment: _moment,
            whole_before: _whole_before,
            next_session: _next_session,
            settled: _settled,
        } = self;
    }
}
