//! A replica of a range.
ghost use Rattle.std.specs.Prelude.{◌≡◌, ◌≤◌, IsTrue, [], ◌&&◌, ◌≢◌, Some, IfOk, IfErr, OnOk, None};
ghost use Rattle.std.specs.List.{AllByRecursion};
ghost use Rattle.vclock.specs.Answer.{Answers, AnswersOrNoMemory};
ghost use Rattle.vclock.specs.Outcome.{DoesOrNoMemory, DoesOrBreaksOff};
ghost use Rattle.version_set.specs.Kind.{value_fault};
ghost use Rattle.range_journal.specs.Journal.{held};
ghost use Rattle.range_journal.specs.declared.journal.Source.{Source};
ghost use Rattle.range_store.specs.Store.{is_sent, dirty_fault, rows_now, accept, put};
ghost use Rattle.range_state.specs.State.{fresh};
ghost use Rattle.range_state.specs.Syncs.{IsOfRange};
ghost use Rattle.std.specs.Arc.{arc_value};
ghost use Rattle.outage_cluster.specs.Acts.{takes, after_copy, clean_at, gets_hint, is_sent_to, shown_digest};
ghost use Rattle.outage_cluster.specs.State.{in_replica, replica_of};
ghost use Rattle.outage_cluster.specs.Syncs.{IsReported, session_fault, synced_with};

use range_journal::Source;
use range_state::{Accepted, RangeConfig, RangeState, Receipt, Synced};
use snapshot::Snapshot;
use std::alloc::Global;
use std::marker::Model;
use std::sync::Arc;
use std::thread::Threads;
use tree_nodes::{Digest, NodeAt};
use vclock::{Bytes, Clock, Format, Refusal};
use version_set::{Held, Kind, Version, VersionSet};

/// The script's seat in each journal.
const SEAT: u16 = 0;

/// A node that keeps a range. It has no state before the first put, copy, hint or rehash, since a ring may have
/// thousands of replicas.
pub(crate) struct Replica {
    node: u16,
    config: RangeConfig,
    state: Option<RangeState>,
}

impl Model for Replica {
    ghost use Rattle.std.specs.Prelude.{◌≤◌, ◌≡◌};
    ghost use Rattle.outage_cluster.specs.State.{Replica, range_in, replica_of};

    ghost Value = { Replica };

    ghost view = { λ r. replica_of r.node (range_in r.config r.state) };

    ghost invariant = { λ r. (1 ≤ r.node) × ((range_in r.config r.state).store.config ≡ r.config) };
}

impl Replica {
    /// Makes a replica that has accepted nothing.
    pub(crate) fn new(node: u16, config: RangeConfig) -> Replica
        requires { 1 ≤ node }
        ensures { result ≡ replica_of node (fresh config) }
    {
        Replica {
            node,
            config,
            state: None,
        }
    }

    /// Returns the node.
    pub(crate) fn node(&self) -> u16
        ensures { result ≡ self.now.node }
    {
        self.node
    }

    /// Returns the format of the range's rows.
    pub(crate) fn format(&self) -> Format
        ensures { result ≡ self.now.range.config.format }
    {
        self.config.format()
    }

    /// Returns the versions that are held for a key, in order.
    pub(crate) fn versions(&self, key: &[u8]) -> &[Version]
        ensures { result.now ≡ held self.now.range.entries key.now }
    {
        self.find(key).as_slice()
    }

    /// Copies the versions that are held for a key. Each has a text.
    pub(crate) fn version_set(&self, alloc: Global, key: &[u8]) -> Result<VersionSet, Refusal>
        ensures held { Answers result None (λ set. set ≡ held self.now.range.entries key.now) }
        ensures fit { IfOk result (AllByRecursion (λ v.
            value_fault self.now.range.config.format v.kind v.value ≡ None)) }
    {
        self.find(key).to_set(alloc)
    }

    /// Returns the versions that are held for a key. Each has a text.
    fn find(&self, key: &[u8]) -> Held<'_>
        ensures held { result ≡ held self.now.range.entries key.now }
        ensures fit { AllByRecursion (λ v.
            value_fault self.now.range.config.format v.kind v.value ≡ None)
            (held self.now.range.entries key.now) }
    {
        match &self.state {
            Some(state) => state.store().find(key),
            None => Held::new(None),
        }
    }

    /// Puts a value at the node.
    pub(crate) fn put(
        &mut self,
        alloc: Global,
        key: &[u8],
        context: &Clock,
        kind: Kind,
        value: Bytes,
    ) -> Result<Receipt, Refusal>
        ensures puts { DoesOrNoMemory result self.old self.new (in_replica self.old
            (put self.old.range 0 self.old.node key.now context.now kind value)) }
        ensures config { self.new.range.config ≡ self.old.range.config }
    {
        if let Some(state) = &mut self.state {
            return state.put(alloc, SEAT, self.node, key, context, kind, value);
        }
        let mut state = RangeState::new(alloc, self.config)?;
        let receipt = state.put(alloc, SEAT, self.node, key, context, kind, value)?;
        self.state = Some(state);
        Ok(receipt)
    }

    /// Makes every node of the range's tree clean, and returns the number of those that were dirty. If memory runs out,
    /// some of them may be clean.
    pub(crate) fn rehash(
        &mut self,
        rt: &(impl Threads + Sync),
        alloc: Global,
    ) -> Result<u64, Refusal>
        ensures cleans { DoesOrBreaksOff result self.old self.new (in_replica self.old (clean_at self.old.range)) }
        ensures config { self.new.range.config ≡ self.old.range.config }
    {
        if let Some(state) = &mut self.state {
            return state.rehash(rt, alloc);
        }
        let mut state = RangeState::new(alloc, self.config)?;
        let hashed = state.rehash(rt, alloc)?;
        self.state = Some(state);
        Ok(hashed)
    }

    /// Returns the digest of a node of the range's tree, if the node is clean: the digest of its text for the rows now.
    pub(crate) fn digest_at(&self, node: NodeAt) -> Option<Digest>
        ensures { result ≡ shown_digest node.depth node.index self.now.range }
    {
        match &self.state {
            Some(state) => state.digest_at(node),
            None => None,
        }
    }

    /// Makes a snapshot of the rows now and their tree, to offer to another node.
    pub(crate) fn snapshot(&self, alloc: Global) -> Result<Arc<Snapshot, Global>, Refusal>
        ensures { Answers result (dirty_fault self.now.range) (λ snapshot. arc_value snapshot ≡ rows_now self.now.range) }
    {
        match &self.state {
            Some(state) => state.snapshot(alloc),
            None => Err(Refusal::Dirty),
        }
    }

    /// Fetches the versions that another node has, in a session with it.
    pub(crate) fn sync_with(
        &mut self,
        alloc: Global,
        partner: u16,
        other: &Snapshot,
    ) -> Result<Synced, Refusal>
        requires { IsOfRange self.old.range.config other.now }
        ensures answers { AnswersOrNoMemory result (session_fault (Some self.old)) (IsReported self.old other.now) }
        ensures ok { OnOk result (self.new ≡ synced_with other.now self.old) }
        ensures err { IfErr result (λ e. e ≢ Refusal.NoMemory → self.new ≡ self.old) }
        ensures config { self.new.range.config ≡ self.old.range.config }
    {
        if let Some(state) = &mut self.state {
            return state.sync_with(alloc, SEAT, partner, other);
        }
        Err(Refusal::Dirty)
    }

    /// Sends the replica a copy of an entry, if it is to have one. Returns true if the replica accepted it or knew it.
    #[tactic(auto, unfolding(crate::specs::Acts::copied_to))]
    pub(crate) fn send(
        &mut self,
        alloc: Global,
        down: &[u64],
        node: u64,
        lose: &[u64],
        entry: &Receipt,
    ) -> Result<bool, Refusal>
        ensures taken { Answers result None (λ taken. taken ≡ takes down.now node lose.now entry.now self.old) }
        ensures after { OnOk result (self.new ≡ after_copy down.now node lose.now entry.now self.old) }
        ensures config { self.new.range.config ≡ self.old.range.config }
    {
        if !is_sent_to(node, lose, self.node) || down.contains(&u64::from(self.node)) {
            return Ok(false);
        }
        let version = entry.version.try_clone()?;
        match self.accept(alloc, Source::Copy, entry.key.as_slice(), version) {
            Ok(_) => Ok(true),
            Err(Refusal::NoMemory) => Err(Refusal::NoMemory),
            Err(_) => Ok(false),
        }
    }

    /// Accepts a version of another node, unless it is known.
    pub(crate) fn accept(
        &mut self,
        alloc: Global,
        source: Source,
        key: &[u8],
        version: Version,
    ) -> Result<Accepted, Refusal>
        requires { IsTrue (is_sent source) }
        ensures accepts { DoesOrNoMemory result self.old self.new (in_replica self.old
            (accept self.old.range 0 source key.now version)) }
        ensures config { self.new.range.config ≡ self.old.range.config }
    {
        if let Some(state) = &mut self.state {
            return state.accept(alloc, SEAT, source, key, version);
        }
        let mut state = RangeState::new(alloc, self.config)?;
        let accepted = state.accept(alloc, SEAT, source, key, version)?;
        self.state = Some(state);
        Ok(accepted)
    }
}

/// Returns true if a replica is to have a hint of a put: it is to have the put, and is down.
pub(crate) fn gets_hint(down: &[u64], node: u64, lose: &[u64], other: u16) -> bool
    ensures { result ≡ gets_hint down.now node lose.now other }
{
    is_sent_to(node, lose, other) && down.contains(&u64::from(other))
}

/// Returns true if a replica is to have a put: it is another node, and isn't excluded from the copies.
fn is_sent_to(node: u64, lose: &[u64], other: u16) -> bool
    ensures { result ≡ is_sent_to node lose.now other }
{
    let other = u64::from(other);
    other != node && !lose.contains(&other)
}

impl Drop for Replica {
    /// Keeps the fields out of the proofs of callers that drop a replica.
    fn drop(self) {
        let Replica {
            node: _node,
            config: _config,
            state: _state,
        } = self;
    }
}
