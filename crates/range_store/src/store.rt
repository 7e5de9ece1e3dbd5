//! The store of a range.
ghost use Rattle.std.specs.Prelude.{◌≡◌, ◌<◌, ◌≤◌, ◌^◌, ⊤, [], false, if◌then◌else◌, nat_lt, None, Some, unwrap_or, option_map, replicate, MatchOption, true, IsTrue, IfOk, IfErr, IfSome};
ghost use Rattle.std.specs.List.{list_any, AllByRecursion};
ghost use Rattle.std.specs.Vec.{vec_len, vec_capacity};
ghost use Rattle.vclock.specs.Answer.{Answers, AnswersAtOnce, AnswersOrNoMemory};
ghost use Rattle.vclock.specs.Outcome.{Does, DoesOrNoMemory};
ghost use Rattle.vclock.specs.Clock.{at_most, counter, raised};
ghost use Rattle.vclock.specs.declared.format.Format.TheVariants as formats;
ghost use Rattle.version_set.specs.Kind.{value_fault};
ghost use Rattle.version_set.specs.Version.{covered, offer_fault};
ghost use Rattle.key_ring.specs.Places.{leaf_at, range_at};
ghost use Rattle.range_journal.specs.Journal.{held};
ghost use Rattle.range_journal.specs.declared.journal.Source.{Source};
ghost use Rattle.range_store.specs.Store.{is_sent, IsSound, fresh, leaf_in, place_fault, ask_fault, full_fault, entry_of, put_version, knows, admit, accept, tree_in};
ghost use Rattle.range_store.specs.ContextTests.{fails, context_fault, put_by};
ghost use Rattle.range_store.specs.Fitting.{IsFitting, made_fault, sent_fault};
ghost use Rattle.range_store.specs.Receipts.{with_put};
ghost use Rattle.range_store.specs.TableRows.{IsHome};

use crate::config::RangeConfig;
use crate::context_test::ContextTest;
use crate::receipt::{Accepted, Receipt};
use crate::store::table_rows::{copy_key, narrow_leaf, prepare_row};
use key_ring::HashedKey;
use range_journal::{Journal, Source};
use range_tree::Tree;
use row_table::{RowTable, Seed};
use std::alloc::Global;
use std::marker::Model;
use vclock::{Bytes, Clock, ClockOrder, Format, Refusal, check_key};
use version_set::{Held, Kind, Version, VersionSet};

pub mod batch;
mod copies;
mod format_loading;
pub mod loading;
mod migration;
pub mod receipts;
pub mod renewal;
mod table_rows;
mod tree;

/// The versions of one replica of a range: the journal of the accepted versions; the rows, which are exactly the
/// maximal versions of the journal, key by key, in the leaves of the range's tree; the digests of the tree's clean
/// nodes, each the digest of the node's text for the rows now; and a table, which finds the held versions of a key
/// without a search.
///
/// ```
/// let context = clock(alloc, context)?;
/// let value = Bytes::copy_of(alloc, value)?;
/// let receipt = store.put(
///     alloc,
///     ContextTest::Fresh,
///     0,
///     at,
///     key,
///     &context,
///     Kind::Live,
///     value,
/// )?;
/// Ok(receipt.number)
/// ```
pub struct RangeStore {
    config: RangeConfig,
    journal: Journal,
    tree: Tree,
    table: RowTable,
}

impl Model for RangeStore {
    ghost use Rattle.std.specs.Prelude.{◌≡◌};
    ghost use Rattle.range_store.specs.Store.{Store, IsSound, rows_now};
    ghost use Rattle.range_store.specs.TableRows.{IsTableOf};

    ghost Value = { Store };

    ghost view = { λ r. record { config = r.config; entries = r.journal.entries; marks = r.tree.marks } };

    ghost invariant = { λ r. IsSound (record { config = r.config; entries = r.journal.entries; marks = r.tree.marks })
        × (r.tree.map ≡ rows_now (record { config = r.config; entries = r.journal.entries; marks = r.tree.marks }))
        × (r.journal.limit ≡ r.config.limit)
        × IsTableOf r.config.bits r.config.range r.journal.entries r.table.rows };
}

impl RangeStore {
    /// Makes a range that has accepted nothing. Refused: NoMemory.
    pub fn new(alloc: Global, config: RangeConfig) -> Result<RangeStore, Refusal>
        ensures { Answers result None (λ store. store ≡ fresh config) }
    {
        RangeStore::seeded(alloc, config, Seed::default())
    }

    /// Makes a range like `new` that hashes keys with a seed to find their held versions. A seed that nobody can guess
    /// keeps clients from choosing keys with equal hashes, which would be slow to find. Refused: NoMemory.
    pub fn seeded(alloc: Global, config: RangeConfig, seed: Seed) -> Result<RangeStore, Refusal>
        ensures { Answers result None (λ store. store ≡ fresh config) }
    {
        Ok(RangeStore {
            config,
            journal: Journal::new(alloc, config.limit()),
            tree: Tree::empty(alloc, config.format(), config.bits(), config.range())?,
            table: RowTable::new(alloc, seed),
        })
    }

    /// Returns the number of the range, its format, and the limit of its journal.
    pub fn config(&self) -> RangeConfig
        ensures { result ≡ self.now.config }
    {
        self.config
    }

    /// Returns the journal. Its entries belong to this range, and each was new when it was accepted; no key ever held
    /// over 64 versions; the rows that it makes have texts; and the marks of the tree are valid for them. Doesn't
    /// allocate.
    pub fn journal(&self) -> &Journal
        ensures entries { result.now.entries ≡ self.now.entries }
        ensures limit { result.now.limit ≡ self.now.config.limit }
        ensures valid { IsSound self.now }
    {
        &self.journal
    }

    /// Returns the tree: the rows in leaves, their texts, the digests of the clean nodes, jobs of hashing, and
    /// snapshots. Doesn't allocate.
    pub fn tree(&self) -> &Tree
        ensures { result.now ≡ tree_in self.now }
    {
        &self.tree
    }

    /// Returns the versions that are held for a key, in the order of their texts: empty if the key isn't held. Doesn't
    /// allocate.
    pub fn versions(&self, key: &[u8]) -> &[Version]
        ensures held { result.now ≡ held self.now.entries key.now }
        ensures fit { AllByRecursion (λ v. value_fault self.now.config.format v.kind v.value ≡ None) result.now }
    {
        self.find(key).as_slice()
    }

    /// Copies the versions that are held for a key: an empty set if the key isn't held. Refused: NoMemory.
    pub fn get(&self, alloc: Global, key: &[u8]) -> Result<VersionSet, Refusal>
        ensures held { Answers result None (λ set. set ≡ held self.now.entries key.now) }
        ensures fit { IfOk result (AllByRecursion (λ v. value_fault self.now.config.format v.kind v.value ≡ None)) }
    {
        self.find(key).to_set(alloc)
    }

    /// Returns the versions that are held for a key, by one look into the table, without MD5. Doesn't allocate.
    pub fn find(&self, key: &[u8]) -> Held<'_>
        ensures held { result ≡ held self.now.entries key.now }
        ensures fit { AllByRecursion (λ v. value_fault self.now.config.format v.kind v.value ≡ None)
            (held self.now.entries key.now) }
    {
        self.table.held(key)
    }

    /// Accepts a version that another node sent, as a copy or as a hint. A version that is equal to or below one
    /// accepted before is known, and isn't journaled again.
    ///
    /// Refused, in order: BadKey, BadValue (of the range's format), OtherRange (the key belongs to another range);
    /// then, if the version isn't known, Crowded (the key would hold over 64 versions), JournalFull, NoMemory. On error
    /// the store is unchanged.
    pub fn accept(
        &mut self,
        alloc: Global,
        seat: u16,
        source: Source,
        key: &[u8],
        version: Version,
    ) -> Result<Accepted, Refusal>
        requires { IsTrue (is_sent source) }
        ensures { Does result self.old self.new (accept self.old seat source key.now version) }
    {
        let Some(home) = self.home_of_news(&HashedKey::new(key), &version)? else {
            return Ok(Accepted::Known);
        };
        let mut none = Vec::new(alloc);
        let receipt = self.admit(alloc, &mut none, false, home, seat, source, key, version)?;
        Ok(Accepted::Taken(receipt))
    }

    /// Puts a value at a node, 1 to 65,535, or a tombstone: the new version's clock is the context with the node's
    /// counter raised by one (section 4.4 of the Dynamo paper).
    ///
    /// Refused, in order: BadKey, BadValue (of the range's format), OtherRange (the key belongs to another range),
    /// ClockFull and CounterFull (the context can't be raised), StaleContext with the clocks that are held (some held
    /// version has seen everything that the raised clock has; by `ContextTest::Read` also if one has a greater counter
    /// of the node than the context), Crowded (the key would hold over 64 versions), JournalFull, NoMemory. On error
    /// the store is unchanged. The raised clock and the list of clocks are allocated, so NoMemory may replace a cause
    /// from StaleContext on.
    pub fn put(
        &mut self,
        alloc: Global,
        test: ContextTest,
        seat: u16,
        at: u16,
        key: &[u8],
        context: &Clock,
        kind: Kind,
        value: Bytes,
    ) -> Result<Receipt, Refusal>
        requires { 1 ≤ at }
        ensures puts { DoesOrNoMemory result self.old self.new
            (put_by test self.old seat at key.now context.now kind value) }
        ensures early { IfErr result (λ e. e ≡ Refusal.NoMemory
            → ask_fault self.old.config at key.now context.now kind value ≡ None) }
    {
        let hashed = HashedKey::new(key);
        let (home, version) = self.make_put(alloc, test, at, &hashed, context, kind, value)?;
        let mut none = Vec::new(alloc);
        self.admit(
            alloc,
            &mut none,
            false,
            home,
            seat,
            Source::Client,
            key,
            version,
        )
    }

    /// Makes the version of a put, and finds the leaf of its key in format 2. Refused like a put into a journal that
    /// isn't full.
    fn make_put(
        &self,
        alloc: Global,
        test: ContextTest,
        at: u16,
        key: &HashedKey,
        context: &Clock,
        kind: Kind,
        value: Bytes,
    ) -> Result<(u16, Version), Refusal>
        requires { 1 ≤ at }
        ensures made { AnswersOrNoMemory result (made_fault test self.now at key.now context.now kind value)
            (λ made. IsFitting self.now made.0 key.now made.1 × (made.1 ≡ put_version at context.now kind value)) }
        ensures early { IfErr result (λ e. e ≡ Refusal.NoMemory
            → ask_fault self.now.config at key.now context.now kind value ≡ None) }
    {
        let (known, held) = self.look_up(key);
        let leaf = self.home(known, key, kind, value.as_slice())?;
        let clock = context.raise(alloc, at)?;
        // Called only for its clause: the pairs form a clock.
        let _valid = clock.pairs();
        check_context(alloc, test, &held, at, context, &clock)?;
        let version = Version { clock, kind, value };
        if held.crowds(&version) {
            return Err(Refusal::Crowded);
        }
        Ok((leaf, version))
    }

    /// Returns the leaf in format 2 of the key of a version that another node sent, or `None` if the version is known.
    fn home_of_news(&self, key: &HashedKey, version: &Version) -> Result<Option<u16>, Refusal>
        ensures { AnswersAtOnce result (sent_fault self.now key.now version.now)
            (λ home. MatchOption home (knows self.now key.now version.now ≡ true)
            (λ leaf. IsFitting self.now leaf key.now version.now)) }
    {
        let (known, held) = self.look_up(key);
        let leaf = self.home(known, key, version.kind, version.value.as_slice())?;
        if held.covers(version) {
            return Ok(None);
        }
        if held.crowds(version) {
            return Err(Refusal::Crowded);
        }
        Ok(Some(leaf))
    }

    /// Returns the leaf of a key in format 2, if the key has a row, and the versions that are held for it.
    fn look_up(&self, key: &HashedKey) -> (Option<u16>, Held<'_>)
        ensures leaf { IfSome result.0 (λ leaf. IsHome self.now.config.bits self.now.config.range key.now leaf) }
        ensures held { result.1 ≡ held self.now.entries key.now }
    {
        match self.table.row(key.bytes()) {
            Some(row) => (Some(row.leaf), Held::new(Some(&row.set))),
            None => (None, Held::new(None)),
        }
    }

    /// Returns the leaf of a key in format 2, if a version of that kind and value can be in this range. `known` is the
    /// leaf, if the key has a row: then the key belongs to this range.
    fn home(
        &self,
        known: Option<u16>,
        key: &HashedKey,
        kind: Kind,
        value: &[u8],
    ) -> Result<u16, Refusal>
        requires { IfSome known (λ leaf. IsHome self.now.config.bits self.now.config.range key.now leaf) }
        ensures { AnswersAtOnce result (place_fault self.now.config key.now kind value.now)
            (λ leaf. leaf ≡ leaf_at formats.Two self.now.config.bits key.now) }
    {
        check_key(key.bytes())?;
        kind.check_value(self.config.format(), value)?;
        if let Some(leaf) = known {
            return Ok(leaf);
        }
        let at = key.place(Format::Two, self.config.bits());
        if at.range != self.config.range() {
            return Err(Refusal::OtherRange);
        }
        Ok(at.leaf)
    }

    /// Journals a version that isn't known, whose key has that leaf in format 2, and, if `keep` is true, appends a copy
    /// of the receipt to a list. Rows, entry and receipts share the key. Tests every cause before it allocates, and
    /// allocates before it changes anything.
    fn admit(
        &mut self,
        alloc: Global,
        list: &mut Vec<Receipt>,
        keep: bool,
        leaf: u16,
        seat: u16,
        source: Source,
        key: &[u8],
        version: Version,
    ) -> Result<Receipt, Refusal>
        requires { IsFitting self.old leaf key.now version }
        ensures admits { Does result self.old self.new
            (admit self.old (entry_of self.old seat source key.now version)) }
        ensures list { list.new.items ≡ (if keep then with_put list.old.items result else list.old.items) }
    {
        // Called only for its clause: the version's clock is valid.
        let _valid = version.clock.pairs();
        self.journal.reserve(1)?;
        let place = self.table.find(key);
        let key = copy_key(alloc, &self.table, place, key)?;
        let receipt = Receipt {
            number: self.journal.len(),
            seat,
            source,
            key: key.try_clone()?,
            version: version.try_clone()?,
        };
        let copy = copy_for(list, keep, &receipt)?;
        let row_version = version.try_clone()?;
        let row = prepare_row(alloc, &mut self.table, place, leaf, &key, &version)?;
        let tree_leaf = narrow_leaf(&self.config, leaf);
        self.tree.offer(alloc, tree_leaf, &key, row_version)?;
        self.journal.append_reserved(seat, source, key, version);
        self.table.put_at(place, row);
        if let Some(copy) = copy {
            list.push_reserved(copy);
        }
        Ok(receipt)
    }
}

/// Copies a receipt for a list, and reserves capacity for it there, if `keep` is true. Refused: NoMemory.
fn copy_for(
    list: &mut Vec<Receipt>,
    keep: bool,
    receipt: &Receipt,
) -> Result<Option<Receipt>, Refusal>
    ensures copy { Answers result None (λ copy. copy ≡ (if keep then Some receipt.now else None)) }
    ensures same { list.new.items ≡ list.old.items }
    ensures room { IfOk result (λ copy. IsTrue keep → vec_len list.new < vec_capacity list.new) }
{
    if !keep {
        return Ok(None);
    }
    list.reserve(1)?;
    Ok(Some(receipt.try_clone()?))
}

/// Refuses a context by a test against held versions. The clock is the context with the node's counter raised.
fn check_context(
    alloc: Global,
    test: ContextTest,
    held: &Held<'_>,
    at: u16,
    context: &Clock,
    clock: &Clock,
) -> Result<(), Refusal>
    requires { clock.now ≡ raised context.now at }
    ensures { AnswersOrNoMemory result (context_fault test held.now at context.now) (λ _. ⊤) }
{
    if fails(test, held.as_slice(), at, context, clock) {
        return Err(Refusal::StaleContext(held.clocks(alloc)?));
    }
    Ok(())
}

/// Returns true if a context fails a test against versions. The clock is the context with the node's counter raised.
fn fails(test: ContextTest, versions: &[Version], at: u16, context: &Clock, clock: &Clock) -> bool
    requires { clock.now ≡ raised context.now at }
    ensures { result ≡ fails test versions.now at context.now }
{
    match test {
        ContextTest::Fresh => any_has_seen(versions, clock),
        ContextTest::Read => any_is_unread(versions, at, context.get(at)),
    }
}

/// Returns true if some version has a greater counter of a node than the seen one.
fn any_is_unread(versions: &[Version], node: u16, seen: u64) -> bool
    ensures { result ≡ list_any (λ v. nat_lt seen (counter v.clock node)) versions.now }
{
    versions
        .iter()
        .any(|version| version.clock.get(node) > seen)
}

/// Returns true if some version has seen everything that the clock has.
fn any_has_seen(versions: &[Version], clock: &Clock) -> bool
    ensures { result ≡ list_any (λ v. at_most clock.now v.clock) versions.now }
{
    versions.iter().any(|version| has_seen(version, clock))
}

/// Returns true if a version has seen everything that the clock has.
fn has_seen(version: &Version, clock: &Clock) -> bool
    ensures { result ≡ at_most clock.now version.now.clock }
{
    match clock.compare(&version.clock) {
        ClockOrder::Before | ClockOrder::Equal => true,
        ClockOrder::After | ClockOrder::Apart => false,
    }
}

impl Drop for RangeStore {
    /// Keeps the fields out of the proofs of callers that drop a store.
    fn drop(self) {
        let RangeStore {
            config: _config,
            journal: _journal,
            tree: _tree,
            table: _table,
        } = self;
    }
}
