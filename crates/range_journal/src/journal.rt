//! A journal of accepted versions.
ghost use Rattle.std.specs.Prelude.{◌≡◌, ◌-◌, ◌≤◌, ◌^◌, ◌↔◌, ◌⊎◌, [], length, min, take, None, IfOk, IfErr, slice_get, IsTrue};
ghost use Rattle.std.specs.Option.{option_copied};
ghost use Rattle.std.specs.Vec.{vec_capacity};
ghost use Rattle.vclock.specs.Answer.{Answers};
ghost use Rattle.vclock.specs.Outcome.{Does};
ghost use Rattle.range_journal.specs.Counters.{top_counter};
ghost use Rattle.range_journal.specs.Log.{AreNumberedFrom, IsLog};
ghost use Rattle.range_journal.specs.Copies.{copy_for, as_copies, with_copies, IsSettled};
ghost use Rattle.range_journal.specs.Sizes.{entry_len, entries_len};
ghost use Rattle.range_journal.specs.Journal.{append, reserve, with_entry, with_entries, held, NeverCrowded};

use std::alloc::Global;
use std::marker::Model;
use vclock::{Bytes, Refusal};
use version_set::{Version, VersionSet, payload_len};

/// The source of an accepted version: a client's put, a copy from the node of the put, a hint from its carrier, or a
/// partner in a sync.
#[derive(Clone, Copy, Debug, PartialEq, Eq)]
pub enum Source {
    /// A client put it at this range.
    Client,
    /// The node that accepted a client's put sent a copy.
    Copy,
    /// A carrier kept it as a hint while this replica was down.
    Hint,
    /// A partner had it in a leaf of its tree.
    Partner,
}

impl Source {
    /// Returns the source that is reported once no record of the session is left: Copy for Partner, otherwise
    /// unchanged.
    fn copied(self) -> Source
        ensures { result ≡ copy_for self }
    {
        match self {
            Source::Client => Source::Client,
            Source::Copy | Source::Partner => Source::Copy,
            Source::Hint => Source::Hint,
        }
    }
}

/// A version that a range accepted, with its number and the seat of the caller that delivered it.
///
/// ```
/// let entry = journal.get(1).ok_or("no entry 1")?;
/// expect(
///     entry.number == 1 && entry.seat == 7 && entry.source == Source::Partner,
///     "an entry has its number, seat and source",
/// )?;
/// ```
#[derive(Debug, Drop)]
pub struct Entry {
    /// The index in the journal, from 0.
    pub number: u64,
    /// The seat of the caller that delivered it.
    pub seat: u16,
    /// The source of the version.
    pub source: Source,
    /// The key. In a range's journal it has 1 to 255 bytes.
    pub key: Bytes,
    /// The version.
    pub version: Version,
}

impl Entry {
    /// Returns an equal entry. Refused: NoMemory.
    pub fn try_clone(&self) -> Result<Entry, Refusal>
        ensures { Answers result None (λ copy. copy ≡ self.now) }
    {
        Ok(Entry {
            number: self.number,
            seat: self.seat,
            source: self.source,
            key: self.key.try_clone()?,
            version: self.version.try_clone()?,
        })
    }

    /// Returns true if both entries are equal in all fields.
    pub fn same(&self, other: &Entry) -> bool
        ensures { IsTrue result ↔ (self.now ≡ other.now) }
    {
        self.number == other.number
            && self.seat == other.seat
            && self.source == other.source
            && self.key.as_slice() == other.key.as_slice()
            && self.version.same(&other.version)
    }

    /// Returns the number of bytes of the key, and of the version's value and clock, at most 2^64 - 1.
    fn len(&self) -> u64
        ensures { result ≡ min (entry_len self.now) (2 ^ 64 - 1) }
    {
        payload_len(self.key.as_slice(), &self.version)
    }
}

/// The accepted versions in order, up to a limit. Entries are never removed, and never changed but in their source
/// (`make_copies`). A range's rows are checked and its callers' passes are settled by the journal. On error a journal
/// is unchanged.
///
/// ```
/// append(alloc, journal, 1)?;
/// append(alloc, journal, 2)?;
/// let later = version(alloc, (1, 2), Kind::Live, b"x")?;
/// let held = held_in(alloc, journal.entries(), b"a")?;
/// expect(
///     held.len() == 1 && held.covers(&later),
///     "the later version is held",
/// )?;
/// ```
#[derive(Debug)]
pub struct Journal {
    entries: Vec<Entry>,
    limit: u64,
    room: u64,
    /// The number of bytes of the entries, at most 2^64 - 1.
    bytes: u64,
}

impl Model for Journal {
    ghost use Rattle.range_journal.specs.Log.{Log, IsLog};
    ghost use Rattle.range_journal.specs.Sizes.{entries_len};
    ghost use Rattle.std.specs.Vec.{vec_capacity};
    ghost use Rattle.std.specs.Prelude.{◌≡◌, ◌≤◌, ◌+◌, ◌-◌, ◌^◌, length, min};

    ghost Value = { Log };

    ghost view = { λ j. record { entries = j.entries.items; limit = j.limit; room = j.room } };

    ghost invariant = { λ j. IsLog (record { entries = j.entries.items; limit = j.limit; room = j.room }) × (length j.entries.items + j.room ≤ vec_capacity j.entries)
        × (j.bytes ≡ min (entries_len j.entries.items) (2 ^ 64 - 1)) };
}

impl Journal {
    /// Creates an empty journal for at most `limit` entries. Doesn't allocate.
    pub fn new(alloc: Global, limit: u64) -> Journal
        ensures { result ≡ record { entries = []; limit = limit; room = 0 } }
    {
        Journal {
            entries: Vec::new(alloc),
            limit,
            room: 0,
            bytes: 0,
        }
    }

    /// Returns the number of entries.
    pub fn len(&self) -> u64
        ensures count { result ≡ length self.now.entries }
        ensures valid { IsLog self.now }
    {
        self.entries.len() as u64
    }

    /// Returns the number of bytes of the entries' keys, values and clocks, at most 2^64 - 1: 10 bytes for each pair of
    /// a clock. Reads no entry.
    pub fn bytes(&self) -> u64
        ensures { result ≡ min (entries_len self.now.entries) (2 ^ 64 - 1) }
    {
        self.bytes
    }

    /// Returns the number of entries that can be added without allocating.
    pub fn room(&self) -> u64
        ensures { result ≡ self.now.room }
    {
        self.room
    }

    /// Returns the entry with this number, from 0.
    pub fn get(&self, number: u64) -> Option<&Entry>
        ensures { option_copied result ≡ slice_get self.now.entries number }
    {
        self.entries.get(number as usize)
    }

    /// Returns the entries in order. Doesn't allocate.
    pub fn entries(&self) -> &[Entry]
        ensures value { result.now ≡ self.now.entries }
        ensures valid { IsLog self.now }
    {
        &self.entries
    }

    /// Returns the greatest counter of a node in the clocks of the versions that the first `front` entries accepted for
    /// a key: of all entries if there are fewer, and 0 if no clock has the node. Reads each of these entries. Doesn't
    /// allocate.
    pub fn top_counter(&self, node: u16, key: &[u8], front: u64) -> u64
        ensures { result ≡ top_counter (take front self.now.entries) key.now node }
    {
        let most = front.min(self.len()) as usize;
        top_of(&self.entries[..most], node, key)
    }

    /// Reserves capacity for `entries` more entries, so that adding them doesn't allocate.
    ///
    /// Refused, in order: JournalFull (they would pass the limit), NoMemory.
    pub fn reserve(&mut self, entries: u64) -> Result<(), Refusal>
        ensures reserves { Does result self.old self.new (reserve self.old entries) }
        ensures roomy { entries ≤ self.old.room → IfErr result (λ e. ¬ (e ≡ Refusal.NoMemory)) }
    {
        if entries > self.limit - self.len() {
            return Err(Refusal::JournalFull);
        }
        if entries > self.room {
            self.entries.reserve(entries as usize)?;
            self.room = entries;
        }
        Ok(())
    }

    /// Adds an entry at the end, and returns its number.
    ///
    /// Refused, in order: JournalFull (the limit is reached), NoMemory.
    pub fn append(
        &mut self,
        seat: u16,
        source: Source,
        key: Bytes,
        version: Version,
    ) -> Result<u64, Refusal>
        ensures appends { Does result self.old self.new (append self.old seat source key version) }
        ensures roomy { 1 ≤ self.old.room → IfErr result (λ e. ¬ (e ≡ Refusal.NoMemory)) }
    {
        self.reserve(1)?;
        Ok(self.append_reserved(seat, source, key, version))
    }

    /// Appends an entry within the reserved capacity, and returns its number. Doesn't allocate.
    pub fn append_reserved(
        &mut self,
        seat: u16,
        source: Source,
        key: Bytes,
        version: Version,
    ) -> u64
        requires { 1 ≤ self.old.room }
        ensures number { result ≡ length self.old.entries }
        ensures added { self.new ≡ with_entry self.old (record { number = length self.old.entries; seat = seat; source = source; key = key; version = version }) }
    {
        let number = self.len();
        let entry = Entry {
            number,
            seat,
            source,
            key,
            version,
        };
        self.bytes = self.bytes.saturating_add(entry.len());
        self.entries.push(entry).unwrap();
        self.room -= 1;
        number
    }

    /// Turns each partner's entry from number `from` on into a copy: its source becomes [`Source::Copy`]. No earlier
    /// entry is a partner's. Doesn't allocate.
    pub fn make_copies(&mut self, from: u64)
        requires { IsSettled from self.old.entries }
        ensures { self.new ≡ with_copies self.old }
    {
        make_copies(&mut self.entries, from as usize);
    }

    /// Appends entries within the reserved capacity. They have the next numbers, in order. Doesn't allocate.
    pub fn append_entries(&mut self, mut entries: Vec<Entry>)
        requires numbered { AreNumberedFrom (length self.old.entries) entries.items }
        requires room { length entries.items ≤ self.old.room }
        ensures { self.new ≡ with_entries self.old entries.items }
    {
        self.room -= entries.len() as u64;
        self.bytes = self.bytes.saturating_add(len_of(&entries));
        self.entries.append(&mut entries).unwrap();
    }
}

/// Returns the number of bytes of entries, at most 2^64 - 1.
fn len_of(entries: &[Entry]) -> u64
    ensures { result ≡ min (entries_len entries.now) (2 ^ 64 - 1) }
{
    let mut len = 0u64;
    for entry in entries {
        len = len.saturating_add(entry.len());
    }
    len
}

/// Makes a copy of each partner's entry from a place on.
fn make_copies(entries: &mut Vec<Entry>, from: usize)
    requires { IsSettled from entries.old.items }
    ensures made { entries.new.items ≡ as_copies entries.old.items }
    ensures room { vec_capacity entries.new ≡ vec_capacity entries.old }
{
    for at in from..entries.len() {
        let entry = &mut entries[at];
        entry.source = entry.source.copied();
    }
}

/// Copies entries. Refused: NoMemory.
pub fn copy_entries(alloc: Global, entries: &[Entry]) -> Result<Vec<Entry>, Refusal>
    ensures { Answers result None (λ copies. copies.items ≡ entries.now) }
{
    let mut copies = Vec::with_capacity(alloc, entries.len())?;
    for entry in entries {
        copies.push_reserved(entry.try_clone()?);
    }
    Ok(copies)
}

/// Returns the greatest counter of a node in the clocks of the versions that entries have for a key.
fn top_of(entries: &[Entry], node: u16, key: &[u8]) -> u64
    ensures { result ≡ top_counter entries.now key.now node }
{
    let mut top = 0;
    for entry in entries {
        if entry.key.as_slice() == key {
            top = entry.version.clock.get(node).max(top);
        }
    }
    top
}

/// Returns the versions that entries hold for a key: the accepted versions that are below no other. It offers the
/// versions of the key, in order, to an empty set.
///
/// Refused: Crowded (the entries up to some number hold over 64 versions), NoMemory.
pub fn held_in(alloc: Global, entries: &[Entry], key: &[u8]) -> Result<VersionSet, Refusal>
    ensures held { IfOk result (λ set. set ≡ held entries.now key.now) }
    ensures answers { NeverCrowded entries.now key.now
        → Answers result None (λ set. set ≡ held entries.now key.now) }
    ensures refused { IfErr result (λ e. (e ≡ Refusal.NoMemory) ⊎ (e ≡ Refusal.Crowded)) }
{
    let mut set = VersionSet::empty(alloc);
    for entry in entries {
        if entry.key.as_slice() == key {
            set.offer(entry.version.try_clone()?)?;
        }
    }
    Ok(set)
}

impl Drop for Journal {
    /// Keeps the fields out of the proofs of callers that drop a journal.
    fn drop(self) {
        let Journal {
            entries: _entries,
            limit: _limit,
            room: _room,
            bytes: _bytes,
        } = self;
    }
}
