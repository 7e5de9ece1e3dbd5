//! The results and the contents of a range, by the definitions: all accepted versions in a list.

use crate::trouble::Trouble;
use md5::{Digest, Md5};
use range_journal::{Entry, Source};
use std::alloc::Global;
use vclock::{Bytes, Clock, Format, Refusal};
use version_set::{Kind, Version};

/// The number of nodes that count in clocks: nodes 1 to 4.
pub const NODES: usize = 4;

/// The number of keys, which are numbered from 0. Keys from 8 on are in the upper half of the ring, most others in the
/// lower half.
pub const KEYS: u64 = 14;

/// The maximum number of versions that are held for a key.
const VERSIONS_MAX: usize = 64;

/// The maximum limit of a journal.
const ENTRIES_MAX: u64 = 1_000_000;

/// The reason of a refusal.
#[derive(Clone, Copy)]
pub enum Fault {
    BadKey,
    BadValue,
    OtherRange,
    CounterFull,
    StaleContext,
    Crowded,
    JournalFull,
    Dirty,
    OtherFormat,
    SessionsFull,
    UnknownSession,
    NotAsked,
    WrongDigest,
    NotCanonical,
    LinkLost,
    Gone,
    BadMessage,
    RowBroken,
    Stranger,
    BadRing,
    Stale,
}

impl Fault {
    /// Returns true if a refusal has this reason.
    pub fn is(self, refusal: &Refusal) -> bool {
        match (self, refusal) {
            (Fault::BadKey, Refusal::BadKey)
            | (Fault::BadValue, Refusal::BadValue)
            | (Fault::OtherRange, Refusal::OtherRange)
            | (Fault::CounterFull, Refusal::CounterFull)
            | (Fault::StaleContext, Refusal::StaleContext(_))
            | (Fault::Crowded, Refusal::Crowded)
            | (Fault::JournalFull, Refusal::JournalFull)
            | (Fault::Dirty, Refusal::Dirty)
            | (Fault::OtherFormat, Refusal::OtherFormat)
            | (Fault::SessionsFull, Refusal::SessionsFull)
            | (Fault::UnknownSession, Refusal::UnknownSession)
            | (Fault::NotAsked, Refusal::NotAsked)
            | (Fault::WrongDigest, Refusal::WrongDigest)
            | (Fault::NotCanonical, Refusal::NotCanonical)
            | (Fault::LinkLost, Refusal::LinkLost)
            | (Fault::Gone, Refusal::Gone)
            | (Fault::BadMessage, Refusal::BadMessage)
            | (Fault::RowBroken, Refusal::RowBroken(_))
            | (Fault::Stranger, Refusal::Stranger)
            | (Fault::BadRing, Refusal::BadRing)
            | (Fault::Stale, Refusal::Stale) => true,
            _ => false,
        }
    }
}

/// Returns the bytes of a key. Keys ascend by number. Key 0 is empty, and several keys share a leaf.
pub fn key_bytes(key: u64) -> &'static [u8] {
    match key {
        0 => b"",
        1 => b"a",
        2 => b"b",
        3 => b"c",
        4 => b"dw",
        5 => b"hj",
        6 => b"mp",
        7 => b"tg",
        8 => b"uq",
        9 => b"v",
        10 => b"vd",
        11 => b"w",
        12 => b"xm",
        _ => b"z",
    }
}

/// The letter of a long value.
pub const LONG: u8 = b'l';

/// The bytes of a long value.
static LONG_BYTES: [u8; 300] = [LONG; 300];

/// Returns the bytes of the value for a letter.
fn value_bytes(letter: Option<u8>) -> &'static [u8] {
    match letter {
        None => b"",
        Some(b'x') => b"x",
        Some(b'y') => b"y",
        Some(_) => &LONG_BYTES,
    }
}

/// Returns the first bits of a key's number, which give its range and its leaf.
fn front(key: u64) -> u32 {
    let digest = Md5::digest(key_bytes(key));
    u32::from_be_bytes([digest[0], digest[1], digest[2], digest[3]])
}

/// A version: the counter of each node, 0 if it hasn't counted, and a value, given by a letter, or no value.
#[derive(Clone, Copy, PartialEq, Eq)]
pub struct PlainVersion {
    pub counters: [u64; NODES],
    pub kind: Kind,
    pub value: Option<u8>,
}

impl PlainVersion {
    /// Returns true if each counter is at most the other's.
    pub fn is_at_most(&self, other: &PlainVersion) -> bool {
        for i in 0..NODES {
            if self.counters[i] > other.counters[i] {
                return false;
            }
        }
        true
    }

    /// Returns true if the other's clock is later.
    fn is_below(&self, other: &PlainVersion) -> bool {
        self.is_at_most(other) && self.counters != other.counters
    }

    /// Returns true if its counter of a node is greater than the other's. Nodes are numbered from 0 here.
    fn has_more(&self, node: u8, other: &PlainVersion) -> bool {
        for i in 0..NODES {
            if i == usize::from(node) && self.counters[i] > other.counters[i] {
                return true;
            }
        }
        false
    }

    /// Returns true if it equals the other version or is below it.
    pub fn is_covered_by(&self, other: &PlainVersion) -> bool {
        self == other || self.is_below(other)
    }

    /// Returns the number of nodes that have counted.
    fn pair_count(&self) -> u8 {
        let mut count = 0u8;
        for i in 0..NODES {
            if self.counters[i] > 0 {
                count = count.wrapping_add(1);
            }
        }
        count
    }

    /// Writes the text.
    pub fn put_text(&self, format: Format, text: &mut Vec<u8>) -> Result<(), Trouble> {
        if format == Format::Two {
            text.push(if self.kind == Kind::Live { 0 } else { 1 })?;
        }
        text.push(self.pair_count())?;
        self.put_pairs(text)?;
        let value = value_bytes(self.value);
        let len = u32::try_from(value.len()).unwrap_or(u32::MAX);
        text.extend_from_slice(&len.to_be_bytes())?;
        text.extend_from_slice(value)?;
        Ok(())
    }

    /// Writes the pairs of the nodes that have counted.
    fn put_pairs(&self, text: &mut Vec<u8>) -> Result<(), Trouble> {
        for i in 0..NODES {
            if self.counters[i] > 0 {
                text.extend_from_slice(&(i as u16 + 1).to_be_bytes())?;
                text.extend_from_slice(&self.counters[i].to_be_bytes())?;
            }
        }
        Ok(())
    }

    /// Returns true if its text is before the other's.
    fn is_before(
        &self,
        alloc: Global,
        format: Format,
        other: &PlainVersion,
    ) -> Result<bool, Trouble> {
        let mut text = Vec::new(alloc);
        self.put_text(format, &mut text)?;
        let mut other_text = Vec::new(alloc);
        other.put_text(format, &mut other_text)?;
        Ok(text.as_slice() < other_text.as_slice())
    }

    /// Returns the clock.
    pub fn clock(&self, alloc: Global) -> Result<Clock, Trouble> {
        let mut pairs = Vec::new(alloc);
        for i in 0..NODES {
            if self.counters[i] > 0 {
                pairs.push((i as u64 + 1, self.counters[i]))?;
            }
        }
        Ok(Clock::from_pairs(alloc, &pairs)?)
    }

    /// Returns the value.
    pub fn value(&self, alloc: Global) -> Result<Bytes, Trouble> {
        Ok(Bytes::copy_of(alloc, value_bytes(self.value))?)
    }

    /// Returns the version as the range's type.
    pub fn version(&self, alloc: Global) -> Result<Version, Trouble> {
        Ok(Version {
            clock: self.clock(alloc)?,
            kind: self.kind,
            value: self.value(alloc)?,
        })
    }

    /// Returns true if a clock has these counters.
    pub fn has_clock(&self, clock: &Clock) -> bool {
        for i in 0..NODES {
            if clock.get(i as u16 + 1) != self.counters[i] {
                return false;
            }
        }
        clock.pairs().len() == usize::from(self.pair_count())
    }

    /// Returns true if a range's version equals this one.
    pub fn is(&self, version: &Version) -> bool {
        version.value.as_slice() == value_bytes(self.value)
            && version.kind == self.kind
            && self.has_clock(&version.clock)
    }
}

/// Returns the counters of the clock that has seen all of these versions.
pub fn joined(versions: &[PlainVersion]) -> [u64; NODES] {
    let mut counters = [0; NODES];
    for version in versions {
        for i in 0..NODES {
            counters[i] = counters[i].max(version.counters[i]);
        }
    }
    counters
}

/// Returns true if a range's versions equal these ones, in order.
pub fn are_equal(plain: &[PlainVersion], versions: &[Version]) -> bool {
    for (version, other) in plain.iter().zip(versions) {
        if !version.is(other) {
            return false;
        }
    }
    plain.len() == versions.len()
}

/// Returns true if the versions have these clocks, in order.
pub fn are_clocks_of(clocks: &[Clock], versions: &[PlainVersion]) -> bool {
    for (version, clock) in versions.iter().zip(clocks) {
        if !version.has_clock(clock) {
            return false;
        }
    }
    versions.len() == clocks.len()
}

/// A version that was accepted for a key, with the seat of the caller.
#[derive(Clone, Copy)]
pub struct PlainEntry {
    pub seat: u16,
    pub key: u64,
    pub version: PlainVersion,
    pub source: Source,
}

/// Returns true if a journal's entry equals this one and has this number.
pub fn is_entry(entry: &Entry, number: usize, plain: &PlainEntry) -> bool {
    entry.number == number as u64
        && entry.seat == plain.seat
        && entry.source == plain.source
        && entry.key.as_slice() == key_bytes(plain.key)
        && plain.version.is(&entry.version)
}

/// The part of the ring that a range covers.
#[derive(Clone, Copy, PartialEq, Eq)]
pub enum Part {
    /// All keys.
    Whole,
    /// The first of two ranges.
    Lower,
    /// The second of two ranges.
    Upper,
}

impl Part {
    /// Returns the bits of its ring.
    pub fn bits(self) -> u64 {
        u64::from(self != Part::Whole)
    }

    /// Returns the number of the range.
    pub fn number(self) -> u8 {
        u8::from(self == Part::Upper)
    }

    /// Returns true if a key is in the part.
    fn has(self, key: u64) -> bool {
        let is_upper = front(key) >= 0x8000_0000;
        match self {
            Part::Whole => true,
            Part::Lower => !is_upper,
            Part::Upper => is_upper,
        }
    }
}

/// A range of a ring with one range, or with two.
#[derive(Drop)]
pub struct PlainRange {
    pub format: Format,
    pub part: Part,
    pub limit: u64,
    pub entries: Vec<PlainEntry>,
}

impl PlainRange {
    /// Returns the leaf of a key: the 8 or 12 bits after the range's bits.
    pub fn leaf_of(&self, key: u64) -> u16 {
        let front = if self.part == Part::Whole {
            front(key)
        } else {
            front(key) << 1
        };
        let [first, second, _, _] = front.to_be_bytes();
        match self.format {
            Format::One => u16::from(first),
            Format::Two => u16::from(first) * 16 + u16::from(second / 16),
        }
    }

    /// Returns the reason why the range can't take a version, if any.
    fn place_fault(&self, key: u64, version: &PlainVersion) -> Option<Fault> {
        let is_tombstone = version.kind == Kind::Tombstone;
        if key_bytes(key).is_empty() {
            Some(Fault::BadKey)
        } else if is_tombstone && (self.format == Format::One || version.value.is_some()) {
            Some(Fault::BadValue)
        } else if !self.part.has(key) {
            Some(Fault::OtherRange)
        } else {
            None
        }
    }

    /// Returns true if some accepted version equals this one or is above it.
    pub fn knows(&self, key: u64, version: &PlainVersion) -> bool {
        for entry in &self.entries {
            if entry.key == key && version.is_covered_by(&entry.version) {
                return true;
            }
        }
        false
    }

    /// Returns true if some accepted version is above this one.
    fn has_above(&self, key: u64, version: &PlainVersion) -> bool {
        for entry in &self.entries {
            if entry.key == key && version.is_below(&entry.version) {
                return true;
            }
        }
        false
    }

    /// Returns true if the clock of some accepted version has seen all that the clock of this one has.
    fn has_seen(&self, key: u64, version: &PlainVersion) -> bool {
        for entry in &self.entries {
            if entry.key == key && version.is_at_most(&entry.version) {
                return true;
            }
        }
        false
    }

    /// Returns true if some held version has a greater counter of a node than a context.
    fn has_more(&self, key: u64, node: u8, context: &PlainVersion) -> bool {
        for entry in &self.entries {
            let is_held = entry.key == key && !self.has_above(key, &entry.version);
            if is_held && entry.version.has_more(node, context) {
                return true;
            }
        }
        false
    }

    /// Returns true if a new version is one too many for its key, with the versions that would still be held.
    pub fn is_crowded_by(&self, key: u64, version: &PlainVersion) -> bool {
        let mut count = 0usize;
        for entry in &self.entries {
            let stays = entry.key == key
                && !self.has_above(key, &entry.version)
                && !entry.version.is_below(version);
            if stays {
                count = count.wrapping_add(1);
            }
        }
        count >= VERSIONS_MAX
    }

    /// Returns the versions held for a key: the accepted ones that aren't below another, each once, in the order of
    /// their texts.
    pub fn held(&self, alloc: Global, key: u64) -> Result<Vec<PlainVersion>, Trouble> {
        let mut held = Vec::new(alloc);
        for entry in &self.entries {
            if entry.key == key && !self.has_above(key, &entry.version) {
                insert(alloc, self.format, &mut held, entry.version)?;
            }
        }
        Ok(held)
    }

    /// Returns the reason why the range isn't renewed with a limit, if any.
    pub fn renewal_fault(&self, alloc: Global, limit: u64) -> Result<Option<Fault>, Trouble> {
        if limit == 0 || limit > ENTRIES_MAX {
            return Ok(Some(Fault::BadRing));
        }
        let held = self.held_entries(alloc, 0)?.len() as u64;
        Ok(if held > limit {
            Some(Fault::JournalFull)
        } else {
            None
        })
    }

    /// Returns the first entries of the range once it is renewed: one for each held version, as a copy, leaf by leaf
    /// and key by key.
    pub fn held_entries(&self, alloc: Global, seat: u16) -> Result<Vec<PlainEntry>, Trouble> {
        let mut entries = Vec::new(alloc);
        for (_, key) in self.homes(alloc)? {
            for version in self.held(alloc, key)? {
                entries.push(PlainEntry {
                    seat,
                    key,
                    version,
                    source: Source::Copy,
                })?;
            }
        }
        Ok(entries)
    }

    /// Returns each key with its leaf before it, in ascending order.
    fn homes(&self, alloc: Global) -> Result<Vec<(u16, u64)>, Trouble> {
        let mut homes = Vec::new(alloc);
        for key in 1..KEYS {
            homes.push((self.leaf_of(key), key))?;
        }
        homes.sort_unstable();
        Ok(homes)
    }

    /// Returns true if the journal has capacity for this number of further entries.
    pub fn has_room(&self, more: usize) -> bool {
        (self.entries.len() as u64).wrapping_add(more as u64) <= self.limit
    }

    /// Returns the reason why a new version doesn't fit among its key's versions or in the journal, if any.
    fn room_fault(&self, key: u64, version: &PlainVersion) -> Option<Fault> {
        if self.is_crowded_by(key, version) {
            Some(Fault::Crowded)
        } else if !self.has_room(1) {
            Some(Fault::JournalFull)
        } else {
            None
        }
    }

    /// Returns an equal range, with a copy of the entries.
    pub fn try_clone(&self) -> Result<PlainRange, Trouble> {
        Ok(PlainRange {
            format: self.format,
            part: self.part,
            limit: self.limit,
            entries: self.entries.clone()?,
        })
    }

    /// Returns true if a version from another node is new, or the reason of its refusal.
    pub fn accept(&self, key: u64, version: &PlainVersion) -> Result<bool, Fault> {
        if let Some(fault) = self.place_fault(key, version) {
            return Err(fault);
        }
        if self.knows(key, version) {
            return Ok(false);
        }
        match self.room_fault(key, version) {
            Some(fault) => Err(fault),
            None => Ok(true),
        }
    }

    /// Returns the version that a put with this context makes at a node, numbered from 0, or the reason of its refusal.
    /// If `is_read` is true, the context must have seen all that the node put.
    pub fn put(
        &self,
        key: u64,
        node: u8,
        context: PlainVersion,
        is_read: bool,
    ) -> Result<PlainVersion, Fault> {
        if let Some(fault) = self.place_fault(key, &context) {
            return Err(fault);
        }
        let raised = raised(context, node).ok_or(Fault::CounterFull)?;
        if self.has_seen(key, &raised) || (is_read && self.has_more(key, node, &context)) {
            return Err(Fault::StaleContext);
        }
        match self.room_fault(key, &raised) {
            Some(fault) => Err(fault),
            None => Ok(raised),
        }
    }
}

/// Returns the version with a node's counter raised by one, or `None` if the counter is at its maximum.
fn raised(mut version: PlainVersion, node: u8) -> Option<PlainVersion> {
    for i in 0..NODES {
        if i == usize::from(node) {
            version.counters[i] = version.counters[i].checked_add(1)?;
        }
    }
    Some(version)
}

/// Inserts a version at its place, unless it is already there.
fn insert(
    alloc: Global,
    format: Format,
    held: &mut Vec<PlainVersion>,
    version: PlainVersion,
) -> Result<(), Trouble> {
    let mut place = 0usize;
    for other in held.iter() {
        if *other == version {
            return Ok(());
        }
        if other.is_before(alloc, format, &version)? {
            place = place.wrapping_add(1);
        }
    }
    if place <= held.len() {
        held.insert(place, version)?;
    }
    Ok(())
}
