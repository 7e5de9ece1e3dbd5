//! Ranges for one thread. Their methods have no clauses, so a function that calls them carries no facts about a range,
//! and is proved fast.

use exchange::{Bounds, Exchange, Report, Verdict};
use plain_model::plain::{Part, PlainRange, are_equal, is_entry, key_bytes};
use plain_model::trouble::{Trouble, expect};
use plain_model::walks::Walk;
use range_journal::{Journal, Source};
use range_state::{
    Accepted, RangeConfig, RangeState, Reconciled, Record, Renewal, RenewalStart, Unfinished,
    reconcile,
};
use std::alloc::Global;
use tree_nodes::{Digest, NodeAt, Text};
use vclock::{Format, Refusal};
use version_set::Version;
use walk_messages::Offer;

/// A range for one thread.
pub(crate) struct Range {
    state: RangeState,
}

impl Range {
    /// Returns the versions held for a key.
    pub(crate) fn versions(&self, key: &[u8]) -> &[Version] {
        self.state.store().versions(key)
    }

    /// Returns the journal.
    pub(crate) fn journal(&self) -> &Journal {
        self.state.journal()
    }

    /// Hashes the dirty nodes, and returns their number.
    pub(crate) fn rehash(&mut self, alloc: Global) -> Result<u64, Refusal> {
        self.state.rehash_here(alloc)
    }

    /// Returns the digest of a node, or `None` if it is dirty.
    pub(crate) fn digest_at(&self, node: NodeAt) -> Option<Digest> {
        self.state.digest_at(node)
    }

    /// Returns the records of its sessions.
    pub(crate) fn records(&self) -> &[Record] {
        self.state.records()
    }

    /// Compares the versions held for a key, and the number of entries, with the plain program's.
    pub(crate) fn check_held(
        &self,
        alloc: Global,
        plain: &PlainRange,
        key: u64,
    ) -> Result<(), Trouble> {
        let held = plain.held(alloc, key)?;
        let same = are_equal(&held, self.versions(key_bytes(key)));
        expect(same, "what is held for a key")?;
        let entries = self.journal().len();
        expect(
            entries == plain.entries.len() as u64,
            "the number of entries",
        )
    }

    /// Compares each entry with the plain program's.
    pub(crate) fn check_journal(&self, plain: &PlainRange) -> Result<(), Trouble> {
        for (number, entry) in plain.entries.iter().enumerate() {
            let same = match self.journal().get(number as u64) {
                Some(kept) => is_entry(kept, number, entry),
                None => false,
            };
            expect(same, "an entry")?;
        }
        Ok(())
    }

    /// Drops the records of ended sessions.
    pub(crate) fn drop_ended_sessions(&mut self) {
        self.state.drop_ended_sessions();
    }

    /// Accepts a version as a copy.
    pub(crate) fn copy(
        &mut self,
        alloc: Global,
        seat: u16,
        key: &[u8],
        version: Version,
    ) -> Result<Accepted, Refusal> {
        self.state.accept(alloc, seat, Source::Copy, key, version)
    }

    /// Holds the current rows as a moment, and hashes it.
    pub(crate) fn hold(&mut self, alloc: Global) -> Result<(), Refusal> {
        let _before = self.state.hold_moment(alloc)?;
        self.hash_moment(alloc)
    }

    /// Hashes the moment, if any.
    pub(crate) fn hash_moment(&mut self, alloc: Global) -> Result<(), Refusal> {
        for _level in 0..4 {
            self.state.hash_moment(alloc, 10_000)?;
        }
        Ok(())
    }

    /// Begins again with the held versions.
    pub(crate) fn renew(&mut self, alloc: Global, seat: u16, limit: u64) -> Result<(), Refusal> {
        self.state = self.state.renewed(alloc, seat, limit)?;
        Ok(())
    }

    /// Begins a renewal from the moment.
    pub(crate) fn begin_renewal(&self, alloc: Global) -> Result<RenewalStart, Refusal> {
        self.state.begin_renewal(alloc)
    }

    /// Has a renewal accept some of the later entries, and returns the number of entries left.
    pub(crate) fn catch_up(
        &self,
        alloc: Global,
        renewal: &mut Renewal,
        seat: u16,
        most: u64,
    ) -> Result<u64, Refusal> {
        renewal.catch_up(alloc, seat, &self.state, most)
    }

    /// Replaces this range by the new one of a renewal, and returns the old one.
    pub(crate) fn finish(
        &mut self,
        alloc: Global,
        renewal: Renewal,
        seat: u16,
    ) -> Result<Range, Unfinished> {
        match renewal.finish(alloc, seat, &mut self.state) {
            Ok(old) => Ok(Range::from(old)),
            Err(unfinished) => Err(unfinished),
        }
    }

    /// Migrates to format 2, unless it has that format.
    pub(crate) fn migrate(&mut self, alloc: Global) -> Result<(), Refusal> {
        self.state.migrate(alloc)
    }

    /// Opens an exchange with a partner's offer.
    pub(crate) fn open_exchange(
        &mut self,
        alloc: Global,
        partner: u16,
        offer: Offer,
        bounds: Bounds,
    ) -> Result<Exchange, Refusal> {
        Exchange::open(alloc, &mut self.state, partner, offer, bounds)
    }

    /// Returns the node that an exchange asks next.
    pub(crate) fn next_ask(&self, exchange: &mut Exchange) -> Option<NodeAt> {
        Some(exchange.next(&self.state)?.node)
    }

    /// Returns the outline that an exchange sends in place of an ask, if any.
    pub(crate) fn outline(
        &self,
        alloc: Global,
        exchange: &mut Exchange,
        node: NodeAt,
        room: usize,
    ) -> Result<Option<Text>, Refusal> {
        exchange.outline(alloc, &self.state, node, room)
    }

    /// Passes an answer to an exchange.
    pub(crate) fn take_answer(
        &mut self,
        alloc: Global,
        exchange: &mut Exchange,
        seat: u16,
        bytes: &[u8],
    ) -> Verdict {
        exchange.take(alloc, &mut self.state, seat, bytes)
    }

    /// Returns the progress of an exchange.
    pub(crate) fn report_of(&self, exchange: &Exchange) -> Report {
        exchange.report(&self.state)
    }

    /// Returns a leaf that an exchange left, by its place among them.
    pub(crate) fn left_at(&self, exchange: &Exchange, place: usize) -> Option<NodeAt> {
        exchange.left(&self.state, place)
    }

    /// Closes an exchange.
    pub(crate) fn close_exchange(&mut self, exchange: &mut Exchange) {
        exchange.close(&mut self.state);
    }

    /// Compares each session with its walk, and its number.
    pub(crate) fn check_walks(&self, walks: &[Walk], numbers: &[u64]) -> Result<(), Trouble> {
        for ((walk, number), record) in walks.iter().zip(numbers).zip(self.records()) {
            expect(record.number() == *number, "the number of a session")?;
            expect(walk.is(record.partner(), record.session()), "a session")?;
        }
        expect(self.records().len() == walks.len(), "a session")
    }

    /// Compares the texts that each session took with its walk's texts.
    pub(crate) fn check_texts(&self, walks: &[Walk]) -> Result<(), Trouble> {
        for (walk, record) in walks.iter().zip(self.records()) {
            let same = walk.has_taken(record.session().taken());
            expect(same, "the texts of a session")?;
        }
        Ok(())
    }
}

/// Returns the configuration of a range.
pub(crate) fn config_of(format: Format, part: Part, limit: u64) -> Result<RangeConfig, Refusal> {
    let (number, range) = (u64::from(format.number()), u64::from(part.number()));
    RangeConfig::new(number, part.bits(), range, limit).ok_or(Refusal::BadRing)
}

impl From<RangeState> for Range {
    /// Returns the range of a state.
    fn from(state: RangeState) -> Range {
        Range { state }
    }
}

/// Reconciles two ranges. Refused as OtherRange if they aren't replicas of one range.
pub(crate) fn reconcile_ranges(
    alloc: Global,
    (a, at_a): (&mut Range, u16),
    (b, at_b): (&mut Range, u16),
    seat: u16,
) -> Result<Reconciled, Refusal> {
    let (one, other) = (a.state.store().config(), b.state.store().config());
    if one.format() != other.format()
        || one.bits() != other.bits()
        || one.range() != other.range()
    {
        return Err(Refusal::OtherRange);
    }
    reconcile(alloc, &mut a.state, at_a, &mut b.state, at_b, seat)
}

impl Drop for Range {
    /// Keeps the state out of the proofs of callers that drop a range.
    fn drop(self) {
        let Range { state: _state } = self;
    }
}
