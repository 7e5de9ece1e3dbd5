//! A node by the definitions: all that it must hold, offer, keep and remember.

use crate::steps::Seen;
use plain_model::plain::{
    Fault, NODES, PlainEntry, PlainRange, PlainVersion, are_clocks_of, is_entry, joined,
};
use plain_model::trees::Tree;
use plain_model::trouble::{Trouble, expect};
use plain_model::walks::Walk;
use range_journal::Source;
use range_state::{Accepted, Receipt};
use std::alloc::Global;
use std::mem::replace;
use std::sync::Arc;
use sync_session::SessionState;
use tree_nodes::Digest;
use vclock::{Format, Refusal};

/// The number of offers that a node keeps.
const KEPT: u32 = 16;

/// A tree that a node offered, with the numbers of its first and its last offer.
#[derive(Drop)]
pub(crate) struct Published {
    pub(crate) first: u32,
    pub(crate) last: u32,
    pub(crate) tree: Arc<Tree, Global>,
}

/// A hint. The numbers of hints count from 1.
#[derive(Clone, Copy)]
pub(crate) struct PlainHint {
    pub(crate) owner: u16,
    pub(crate) key: u64,
    pub(crate) version: PlainVersion,
    pub(crate) is_pending: bool,
}

/// A key that was read, with the clock of all that was held.
#[derive(Clone, Copy)]
struct Read {
    key: u64,
    counters: [u64; NODES],
}

/// A node: its range, its sessions with the partners' trees, its offers, and the hints that it keeps for other nodes.
pub(crate) struct Mirror {
    pub(crate) number: u16,
    /// The place of the node in clocks.
    pub(crate) at: u8,
    pub(crate) plain: PlainRange,
    pub(crate) walks: Vec<Walk>,
    /// The number of each walk's session.
    pub(crate) sessions: Vec<u64>,
    /// The number of the next session.
    next_session: u64,
    /// The tree that each session's partner offered, if it offered one.
    pub(crate) partners: Vec<Option<Arc<Tree, Global>>>,
    pub(crate) published: Vec<Published>,
    pub(crate) newest: u32,
    pub(crate) hints: Vec<PlainHint>,
    pub(crate) is_down: bool,
    /// The number of hashing workers that were started.
    pub(crate) workers: u64,
    /// The number of entries at the moment that the range keeps, if any.
    pub(crate) moment: Option<usize>,
    /// The number of times that a moment was held or dropped.
    pub(crate) moments: u64,
    reads: Vec<Read>,
    trouble: Option<Trouble>,
}

impl Mirror {
    /// Returns a node that has done nothing.
    pub(crate) fn new(alloc: Global, at: u8, plain: PlainRange) -> Mirror {
        Mirror {
            number: u16::from(at) + 1,
            at,
            plain,
            walks: Vec::new(alloc),
            sessions: Vec::new(alloc),
            next_session: 0,
            partners: Vec::new(alloc),
            published: Vec::new(alloc),
            newest: 0,
            hints: Vec::new(alloc),
            is_down: false,
            workers: 0,
            moment: None,
            moments: 0,
            reads: Vec::new(alloc),
            trouble: None,
        }
    }

    /// Keeps the first trouble.
    pub(crate) fn note(&mut self, done: Result<(), Trouble>) {
        if let Err(trouble) = done
            && self.trouble.is_none()
        {
            self.trouble = Some(trouble);
        }
    }

    /// Takes the trouble, if any.
    pub(crate) fn take_trouble(&mut self) -> Option<Trouble> {
        self.trouble.take()
    }

    /// Returns the context of a put.
    pub(crate) fn context(
        &self,
        alloc: Global,
        key: u64,
        seen: Seen,
    ) -> Result<[u64; NODES], Trouble> {
        match seen {
            Seen::Nothing => Ok([0; NODES]),
            Seen::Now => Ok(joined(&self.plain.held(alloc, key)?)),
            Seen::Earlier(back) => Ok(self.read_before(key, back)),
        }
    }

    /// Returns the clock of an earlier read of a key, counted back from the last one.
    fn read_before(&self, key: u64, back: u64) -> [u64; NODES] {
        let (mut back, mut counters) = (back, [0; NODES]);
        for read in self.reads.iter().rev() {
            if read.key == key {
                counters = read.counters;
                if back == 0 {
                    break;
                }
                back = back.wrapping_sub(1);
            }
        }
        counters
    }

    /// Keeps the clock of all versions that a read of a key returned.
    pub(crate) fn add_read(&mut self, key: u64, held: &[PlainVersion]) -> Result<(), Trouble> {
        let counters = joined(held);
        self.reads.push(Read { key, counters })?;
        Ok(())
    }

    /// Compares the result of a put, and journals its version.
    pub(crate) fn check_put(
        &mut self,
        seat: u16,
        key: u64,
        reply: &Result<Receipt, Refusal>,
        wanted: Result<PlainVersion, Fault>,
        held: &[PlainVersion],
    ) -> Result<(), Trouble> {
        match (reply, wanted) {
            (Ok(receipt), Ok(version)) => self.journal(
                receipt,
                PlainEntry {
                    seat,
                    key,
                    version,
                    source: Source::Client,
                },
            ),
            (Err(Refusal::StaleContext(clocks)), Err(Fault::StaleContext)) => {
                let same = are_clocks_of(clocks.as_slice(), held);
                expect(same, "the clocks of a stale put")
            }
            (Err(refusal), Err(fault)) => expect(fault.is(refusal), "the refusal of a put"),
            _ => Err(Trouble::Differs("whether a put is refused")),
        }
    }

    /// Compares the result of a sent version, and journals the version if it is new.
    pub(crate) fn check_sent(
        &mut self,
        entry: PlainEntry,
        reply: &Result<Accepted, Refusal>,
        wanted: Result<bool, Fault>,
    ) -> Result<(), Trouble> {
        match (reply, wanted) {
            (Ok(Accepted::Taken(receipt)), Ok(true)) => self.journal(receipt, entry),
            (Ok(Accepted::Known), Ok(false)) => Ok(()),
            (Err(refusal), Err(fault)) => expect(fault.is(refusal), "the refusal of a copy"),
            _ => Err(Trouble::Differs("whether a copy is taken")),
        }
    }

    /// Compares a receipt with the next entry, and adds that entry.
    fn journal(&mut self, receipt: &Receipt, entry: PlainEntry) -> Result<(), Trouble> {
        let same = is_entry(receipt, self.plain.entries.len(), &entry);
        expect(same, "a receipt")?;
        self.plain.entries.push(entry)?;
        Ok(())
    }

    /// Adds entries.
    pub(crate) fn add_all(&mut self, entries: &[PlainEntry]) -> Result<(), Trouble> {
        self.plain.entries.extend_from_slice(entries)?;
        Ok(())
    }

    /// Returns the number of open sessions.
    pub(crate) fn open_count(&self) -> u64 {
        let mut count = 0u64;
        for walk in &self.walks {
            if walk.state == SessionState::Open {
                count = count.wrapping_add(1);
            }
        }
        count
    }

    /// Holds a moment with this number of entries, or drops it.
    pub(crate) fn set_moment(&mut self, moment: Option<usize>) {
        self.moment = moment;
        self.moments = self.moments.wrapping_add(1);
    }

    /// Returns the range at the moment.
    pub(crate) fn at_moment(&self) -> Result<PlainRange, Trouble> {
        match self.moment {
            Some(front) => self.plain.first(front),
            None => Err(Trouble::Differs("whether a range has a moment")),
        }
    }

    /// Returns the tree of the moment.
    pub(crate) fn moment_tree(&self, alloc: Global) -> Result<Tree, Trouble> {
        Tree::new(alloc, &self.at_moment()?)
    }

    /// Returns the tree that was offered under a root, if any.
    pub(crate) fn with_root(&self, root: &Digest) -> Result<Option<Arc<Tree, Global>>, Trouble> {
        for published in &self.published {
            if published.tree.root() == *root {
                return Ok(Some(Arc::try_clone(&published.tree)?));
            }
        }
        Ok(None)
    }

    /// Returns the tree of the offer with a number, if the offer is kept.
    pub(crate) fn kept(&self, number: u32) -> Option<&Tree> {
        if number == 0 || number.saturating_add(KEPT) <= self.newest {
            return None;
        }
        for published in &self.published {
            if published.first <= number && number <= published.last {
                return Some(&*published.tree);
            }
        }
        None
    }

    /// Returns the number of offers that are kept.
    pub(crate) fn kept_count(&self) -> u32 {
        self.newest.min(KEPT)
    }

    /// Migrates to format 2, and cancels the open sessions, unless it already has that format.
    pub(crate) fn migrate(&mut self) {
        if self.plain.format == Format::One {
            self.plain.format = Format::Two;
            self.set_moment(None);
            for walk in self.walks.iter_mut() {
                walk.end(SessionState::Cancelled);
            }
        }
    }

    /// Adds a session with its partner's tree, if the partner offered one.
    pub(crate) fn add_walk(
        &mut self,
        walk: Walk,
        partner: Option<Arc<Tree, Global>>,
    ) -> Result<(), Trouble> {
        self.walks.push(walk)?;
        self.sessions.push(self.next_session)?;
        self.next_session = self.next_session.wrapping_add(1);
        self.partners.push(partner)?;
        Ok(())
    }

    /// Drops the sessions that have ended, and marks each partner's entry as a copy.
    pub(crate) fn drop_ended_sessions(&mut self, alloc: Global) -> Result<(), Trouble> {
        let walks = replace(&mut self.walks, Vec::new(alloc));
        let sessions = replace(&mut self.sessions, Vec::new(alloc));
        let partners = replace(&mut self.partners, Vec::new(alloc));
        for ((walk, number), partner) in walks.into_iter().zip(sessions).zip(partners) {
            if walk.state == SessionState::Open {
                self.walks.push(walk)?;
                self.sessions.push(number)?;
                self.partners.push(partner)?;
            }
        }
        for entry in self.plain.entries.iter_mut() {
            if entry.source == Source::Partner {
                entry.source = Source::Copy;
            }
        }
        Ok(())
    }

    /// Begins again with the held versions, as entries of a seat, and the pending hints, without sessions.
    pub(crate) fn renew(&mut self, alloc: Global, seat: u16, limit: u64) -> Result<(), Trouble> {
        let renewal = self.plain.renewal(alloc, seat, limit)?;
        self.replace_range(alloc, renewal.range);
        self.hints.retain(|hint| hint.is_pending);
        Ok(())
    }

    /// Replaces the range, and drops the sessions.
    pub(crate) fn replace_range(&mut self, alloc: Global, plain: PlainRange) {
        self.plain = plain;
        self.set_moment(None);
        self.walks = Vec::new(alloc);
        self.sessions = Vec::new(alloc);
        self.partners = Vec::new(alloc);
    }
}

impl Drop for Mirror {
    /// Keeps the fields out of the proofs of callers that drop a mirror.
    fn drop(self) {
        let Mirror {
            number: _number,
            at: _at,
            plain: _plain,
            walks: _walks,
            sessions: _sessions,
            next_session: _next_session,
            partners: _partners,
            published: _published,
            newest: _newest,
            hints: _hints,
            is_down: _is_down,
            workers: _workers,
            moment: _moment,
            moments: _moments,
            reads: _reads,
            trouble: _trouble,
        } = self;
    }
}
