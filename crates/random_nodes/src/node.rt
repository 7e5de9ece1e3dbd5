//! A node: its replica of the range, its offers, the hints that it keeps, and the same node by the definitions. Each
//! call is made on both, and their results are compared. Its methods have no clauses, so a function that calls them
//! carries no facts about a node, and is proved fast.
ghost use Rattle.std.specs.Prelude.{◌≡◌, ◌≤◌};

use crate::mirror::{Mirror, PlainHint, Published};
use crate::partner::format_number;
use crate::ranges::config_of;
use crate::steps::{Seen, Setup, Side, Written};
use caller_pass::{Pass, open_passes};
use plain_model::plain::{Fault, KEYS, PlainEntry, PlainRange, PlainVersion, are_equal, key_bytes};
use plain_model::trees::Tree;
use plain_model::trouble::{Trouble, expect};
use range_journal::Source;
use range_state::RangeState;
use ring_node::{MomentReport, OfferPool, SharedHints, SharedRange};
use snapshot::Snapshot;
use std::alloc::Global;
use std::sync::ledger::{Blank, Ledger};
use std::sync::{Arc, Mutex, Wait};
use vclock::{Bytes, Format, Refusal};
use version_set::{Kind, VersionSet};
use walk_messages::Offer;

/// The number of seats of a range: one for each depth of steps.
pub(crate) const SEATS: u16 = 4;

/// A version that a node made, with its key.
#[derive(Clone, Copy)]
pub(crate) struct Made {
    pub(crate) key: u64,
    pub(crate) version: PlainVersion,
}

/// A node.
pub(crate) struct Node<L: Ledger> {
    range: SharedRange<L>,
    passes: Vec<Mutex<Pass<L>>>,
    pool: OfferPool,
    hints: SharedHints,
    mirror: Mutex<Mirror>,
}

impl<L: Ledger> Node<L> {
    /// Opens a node whose range has accepted nothing, and whose tree is clean.
    pub(crate) fn open(
        alloc: Global,
        blank: Blank,
        setup: &Setup,
        side: Side,
    ) -> Result<Node<L>, Trouble>
        requires { (blank.name ≡ L.name) × (blank.parts ≡ L.parts) × (blank.parts ≡ 4) }
    {
        let (at, limit) = match side {
            Side::One => (0u8, setup.limits[0]),
            Side::Two => (1u8, setup.limits[1]),
            Side::Three => (2u8, setup.limits[2]),
        };
        let mut state = RangeState::new(alloc, config_of(setup.format, setup.part, limit)?)?;
        state.rehash_here(alloc)?;
        let (book, passes) = open_passes::<L>(blank, alloc, SEATS)?;
        let plain = PlainRange {
            format: setup.format,
            part: setup.part,
            limit,
            entries: Vec::new(alloc),
        };
        Ok(Node {
            range: SharedRange::new(u16::from(at) + 1, state, book),
            passes: behind_locks(alloc, passes)?,
            pool: OfferPool::new(alloc),
            hints: SharedHints::new(alloc),
            mirror: Mutex::new(Mirror::new(alloc, at, plain)),
        })
    }

    /// Returns the range.
    pub(crate) fn range(&self) -> &SharedRange<L> {
        &self.range
    }

    /// Returns the offers.
    pub(crate) fn pool(&self) -> &OfferPool {
        &self.pool
    }

    /// Returns the hints that the node keeps.
    pub(crate) fn hints(&self) -> &SharedHints {
        &self.hints
    }

    /// Returns the node by the definitions.
    pub(crate) fn mirror(&self) -> &Mutex<Mirror> {
        &self.mirror
    }

    /// Returns the pass of a seat.
    pub(crate) fn pass(&self, seat: u16) -> Result<&Mutex<Pass<L>>, Trouble> {
        let pass = self.passes.get(usize::from(seat));
        pass.ok_or(Trouble::Differs("the number of seats"))
    }

    /// Returns the number of the node.
    pub(crate) fn number<R: Wait>(&self, rt: &R) -> u16 {
        self.mirror.lock(rt).number
    }

    /// Returns the format of the range.
    pub(crate) fn format<R: Wait>(&self, rt: &R) -> Format {
        self.mirror.lock(rt).plain.format
    }

    /// Returns the first trouble of the node as a partner, if any.
    pub(crate) fn check<R: Wait>(&self, rt: &R) -> Result<(), Trouble> {
        match self.mirror.lock(rt).take_trouble() {
            Some(trouble) => Err(trouble),
            None => Ok(()),
        }
    }

    /// Returns true if the node is down.
    pub(crate) fn is_down<R: Wait>(&self, rt: &R) -> bool {
        self.mirror.lock(rt).is_down
    }

    /// Returns the number of hashing workers that were started.
    pub(crate) fn workers<R: Wait>(&self, rt: &R) -> u64 {
        self.mirror.lock(rt).workers
    }

    /// Counts a hashing worker.
    pub(crate) fn count_worker<R: Wait>(&self, rt: &R) {
        let mut mirror = self.mirror.lock(rt);
        mirror.workers = mirror.workers.wrapping_add(1);
    }

    /// Brings the node down or up.
    pub(crate) fn switch<R: Wait>(&self, rt: &R) {
        let mut mirror = self.mirror.lock(rt);
        mirror.is_down = !mirror.is_down;
    }

    /// Puts a value or a tombstone. Returns its version, unless the put is refused.
    pub(crate) fn put<R: Wait>(
        &self,
        rt: &R,
        alloc: Global,
        seat: u16,
        written: Written,
    ) -> Result<Option<Made>, Trouble> {
        let Written {
            key,
            seen,
            kind,
            value,
            is_read,
        } = written;
        let mut mirror = self.mirror.lock(rt);
        let context = PlainVersion {
            counters: mirror.context(alloc, key, seen)?,
            kind,
            value,
        };
        let wanted = mirror.plain.put(key, mirror.at, context, is_read);
        let held = mirror.plain.held(alloc, key)?;
        let mut pass = self.pass(seat)?.lock(rt);
        let (range, key_now) = (&self.range, key_bytes(key));
        let (clock, sent) = (context.clock(alloc)?, context.value(alloc)?);
        let reply = if is_read {
            range.put_read(rt, alloc, &mut *pass, key_now, &clock, kind, sent)
        } else {
            range.put(rt, alloc, &mut *pass, key_now, &clock, kind, sent)
        };
        mirror.check_put(seat, key, &reply, wanted, &held)?;
        self.check_counts(rt, &mirror)?;
        match wanted {
            Ok(version) => {
                let entries = mirror.plain.entries.len() as u64;
                expect(pass.seen() == entries, "the front of a pass after a put")?;
                Ok(Some(Made { key, version }))
            }
            Err(_) => Ok(None),
        }
    }

    /// Accepts a version as a copy.
    pub(crate) fn copy<R: Wait>(
        &self,
        rt: &R,
        alloc: Global,
        seat: u16,
        made: Made,
    ) -> Result<(), Trouble> {
        let Made { key, version } = made;
        let entry = PlainEntry {
            seat,
            key,
            version,
            source: Source::Copy,
        };
        let mut mirror = self.mirror.lock(rt);
        let wanted = mirror.plain.accept(key, &version);
        let sent = version.version(alloc)?;
        let mut pass = self.pass(seat)?.lock(rt);
        let source = Source::Copy;
        let reply = self
            .range
            .copy(rt, alloc, &mut *pass, source, key_bytes(key), sent);
        mirror.check_sent(entry, &reply, wanted)?;
        self.check_counts(rt, &mirror)
    }

    /// Reads a key, and compares the reading.
    pub(crate) fn get<R: Wait>(
        &self,
        rt: &R,
        alloc: Global,
        seat: u16,
        key: u64,
    ) -> Result<(), Trouble> {
        let mut mirror = self.mirror.lock(rt);
        let held = mirror.plain.held(alloc, key)?;
        let mut pass = self.pass(seat)?.lock(rt);
        let got = get_in(rt, alloc, &self.range, &mut *pass, key)?;
        expect(
            are_equal(&held, got.as_slice()),
            "the versions that a get returns",
        )?;
        let entries = mirror.plain.entries.len() as u64;
        expect(pass.seen() == entries, "the front of a pass after a get")?;
        check_reading(&pass, entries, key, &held)?;
        mirror.add_read(key, &held)
    }

    /// Looks at a key.
    pub(crate) fn look<R: Wait>(&self, rt: &R, alloc: Global, key: u64) -> Result<(), Trouble> {
        let mirror = self.mirror.lock(rt);
        let held = mirror.plain.held(alloc, key)?;
        let got = self.range.look(rt, alloc, key_bytes(key))?;
        expect(
            are_equal(&held, got.as_slice()),
            "the versions that a look returns",
        )?;
        self.check_counts(rt, &mirror)
    }

    /// Compares the counts of the range.
    pub(crate) fn check_counts<R: Wait>(&self, rt: &R, mirror: &Mirror) -> Result<(), Trouble> {
        let counts = self.range.counts(rt);
        let same = counts.entries == mirror.plain.entries.len() as u64
            && counts.limit == mirror.plain.limit
            && counts.sessions == mirror.walks.len() as u64
            && counts.open_sessions == mirror.open_count();
        expect(same, "the counts of a range")
    }

    /// Returns the number of dirty nodes.
    pub(crate) fn dirty<R: Wait>(&self, rt: &R) -> u64 {
        self.range.counts(rt).dirty
    }

    /// Publishes a snapshot this number of times, if the tree is clean.
    pub(crate) fn publish<R: Wait>(&self, rt: &R, alloc: Global, times: u8) -> Result<(), Trouble> {
        let mut mirror = self.mirror.lock(rt);
        let is_clean = self.dirty(rt) == 0;
        let snapshot = match self.range.snapshot(rt, alloc) {
            Ok(snapshot) => snapshot,
            Err(refusal) => {
                let is_due = !is_clean && Fault::Dirty.is(&refusal);
                return expect(is_due, "the refusal of a snapshot");
            }
        };
        expect(is_clean, "whether there is a snapshot")?;
        let tree = Tree::new(alloc, &mirror.plain)?;
        self.publish_tree(rt, alloc, &mut *mirror, &snapshot, tree, times)
    }

    /// Publishes the snapshot of a tree this number of times.
    fn publish_tree<R: Wait>(
        &self,
        rt: &R,
        alloc: Global,
        mirror: &mut Mirror,
        snapshot: &Arc<Snapshot, Global>,
        tree: Tree,
        times: u8,
    ) -> Result<(), Trouble> {
        expect(snapshot.root() == tree.root(), "the root of a snapshot")?;
        let first = mirror.newest.saturating_add(1);
        for _ in 0..times {
            mirror.newest = mirror.newest.saturating_add(1);
            let offer = publish_in(rt, &self.pool, snapshot)?;
            check_published(mirror, &tree, &offer)?;
        }
        let (last, tree) = (mirror.newest, Arc::new(alloc, tree)?);
        mirror.published.push(Published { first, last, tree })?;
        let counts = self.pool.counts(rt);
        let same = counts.kept == mirror.kept_count() && counts.newest == last;
        expect(same, "the counts of a pool")?;
        self.check_counts(rt, mirror)
    }

    /// Notes that the range holds a moment. Returns the number of times that it held or dropped one.
    pub(crate) fn note_moment<R: Wait>(&self, rt: &R) -> u64 {
        let mut mirror = self.mirror.lock(rt);
        let front = mirror.plain.entries.len();
        mirror.set_moment(Some(front));
        mirror.moments
    }

    /// Compares the report of a moment worker, and publishes its snapshot, if any. `moments` is the number that
    /// `note_moment` returned.
    pub(crate) fn take_moment<R: Wait>(
        &self,
        rt: &R,
        alloc: Global,
        report: &MomentReport,
        turns: u64,
        moments: u64,
    ) -> Result<(), Trouble> {
        let mut mirror = self.mirror.lock(rt);
        let is_late = report.stale > 0;
        expect(
            !is_late || mirror.moments > moments,
            "whether a digest of a moment is late",
        )?;
        let jobs = report.installed.wrapping_add(report.stale);
        match &report.snapshot {
            Some(snapshot) => {
                let tree = mirror.moment_tree(alloc)?;
                self.publish_tree(rt, alloc, &mut *mirror, snapshot, tree, 1)
            }
            None => expect(
                jobs == turns || mirror.moment.is_none(),
                "whether a moment is whole",
            ),
        }
    }

    /// Compares the moment, and returns true if the range has a whole one.
    pub(crate) fn has_moment<R: Wait>(&self, rt: &R, alloc: Global) -> Result<bool, Trouble> {
        let mirror = self.mirror.lock(rt);
        match self.range.moment(rt, alloc) {
            Ok(snapshot) => {
                let tree = mirror.moment_tree(alloc)?;
                expect(snapshot.root() == tree.root(), "the root of a moment")?;
                Ok(true)
            }
            Err(refusal) => {
                expect(Fault::Dirty.is(&refusal), "the refusal of a moment")?;
                Ok(false)
            }
        }
    }

    /// Drops the moment.
    pub(crate) fn drop_moment<R: Wait>(&self, rt: &R) {
        let mut mirror = self.mirror.lock(rt);
        self.range.drop_moment(rt);
        mirror.set_moment(None);
    }

    /// Migrates the range to format 2.
    pub(crate) fn migrate<R: Wait>(&self, rt: &R, alloc: Global) -> Result<(), Trouble> {
        let mut mirror = self.mirror.lock(rt);
        self.range.migrate(rt, alloc)?;
        mirror.migrate();
        self.check_config(rt, &mirror)?;
        self.check_counts(rt, &mirror)
    }

    /// Compares the configuration of the range.
    fn check_config<R: Wait>(&self, rt: &R, mirror: &Mirror) -> Result<(), Trouble> {
        let config = self.range.config(rt);
        let same = config.format() == mirror.plain.format && config.limit() == mirror.plain.limit;
        expect(same, "the configuration of a range")
    }

    /// Compares the configuration of a returned range and all its keys, and the counts of the hints.
    pub(crate) fn check_all<R: Wait>(&self, rt: &R, alloc: Global) -> Result<(), Trouble> {
        let mirror = self.mirror.lock(rt);
        self.check_config(rt, &mirror)?;
        self.check_hints(rt, &mirror)?;
        drop(mirror);
        for key in 0..KEYS {
            self.look(rt, alloc, key)?;
        }
        Ok(())
    }

    /// Keeps a hint for another node.
    pub(crate) fn keep<R: Wait>(
        &self,
        rt: &R,
        alloc: Global,
        owner: u16,
        made: Made,
    ) -> Result<(), Trouble> {
        let Made { key, version } = made;
        let mut mirror = self.mirror.lock(rt);
        let bytes = Bytes::copy_of(alloc, key_bytes(key))?;
        let sent = version.version(alloc)?;
        let id = self.hints.keep(rt, owner, bytes, sent)?;
        mirror.hints.push(PlainHint {
            owner,
            key,
            version,
            is_pending: true,
        })?;
        expect(id as usize == mirror.hints.len(), "the number of a hint")?;
        self.check_hints(rt, &mirror)
    }

    /// Compares the counts of the hints that the node keeps.
    pub(crate) fn check_hints<R: Wait>(&self, rt: &R, mirror: &Mirror) -> Result<(), Trouble> {
        let mut pending = 0u32;
        for hint in &mirror.hints {
            pending = pending.wrapping_add(u32::from(hint.is_pending));
        }
        let all = u32::try_from(mirror.hints.len()).unwrap_or(u32::MAX);
        let counts = self.hints.counts(rt);
        let same = counts.pending == pending && counts.delivered == all.wrapping_sub(pending);
        expect(same, "the counts of hints")
    }

    /// Returns the tree of the newest offer.
    pub(crate) fn newest<R: Wait>(&self, rt: &R) -> Result<Option<Arc<Tree, Global>>, Trouble> {
        match self.mirror.lock(rt).published.last() {
            Some(published) => Ok(Some(Arc::try_clone(&published.tree)?)),
            None => Ok(None),
        }
    }

    /// Splits a node into the range with its passes, and the rest.
    pub(crate) fn into_parts(self, alloc: Global) -> Result<(Parts<L>, Rest), Trouble> {
        let Node {
            range,
            passes,
            pool,
            hints,
            mirror,
        } = self;
        let mut taken = Vec::new(alloc);
        for pass in passes {
            taken.push(pass.into_inner())?;
        }
        let parts = Parts {
            range,
            passes: taken,
        };
        let mirror = mirror.into_inner();
        Ok((
            parts,
            Rest {
                pool,
                hints,
                mirror,
            },
        ))
    }

    /// Puts a node together again.
    pub(crate) fn from_parts(
        alloc: Global,
        parts: Parts<L>,
        rest: Rest,
    ) -> Result<Node<L>, Trouble> {
        let Parts { range, passes } = parts;
        let Rest {
            pool,
            hints,
            mirror,
        } = rest;
        Ok(Node {
            range,
            passes: behind_locks(alloc, passes)?,
            pool,
            hints,
            mirror: Mutex::new(mirror),
        })
    }
}

/// A range with its passes, which a close or a renewal takes.
#[derive(Drop)]
pub(crate) struct Parts<L: Ledger> {
    pub(crate) range: SharedRange<L>,
    pub(crate) passes: Vec<Pass<L>>,
}

/// The other parts of a node.
#[derive(Drop)]
pub(crate) struct Rest {
    pub(crate) pool: OfferPool,
    pub(crate) hints: SharedHints,
    pub(crate) mirror: Mirror,
}

/// Puts each pass behind a lock.
fn behind_locks<L: Ledger>(
    alloc: Global,
    passes: Vec<Pass<L>>,
) -> Result<Vec<Mutex<Pass<L>>>, Trouble> {
    let mut locked = Vec::new(alloc);
    for pass in passes {
        locked.push(Mutex::new(pass))?;
    }
    Ok(locked)
}

/// Reads a key.
fn get_in<L: Ledger, R: Wait>(
    rt: &R,
    alloc: Global,
    range: &SharedRange<L>,
    pass: &mut Pass<L>,
    key: u64,
) -> Result<VersionSet, Refusal> {
    match range.get(rt, alloc, pass, key_bytes(key)) {
        Ok(versions) => Ok(versions),
        Err(unread) => Err(unread.into_refusal()),
    }
}

/// Publishes a snapshot.
fn publish_in<R: Wait>(
    rt: &R,
    pool: &OfferPool,
    snapshot: &Arc<Snapshot, Global>,
) -> Result<Offer, Refusal> {
    pool.publish(rt, Arc::try_clone(snapshot)?)
}

/// Compares an offer that was published.
fn check_published(mirror: &Mirror, tree: &Tree, offer: &Offer) -> Result<(), Trouble> {
    let same = offer.offer == mirror.newest
        && offer.format == format_number(mirror.plain.format)
        && offer.range == mirror.plain.part.number()
        && offer.root == tree.root();
    expect(same, "a published offer")
}

/// Compares the last reading of a pass.
fn check_reading<L: Ledger>(
    pass: &Pass<L>,
    entries: u64,
    key: u64,
    held: &[PlainVersion],
) -> Result<(), Trouble> {
    let Some(reading) = pass.readings().last() else {
        return Err(Trouble::Differs("the number of readings"));
    };
    let same = reading.front == entries
        && reading.key.as_slice() == key_bytes(key)
        && are_equal(held, reading.versions.as_slice());
    expect(same, "a reading")
}

impl<L: Ledger> Drop for Node<L> {
    /// Keeps the fields out of the proofs of callers that drop a node.
    fn drop(self) {
        let Node {
            range: _range,
            passes: _passes,
            pool: _pool,
            hints: _hints,
            mirror: _mirror,
        } = self;
    }
}
