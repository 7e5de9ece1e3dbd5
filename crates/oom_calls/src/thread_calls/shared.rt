//! A shared range, with the hints for it.
ghost use Rattle.std.specs.Prelude.{◌≡◌};

use crate::thread_calls::calls::SharedCall;
use crate::thread_calls::closing::{Closing, close_shared, renew_shared};
use crate::thread_calls::partner::Partner;
use crate::thread_calls::versions::{TWO_VERSIONS, put_parts, version};
use admission::Controller;
use caller_pass::{Pass, open_passes};
use hint_store::Hint;
use range_journal::Source;
use range_state::{Accepted, RangeConfig, RangeState};
use ring_node::{
    Deed, Gate, Link, MemoryLink, ScriptedLink, SharedController, SharedHints, SharedRange, Step,
    SyncReport, deliver,
};
use std::alloc::Global;
use std::sync::Wait;
use std::sync::atomic::{AtomicU64, Ordering};
use std::sync::ledger::{Blank, Ledger};
use vclock::{Bytes, Clock, Refusal};
use version_set::Kind;

/// More turns than a tree of format 1 has nodes.
const TURNS: u64 = 300;

/// The node of the range.
const OWNER: u16 = 1;

/// A true offer, then three bad answers among true ones.
const DEEDS: [Deed; 7] = [
    Deed::Pass,
    Deed::Change(528),
    Deed::Cut(528),
    Deed::Renumber(2),
    Deed::Pass,
    Deed::Repeat,
    Deed::Pass,
];

/// A gate that counts the nodes that a worker hashed.
#[derive(Drop)]
struct Counter {
    hashed: AtomicU64,
}

impl Gate for Counter {
    fn pass<R: Wait>(&self, _rt: &R, step: Step) {
        if step == Step::Hashed {
            self.hashed.fetch_add(1, Ordering::SeqCst);
        }
    }
}

/// A shared range with the passes of its two seats, and the values that its workers need. The first pass writes and
/// reads, and the workers use the second one.
pub(crate) struct Shared<L: Ledger, C: Ledger> {
    range: SharedRange<L>,
    passes: Vec<Pass<L>>,
    slots: SharedController<C>,
    hints: SharedHints,
    counter: Counter,
}

impl<L: Ledger, C: Ledger> Shared<L, C> {
    /// Opens a range of format 1 with all keys that has accepted nothing.
    pub(crate) fn open(alloc: Global, blank: Blank, slots: Blank) -> Result<Shared<L, C>, Refusal>
        requires range { (blank.name ≡ L.name) × (blank.parts ≡ L.parts) × (blank.parts ≡ 2) }
        requires slots { (slots.name ≡ C.name) × (slots.parts ≡ C.parts) × (slots.parts ≡ 1024) }
    {
        let config = RangeConfig::new(1, 0, 0, 100).ok_or(Refusal::BadRing)?;
        let state = RangeState::new(alloc, config)?;
        let (book, passes) = open_passes::<L>(blank, alloc, 2)?;
        let slots = Controller::<C>::new(slots, alloc, 1, 8, 50_000)?;
        Ok(Shared {
            range: SharedRange::new(OWNER, state, book),
            passes,
            slots: SharedController::new(slots),
            hints: SharedHints::new(alloc),
            counter: Counter {
                hashed: AtomicU64::new(0),
            },
        })
    }

    /// Closes the range.
    pub(crate) fn close(self, alloc: Global) -> Result<Closing<L>, Refusal> {
        let Shared {
            range,
            passes,
            slots: _,
            hints: _,
            counter: _,
        } = self;
        close_shared(alloc, range, passes)
    }

    /// Renews the range, and closes it.
    pub(crate) fn renew_range(self, alloc: Global) -> Result<Closing<L>, Refusal> {
        let Shared {
            range,
            passes,
            slots: _,
            hints: _,
            counter: _,
        } = self;
        renew_shared(alloc, range, passes)
    }

    /// Returns the number of nodes that its workers hashed.
    pub(crate) fn hashed(&self) -> u64 {
        self.counter.hashed.load(Ordering::SeqCst)
    }

    /// Returns the pending hints, by rising id.
    pub(crate) fn pending<R: Wait>(&self, rt: &R, alloc: Global) -> Result<Vec<Hint>, Refusal> {
        let mut pending = Vec::new(alloc);
        let mut after = 0;
        for _ in 0..TURNS {
            let Some(hint) = self.hints.next(rt, alloc, OWNER, after)? else {
                break;
            };
            after = hint.id;
            pending.push(hint)?;
        }
        Ok(pending)
    }

    /// Makes a call, and returns a number for its result.
    pub(crate) fn make<R: Wait>(
        &mut self,
        rt: &R,
        alloc: Global,
        partner: &Partner,
        call: SharedCall,
    ) -> Result<u64, Refusal> {
        match call {
            SharedCall::Put(key) => self.put(rt, alloc, key),
            SharedCall::StalePut(key) => self.put_stale(rt, alloc, key),
            SharedCall::UnreadPut(key) => self.put_unread(rt, alloc, key),
            SharedCall::Copy(key) => self.copy(rt, alloc, key),
            SharedCall::Get(key) => self.get(rt, alloc, key),
            SharedCall::Look(key) => Ok(self.range.look(rt, alloc, &[key])?.len() as u64),
            SharedCall::Rehash => self.rehash(rt, alloc),
            SharedCall::Snapshot => Ok(u64::from(
                self.range.snapshot(rt, alloc)?.format().number(),
            )),
            SharedCall::Sync => {
                let mut link = MemoryLink::new(alloc, &partner.first);
                self.sync(rt, alloc, &mut link)
            }
            SharedCall::SyncByScript => {
                let link = MemoryLink::new(alloc, &partner.second);
                let deeds = Vec::from_slice(alloc, &DEEDS)?;
                let mut link = ScriptedLink::new(alloc, link, deeds);
                self.sync(rt, alloc, &mut link)
            }
            SharedCall::Keep(key) => self.keep(rt, alloc, key),
            SharedCall::Next => self.next(rt, alloc),
            SharedCall::Deliver => self.deliver(rt, alloc),
            SharedCall::Renew => self.renew(rt, alloc),
            SharedCall::Moment => self.hash_moment(rt, alloc),
            SharedCall::SyncAtMoment => {
                let mut link = MemoryLink::new(alloc, &partner.first);
                self.sync_at_moment(rt, alloc, &mut link)
            }
            SharedCall::Load => self.load(rt, alloc),
            SharedCall::Migrate => {
                self.range.migrate(rt, alloc)?;
                Ok(self.passes.len() as u64)
            }
        }
    }

    /// Puts a value, and returns its entry's number.
    fn put<R: Wait>(&mut self, rt: &R, alloc: Global, key: u8) -> Result<u64, Refusal> {
        let (context, value) = put_parts(alloc)?;
        let pass = self.passes.get_mut(0).ok_or(Refusal::Stranger)?;
        let receipt = self
            .range
            .put(rt, alloc, pass, &[key], &context, Kind::Live, value)?;
        Ok(receipt.number)
    }

    /// Makes a put whose context is stale, and returns the number of clocks in its refusal.
    fn put_stale<R: Wait>(&mut self, rt: &R, alloc: Global, key: u8) -> Result<u64, Refusal> {
        match self.put(rt, alloc, key) {
            Err(Refusal::StaleContext(held)) => Ok(held.as_slice().len() as u64),
            Ok(_) => Err(Refusal::Stale),
            other => other,
        }
    }

    /// Makes a put whose client hasn't read all that the node put, and returns the number of clocks in its refusal.
    fn put_unread<R: Wait>(&mut self, rt: &R, alloc: Global, key: u8) -> Result<u64, Refusal> {
        let (context, value) = put_parts(alloc)?;
        let pass = self.passes.get_mut(0).ok_or(Refusal::Stranger)?;
        match self
            .range
            .put_read(rt, alloc, pass, &[key], &context, Kind::Live, value)
        {
            Err(Refusal::StaleContext(held)) => Ok(held.as_slice().len() as u64),
            Err(refusal) => Err(refusal),
            Ok(_) => Err(Refusal::Stale),
        }
    }

    /// Accepts a copy, and returns its entry's number, or 100 if it is known.
    fn copy<R: Wait>(&mut self, rt: &R, alloc: Global, key: u8) -> Result<u64, Refusal> {
        let copy = version(alloc, 3)?;
        let pass = self.passes.get_mut(0).ok_or(Refusal::Stranger)?;
        match self
            .range
            .copy(rt, alloc, pass, Source::Copy, &[key], copy)?
        {
            Accepted::Taken(receipt) => Ok(receipt.number),
            Accepted::Known => Ok(100),
        }
    }

    /// Loads a row of two versions, and returns the number of versions taken.
    fn load<R: Wait>(&mut self, rt: &R, alloc: Global) -> Result<u64, Refusal> {
        let pass = self.passes.get_mut(0).ok_or(Refusal::Stranger)?;
        let loaded = self.range.load_rows(rt, alloc, pass, TWO_VERSIONS)?;
        Ok(loaded.taken)
    }

    /// Returns the number of versions of a key.
    fn get<R: Wait>(&mut self, rt: &R, alloc: Global, key: u8) -> Result<u64, Refusal> {
        let pass = self.passes.get_mut(0).ok_or(Refusal::Stranger)?;
        match self.range.get(rt, alloc, pass, &[key]) {
            Ok(versions) => Ok(versions.len() as u64),
            Err(unread) => Err(unread.into_refusal()),
        }
    }

    /// Hashes the dirty nodes, and returns their number.
    fn rehash<R: Wait>(&mut self, rt: &R, alloc: Global) -> Result<u64, Refusal> {
        let slot = self.slots.lend(rt)?;
        let report = self
            .range
            .rehash_worker(rt, alloc, &slot, &self.counter, 0, TURNS);
        self.slots.give_back(rt, slot);
        let report = report?;
        if report.clean && report.stale == 0 {
            Ok(report.installed)
        } else {
            Err(Refusal::Stale)
        }
    }

    /// Syncs over a link.
    fn sync<K: Link, R: Wait>(
        &mut self,
        rt: &R,
        alloc: Global,
        link: &mut K,
    ) -> Result<u64, Refusal> {
        let slot = self.slots.lend(rt)?;
        let synced = match self.passes.get_mut(1) {
            Some(pass) => self
                .range
                .sync_worker(rt, alloc, &slot, link, pass, 2, TURNS),
            None => Err(Refusal::Stranger),
        };
        self.slots.give_back(rt, slot);
        outcome(synced, link.failures())
    }

    /// Syncs at the moment over a link, with the results of `sync`.
    fn sync_at_moment<K: Link, R: Wait>(
        &mut self,
        rt: &R,
        alloc: Global,
        link: &mut K,
    ) -> Result<u64, Refusal> {
        let slot = self.slots.lend(rt)?;
        let synced = match self.passes.get_mut(1) {
            Some(pass) => self
                .range
                .sync_worker_at_moment(rt, alloc, &slot, link, pass, 2, TURNS),
            None => Err(Refusal::Stranger),
        };
        self.slots.give_back(rt, slot);
        outcome(synced, link.failures())
    }

    /// Keeps a moment and hashes it, and returns the number of its nodes that were dirty.
    fn hash_moment<R: Wait>(&mut self, rt: &R, alloc: Global) -> Result<u64, Refusal> {
        self.range.hold_moment(rt, alloc)?;
        let slot = self.slots.lend(rt)?;
        let report = self
            .range
            .moment_worker(rt, alloc, &slot, &self.counter, TURNS);
        self.slots.give_back(rt, slot);
        let report = report?;
        self.range.moment(rt, alloc)?;
        if report.snapshot.is_some() && report.stale == 0 {
            Ok(report.installed)
        } else {
            Err(Refusal::Stale)
        }
    }

    /// Keeps a version for the range's node, and returns the hint's id.
    fn keep<R: Wait>(&mut self, rt: &R, alloc: Global, key: u8) -> Result<u64, Refusal> {
        let mut version = version(alloc, 6)?;
        // A clone of a clock of two pairs takes memory.
        version.clock = Clock::from_pairs(alloc, &[(6, 1), (7, 1)])?;
        let key = Bytes::copy_of(alloc, &[key])?;
        let id = self.hints.keep(rt, OWNER, key, version)?;
        Ok(u64::from(id))
    }

    /// Returns the id of the first pending hint.
    fn next<R: Wait>(&mut self, rt: &R, alloc: Global) -> Result<u64, Refusal> {
        let hint = self.hints.next(rt, alloc, OWNER, 0)?;
        Ok(u64::from(hint.ok_or(Refusal::UnknownHint)?.id))
    }

    /// Delivers the pending hints, and returns the number of versions that the range journaled.
    fn deliver<R: Wait>(&mut self, rt: &R, alloc: Global) -> Result<u64, Refusal> {
        let Shared {
            range,
            passes,
            slots,
            hints,
            counter: _,
        } = self;
        let pass = passes.get_mut(1).ok_or(Refusal::Stranger)?;
        let slot = slots.lend(rt)?;
        let report = deliver(rt, alloc, &slot, hints, range, pass, OWNER, TURNS);
        slots.give_back(rt, slot);
        Ok(report?.delivered)
    }

    /// Renews the hints, and returns the numbers of pending and of delivered hints as the digits of a number.
    fn renew<R: Wait>(&mut self, rt: &R, alloc: Global) -> Result<u64, Refusal> {
        self.hints.renew(rt, alloc)?;
        let counts = self.hints.counts(rt);
        let pending = u64::from(counts.pending).saturating_mul(10);
        Ok(pending.saturating_add(u64::from(counts.delivered)))
    }
}

/// Returns a sync's numbers of asked nodes, accepted versions and bad answers as the digits of a number.
fn digits(report: &SyncReport) -> u64 {
    let mut number = 0u64;
    for count in [report.asked, report.accepted, report.bad] {
        number = number.saturating_mul(10).saturating_add(count);
    }
    number
}

/// Returns the digits of the report of a sync over a link with this number of failures. A refused growth in the link
/// makes it fail once, which is returned as NoMemory.
fn outcome(synced: Result<SyncReport, Refusal>, failures: u64) -> Result<u64, Refusal> {
    match (synced, failures) {
        (Ok(report), 0) => Ok(digits(&report)),
        (Err(Refusal::LinkLost), 1) => Err(Refusal::NoMemory),
        (Err(Refusal::NoMemory), 0) => Err(Refusal::NoMemory),
        _ => Err(Refusal::LinkLost),
    }
}

impl<L: Ledger, C: Ledger> Drop for Shared<L, C> {
    /// Keeps the fields out of the proofs of callers that drop the value.
    fn drop(self) {
        let Shared {
            range: _range,
            passes: _passes,
            slots: _slots,
            hints: _hints,
            counter: _counter,
        } = self;
    }
}
