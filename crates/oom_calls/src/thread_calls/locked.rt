//! A locked range.
ghost use Rattle.std.specs.Prelude.{◌≡◌};

use crate::thread_calls::calls::LockedCall;
use crate::thread_calls::closing::{Closing, close_locked, renew_locked};
use crate::thread_calls::partner::Partner;
use crate::thread_calls::versions::{TWO_VERSIONS, put_parts, version};
use caller_pass::{LockedRange, Pass, open_passes};
use key_ring::HashedKey;
use range_journal::Source;
use range_state::{Accepted, RangeConfig, RangeState};
use rehash::run_job;
use std::alloc::Global;
use std::sync::ledger::{Blank, Ledger};
use tree_nodes::{Text, hash};
use vclock::Refusal;
use version_set::Kind;
use walk_messages::Ask;

/// More turns than a tree of format 1 has nodes.
const TURNS: u64 = 300;

/// A locked range with the passes of its two seats. The first pass writes and reads, and the second one syncs.
pub(crate) struct Locked<L: Ledger> {
    range: LockedRange<L>,
    passes: Vec<Pass<L>>,
}

impl<L: Ledger> Locked<L> {
    /// Opens a range of format 1 with all keys that has accepted nothing.
    pub(crate) fn open(alloc: Global, blank: Blank) -> Result<Locked<L>, Refusal>
        requires { (blank.name ≡ L.name) × (blank.parts ≡ L.parts) × (blank.parts ≡ 2) }
    {
        let config = RangeConfig::new(1, 0, 0, 100).ok_or(Refusal::BadRing)?;
        let state = RangeState::new(alloc, config)?;
        let (book, passes) = open_passes::<L>(blank, alloc, 2)?;
        let range = LockedRange::new(state, book);
        Ok(Locked { range, passes })
    }

    /// Closes the range.
    pub(crate) fn close(self, alloc: Global) -> Result<Closing<L>, Refusal> {
        let Locked { range, passes } = self;
        close_locked(alloc, range, passes)
    }

    /// Renews the range, and closes it.
    pub(crate) fn renew_range(self, alloc: Global) -> Result<Closing<L>, Refusal> {
        let Locked { range, passes } = self;
        renew_locked(alloc, range, passes)
    }

    /// Makes a call, and returns a number for its result.
    pub(crate) fn make(
        &mut self,
        alloc: Global,
        partner: &Partner,
        call: LockedCall,
    ) -> Result<u64, Refusal> {
        match call {
            LockedCall::Hash => self.hash(alloc),
            LockedCall::Snapshot => Ok(u64::from(self.range.snapshot(alloc)?.format().number())),
            LockedCall::OpenSession => {
                let offer = partner.snapshot.offer(1);
                self.range.open_session(alloc, 2, offer)
            }
            LockedCall::TakeAnswer => self.take_answer(alloc, partner),
            LockedCall::Put(key) => self.put(alloc, key),
            LockedCall::StalePut(key) => self.put_stale(alloc, key),
            LockedCall::UnreadPut(key) => self.put_unread(alloc, key),
            LockedCall::Accept(key) => self.accept(alloc, key),
            LockedCall::Index => self.index(),
            LockedCall::Get(key) => self.get(alloc, key),
            LockedCall::Read(key) => self.read(alloc, key),
            LockedCall::Look(key) => Ok(self.range.store().get(alloc, &[key])?.len() as u64),
            LockedCall::HoldMoment => {
                self.range.hold_moment(alloc)?;
                Ok(0)
            }
            LockedCall::HashMoment => self.hash_moment(alloc),
            LockedCall::Moment => Ok(u64::from(self.range.moment(alloc)?.format().number())),
            LockedCall::OpenAtMoment => {
                let offer = partner.snapshot.offer(1);
                self.range.open_session_at_moment(alloc, 2, offer)
            }
            LockedCall::Load => self.load(alloc),
            LockedCall::Migrate => self.migrate(alloc),
        }
    }

    /// Hashes the dirty nodes, and returns their number.
    fn hash(&mut self, alloc: Global) -> Result<u64, Refusal> {
        let mut count = 0u64;
        for _ in 0..TURNS {
            let Some(job) = self.range.take_job(alloc, 0)? else {
                break;
            };
            let node = job.node();
            self.range.install(node, &run_job(job))?;
            count = count.saturating_add(1);
        }
        Ok(count)
    }

    /// Hashes the dirty nodes of the moment, and returns their number.
    fn hash_moment(&mut self, alloc: Global) -> Result<u64, Refusal> {
        let mut count = 0u64;
        for _ in 0..TURNS {
            let Some(job) = self.range.take_moment_jobs(alloc, 1)?.pop() else {
                break;
            };
            let node = job.node();
            self.range.install_moment(node, &run_job(job))?;
            count = count.saturating_add(1);
        }
        Ok(count)
    }

    /// Takes the partner's text of the first outstanding node, and returns the number of versions accepted.
    fn take_answer(&mut self, alloc: Global, partner: &Partner) -> Result<u64, Refusal> {
        let node = self.range.outstanding(0)?.ok_or(Refusal::NotAsked)?;
        let text = partner.snapshot.answer(alloc, Ask { offer: 1, node })?;
        let hashed = hash(Text::from(text));
        let pass = self.passes.get_mut(1).ok_or(Refusal::Stranger)?;
        let (taken, _next) = self.range.take_answer_next(alloc, pass, 0, node, hashed)?;
        Ok(taken.receipts)
    }

    /// Puts a value, and returns its entry's number.
    fn put(&mut self, alloc: Global, key: u8) -> Result<u64, Refusal> {
        let (context, value) = put_parts(alloc)?;
        let pass = self.passes.get_mut(0).ok_or(Refusal::Stranger)?;
        let receipt = self
            .range
            .put(alloc, pass, 1, &[key], &context, Kind::Live, value)?;
        Ok(receipt.number)
    }

    /// Makes a put whose context is stale, and returns the number of clocks in its refusal.
    fn put_stale(&mut self, alloc: Global, key: u8) -> Result<u64, Refusal> {
        match self.put(alloc, key) {
            Err(Refusal::StaleContext(held)) => Ok(held.as_slice().len() as u64),
            Ok(_) => Err(Refusal::Stale),
            other => other,
        }
    }

    /// Makes a put whose client hasn't read all that the node put, and returns the number of clocks in its refusal.
    fn put_unread(&mut self, alloc: Global, key: u8) -> Result<u64, Refusal> {
        let (context, value) = put_parts(alloc)?;
        let pass = self.passes.get_mut(0).ok_or(Refusal::Stranger)?;
        match self
            .range
            .put_read(alloc, pass, 1, &[key], &context, Kind::Live, value)
        {
            Err(Refusal::StaleContext(held)) => Ok(held.as_slice().len() as u64),
            Err(refusal) => Err(refusal),
            Ok(_) => Err(Refusal::Stale),
        }
    }

    /// Accepts a copy, and returns its entry's number, or 100 if it is known.
    fn accept(&mut self, alloc: Global, key: u8) -> Result<u64, Refusal> {
        let copy = version(alloc, 3)?;
        let pass = self.passes.get_mut(0).ok_or(Refusal::Stranger)?;
        match self.range.accept(alloc, pass, Source::Copy, &[key], copy)? {
            Accepted::Taken(receipt) => Ok(receipt.number),
            Accepted::Known => Ok(100),
        }
    }

    /// Loads a row of two versions, and returns the number of versions taken.
    fn load(&mut self, alloc: Global) -> Result<u64, Refusal> {
        let pass = self.passes.get_mut(0).ok_or(Refusal::Stranger)?;
        let loaded = self.range.load_rows(alloc, pass, TWO_VERSIONS)?;
        Ok(loaded.taken)
    }

    /// Indexes a pass, which is never refused, and returns the number of its receipts.
    fn index(&mut self) -> Result<u64, Refusal> {
        let pass = self.passes.get_mut(0).ok_or(Refusal::Stranger)?;
        pass.index();
        Ok(pass.receipts().len() as u64)
    }

    /// Returns the number of versions of a key, by `get`.
    fn get(&mut self, alloc: Global, key: u8) -> Result<u64, Refusal> {
        let pass = self.passes.get_mut(0).ok_or(Refusal::Stranger)?;
        Ok(self.range.get(alloc, pass, &[key])?.len() as u64)
    }

    /// Returns the number of versions of a key, by `read`.
    fn read(&mut self, alloc: Global, key: u8) -> Result<u64, Refusal> {
        let pass = self.passes.get_mut(0).ok_or(Refusal::Stranger)?;
        match self.range.read(alloc, pass, &HashedKey::new(&[key])) {
            Ok(versions) => Ok(versions.len() as u64),
            Err(unread) => Err(unread.into_refusal()),
        }
    }

    /// Migrates the range to format 2, and returns the format's number.
    fn migrate(&mut self, alloc: Global) -> Result<u64, Refusal> {
        self.range.migrate(alloc)?;
        Ok(u64::from(self.range.store().config().format().number()))
    }
}

impl<L: Ledger> Drop for Locked<L> {
    /// Keeps the fields out of the proofs of callers that drop the value.
    fn drop(self) {
        let Locked {
            range: _range,
            passes: _passes,
        } = self;
    }
}
