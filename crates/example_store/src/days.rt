//! The days of a range, and their output.
ghost use Rattle.std.specs.Prelude.{◌≡◌, ◌^◌, ◌<◌};

use crate::checkpoint::Checkpoint;
use crate::client::{put_unread, read, update, update_each};
use crate::fault::Fault;
use crate::handoff::Health;
use crate::links::{sync_over_channel, sync_over_deeds};
use crate::replica::Replica;
use crate::rounds::put_beside_rehash;
use crate::slots::report_latency;
use crate::store::Store;
use key_ring::Ring;
use ring_node::{Deed, SyncReport};
use std::alloc::Global;
use std::io;
use std::marker::Brand;
use std::sync::Wait;
use std::sync::ledger::{Blank, Ledger};
use std::thread::Threads;
use vclock::Refusal;

/// The offset of a byte of the root's text in its answer: after the 16 bytes of the head and the first byte of the
/// text.
const BYTE_OF_THE_TEXT: usize = 17;

/// The number of the node under which a lost replica returns: one that was never used.
const RETURNED: u16 = 3;

/// Runs the three days of a range, from its opening to its close, with new ledgers.
pub(crate) fn run_days<R: Threads + Wait + Print + Sync>(
    rt: &R,
    alloc: Global,
    ring: &Ring,
    range: u16,
) -> Result<(), Fault>
    requires { range < 2 ^ ring.now.bits }
{
    let (first, second, third) = (Blank::new(3), Blank::new(3), Blank::new(3));
    let slots = Blank::new(1_024);
    run_with::<Brand, Brand, Brand, Brand, R>(rt, alloc, ring, range, first, second, third, slots)
}

/// Runs the days of a range with these ledgers: of both replicas, of the one that returns, and of the slots.
fn run_with<A, B, D, C, R>(
    rt: &R,
    alloc: Global,
    ring: &Ring,
    range: u16,
    first: Blank,
    second: Blank,
    third: Blank,
    slots: Blank,
) -> Result<(), Fault>
where
    A: Ledger + Send + Sync,
    B: Ledger + Send + Sync,
    D: Ledger + Send + Sync,
    C: Ledger + Send + Sync,
    R: Threads + Wait + Print + Sync,
    requires range { range < 2 ^ ring.now.bits }
    requires first { (first.name ≡ A.name) × (first.parts ≡ A.parts) × (first.parts ≡ 3) }
    requires second { (second.name ≡ B.name) × (second.parts ≡ B.parts) × (second.parts ≡ 3) }
    requires third { (third.name ≡ D.name) × (third.parts ≡ D.parts) × (third.parts ≡ 3) }
    requires slots { (slots.name ≡ C.name) × (slots.parts ≡ C.parts) × (slots.parts ≡ 1024) }
{
    let mut store = Store::<A, B, C>::open(rt, alloc, ring, range, first, second, slots)?;
    store.first_day(rt)?;
    let mut store = store.renew(rt)?;
    store.second_day(rt)?;
    let store = store.renew(rt)?;
    store.third_day::<D, R>(rt, third)?;
    store.close(rt)
}

impl<A, B, C> Store<A, B, C>
where
    A: Ledger + Send + Sync,
    B: Ledger + Send + Sync,
    C: Ledger + Send + Sync,
{
    /// Does everything of the first day, in order.
    fn first_day<R: Threads + Wait + Print + Sync>(&mut self, rt: &R) -> Result<(), Fault> {
        self.morning(rt)?;
        self.outage(rt)?;
        self.partition(rt)?;
        self.sync_second(rt)?;
        self.sync_first(rt)?;
        self.merge(rt)?;
        self.evening(rt)
    }

    /// Puts a value for each cart at the first replica, and sends each version to the second one.
    fn put_carts<R: Wait>(&mut self, rt: &R, value: &[u8], health: Health) -> Result<(), Refusal> {
        let (alloc, first, second) = (self.alloc, &mut self.first, &mut self.second);
        for cart in &self.keys.carts {
            let key = cart.as_bytes();
            let version = update(rt, alloc, &first.range, &mut first.client, key, value)?;
            first.send(rt, alloc, second, health, key, version)?;
        }
        Ok(())
    }

    /// Puts each cart, then tries to put one without a read.
    fn morning<R: Wait + Print>(&mut self, rt: &R) -> Result<(), Fault> {
        self.put_carts(rt, b"empty", Health::Up)?;
        tell_count(rt, "morning", self.keys.carts.len(), "carts put and copied")?;
        let Some(cart) = self.keys.carts.first() else {
            return Ok(());
        };
        let (range, pass) = (&self.first.range, &mut self.first.client);
        let held = put_unread(rt, self.alloc, range, pass, cart.as_bytes(), b"empty")?;
        if let Some(held) = held {
            println!(rt; "  morning: {cart} put without a read: StaleContext, {held} held")?;
        }
        Ok(())
    }

    /// Keeps hints while the second node is down, and delivers them when it is up again.
    fn outage<R: Wait + Print>(&mut self, rt: &R) -> Result<(), Fault> {
        self.put_carts(rt, b"a book", Health::Down)?;
        tell_count(rt, "outage", self.keys.carts.len(), "hints kept")?;
        let second = &mut self.second;
        let report = self.first.hand_off(rt, self.alloc, &self.slots, second)?;
        println!(rt;
            "  outage: {} delivered, {} known",
            report.delivered, report.known
        )?;
        Ok(())
    }

    /// Puts at both nodes while no message reaches the other node.
    fn partition<R: Threads + Wait + Print + Sync>(&mut self, rt: &R) -> Result<(), Fault> {
        let (range, pass) = (&self.first.range, &mut self.first.client);
        put_beside_rehash(rt, self.alloc, &self.slots, range, pass, &self.keys.orders)?;
        tell_count(
            rt,
            "partition",
            self.keys.orders.len(),
            "orders put during a rehash",
        )?;
        self.put_apart(rt)?;
        tell_count(
            rt,
            "partition",
            self.keys.carts.len(),
            "carts put at both nodes",
        )?;
        let slots = report_latency(rt, &self.slots, 0, 80_000)?;
        println!(rt; "  partition: a put took 80,000 microseconds, so {slots} slots")?;
        Ok(())
    }

    /// Puts each cart at both nodes, with different values.
    fn put_apart<R: Wait>(&mut self, rt: &R) -> Result<(), Refusal> {
        let (range, pass) = (&self.first.range, &mut self.first.client);
        update_each(rt, self.alloc, range, pass, &self.keys.carts, b"two books")?;
        let (range, pass) = (&self.second.range, &mut self.second.client);
        update_each(
            rt,
            self.alloc,
            range,
            pass,
            &self.keys.carts,
            b"a book, a lamp",
        )
    }

    /// Syncs the second replica with the first one, over a channel.
    fn sync_second<R: Threads + Wait + Print + Sync>(&mut self, rt: &R) -> Result<(), Fault> {
        let offer = self.first.publish(rt, self.alloc, &self.slots)?;
        println!(rt; "  sync: offer {} published", offer.offer)?;
        let (slots, second) = (&self.slots, &mut self.second);
        let report = sync_over_channel(rt, self.alloc, slots, second, &self.first)?;
        tell(rt, "channel", &report)?;
        Ok(())
    }

    /// Syncs the first replica with the second one: over a link that loses a call, and over one that changes a byte.
    fn sync_first<R: Wait + Print>(&mut self, rt: &R) -> Result<(), Fault> {
        self.second.publish(rt, self.alloc, &self.slots)?;
        let (alloc, slots, first, second) = (
            self.alloc,
            &self.slots,
            &mut self.first,
            &self.second,
        );
        tell_loss(
            rt,
            sync_over_deeds(rt, alloc, slots, first, second, &[Deed::Lost]),
        )?;
        let deeds = [Deed::Pass, Deed::Change(BYTE_OF_THE_TEXT)];
        let report = sync_over_deeds(rt, alloc, slots, first, second, &deeds)?;
        tell(rt, "forging link", &report)?;
        Ok(())
    }

    /// Merges the concurrent versions of each cart.
    fn merge<R: Wait + Print>(&mut self, rt: &R) -> Result<(), Fault> {
        for cart in &self.keys.carts {
            let (range, pass) = (&self.first.range, &mut self.first.client);
            let found = read(rt, self.alloc, range, pass, cart.as_bytes())?;
            println!(rt; "  merge: {} concurrent versions of {cart}", found.len())?;
        }
        self.put_carts(rt, b"two books, a lamp", Health::Up)?;
        Ok(())
    }

    /// Migrates both replicas to format 2, and ends their day.
    fn evening<R: Wait + Print>(&self, rt: &R) -> Result<(), Fault> {
        self.first.range.migrate(rt, self.alloc)?;
        self.second.range.migrate(rt, self.alloc)?;
        println!(rt; "  evening: both replicas migrated to format 2")?;
        self.end_day(rt)
    }

    /// Hashes the trees of both replicas, and compares their roots.
    fn end_day<R: Wait + Print>(&self, rt: &R) -> Result<(), Fault> {
        let root = self.first.end_day(rt, self.alloc, &self.slots)?;
        let other = self.second.end_day(rt, self.alloc, &self.slots)?;
        let roots = if root == other { "equal" } else { "different" };
        println!(rt; "  evening: {roots} roots")?;
        Ok(())
    }

    /// Puts each cart again.
    fn second_day<R: Wait + Print>(&mut self, rt: &R) -> Result<(), Fault> {
        self.put_carts(rt, b"a pen", Health::Up)?;
        tell_count(
            rt,
            "second day",
            self.keys.carts.len(),
            "carts put and copied",
        )?;
        self.end_day(rt)
    }

    /// Saves the rows of the first replica, and loads them like a restarted process: into a new replica, at a node
    /// number that was never used.
    fn third_day<D: Ledger, R: Wait + Print>(&self, rt: &R, blank: Blank) -> Result<(), Fault>
        requires ledger { (blank.name ≡ D.name) × (blank.parts ≡ D.parts) × (blank.parts ≡ 3) }
    {
        let mut third = self.restart::<D, R>(rt, blank)?;
        let (range, pass) = (&third.range, &mut third.client);
        update_each(rt, self.alloc, range, pass, &self.keys.carts, b"a lamp")?;
        let entries = third.close(self.alloc)?;
        println!(rt; "  third day: {entries} entries at node {RETURNED}, all receipts settled")?;
        Ok(())
    }

    /// Saves the rows of the first replica, and returns a new replica that has loaded them.
    fn restart<D: Ledger, R: Wait + Print>(&self, rt: &R, blank: Blank) -> Result<Replica<D>, Fault>
        requires ledger { (blank.name ≡ D.name) × (blank.parts ≡ D.parts) × (blank.parts ≡ 3) }
    {
        let saved = self.first.save(rt, self.alloc)?;
        let config = self.first.range.config(rt);
        let mut third = Replica::<D>::open(self.alloc, blank, RETURNED, config)?;
        self.load(rt, &saved, &mut third)?;
        Ok(third)
    }

    /// Loads saved rows into a new replica, and compares the roots.
    fn load<D: Ledger, R: Wait + Print>(
        &self,
        rt: &R,
        saved: &Checkpoint,
        third: &mut Replica<D>,
    ) -> Result<(), Fault> {
        let loaded = saved.load(rt, self.alloc, &third.range, &mut third.peer)?;
        let root = third.end_day(rt, self.alloc, &self.slots)?;
        let roots = if root == saved.root() {
            "its root"
        } else {
            "another root"
        };
        println!(rt; "  third day: {loaded} versions loaded at node {RETURNED}, with {roots}")?;
        Ok(())
    }
}

/// Prints the number of things done at a time of the days.
fn tell_count<R: Print>(rt: &R, time: &str, count: usize, things: &str) -> io::Result<()> {
    println!(rt; "  {time}: {count} {things}")
}

/// Prints the end of a sync over a link that loses a call.
fn tell_loss<R: Print>(rt: &R, end: Result<SyncReport, Refusal>) -> Result<(), Fault> {
    match end {
        Err(Refusal::LinkLost) => println!(rt; "  sync over a lost link: LinkLost")?,
        Err(refusal) => return Err(Fault::Refused(refusal)),
        Ok(report) => tell(rt, "lost link", &report)?,
    }
    Ok(())
}

/// Prints the report of a sync worker.
fn tell<R: Print>(rt: &R, link: &str, report: &SyncReport) -> io::Result<()> {
    println!(rt;
        "  sync over a {link}: {:?}, {} nodes asked, {} accepted, {} known, {} bad",
        report.state, report.asked, report.accepted, report.known, report.bad
    )
}
