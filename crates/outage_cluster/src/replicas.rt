//! The replicas of a range, in the order of its preference list.
ghost use Rattle.std.specs.Prelude.{◌≡◌, ◌≢◌, ◌<◌, ◌^◌, length, filter, map, option_map, IfOk, IfErr, IfSome, IfNone, OnOk, None};
ghost use Rattle.std.specs.Result.{result_map_both};
ghost use Rattle.vclock.specs.Answer.{Answers, AnswersAtOnce, AnswersOrNoMemory};
ghost use Rattle.vclock.specs.Outcome.{DoesOrNoMemory, DoesOrBreaksOff};
ghost use Rattle.vclock.specs.Clock.{clock_of};
ghost use Rattle.outage_cluster.specs.Acts.{takes, after_copy, clean_at, gets_hint, kept_fault, put_into};
ghost use Rattle.outage_cluster.specs.State.{at_home, home, replica_at, at_node, replicas_made};
ghost use Rattle.outage_cluster.specs.Homes.{AreOf, IsHome};
ghost use Rattle.outage_cluster.specs.Syncs.{IsReported, walk_fault, synced_with};
ghost use Rattle.range_store.specs.Config.{Config};
ghost use Rattle.outage_cluster.specs.Handoff.{owners_of};
ghost use Rattle.range_journal.specs.declared.journal.Source.{Source};
ghost use Rattle.range_store.specs.Store.{rows_now, accept, put};

use crate::home::Home;
use crate::replica::{Replica, gets_hint};
use key_ring::Ring;
use outage_commands::Put;
use range_journal::Source;
use range_state::{Accepted, RangeConfig, Receipt, Synced};
use std::alloc::{AllocError, Global};
use std::marker::Model;
use std::thread::Threads;
use vclock::{Bytes, Clock, Refusal};
use version_set::{Kind, Version};

/// The replicas of a range.
pub(crate) struct Replicas {
    config: RangeConfig,
    replicas: Vec<Replica>,
}

impl Model for Replicas {
    ghost use Rattle.std.specs.Prelude.{List};
    ghost use Rattle.outage_cluster.specs.Homes.{AreOf};
    ghost use Rattle.outage_cluster.specs.State.{Replica};

    ghost Value = { List Replica };

    ghost view = { λ r. r.replicas.items };

    ghost invariant = { λ r. AreOf r.config r.replicas.items };
}

/// The outcome of a put and its copies.
#[derive(Drop)]
pub(crate) struct Sent {
    /// The entry of the put.
    pub(crate) receipt: Receipt,
    /// The number of replicas that accepted a copy or knew it.
    pub(crate) copied: u64,
    /// The nodes that are to have a hint of it.
    pub(crate) owners: Vec<u16>,
}

impl Replicas {
    /// Makes the replicas of a range, which have accepted nothing: the first nodes of its preference list.
    pub(crate) fn new(
        alloc: Global,
        ring: &Ring,
        config: RangeConfig,
    ) -> Result<Replicas, AllocError>
        requires { config.range < 2 ^ ring.now.bits }
        ensures { IfOk result (λ replicas. replicas ≡ replicas_made ring.now config config.range) }
    {
        let mut replicas = Vec::with_capacity(alloc, ring.copies())?;
        // Called only for its clause `valid`: each node is at least 1.
        let _valid = ring.nodes();
        for place in 0..ring.copies() {
            let node = ring.preference(config.range(), place);
            replicas.push(Replica::new(node, config))?;
        }
        Ok(Replicas { config, replicas })
    }

    /// Finds the replica at a node.
    pub(crate) fn find(&self, node: u64) -> Option<&Replica>
        ensures { option_map (λ r. r.now.range) result ≡ home node self.now }
    {
        let place = place_of(&self.replicas, node)?;
        Some(&self.replicas[place])
    }

    /// Finds the home of a node's replica, if these are the replicas of the range of that number.
    pub(crate) fn home_of(&self, node: u64, range: usize) -> Result<Home, Refusal>
        ensures { AnswersAtOnce result (kept_fault (home node self.now))
            (λ h. (h.node ≡ node) × (h.range ≡ range) × IsHome h.node self.now h.place) }
    {
        let Some(place) = place_of(&self.replicas, node) else {
            return Err(Refusal::OtherRange);
        };
        let node = self.replicas[place].node();
        Ok(Home { node, range, place })
    }

    /// Makes every node of the tree of a replica clean, and returns the number of those that were dirty.
    pub(crate) fn rehash(
        &mut self,
        rt: &(impl Threads + Sync),
        alloc: Global,
        at: Home,
    ) -> Result<u64, Refusal>
        requires { IsHome at.node self.old at.place }
        ensures { DoesOrBreaksOff result self.old self.new (at_home at.node clean_at self.old) }
    {
        self.replicas[at.place].rehash(rt, alloc)
    }

    /// Makes a node fetch the versions that another has, in a session with it.
    pub(crate) fn sync(&mut self, alloc: Global, own: Home, from: Home) -> Result<Synced, Refusal>
        requires own { IsHome own.node self.old own.place }
        requires from { IsHome from.node self.old from.place }
        ensures answers { AnswersOrNoMemory result
            (walk_fault (home from.node self.old) (replica_at own.node self.old))
            (λ a. IfSome (home from.node self.old) (λ h. IfSome (replica_at own.node self.old) (λ r. IsReported r (rows_now h) a))) }
        ensures ok { OnOk result (IfSome (home from.node self.old) (λ h.
            self.new ≡ at_node own.node (synced_with (rows_now h)) self.old)) }
        ensures err { IfErr result (λ e. e ≢ Refusal.NoMemory → self.new ≡ self.old) }
    {
        let other = self.replicas[from.place].snapshot(alloc)?;
        self.replicas[own.place].sync_with(alloc, from.node, &other)
    }

    /// Lists the nodes that are to have a hint of a put, since they are down, in the order of the preference list.
    fn owners(&self, alloc: Global, down: &[u64], put: &Put) -> Result<Vec<u16>, AllocError>
        ensures { IfOk result (λ owners. owners.items ≡ owners_of (gets_hint down.now put.now.node put.now.lose) self.now) }
    {
        self.replicas
            .iter()
            .map(|replica| replica.node())
            .filter(|other| gets_hint(down, put.node, put.lose.as_slice(), *other))
            .collect(alloc)
    }

    /// Offers a node a version that another node kept for it as a hint.
    pub(crate) fn offer(
        &mut self,
        alloc: Global,
        node: u64,
        key: &[u8],
        version: Version,
    ) -> Result<Accepted, Refusal>
        ensures { DoesOrNoMemory result self.old self.new (at_home node
            (λ h. accept h 0 Source.Hint key.now version) self.old) }
    {
        let Some(place) = place_of(&self.replicas, node) else {
            return Err(Refusal::OtherRange);
        };
        self.replicas[place].accept(alloc, Source::Hint, key, version)
    }

    /// Puts a value at a replica's node.
    fn enter(
        &mut self,
        alloc: Global,
        at: Home,
        key: &[u8],
        context: &Clock,
        kind: Kind,
        value: Bytes,
    ) -> Result<Receipt, Refusal>
        requires { IsHome at.node self.old at.place }
        ensures { DoesOrNoMemory result self.old self.new (at_home at.node
            (λ h. put h 0 at.node key.now context.now kind value) self.old) }
    {
        self.replicas[at.place].put(alloc, key, context, kind, value)
    }

    /// Puts a value at a node, and sends a copy to each other replica that is up and is to have one. A replica that
    /// refuses its copy is skipped.
    pub(crate) fn put(
        &mut self,
        alloc: Global,
        context: &Clock,
        down: &[u64],
        put: Put,
    ) -> Result<Sent, Refusal>
        requires { context.now ≡ clock_of put.context }
        ensures puts { DoesOrBreaksOff (result_map_both (λ done. (done.receipt, done.copied)) (λ e. e) result)
            self.old self.new (put_into down.now put self.old) }
        ensures owners { IfOk result (λ done. done.owners.items
            ≡ owners_of (gets_hint down.now put.node put.lose) self.old) }
    {
        let at = self.home_of(put.node, usize::from(self.config.range()))?;
        let owners = self.owners(alloc, down, &put)?;
        let Put {
            node,
            key,
            kind,
            value,
            lose,
            ..
        } = put;
        let receipt = self.enter(alloc, at, key.as_slice(), context, kind, value)?;
        let lose = lose.as_slice();
        let copied = send_to(alloc, &mut self.replicas, down, node, lose, &receipt)?;
        Ok(Sent {
            receipt,
            copied,
            owners,
        })
    }
}

/// Sends the replicas a copy of an entry, and returns the number of those that accepted it or knew it.
fn send_to(
    alloc: Global,
    replicas: &mut [Replica],
    down: &[u64],
    node: u64,
    lose: &[u64],
    entry: &Receipt,
) -> Result<u64, Refusal>
    ensures count { Answers result None (λ n. n ≡ length (filter (takes down.now node lose.now entry.now) replicas.old)) }
    ensures all { OnOk result (replicas.new ≡ map (after_copy down.now node lose.now entry.now) replicas.old) }
    ensures config { (config : Config) → AreOf config replicas.old → AreOf config replicas.new }
{
    let mut copied = 0;
    for i in 0..replicas.len() {
        copied += u64::from(replicas[i].send(alloc, down, node, lose, entry)?);
    }
    Ok(copied)
}

/// Finds the place of a node's replica.
fn place_of(replicas: &[Replica], node: u64) -> Option<usize>
    ensures some { IfSome result (λ i. IsHome node replicas.now i) }
    ensures none { IfNone result (replica_at node replicas.now ≡ None) }
{
    for place in 0..replicas.len() {
        if u64::from(replicas[place].node()) == node {
            return Some(place);
        }
    }
    None
}

impl Drop for Replicas {
    /// Keeps the fields out of the proofs of callers that drop replicas.
    fn drop(self) {
        let Replicas {
            config: _config,
            replicas: _replicas,
        } = self;
    }
}
