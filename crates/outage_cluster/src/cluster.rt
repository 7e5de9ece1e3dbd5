//! The cluster that a script changes: a ring, its nodes and their hints, and the replicas of its ranges.
ghost use Rattle.std.specs.Prelude.{◌≡◌, ◌<◌, ◌^◌, ◌==◌, ⊤, [], length, position, replicate, None, is_some, option_map, IsTrue, IfOk, IfSome, OnOk};
ghost use Rattle.std.specs.List.{list_all, AllByRecursion};
ghost use Rattle.vclock.specs.Answer.{Answers, AnswersAtOnce, AnswersOrNoMemory};
ghost use Rattle.vclock.specs.Clock.{clock_of};
ghost use Rattle.vclock.specs.Outcome.{DoesOrBreaksOff};
ghost use Rattle.vclock.specs.Bytes.{key_fault};
ghost use Rattle.version_set.specs.Kind.{value_fault};
ghost use Rattle.outage_cluster.specs.Acts.{put_fault, down_act, down_fault, held_at, is_tree_node, keepers_fault, kept_fault, range_on, key_act, node_act, nodes_fault, put_act, range_fault, rehash_at, ring_nodes_fault, row_answer, sync_at, held_text, up_act};
ghost use Rattle.outage_cluster.specs.Handoff.{carrier_of, deliver_at, hinted, up_nodes};
ghost use Rattle.outage_cluster.specs.Homes.{IsHomeIn, IsHomeOf};
ghost use Rattle.outage_cluster.specs.State.{first_config, first_ring, hints_of, home, is_down, is_member, made, replicas_of};

use crate::answer::CommandAnswer;
use crate::handoff::{deliver_all, keep_all};
use crate::home::Home;
use crate::replica::Replica;
use crate::replicas::{Replicas, Sent};
use hint_store::HintStore;
use key_ring::Ring;
use outage_commands::{Get, Put, Rehash, ShowNode, SyncFrom};
use range_state::{RangeConfig, Receipt};
use row_bytes::{Row, write_row};
use std::alloc::{AllocError, Global};
use std::marker::Model;
use std::thread::Threads;
use tree_nodes::{NodeAt, Text, tree_depth};
use vclock::limits::ENTRIES_MAX;
use vclock::{Bytes, Clock, Format, Refusal, check_key};
use version_set::VersionSet;

/// A ring: its nodes, the hints that they keep, and the replicas of its ranges.
pub(crate) struct Cluster {
    ring: Ring,
    format: Format,
    down: Vec<u64>,
    carriers: Vec<HintStore>,
    ranges: Vec<Replicas>,
}

impl Model for Cluster {
    ghost use Rattle.std.specs.Prelude.{◌≡◌, ◌^◌, length};
    ghost use Rattle.outage_cluster.specs.State.{Cluster};

    ghost Value = { Cluster };

    ghost view = { λ c. record { ring = c.ring; format = c.format; down = c.down.items; hints = c.carriers.items; replicas = c.ranges.items } };

    ghost invariant = { λ c. (length c.ranges.items ≡ 2 ^ c.ring.bits) × (length c.carriers.items ≡ length c.ring.nodes) };
}

impl Cluster {
    /// Makes the cluster at the start of a script: a ring of node 1, with one range.
    pub(crate) fn start(alloc: Global) -> Result<Cluster, Refusal>
        ensures { Answers result None (λ cluster. cluster ≡ made first_ring first_config) }
    {
        let config = RangeConfig::new(1, 0, 0, ENTRIES_MAX).unwrap();
        let ring = Ring::new(alloc, 0, &[1], 1)?;
        Ok(Cluster::new(alloc, ring, config)?)
    }

    /// Makes the cluster of a ring. Its nodes are up, have no hints, and have accepted nothing.
    #[tactic(auto, unfolding(crate::specs::State::made))]
    pub(crate) fn new(alloc: Global, ring: Ring, config: RangeConfig) -> Result<Cluster, AllocError>
        requires { config.bits ≡ ring.bits }
        ensures { IfOk result (λ cluster. cluster ≡ made ring config) }
    {
        let carriers = empty_stores(alloc, ring.nodes().len())?;
        let mut ranges = Vec::with_capacity(alloc, usize::from(ring.ranges()))?;
        for range in 0..ring.ranges() {
            ranges.push(Replicas::new(alloc, &ring, config.for_range(range))?)?;
        }
        Ok(Cluster {
            ring,
            format: config.format(),
            down: Vec::new(alloc),
            carriers,
            ranges,
        })
    }

    /// Returns the format of the ring.
    pub(crate) fn format(&self) -> Format
        ensures { result ≡ self.now.format }
    {
        self.format
    }

    /// Puts a value at a node, sends the copies and keeps the hints. Returns the clock and the number of the entry.
    pub(crate) fn put(&mut self, alloc: Global, put: Put) -> Result<CommandAnswer, Refusal>
        ensures { DoesOrBreaksOff result self.old self.new (put_act put self.old) }
    {
        let context = self.check_put(alloc, &put)?;
        let range = self.ring.range_of(put.key.as_slice());
        let sent = self.ranges[usize::from(range)].put(alloc, &context, &self.down, put)?;
        let hinted = self.keep_hints(range, &sent.owners, &sent.receipt)?;
        let Sent {
            receipt,
            copied,
            ..
        } = sent;
        let Receipt {
            number,
            version,
            ..
        } = receipt;
        Ok(CommandAnswer::Put {
            clock: version.clock,
            copied,
            hinted,
            number,
        })
    }

    /// Keeps a hint of an entry for each of these owners at the carrier of a range, and returns the number that were
    /// kept.
    fn keep_hints(&mut self, range: u16, owners: &[u16], entry: &Receipt) -> Result<u64, Refusal>
        requires { range < 2 ^ self.old.ring.bits }
        ensures { Answers result None
            (λ n. (n, self.new) ≡ hinted entry.now owners.now self.old (carrier_of self.old range)) }
    {
        let Some(carrier) = self.carrier_of(range) else {
            return Ok(0);
        };
        match self.place_of(u64::from(carrier)) {
            Some(place) => keep_all(&mut self.carriers[place], owners, entry),
            None => Ok(0),
        }
    }

    /// Finds the node that keeps a range's hints: the first live one after its replicas in the preference list.
    #[tactic(auto, using(crate::proofs::ListSteps::find_end))]
    fn carrier_of(&self, range: u16) -> Option<u16>
        requires { range < 2 ^ self.now.ring.bits }
        ensures { result ≡ carrier_of self.now range }
    {
        for place in self.ring.copies()..self.ring.nodes().len() {
            let node = self.ring.preference(range, place);
            if !self.is_down(u64::from(node)) {
                return Some(node);
            }
        }
        None
    }

    /// Finds the place of a node in the ring.
    fn place_of(&self, node: u64) -> Option<usize>
        ensures { result ≡ position (λ m. m == node) self.now.ring.nodes }
    {
        self.ring.nodes().iter().position(|n| u64::from(*n) == node)
    }

    /// Takes a node down.
    #[tactic(auto, unfolding(crate::specs::Acts::down_act))]
    pub(crate) fn take_down(&mut self, node: u64) -> Result<CommandAnswer, Refusal>
        ensures { DoesOrBreaksOff result self.old self.new (down_act node self.old) }
    {
        self.check_ring_nodes(node, &[])?;
        if !self.is_down(node) {
            self.down.push(node)?;
        }
        Ok(CommandAnswer::Up { node, up: false })
    }

    /// Brings a node up.
    #[tactic(auto, unfolding(crate::specs::Acts::up_act))]
    pub(crate) fn bring_up(&mut self, node: u64) -> Result<CommandAnswer, Refusal>
        ensures { DoesOrBreaksOff result self.old self.new (up_act node self.old) }
    {
        self.check_ring_nodes(node, &[])?;
        self.down.retain(|member| *member != node);
        Ok(CommandAnswer::Up { node, up: true })
    }

    /// Returns true if a node is down.
    fn is_down(&self, node: u64) -> bool
        ensures { result ≡ is_down self.now node }
    {
        self.down.contains(&node)
    }

    /// Lists the nodes that are up, in the order of the ring.
    fn up_nodes(&self, alloc: Global) -> Result<Vec<u16>, AllocError>
        ensures { IfOk result (λ nodes. nodes.items ≡ up_nodes self.now) }
    {
        self.ring
            .nodes()
            .iter()
            .copied()
            .filter(|node| !self.is_down(u64::from(*node)))
            .collect(alloc)
    }

    /// Tests that a node is on the ring and up, so that its hints can be delivered.
    pub(crate) fn check_carrier(&self, node: u64) -> Result<(), Refusal>
        ensures { AnswersAtOnce result (nodes_fault self.now node []) (λ _. ⊤) }
    {
        self.check_nodes(node, &[])
    }

    /// Offers the hints that a node keeps to their owners. Returns the numbers of accepted, known and still pending
    /// hints.
    pub(crate) fn deliver(&mut self, alloc: Global, node: u64) -> Result<CommandAnswer, Refusal>
        requires { nodes_fault self.old node [] ≡ None }
        ensures { DoesOrBreaksOff result self.old self.new (deliver_at self.old node (hints_of self.old node)) }
    {
        let up = self.up_nodes(alloc)?;
        let Some(place) = self.place_of(node) else {
            unreachable!()
        };
        let hints = &mut self.carriers[place];
        let done = deliver_all(alloc, &self.ring, &up, &mut self.ranges, hints)?;
        Ok(CommandAnswer::Deliver {
            delivered: done.taken,
            known: done.known,
            pending: hints.pending(),
        })
    }

    /// Returns the versions that are held for a key.
    #[tactic(auto, unfolding(crate::specs::Acts::key_act))]
    pub(crate) fn get(&self, alloc: Global, get: &Get) -> Result<CommandAnswer, Refusal>
        ensures { DoesOrBreaksOff result self.now self.now (key_act (held_at get.now) get.now self.now) }
    {
        self.check_nodes(get.node, &[])?;
        check_key(get.key.as_slice())?;
        let Some(replica) = self.replica_of(get.node, get.key.as_slice()) else {
            return Err(Refusal::OtherRange);
        };
        let versions = replica.version_set(alloc, get.key.as_slice())?;
        Ok(CommandAnswer::Versions(versions))
    }

    /// Returns the text of the row of a key.
    #[tactic(auto, unfolding(crate::specs::Acts::key_act))]
    pub(crate) fn row(&self, alloc: Global, get: Get) -> Result<CommandAnswer, Refusal>
        ensures { DoesOrBreaksOff result self.now self.now (key_act (row_answer get) get self.now) }
    {
        self.check_nodes(get.node, &[])?;
        check_key(get.key.as_slice())?;
        let Some(replica) = self.replica_of(get.node, get.key.as_slice()) else {
            return Err(Refusal::OtherRange);
        };
        let versions = replica.version_set(alloc, get.key.as_slice())?;
        let text = row_text(alloc, replica.format(), get.key, versions)?;
        Ok(CommandAnswer::Row(text))
    }

    /// Finds the home of the replica of a range at a node that is up.
    pub(crate) fn home_of(&self, ask: &Rehash) -> Result<Home, Refusal>
        ensures { AnswersAtOnce result (range_fault self.now ask.now.node ask.now.range)
            (IsHomeOf self.now ask.now.node ask.now.range) }
    {
        self.check_nodes(ask.node, &[])?;
        self.home_in(ask.node, ask.range)
    }

    /// Makes every node of the tree of a replica clean. Returns the number of those that were dirty.
    #[tactic(auto, unfolding(crate::specs::Acts::rehash_at))]
    pub(crate) fn rehash(
        &mut self,
        rt: &(impl Threads + Sync),
        alloc: Global,
        at: Home,
    ) -> Result<CommandAnswer, Refusal>
        requires { IsHomeIn self.old at }
        ensures { DoesOrBreaksOff result self.old self.new (rehash_at at.node at.range self.old) }
    {
        let hashed = self.ranges[at.range].rehash(rt, alloc, at)?;
        Ok(CommandAnswer::Rehash(hashed))
    }

    /// Finds the homes of both replicas of a sync, if both nodes are up. The node that fetches is first.
    pub(crate) fn homes_of(&self, ask: &SyncFrom) -> Result<(Home, Home), Refusal>
        ensures { AnswersAtOnce result (keepers_fault ask.now self.now)
            (λ homes. IsHomeOf self.now ask.now.node ask.now.range homes.0
            × IsHomeOf self.now ask.now.from ask.now.range homes.1) }
    {
        self.check_ring_nodes(ask.node, &[ask.from])?;
        self.check_up(ask.node)?;
        self.check_up(ask.from)?;
        let own = self.home_in(ask.node, ask.range)?;
        let from = self.home_in(ask.from, ask.range)?;
        Ok((own, from))
    }

    /// Makes a node fetch the versions of a range that another has, and returns the report.
    #[tactic(auto, unfolding(crate::specs::Acts::sync_at))]
    pub(crate) fn sync(
        &mut self,
        alloc: Global,
        own: Home,
        from: Home,
    ) -> Result<CommandAnswer, Refusal>
        requires own { IsHomeIn self.old own }
        requires from { IsHomeIn self.old from }
        requires range { from.range ≡ own.range }
        ensures { DoesOrBreaksOff result self.old self.new (sync_at own.node from.node own.range self.old) }
    {
        let done = self.ranges[own.range].sync(alloc, own, from)?;
        Ok(CommandAnswer::Sync(done))
    }

    /// Returns the digest of a node of the tree of a range.
    #[tactic(auto, unfolding(crate::specs::Acts::node_act))]
    pub(crate) fn node(&self, ask: &ShowNode) -> Result<CommandAnswer, Refusal>
        requires { IsTrue (is_tree_node self.now.format ask.now.depth ask.now.index) }
        ensures { DoesOrBreaksOff result self.now self.now (node_act ask.now self.now) }
    {
        self.check_nodes(ask.node, &[])?;
        let Some(replica) = self.replica_at(ask.node, ask.range) else {
            return Err(Refusal::OtherRange);
        };
        let Some(node) = tree_node(self.format, ask.depth, ask.index) else {
            unreachable!()
        };
        Ok(CommandAnswer::Node(replica.digest_at(node)))
    }

    /// Finds the home of a node's replica of the range of that number, if the ring has such a range.
    fn home_in(&self, node: u64, range: u64) -> Result<Home, Refusal>
        ensures { AnswersAtOnce result (kept_fault (range_on self.now node range))
            (IsHomeOf self.now node range) }
    {
        if range >= self.ranges.len() as u64 {
            return Err(Refusal::OtherRange);
        }
        self.ranges[range as usize].home_of(node, range as usize)
    }

    /// Finds the replica at a node of the range of that number, if the ring has such a range.
    fn replica_at(&self, node: u64, range: u64) -> Option<&Replica>
        ensures { option_map (λ r. r.now.range) result ≡ range_on self.now node range }
    {
        if range >= self.ranges.len() as u64 {
            return None;
        }
        self.ranges[range as usize].find(node)
    }

    /// Finds the replica of a key's range at a node.
    fn replica_of(&self, node: u64, key: &[u8]) -> Option<&Replica>
        ensures { option_map (λ r. r.now.range) result ≡ home node (replicas_of self.now key.now) }
    {
        let range = usize::from(self.ring.range_of(key));
        self.ranges[range].find(node)
    }

    /// Makes the context of a put, if no part of the put is refused.
    fn check_put(&self, alloc: Global, put: &Put) -> Result<Clock, Refusal>
        ensures { AnswersOrNoMemory result (put_fault put.now self.now)
            (λ context. context ≡ clock_of put.now.context) }
    {
        self.check_nodes(put.node, put.lose.as_slice())?;
        let context = Clock::from_pairs(alloc, put.context.as_slice())?;
        check_key(put.key.as_slice())?;
        put.kind.check_value(self.format, put.value.as_slice())?;
        Ok(context)
    }

    /// Tests that a node and the others that a command names are on the ring, and the node is up.
    fn check_nodes(&self, node: u64, others: &[u64]) -> Result<(), Refusal>
        ensures { AnswersAtOnce result (nodes_fault self.now node others.now) (λ _. ⊤) }
    {
        self.check_ring_nodes(node, others)?;
        self.check_up(node)
    }

    /// Tests that a node is up.
    fn check_up(&self, node: u64) -> Result<(), Refusal>
        ensures { AnswersAtOnce result (down_fault self.now node) (λ _. ⊤) }
    {
        if self.is_down(node) {
            return Err(Refusal::Down);
        }
        Ok(())
    }

    /// Tests that a node and the others that a command names are on the ring.
    fn check_ring_nodes(&self, node: u64, others: &[u64]) -> Result<(), Refusal>
        ensures { AnswersAtOnce result (ring_nodes_fault self.now node others.now) (λ _. ⊤) }
    {
        if self.ring.contains(node) && self.are_nodes(others) {
            Ok(())
        } else {
            Err(Refusal::BadRing)
        }
    }

    /// Returns true if each of these is on the ring.
    fn are_nodes(&self, nodes: &[u64]) -> bool
        ensures { result ≡ list_all (is_member self.now) nodes.now }
    {
        nodes.iter().all(|node| self.ring.contains(*node))
    }
}

/// Makes `count` stores without hints.
#[tactic(auto, using(crate::proofs::ListSteps::copies_more))]
fn empty_stores(alloc: Global, count: usize) -> Result<Vec<HintStore>, AllocError>
    ensures { IfOk result (λ stores. stores.items ≡ replicate count []) }
{
    let mut stores = Vec::with_capacity(alloc, count)?;
    for made in 0..count {
        stores.push(HintStore::new(alloc))?;
    }
    Ok(stores)
}

/// Returns the node of the tree of a format, if it has one of that depth and index.
pub(crate) fn tree_node(format: Format, depth: u64, index: u64) -> Option<NodeAt>
    ensures some { is_some result ≡ is_tree_node format depth index }
    ensures depth { IfSome result (λ n. n.depth ≡ depth) }
    ensures index { IfSome result (λ n. n.index ≡ index) }
{
    if depth > u64::from(tree_depth(format)) || index > u64::from(u16::MAX) {
        return None;
    }
    NodeAt::new(depth as u8, index as u16)
}

/// Writes the text of the row of a key: no bytes if no version is held.
fn row_text(
    alloc: Global,
    format: Format,
    key: Bytes,
    versions: VersionSet,
) -> Result<Text, Refusal>
    requires key { key_fault key ≡ None }
    requires fit { AllByRecursion (λ v. value_fault format v.kind v.value ≡ None) versions }
    ensures { Answers result None (λ text. text ≡ held_text format key versions) }
{
    if versions.is_empty() {
        return Ok(Text::from(Vec::new(alloc)));
    }
    Ok(Text::from(write_row(alloc, format, &Row { key, versions })?))
}

impl Drop for Cluster {
    /// Keeps the fields out of the proofs of callers that drop a cluster.
    fn drop(self) {
        let Cluster {
            ring: _ring,
            format: _format,
            down: _down,
            carriers: _carriers,
            ranges: _ranges,
        } = self;
    }
}
