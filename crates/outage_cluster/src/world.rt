//! The world that a script changes: a cluster, and the slots for background work.
ghost use Rattle.std.specs.Prelude.{◌≡◌, ◌≢◌, None, IsTrue, IfOk, IfErr, OnOk};
ghost use Rattle.outage_cluster.specs.Acts.{act, deliver_act, rehash_act, ring_act, ring_config, suits, sync_act, replied};
ghost use Rattle.outage_cluster.specs.State.{left, start};
ghost use Rattle.vclock.specs.Answer.{Answers};
ghost use Rattle.vclock.specs.Outcome.{DoesOrBreaksOff};

use crate::answer::CommandAnswer;
use crate::cluster::{Cluster, tree_node};
use crate::slots::Slots;
use key_ring::Ring;
use outage_commands::{Command, NewRing, Rehash, SyncFrom};
use range_state::RangeConfig;
use std::alloc::{AllocError, Global};
use std::marker::Model;
use std::mem::forget;
use std::sync::ledger::{Blank, Ledger};
use std::thread::Threads;
use vclock::{Format, Refusal};
use version_set::Kind;

/// The treatment of the replicas' memory at the end of a run.
#[derive(Clone, Copy, Debug, PartialEq, Eq)]
pub enum AtEnd {
    /// It is freed.
    Free,
    /// It is left to the system, which frees all memory of a process when the process ends.
    Leave,
}

/// The world that the commands change.
pub struct World<L: Ledger> {
    cluster: Cluster,
    slots: Slots<L>,
}

impl<L: Ledger> Model for World<L> {
    ghost use Rattle.outage_cluster.specs.State.{ClusterState};

    ghost Value = { ClusterState };

    ghost view = { λ w. record { cluster = w.cluster; slots = w.slots } };
}

impl<L: Ledger> World<L> {
    /// Makes the world at the start of a script: a ring of node 1 with one range, and no slot lent. Refused: NoMemory.
    pub fn start(blank: Blank, alloc: Global) -> Result<World<L>, Refusal>
        requires ledger { (blank.name ≡ L.name) × (blank.parts ≡ L.parts) × (blank.parts ≡ 1024) }
        ensures { Answers result None (λ world. world ≡ start) }
    {
        let cluster = Cluster::start(alloc)?;
        let slots = Slots::new(blank, alloc)?;
        Ok(World { cluster, slots })
    }

    /// Takes all slots back, and frees the memory of the replicas or leaves it.
    pub fn close(self, at_end: AtEnd) {
        let World { slots, cluster } = self;
        slots.close();
        match at_end {
            AtEnd::Free => drop(cluster),
            AtEnd::Leave => forget(cluster),
        }
    }

    /// Returns true if the ring in force has such a command: its format has puts of the kind, the tree has the node,
    /// and the controller may have the target. Format 1 has no tombstones.
    pub fn suits(&self, command: &Command) -> bool
        ensures { result ≡ suits self.now command.now }
    {
        match command {
            Command::Put(put) => self.cluster.format() == Format::Two || put.kind == Kind::Live,
            Command::Node(ask) => tree_node(self.cluster.format(), ask.depth, ask.index).is_some(),
            Command::Slot(command) => self.slots.is_target(command),
            _ => true,
        }
    }

    /// Acts on a command, and returns its answer. If memory runs out the script ends, and the part of the command that
    /// was done doesn't matter.
    pub fn act(
        &mut self,
        rt: &(impl Threads + Sync),
        alloc: Global,
        command: Command,
    ) -> Result<CommandAnswer, AllocError>
        requires { IsTrue (suits self.old command) }
        ensures reply { IfOk result (λ answer. answer ≡ replied (act command self.old)) }
        ensures after { OnOk result (self.new ≡ left (act command self.old) self.old) }
    {
        let answer = self.perform(rt, alloc, command);
        answered(answer)
    }

    /// Acts on a command.
    #[tactic(auto, unfolding(crate::specs::Acts::act))]
    fn perform(
        &mut self,
        rt: &(impl Threads + Sync),
        alloc: Global,
        command: Command,
    ) -> Result<CommandAnswer, Refusal>
        requires { IsTrue (suits self.old command) }
        ensures { DoesOrBreaksOff result self.old self.new (act command self.old) }
    {
        match command {
            Command::Ring(ring) => self.renew(alloc, &ring),
            Command::Put(put) => self.cluster.put(alloc, put),
            Command::Get(get) => self.cluster.get(alloc, &get),
            Command::Row(get) => self.cluster.row(alloc, get),
            Command::Down(node) => self.cluster.take_down(node),
            Command::Up(node) => self.cluster.bring_up(node),
            Command::Deliver(node) => self.deliver(alloc, node),
            Command::Rehash(ask) => self.rehash(rt, alloc, &ask),
            Command::Sync(ask) => self.sync(alloc, &ask),
            Command::Node(ask) => self.cluster.node(&ask),
            Command::Slot(command) => self.slots.act(command),
            Command::Sample(sample) => self.slots.sample(sample),
        }
    }

    /// Makes a new cluster, with new slots.
    fn renew(&mut self, alloc: Global, ask: &NewRing) -> Result<CommandAnswer, Refusal>
        ensures { DoesOrBreaksOff result self.old self.new (ring_act ask.now (ring_config ask.now)) }
    {
        let Some(config) = RangeConfig::new(ask.format, ask.bits, 0, ask.limit) else {
            return Err(Refusal::BadRing);
        };
        let ring = Ring::new(alloc, ask.bits, ask.nodes.as_slice(), ask.copies)?;
        let (nodes, ranges) = (ring.nodes().len() as u64, u64::from(ring.ranges()));
        self.cluster = Cluster::new(alloc, ring, config)?;
        self.slots.renew();
        Ok(CommandAnswer::Ring { nodes, ranges })
    }

    /// Delivers the hints that a node keeps, with a slot that is returned.
    #[tactic(auto, unfolding(crate::specs::Acts::deliver_act))]
    fn deliver(&mut self, alloc: Global, node: u64) -> Result<CommandAnswer, Refusal>
        ensures { DoesOrBreaksOff result self.old self.new (deliver_act node self.old) }
    {
        self.cluster.check_carrier(node)?;
        self.slots.lend()?;
        let answer = self.cluster.deliver(alloc, node);
        self.slots.give_back();
        answer
    }

    /// Rehashes a range at a node, with a slot that is returned.
    #[tactic(auto, unfolding(crate::specs::Acts::rehash_act))]
    fn rehash(
        &mut self,
        rt: &(impl Threads + Sync),
        alloc: Global,
        ask: &Rehash,
    ) -> Result<CommandAnswer, Refusal>
        ensures { DoesOrBreaksOff result self.old self.new (rehash_act ask.now self.old) }
    {
        let home = self.cluster.home_of(ask)?;
        self.slots.lend()?;
        let answer = self.cluster.rehash(rt, alloc, home);
        self.slots.give_back();
        answer
    }

    /// Makes a node fetch the versions of a range that another has, with a slot that is returned.
    #[tactic(auto, unfolding(crate::specs::Acts::sync_act))]
    fn sync(&mut self, alloc: Global, ask: &SyncFrom) -> Result<CommandAnswer, Refusal>
        ensures { DoesOrBreaksOff result self.old self.new (sync_act ask.now self.old) }
    {
        let (own, from) = self.cluster.homes_of(ask)?;
        self.slots.lend()?;
        let answer = self.cluster.sync(alloc, own, from);
        self.slots.give_back();
        answer
    }
}

/// Returns the answer of a command or of its refusal. NoMemory has no answer.
fn answered(answer: Result<CommandAnswer, Refusal>) -> Result<CommandAnswer, AllocError>
    ensures ok { IfOk answer (λ a. result ≡ Ok a) }
    ensures refused { IfErr answer
        (λ e. IfOk result (λ a. (e ≢ Refusal.NoMemory) × (a ≡ CommandAnswer.Refused e))) }
{
    match answer {
        Ok(answer) => Ok(answer),
        Err(Refusal::NoMemory) => Err(AllocError),
        Err(refusal) => Ok(CommandAnswer::Refused(refusal)),
    }
}
