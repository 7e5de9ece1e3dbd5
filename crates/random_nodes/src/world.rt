//! Three nodes with replicas of one range, and the steps that are run on them.

use crate::deliveries::deliver_hints;
use crate::loads::run_load;
use crate::moments::run_moment;
use crate::node::{Made, Node};
use crate::rehashes::run_rehash;
use crate::schedule::Schedule;
use crate::slots::Slots;
use crate::steps::{Deed, Side, Step};
use crate::syncs::{Plan, run_sync};
use admission::Slot;
use plain_model::trouble::Trouble;
use range_state::LocalRows;
use ring_node::Gate;
use std::alloc::Global;
use std::sync::Wait;
use std::sync::ledger::Ledger;

/// Three nodes, the slots of their workers, and the remaining steps.
#[derive(Drop)]
pub(crate) struct World<L: Ledger, M: Ledger, N: Ledger, C: Ledger> {
    pub(crate) alloc: Global,
    pub(crate) one: Node<L>,
    pub(crate) two: Node<M>,
    pub(crate) three: Node<N>,
    pub(crate) slots: Slots<C>,
    pub(crate) schedule: Schedule,
}

impl<L: Ledger, M: Ledger, N: Ledger, C: Ledger> World<L, M, N, C> {
    /// Does a step at a depth, which is the seat of its pass. At the points of its worker the gate takes other steps.
    pub(crate) fn run<G: Gate, R: Wait>(&self, rt: &R, depth: u16, step: &Step, gate: &G) {
        let (one, two, three) = (&self.one, &self.two, &self.three);
        let done = match (step.side, step.other) {
            (Side::One, Side::Two) => self.run_at(rt, depth, step, gate, (one, two)),
            (Side::One, _) => self.run_at(rt, depth, step, gate, (one, three)),
            (Side::Two, Side::Three) => self.run_at(rt, depth, step, gate, (two, three)),
            (Side::Two, _) => self.run_at(rt, depth, step, gate, (two, one)),
            (Side::Three, Side::One) => self.run_at(rt, depth, step, gate, (three, one)),
            (Side::Three, _) => self.run_at(rt, depth, step, gate, (three, two)),
        };
        self.schedule.note(rt, done);
        let right = self.slots.check(rt);
        self.schedule.note(rt, right);
    }

    /// Does a step at the first of two nodes. A node that is down only takes the step that brings it up.
    fn run_at<A: Ledger, B: Ledger, G: Gate, R: Wait>(
        &self,
        rt: &R,
        depth: u16,
        step: &Step,
        gate: &G,
        (here, there): (&Node<A>, &Node<B>),
    ) -> Result<(), Trouble> {
        if here.is_down(rt) && !matches!(step.deed, Deed::Switch) {
            return Ok(());
        }
        match step.deed {
            Deed::Rehash { .. }
            | Deed::Hold(_)
            | Deed::Sync { .. }
            | Deed::SyncAtMoment { .. }
            | Deed::SyncForged { .. }
            | Deed::Deliver(_) => self.work(rt, depth, step, gate, (here, there)),
            Deed::Load(key) => run_load(rt, self.alloc, (here, there), depth, gate, step, key),
            _ => self.call(rt, depth, step.deed, (here, there)),
        }
    }

    /// Does a step that needs a slot, if one is free.
    fn work<A: Ledger, B: Ledger, G: Gate, R: Wait>(
        &self,
        rt: &R,
        depth: u16,
        step: &Step,
        gate: &G,
        nodes: (&Node<A>, &Node<B>),
    ) -> Result<(), Trouble> {
        match self.slots.lend(rt) {
            Ok(slot) => {
                let done = self.work_with(rt, depth, step, gate, nodes, &slot);
                self.slots.give_back(rt, slot);
                done
            }
            Err(refusal) => self.slots.check_refused(rt, &refusal),
        }
    }

    /// Does a step with a slot.
    fn work_with<A: Ledger, B: Ledger, G: Gate, R: Wait>(
        &self,
        rt: &R,
        depth: u16,
        step: &Step,
        gate: &G,
        (here, there): (&Node<A>, &Node<B>),
        slot: &Slot<C>,
    ) -> Result<(), Trouble> {
        let plan = match step.deed {
            Deed::Rehash { skip, turns } => {
                return run_rehash(rt, self.alloc, here, slot, gate, step, (skip, turns));
            }
            Deed::Deliver(turns) => {
                return deliver_hints(rt, self.alloc, (there, here), depth, slot, turns);
            }
            Deed::Hold(turns) => {
                return run_moment(rt, self.alloc, here, slot, gate, step, turns);
            }
            Deed::SyncForged { turns } => Plan {
                turns,
                lies: 0,
                is_forged: true,
                local: LocalRows::Now,
            },
            Deed::Sync { turns, lies } => Plan {
                turns,
                lies,
                is_forged: false,
                local: LocalRows::Now,
            },
            Deed::SyncAtMoment { turns, lies } => Plan {
                turns,
                lies,
                is_forged: false,
                local: LocalRows::Moment,
            },
            _ => return Ok(()),
        };
        let outcome = run_sync(rt, self.alloc, (here, there), depth, slot, gate, step, plan)?;
        self.schedule.count(rt, outcome);
        Ok(())
    }

    /// Makes a call of a step that doesn't need a slot.
    fn call<A: Ledger, B: Ledger, R: Wait>(
        &self,
        rt: &R,
        depth: u16,
        deed: Deed,
        (here, there): (&Node<A>, &Node<B>),
    ) -> Result<(), Trouble> {
        let alloc = self.alloc;
        match deed {
            Deed::Put(written) => match here.put(rt, alloc, depth, written)? {
                Some(made) => self.schedule.add(rt, made),
                None => Ok(()),
            },
            Deed::Copy(back) => match self.schedule.made(rt, back) {
                Some(made) => here.copy(rt, alloc, depth, made),
                None => Ok(()),
            },
            Deed::Accept { key, version } => here.copy(rt, alloc, depth, Made { key, version }),
            Deed::Keep(back) => match self.schedule.made(rt, back) {
                Some(made) => here.keep(rt, alloc, there.number(rt), made),
                None => Ok(()),
            },
            Deed::Get(key) => here.get(rt, alloc, depth, key),
            Deed::Look(key) => here.look(rt, alloc, key),
            Deed::Publish(times) => here.publish(rt, alloc, times),
            Deed::Migrate => here.migrate(rt, alloc),
            Deed::DropMoment => {
                here.drop_moment(rt);
                Ok(())
            }
            Deed::Sample { after, micros } => self.slots.sample(rt, after, micros),
            Deed::Adjust(after) => self.slots.adjust(rt, after),
            Deed::Switch => {
                here.switch(rt);
                Ok(())
            }
            _ => Ok(()),
        }
    }

    /// Returns the first trouble, if any.
    pub(crate) fn check<R: Wait>(&self, rt: &R) -> Result<(), Trouble> {
        if let Some(trouble) = self.schedule.take_trouble(rt) {
            return Err(trouble);
        }
        self.one.check(rt)?;
        self.two.check(rt)?;
        self.three.check(rt)
    }
}
