//! Sync workers, with other steps before each call of their links.

use crate::failures::counted;
use crate::forger::Forger;
use crate::lies::random_deeds;
use crate::node::Node;
use crate::partner::Partner;
use crate::points::Points;
use crate::steps::Step;
use crate::walking::{Outcome, Pending, Progress};
use admission::Slot;
use caller_pass::Pass;
use plain_model::plain::Fault;
use plain_model::random::Random;
use plain_model::trouble::Trouble;
use range_state::LocalRows;
use ring_node::{Gate, Link, Reached, ScriptedLink, SyncReport};
use std::alloc::Global;
use std::sync::Wait;
use std::sync::ledger::Ledger;
use vclock::Refusal;

/// A sync: the number of its turns, the rate at which its link lies (once in this number of calls, or never if 0), and
/// the rows that it compares.
#[derive(Clone, Copy)]
pub(crate) struct Plan {
    pub(crate) turns: u64,
    pub(crate) lies: u64,
    pub(crate) is_forged: bool,
    pub(crate) local: LocalRows,
}

/// The ends of a link: the node that syncs, and its partner.
#[derive(Drop)]
struct Ends<'a, L: Ledger, M: Ledger, G: Gate> {
    alloc: Global,
    here: &'a Node<L>,
    there: &'a Node<M>,
    gate: &'a G,
    points: Points,
    progress: Progress,
    trouble: Option<Trouble>,
}

/// A link that takes other steps before each call, and compares each ask.
#[derive(Drop)]
struct Watched<'a, L: Ledger, M: Ledger, G: Gate> {
    ends: Ends<'a, L, M, G>,
    link: ScriptedLink<Partner<'a, M>>,
    failures: u64,
}

impl<'a, L: Ledger, M: Ledger, G: Gate> Ends<'a, L, M, G> {
    /// Has the node take the link's last reply.
    fn settle<R: Wait>(&mut self, rt: &R) -> Result<(), Trouble> {
        let tree = match self.progress.pending_root() {
            Some(root) => self.there.mirror().lock(rt).with_root(&root)?,
            None => None,
        };
        let has_rows = match self.progress.local() {
            LocalRows::Now => self.here.dirty(rt) == 0,
            LocalRows::Moment => self.here.has_moment(rt, self.alloc)?,
        };
        let mut here = self.here.mirror().lock(rt);
        self.progress.settle(self.alloc, &mut *here, tree, has_rows)
    }

    /// Has the node take the link's last reply, and compares an ask.
    fn before_ask<R: Wait>(&mut self, rt: &R, message: &[u8]) -> Result<(), Trouble> {
        self.settle(rt)?;
        let here = self.here.mirror().lock(rt);
        self.here.check_counts(rt, &here)?;
        self.progress.check_ask(self.alloc, &here, message)
    }

    /// Takes steps.
    fn take_steps<R: Wait>(&mut self, rt: &R) {
        let _is_quiet = self.points.pass(rt, self.gate);
    }

    /// Keeps a copy of the result of an offer or an ask.
    fn keep(&mut self, reached: &Reached, is_offer: bool) -> Result<(), Trouble> {
        match reached {
            Reached::Bytes(bytes) if is_offer => {
                self.progress.keep(Pending::Offer(bytes.clone()?));
            }
            Reached::Bytes(bytes) => self.progress.keep(Pending::Answer(bytes.clone()?)),
            Reached::Lost => self.progress.refuse(Fault::LinkLost),
            Reached::Gone => self.progress.refuse(Fault::Gone),
        }
        Ok(())
    }

    /// Notes the first trouble. Returns true if no trouble was ever noted.
    fn is_right(&mut self, done: Result<(), Trouble>) -> bool {
        match done {
            Ok(()) => self.trouble.is_none(),
            Err(trouble) => {
                if self.trouble.is_none() {
                    self.trouble = Some(trouble);
                }
                false
            }
        }
    }

    /// Takes steps, fetches an offer over a link, and keeps it. After trouble it is Gone.
    fn offer<R: Wait, K: Link>(&mut self, rt: &R, link: &mut K) -> Reached {
        self.take_steps(rt);
        let reached = link.offer(rt);
        let kept = self.keep(&reached, true);
        if self.is_right(kept) {
            reached
        } else {
            Reached::Gone
        }
    }

    /// Takes steps, asks over a link, and keeps the answer. After trouble it is Gone.
    fn ask<R: Wait, K: Link>(&mut self, rt: &R, link: &mut K, message: &[u8]) -> Reached {
        let compared = self.before_ask(rt, message);
        if !self.is_right(compared) {
            return Reached::Gone;
        }
        self.take_steps(rt);
        let reached = link.ask(rt, message);
        let kept = self.keep(&reached, false);
        if self.is_right(kept) {
            reached
        } else {
            Reached::Gone
        }
    }

    /// Compares the end of the sync.
    fn finish<R: Wait>(
        &mut self,
        rt: &R,
        reply: &Result<SyncReport, Refusal>,
        gained: u64,
    ) -> Result<Outcome, Trouble> {
        if let Some(trouble) = self.trouble.take() {
            return Err(trouble);
        }
        self.settle(rt)?;
        let mut here = self.here.mirror().lock(rt);
        let outcome = self.progress.finish(&mut *here, reply, gained)?;
        self.here.check_counts(rt, &here)?;
        Ok(outcome)
    }
}

impl<'a, L: Ledger, M: Ledger, G: Gate> Link for Watched<'a, L, M, G> {
    ghost failed = { λ w. w.failures };

    fn failures(&self) -> u64 {
        self.failures
    }

    fn offer<R: Wait>(&mut self, rt: &R) -> Reached {
        let reached = self.ends.offer(rt, &mut self.link);
        counted(&mut self.failures, reached)
    }

    fn ask<R: Wait>(&mut self, rt: &R, message: &[u8]) -> Reached {
        let reached = self.ends.ask(rt, &mut self.link, message);
        counted(&mut self.failures, reached)
    }
}

/// Syncs a node with the other one, or with a forger, and compares the report with the work done.
pub(crate) fn run_sync<L: Ledger, M: Ledger, C: Ledger, G: Gate, R: Wait>(
    rt: &R,
    alloc: Global,
    (here, there): (&Node<L>, &Node<M>),
    seat: u16,
    slot: &Slot<C>,
    gate: &G,
    step: &Step,
    plan: Plan,
) -> Result<Outcome, Trouble> {
    let mut random = Random::new(step.salt.wrapping_add(1));
    let (forger, forged) = if plan.is_forged {
        let format = here.mirror().lock(rt).plain.format;
        let range = here.mirror().lock(rt).plain.part.number();
        let forger = Forger::new(alloc, &mut random, format, range)?;
        let root = forger.root(alloc)?;
        (Some(forger), Some(root))
    } else {
        (None, None)
    };
    let deeds = random_deeds(alloc, &mut random, plan.lies)?;
    let partner = there.mirror().lock(rt).number;
    let mut watched = Watched {
        ends: Ends {
            alloc,
            here,
            there,
            gate,
            points: Points::of(step),
            progress: Progress::new(seat, partner, plan.turns, plan.local, forged),
            trouble: None,
        },
        link: ScriptedLink::new(alloc, Partner::new(alloc, there, forger), deeds),
        failures: 0,
    };
    let mut pass = here.pass(seat)?.lock(rt);
    let before = pass.receipts().len();
    let reply = sync_in(
        rt,
        alloc,
        here,
        slot,
        &mut watched,
        &mut *pass,
        partner,
        plan,
    );
    let gained = pass.receipts().len().saturating_sub(before) as u64;
    watched.ends.finish(rt, &reply, gained)
}

/// Syncs a node over a link.
fn sync_in<L: Ledger, C: Ledger, K: Link, R: Wait>(
    rt: &R,
    alloc: Global,
    node: &Node<L>,
    slot: &Slot<C>,
    link: &mut K,
    pass: &mut Pass<L>,
    partner: u16,
    plan: Plan,
) -> Result<SyncReport, Refusal> {
    let (range, turns) = (node.range(), plan.turns);
    match plan.local {
        LocalRows::Now => range.sync_worker(rt, alloc, slot, link, pass, partner, turns),
        LocalRows::Moment => {
            range.sync_worker_at_moment(rt, alloc, slot, link, pass, partner, turns)
        }
    }
}
