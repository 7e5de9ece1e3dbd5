//! Whole lists: from three new nodes to their close.
ghost use Rattle.std.specs.Prelude.{◌≡◌, ◌<◌};

use crate::deliveries::check_pending;
use crate::inner::Inner;
use crate::node::{Made, Node, Parts, Rest};
use crate::pairs::{AllClosed, Closed, check_equal};
use crate::ranges::Range;
use crate::renewals::renewed;
use crate::schedule::Schedule;
use crate::slots::Slots;
use crate::steps::{Deed, Renewal, Seen, Setup, Side, Step, Written};
use crate::tally::Tally;
use crate::world::World;
use plain_model::draws::{LAST, crowd_version};
use plain_model::plain::Part;
use plain_model::trouble::{Trouble, expect};
use ring_node::{Gate, OpenGate};
use std::alloc::Global;
use std::marker::Brand;
use std::sync::Wait;
use std::sync::ledger::{Blank, Ledger};
use version_set::Kind;

/// The limit of a journal that no list fills.
const AMPLE: u64 = 1_000;

/// More turns than any worker needs.
const TURNS: u64 = 10_000;

/// The maximum number of versions of a key at each of three nodes that are never too many together.
const MANY: usize = 21;

/// A node with another one, for a step.
type Pair = (Side, Side);

/// The nodes, each with the next one.
const ROUND: [Pair; 3] = [
    (Side::One, Side::Two),
    (Side::Two, Side::Three),
    (Side::Three, Side::One),
];

/// Syncs after which all nodes have the same versions: one takes from both others, then they take from it.
const SYNCS: [Pair; 4] = [
    (Side::One, Side::Two),
    (Side::One, Side::Three),
    (Side::Two, Side::One),
    (Side::Three, Side::One),
];

/// Runs a list, and returns its counts.
pub(crate) fn run_list<R: Wait>(
    rt: &R,
    alloc: Global,
    setup: &Setup,
    steps: Vec<Step>,
) -> Result<Tally, Trouble> {
    let (one, two, three) = (Blank::new(4), Blank::new(4), Blank::new(4));
    let blanks = (one, two, three, Blank::new(1_024));
    run_in::<Brand, Brand, Brand, Brand, R>(rt, alloc, blanks, setup, steps)
}

/// Runs a list on ranges and slots with these ledgers.
fn run_in<L: Ledger, M: Ledger, N: Ledger, C: Ledger, R: Wait>(
    rt: &R,
    alloc: Global,
    blanks: (Blank, Blank, Blank, Blank),
    setup: &Setup,
    steps: Vec<Step>,
) -> Result<Tally, Trouble>
    requires one { (blanks.0.name ≡ L.name) × (blanks.0.parts ≡ L.parts) × (blanks.0.parts ≡ 4) }
    requires two { (blanks.1.name ≡ M.name) × (blanks.1.parts ≡ M.parts) × (blanks.1.parts ≡ 4) }
    requires three { (blanks.2.name ≡ N.name) × (blanks.2.parts ≡ N.parts) × (blanks.2.parts ≡ 4) }
    requires slots { (blanks.3.name ≡ C.name) × (blanks.3.parts ≡ C.parts) × (blanks.3.parts ≡ 1024) }
{
    let (first, second, third, slots) = blanks;
    let one = Node::<L>::open(alloc, first, setup, Side::One)?;
    let two = Node::<M>::open(alloc, second, setup, Side::Two)?;
    let three = Node::<N>::open(alloc, third, setup, Side::Three)?;
    let slots = Slots::<C>::new(alloc, slots)?;
    let lives = steps.len();
    let world = World {
        alloc,
        one,
        two,
        three,
        slots,
        schedule: Schedule::new(alloc, steps),
    };
    world.crowd(rt, setup)?;
    world.live(rt, lives, setup)
}

/// Returns the key of a crowd's versions.
fn crowded_key(setup: &Setup) -> u64 {
    if setup.part == Part::Upper { 8 } else { 4 }
}

impl<L: Ledger, M: Ledger, N: Ledger, C: Ledger> World<L, M, N, C> {
    /// Gives each node many concurrent versions of a key, too many in total.
    fn crowd<R: Wait>(&self, rt: &R, setup: &Setup) -> Result<(), Trouble> {
        let key = crowded_key(setup);
        let middle = LAST.saturating_sub(setup.crowd) / 2;
        for number in 0..setup.crowd {
            let version = crowd_version(number.min(LAST));
            self.one.copy(rt, self.alloc, 0, Made { key, version })?;
            let version = crowd_version(LAST.saturating_sub(number));
            self.two.copy(rt, self.alloc, 0, Made { key, version })?;
            let version = crowd_version(middle.saturating_add(number).min(LAST));
            self.three.copy(rt, self.alloc, 0, Made { key, version })?;
        }
        Ok(())
    }

    /// Does all steps, with a renewal after each life, and closes all nodes.
    fn live<R: Wait>(self, rt: &R, lives: usize, setup: &Setup) -> Result<Tally, Trouble> {
        let mut world = self;
        for _ in 0..lives {
            match world.run_life(rt, lives)? {
                Some((side, renewal)) => world = world.renewed(rt, side, renewal)?,
                None => break,
            }
        }
        if setup.rests {
            world.come_to_rest(rt, setup)?;
        }
        world.close(rt, setup)
    }

    /// Does steps up to the next renewal, and returns its node and its kind; or up to the last step.
    fn run_life<R: Wait>(&self, rt: &R, steps: usize) -> Result<Option<(Side, Renewal)>, Trouble> {
        for _ in 0..steps {
            let Some(step) = self.schedule.take(rt, 0) else {
                break;
            };
            if let Deed::Renew(renewal) = step.deed {
                return Ok(Some((step.side, renewal)));
            }
            self.run_deep(rt, &step);
            self.check(rt)?;
        }
        Ok(None)
    }

    /// Does a step, with others at its points, down to depth 3.
    fn run_deep<R: Wait>(&self, rt: &R, step: &Step) {
        let gate = Inner {
            world: self,
            depth: 3,
            gate: &OpenGate,
        };
        self.run_over_three(rt, step, &gate);
    }

    /// Does a step, with the gate of depth 3.
    fn run_over_three<G: Gate, R: Wait>(&self, rt: &R, step: &Step, gate: &G) {
        let gate = Inner {
            world: self,
            depth: 2,
            gate,
        };
        self.run_over_two(rt, step, &gate);
    }

    /// Does a step, with the gate of depth 2.
    fn run_over_two<G: Gate, R: Wait>(&self, rt: &R, step: &Step, gate: &G) {
        let gate = Inner {
            world: self,
            depth: 1,
            gate,
        };
        self.run(rt, 0, step, &gate);
    }

    /// Renews the range of a node.
    fn renewed<R: Wait>(
        self,
        rt: &R,
        side: Side,
        renewal: Renewal,
    ) -> Result<World<L, M, N, C>, Trouble> {
        let World {
            alloc,
            one,
            two,
            three,
            slots,
            schedule,
        } = self;
        let (one, two, three) = match side {
            Side::One => (renewed(rt, alloc, one, renewal)?, two, three),
            Side::Two => (one, renewed(rt, alloc, two, renewal)?, three),
            Side::Three => (one, two, renewed(rt, alloc, three, renewal)?),
        };
        Ok(World {
            alloc,
            one,
            two,
            three,
            slots,
            schedule,
        })
    }

    /// Does a step at the first of two nodes, without steps at its points.
    fn rest<R: Wait>(&self, rt: &R, (side, other): Pair, deed: Deed) -> Result<(), Trouble> {
        let step = Step {
            side,
            other,
            deed,
            pace: 1,
            salt: 0,
        };
        self.run(rt, 0, &step, &OpenGate);
        self.check(rt)
    }

    /// Brings all nodes up, delivers all hints, and syncs. Afterwards each node holds the versions of all, and the
    /// roots are equal, unless a sync is refused since a key is crowded or a journal is full.
    fn come_to_rest<R: Wait>(&self, rt: &R, setup: &Setup) -> Result<(), Trouble> {
        for pair in ROUND {
            if self.is_down(rt, pair.0) {
                self.rest(rt, pair, Deed::Switch)?;
            }
        }
        for (next, last) in ROUND {
            self.rest(rt, (next, last), Deed::Deliver(TURNS))?;
            self.rest(rt, (last, next), Deed::Deliver(TURNS))?;
        }
        if !self.has_one_format(rt) {
            for pair in ROUND {
                self.rest(rt, pair, Deed::Migrate)?;
            }
        }
        if setup.crowd > 0 {
            for pair in ROUND {
                self.rest(rt, pair, merge(crowded_key(setup)))?;
            }
        }
        let is_due = self.may_refuse(rt, crowded_key(setup))?;
        let before = self.schedule.tally(rt).finished();
        for (here, there) in SYNCS {
            self.refresh(rt, (there, here))?;
            self.refresh(rt, (here, there))?;
            self.rest(rt, (here, there), PLAINLY)?;
        }
        let finished = self.schedule.tally(rt).finished().wrapping_sub(before);
        if finished < 4 {
            return expect(is_due, "whether the last syncs finish");
        }
        for pair in ROUND {
            self.refresh(rt, pair)?;
        }
        self.check_equal(rt)
    }

    /// Hashes the dirty nodes of the first of two nodes, and publishes.
    fn refresh<R: Wait>(&self, rt: &R, pair: Pair) -> Result<(), Trouble> {
        self.rest(
            rt,
            pair,
            Deed::Rehash {
                skip: 0,
                turns: TURNS,
            },
        )?;
        self.rest(rt, pair, Deed::Publish(1))
    }

    /// Returns true if a node is down.
    fn is_down<R: Wait>(&self, rt: &R, side: Side) -> bool {
        match side {
            Side::One => self.one.is_down(rt),
            Side::Two => self.two.is_down(rt),
            Side::Three => self.three.is_down(rt),
        }
    }

    /// Returns true if all ranges have one format.
    fn has_one_format<R: Wait>(&self, rt: &R) -> bool {
        let format = self.one.format(rt);
        format == self.two.format(rt) && format == self.three.format(rt)
    }

    /// Returns true if a sync may be refused: a journal has a small limit, or some node has many versions of a key.
    fn may_refuse<R: Wait>(&self, rt: &R, key: u64) -> Result<bool, Trouble> {
        Ok(
            may_refuse(rt, self.alloc, &self.one, key)?
                || may_refuse(rt, self.alloc, &self.two, key)?
                || may_refuse(rt, self.alloc, &self.three, key)?,
        )
    }

    /// Compares the nodes with each other.
    fn check_equal<R: Wait>(&self, rt: &R) -> Result<(), Trouble> {
        let one = self.one.mirror().lock(rt);
        let (two, three) = (self.two.mirror().lock(rt), self.three.mirror().lock(rt));
        check_equal(self.alloc, &one, &two)?;
        check_equal(self.alloc, &one, &three)?;
        let (Some(first), Some(second), Some(third)) = (
            one.published.last(),
            two.published.last(),
            three.published.last(),
        ) else {
            return Err(Trouble::Differs("the number of offers"));
        };
        let root = first.tree.root();
        expect(
            root == second.tree.root() && root == third.tree.root(),
            "the roots",
        )
    }

    /// Closes the ranges, and returns the counts. Each takes from the next one by an exchange. If they weren't at rest,
    /// they are reconciled afterwards.
    fn close<R: Wait>(self, rt: &R, setup: &Setup) -> Result<Tally, Trouble> {
        let mut tally = self.schedule.tally(rt);
        for owner in 1..4u16 {
            check_pending(rt, self.alloc, &self.one, owner)?;
            check_pending(rt, self.alloc, &self.two, owner)?;
            check_pending(rt, self.alloc, &self.three, owner)?;
        }
        let World {
            alloc,
            one,
            two,
            three,
            slots: _slots,
            schedule: _schedule,
        } = self;
        let mut closed = AllClosed {
            one: close(alloc, one)?,
            two: close(alloc, two)?,
            three: close(alloc, three)?,
        };
        closed.check(alloc)?;
        closed.exchange(alloc, setup.salt, &mut tally)?;
        if !setup.rests {
            closed.reconcile(alloc)?;
        }
        Ok(tally)
    }
}

/// A sync over a link that doesn't lie.
const PLAINLY: Deed = Deed::Sync {
    turns: TURNS,
    lies: 0,
};

/// Returns the put of a value that replaces all held versions of a key.
fn merge(key: u64) -> Deed {
    Deed::Put(Written {
        key,
        seen: Seen::Now,
        kind: Kind::Live,
        value: Some(b'x'),
        is_read: true,
    })
}

/// Returns true if a node's journal has a small limit, or the node has many versions of a key.
fn may_refuse<L: Ledger, R: Wait>(
    rt: &R,
    alloc: Global,
    node: &Node<L>,
    key: u64,
) -> Result<bool, Trouble> {
    let mirror = node.mirror().lock(rt);
    let held = mirror.plain.held(alloc, key)?;
    Ok(mirror.plain.limit < AMPLE || held.len() > MANY)
}

/// Closes the range of a node.
fn close<L: Ledger>(alloc: Global, node: Node<L>) -> Result<Closed, Trouble> {
    let (parts, rest) = node.into_parts(alloc)?;
    let Rest { mirror, .. } = rest;
    let range = close_parts(alloc, parts)?;
    Ok(Closed { range, mirror })
}

/// Closes a range.
fn close_parts<L: Ledger>(alloc: Global, parts: Parts<L>) -> Result<Range, Trouble> {
    let Parts { range, passes } = parts;
    match range.close(alloc, passes) {
        Ok(closed) => Ok(Range::from(closed.state)),
        Err(_) => Err(Trouble::Differs("whether a range is closed")),
    }
}
