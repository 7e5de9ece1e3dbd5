//! Storms.
ghost use Rattle.std.specs.Prelude.{◌≡◌, ◌*◌, ◌≤◌, IfOk};

use crate::node::{Member, Node, Plan};
use crate::tally::Tallies;
use crate::threads::run_nodes;
use crate::workers::{rehash, sync};
use admission::Controller;
use ring_node::{Gate, MemoryLink, OfferPool, SharedController};
use std::alloc::Global;
use std::marker::Brand;
use std::sync::Wait;
use std::sync::ledger::{Blank, Ledger};
use std::thread::Threads;
use vclock::Refusal;

/// The maximum number of puts of a writer.
pub const PUTS_MAX: u64 = 10_000;

/// The end of a storm.
#[derive(Clone, Copy, Debug, PartialEq, Eq)]
pub struct StormEnd {
    /// The number of puts of both writers.
    pub puts: u64,
    /// True if the roots of both trees are equal.
    pub equal: bool,
    /// True if each pass agrees with its range's journal.
    pub settled: bool,
}

/// Runs a storm. Two nodes, 1 and 2, are replicas of one range. Each has a writer that does `puts` puts, 1 to 10,000, a
/// rehash worker, a sync worker and a server of its offers, each in a thread. When all have ended, both nodes are
/// rehashed, synced both ways, rehashed and closed.
///
/// Each worker has one round for each put, but at most 100, and each round has a slot from one controller of 1 to 8
/// slots. A round ignores NoSlot, Dirty, Gone and LinkLost. The gate is passed by each rehash worker (steps 1 and 2),
/// by each writer after each put (step 3) and by each sync worker before each round (step 4). The tallies show the
/// progress of the nodes.
///
/// Refused: any other refusal of a part. Also NoMemory, if a thread can't be spawned, or if the last sync loses its
/// link.
pub fn run_storm<R: Threads + Wait + Sync, G: Gate + Sync>(
    rt: &R,
    alloc: Global,
    puts: u64,
    gate: &G,
    tallies: &Tallies,
) -> Result<StormEnd, Refusal>
    requires { puts ≤ PUTS_MAX }
    ensures { IfOk result (λ end. end.puts ≡ 2 * puts) }
{
    let (one, two, slots) = (Blank::new(2), Blank::new(2), Blank::new(1_024));
    storm::<Brand, Brand, Brand, R, G>(rt, alloc, puts, gate, tallies, one, two, slots)
}

/// Runs a storm with the ledgers of both ranges and of the slots.
fn storm<S, T, C, R, G>(
    rt: &R,
    alloc: Global,
    puts: u64,
    gate: &G,
    tallies: &Tallies,
    first: Blank,
    second: Blank,
    slots: Blank,
) -> Result<StormEnd, Refusal>
where
    S: Ledger + Send + Sync,
    T: Ledger + Send + Sync,
    C: Ledger + Send + Sync,
    R: Threads + Wait + Sync,
    G: Gate + Sync,
    requires puts { puts ≤ PUTS_MAX }
    requires first { (first.name ≡ S.name) × (first.parts ≡ S.parts) × (first.parts ≡ 2) }
    requires second { (second.name ≡ T.name) × (second.parts ≡ T.parts) × (second.parts ≡ 2) }
    requires slots { (slots.name ≡ C.name) × (slots.parts ≡ C.parts) × (slots.parts ≡ 1024) }
    ensures { IfOk result (λ end. end.puts ≡ 2 * puts) }
{
    let slots = SharedController::new(Controller::<C>::new(slots, alloc, 1, 8, 50_000)?);
    let plan = Plan {
        slots: &slots,
        gate,
        puts,
    };
    let mut one = Member::<S>::open(alloc, first, &tallies.one, 1, 2)?;
    let mut two = Member::<T>::open(alloc, second, &tallies.two, 2, 1)?;
    let equal = run_both(rt, alloc, &mut one, &mut two, &plan)?;
    let (settled, other_settled) = (one.close(alloc), two.close(alloc));
    Ok(StormEnd {
        puts: 2 * puts,
        equal,
        settled: settled? && other_settled?,
    })
}

/// Runs the threads of both nodes, brings the nodes together, and returns true if their roots are equal.
fn run_both<S, T, C, R, G>(
    rt: &R,
    alloc: Global,
    one: &mut Member<'_, S>,
    two: &mut Member<'_, T>,
    plan: &Plan<'_, C, G>,
) -> Result<bool, Refusal>
where
    S: Ledger + Send + Sync,
    T: Ledger + Send + Sync,
    C: Ledger + Send + Sync,
    R: Threads + Wait + Sync,
    G: Gate + Sync,
{
    let (passes, others) = (&mut one.passes, &mut two.passes);
    run_nodes(rt, alloc, &one.node, &two.node, plan, passes, others)?;
    bring_together(rt, alloc, one, two, plan)?;
    have_one_root(rt, alloc, &one.node, &two.node)
}

/// Rehashes both nodes, syncs them both ways, and rehashes them.
fn bring_together<S: Ledger, T: Ledger, C: Ledger, R: Wait, G: Gate>(
    rt: &R,
    alloc: Global,
    one: &mut Member<'_, S>,
    two: &mut Member<'_, T>,
    plan: &Plan<'_, C, G>,
) -> Result<(), Refusal> {
    rehash(rt, alloc, &one.node, plan)?;
    rehash(rt, alloc, &two.node, plan)?;
    sync_with(rt, alloc, one, &two.node.pool, plan)?;
    sync_with(rt, alloc, two, &one.node.pool, plan)?;
    rehash(rt, alloc, &one.node, plan)?;
    rehash(rt, alloc, &two.node, plan)
}

/// Syncs a node with the offers of a pool. A link over memory is lost only if memory runs out.
fn sync_with<L: Ledger, C: Ledger, R: Wait, G: Gate>(
    rt: &R,
    alloc: Global,
    member: &mut Member<'_, L>,
    pool: &OfferPool,
    plan: &Plan<'_, C, G>,
) -> Result<(), Refusal> {
    let mut link = MemoryLink::new(alloc, pool);
    let syncer = &mut member.passes.syncer;
    match sync(rt, alloc, &member.node, plan, &mut link, syncer) {
        Err(Refusal::LinkLost) => Err(Refusal::NoMemory),
        other => other,
    }
}

/// Returns true if the roots of both trees are equal.
fn have_one_root<S: Ledger, T: Ledger, R: Wait>(
    rt: &R,
    alloc: Global,
    one: &Node<'_, S>,
    two: &Node<'_, T>,
) -> Result<bool, Refusal> {
    let root = one.range.snapshot(rt, alloc)?.root();
    Ok(root == two.range.snapshot(rt, alloc)?.root())
}
