//! Loads, with other steps before the lock is taken.

use crate::mirror::Mirror;
use crate::node::Node;
use crate::points::Points;
use crate::steps::Step;
use plain_model::leaves::Taken;
use plain_model::plain::{Fault, PlainEntry};
use plain_model::trees::leaf_depth;
use plain_model::trouble::{Trouble, expect};
use range_journal::Source;
use range_state::Loaded;
use ring_node::{Gate, Step as Passed};
use std::alloc::Global;
use std::sync::ledger::Ledger;
use std::sync::{Mutex, Wait};
use tree_nodes::NodeAt;
use vclock::Refusal;

/// A gate that takes other steps once a load has read its rows.
#[derive(Drop)]
struct Reading<'a, G: Gate> {
    gate: &'a G,
    points: Mutex<Points>,
}

impl<'a, G: Gate> Gate for Reading<'a, G> {
    fn pass<R: Wait>(&self, rt: &R, _step: Passed) {
        let mut points = *self.points.lock(rt);
        let _is_quiet = points.pass(rt, self.gate);
    }
}

/// Loads the rows of a key's leaf from another node's offer, if that node has one in this node's format. If a step
/// migrates the range meanwhile, the rows are broken, since they have format 1, unless the leaf is empty.
pub(crate) fn run_load<L: Ledger, M: Ledger, G: Gate, R: Wait>(
    rt: &R,
    alloc: Global,
    (here, there): (&Node<L>, &Node<M>),
    seat: u16,
    gate: &G,
    step: &Step,
    key: u64,
) -> Result<(), Trouble> {
    let Some(tree) = there.newest(rt)? else {
        return Ok(());
    };
    let format = here.format(rt);
    let leaf = here.mirror().lock(rt).plain.leaf_of(key);
    let Some(node) = NodeAt::new(leaf_depth(format), leaf) else {
        return Ok(());
    };
    if tree.format() != format {
        return Ok(());
    }
    let text = tree.text(alloc, node)?;
    let rows = text.get(1..).unwrap_or(&[]);
    let reading = Reading {
        gate,
        points: Mutex::new(Points::of(step)),
    };
    let mut pass = here.pass(seat)?.lock(rt);
    let reply = here
        .range()
        .load_rows_passing(rt, alloc, &reading, &mut *pass, rows);
    let mut mirror = here.mirror().lock(rt);
    let wanted = if mirror.plain.format == format {
        mirror.plain.take_leaf(alloc, seat, &tree, leaf)?
    } else if rows.is_empty() {
        Ok(Taken::none(alloc))
    } else {
        Err(Fault::RowBroken)
    };
    check_loaded(&mut mirror, reply, wanted)?;
    here.check_counts(rt, &mirror)
}

/// Compares the result of a load, and journals the new versions as copies.
fn check_loaded(
    mirror: &mut Mirror,
    reply: Result<Loaded, Refusal>,
    wanted: Result<Taken, Fault>,
) -> Result<(), Trouble> {
    match (reply, wanted) {
        (Ok(loaded), Ok(taken)) => {
            let same = loaded.taken == taken.news.len() as u64 && loaded.known == taken.known;
            expect(same, "the versions that a load took")?;
            for entry in &taken.news {
                mirror.plain.entries.push(PlainEntry {
                    source: Source::Copy,
                    ..*entry
                })?;
            }
            Ok(())
        }
        (Err(refusal), Err(fault)) => expect(fault.is(&refusal), "the refusal of a load"),
        _ => Err(Trouble::Differs("whether a load is refused")),
    }
}
