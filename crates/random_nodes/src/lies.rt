//! The deeds of links that fail and lie.
ghost use Rattle.std.specs.Prelude.{◌<◌};

use plain_model::random::Random;
use ring_node::Deed;
use std::alloc::Global;
use tree_nodes::NodeAt;
use vclock::Refusal;

/// Returns the deeds of a link's first calls. The link fails or lies once in `lies` calls, or never if `lies` is 0.
pub(crate) fn random_deeds(
    alloc: Global,
    random: &mut Random,
    lies: u64,
) -> Result<Vec<Deed>, Refusal> {
    let mut deeds = Vec::new(alloc);
    if lies == 0 {
        return Ok(deeds);
    }
    for _ in 0..random.below(40) {
        let deed = if random.once_in(lies) {
            random_lie(random)
        } else {
            Deed::Pass
        };
        deeds.push(deed)?;
    }
    Ok(deeds)
}

/// Returns a deed of a link that fails or lies.
fn random_lie(random: &mut Random) -> Deed {
    match random.below(24) {
        0 => Deed::Lost,
        1 => Deed::Gone,
        2..=4 => Deed::Repeat,
        5..=8 => random_node(random),
        9..=12 => Deed::Renumber(random.below(20) as u32),
        13..=16 => Deed::Cut(random_place(random)),
        _ => Deed::Change(random_place(random)),
    }
}

/// Returns a deed that asks for a random node of a random tree.
fn random_node(random: &mut Random) -> Deed {
    let depth = random.below(4) as u8;
    let index = random.below(4_096) as u16;
    let width = match depth {
        0 => 1,
        1 => 16,
        2 => 256,
        _ => 4_096,
    };
    match NodeAt::new(depth, index % width) {
        Some(node) => Deed::Node(node),
        None => Deed::Pass,
    }
}

/// Returns a place in a message, mostly in its head.
fn random_place(random: &mut Random) -> usize {
    let bound = if random.once_in(3) { 600 } else { 40 };
    random.below(bound) as usize
}
