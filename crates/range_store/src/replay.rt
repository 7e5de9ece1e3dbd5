//! The tree of the rows that a journal makes.
ghost use Rattle.std.specs.Prelude.{◌≡◌, ◌+◌, ◌<◌, ◌≤◌, length, take, None};
ghost use Rattle.vclock.specs.Answer.{Answers};
ghost use Rattle.vclock.specs.Outcome.{Does, DoesOrBreaksOff, gives};
ghost use Rattle.range_store.specs.Store.{leaf_in};
ghost use Rattle.range_store.specs.Replays.{IsReplay, replayed_tree};

use crate::config::RangeConfig;
use key_ring::place;
use range_journal::Entry;
use range_tree::Tree;
use std::alloc::Global;
use std::marker::Model;
use vclock::Refusal;

/// The tree of the rows that the first entries of a journal make.
#[derive(Drop)]
struct Rebuild<'a> {
    config: RangeConfig,
    entries: &'a [Entry],
    front: u64,
    tree: Tree,
}

impl<'a> Model for Rebuild<'a> {
    ghost use Rattle.std.specs.Prelude.{◌≡◌};
    ghost use Rattle.range_store.specs.Replays.{Replayed, IsReplay, replayed_tree};

    ghost Value = { Replayed };

    ghost view = { λ r. record { config = r.config; entries = r.entries.now; front = r.front } };

    ghost invariant = { λ r. IsReplay (record { config = r.config; entries = r.entries.now; front = r.front })
        × (r.tree ≡ replayed_tree (record { config = r.config; entries = r.entries.now; front = r.front })) };
}

impl<'a> Rebuild<'a> {
    /// Replays entries until `front` of them are replayed. Refused: NoMemory. On error fewer may be replayed.
    fn advance(&mut self, alloc: Global, front: u64) -> Result<(), Refusal>
        requires later { self.old.front ≤ front }
        requires within { front ≤ length self.old.entries }
        ensures advances { DoesOrBreaksOff result self.old self.new (gives tt (record self.old { front = front })) }
    {
        while self.front < front {
            self.step(alloc)?;
        }
        Ok(())
    }

    /// Replays the next entry.
    fn step(&mut self, alloc: Global) -> Result<(), Refusal>
        requires { self.old.front < length self.old.entries }
        ensures { Does result self.old self.new (gives tt (record self.old { front = self.old.front + 1 })) }
    {
        let entry = &self.entries[self.front as usize];
        let version = entry.version.try_clone()?;
        let leaf = self.leaf_of(entry.key.as_slice());
        self.tree.offer(alloc, leaf, &entry.key, version)?;
        self.front += 1;
        Ok(())
    }

    /// Returns the leaf of a key.
    fn leaf_of(&self, key: &[u8]) -> u16
        ensures { result ≡ leaf_in self.now.config key.now }
    {
        place(self.config.format(), self.config.bits(), key).leaf
    }
}

/// Makes the tree of the rows that entries make in a configuration. Every node is dirty. Each entry is looked at once.
/// Refused: NoMemory.
pub(crate) fn tree_of(
    alloc: Global,
    config: RangeConfig,
    entries: &[Entry],
) -> Result<Tree, Refusal>
    requires { IsReplay (record { config = config; entries = entries.now; front = 0 }) }
    ensures { Answers result None (λ tree.
        tree ≡ replayed_tree (record { config = config; entries = entries.now; front = length entries.now })) }
{
    let mut replay = Rebuild {
        config,
        entries,
        front: 0,
        tree: Tree::empty(alloc, config.format(), config.bits(), config.range())?,
    };
    replay.advance(alloc, entries.len() as u64)?;
    let Rebuild { tree, .. } = replay;
    Ok(tree)
}
