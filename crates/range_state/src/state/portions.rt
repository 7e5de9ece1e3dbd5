//! Portions of the moment of a range.
ghost use Rattle.std.specs.Prelude.{◌≡◌, None};
ghost use Rattle.vclock.specs.Answer.{Answers};
ghost use Rattle.range_state.specs.Moments.{install_moment, dirty_in, last_whole};
ghost use Rattle.range_state.specs.Portions.{IsPortion, after_install, installed_all, HashesMoment};

use crate::portion::Portion;
use crate::state::RangeState;
use std::alloc::Global;
use tree_nodes::{Hashed, NodeAt};
use vclock::Refusal;

impl RangeState {
    /// Hashes a portion of the moment's nodes, like `take_portion`'s, in the caller's thread. Returns the number of its
    /// nodes that are still dirty: 0 without a moment. A caller that repeats the call until that number is 0 can do
    /// other work in between.
    ///
    /// Refused: NoMemory. On error the state is unchanged.
    pub fn hash_moment(&mut self, alloc: Global, most: usize) -> Result<usize, Refusal>
        ensures { HashesMoment result most self.old self.new }
    {
        let portion = self.take_portion(alloc, most)?;
        Ok(self.install_portion(portion))
    }

    /// Returns a portion of the moment's dirty nodes whose children are clean: at most `most` of them, the first ones
    /// in the order of their places, up to the one with which their texts have 262,144 bytes. It has capacity for their
    /// digests. It is empty without a moment. Refused: NoMemory.
    pub fn take_portion(&self, alloc: Global, most: usize) -> Result<Portion, Refusal>
        ensures { Answers result None (IsPortion self.now.moment most) }
    {
        Portion::of(alloc, self.take_moment_jobs(alloc, most)?)
    }

    /// Installs the digests of a portion, each like `install_moment`, and skips stale ones. Hashes the nodes that
    /// aren't hashed yet. Returns the number of the moment's nodes that are still dirty: 0 without a moment. Doesn't
    /// allocate.
    pub fn install_portion(&mut self, portion: Portion) -> usize
        ensures installed { self.new ≡ installed_all self.old portion }
        ensures left { result ≡ dirty_in self.new.moment }
    {
        for it in portion.into_hashed() {
            self.install_unless_stale(it.node, &it.hashed);
        }
        self.dirty_in_moment()
    }

    /// Installs the digest of a text at a node of the moment, unless it is Stale.
    fn install_unless_stale(&mut self, node: NodeAt, hashed: &Hashed)
        ensures { self.new ≡ after_install self.old (install_moment self.old node hashed.now) }
    {
        let _done = self.install_moment(node, hashed);
    }

    /// Returns the number of the moment's nodes that are dirty: 0 without a moment. Doesn't allocate.
    fn dirty_in_moment(&self) -> usize
        ensures { result ≡ dirty_in self.now.moment }
    {
        match &self.moment {
            Some(moment) => moment.tree.dirty_count(),
            None => 0,
        }
    }

    /// Returns the number of entries that the journal had at the last whole moment, which had a digest at each node.
    /// Returns 0 if no moment was whole. Doesn't allocate.
    pub fn whole_front(&self) -> u64
        ensures { result ≡ last_whole self.now }
    {
        match &self.moment {
            Some(moment) if moment.tree.dirty_count() == 0 => moment.front,
            _ => self.whole_before,
        }
    }
}
