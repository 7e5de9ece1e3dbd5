//! Links to a pool of offers in the same memory.
ghost use Rattle.std.specs.Prelude.{◌≡◌};

use crate::link::{Link, Reached};
use crate::offers::OfferPool;
use std::alloc::Global;
use std::sync::Wait;

/// A link to a pool of offers in the same memory. It fails if its pool refuses a message by a cause other than Gone.
///
/// ```
/// let link = MemoryLink::new(alloc, &partner.offers);
/// let mut link = ScriptedLink::new(alloc, link, deeds);
/// replica.sync(rt, alloc, slots, &mut link, partner.range.node())
/// ```
#[derive(Drop)]
pub struct MemoryLink<'a> {
    alloc: Global,
    pool: &'a OfferPool,
    failures: u64,
}

impl<'a> MemoryLink<'a> {
    /// Makes a link to a pool, which hasn't failed. Doesn't allocate.
    pub fn new(alloc: Global, pool: &'a OfferPool) -> MemoryLink<'a>
        ensures { result.failures ≡ 0 }
    {
        MemoryLink {
            alloc,
            pool,
            failures: 0,
        }
    }
}

impl<'a> Link for MemoryLink<'a> {
    ghost failed = { λ l. l.failures };

    fn failures(&self) -> u64 {
        self.failures
    }

    fn offer<R: Wait>(&mut self, rt: &R) -> Reached {
        let reply = self.pool.reply_with_offer(rt, self.alloc);
        reply.over(&mut self.failures)
    }

    fn ask<R: Wait>(&mut self, rt: &R, message: &[u8]) -> Reached {
        let reply = self.pool.reply_to(rt, self.alloc, message);
        reply.over(&mut self.failures)
    }
}
