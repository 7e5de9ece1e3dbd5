//! The close of a replica, and its renewal.
use crate::replica::Replica;
use ring_node::RenewedRange;
use std::alloc::Global;
use std::sync::ledger::Ledger;
use vclock::Refusal;

/// The seat of the syncs, which never reads.
const SYNCER: u16 = 0;

impl<L: Ledger> Replica<L> {
    /// Closes a replica whose threads have ended, and returns the number of entries in its journal. A pass has the
    /// receipt of each entry. Refused: Stranger (a pass is missing), Unsettled (a pass and the journal differ),
    /// NoMemory.
    pub(crate) fn close(self, alloc: Global) -> Result<u64, Refusal> {
        let (range, passes, _, _) = self.into_parts(alloc)?;
        match range.close(alloc, passes) {
            Ok(closed) => Ok(closed.state.journal().len()),
            Err(refused) => Err(refused.refusal),
        }
    }

    /// Closes a replica whose threads have ended, and opens it again with the versions that it holds. Frees the memory
    /// of everything else: entries of older versions, sessions, receipts, readings and delivered hints. Refused as
    /// `close` is, or as JournalFull.
    pub(crate) fn renew(self, alloc: Global, limit: u64) -> Result<Replica<L>, Refusal> {
        let (range, passes, hints, offers) = self.into_parts(alloc)?;
        match range.renew(alloc, passes, SYNCER, limit) {
            Ok(renewed) => {
                let RenewedRange { range, passes, .. } = renewed;
                Replica::of_parts(range, passes, hints, offers)
            }
            Err(refused) => Err(refused.refusal),
        }
    }
}
