//! The greatest counters of nodes.
ghost use Rattle.std.specs.Prelude.{◌≡◌};
ghost use Rattle.vclock.specs.Answer.{AnswersAtOnce};
ghost use Rattle.range_journal.specs.Counters.{top_counter};
ghost use Rattle.c_calls.specs.Kept.{entries_below};
ghost use Rattle.c_calls.specs.Puts.{node_fault};

use crate::kept::Kept;
use crate::puts::node_of;
use vclock::{Refusal, check_key};

/// Returns the greatest counter of a node in the clocks of a key's versions, among the entries with numbers below
/// `entries`: among all entries if there are fewer, and 0 if no clock has the node. Reads each of these entries, but no
/// byte of a key that isn't 1 to 255 bytes long. Refused: BadClock (the node is 0 or over 65,535).
pub fn top_counter(kept: &Kept, node: u64, key: &[u8], entries: u64) -> Result<u64, Refusal>
    ensures { AnswersAtOnce result (node_fault node) (λ n. n ≡ top_counter (entries_below kept.now entries) key.now node) }
{
    let node = node_of(node)?;
    let front = kept.below(entries);
    let journal = kept.state().journal();
    match check_key(key) {
        Ok(()) => Ok(journal.top_counter(node, key, front)),
        Err(_) => Ok(0),
    }
}
