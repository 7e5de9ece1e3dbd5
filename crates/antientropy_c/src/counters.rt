//! The greatest counters of nodes.
ghost use Rattle.std.specs.Prelude.{◌≡◌, ℕ, Result};
ghost use Rattle.vclock.specs.Answer.{AnswersAtOnce};
ghost use Rattle.vclock.specs.declared.refusal.Refusal.{Refusal};
ghost use Rattle.range_journal.specs.Counters.{top_counter};
ghost use Rattle.antientropy_c.specs.Calls.{ReadsKept};
ghost use Rattle.c_calls.specs.Kept.{entries_below};
ghost use Rattle.c_calls.specs.Numbers.{Returns};
ghost use Rattle.c_calls.specs.Puts.{node_fault};
ghost use Rattle.c_calls.specs.Sessions.{TellsNumber};

use crate::replica_share::ReplicaShare;
use c_calls::counters::top_counter;
use c_calls::frame::read;
use c_calls::kept::Kept;
use c_calls::numbers::code;
use c_calls::sessions::tell_number;

/// Stores the greatest counter of a node in the clocks of a key's versions, among the entries with numbers below
/// `entries`: among all entries if there are fewer, and 0 if no clock has the node. Reads each of these entries.
/// Refused, in order: EMPTY, BadClock (the node is 0 or over 65,535).
#[unsafe(no_mangle)]
#[tactic(auto, using(crate::proofs::CallLaws::reads_nothing, crate::proofs::CallLaws::reads_held, crate::proofs::CallLaws::returns))]
pub extern "C" fn antientropy_share_top_counter(
    share: &mut ReplicaShare,
    node: u64,
    key: &[u8],
    entries: u64,
    counter: &mut u64,
) -> u32
    ensures { ReadsKept result share.old share.new (counter.new ≡ counter.old)
        (λ s. Returns result (λ (r : Result ℕ Refusal).
        AnswersAtOnce r (node_fault node) (λ n. n ≡ top_counter (entries_below s entries) key.now node)
        × TellsNumber r counter.old counter.new)) }
{
    let mut call = |kept: &Kept| {
        let outcome = top_counter(kept, node, key, entries);
        tell_number(&outcome, counter);
        code(&outcome)
    };
    read(share, &mut call)
}
