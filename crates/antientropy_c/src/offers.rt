//! Offers of a replica to another one.
ghost use Rattle.std.specs.Prelude.{◌≡◌, false, None, Ok};
ghost use Rattle.vclock.specs.Answer.{Answers};
ghost use Rattle.walk_messages.specs.Messages.{message_text};
ghost use Rattle.walk_messages.specs.declared.message.Message.TheVariants as messages;
ghost use Rattle.snapshot.specs.RowMaps.{root_of};
ghost use Rattle.range_store.specs.Store.{dirty_fault};
ghost use Rattle.range_state.specs.declared.local_rows.LocalRows.TheVariants as local_rows;
ghost use Rattle.antientropy_c.specs.Calls.{ReadsKept};
ghost use Rattle.c_calls.specs.Reads.{Reads};
ghost use Rattle.c_calls.specs.Hands.{HandsNothing, HandsOut, HandsOutRight};
ghost use Rattle.antientropy_c.specs.Offers.{ShowsRows, Publishes};
ghost use Rattle.c_calls.specs.Offers.{offer_numbered, ServesBytes};
ghost use Rattle.c_calls.specs.Published.{shown_by};

use crate::publication::Publication;
use crate::publication_share::PublicationShare;
use crate::replica_share::ReplicaShare;
use c_calls::frame::{read, read_into};
use c_calls::kept::Kept;
use c_calls::offers::{offer, serve, shown};
use c_calls::output::{copy_out, hand_out};
use c_calls::published::Published;
use c_handle::InC;
use range_state::LocalRows;
use std::alloc::Global;

/// Publishes the current rows of a replica. Refused, in order: EMPTY, HELD (the publication holds a snapshot already),
/// Dirty (some node has no digest), NoMemory. On error the publication is unchanged.
#[unsafe(no_mangle)]
pub extern "C" fn antientropy_share_snapshot(
    alloc: Global,
    share: &mut ReplicaShare,
    publication: &mut Publication,
) -> u32
    ensures { ReadsKept result share.old share.new (publication.new ≡ publication.old) (λ s.
        Publishes result publication.old publication.new (dirty_fault s.state.store) (shown_by local_rows.Now s)) }
{
    read_into(share, publication, alloc, |kept: &Kept| {
        shown(alloc, kept, LocalRows::Now)
    })
}

/// Copies out the digest of the root of a snapshot: 32 bytes. Refused, in order: EMPTY, SMALL.
#[unsafe(no_mangle)]
#[tactic(auto, using(crate::proofs::CallLaws::reads_nothing, crate::proofs::CallLaws::reads_held))]
pub extern "C" fn antientropy_share_root(
    share: &mut PublicationShare,
    out: &mut [u8],
    need: &mut u64,
) -> u32
    ensures { ShowsRows result share.old share.new (HandsNothing (need.old, out.old) (need.new, out.new))
        (λ m. HandsOut (Ok (root_of m)) result (need.old, out.old) (need.new, out.new)) }
{
    let mut call = |rows: &Published| {
        let root = rows.snapshot().root();
        copy_out(&root, out, need)
    };
    read(share, &mut call)
}

/// Frees the snapshot of a publication, if any.
#[unsafe(no_mangle)]
pub extern "C" fn antientropy_snapshot_free(alloc: Global, publication: &mut Publication)
    ensures { publication.new.held ≡ false }
{
    let _rows = publication.take(alloc);
}

/// Writes the message of the offer with a number. Refused, in order: EMPTY, NoMemory, SMALL.
#[unsafe(no_mangle)]
#[tactic(auto, using(crate::proofs::CallLaws::reads_nothing, crate::proofs::CallLaws::reads_held, crate::proofs::CallLaws::gives))]
pub extern "C" fn antientropy_share_offer(
    alloc: Global,
    share: &mut PublicationShare,
    number: u32,
    out: &mut [u8],
    need: &mut u64,
) -> u32
    ensures { ShowsRows result share.old share.new (HandsNothing (need.old, out.old) (need.new, out.new))
        (λ m. HandsOutRight result (need.old, out.old) (need.new, out.new)
        (λ r. Answers r None (λ bytes. bytes ≡ message_text (messages.Offer (offer_numbered number m))))) }
{
    let mut call = |rows: &Published| {
        let outcome = offer(alloc, rows.snapshot(), number);
        hand_out(&outcome, out, need)
    };
    read(share, &mut call)
}

/// Writes the message that replies to an ask or an outline, if it is for the offer with this number: an answer or a
/// patch.
///
/// Refused, in order: EMPTY, BadMessage (the bytes are neither), Gone (it is for another offer), BadMessage (the tree
/// has no such node), NoMemory, SMALL. If the bytes are an answer, NoMemory may replace BadMessage.
#[unsafe(no_mangle)]
#[tactic(auto, using(crate::proofs::CallLaws::reads_nothing, crate::proofs::CallLaws::reads_held, crate::proofs::CallLaws::gives))]
pub extern "C" fn antientropy_share_serve(
    alloc: Global,
    share: &mut PublicationShare,
    number: u32,
    ask: &[u8],
    out: &mut [u8],
    need: &mut u64,
) -> u32
    ensures { ShowsRows result share.old share.new (HandsNothing (need.old, out.old) (need.new, out.new))
        (λ m. HandsOutRight result (need.old, out.old) (need.new, out.new)
        (λ r. ServesBytes m number ask.now r)) }
{
    let mut call = |rows: &Published| {
        let outcome = serve(alloc, rows.snapshot(), number, ask);
        hand_out(&outcome, out, need)
    };
    read(share, &mut call)
}
