//! Asks for the outstanding nodes of a session, and outlines of them.
ghost use Rattle.std.specs.Prelude.{◌≡◌, ℕ, Result};
ghost use Rattle.vclock.specs.declared.refusal.Refusal.{Refusal};
ghost use Rattle.c_calls.specs.Asks.{outstanding_count, Asks, Outlines};
ghost use Rattle.antientropy_c.specs.Calls.{ReadsState};
ghost use Rattle.c_calls.specs.Hands.{HandsNothing, HandsOutRight};
ghost use Rattle.c_calls.specs.Numbers.{Returns};
ghost use Rattle.c_calls.specs.Sessions.{TellsNumber};

use crate::replica_share::ReplicaShare;
use c_calls::asks::{ask, count_of, outline};
use c_calls::frame::read;
use c_calls::kept::Kept;
use c_calls::numbers::code;
use c_calls::output::hand_out;
use c_calls::sessions::tell_number;
use std::alloc::Global;

/// Counts the outstanding nodes of a session. Refused, in order: EMPTY, UnknownSession.
#[unsafe(no_mangle)]
#[tactic(auto, using(crate::proofs::CallLaws::reads_nothing, crate::proofs::CallLaws::reads_held, crate::proofs::CallLaws::returns))]
pub extern "C" fn antientropy_share_outstanding(
    share: &mut ReplicaShare,
    session: u64,
    count: &mut u64,
) -> u32
    ensures { ReadsState result share.old share.new (count.new ≡ count.old)
        (λ s. Returns result (λ (r : Result ℕ Refusal).
        (r ≡ outstanding_count s session) × TellsNumber r count.old count.new)) }
{
    let mut call = |kept: &Kept| {
        let outcome = count_of(kept.state(), session);
        tell_number(&outcome, count);
        code(&outcome)
    };
    read(share, &mut call)
}

/// Writes the message that asks for the first outstanding node of a session, with the number of the partner's offer: no
/// bytes if no node is outstanding. Refused, in order: EMPTY, UnknownSession, NoMemory, SMALL.
#[unsafe(no_mangle)]
#[tactic(auto, using(crate::proofs::CallLaws::reads_nothing, crate::proofs::CallLaws::reads_held, crate::proofs::CallLaws::gives))]
pub extern "C" fn antientropy_share_ask(
    alloc: Global,
    share: &mut ReplicaShare,
    session: u64,
    number: u32,
    out: &mut [u8],
    need: &mut u64,
) -> u32
    ensures { ReadsState result share.old share.new (HandsNothing (need.old, out.old) (need.new, out.new))
        (λ s. HandsOutRight result (need.old, out.old) (need.new, out.new)
        (Asks s session 0 number)) }
{
    let mut call = |kept: &Kept| {
        let outcome = ask(alloc, kept.state(), session, 0, number);
        hand_out(&outcome, out, need)
    };
    read(share, &mut call)
}

/// Writes the message that asks for one of the outstanding nodes of a session, by its place from 0 in the session's
/// order: no bytes if fewer are outstanding. Refused, in order: EMPTY, UnknownSession, NoMemory, SMALL.
#[unsafe(no_mangle)]
#[tactic(auto, using(crate::proofs::CallLaws::reads_nothing, crate::proofs::CallLaws::reads_held, crate::proofs::CallLaws::gives))]
pub extern "C" fn antientropy_share_ask_at(
    alloc: Global,
    share: &mut ReplicaShare,
    session: u64,
    place: u64,
    number: u32,
    out: &mut [u8],
    need: &mut u64,
) -> u32
    ensures { ReadsState result share.old share.new (HandsNothing (need.old, out.old) (need.new, out.new))
        (λ s. HandsOutRight result (need.old, out.old) (need.new, out.new)
        (Asks s session place number)) }
{
    let mut call = |kept: &Kept| {
        let outcome = ask(alloc, kept.state(), session, place, number);
        hand_out(&outcome, out, need)
    };
    read(share, &mut call)
}

/// Writes the outline of one of the outstanding nodes of a session, by its place from 0 in the session's order, with
/// marks of `width` bytes: no bytes if fewer are outstanding.
///
/// Refused, in order: EMPTY, BadMessage (the width isn't 1 to 8), UnknownSession, NoMemory, SMALL.
#[unsafe(no_mangle)]
#[tactic(auto, using(crate::proofs::CallLaws::reads_nothing, crate::proofs::CallLaws::reads_held, crate::proofs::CallLaws::gives))]
pub extern "C" fn antientropy_share_outline_at(
    alloc: Global,
    share: &mut ReplicaShare,
    session: u64,
    place: u64,
    number: u32,
    width: u64,
    out: &mut [u8],
    need: &mut u64,
) -> u32
    ensures { ReadsState result share.old share.new (HandsNothing (need.old, out.old) (need.new, out.new))
        (λ s. HandsOutRight result (need.old, out.old) (need.new, out.new)
        (Outlines s session place number width)) }
{
    let mut call = |kept: &Kept| {
        let outcome = outline(alloc, kept.state(), session, place, number, width);
        hand_out(&outcome, out, need)
    };
    read(share, &mut call)
}
