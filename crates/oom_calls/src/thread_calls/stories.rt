//! The calls on ranges, made in turn.
ghost use Rattle.std.specs.Prelude.{◌≡◌};

use crate::lines::{show, unchanged};
use crate::thread_calls::calls::{CALLS, Call};
use crate::thread_calls::closing::Closing;
use crate::thread_calls::ended::{Ended, Left};
use crate::thread_calls::partner::Partner;
use crate::thread_calls::scene::{Scene, ended_after};
use std::io;
use std::marker::Brand;
use std::sync::Wait;
use std::sync::ledger::{Blank, Ledger};
use vclock::Refusal;

/// The line for the opening of the ranges.
const OPENING: &str = "a locked range and a shared one";

/// Shows the calls on ranges. If one is refused, both ranges are closed, and the calls continue after it on new ones.
pub(crate) fn show_all<R: Print + AllocGlobal + Wait>(rt: &R, partner: &Partner) -> io::Result<()> {
    let mut from = 0;
    for _ in 0..2 {
        let (locked, shared, slots) = (Blank::new(2), Blank::new(2), Blank::new(1024));
        match play::<Brand, Brand, Brand, R>(rt, partner, from, locked, shared, slots)? {
            Some(line) => from = line,
            None => break,
        }
    }
    Ok(())
}

/// Makes all calls, and shows those from a line on. Returns the line after a refused call, if one was refused.
fn play<L: Ledger, M: Ledger, C: Ledger, R: Print + AllocGlobal + Wait>(
    rt: &R,
    partner: &Partner,
    from: usize,
    locked: Blank,
    shared: Blank,
    slots: Blank,
) -> io::Result<Option<usize>>
    requires locked { (locked.name ≡ L.name) × (locked.parts ≡ L.parts) × (locked.parts ≡ 2) }
    requires shared { (shared.name ≡ M.name) × (shared.parts ≡ M.parts) × (shared.parts ≡ 2) }
    requires slots { (slots.name ≡ C.name) × (slots.parts ≡ C.parts) × (slots.parts ≡ 1024) }
{
    let mut scene = match Scene::<L, M, C>::open(rt.alloc(), locked, shared, slots) {
        Ok(scene) => scene,
        Err(refusal) => {
            show(rt, OPENING, Err(refusal))?;
            return Ok(Some(1));
        }
    };
    if from == 0 {
        show(rt, OPENING, Ok(2))?;
    }
    let refused = make_all(rt, partner, from, &mut scene)?;
    let Some(refused) = refused else {
        show_closing(rt, partner, scene)?;
        return Ok(None);
    };
    let Refused { at, call, refusal } = refused;
    show(
        rt,
        call.name(),
        Err(judged(rt, partner, scene, at, call, refusal)),
    )?;
    Ok(Some(at.saturating_add(2)))
}

/// A call that was refused, by its place in the list.
#[derive(Drop)]
struct Refused {
    at: usize,
    call: Call,
    refusal: Refusal,
}

/// Makes all calls until one is refused, and shows those from a line on.
fn make_all<L: Ledger, M: Ledger, C: Ledger, R: Print + AllocGlobal + Wait>(
    rt: &R,
    partner: &Partner,
    from: usize,
    scene: &mut Scene<L, M, C>,
) -> io::Result<Option<Refused>> {
    for (at, call) in CALLS.iter().enumerate() {
        let line = at.saturating_add(1);
        match scene.make(rt, rt.alloc(), partner, *call) {
            Ok(number) if line >= from => show(rt, call.name(), Ok(number))?,
            Ok(_) => {}
            Err(refusal) => {
                let call = *call;
                return Ok(Some(Refused { at, call, refusal }));
            }
        }
    }
    Ok(None)
}

/// Returns the refusal of a call, if the ranges are consistent after it, otherwise Dirty.
fn judged<L: Ledger, M: Ledger, C: Ledger, R: AllocGlobal + Wait>(
    rt: &R,
    partner: &Partner,
    scene: Scene<L, M, C>,
    at: usize,
    call: Call,
    refusal: Refusal,
) -> Refusal {
    let is_right = match scene.end(rt, rt.alloc()) {
        Ok(left) => is_right(rt, partner, &left, at, call),
        Err(other) => Err(other),
    };
    unchanged(refusal, is_right)
}

/// Returns true if a refused call left everything unchanged. A call of many steps may have done some of them.
fn is_right<R: AllocGlobal + Wait>(
    rt: &R,
    partner: &Partner,
    left: &Ended,
    at: usize,
    call: Call,
) -> Result<bool, Refusal> {
    let before = ended_after(rt, rt.alloc(), partner, at)?;
    if !call.is_in_steps() {
        return Ok(left.is_between(&before, &before));
    }
    let after = ended_after(rt, rt.alloc(), partner, at.saturating_add(1))?;
    Ok(left.is_between(&before, &after))
}

/// Closes both ranges, and shows the results.
fn show_closing<L: Ledger, M: Ledger, C: Ledger, R: Print + AllocGlobal + Wait>(
    rt: &R,
    partner: &Partner,
    scene: Scene<L, M, C>,
) -> io::Result<()> {
    let Scene { locked, shared } = scene;
    let closing = locked.close(rt.alloc());
    show(rt, "LockedRange::close", closed(rt, partner, closing, true))?;
    let closing = shared.close(rt.alloc());
    show(
        rt,
        "SharedRange::close",
        closed(rt, partner, closing, false),
    )
}

/// Returns the number of entries of a closed range. If the first try was refused, it must have returned everything
/// unchanged.
fn closed<L: Ledger, R: AllocGlobal + Wait>(
    rt: &R,
    partner: &Partner,
    closing: Result<Closing<L>, Refusal>,
    is_locked: bool,
) -> Result<u64, Refusal> {
    let Closing { closed, refusal } = closing?;
    let Some(refusal) = refusal else {
        return Ok(closed.state.journal().len());
    };
    let left = Left::of(rt.alloc(), closed)?;
    let ended = ended_after(rt, rt.alloc(), partner, CALLS.len())?;
    let is_same = if is_locked {
        left.is_between(&ended.locked, &ended.locked)
    } else {
        left.is_between(&ended.shared, &ended.shared)
    };
    Err(unchanged(refusal, Ok(is_same)))
}
