//! Ranges that are renewed.
ghost use Rattle.std.specs.Prelude.{◌≡◌};

use crate::lines::{show, unchanged};
use crate::thread_calls::calls::{LockedCall, SharedCall};
use crate::thread_calls::closing::Closing;
use crate::thread_calls::ended::Left;
use crate::thread_calls::locked::Locked;
use crate::thread_calls::partner::Partner;
use crate::thread_calls::shared::Shared;
use std::alloc::Global;
use std::io;
use std::marker::Brand;
use std::sync::Wait;
use std::sync::ledger::{Blank, Ledger};
use vclock::Refusal;

/// The keys that are put before a range is renewed.
const KEYS: [u8; 3] = [b'b', b'c', b'd'];

/// A range that was renewed and closed, or closed after its renewal was refused.
#[derive(Drop)]
struct Renewal {
    left: Left,
    /// The refusal of the renewal, if it was refused.
    refusal: Option<Refusal>,
}

/// Shows the renewals of ranges.
pub(crate) fn show_all<R: Print + AllocGlobal + Wait>(rt: &R, partner: &Partner) -> io::Result<()> {
    show(rt, "LockedRange::renew", locked(rt.alloc(), partner))?;
    show(rt, "SharedRange::renew", shared(rt, rt.alloc(), partner))
}

/// Returns the number of entries of a renewed locked range.
fn locked(alloc: Global, partner: &Partner) -> Result<u64, Refusal> {
    let Renewal { left, refusal } = locked_once(alloc, partner, true)?;
    let Some(refusal) = refusal else {
        return Ok(left.entries());
    };
    let before = locked_once(alloc, partner, false)?.left;
    Err(unchanged(refusal, Ok(left.is_between(&before, &before))))
}

/// Returns the number of entries of a renewed shared range.
fn shared<R: Wait>(rt: &R, alloc: Global, partner: &Partner) -> Result<u64, Refusal> {
    let Renewal { left, refusal } = shared_once(rt, alloc, partner, true)?;
    let Some(refusal) = refusal else {
        return Ok(left.entries());
    };
    let before = shared_once(rt, alloc, partner, false)?.left;
    Err(unchanged(refusal, Ok(left.is_between(&before, &before))))
}

fn locked_once(alloc: Global, partner: &Partner, renews: bool) -> Result<Renewal, Refusal> {
    locked_in::<Brand>(alloc, partner, renews, Blank::new(2))
}

fn shared_once<R: Wait>(
    rt: &R,
    alloc: Global,
    partner: &Partner,
    renews: bool,
) -> Result<Renewal, Refusal> {
    let (range, slots) = (Blank::new(2), Blank::new(1024));
    shared_in::<Brand, Brand, R>(rt, alloc, partner, renews, range, slots)
}

/// Puts the keys into a locked range, renews it if asked to, and closes it.
fn locked_in<L: Ledger>(
    alloc: Global,
    partner: &Partner,
    renews: bool,
    blank: Blank,
) -> Result<Renewal, Refusal>
    requires { (blank.name ≡ L.name) × (blank.parts ≡ L.parts) × (blank.parts ≡ 2) }
{
    let mut range = Locked::<L>::open(alloc, blank)?;
    for key in KEYS {
        range.make(alloc, partner, LockedCall::Put(key))?;
    }
    if renews {
        renewed(alloc, range.renew_range(alloc)?)
    } else {
        renewed(alloc, range.close(alloc)?)
    }
}

/// Puts the keys into a shared range, renews it if asked to, and closes it.
fn shared_in<L: Ledger, C: Ledger, R: Wait>(
    rt: &R,
    alloc: Global,
    partner: &Partner,
    renews: bool,
    range: Blank,
    slots: Blank,
) -> Result<Renewal, Refusal>
    requires range { (range.name ≡ L.name) × (range.parts ≡ L.parts) × (range.parts ≡ 2) }
    requires slots { (slots.name ≡ C.name) × (slots.parts ≡ C.parts) × (slots.parts ≡ 1024) }
{
    let mut range = Shared::<L, C>::open(alloc, range, slots)?;
    for key in KEYS {
        range.make(rt, alloc, partner, SharedCall::Put(key))?;
    }
    if renews {
        renewed(alloc, range.renew_range(alloc)?)
    } else {
        renewed(alloc, range.close(alloc)?)
    }
}

/// Returns the state and the passes of a closed range.
fn renewed<L: Ledger>(alloc: Global, closing: Closing<L>) -> Result<Renewal, Refusal> {
    let Closing { closed, refusal } = closing;
    let left = Left::of(alloc, closed)?;
    Ok(Renewal { left, refusal })
}
