//! A locked range and a shared one, on which the calls are made.
ghost use Rattle.std.specs.Prelude.{◌≡◌};

use crate::thread_calls::calls::{CALLS, Call};
use crate::thread_calls::ended::{Ended, Left};
use crate::thread_calls::locked::Locked;
use crate::thread_calls::partner::Partner;
use crate::thread_calls::shared::Shared;
use std::alloc::Global;
use std::marker::Brand;
use std::sync::Wait;
use std::sync::ledger::{Blank, Ledger};
use vclock::Refusal;

/// A locked range and a shared one.
#[derive(Drop)]
pub(crate) struct Scene<L: Ledger, M: Ledger, C: Ledger> {
    pub(crate) locked: Locked<L>,
    pub(crate) shared: Shared<M, C>,
}

impl<L: Ledger, M: Ledger, C: Ledger> Scene<L, M, C> {
    /// Opens two ranges that have accepted nothing.
    pub(crate) fn open(
        alloc: Global,
        locked: Blank,
        shared: Blank,
        slots: Blank,
    ) -> Result<Scene<L, M, C>, Refusal>
        requires locked { (locked.name ≡ L.name) × (locked.parts ≡ L.parts) × (locked.parts ≡ 2) }
        requires shared { (shared.name ≡ M.name) × (shared.parts ≡ M.parts) × (shared.parts ≡ 2) }
        requires slots { (slots.name ≡ C.name) × (slots.parts ≡ C.parts) × (slots.parts ≡ 1024) }
    {
        Ok(Scene {
            locked: Locked::<L>::open(alloc, locked)?,
            shared: Shared::<M, C>::open(alloc, shared, slots)?,
        })
    }

    /// Makes a call, and returns a number for its result.
    pub(crate) fn make<R: Wait>(
        &mut self,
        rt: &R,
        alloc: Global,
        partner: &Partner,
        call: Call,
    ) -> Result<u64, Refusal> {
        match call {
            Call::Locked(call) => self.locked.make(alloc, partner, call),
            Call::Shared(call) => self.shared.make(rt, alloc, partner, call),
        }
    }

    /// Closes both ranges. Refused: NoMemory, Stranger, Unsettled.
    pub(crate) fn end<R: Wait>(self, rt: &R, alloc: Global) -> Result<Ended, Refusal> {
        let pending = self.shared.pending(rt, alloc)?;
        let installed = self.shared.hashed();
        let locked = self.locked.close(alloc)?;
        let shared = self.shared.close(alloc)?;
        Ok(Ended {
            locked: Left::of(alloc, locked.closed)?,
            shared: Left::of(alloc, shared.closed)?,
            pending,
            installed,
        })
    }
}

/// Returns the closed ranges after only the first few calls.
pub(crate) fn ended_after<R: Wait>(
    rt: &R,
    alloc: Global,
    partner: &Partner,
    calls: usize,
) -> Result<Ended, Refusal> {
    let (locked, shared, slots) = (Blank::new(2), Blank::new(2), Blank::new(1024));
    ended_in::<Brand, Brand, Brand, R>(rt, alloc, partner, calls, locked, shared, slots)
}

fn ended_in<L: Ledger, M: Ledger, C: Ledger, R: Wait>(
    rt: &R,
    alloc: Global,
    partner: &Partner,
    calls: usize,
    locked: Blank,
    shared: Blank,
    slots: Blank,
) -> Result<Ended, Refusal>
    requires locked { (locked.name ≡ L.name) × (locked.parts ≡ L.parts) × (locked.parts ≡ 2) }
    requires shared { (shared.name ≡ M.name) × (shared.parts ≡ M.parts) × (shared.parts ≡ 2) }
    requires slots { (slots.name ≡ C.name) × (slots.parts ≡ C.parts) × (slots.parts ≡ 1024) }
{
    let mut scene = Scene::<L, M, C>::open(alloc, locked, shared, slots)?;
    for call in CALLS.iter().take(calls) {
        scene.make(rt, alloc, partner, *call)?;
    }
    scene.end(rt, alloc)
}
