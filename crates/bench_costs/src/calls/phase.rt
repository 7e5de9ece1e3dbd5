//! Calls that are made for all keys in turn.
use crate::calls::pace::Pace;
use crate::calls::plan::CallPlan;
use crate::calls::round::Round;
use crate::entries::Shape;
use crate::fault::Fault;
use crate::ranges::accept_copy;
use range_state::RangeState;
use std::alloc::Global;
use std::time::{Clock, Instant};
use vclock::Refusal;
use version_set::{Kind, Version};

/// The node at which keys are put.
const NODE: u16 = 1;

/// A call that is made for all keys.
#[derive(Clone, Copy)]
pub(crate) enum Phase {
    /// The keys are put.
    Puts(Round),
    /// The keys are got.
    Gets,
    /// The keys are accepted as copies.
    Accepts(Round),
}

impl Phase {
    /// Makes the calls of a plan on a range, and returns their pace.
    pub(crate) fn time(
        self,
        rt: &impl Clock,
        alloc: Global,
        range: &mut RangeState,
        plan: CallPlan,
    ) -> Result<Pace, Fault> {
        let from = Instant::now(rt)?;
        self.run(alloc, range, plan)?;
        Ok(Pace::new(plan.keys, from.elapsed(rt)?))
    }

    /// Makes the calls of a plan on a range.
    fn run(self, alloc: Global, range: &mut RangeState, plan: CallPlan) -> Result<(), Fault> {
        match self {
            Phase::Puts(round) => put_all(alloc, range, round, plan)?,
            Phase::Gets => get_all(alloc, range, plan)?,
            Phase::Accepts(round) => accept_all(alloc, range, round, plan)?,
        }
        Ok(())
    }
}

/// Puts all keys. Refused as [`RangeState::put`] is.
fn put_all(
    alloc: Global,
    range: &mut RangeState,
    round: Round,
    plan: CallPlan,
) -> Result<(), Refusal> {
    for number in 0..plan.keys {
        let value_number = round.value_number(number, plan.keys);
        put(alloc, range, plan.shape, round, number, value_number)?;
    }
    Ok(())
}

/// Puts the key of a number, with the value of another number. Refused as [`RangeState::put`] is.
pub(crate) fn put(
    alloc: Global,
    range: &mut RangeState,
    shape: Shape,
    round: Round,
    number: u64,
    value_number: u64,
) -> Result<(), Refusal> {
    let (key, value) = (shape.key(alloc, number)?, shape.value(alloc, value_number)?);
    let context = round.context(alloc)?;
    range.put(alloc, 0, NODE, key.as_slice(), &context, Kind::Live, value)?;
    Ok(())
}

/// Gets all keys.
fn get_all(alloc: Global, range: &RangeState, plan: CallPlan) -> Result<(), Fault> {
    for number in 0..plan.keys {
        let key = plan.shape.key(alloc, number)?;
        if range.get(alloc, key.as_slice())?.len() != 1 {
            return Err(Fault::NotHeld);
        }
    }
    Ok(())
}

/// Accepts a copy of each key's version. Refused as [`RangeState::accept`] is.
fn accept_all(
    alloc: Global,
    range: &mut RangeState,
    round: Round,
    plan: CallPlan,
) -> Result<(), Refusal> {
    for number in 0..plan.keys {
        let key = plan.shape.key(alloc, number)?;
        let version = Version {
            clock: round.clock(alloc)?,
            kind: Kind::Live,
            value: plan
                .shape
                .value(alloc, round.value_number(number, plan.keys))?,
        };
        accept_copy(alloc, range, key.as_slice(), version)?;
    }
    Ok(())
}
