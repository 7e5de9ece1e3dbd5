//! Puts, and versions of other replicas.
ghost use Rattle.std.specs.Prelude.{◌≡◌, ◌+◌, ◌^◌, ◌<◌, ◌≤◌, None, OnOk, IfOk};
ghost use Rattle.vclock.specs.Answer.{AnswersAtOnce, first_fault};
ghost use Rattle.vclock.specs.Clock.{pairs_fault};
ghost use Rattle.vclock.specs.Outcome.{DoesOrNoMemory, through};
ghost use Rattle.c_calls.specs.Kept.{with_state};
ghost use Rattle.c_calls.specs.Pairs.{clock_pairs};
ghost use Rattle.c_calls.specs.Puts.{node_fault, kind_fault, kind_numbered, parts_fault, put_at_by, accept_at, NoMemoryAfter, TellsPut, TellsAccepted};

use crate::kept::Kept;
use crate::pair::{Pair, check_pairs, clock_of};
use range_journal::Source;
use range_state::{Accepted, ContextTest, RangeState, Receipt};
use std::alloc::Global;
use vclock::limits::NODE_MAX;
use vclock::{Bytes, Format, Refusal, check_key};
use version_set::{Kind, Version};

/// The receipt of a put.
#[repr(C)]
#[derive(Clone, Copy)]
pub struct PutReceipt {
    /// The number of the entry.
    pub number: u64,
    /// The counter of the node in the new version's clock. The context has the other counters.
    pub counter: u64,
}

/// Puts a value, or a tombstone, for a key at a node, by a test of its context.
///
/// Refused, in order: BadClock (the node is 0 or over 65,535, or the context isn't a clock), ClockFull (the context has
/// over 32 pairs), BadValue (the kind is neither 0 nor 1); then as [`RangeState::put`] or [`RangeState::put_read`] is.
/// On error the replica is unchanged. The clock and the value are copied once the causes up to BadValue were tested, so
/// NoMemory may replace a cause from OtherRange on.
pub fn put(
    alloc: Global,
    kept: &mut Kept,
    test: ContextTest,
    node: u64,
    key: &[u8],
    context: &[Pair],
    kind: u8,
    value: &[u8],
) -> Result<Receipt, Refusal>
    ensures does { DoesOrNoMemory result kept.old kept.new (through (with_state kept.old)
        (put_at_by test kept.old.state node key.now (clock_pairs context.now) kind value.now)) }
    ensures early { NoMemoryAfter (first_fault (node_fault node)
        (parts_fault kept.old.state.store.config.format key.now (clock_pairs context.now) kind value.now)) result }
    ensures node { OnOk result (node ≤ 65535) }
    ensures number { IfOk result (λ entry. kept.old.first + entry.number < 2 ^ 64) }
{
    let node = node_of(node)?;
    let kind = kind_of_parts(
        kept.state().store().config().format(),
        key,
        context,
        kind,
        value,
    )?;
    let context = clock_of(alloc, context)?;
    let value = Bytes::copy_of(alloc, value)?;
    kept.put(alloc, test, node, key, &context, kind, value)
}

/// Returns the node of a number. Refused: BadClock (it is 0 or over 65,535).
pub(crate) fn node_of(number: u64) -> Result<u16, Refusal>
    ensures { AnswersAtOnce result (node_fault number) (λ node. node ≡ number) }
{
    if number == 0 || number > NODE_MAX {
        return Err(Refusal::BadClock);
    }
    Ok(number as u16)
}

/// Accepts a version of another replica, as a copy.
///
/// Refused, in order: BadClock (the pairs aren't a clock), ClockFull, BadValue (the kind is neither 0 nor 1); then as
/// [`RangeState::accept`] is. On error the replica is unchanged. The clock and the value are copied once the causes up
/// to BadValue were tested, so NoMemory may replace a cause from OtherRange on.
pub fn accept(
    alloc: Global,
    state: &mut RangeState,
    key: &[u8],
    clock: &[Pair],
    kind: u8,
    value: &[u8],
) -> Result<Accepted, Refusal>
    ensures does { DoesOrNoMemory result state.old state.new (accept_at state.old key.now (clock_pairs clock.now) kind value.now) }
    ensures early { NoMemoryAfter
        (parts_fault state.old.store.config.format key.now (clock_pairs clock.now) kind value.now) result }
{
    let kind = kind_of_parts(state.store().config().format(), key, clock, kind, value)?;
    let clock = clock_of(alloc, clock)?;
    let value = Bytes::copy_of(alloc, value)?;
    let version = Version { clock, kind, value };
    state.accept(alloc, 0, Source::Copy, key, version)
}

/// Stores the receipt of a put, if it was not refused. The journal's first entry is number `first`.
pub fn tell_put(outcome: &Result<Receipt, Refusal>, first: u64, node: u64, receipt: &mut PutReceipt)
    requires node { OnOk outcome.now (node ≤ 65535) }
    requires number { IfOk outcome.now (λ entry. first + entry.number < 2 ^ 64) }
    ensures { TellsPut first node outcome.now receipt.old receipt.new }
{
    if let Ok(entry) = outcome {
        *receipt = PutReceipt {
            number: first + entry.number,
            counter: entry.version.clock.get(node as u16),
        };
    }
}

/// Stores 1 if a version was accepted and 0 if it was known, if it was not refused.
pub fn tell_accepted(outcome: &Result<Accepted, Refusal>, taken: &mut u64)
    ensures { TellsAccepted outcome.now taken.old taken.new }
{
    match outcome {
        Ok(Accepted::Taken(_)) => *taken = 1,
        Ok(Accepted::Known) => *taken = 0,
        Err(_) => {}
    }
}

/// Tests the parts of a version and its key before any of them is copied or hashed, and returns the kind of its number.
/// Refused, in order: BadClock and ClockFull (the pairs), BadValue (the kind), BadKey, BadValue (of the format).
pub(crate) fn kind_of_parts(
    format: Format,
    key: &[u8],
    clock: &[Pair],
    kind: u8,
    value: &[u8],
) -> Result<Kind, Refusal>
    ensures answers { AnswersAtOnce result (parts_fault format key.now (clock_pairs clock.now) kind value.now)
        (λ k. k ≡ kind_numbered kind) }
    ensures pairs { IfOk result (λ _. pairs_fault (clock_pairs clock.now) ≡ None) }
{
    check_pairs(clock)?;
    let kind = kind_of(kind)?;
    check_key(key)?;
    kind.check_value(format, value)?;
    Ok(kind)
}

/// Returns the kind of a number. Refused: BadValue (it is neither 0 nor 1).
fn kind_of(kind: u8) -> Result<Kind, Refusal>
    ensures { AnswersAtOnce result (kind_fault kind) (λ k. k ≡ kind_numbered kind) }
{
    match kind {
        0 => Ok(Kind::Live),
        1 => Ok(Kind::Tombstone),
        _ => Err(Refusal::BadValue),
    }
}
