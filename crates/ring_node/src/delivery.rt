//! Deliveries of hints.
ghost use Rattle.std.specs.Prelude.{◌≡◌, ◌≢◌, ◌⊎◌, ◌+◌, ◌<◌, ◌≤◌, Err, IfOk, IfErr, OnErr};
ghost use Rattle.std.specs.Option.{option_map};
ghost use Rattle.range_journal.specs.declared.journal.Source.{Source};
ghost use Rattle.hint_store.specs.Hints.{delivery_by};
ghost use Rattle.ring_node.specs.HintOutcomes.{known_count, taken_count, was_known};
ghost use Rattle.ring_node.specs.Gains.{Gains, GainsSome};

use crate::hints::SharedHints;
use crate::range::SharedRange;
use admission::Slot;
use caller_pass::Pass;
use hint_store::{Delivery, Hint};
use range_journal::Source;
use range_state::Accepted;
use std::alloc::Global;
use std::sync::Wait;
use std::sync::ledger::Ledger;
use vclock::Refusal;
use version_set::Version;

/// The report of a delivery: the number of hints that were taken, known and left pending.
///
/// ```
/// let slot = slots.lend(rt)?;
/// let (hints, range, pass) = (&self.hints, &other.range, &mut other.peer);
/// let owner = range.node();
/// let report = deliver(rt, alloc, &slot, hints, range, pass, owner, HINTS_MAX);
/// slots.give_back(rt, slot);
/// ```
#[derive(Clone, Copy, Debug, PartialEq, Eq)]
pub struct DeliverReport {
    /// The number of versions that the owner journaled.
    pub delivered: u64,
    /// The number of versions that the owner knew.
    pub known: u64,
    /// The number of hints that the owner refused: they stay pending.
    pub kept: u64,
}

impl DeliverReport {
    /// Returns the report with the outcome of one more hint.
    fn with(self, answered: HintOutcome) -> DeliverReport
        requires { self.delivered + self.known + self.kept < u64.MAX }
        ensures delivered { result.delivered ≡ self.delivered + taken_count answered }
        ensures known { result.known ≡ self.known + known_count answered }
        ensures turns { result.delivered + result.known + result.kept ≡ self.delivered + self.known + self.kept + 1 }
    {
        let mut report = self;
        match answered {
            HintOutcome::Taken => report.delivered += 1,
            HintOutcome::Known => report.known += 1,
            HintOutcome::Refused => report.kept += 1,
        }
        report
    }
}

/// The outcome of a hint at its owner.
#[derive(Clone, Copy, Debug, PartialEq, Eq)]
enum HintOutcome {
    /// It journaled the version.
    Taken,
    /// It knew the version.
    Known,
    /// It refused the version, for example since its journal is full.
    Refused,
}

/// Delivers the pending hints of an owner to its range, one in each turn, by ascending id from 1, until no hint is left
/// or the turns are used. The pass gets the receipts of the owner's entries.
///
/// The owner is offered each version as a hint. The hint is confirmed if the owner journals the version or knows it,
/// even if another caller confirmed it meanwhile. A hint that the owner refuses by a cause other than NoMemory stays
/// pending, and is skipped. No two locks are held at once. The slot is the permission to deliver.
///
/// Refused: Stranger (the owner isn't the range's node: nothing is done), NoMemory. On error the deliveries made before
/// stay.
#[tactic(auto, using(crate::proofs::GainLaws::gains_none, crate::proofs::GainLaws::gains_more))]
pub fn deliver<R: Wait, C: Ledger, L: Ledger>(
    rt: &R,
    alloc: Global,
    _slot: &Slot<C>,
    hints: &SharedHints,
    range: &SharedRange<L>,
    pass: &mut Pass<L>,
    owner: u16,
    turns: u64,
) -> Result<DeliverReport, Refusal>
    ensures gains { IfOk result (λ report. Gains pass.old pass.new Source.Hint report.delivered) }
    ensures turns { IfOk result (λ report. report.delivered + report.known + report.kept ≤ turns) }
    ensures some { OnErr result (GainsSome pass.old pass.new Source.Hint) }
    ensures refusal { IfErr result (λ e. (e ≡ Refusal.Stranger) ⊎ (e ≡ Refusal.NoMemory)) }
    ensures stranger { owner ≢ range.now → (result ≡ Err Refusal.Stranger) × (pass.new ≡ pass.old) }
    ensures here { owner ≡ range.now → IfErr result (λ e. e ≡ Refusal.NoMemory) }
{
    if owner != range.node() {
        return Err(Refusal::Stranger);
    }
    let mut report = DeliverReport {
        delivered: 0,
        known: 0,
        kept: 0,
    };
    let mut after = 0;
    for _ in 0..turns {
        let Some(hint) = hints.next(rt, alloc, owner, after)? else {
            break;
        };
        after = hint.id;
        report = report.with(offer(rt, alloc, hints, range, pass, hint)?);
    }
    Ok(report)
}

/// Offers the owner of a hint its version, and confirms the hint unless the version is refused. The copy is made before
/// the version is offered.
#[tactic(auto, using(crate::proofs::GainLaws::gains_same))]
fn offer<R: Wait, L: Ledger>(
    rt: &R,
    alloc: Global,
    hints: &SharedHints,
    range: &SharedRange<L>,
    pass: &mut Pass<L>,
    hint: Hint,
) -> Result<HintOutcome, Refusal>
    ensures gains { IfOk result (λ answered. Gains pass.old pass.new Source.Hint (taken_count answered)) }
    ensures same { OnErr result (pass.new ≡ pass.old) }
    ensures refusal { IfErr result (λ e. e ≡ Refusal.NoMemory) }
{
    let copy = hint.version.try_clone()?;
    let answered = send(rt, alloc, range, pass, hint.key.as_slice(), copy)?;
    confirm(rt, hints, hint, answered);
    Ok(answered)
}

/// Sends the owner of a hint the hint's key and version.
#[tactic(auto, using(crate::proofs::GainLaws::gains_same))]
fn send<R: Wait, L: Ledger>(
    rt: &R,
    alloc: Global,
    range: &SharedRange<L>,
    pass: &mut Pass<L>,
    key: &[u8],
    version: Version,
) -> Result<HintOutcome, Refusal>
    ensures gains { IfOk result (λ answered. Gains pass.old pass.new Source.Hint (taken_count answered)) }
    ensures same { OnErr result (pass.new ≡ pass.old) }
    ensures refusal { IfErr result (λ e. e ≡ Refusal.NoMemory) }
{
    match range.copy(rt, alloc, pass, Source::Hint, key, version) {
        Ok(Accepted::Taken(_)) => Ok(HintOutcome::Taken),
        Ok(Accepted::Known) => Ok(HintOutcome::Known),
        Err(Refusal::NoMemory) => Err(Refusal::NoMemory),
        Err(_) => Ok(HintOutcome::Refused),
    }
}

/// Confirms a hint whose version its owner took or knew.
fn confirm<R: Wait>(rt: &R, hints: &SharedHints, hint: Hint, answered: HintOutcome) {
    let id = hint.id;
    if let Some(delivery) = delivery_of(hint, answered) {
        // UnknownHint: another caller confirmed the hint meanwhile. Its owner has the version anyway.
        let _ = hints.confirm(rt, id, delivery);
    }
}

/// Returns the delivery of a hint to its owner, unless the owner refused it.
fn delivery_of(hint: Hint, answered: HintOutcome) -> Option<Delivery>
    ensures { result ≡ option_map (delivery_by hint) (was_known answered) }
{
    match answered {
        HintOutcome::Taken => Some(hint.into_delivery(false)),
        HintOutcome::Known => Some(hint.into_delivery(true)),
        HintOutcome::Refused => None,
    }
}
