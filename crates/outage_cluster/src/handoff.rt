//! Hinted handoff: hints are kept for replicas that are down, and offered to them later.
ghost use Rattle.std.specs.Prelude.{◌≡◌, ◌≤◌, ◌<◌, ◌+◌, ◌-◌, ◌^◌, ℕ, Bool, List, None, length, fold, IsTrue, OnOk};
ghost use Rattle.vclock.specs.Answer.{Answers};
ghost use Rattle.vclock.specs.Outcome.{is_given};
ghost use Rattle.hint_store.specs.Hints.{AreHints, confirm, delivery_by, keep, next_hint};
ghost use Rattle.outage_cluster.specs.Handoff.{asked, asked_in, first_round, kept_all, kept_for, offer_one, offered_to};
ghost use Rattle.outage_cluster.specs.Offers.{after_offer, round_at, answer_of};
ghost use Rattle.outage_cluster.specs.State.{Replica, left};
ghost use Rattle.hint_store.specs.declared.hint.Kept.{Kept};

use crate::replicas::Replicas;
use hint_store::{Hint, HintStore};
use key_ring::Ring;
use range_state::{Accepted, Receipt};
use std::alloc::Global;
use vclock::Refusal;

/// The outcome of the hints that were offered.
#[derive(Clone, Copy)]
pub(crate) struct Delivered {
    /// The number that their owners accepted.
    pub(crate) taken: u64,
    /// The number that their owners knew.
    pub(crate) known: u64,
}

impl Delivered {
    /// Counts a hint that was offered, by its owner's reply: true if the owner knew it, and `None` if the owner refused
    /// it.
    fn count(&mut self, known: Option<bool>)
        requires { self.old.taken + self.old.known + 1 < 2 ^ 64 }
        ensures counted { (ranges : List (List Replica)) → (hints : List Kept)
            → after_offer known ranges hints self.old.taken self.old.known
            ≡ round_at ranges hints self.new.taken self.new.known }
        ensures most { self.new.taken + self.new.known ≤ self.old.taken + self.old.known + 1 }
    {
        match known {
            Some(true) => self.known += 1,
            Some(false) => self.taken += 1,
            None => {}
        }
    }
}

/// Keeps a hint of an entry for each of these owners, unless too many are pending, and returns the number that were
/// kept.
pub(crate) fn keep_all(
    hints: &mut HintStore,
    owners: &[u16],
    entry: &Receipt,
) -> Result<u64, Refusal>
    ensures { Answers result None (λ n. (hints.new ≡ kept_all entry.now owners.now hints.old)
        × (n ≡ length hints.new - length hints.old)) }
{
    let mut kept = 0;
    for i in 0..owners.len() {
        kept += u64::from(keep(hints, owners[i], entry)?);
    }
    Ok(kept)
}

/// Keeps a hint of an entry for an owner, unless too many are pending. Returns true if it was kept.
fn keep(hints: &mut HintStore, owner: u16, entry: &Receipt) -> Result<bool, Refusal>
    ensures test { Answers result None
        (λ kept. kept ≡ is_given (keep hints.old owner entry.now.key entry.now.version)) }
    ensures kept { OnOk result (hints.new ≡ kept_for entry.now hints.old owner) }
{
    let key = entry.key.try_clone()?;
    let version = entry.version.try_clone()?;
    match hints.keep(owner, key, version) {
        Ok(_) => Ok(true),
        Err(Refusal::NoMemory) => Err(Refusal::NoMemory),
        Err(_) => Ok(false),
    }
}

/// Offers the pending hints whose owners are up, in order, to their owners.
pub(crate) fn deliver_all(
    alloc: Global,
    ring: &Ring,
    up: &[u16],
    ranges: &mut [Replicas],
    hints: &mut HintStore,
) -> Result<Delivered, Refusal>
    requires { length ranges.old ≡ 2 ^ ring.now.bits }
    ensures same_ranges { length ranges.new ≡ length ranges.old }
    ensures done { Answers result None (λ d. round_at ranges.new hints.new d.taken d.known
        ≡ fold (offer_one up.now ring.now.bits) (first_round ranges.old hints.old) hints.old) }
{
    let mut done = Delivered { taken: 0, known: 0 };
    let mut after = 0;
    while let Some(hint) = next(alloc, hints, up, after)? {
        after = hint.id;
        let known = offer(alloc, ring, ranges, hints, hint)?;
        done.count(known);
    }
    Ok(done)
}

/// Finds the next pending hint whose owner is up.
fn next(alloc: Global, hints: &HintStore, up: &[u16], after: u32) -> Result<Option<Hint>, Refusal>
    ensures found { Answers result None (λ found. found ≡ next_hint up.now after hints.now) }
    ensures valid { AreHints hints.now }
{
    // Called only for its clause `valid`: the ids count from 1.
    let _valid = hints.pending();
    hints.next_of(alloc, up, after)
}

/// Offers a pending hint to its owner, and confirms it if the owner accepted it or knew it. Returns true if the owner
/// knew it, and `None` if the owner refused it.
fn offer(
    alloc: Global,
    ring: &Ring,
    ranges: &mut [Replicas],
    hints: &mut HintStore,
    hint: Hint,
) -> Result<Option<bool>, Refusal>
    requires ranges { length ranges.old ≡ 2 ^ ring.now.bits }
    requires pending { (known : Bool) → IsTrue (is_given (confirm hints.old hint.id (delivery_by hint known))) }
    ensures same_ranges { length ranges.new ≡ length ranges.old }
    ensures done { Answers result None (λ o. (taken : ℕ) → (known : ℕ) → after_offer o ranges.new hints.new taken known
        ≡ offered_to ring.now.bits (round_at ranges.old hints.old taken known) hint (asked_in ring.now.bits ranges.old hint)) }
{
    let range = usize::from(ring.range_of(hint.key.as_slice()));
    let Some(known) = ask_owner(alloc, &mut ranges[range], &hint)? else {
        return Ok(None);
    };
    hints.confirm(hint.id, hint.into_delivery(known)).unwrap();
    Ok(Some(known))
}

/// Asks the owner of a hint to accept it. Returns true if the owner knew it, and `None` if the owner refused it.
#[tactic(auto, unfolding(crate::specs::Handoff::asked))]
fn ask_owner(alloc: Global, replicas: &mut Replicas, hint: &Hint) -> Result<Option<bool>, Refusal>
    ensures answer { Answers result None (λ o. o ≡ answer_of (asked hint.now replicas.old)) }
    ensures after { OnOk result (replicas.new ≡ left (asked hint.now replicas.old) replicas.old) }
{
    let version = hint.version.try_clone()?;
    match replicas.offer(alloc, u64::from(hint.owner), hint.key.as_slice(), version) {
        Ok(accepted) => Ok(Some(matches!(accepted, Accepted::Known))),
        Err(Refusal::NoMemory) => Err(Refusal::NoMemory),
        Err(_) => Ok(None),
    }
}
