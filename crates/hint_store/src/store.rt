//! The hints of a carrier.
ghost use Rattle.std.specs.Prelude.{◌≡◌, ◌+◌, ◌-◌, ◌≤◌, ◌^◌, ◌↔◌, [], ◌∷◌, length, min, slice_get, None, Some, true, false, Any, AllPairs, MatchOption, OnOk, IsOk, if◌then◌else◌};
ghost use Rattle.hint_store.specs.declared.hint.Fate.TheVariants.{Pending};
ghost use Rattle.std.specs.Option.{option_copied, option_map, option_and_then};
ghost use Rattle.std.specs.List.{list_any};
ghost use Rattle.std.specs.List.Sorted.{IsPartitionPoint};
ghost use Rattle.vclock.specs.Answer.{Answers};
ghost use Rattle.vclock.specs.Outcome.{Does, DoesAtOnce};
ghost use Rattle.hint_store.specs.Hints.{AreHints, pending_count, kept_at, keep_fault, keep, next_hint, is_undelivered, delivers_hint, is_answered, IsAnswered, confirm, closed, fate_if, delivery_of, waiting_owner, settle};
ghost use Rattle.hint_store.specs.Renewals.{renewed};
ghost use Rattle.hint_store.specs.Counts.{counts_of};
ghost use Rattle.hint_store.specs.Sizes.{hints_len};
ghost use Rattle.hint_store.specs.Waits.{IsBefore, id_of, is_up_to, earliest};

use crate::counts::HintCounts;
use crate::hint::{Delivery, Fate, Hint, Kept};
use std::alloc::Global;
use std::cmp::Ordering;
use std::marker::Model;
use vclock::limits::PENDING_HINTS_MAX;
use vclock::{Bytes, Refusal};
use version_set::{Version, payload_len};

/// The greatest number that a hint can have.
const LAST_ID: usize = 0xffff_ffff;

/// A pending hint in the index.
#[derive(Clone, Copy, Debug, PartialEq, Eq)]
struct Waiting {
    owner: u16,
    id: u32,
}

/// The hints that a carrier keeps for replicas that are down, as in section 4.6 of the Dynamo paper: each with its
/// owner, its key, its version and its fate.
///
/// Their ids count from 1 to 2^32 - 1. At most 10,000 hints are pending. A delivered hint is never removed, and keeps
/// its fate. On error a store is unchanged.
///
/// ```
/// expect(keep(alloc, store, 2, 1)? == 1, "the first hint is 1")?;
/// let hint = store.next(alloc, 2, 0)?.ok_or("no hint for 2")?;
/// ```
#[derive(Debug)]
pub struct HintStore {
    hints: Vec<Kept>,
    pending: Vec<Waiting>,
    /// The number of bytes of the hints, at most 2^64 - 1.
    bytes: u64,
}

impl Model for HintStore {
    ghost use Rattle.std.specs.Prelude.{◌≡◌, ◌-◌, ◌^◌, List, min};
    ghost use Rattle.hint_store.specs.declared.hint.Kept.{Kept};
    ghost use Rattle.hint_store.specs.Hints.{AreHints};
    ghost use Rattle.hint_store.specs.Sizes.{hints_len};
    ghost use Rattle.hint_store.specs.Waits.{AreWaiting};

    ghost Value = { List Kept };

    ghost view = { λ s. s.hints.items };

    ghost invariant = { λ s. AreHints s.hints.items × AreWaiting s.hints.items s.pending.items
        × (s.bytes ≡ min (hints_len s.hints.items) (2 ^ 64 - 1)) };
}

impl HintStore {
    /// Creates an empty store. Doesn't allocate.
    pub fn new(alloc: Global) -> HintStore
        ensures { result ≡ [] }
    {
        HintStore {
            hints: Vec::new(alloc),
            pending: Vec::new(alloc),
            bytes: 0,
        }
    }

    /// Returns the number of pending hints, at most 10,000.
    pub fn pending(&self) -> u32
        ensures count { result ≡ pending_count self.now }
        ensures valid { AreHints self.now }
    {
        self.pending.len() as u32
    }

    /// Returns the number of delivered hints.
    #[tactic(auto, using(crate::proofs::WaitLaws::pending_count_le))]
    pub fn delivered(&self) -> u32
        ensures { result + pending_count self.now ≡ length self.now }
    {
        let pending = self.pending();
        self.len() as u32 - pending
    }

    /// Returns the numbers of pending and of delivered hints. Doesn't allocate.
    pub fn counts(&self) -> HintCounts
        ensures { result ≡ counts_of self.now }
    {
        HintCounts {
            pending: self.pending(),
            delivered: self.delivered(),
        }
    }

    /// Returns the number of bytes of the hints' keys, values and clocks, pending or delivered, at most 2^64 - 1: 10
    /// bytes for each pair of a clock. Reads no hint.
    pub fn bytes(&self) -> u64
        ensures { result ≡ min (hints_len self.now) (2 ^ 64 - 1) }
    {
        self.bytes
    }

    /// Returns the hint with this id, pending or delivered, or `None` if the id is 0 or not used yet.
    pub fn get(&self, id: u32) -> Option<&Kept>
        ensures { option_copied result ≡ kept_at self.now id }
    {
        if id == 0 {
            return None;
        }
        self.hints.get(id as usize - 1)
    }

    /// Keeps a version for a replica that is down, and returns the hint's id, the next one after the last: from 1 to
    /// 2^32 - 1. Does a binary search, and moves at most 10,000 small entries.
    ///
    /// Refused, in order: HintsFull (10,000 hints are pending, or the last id was used), NoMemory.
    pub fn keep(&mut self, owner: u16, key: Bytes, version: Version) -> Result<u32, Refusal>
        ensures { Does result self.old self.new (keep self.old owner key version) }
    {
        if self.is_full() {
            return Err(Refusal::HintsFull);
        }
        self.hints.reserve(1)?;
        self.pending.reserve(1)?;
        let last = self.hints.len() as u32;
        let id = last + 1;
        let place = place_after(&self.pending, owner, last);
        self.pending.insert(place, Waiting { owner, id }).unwrap();
        let len = payload_len(key.as_slice(), &version);
        self.bytes = self.bytes.saturating_add(len);
        let hint = Hint {
            id,
            owner,
            key,
            version,
        };
        let fate = Fate::Pending;
        self.hints.push(Kept { hint, fate }).unwrap();
        Ok(id)
    }

    /// Returns the id of the pending hint of an owner with the least id over `after`. Does a binary search. Doesn't
    /// allocate.
    pub fn next_id(&self, owner: u16, after: u32) -> Option<u32>
        ensures { result ≡ option_map (λ h. h.id) (next_hint (owner ∷ []) after self.now) }
    {
        let place = place_after(&self.pending, owner, after);
        id_at(&self.pending, place, owner)
    }

    /// Returns a copy of the pending hint of an owner with the least id over `after`. Does a binary search over the
    /// pending hints.
    ///
    /// Refused: NoMemory.
    pub fn next(&self, alloc: Global, owner: u16, after: u32) -> Result<Option<Hint>, Refusal>
        ensures { Answers result None (λ found. found ≡ next_hint (owner ∷ []) after self.now) }
    {
        // Called only for its clause `valid`: the ids count from 1.
        let _valid = self.pending();
        self.copy_of(alloc, self.next_id(owner, after))
    }

    /// Returns a copy of the pending hint with the least id over `after` whose owner is one of `owners`. Does a binary
    /// search over the pending hints for each owner.
    ///
    /// Refused: NoMemory.
    pub fn next_of(
        &self,
        alloc: Global,
        owners: &[u16],
        after: u32,
    ) -> Result<Option<Hint>, Refusal>
        ensures { Answers result None (λ found. found ≡ next_hint owners.now after self.now) }
    {
        // Called only for its clause `valid`: the ids count from 1.
        let _valid = self.pending();
        let mut least = None;
        for owner in owners {
            least = lesser(least, self.next_id(*owner, after));
        }
        self.copy_of(alloc, least)
    }

    /// Records a delivery: the hint is no longer pending, and its fate is Taken or Known. The delivery's owner, key and
    /// version must be the hint's. Does a binary search, and moves at most 10,000 small entries. Doesn't allocate.
    ///
    /// Refused: UnknownHint (no pending hint has this id with this owner, key and version).
    pub fn confirm(&mut self, id: u32, delivery: Delivery) -> Result<(), Refusal>
        ensures confirms { DoesAtOnce result self.old self.new (confirm self.old id delivery) }
        ensures fact { IsOk result ↔ Any (IsAnswered id delivery) self.old }
        ensures kept { OnOk result (option_and_then delivery_of (kept_at self.new id) ≡ Some delivery) }
    {
        // Called only for its clause `valid`: the ids count from 1.
        let _valid = self.pending();
        if !self.awaits(id, &delivery) {
            return Err(Refusal::UnknownHint);
        }
        self.close(id, delivery.owner, delivery.known);
        Ok(())
    }

    /// Records that a pending hint was delivered to its owner, who knew its version or accepted it, like `confirm` with
    /// the hint's owner, key and version. Doesn't allocate.
    ///
    /// Refused: UnknownHint (no pending hint has this id).
    pub fn settle(&mut self, id: u32, known: bool) -> Result<(), Refusal>
        ensures { DoesAtOnce result self.old self.new (settle self.old id known) }
    {
        // Called only for its clause `valid`: the ids count from 1.
        let _valid = self.pending();
        let owner = self.waiting_owner(id).ok_or(Refusal::UnknownHint)?;
        self.close(id, owner, known);
        Ok(())
    }

    /// Returns a store with only the pending hints, in order, numbered again from 1. This store is unchanged.
    ///
    /// Refused: NoMemory.
    pub fn renewed(&self, alloc: Global) -> Result<HintStore, Refusal>
        ensures { Answers result None (λ store. store ≡ renewed self.now) }
    {
        renewed_from(alloc, &self.hints)
    }

    /// Returns the number of hints.
    fn len(&self) -> usize
        ensures { result ≡ length self.now }
    {
        self.hints.len()
    }

    /// Returns true if no hint can be kept: 10,000 are pending, or the last id was used.
    #[tactic(auto, using(crate::proofs::HintLaws::full_of_pending, crate::proofs::HintLaws::full_of_ids))]
    fn is_full(&self) -> bool
        ensures { keep_fault self.now ≡ (if result then Some Refusal.HintsFull else None) }
    {
        self.pending() >= PENDING_HINTS_MAX || self.len() >= LAST_ID
    }

    /// Returns true if the delivery matches a pending hint with this id.
    fn awaits(&self, id: u32, delivery: &Delivery) -> bool
        ensures { result ≡ list_any (is_answered id delivery.now) self.now }
    {
        // Called only for its clause `valid`: the ids count from 1.
        let _valid = self.pending();
        match self.get(id) {
            Some(kept) => is_open(kept.fate) && is_delivery_of(delivery, &kept.hint),
            None => false,
        }
    }

    /// Ends the wait of the pending hint with an id.
    fn close(&mut self, id: u32, owner: u16, known: bool)
        requires { MatchOption (kept_at self.old id) ⊥ (λ k. (k.fate ≡ Pending) × (k.hint.owner ≡ owner)) }
        ensures { self.new ≡ closed self.old id known }
    {
        let last = id - 1;
        let place = place_after(&self.pending, owner, last);
        self.pending.remove(place);
        self.hints[last as usize].fate = fate_of(known);
    }

    /// Returns the owner of the pending hint with an id, if any.
    fn waiting_owner(&self, id: u32) -> Option<u16>
        ensures { result ≡ option_and_then waiting_owner (kept_at self.now id) }
    {
        let kept = self.get(id)?;
        if is_open(kept.fate) {
            Some(kept.hint.owner)
        } else {
            None
        }
    }

    /// Returns a copy of the hint with an id, if any. Refused: NoMemory.
    fn copy_of(&self, alloc: Global, id: Option<u32>) -> Result<Option<Hint>, Refusal>
        ensures { Answers result None (λ found. found ≡ option_map (λ k. k.hint) (option_and_then (kept_at self.now) id)) }
    {
        let Some(id) = id else {
            return Ok(None);
        };
        match self.get(id) {
            Some(kept) => Ok(Some(kept.hint.try_clone(alloc)?)),
            None => Ok(None),
        }
    }
}

/// Returns a store with the pending ones of these hints, in order, numbered from 1. Refused: NoMemory.
fn renewed_from(alloc: Global, hints: &[Kept]) -> Result<HintStore, Refusal>
    requires { AreHints hints.now }
    ensures { Answers result None (λ store. store ≡ renewed hints.now) }
{
    let mut store = HintStore::new(alloc);
    for kept in hints {
        if !is_open(kept.fate) {
            continue;
        }
        let key = kept.hint.key.try_clone()?;
        let version = kept.hint.version.try_clone()?;
        store.keep(kept.hint.owner, key, version)?;
    }
    Ok(store)
}

/// Returns the id of the entry at a place, or `None` if it is missing or belongs to another owner.
fn id_at(pending: &[Waiting], place: usize, owner: u16) -> Option<u32>
    ensures { result ≡ id_of owner (slice_get pending.now place) }
{
    match pending.get(place) {
        Some(waiting) => {
            if waiting.owner == owner {
                Some(waiting.id)
            } else {
                None
            }
        }
        None => None,
    }
}

/// Counts the entries up to an owner and an id.
fn place_after(pending: &[Waiting], owner: u16, id: u32) -> usize
    requires { AllPairs IsBefore pending.now }
    ensures bound { result ≤ length pending.now }
    ensures place { IsPartitionPoint (λ w. is_up_to owner id w ≡ true) (λ w. is_up_to owner id w ≡ false) pending.now result }
{
    pending.partition_point(|waiting| is_at_most(waiting, owner, id))
}

/// Returns true if an entry is the one of an owner and an id, or before it.
fn is_at_most(waiting: &Waiting, owner: u16, id: u32) -> bool
    ensures { result ≡ is_up_to owner id waiting.now }
{
    waiting.owner < owner || (waiting.owner == owner && waiting.id <= id)
}

/// Returns true if this is the fate of a pending hint.
fn is_open(fate: Fate) -> bool
    ensures { result ≡ is_undelivered fate }
{
    match fate {
        Fate::Pending => true,
        Fate::Taken | Fate::Known => false,
    }
}

/// Returns the fate of a hint after a delivery.
fn fate_of(known: bool) -> Fate
    ensures { result ≡ fate_if known }
{
    if known { Fate::Known } else { Fate::Taken }
}

/// Returns true if a delivery has the owner, the key and the version of a hint.
fn is_delivery_of(delivery: &Delivery, hint: &Hint) -> bool
    ensures { result ≡ delivers_hint delivery.now hint.now }
{
    hint.owner == delivery.owner
        && hint.key.as_slice() == delivery.key.as_slice()
        && hint.version.text_order(&delivery.version) == Ordering::Equal
}

/// Returns the lesser of two ids if both are present, otherwise the one that is, if any.
fn lesser(one: Option<u32>, other: Option<u32>) -> Option<u32>
    ensures { result ≡ earliest one other }
{
    match (one, other) {
        (Some(a), Some(b)) => Some(a.min(b)),
        (Some(a), None) => Some(a),
        (None, b) => b,
    }
}

impl Drop for HintStore {
    /// Keeps the fields out of the proofs of callers that drop a store.
    fn drop(self) {
        let HintStore {
            hints: _hints,
            pending: _pending,
            bytes: _bytes,
        } = self;
    }
}
