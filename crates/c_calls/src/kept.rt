//! A replica's state, and the numbers of its entries in C.
ghost use Rattle.std.specs.Prelude.{◌≡◌, ◌+◌, ◌-◌, ◌^◌, ◌<◌, ◌≤◌, length, ⊤, true, false, None, IfOk, IfErr, IfSome, MatchOption};
ghost use Rattle.std.specs.Fn.{CalledAtMut};
ghost use Rattle.std.specs.List.{AllByRecursion};
ghost use Rattle.std.specs.Option.{option_copied};
ghost use Rattle.vclock.specs.Answer.{Answers, AnswersAtOnce};
ghost use Rattle.vclock.specs.Outcome.{DoesOrNoMemory, through};
ghost use Rattle.range_state.specs.Moments.{shown_fault};
ghost use Rattle.range_state.specs.State.{put_by};
ghost use Rattle.c_calls.specs.Kept.{numbered, with_state, entries_in, entry_at, front_in, renewal_fault, renewed_kept};
ghost use Rattle.c_calls.specs.KeptRenewals.{IsNoLonger, first_number_fault, finish_fault, IsRenewedBy, FallsBehindUnless};
ghost use Rattle.c_calls.specs.Packed.{IsWithin, entries_from, is_no_position};
ghost use Rattle.c_calls.specs.Published.{shown_entries};

use range_journal::Entry;
use range_state::{ContextTest, LocalRows, RangeState, Receipt, Renewal, Unfinished};
use std::alloc::Global;
use std::marker::Model;
use vclock::limits::ENTRIES_MAX;
use vclock::{Bytes, Clock, Refusal};
use version_set::Kind;

/// A replica's state, and the numbers that C uses for its entries. The numbers continue over renewals.
#[derive(Drop)]
pub struct Kept {
    state: RangeState,
    /// The number of the journal's first entry.
    first: u64,
    /// The number of entries at which the last renewal began: 0 if there was none.
    renewed: u64,
}

impl Model for Kept {
    ghost use Rattle.std.specs.Prelude.{◌+◌, ◌^◌, ◌<◌};
    ghost use Rattle.c_calls.specs.Kept.{KeptState};

    ghost Value = { KeptState };

    ghost view = { λ k. record { state = k.state; first = k.first; renewed = k.renewed } };

    ghost invariant = { λ k. k.first + 1000000 < 2 ^ 64 };
}

impl Kept {
    /// Keeps a state whose entries are numbered from 0.
    pub(crate) fn new(state: RangeState) -> Kept
        ensures { result ≡ numbered state }
    {
        Kept {
            state,
            first: 0,
            renewed: 0,
        }
    }

    /// Makes a new replica that begins with the versions that this one holds, as [`RangeState::renewed`] does at seat
    /// 0. The last number that was used here belongs to its last entry.
    ///
    /// Refused, in order: BadRing (the limit), JournalFull (more versions are held than the limit, or a number could be
    /// over 2^64 - 1 after 1,000,000 entries more), NoMemory.
    pub(crate) fn renewed(&self, alloc: Global, limit: u64) -> Result<Kept, Refusal>
        ensures { Answers result (renewal_fault self.now limit) (λ new. new ≡ renewed_kept self.now limit) }
    {
        let renewed = self.entries();
        if renewed.checked_add(ENTRIES_MAX).is_none() {
            self.state.store().check_limit(limit)?;
            return Err(Refusal::JournalFull);
        }
        let state = self.state.renewed(alloc, 0, limit)?;
        let first = renewed - state.journal().len();
        Ok(Kept {
            state,
            first,
            renewed,
        })
    }

    /// Tests that the journal begins at a number. Doesn't allocate. Refused: Stale.
    pub(crate) fn check_first(&self, first: u64) -> Result<(), Refusal>
        ensures { AnswersAtOnce result (first_number_fault first self.now) (λ _. ⊤) }
    {
        if first != self.first {
            return Err(Refusal::Stale);
        }
        Ok(())
    }

    /// Tests that 1,000,000 entries more have numbers, if the journal begins at a number. Doesn't allocate. Refused, in
    /// order: Stale, JournalFull.
    fn check_numbers(&self, first: u64) -> Result<(), Refusal>
        ensures { AnswersAtOnce result (finish_fault first self.now) (λ _. ⊤) }
    {
        self.check_first(first)?;
        if self.entries().checked_add(ENTRIES_MAX).is_none() {
            return Err(Refusal::JournalFull);
        }
        Ok(())
    }

    /// Puts the new range of a renewal in the place of the state, as [`Renewal::finish`] does at seat 0, and returns
    /// the old one. The last number that was used here belongs to its last entry.
    ///
    /// Refused, in order: Stale (the journal doesn't begin at the number `first`), JournalFull (after 1,000,000 entries
    /// more a number could be over 2^64 - 1); then as [`Renewal::finish`] is. On error the replica is unchanged.
    pub(crate) fn replace_by(
        &mut self,
        alloc: Global,
        first: u64,
        renewal: Renewal,
    ) -> Result<RangeState, Unfinished>
        requires { IsNoLonger renewal }
        ensures done { IfOk result (λ old. (old ≡ self.old.state) × (finish_fault first self.old ≡ None)
            × IsRenewedBy renewal self.old self.new) }
        ensures refused { IfErr result (λ unfinished. (self.new ≡ self.old)
            × FallsBehindUnless (finish_fault first self.old) renewal self.old.state unfinished.refusal unfinished.renewal) }
    {
        if let Err(refusal) = self.check_numbers(first) {
            return Err(Unfinished { renewal, refusal });
        }
        let entries = self.entries();
        let began = renewal.began();
        let old = renewal.finish(alloc, 0, &mut self.state)?;
        self.renewed = self.first + began;
        self.first = entries - self.state.journal().len();
        Ok(old)
    }

    /// The state.
    pub fn state(&self) -> &RangeState
        ensures { result.now ≡ self.now.state }
    {
        &self.state
    }

    /// The number of the journal's first entry.
    pub fn first(&self) -> u64
        ensures first { result ≡ self.now.first }
        ensures within { result + 1000000 < 2 ^ 64 }
    {
        self.first
    }

    /// Returns the number of entries, with those before the journal's first one.
    pub(crate) fn entries(&self) -> u64
        ensures count { result ≡ entries_in self.now }
        ensures within { length self.now.state.store.entries ≤ 1000000 }
    {
        self.first + self.state.journal().len()
    }

    /// Returns the number of entries at the last moment that was whole.
    pub(crate) fn front(&self) -> u64
        ensures { result ≡ front_in self.now }
    {
        let entries = self.state.journal().len();
        self.first + self.state.whole_front().min(entries)
    }

    /// Returns the number of entries that made the current rows, or the rows of the moment, which is whole.
    pub(crate) fn shown_entries(&self, local: LocalRows) -> u64
        requires { shown_fault local self.now.state ≡ None }
        ensures { result ≡ shown_entries local self.now }
    {
        match local {
            LocalRows::Now => self.entries(),
            LocalRows::Moment => {
                // Called only for its clause: the moment is one of the journal.
                let _right = self.state.journal();
                self.front()
            }
        }
    }

    /// Returns the entry of a number, if the journal has it.
    pub(crate) fn entry(&self, number: u64) -> Option<&Entry>
        ensures { option_copied result ≡ entry_at self.now number }
    {
        if number < self.first {
            return None;
        }
        self.state.journal().get(number - self.first)
    }

    /// Returns the number of the journal's entries of numbers below `entries`; more if the journal ends before.
    pub(crate) fn below(&self, entries: u64) -> u64
        ensures { result ≡ entries - self.now.first }
    {
        entries.saturating_sub(self.first)
    }

    /// Returns the entries from a number on, or `None` if the number isn't a position.
    pub(crate) fn entries_from(&self, from: u64) -> Option<&[Entry]>
        ensures are { MatchOption result (is_no_position self.now from ≡ true)
            (λ es. (is_no_position self.now from ≡ false) × (es.now ≡ entries_from self.now from)) }
        ensures within { IfSome result (λ es. AllByRecursion (IsWithin self.now.state.store.config.format) es.now) }
        ensures numbers { IfSome result (λ es. from + length es.now < 2 ^ 64) }
    {
        let journal = self.state.journal();
        if from > self.entries() || (from < self.renewed && from != self.first) {
            return None;
        }
        Some(&journal.entries()[self.below(from) as usize..])
    }

    /// Calls a function with the state, and returns its code.
    pub fn call<F: FnMut(&mut RangeState) -> u32>(&mut self, call: &mut F) -> u32
        requires { F.IsAlwaysCallable call.old }
        ensures first { self.new.first ≡ self.old.first }
        ensures renewed { self.new.renewed ≡ self.old.renewed }
        ensures called { CalledAtMut F.FnMut call.old self.old.state result call.new self.new.state }
    {
        call(&mut self.state)
    }

    /// Puts a value at a node, or a tombstone, at seat 0, as [`RangeState::put`] or [`RangeState::put_read`] does, by
    /// the test of its context. The receipt has the number of the journal.
    pub(crate) fn put(
        &mut self,
        alloc: Global,
        test: ContextTest,
        node: u16,
        key: &[u8],
        context: &Clock,
        kind: Kind,
        value: Bytes,
    ) -> Result<Receipt, Refusal>
        requires { 1 ≤ node }
        ensures puts { DoesOrNoMemory result self.old self.new
            (through (with_state self.old) (put_by test self.old.state 0 node key.now context.now kind value)) }
        ensures number { IfOk result (λ entry. self.old.first + entry.number < 2 ^ 64) }
    {
        // Called only for its clause: the journal has at most 1,000,000 entries.
        let _entries = self.entries();
        match test {
            ContextTest::Fresh => self.state.put(alloc, 0, node, key, context, kind, value),
            ContextTest::Read => self
                .state
                .put_read(alloc, 0, node, key, context, kind, value),
        }
    }
}
