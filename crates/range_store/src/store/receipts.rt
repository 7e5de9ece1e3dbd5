//! Calls that also append their receipts to a list of the caller.
ghost use Rattle.std.specs.Prelude.{◌≡◌, ◌+◌, ◌≤◌, ◌++◌, ◌⊎◌, [], None, IfOk, IfErr, IsTrue};
ghost use Rattle.std.specs.Vec.{vec_len, vec_capacity};
ghost use Rattle.vclock.specs.Answer.{Answers};
ghost use Rattle.vclock.specs.Outcome.{Does, DoesOrNoMemory};
ghost use Rattle.range_store.specs.ContextTests.{put_by};
ghost use Rattle.range_store.specs.Store.{is_sent, ask_fault, entry_of, admit, accept};
ghost use Rattle.range_store.specs.Fitting.{IsFitting};
ghost use Rattle.range_store.specs.Receipts.{with_put, with_sent};

use crate::context_test::ContextTest;
use crate::receipt::{Accepted, Receipt};
use crate::store::RangeStore;
use key_ring::HashedKey;
use range_journal::{Entry, Source, copy_entries};
use std::alloc::Global;
use vclock::{Bytes, Clock, Refusal};
use version_set::{Kind, Version};

impl RangeStore {
    /// Puts a value like `put`, for a key that was hashed before, and appends a copy of the receipt to a list. Refused
    /// like `put`. On error the list is unchanged.
    pub fn put_into(
        &mut self,
        alloc: Global,
        receipts: &mut Vec<Receipt>,
        test: ContextTest,
        seat: u16,
        at: u16,
        key: &HashedKey,
        context: &Clock,
        kind: Kind,
        value: Bytes,
    ) -> Result<Receipt, Refusal>
        requires { 1 ≤ at }
        ensures puts { DoesOrNoMemory result self.old self.new
            (put_by test self.old seat at key.now context.now kind value) }
        ensures early { IfErr result (λ e. e ≡ Refusal.NoMemory
            → ask_fault self.old.config at key.now context.now kind value ≡ None) }
        ensures appended { receipts.new.items ≡ with_put receipts.old.items result }
    {
        let (home, version) = self.make_put(alloc, test, at, key, context, kind, value)?;
        let key = key.bytes();
        self.admit(
            alloc,
            receipts,
            true,
            home,
            seat,
            Source::Client,
            key,
            version,
        )
    }

    /// Accepts a version like `accept`, for a key that was hashed before, and appends a copy of the receipt, if any, to
    /// a list. Refused like `accept`. On error the list is unchanged.
    pub fn accept_into(
        &mut self,
        alloc: Global,
        receipts: &mut Vec<Receipt>,
        seat: u16,
        source: Source,
        key: &HashedKey,
        version: Version,
    ) -> Result<Accepted, Refusal>
        requires { IsTrue (is_sent source) }
        ensures accepts { Does result self.old self.new (accept self.old seat source key.now version) }
        ensures appended { receipts.new.items ≡ with_sent receipts.old.items result }
    {
        let Some(home) = self.home_of_news(key, &version)? else {
            return Ok(Accepted::Known);
        };
        let key = key.bytes();
        let receipt = self.admit(alloc, receipts, true, home, seat, source, key, version)?;
        Ok(Accepted::Taken(receipt))
    }
}

/// Copies entries as receipts, and reserves capacity for them in a list that isn't empty. Refused: NoMemory.
pub fn receipts_beside(
    alloc: Global,
    list: &mut Vec<Receipt>,
    entries: &[Entry],
) -> Result<Vec<Receipt>, Refusal>
    ensures copies { Answers result None (λ receipts. receipts.items ≡ entries.now) }
    ensures same { list.new.items ≡ list.old.items }
    ensures room { IfOk result (λ receipts. (list.new.items ≡ [])
        ⊎ (vec_len list.new + vec_len receipts ≤ vec_capacity list.new)) }
{
    if !list.is_empty() {
        list.reserve(entries.len())?;
    }
    copy_entries(alloc, entries)
}

/// Moves receipts to the end of a list that is empty or has capacity for them.
pub fn move_to(list: &mut Vec<Receipt>, mut receipts: Vec<Receipt>)
    requires { (list.old.items ≡ []) ⊎ (vec_len list.old + vec_len receipts ≤ vec_capacity list.old) }
    ensures { list.new.items ≡ list.old.items ++ receipts.items }
{
    if list.is_empty() {
        *list = receipts;
    } else {
        list.append(&mut receipts).unwrap();
    }
}
