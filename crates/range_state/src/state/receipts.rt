//! Calls that also append their receipts to a list of the caller.
ghost use Rattle.std.specs.Prelude.{◌≡◌, ◌≤◌, None, IfErr, IsTrue};
ghost use Rattle.vclock.specs.Outcome.{Does, DoesOrNoMemory};
ghost use Rattle.range_store.specs.Store.{is_sent, ask_fault};
ghost use Rattle.range_store.specs.Receipts.{with_put, with_sent};
ghost use Rattle.range_state.specs.State.{put_by, accept};
ghost use Rattle.range_state.specs.Receipts.{CountsAnswer};

use crate::event::{AnswerCounted, AnswerTaken};
use crate::state::RangeState;
use key_ring::HashedKey;
use range_journal::Source;
use range_store::{Accepted, ContextTest, Receipt, move_to};
use std::alloc::Global;
use tree_nodes::{Hashed, NodeAt};
use vclock::{Bytes, Clock, Refusal};
use version_set::{Kind, Version};

impl RangeState {
    /// Puts a value, like `put` or `put_read`, by the test of its context, for a key that was already hashed, and
    /// appends a copy of the receipt to a list. Refused like that call. On error the list is unchanged.
    pub fn put_into(
        &mut self,
        alloc: Global,
        receipts: &mut Vec<Receipt>,
        test: ContextTest,
        seat: u16,
        at: u16,
        key: &HashedKey,
        context: &Clock,
        kind: Kind,
        value: Bytes,
    ) -> Result<Receipt, Refusal>
        requires { 1 ≤ at }
        ensures puts { DoesOrNoMemory result self.old self.new
            (put_by test self.old seat at key.now context.now kind value) }
        ensures early { IfErr result (λ e. e ≡ Refusal.NoMemory
            → ask_fault self.old.store.config at key.now context.now kind value ≡ None) }
        ensures appended { receipts.new.items ≡ with_put receipts.old.items result }
    {
        let done = self
            .store
            .put_into(alloc, receipts, test, seat, at, key, context, kind, value);
        // Called only for its clause: the store is sound.
        let _sound = self.store.journal();
        done
    }

    /// Accepts a version, like `accept`, for a key that was already hashed, and appends a copy of the receipt, if any,
    /// to a list. Refused like `accept`. On error the list is unchanged.
    pub fn accept_into(
        &mut self,
        alloc: Global,
        receipts: &mut Vec<Receipt>,
        seat: u16,
        source: Source,
        key: &HashedKey,
        version: Version,
    ) -> Result<Accepted, Refusal>
        requires { IsTrue (is_sent source) }
        ensures accepts { Does result self.old self.new (accept self.old seat source key.now version) }
        ensures appended { receipts.new.items ≡ with_sent receipts.old.items result }
    {
        let done = self
            .store
            .accept_into(alloc, receipts, seat, source, key, version);
        // Called only for its clause: the store is sound.
        let _sound = self.store.journal();
        done
    }

    /// Takes a text, like `take_answer`, and moves the receipts to the end of a list. Refused like `take_answer`. On
    /// error the list is unchanged.
    pub fn take_answer_into(
        &mut self,
        alloc: Global,
        receipts: &mut Vec<Receipt>,
        seat: u16,
        id: u64,
        node: NodeAt,
        text: Hashed,
    ) -> Result<AnswerCounted, Refusal>
        ensures { CountsAnswer self.old seat id (record { node = node; text = text }) result self.new receipts.old.items receipts.new.items }
    {
        let place = self.place(id);
        let AnswerTaken {
            receipts: added,
            known,
            state,
        } = self.take_answer_beside(alloc, receipts, seat, place, node, text)?;
        let count = added.len() as u64;
        move_to(receipts, added);
        Ok(AnswerCounted {
            receipts: count,
            known,
            state,
        })
    }
}
