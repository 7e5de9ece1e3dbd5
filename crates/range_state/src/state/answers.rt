//! Texts that partners send.
ghost use Rattle.std.specs.Prelude.{ℕ, ◌≡◌, ◌+◌, ◌≤◌, ◌⊎◌, [], slice_get, MatchOption, IfOk};
ghost use Rattle.std.specs.Vec.{vec_len, vec_capacity};
ghost use Rattle.sync_session.specs.Steps.{failed, IsDue};
ghost use Rattle.sync_session.specs.Walks.{TakenText, IsCanonical};
ghost use Rattle.range_state.specs.Sessions.{walked_to, IsInnerRead, IsNewsRead, TakesAt, TakesAnswer};

use crate::event::AnswerTaken;
use crate::state::RangeState;
use range_journal::Source;
use range_store::{Receipt, receipts_beside};
use std::alloc::Global;
use sync_session::News;
use tree_nodes::{Hashed, NodeAt, tree_depth};
use vclock::Refusal;

impl RangeState {
    /// Takes a partner's text for a node of a session. For an inner node it asks the children that differ; for a leaf
    /// it accepts all of its versions or none.
    ///
    /// Refused, in order: UnknownSession (no record has that number), NotAsked, WrongDigest, NotCanonical (the session
    /// fails), Crowded (one version, in its turn, would be too many for its key), JournalFull, NoMemory. Reading a leaf
    /// allocates, so at a leaf NoMemory may replace NotCanonical, Crowded and JournalFull. The state is unchanged after
    /// any refusal but NotCanonical.
    ///
    /// A leaf is judged a row at a time before its rows are copied, so a refused leaf takes the memory of one row. A
    /// row that is also in the session's snapshot isn't read: its bytes are compared, and its versions are known.
    pub fn take_answer(
        &mut self,
        alloc: Global,
        seat: u16,
        id: u64,
        node: NodeAt,
        text: Hashed,
    ) -> Result<AnswerTaken, Refusal>
        ensures { TakesAnswer self.old seat id
            (record { node = node; text = text }) result self.new }
    {
        let place = self.place(id);
        self.take_answer_at(alloc, seat, place, node, text)
    }

    /// Takes a text, like `take_answer`, for the session at a place among the records.
    pub(super) fn take_answer_at(
        &mut self,
        alloc: Global,
        seat: u16,
        place: usize,
        node: NodeAt,
        text: Hashed,
    ) -> Result<AnswerTaken, Refusal>
        ensures { TakesAt self.old seat place
            (record { node = node; text = text }) result self.new }
    {
        let mut list = Vec::new(alloc);
        self.take_answer_beside(alloc, &mut list, seat, place, node, text)
    }

    /// Takes a text, like `take_answer_at`, and reserves space for the receipts in a list that isn't empty.
    pub(super) fn take_answer_beside(
        &mut self,
        alloc: Global,
        list: &mut Vec<Receipt>,
        seat: u16,
        place: usize,
        node: NodeAt,
        text: Hashed,
    ) -> Result<AnswerTaken, Refusal>
        ensures answers { TakesAt self.old seat place
            (record { node = node; text = text }) result self.new }
        ensures same { list.new.items ≡ list.old.items }
        ensures room { IfOk result (λ taken. (list.new.items ≡ [])
            ⊎ (vec_len list.new + vec_len taken.receipts ≤ vec_capacity list.new)) }
    {
        let kept = self.record_at(place)?;
        match self.news_of(alloc, kept, node, &text) {
            Ok(news) => {
                if node.depth == tree_depth(self.store.config().format()) {
                    self.take_leaf(alloc, list, seat, place, node, text, &news)
                } else {
                    self.take_inner(alloc, place, node, text)
                }
            }
            Err(Refusal::NotCanonical) => {
                self.fail_session(place);
                Err(Refusal::NotCanonical)
            }
            Err(refusal) => Err(refusal),
        }
    }

    /// Takes a text of an inner node.
    fn take_inner(
        &mut self,
        alloc: Global,
        place: usize,
        node: NodeAt,
        text: Hashed,
    ) -> Result<AnswerTaken, Refusal>
        requires { MatchOption (slice_get self.old.records place) ⊥
            (λ r. IsInnerRead self.old r (record { node = node; text = text })) }
        ensures answers { (seat : ℕ) → TakesAt self.old seat place
            (record { node = node; text = text }) result self.new }
        ensures none { IfOk result (λ taken. vec_len taken.receipts ≡ 0) }
    {
        let session = &mut self.records[place].session;
        session.take_inner(alloc, node, text)?;
        Ok(AnswerTaken {
            receipts: Vec::new(alloc),
            known: 0,
            state: session.state(),
        })
    }

    /// Takes a text of a leaf with this news, and reserves space for the receipts in a list that isn't empty. Allocates
    /// before it changes anything.
    fn take_leaf(
        &mut self,
        alloc: Global,
        list: &mut Vec<Receipt>,
        seat: u16,
        place: usize,
        node: NodeAt,
        text: Hashed,
        news: &News,
    ) -> Result<AnswerTaken, Refusal>
        requires { MatchOption (slice_get self.old.records place) ⊥
            (λ r. IsNewsRead self.old r (record { node = node; text = text }) news.now) }
        ensures answers { TakesAt self.old seat place
            (record { node = node; text = text }) result self.new }
        ensures same { list.new.items ≡ list.old.items }
        ensures room { IfOk result (λ taken. (list.new.items ≡ [])
            ⊎ (vec_len list.new + vec_len taken.receipts ≤ vec_capacity list.new)) }
    {
        // Called only for its clause: the digest is the text's.
        let _bytes = text.text();
        let leaf = node.index;
        let batch = self
            .store
            .prepare(alloc, seat, Source::Partner, leaf, &news.rows)?;
        let receipts = receipts_beside(alloc, list, batch.entries())?;
        let loaded = self.store.accept_batch(alloc, leaf, batch)?;
        let session = &mut self.records[place].session;
        session.take_leaf(node, text);
        Ok(AnswerTaken {
            receipts,
            known: loaded.known + news.known,
            state: session.state(),
        })
    }

    /// Makes a session fail after a text that it awaits but that the node can't have.
    fn fail_session(&mut self, place: usize)
        requires { MatchOption (slice_get self.old.records place) ⊥
            (λ r. (t : TakenText) × IsDue r.session t × (IsCanonical r.session.own t.node t.text → ⊥)) }
        ensures { MatchOption (slice_get self.old.records place) ⊥
            (λ r. self.new ≡ walked_to self.old place r (failed r.session)) }
    {
        self.records[place].session.fail();
    }
}
