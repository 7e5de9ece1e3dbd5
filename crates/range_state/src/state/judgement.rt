//! Judgement of a partner's text before any of it is kept.
ghost use Rattle.std.specs.Prelude.{◌≡◌, ◌+◌, ℕ, List, [], ◌∷◌, ◌++◌, ⊤, None, length};
ghost use Rattle.vclock.specs.Answer.{AnswersAtOnce, AnswersOrNoMemory};
ghost use Rattle.range_journal.specs.Journal.{held};
ghost use Rattle.range_journal.specs.declared.journal.Source.TheVariants as sources;
ghost use Rattle.row_bytes.specs.declared.row.Row.{Row};
ghost use Rattle.tree_nodes.specs.Nodes.{tree_depth};
ghost use Rattle.sync_session.specs.Readings.{IsReadTo};
ghost use Rattle.sync_session.specs.Walks.{Held};
ghost use Rattle.range_state.specs.Records.{IsKept};
ghost use Rattle.range_store.specs.Offers.{offers_in, offers_of, crowded_in};
ghost use Rattle.range_state.specs.Sessions.{taken_in, leaf_fault, TellsText};
ghost use Rattle.range_state.specs.Judgements.{HasOtherKeys, IsCounted, JudgesLeaf};

use crate::record::Record;
use crate::state::RangeState;
use crate::state::sync::sum;
use row_bytes::Row;
use std::alloc::Global;
use sync_session::{News, NewsPlace, NewsStep, Session};
use tree_nodes::{Hashed, NodeAt};
use vclock::Refusal;
use version_set::Offered;

impl RangeState {
    /// Returns the news in a text that the session of a kept record awaits, if all of it can be taken: no rows for an
    /// inner node. A leaf's text is judged first, a row at a time, so a refused leaf costs the memory of one row.
    ///
    /// Refused, in order: NotAsked, WrongDigest, NotCanonical, Crowded, JournalFull, NoMemory. At a leaf NoMemory may
    /// replace NotCanonical, Crowded and JournalFull.
    pub(super) fn news_of(
        &self,
        alloc: Global,
        kept: &Record,
        node: NodeAt,
        text: &Hashed,
    ) -> Result<News, Refusal>
        requires { IsKept self.now.store.config self.now.store.entries kept.now }
        ensures { (seat : ℕ) → TellsText self.now seat kept.now
            (record { node = node; text = text.now }) result }
    {
        if let Some(first) = kept.session.begin_news(node, text)? {
            self.judge_leaf(alloc, &kept.session, node, first)?;
        }
        kept.session.news_of(alloc, node, text)
    }

    /// Judges a leaf's text from its first row on. Refused, in order: NotCanonical (no rows of the range give the leaf
    /// this text), Crowded, JournalFull, NoMemory, which may replace each of them.
    fn judge_leaf(
        &self,
        alloc: Global,
        session: &Session,
        node: NodeAt,
        first: NewsPlace<'_>,
    ) -> Result<(), Refusal>
        requires leaf { node.depth ≡ tree_depth session.now.own.format }
        requires own { Held session.now.own.rows (held self.now.store.entries) }
        requires read { (text : List ℕ)
            × IsReadTo session.now.own node text first.last.now first.rest.now [] first.known }
        ensures { (text : List ℕ) (seat : ℕ)
            → IsReadTo session.now.own node text first.entry.last.now first.entry.rest.now [] first.entry.known
            → JudgesLeaf self.now.store seat session.now.own node text result }
    {
        let mut place = first;
        let mut news = Some(0);
        'rows: loop {
            let NewsStep { row, place: after } = session.next_news(alloc, node, place)?;
            place = after;
            match row {
                Some(row) => news = self.with_news(alloc, &row, news)?,
                None => return self.judge(news),
            }
        }
    }

    /// Judges the news of a leaf by their number, which is `None` if a key has too many versions. Refused, in order:
    /// Crowded, JournalFull.
    fn judge(&self, news: Option<u64>) -> Result<(), Refusal>
        ensures { (seat : ℕ) (others : List Row) → IsCounted self.now.store seat others news
            → AnswersAtOnce result (leaf_fault self.now.store seat (offers_of others)) (λ _. ⊤) }
    {
        match news {
            None => Err(Refusal::Crowded),
            Some(count) if count > self.store.config().limit() - self.store.journal().len() => {
                Err(Refusal::JournalFull)
            }
            Some(_) => Ok(()),
        }
    }

    /// Adds the number of a row's new versions. Returns `None` from the first version on that is too many for its key.
    /// Refused: NoMemory.
    fn with_news(&self, alloc: Global, row: &Row, news: Option<u64>) -> Result<Option<u64>, Refusal>
        ensures { (seat : ℕ) (others : List Row) → IsCounted self.now.store seat others news → HasOtherKeys row.now others
            → AnswersOrNoMemory result None (IsCounted self.now.store seat (others ++ row.now ∷ [])) }
    {
        let Some(count) = news else {
            return Ok(None);
        };
        match self.count_news(alloc, row) {
            Ok(more) => Ok(Some(sum(count, more)?)),
            Err(Refusal::Crowded) => Ok(None),
            Err(refusal) => Err(refusal),
        }
    }

    /// Counts the new versions of a row. Refused: Crowded (one version, in its turn, would be too many for the key),
    /// NoMemory, which may replace Crowded.
    fn count_news(&self, alloc: Global, row: &Row) -> Result<u64, Refusal>
        ensures { (seat : ℕ) → AnswersOrNoMemory result (crowded_in self.now.store seat sources.Partner (offers_in row.now))
            (λ count. length (taken_in self.now.store seat (offers_in row.now)).entries ≡ length self.now.store.entries + count) }
    {
        let mut set = self.store.get(alloc, row.key.as_slice())?;
        let mut count = 0;
        for version in row.versions.as_slice() {
            match set.offer(version.try_clone()?)? {
                Offered::Added => count += 1,
                Offered::Known => {}
            }
        }
        Ok(count)
    }
}
