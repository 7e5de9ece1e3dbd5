//! A walk of two trees.
ghost use Rattle.std.specs.Prelude.{◌≡◌, ◌+◌, ◌<◌, ◌≤◌, ◌↔◌, ◌∷◌, ◌++◌, ℕ, List, None, [], true, not, length, IsTrue, map, option_map, MatchResult};
ghost use Rattle.std.specs.Arc.{arc_value};
ghost use Rattle.std.specs.List.{filter};
ghost use Rattle.std.specs.Vec.{vec_len, vec_capacity};
ghost use Rattle.vclock.specs.Answer.{Answers};
ghost use Rattle.vclock.specs.Outcome.{Does, gives};
ghost use Rattle.row_bytes.specs.declared.row.Row.{Row};
ghost use Rattle.tree_nodes.specs.Nodes.{is_same_node, contains_node, tree_depth};
ghost use Rattle.sync_session.specs.Walks.{TakenText, expected, whole_digest, IsCanonical, IsInnerText};
ghost use Rattle.sync_session.specs.Steps.{state_by, started, after, failed, cancelled_by, IsDue, Takes};
ghost use Rattle.sync_session.specs.Readings.{Shows, Tells, Awaits, BeginsAtOnce, IsBeginFault, IsReadTo, StepsTo, IsReadFault};

use crate::news::{News, NewsPlace, NewsStep};
use crate::state::SessionState;
use crate::taken_text::Taken;
use crate::{news, node_list, text_reader};
use hash_tree::leaf_byte;
use row_bytes::RowList;
use snapshot::Snapshot;
use std::alloc::Global;
use std::marker::Model;
use std::sync::Arc;
use tree_nodes::{Digest, Hashed, NodeAt, tree_depth};
use vclock::Refusal;

/// The kind of text that a session took.
#[derive(Debug, Drop)]
pub enum Answered {
    /// The text of an inner node: its children that differ are now asked.
    Inner,
    /// The text of a leaf, with its rows.
    Leaf(RowList),
}

/// A walk of two trees: the rows of the local snapshot are compared with the rows of a partner, whose root is all that
/// is known at first. It asks for the root's text, then for the children whose digests differ, down to the leaves that
/// differ, and no others. The partner isn't trusted: each text must have the digest that is expected at its node.
///
/// Only `start`, `rows_of`, `next_news`, `news_of`, `take` and `take_inner` allocate. On error a session is unchanged,
/// unless `take` refuses a text as NotCanonical: then the session has failed.
///
/// ```
/// match session.take(alloc, node, text)? {
///     Answered::Inner => Ok(None),
///     Answered::Leaf(rows) => Ok(Some(rows.len())),
/// }
/// ```
pub struct Session {
    own: Arc<Snapshot, Global>,
    root: Digest,
    asked: Vec<NodeAt>,
    outstanding: Vec<NodeAt>,
    /// Always has capacity for the text of each outstanding node.
    taken: Vec<Taken>,
    state: SessionState,
}

impl Model for Session {
    ghost use Rattle.std.specs.Prelude.{◌+◌, ◌≤◌};
    ghost use Rattle.std.specs.Arc.{arc_value};
    ghost use Rattle.std.specs.Vec.{vec_len, vec_capacity};
    ghost use Rattle.sync_session.specs.Walks.{Walk};

    ghost Value = { Walk };

    ghost view = { λ s. record {
      own = arc_value s.own;
      root = s.root;
      asked = s.asked.items;
      outstanding = s.outstanding.items;
      taken = s.taken.items;
      state = s.state;
    } };

    ghost invariant = { λ s. vec_len s.taken + vec_len s.outstanding ≤ vec_capacity s.taken };
}

impl Session {
    /// Starts a session that compares a snapshot with a partner's root. If the roots are equal, the session is finished
    /// and asks nothing; otherwise it asks for the root's text. Refused: NoMemory.
    pub fn start(
        alloc: Global,
        own: Arc<Snapshot, Global>,
        root: Digest,
    ) -> Result<Session, Refusal>
        ensures { Answers result None (λ session. session ≡ started (arc_value own) root) }
    {
        let mut asked = Vec::new(alloc);
        let mut outstanding = Vec::new(alloc);
        let mut taken = Vec::new(alloc);
        if root != own.root() {
            asked.push(NodeAt::root())?;
            outstanding.push(NodeAt::root())?;
            taken.reserve(1)?;
        }
        let state = state_by(&outstanding);
        Ok(Session {
            own,
            root,
            asked,
            outstanding,
            taken,
            state,
        })
    }

    /// Returns the local snapshot.
    pub fn own(&self) -> &Arc<Snapshot, Global>
        ensures { arc_value result.now ≡ self.now.own }
    {
        &self.own
    }

    /// Returns the root that the partner offered.
    pub fn root(&self) -> Digest
        ensures { result ≡ self.now.root }
    {
        self.root
    }

    /// Returns the nodes that were asked and aren't answered yet, in the order of their asks.
    pub fn outstanding(&self) -> &[NodeAt]
        ensures { result.now ≡ self.now.outstanding }
    {
        &self.outstanding
    }

    /// Returns true if a node was asked and isn't answered yet.
    pub fn is_outstanding(&self, node: NodeAt) -> bool
        ensures { result ≡ contains_node node self.now.outstanding }
    {
        node_list::has(&self.outstanding, node)
    }

    /// Returns all nodes that were ever asked, in order.
    pub fn asked(&self) -> &[NodeAt]
        ensures { result.now ≡ self.now.asked }
    {
        &self.asked
    }

    /// Returns the texts that were taken, in order.
    pub fn taken(&self) -> &[Taken]
        ensures { result.now ≡ self.now.taken }
    {
        &self.taken
    }

    /// Returns the digest that the session expects at a node: at the root the partner's root, otherwise the one in the
    /// text that was taken for the node above. Returns `None` if no such text was taken, or it ends before the digest
    /// does.
    pub fn expected(&self, node: NodeAt) -> Option<Digest>
        ensures digest { result ≡ whole_digest (expected self.now.root self.now.taken node) }
        ensures root { length self.now.root ≡ 32 }
    {
        let root = self.root();
        let digest = node_list::expected_digest(&root, &self.taken, node)?;
        Digest::try_from(digest).ok()
    }

    /// Returns the state of the session.
    pub fn state(&self) -> SessionState
        ensures { result ≡ self.now.state }
    {
        self.state
    }

    /// Checks that this text is awaited for the node. Refused, in order: NotAsked (the node isn't outstanding),
    /// WrongDigest (the text's digest isn't the one expected at the node).
    fn expects(&self, node: NodeAt, text: &Hashed) -> Result<(), Refusal>
        ensures { Awaits self.now (record { node = node; text = text.now }) result }
    {
        if !self.is_outstanding(node) {
            return Err(Refusal::NotAsked);
        }
        if !node_list::is_expected(&self.root, &self.taken, node, &text.digest()) {
            return Err(Refusal::WrongDigest);
        }
        Ok(())
    }

    /// Returns true if the node is inner and the text has an inner node's form.
    fn is_inner(&self, node: NodeAt, text: &Hashed) -> bool
        ensures { IsTrue result ↔ ((node.depth < tree_depth self.now.own.format) × IsInnerText self.now.own.format text.now) }
    {
        let format = self.own.format();
        node.depth < tree_depth(format) && text_reader::is_inner(format, text.text())
    }

    /// Returns the rows in a text that is due, without taking it. The text of an inner node has no rows.
    ///
    /// Refused, in order: NotAsked (the node isn't outstanding), WrongDigest (the text's digest isn't the one expected
    /// at the node), NotCanonical (no rows of the range give the node this text), NoMemory. Reading a leaf allocates,
    /// so at a leaf NoMemory may replace NotCanonical.
    pub fn rows_of(&self, alloc: Global, node: NodeAt, text: &Hashed) -> Result<RowList, Refusal>
        ensures { Shows self.now (record { node = node; text = text.now }) result }
    {
        self.expects(node, text)?;
        if node.depth == tree_depth(self.own.format()) {
            text_reader::leaf_rows(alloc, &self.own, node, text.text())
        } else if self.is_inner(node, text) {
            Ok(RowList::from(Vec::new(alloc)))
        } else {
            Err(Refusal::NotCanonical)
        }
    }

    /// Begins to read a text that is due, without taking it: returns the place of the first row of a leaf's text, and
    /// `None` for the text of an inner node. Doesn't allocate.
    ///
    /// Refused, in order: NotAsked (the node isn't outstanding), WrongDigest (the text's digest isn't the one expected
    /// at the node), NotCanonical (an inner node can't have this text, or a leaf's text begins otherwise).
    pub fn begin_news<'a>(
        &'a self,
        node: NodeAt,
        text: &'a Hashed,
    ) -> Result<Option<NewsPlace<'a>>, Refusal>
        ensures { MatchResult result (λ place. BeginsAtOnce self.now (record { node = node; text = text.now })
            (option_map (λ p. (p.last.now, p.rest.now, p.known)) place))
            (IsBeginFault self.now (record { node = node; text = text.now })) }
    {
        self.expects(node, text)?;
        if self.is_inner(node, text) {
            return Ok(None);
        }
        let format = self.own.format();
        if node.depth != tree_depth(format) {
            return Err(Refusal::NotCanonical);
        }
        match text_reader::body_of(leaf_byte(format), text.text()) {
            Some(body) => Ok(Some(NewsPlace {
                last: &[],
                rest: body,
                known: 0,
            })),
            None => Err(Refusal::NotCanonical),
        }
    }

    /// Reads a leaf's text from a place to the next row that is missing from the local snapshot, without taking the
    /// text. A row that the local snapshot has, byte for byte, is counted and not read.
    ///
    /// Refused: NotCanonical (no rows of the range give the leaf this text), NoMemory, which may replace NotCanonical.
    pub fn next_news<'a>(
        &'a self,
        alloc: Global,
        node: NodeAt,
        place: NewsPlace<'a>,
    ) -> Result<NewsStep<'a>, Refusal>
        requires leaf { node.depth ≡ tree_depth self.now.own.format }
        requires read { (text : List ℕ) × (others : List Row)
            × IsReadTo self.now.own node text place.last.now place.rest.now others place.known }
        ensures { (text : List ℕ) (others : List Row)
            → IsReadTo self.now.own node text place.entry.last.now place.entry.rest.now others place.entry.known
            → MatchResult result (λ step. StepsTo self.now.own node text (length place.entry.rest.now) others
            step.row step.place.last.now step.place.rest.now step.place.known)
            (IsReadFault self.now.own node text) }
    {
        news::next_news(alloc, &self.own, node, place)
    }

    /// Returns the rows in a text that is due, without those that the local snapshot has, and doesn't take the text. A
    /// row that the local snapshot has is counted and not read. The text of an inner node has no rows.
    ///
    /// Refused, in order: NotAsked, WrongDigest, NotCanonical and NoMemory, as `rows_of` is. Memory is needed only for
    /// rows that are missing from the local snapshot; with such rows, NoMemory may replace NotCanonical.
    pub fn news_of(&self, alloc: Global, node: NodeAt, text: &Hashed) -> Result<News, Refusal>
        ensures { Tells self.now (record { node = node; text = text.now }) result }
    {
        match self.begin_news(node, text)? {
            Some(first) => news::leaf_news(alloc, &self.own, node, first),
            None => Ok(News::none(alloc)),
        }
    }

    /// Takes a text for a node. At an inner node, the children whose digests in the text differ from the local
    /// snapshot's are asked, by ascending index, after the nodes already outstanding; at a leaf, its rows are returned.
    /// If nothing is outstanding afterwards, the session is finished.
    ///
    /// Refused, in order: NotAsked, WrongDigest, NotCanonical and NoMemory, as `rows_of` is. After NotCanonical the
    /// session has failed and nothing is outstanding.
    pub fn take(&mut self, alloc: Global, node: NodeAt, text: Hashed) -> Result<Answered, Refusal>
        ensures { Takes self.old (record { node = node; text = text }) result self.new }
    {
        match self.rows_of(alloc, node, &text) {
            Ok(rows) => {
                if node.depth < tree_depth(self.own.format()) {
                    self.take_inner(alloc, node, text)?;
                    Ok(Answered::Inner)
                } else {
                    self.take_leaf(node, text);
                    Ok(Answered::Leaf(rows))
                }
            }
            Err(Refusal::NotCanonical) => {
                self.fail();
                Err(Refusal::NotCanonical)
            }
            Err(other) => Err(other),
        }
    }

    /// Takes the text of an inner node that `rows_of` or `news_of` has judged, without judging it again: each child
    /// whose digest differs from the local one is asked, by ascending index. If nothing is outstanding afterwards, the
    /// session is finished. Refused: NoMemory.
    pub fn take_inner(&mut self, alloc: Global, node: NodeAt, text: Hashed) -> Result<(), Refusal>
        requires due { IsDue self.old (record { node = node; text = text }) }
        requires inner { node.depth < tree_depth self.old.own.format }
        requires form { IsInnerText self.old.own.format text }
        ensures { Does result self.old self.new
            (gives tt (after self.old (record { node = node; text = text }))) }
    {
        let new = node_list::differing(alloc, &self.own, node, text.text())?;
        self.asked.reserve(new.len())?;
        self.outstanding.reserve(new.len())?;
        self.taken.reserve(self.outstanding.len() + new.len())?;
        node_list::append(&mut self.asked, &new);
        record(&mut self.taken, &mut self.outstanding, node, text, &new);
        self.state = state_by(&self.outstanding);
        Ok(())
    }

    /// Takes the text of a leaf that `rows_of` or `news_of` has read, without reading it again. If nothing is
    /// outstanding afterwards, the session is finished. Doesn't allocate.
    pub fn take_leaf(&mut self, node: NodeAt, text: Hashed)
        requires due { IsDue self.old (record { node = node; text = text }) }
        requires leaf { node.depth ≡ tree_depth self.old.own.format }
        requires canonical { IsCanonical self.old.own node text }
        ensures { self.new ≡ after self.old (record { node = node; text = text }) }
    {
        record(&mut self.taken, &mut self.outstanding, node, text, &[]);
        self.state = state_by(&self.outstanding);
    }

    /// Ends a session as failed, after a text that is due but isn't one that its node can have.
    pub fn fail(&mut self)
        requires { (t : TakenText) × IsDue self.old t × (IsCanonical self.old.own t.node t.text → ⊥) }
        ensures { self.new ≡ failed self.old }
    {
        self.end(SessionState::Failed);
    }

    /// Cancels the session if it is open; otherwise leaves it unchanged.
    pub fn cancel(&mut self)
        ensures { self.new ≡ cancelled_by self.old self.old.state }
    {
        if self.state == SessionState::Open {
            self.end(SessionState::Cancelled);
        }
    }

    /// Removes all outstanding nodes, and sets the state.
    fn end(&mut self, state: SessionState)
        ensures { self.new ≡ record self.old { outstanding = []; state = state } }
    {
        self.outstanding.clear();
        self.state = state;
    }
}

/// Records the text of an outstanding node, and makes these nodes outstanding. There is capacity for both.
fn record(
    taken: &mut Vec<Taken>,
    outstanding: &mut Vec<NodeAt>,
    node: NodeAt,
    text: Hashed,
    new: &[NodeAt],
)
    requires asked { contains_node node outstanding.old.items ≡ true }
    requires nodes { vec_len outstanding.old + length new.now ≤ vec_capacity outstanding.old }
    requires texts { vec_len taken.old + vec_len outstanding.old + length new.now
        ≤ vec_capacity taken.old }
    ensures taken { taken.new.items
        ≡ taken.old.items ++ (record { node = node; text = text }) ∷ [] }
    ensures left { outstanding.new.items
        ≡ filter (λ n. not (is_same_node n node)) outstanding.old.items ++ new.now }
    ensures room { vec_len taken.new + vec_len outstanding.new ≤ vec_capacity taken.new }
{
    node_list::remove(outstanding, node);
    node_list::append(outstanding, new);
    taken.push_reserved(Taken::new(node, text));
}

/// Returns the state of a session that isn't ended: finished if nothing is outstanding, otherwise open.
fn state_by(outstanding: &[NodeAt]) -> SessionState
    ensures { result ≡ state_by outstanding.now }
{
    if outstanding.is_empty() {
        SessionState::Finished
    } else {
        SessionState::Open
    }
}

impl Drop for Session {
    /// Keeps the fields out of the proofs of callers that drop a session.
    fn drop(self) {
        let Session {
            own: _own,
            root: _root,
            asked: _asked,
            outstanding: _outstanding,
            taken: _taken,
            state: _state,
        } = self;
    }
}
