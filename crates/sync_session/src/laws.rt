//! Laws of sessions, proved from their definitions.
ghost use Rattle.std.specs.Prelude.{◌≡◌, ℕ, List, true};
ghost use Rattle.row_bytes.specs.declared.row.Row.{Row};
ghost use Rattle.version_set.specs.declared.version.Version.{Version};
ghost use Rattle.snapshot.specs.RowMaps.{RowMap, IsRowMap};
ghost use Rattle.sync_session.specs.declared.state.SessionState.TheVariants.{Finished};
ghost use Rattle.tree_nodes.specs.Nodes.{Node, contains_node};
ghost use Rattle.sync_session.specs.TreeNodes.{text_of};
ghost use Rattle.sync_session.specs.Walks.{TakenText, Walk, Walked, Held, IsLeafHeld, IsCanonical, AreSpelled, NoTwoShareADigest, IsPartners};
ghost use Rattle.sync_session.specs.Steps.{started, after, failed, cancelled_by, IsDue, Grows};
ghost use Rattle.sync_session.specs.Differing.{differ, IsOrderly, IsTraced, IsHonest, IsNearlyDone, IsInTurn, AscendByPlace};

/// After a finished session each version of the partner's rows is held or is below a held version. The partner's rows
/// are any rows of the local format, ring bits and range whose root is the offered root. The law assumes that no two
/// different compared texts share a digest, and nothing about the answers.
pub fn a_finished_session_is_held()
    ensures { (held : List ℕ → List Version) (w : Walk) (other : RowMap) → Walked held w → w.state ≡ Finished
        → IsPartners w other → NoTwoShareADigest w.own other w.taken → Held other.rows held }
{}

/// The record of a walk stays valid as versions are accepted and as texts are taken.
pub fn a_walk_stays_valid()
    ensures started { (held : List ℕ → List Version) (own : RowMap) (offered : List ℕ) → IsRowMap own
        → Held own.rows held → Walked held (started own offered) }
    ensures grows { (before now : List ℕ → List Version) (w : Walk) → Grows before now → Walked before w → Walked now w }
    ensures taken { (held : List ℕ → List Version) (w : Walk) (t : TakenText) → Walked held w → IsDue w t
        → IsCanonical w.own t.node t.text → IsLeafHeld w.own held t → Walked held (after w t) }
    ensures spelled { (held : List ℕ → List Version) (own : RowMap) (t : TakenText) (rows : List Row)
        → AreSpelled own t.node t.text rows → Held rows held → IsLeafHeld own held t }
{}

/// A session asks no node twice, and each node asked is either taken or outstanding, after each text taken.
pub fn a_walk_stays_orderly()
    ensures started { (own : RowMap) (offered : List ℕ) → IsOrderly (started own offered) }
    ensures taken { (held : List ℕ → List Version) (w : Walk) (t : TakenText) → Walked held w → IsOrderly w → IsDue w t
        → IsOrderly (after w t) }
{}

/// A session that fails or is cancelled keeps the nodes it asked and the texts it took.
pub fn a_walk_leaves_a_trace()
    ensures going { (held : List ℕ → List Version) (w : Walk) → Walked held w → IsOrderly w → IsTraced w }
    ensures failed { (w : Walk) → IsTraced w → IsTraced (failed w) }
    ensures cancelled { (w : Walk) → IsTraced w → IsTraced (cancelled_by w w.state) }
{}

/// A session whose taken texts are all the partner's asks only nodes at which the trees differ, however it ends. Such a
/// session has asked all of them once no inner node is outstanding, and the partner's text of an outstanding node has
/// the expected digest and is canonical. If any session takes texts in the order of its asks, it asks nodes in order of
/// depth, then of index. Two trees of one format differ at the same nodes, whichever is local.
pub fn a_session_asks_where_the_trees_differ()
    ensures only { (w : Walk) (other : RowMap) → IsTraced w → IsPartners w other → IsHonest w other
        → (n : Node) → contains_node n w.asked ≡ true → contains_node n (differ w.own other) ≡ true }
    ensures all { (held : List ℕ → List Version) (w : Walk) (other : RowMap) → Walked held w → IsOrderly w
        → IsPartners w other → IsHonest w other → IsNearlyDone w
        → (n : Node) → contains_node n (differ w.own other) ≡ true → contains_node n w.asked ≡ true }
    ensures due { (held : List ℕ → List Version) (w : Walk) (other : RowMap) → Walked held w → IsOrderly w
        → IsPartners w other → IsHonest w other → (n : Node) → contains_node n w.outstanding ≡ true
        → IsDue w (record { node = n; text = text_of other n }) × IsCanonical w.own n (text_of other n) }
    ensures ordered { (w : Walk) → IsTraced w → IsInTurn w → AscendByPlace w.asked }
    ensures both_ways { (a b : RowMap) → a.format ≡ b.format → differ a b ≡ differ b a }
{}
