//! Laws of sessions, proved from their definitions.
ghost use Rattle.std.specs.Prelude.{◌≡◌, ◌≢◌, ◌≤◌, ◌<◌, ◌+◌, ◌++◌, [], ℕ, List, length, take, slice_get, None, Some, Contains, true};
ghost use Rattle.std.specs.List.{AllByRecursion};
ghost use Rattle.version_set.specs.declared.version.Version.{Version};
ghost use Rattle.version_set.specs.Version.{maximal, Ascends};
ghost use Rattle.range_journal.specs.declared.journal.Entry.{Entry};
ghost use Rattle.range_journal.specs.declared.journal.Source.TheVariants.{Copy, Partner};
ghost use Rattle.range_journal.specs.Counters.{top_counter};
ghost use Rattle.range_journal.specs.Journal.{held};
ghost use Rattle.tree_nodes.specs.Nodes.{Node, contains_node, kept_digest};
ghost use Rattle.snapshot.specs.RowMaps.{RowMap};
ghost use Rattle.range_store.specs.Store.{Store, IsSound, rows_now, dirty_fault, full_fault};
ghost use Rattle.sync_session.specs.TreeNodes.{text_of};
ghost use Rattle.sync_session.specs.Walks.{Held, IsCanonical, IsExpectedText, NoTwoShareADigest, IsPartners};
ghost use Rattle.sync_session.specs.Steps.{IsDue};
ghost use Rattle.sync_session.specs.Differing.{differ, times, IsHonest, IsNearlyDone, IsInTurn, AscendByPlace};
ghost use Rattle.sync_session.specs.declared.state.SessionState.TheVariants.{Open, Finished};
ghost use Rattle.range_state.specs.declared.«record».Record.{Record};
ghost use Rattle.range_state.specs.declared.event.Event.{Event};
ghost use Rattle.range_state.specs.declared.event.Reply.{Reply};
ghost use Rattle.range_state.specs.declared.moment.Moment.{Moment};
ghost use Rattle.range_state.specs.CatchUps.{start_at, begun_from, begun_count, caught_up, entry_fault};
ghost use Rattle.range_state.specs.Renewals.{renewed_by};
ghost use Rattle.range_state.specs.Endings.{without_ended_sessions, if_open};
ghost use Rattle.range_state.specs.Records.{IsOver, record_of};
ghost use Rattle.range_state.specs.Run.{Run};
ghost use Rattle.range_state.specs.State.{State, IsRight, IsFromPartner, rows_at};
ghost use Rattle.range_state.specs.Sessions.{opened};
ghost use Rattle.range_state.specs.Moments.{opened_at};
ghost use Rattle.range_state.specs.Syncs.{IsOfRange, synced};
ghost use Rattle.range_state.specs.Unions.{union_of, offered_all};

/// After a finished session each version of the partner's rows is held or is below a held version. The partner's rows
/// are any rows of the range, in the format of the session's snapshot, whose root is the offered root. The law assumes
/// that no two different compared texts share a digest, and nothing about the answers. It continues to hold, whatever
/// else the range accepts.
pub fn finished_sessions_are_held()
    ensures { (s : State) → IsRight s → (r : Record) → Contains s.records r → r.session.state ≡ Finished
        → (other : RowMap) → IsPartners r.session other → NoTwoShareADigest r.session.own other r.session.taken
        → Held other.rows (held s.store.entries) }
{}

/// A version that the first entries of a journal held is held by all of them, or is below a version that is. A session
/// at a moment thus compares rows that are held, like a session of the rows now, which is the case of all entries.
pub fn what_was_held_stays_covered()
    ensures held { (s : Store) (front : ℕ) → Held (rows_at s front).rows (held s.entries) }
    ensures now { (s : State) (partner : ℕ) (root : List ℕ)
        → opened_at s (length s.store.entries) partner root ≡ opened s partner root }
{}

/// Each version received from a partner is in a leaf's text that some session took. The text spells rows in the format
/// of that session's snapshot.
pub fn partners_versions_were_taken()
    ensures { (s : State) → IsRight s → (e : Entry) → Contains s.store.entries e → e.source ≡ Partner → IsFromPartner s.records e }
{}

/// Each text that a session took is canonical for its node, and had the digest that was expected there. Nodes, texts
/// and partners are in the format of the session's snapshot, which is the range's format while the session is open. A
/// session asks no node twice. It asks by depth, then by index, if the texts were taken in the order of the asks.
///
/// If each text that it took is the partner's, it asks only nodes at which the trees differ, and the partner's text of
/// an outstanding node is never refused. All of this holds for a session that failed or was cancelled, too.
///
/// A session that neither failed nor was cancelled has asked all the nodes at which the trees differ once no inner node
/// is outstanding, as when it is finished. A session that isn't open has no outstanding nodes.
pub fn sessions_ask_where_the_trees_differ()
    ensures texts { (s : State) → IsRight s → (r : Record) → Contains s.records r
        → AllByRecursion (IsExpectedText r.session) r.session.taken }
    ensures once { (s : State) → IsRight s → (r : Record) → Contains s.records r
        → (n : Node) → times n r.session.asked ≤ 1 }
    ensures ordered { (s : State) → IsRight s → (r : Record) → Contains s.records r
        → IsInTurn r.session → AscendByPlace r.session.asked }
    ensures only { (s : State) → IsRight s → (r : Record) → Contains s.records r
        → (other : RowMap) → IsPartners r.session other → IsHonest r.session other
        → (n : Node) → contains_node n r.session.asked ≡ true → contains_node n (differ r.session.own other) ≡ true }
    ensures due { (s : State) → IsRight s → (r : Record) → Contains s.records r
        → (other : RowMap) → IsPartners r.session other → IsHonest r.session other
        → (n : Node) → contains_node n r.session.outstanding ≡ true
        → IsDue r.session (record { node = n; text = text_of other n }) × IsCanonical r.session.own n (text_of other n) }
    ensures all { (s : State) → IsRight s → (r : Record) → Contains s.records r → ¬ IsOver r.session
        → (other : RowMap) → IsPartners r.session other → IsHonest r.session other → IsNearlyDone r.session
        → (n : Node) → contains_node n (differ r.session.own other) ≡ true → contains_node n r.session.asked ≡ true }
    ensures done { (s : State) → IsRight s → (r : Record) → Contains s.records r → r.session.state ≡ Finished
        → (¬ IsOver r.session) × IsNearlyDone r.session }
    ensures ended { (s : State) → IsRight s → (r : Record) → Contains s.records r
        → r.session.state ≢ Open → r.session.outstanding ≡ [] }
{}

/// A range without its ended sessions holds the same versions, so the versions that their partners had are still held.
/// A number names an open session as before, and no ended one.
pub fn ranges_without_ended_sessions_hold_the_same()
    ensures held { (s : State) (key : List ℕ) → held (without_ended_sessions s).store.entries key ≡ held s.store.entries key }
    ensures rows { (s : State) → rows_now (without_ended_sessions s).store ≡ rows_now s.store }
    ensures numbers { (s : State) → IsRight s → (id : ℕ)
        → record_of id (without_ended_sessions s).records ≡ if_open (record_of id s.records) }
    ensures finished { (s : State) → IsRight s → (r : Record) → Contains s.records r → r.session.state ≡ Finished
        → (other : RowMap) → IsPartners r.session other → NoTwoShareADigest r.session.own other r.session.taken
        → Held other.rows (held (without_ended_sessions s).store.entries) }
{}

/// Offering the members of one set to another, one by one, makes the maximal versions of both. The union is the same if
/// the two sets are exchanged.
pub fn offers_make_the_union()
    ensures each { (S T : List Version) → Ascends S → maximal S ≡ S → offered_all S T ≡ union_of S T }
    ensures sides { (S T : List Version) → union_of S T ≡ union_of T S }
{}

/// Two replicas of a range that each take the leaves at which their trees differ hold the union of both, key by key, if
/// no two different texts of their nodes share a digest.
pub fn synced_ranges_hold_what_both_held()
    ensures first { (a b : Store) (seat : ℕ) → IsSound a → IsSound b → IsOfRange a.config (rows_now b)
        → NoTwoShareADigest (rows_now a) (rows_now b) [] → (synced a seat (rows_now b)).fault ≡ None
        → (key : List ℕ) → held (synced a seat (rows_now b)).store.entries key
        ≡ union_of (held a.entries key) (held b.entries key) }
    ensures second { (a b : Store) (seat : ℕ) → IsSound a → IsSound b → IsOfRange a.config (rows_now b)
        → NoTwoShareADigest (rows_now a) (rows_now b) [] → (synced b seat (rows_now a)).fault ≡ None
        → (key : List ℕ) → held (synced b seat (rows_now a)).store.entries key
        ≡ union_of (held a.entries key) (held b.entries key) }
{}

/// Two replicas of a range that hold equal versions have equal rows, and so, once both are clean, equal digests at the
/// root.
pub fn ranges_that_hold_the_same_have_equal_roots()
    ensures rows { (a b : Store) → IsOfRange a.config (rows_now b)
        → ((key : List ℕ) → held a.entries key ≡ held b.entries key) → rows_now a ≡ rows_now b }
    ensures roots { (a b : Store) → IsSound a → IsSound b → IsOfRange a.config (rows_now b)
        → ((key : List ℕ) → held a.entries key ≡ held b.entries key) → dirty_fault a ≡ None → dirty_fault b ≡ None
        → kept_digest a.marks 0 ≡ kept_digest b.marks 0 }
{}

/// No call lowers the greatest counter of a node for a key: neither an event nor a whole session. (A load doesn't, and
/// a renewal keeps it, by `range_store`'s laws.)
pub fn no_call_lowers_a_counter()
    ensures run { (s t : State) (events : List Event) (replies : List Reply) (key : List ℕ) (node : ℕ)
        → Run s events replies t → top_counter s.store.entries key node ≤ top_counter t.store.entries key node }
    ensures sync { (s : Store) (seat : ℕ) (other : RowMap) (key : List ℕ) (node : ℕ)
        → top_counter s.entries key node ≤ top_counter (synced s seat other).store.entries key node }
{}

/// A range that is renewed alongside its puts holds the same versions as the old one. The new range begins with the
/// rows of a moment of the old one, then accepts the entries that the old one accepted since, in order.
///
/// From the rows now it begins as a renewed range, with the digests of the moment. Its first rows don't change while
/// the old range accepts entries. With k later entries it holds for each key the versions that the first entries and
/// these k held. A later entry's only possible fault is a full journal: each is new, and none is one too many for its
/// key. The old range's entry number `front` + i is the new one's entry number `begun_count` + i: a constant less.
pub fn a_range_that_caught_up_holds_the_same()
    ensures begins { (s : State) (m : Moment) (seat limit : ℕ) → m.front ≡ length s.store.entries
        → begun_from (start_at s m) seat limit
        ≡ record (renewed_by s seat limit) { store = record (renewed_by s seat limit).store { marks = m.tree.marks } } }
    ensures stays { (s t : State) (m : Moment) (more : List Entry) → t.store.config ≡ s.store.config
        → t.store.entries ≡ s.store.entries ++ more → m.front ≤ length s.store.entries
        → (start_at t m).basis ≡ (start_at s m).basis }
    ensures held { (s : State) (m : Moment) (seat limit k : ℕ) (key : List ℕ)
        → held (caught_up s m seat limit k).entries key ≡ held (take (m.front + k) s.store.entries) key }
    ensures news { (s : State) → IsRight s → (m : Moment) (seat limit k : ℕ) (e : Entry)
        → slice_get s.store.entries (m.front + k) ≡ Some e
        → entry_fault (caught_up s m seat limit k) e ≡ full_fault (caught_up s m seat limit k) }
    ensures numbers { (s : State) (m : Moment) (seat limit k i : ℕ) (e : Entry) → i < k
        → slice_get s.store.entries (m.front + i) ≡ Some e
        → slice_get (caught_up s m seat limit k).entries (begun_count s m + i)
        ≡ Some (record { number = begun_count s m + i; seat = seat; source = Copy; key = e.key; version = e.version }) }
{}
