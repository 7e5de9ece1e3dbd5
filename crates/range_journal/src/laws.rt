//! Laws of journals, proved from their definitions.
ghost use Rattle.std.specs.Prelude.{◌≡◌, ◌≤◌, ◌↔◌, ◌++◌, ◌∷◌, [], List, ℕ, false, Any, Contains, if◌then◌else◌};
ghost use Rattle.std.specs.List.{AllByRecursion};
ghost use Rattle.vclock.specs.Clock.{counter};
ghost use Rattle.version_set.specs.declared.version.Version.{Version};
ghost use Rattle.version_set.specs.Version.{covered, offered};
ghost use Rattle.std.specs.Str.{bytes_eq};
ghost use Rattle.range_journal.specs.declared.journal.Entry.{Entry};
ghost use Rattle.range_journal.specs.Counters.{top_in, top_counter};
ghost use Rattle.range_journal.specs.Journal.{versions_of, accepted, held, AreNews};

/// The accepted versions of a key are the versions of the entries with that key.
pub fn accepted_versions_are_the_entries()
    ensures { (entries : List Entry) (key : List ℕ) (version : Version)
        → Contains (accepted entries key) version
        ↔ Any (λ e. (e.key ≡ key) × (e.version ≡ version)) entries }
{}

/// The held versions of a key and its accepted versions cover the same versions.
pub fn held_versions_cover_the_accepted()
    ensures { (entries : List Entry) (key : List ℕ) (version : Version)
        → covered version (held entries key) ≡ covered version (versions_of entries key) }
{}

/// If each entry of a journal was news and the version of one more entry isn't covered, then each entry of the longer
/// journal was news.
pub fn news_stay_news()
    ensures { (entries : List Entry) (entry : Entry) → AreNews entries
        → covered entry.version (versions_of entries entry.key) ≡ false
        → AreNews (entries ++ entry ∷ []) }
{}

/// One more entry offers its version to the held versions of its key, and leaves the held versions of other keys
/// unchanged.
pub fn held_versions_grow_by_an_offer()
    ensures { (entries : List Entry) (entry : Entry) (key : List ℕ)
        → held (entries ++ entry ∷ []) key
        ≡ (if bytes_eq entry.key key then offered entry.version (held entries key) else held entries key) }
{}

/// The greatest counter of a node for a key is at least the node's counter in each accepted version of the key, and is
/// the greatest one in the held versions. More entries never lower it.
pub fn counters_never_go_back()
    ensures all { (entries : List Entry) (node : ℕ)
        → AllByRecursion (λ e. counter e.version.clock node ≤ top_counter entries e.key node) entries }
    ensures held { (entries : List Entry) (key : List ℕ) (node : ℕ)
        → top_counter entries key node ≡ top_in (held entries key) node }
    ensures later { (entries more : List Entry) (key : List ℕ) (node : ℕ)
        → top_counter entries key node ≤ top_counter (entries ++ more) key node }
{}
