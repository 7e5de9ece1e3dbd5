//! Laws of the rows of a store, of renewals, loads and puts, proved from their definitions.
ghost use Rattle.std.specs.Prelude.{◌≡◌, ◌<◌, ◌≤◌, ◌⊎◌, ◌↔◌, ℕ, List, length, None, Any, Contains};
ghost use Rattle.std.specs.List.{AllByRecursion, flat_map};
ghost use Rattle.vclock.specs.Clock.{counter, IsAtMost, Pairs};
ghost use Rattle.vclock.specs.Outcome.{gives};
ghost use Rattle.version_set.specs.declared.kind.Kind.{Kind};
ghost use Rattle.range_journal.specs.declared.journal.Entry.{Entry};
ghost use Rattle.range_journal.specs.Counters.{top_counter};
ghost use Rattle.range_journal.specs.Journal.{held};
ghost use Rattle.row_bytes.specs.Rows.{AreRows, row_text};
ghost use Rattle.row_bytes.specs.declared.row.Row.{Row};
ghost use Rattle.hash_tree.specs.Leaves.{AscendByKey};
ghost use Rattle.range_tree.specs.Trees.{all_dirty};
ghost use Rattle.range_store.specs.Rows.{rows_of};
ghost use Rattle.range_store.specs.ContextTests.{put_read};
ghost use Rattle.range_store.specs.Store.{Store, IsSound, fresh, rows_now, stale_fault, put};
ghost use Rattle.range_store.specs.Loads.{load, load_text, load_all, leaves_of};
ghost use Rattle.range_store.specs.Renewals.{config_to, renewed_by, renew_fault};
ghost use Rattle.range_store.specs.declared.store.loading.Loaded.{Loaded};

/// The rows of a journal have each key that has an entry, and no other key, each with the versions that are held for
/// it.
pub fn rows_are_of_the_entries()
    ensures { (entries : List Entry) (row : Row)
        → Contains (rows_of entries) row
        ↔ (Any (λ e. e.key ≡ row.key) entries × (row.versions ≡ held entries row.key)) }
{}

/// The rows of a journal ascend by key, so no key has two.
pub fn rows_ascend()
    ensures { (entries : List Entry) → AscendByKey (rows_of entries) }
{}

/// A renewed range holds the versions of each key that the old one holds, so it has the same rows and refuses the same
/// clocks of a put as stale. It has at most the old one's number of entries, and renewing it once more in the same way
/// leaves it unchanged. It is sound if the old one is.
pub fn renewed_ranges_hold_the_same()
    ensures held { (s : Store) (seat limit : ℕ) (key : List ℕ)
        → held (renewed_by s seat limit).entries key ≡ held s.entries key }
    ensures rows { (s : Store) (seat limit : ℕ) → rows_now (renewed_by s seat limit) ≡ rows_now s }
    ensures again { (s : Store) (seat limit : ℕ)
        → renewed_by (renewed_by s seat limit) seat limit ≡ renewed_by s seat limit }
    ensures fewer { (s : Store) (seat limit : ℕ) → length (renewed_by s seat limit).entries ≤ length s.entries }
    ensures stale { (s : Store) (seat limit : ℕ) (key : List ℕ) (clock : Pairs)
        → stale_fault (held (renewed_by s seat limit).entries key) clock ≡ stale_fault (held s.entries key) clock }
    ensures right { (s : Store) (seat limit : ℕ) → IsSound s → renew_fault s limit ≡ None
        → IsSound (renewed_by s seat limit) }
{}

/// A text of rows is loaded as these rows. Loading the rows of a range's leaves, leaf by leaf, into a new range of its
/// configuration with a limit, by a seat, isn't refused if the range can be renewed with that limit. The result has the
/// journal of the range renewed by that seat, and all its nodes are dirty: a range that is saved and loaded is a
/// renewed range.
pub fn loaded_ranges_are_renewed()
    ensures texts { (s : Store) (seat : ℕ) (rows : List Row) → AreRows s.config.format rows
        → load_text s seat (flat_map (row_text s.config.format) rows) ≡ load s seat rows }
    ensures all { (s : Store) (seat limit : ℕ) → IsSound s → renew_fault s limit ≡ None
        → load_all (fresh (config_to s.config limit)) seat (leaves_of s)
        ≡ gives tt (record (renewed_by s seat limit) { marks = all_dirty s.config.format }) }
{}

/// A put that checks what its client has read is a put. Each held version is still held, or the put's context has seen
/// everything that it has. The new version has a greater counter of the node than any that was accepted for the key.
pub fn a_checked_put_replaces_only_what_was_read()
    ensures put { (s t : Store) (seat at : ℕ) (key : List ℕ) (context : Pairs) (kind : Kind) (value : List ℕ)
        (e : Entry) → put_read s seat at key context kind value ≡ gives e t
        → put s seat at key context kind value ≡ gives e t }
    ensures read { (s t : Store) (seat at : ℕ) (key : List ℕ) (context : Pairs) (kind : Kind) (value : List ℕ)
        (e : Entry) → put_read s seat at key context kind value ≡ gives e t
        → AllByRecursion (λ v. Contains (held t.entries key) v ⊎ IsAtMost v.clock context) (held s.entries key) }
    ensures counter { (s t : Store) (seat at : ℕ) (key : List ℕ) (context : Pairs) (kind : Kind) (value : List ℕ)
        (e : Entry) → put_read s seat at key context kind value ≡ gives e t
        → top_counter s.entries key at < counter e.version.clock at }
{}

/// No load lowers the greatest counter of a node for a key, and a renewal keeps it.
pub fn no_load_lowers_a_counter()
    ensures load { (s t : Store) (seat : ℕ) (rows : List Row) (report : Loaded) (key : List ℕ) (node : ℕ)
        → load s seat rows ≡ gives report t → top_counter s.entries key node ≤ top_counter t.entries key node }
    ensures renewal { (s : Store) (seat limit : ℕ) (key : List ℕ) (node : ℕ)
        → top_counter (renewed_by s seat limit).entries key node ≡ top_counter s.entries key node }
{}
