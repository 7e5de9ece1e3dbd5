//! Laws of receipts and readings, proved from their definitions.
ghost use Rattle.std.specs.Prelude.{◌≡◌, ◌<◌, ◌≤◌, ℕ, List, None, Some, All, Any, Contains, IsTrue, length, slice_get};
ghost use Rattle.version_set.specs.Version.{covered};
ghost use Rattle.range_journal.specs.declared.journal.Entry.{Entry};
ghost use Rattle.range_journal.specs.Journal.{held};
ghost use Rattle.range_state.specs.State.{State};
ghost use Rattle.range_state.specs.Renewals.{renewed_by};
ghost use Rattle.caller_pass.specs.declared.reading.Reading.{Reading};
ghost use Rattle.caller_pass.specs.Passes.{PassView, new_pass, new_passes};
ghost use Rattle.caller_pass.specs.Locks.{Locked, IsLocked, behind_fault};
ghost use Rattle.caller_pass.specs.Closings.{IsTrueReading, IsSettled, AllThere};

/// A caller reads its own writes. If a read isn't refused as Behind, the journal is at least as long as the part that
/// the caller has seen, and the versions that are held for the key cover each receipt of the caller for it.
pub fn reads_cover_receipts()
    ensures { (entries : List Entry) (pass : PassView) (key : List ℕ) → behind_fault entries pass key ≡ None
        → (pass.seen ≤ length entries)
        × All (λ e. e.key ≡ key → IsTrue (covered e.version (held entries key))) pass.receipts }
{}

/// A caller's readings of a key never go back: a true reading covers each version of an earlier one.
pub fn readings_never_go_back()
    ensures { (entries : List Entry) (r s : Reading) → IsTrueReading entries r → IsTrueReading entries s
        → r.key ≡ s.key → r.front ≤ s.front
        → All (λ v. IsTrue (covered v s.versions)) r.versions }
{}

/// Each entry of a range that was closed is a receipt of a pass.
pub fn settled_passes_have_each_entry()
    ensures { (seats : ℕ) (range : Locked) (passes : List PassView) → IsLocked seats range → AllThere seats passes
        → All (IsSettled range.state.store.entries) passes
        → (entry : Entry) → Contains range.state.store.entries entry → Any (λ p. Contains p.receipts entry) passes }
{}

/// Through a renewal, too, a caller reads its own writes, and its readings don't go back: for each pass that was
/// settled, the versions that the renewed range holds cover each receipt, and each version of each reading.
pub fn renewed_ranges_cover_settled_passes()
    ensures receipts { (s : State) (seat limit : ℕ) (pass : PassView) → IsSettled s.store.entries pass
        → All (λ e. IsTrue (covered e.version (held (renewed_by s seat limit).store.entries e.key))) pass.receipts }
    ensures readings { (s : State) (seat limit : ℕ) (pass : PassView) → IsSettled s.store.entries pass
        → All (λ r. All (λ v. IsTrue (covered v (held (renewed_by s seat limit).store.entries r.key))) r.versions)
        pass.readings }
{}

/// The passes of a new book have its seats in order, from 0.
pub fn new_passes_have_the_seats()
    ensures { (seats : ℕ) → (length (new_passes seats) ≡ seats)
        × ((seat : ℕ) → seat < seats → slice_get (new_passes seats) seat ≡ Some (new_pass seat)) }
{}
