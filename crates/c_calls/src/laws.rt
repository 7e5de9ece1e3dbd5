//! Laws of the numbers of hints and of entries.
ghost use Rattle.std.specs.Prelude.{◌≡◌, ◌-◌, ◌<◌, ◌≤◌, ◌^◌, ℕ, List, Some};
ghost use Rattle.vclock.specs.Clock.{Pairs, clock_of};
ghost use Rattle.vclock.specs.Outcome.{gives};
ghost use Rattle.hint_store.specs.declared.hint.Hint.{Hint};
ghost use Rattle.range_journal.specs.declared.journal.Entry.{Entry};
ghost use Rattle.range_journal.specs.declared.journal.Source.TheVariants.{Copy};
ghost use Rattle.range_state.specs.CatchUps.{Renewing, renewing_from, start_at};
ghost use Rattle.range_state.specs.State.{State};
ghost use Rattle.range_state.specs.declared.moment.Moment.{Moment};
ghost use Rattle.c_calls.specs.Carried.{Carried, last_number, keep_at};
ghost use Rattle.c_calls.specs.Kept.{KeptState, entries_in, entry_at};
ghost use Rattle.c_calls.specs.KeptRenewals.{HasCaughtUp, IsRenewedBy};
ghost use Rattle.c_calls.specs.Puts.{kind_numbered};
ghost use Rattle.c_calls.specs.HintSteps.{HintStep, GoesOn, IsKept, after_steps, hint_named};

/// No number ever names two hints. After any keeps, confirmations, renewals and restarts a number that was used names
/// the hint that it named, or none. A keep returns a number that was never used, and that names the hint that was kept.
/// All numbers are below 2^64.
pub fn no_number_names_two_hints()
    ensures goes_on { (c : Carried) (steps : List HintStep) → GoesOn c (after_steps c steps) }
    ensures one { (c : Carried) (steps : List HintStep) (n : ℕ) (h later : Hint)
        → hint_named c n ≡ Some h → hint_named (after_steps c steps) n ≡ Some later → later ≡ h }
    ensures kept { (c d : Carried) (n owner : ℕ) (key : List ℕ) (clock : Pairs) (kind : ℕ) (value : List ℕ)
        → keep_at c owner key clock kind value ≡ gives n d
        → IsKept c d n owner key (record { clock = clock_of clock; kind = kind_numbered kind; value = value }) }
    ensures below { (c : Carried) (steps : List HintStep) → last_number c < 2 ^ 64 → last_number (after_steps c steps) < 2 ^ 64 }
{}

/// The numbers of entries continue over a renewal in parallel with puts, from a moment of a replica. The renewal begins
/// with the rows of the moment. When the new range is in the replica's place, the last number that was used belongs to
/// the last entry, and each entry since the moment keeps its number, its key and its version.
pub fn entries_since_a_moment_keep_their_numbers()
    ensures begins { (s : State) (m : Moment) (limit : ℕ) → HasCaughtUp (renewing_from (start_at s m) 0 limit) s m limit 0 }
    ensures last { (r : Renewing) (k l : KeptState) (m : Moment) (limit n : ℕ) → HasCaughtUp r k.state m limit n
        → IsRenewedBy r k l → entries_in l ≡ entries_in k }
    ensures numbers { (r : Renewing) (k l : KeptState) (m : Moment) (limit n : ℕ) → HasCaughtUp r k.state m limit n
        → IsRenewedBy r k l → (number : ℕ) (e : Entry) → l.renewed ≤ number → entry_at k number ≡ Some e
        → entry_at l number
        ≡ Some (record { number = number - l.first; seat = 0; source = Copy; key = e.key; version = e.version }) }
{}
