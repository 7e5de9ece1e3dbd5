//! Renewals of replicas in parallel with puts.
ghost use Rattle.std.specs.Prelude.{◌≡◌, IfOk, IfErr, OnOk};
ghost use Rattle.vclock.specs.Answer.{Answers, AnswersAtOnce};
ghost use Rattle.range_state.specs.Moments.{moment_fault};
ghost use Rattle.c_calls.specs.KeptRenewals.{start_in, renewing_in, IsNoLonger, BeginsAt, Builds, first_number_fault, CatchesUpUnless, CatchesUpWith, Finishes, Replaces};
ghost use Rattle.c_calls.specs.Numbers.{Returns};

use crate::kept::Kept;
use crate::numbers::{EMPTY, HELD, code};
use crate::sessions::tell_number;
use range_state::{RangeState, Renewal, RenewalStart};
use std::alloc::Global;
use std::marker::Model;
use std::mem::replace;
use vclock::Refusal;

/// A renewal of a replica.
#[derive(Drop)]
pub struct KeptRenewal {
    /// The number in C of the first entry in the replica's journal.
    first: u64,
    /// The limit of the new range's journal, in entries.
    limit: u64,
    stage: RenewalStage,
}

/// The stage of a renewal.
#[derive(Drop)]
pub enum RenewalStage {
    /// The rows of the replica's moment.
    Begun(RenewalStart),
    /// The new range, alongside the old one.
    Built(Renewal),
    /// The old range, which the new one has replaced.
    Ended(RangeState),
    /// Nothing. The stage is `Vacant` only inside [`KeptRenewal::finish`].
    Vacant,
}

impl Model for KeptRenewal {
    ghost use Rattle.c_calls.specs.KeptRenewals.{KeptRenewal, IsRenewal};

    ghost Value = { KeptRenewal };

    ghost view = { λ r. record { first = r.first; limit = r.limit; stage = r.stage } };

    ghost invariant = { λ r. IsRenewal r.stage };
}

/// Begins a renewal with a limit: takes the rows of a replica's moment. Copies no row. Refused, in order: Dirty (the
/// replica has no moment, or some node of it has no digest), NoMemory.
pub fn begin(alloc: Global, kept: &Kept, limit: u64) -> Result<Box<KeptRenewal, Global>, Refusal>
    ensures { Answers result (moment_fault kept.now.state.moment) (λ whole. BeginsAt kept.now limit whole.value) }
{
    // Called only for its clause: the moment is one of the journal.
    let _right = kept.state().journal();
    let start = kept.state().begin_renewal(alloc)?;
    let renewal = KeptRenewal {
        first: kept.first(),
        limit,
        stage: RenewalStage::Begun(start),
    };
    Ok(Box::new(alloc, renewal)?)
}

impl KeptRenewal {
    /// Makes the new range from the rows, as [`RenewalStart::renewal`] does at seat 0. Uses no replica.
    ///
    /// Refused, in order: HELD (it is made already), BadRing (the limit isn't 1 to 1,000,000), JournalFull (the rows
    /// have more versions than the limit), NoMemory. On error the renewal is unchanged.
    pub fn build(&mut self, alloc: Global) -> u32
        ensures { Builds (start_in self.old.stage) result self.old self.new }
    {
        let RenewalStage::Begun(start) = &self.stage else {
            return HELD;
        };
        match start.renewal(alloc, 0, self.limit) {
            Ok(renewal) => {
                self.stage = RenewalStage::Built(renewal);
                0
            }
            Err(refusal) => refusal.number() as u32,
        }
    }

    /// Accepts the next entries that the replica accepted and the new range doesn't have, at most `most`, and stores
    /// the number of those that are left.
    ///
    /// Refused, in order: EMPTY (the new range isn't made yet, or is in the replica's place), Stale (the replica's
    /// journal begins at another number); then as [`Renewal::catch_up`] is: Stale, Crowded, JournalFull, NoMemory.
    pub fn catch_up(&mut self, alloc: Global, kept: &Kept, most: u64, left: &mut u64) -> u32
        ensures { CatchesUpWith (renewing_in self.old.stage) kept.now most result (self.old, left.old) (self.new, left.new) }
    {
        let RenewalStage::Built(renewal) = &mut self.stage else {
            return EMPTY;
        };
        let outcome = catch_up_from(alloc, renewal, self.first, kept, most);
        tell_number(&outcome, left);
        code(&outcome)
    }

    /// Accepts all entries that are left, and puts the new range in the replica's place. The numbers of entries
    /// continue. Afterwards the renewal holds the old range.
    ///
    /// Refused, in order: EMPTY (the new range isn't made yet, or is in the replica's place), Stale (the replica's
    /// journal begins at another number), JournalFull (after 1,000,000 entries more a number could be over 2^64 - 1);
    /// then as [`Renewal::catch_up`] is: Stale, Crowded, JournalFull, NoMemory. On error the replica is unchanged.
    pub fn finish(&mut self, alloc: Global, kept: &mut Kept) -> u32
        ensures { Finishes (renewing_in self.old.stage) result self.old self.new kept.old kept.new }
    {
        match replace(&mut self.stage, RenewalStage::Vacant) {
            RenewalStage::Built(renewal) => code(&self.replace_by(alloc, renewal, kept)),
            stage => {
                self.stage = stage;
                EMPTY
            }
        }
    }

    /// Puts a new range in the replica's place.
    fn replace_by(
        &mut self,
        alloc: Global,
        renewal: Renewal,
        kept: &mut Kept,
    ) -> Result<(), Refusal>
        requires { IsNoLonger renewal }
        ensures { Replaces renewal result self.old self.new kept.old kept.new }
    {
        match kept.replace_by(alloc, self.first, renewal) {
            Ok(old) => {
                self.stage = RenewalStage::Ended(old);
                Ok(())
            }
            Err(unfinished) => {
                self.stage = RenewalStage::Built(unfinished.renewal);
                Err(unfinished.refusal)
            }
        }
    }
}

/// Lets a new range catch up with a replica, whose journal must begin at a number. Refused, in order: Stale; then as
/// [`Renewal::catch_up`] is.
fn catch_up_from(
    alloc: Global,
    renewal: &mut Renewal,
    first: u64,
    kept: &Kept,
    most: u64,
) -> Result<u64, Refusal>
    ensures { CatchesUpUnless (first_number_fault first kept.now) renewal.old kept.now.state most result renewal.new }
{
    kept.check_first(first)?;
    renewal.catch_up(alloc, 0, kept.state(), most)
}
