//! Renewals of a closed node alongside the events of its exchange. Each begins from a moment, is made, catches up with
//! a few entries at a time, and is finished. In rare cases a stranger is tried in place of the node.

use crate::exchanges::{copy, draw_copy};
use crate::mirror::Mirror;
use crate::pairs::Closed;
use crate::ranges::{Range, config_of};
use crate::tally::Tally;
use plain_model::catch_ups::PlainRenewal;
use plain_model::plain::{Fault, Part, PlainRange};
use plain_model::random::Random;
use plain_model::trouble::{Trouble, expect};
use range_state::{RangeState, Renewal, RenewalStart, Unfinished};
use std::alloc::Global;
use std::mem::replace;
use vclock::Format;

/// The seat of all entries of a new range.
const SEAT: u16 = 3;

/// The renewals of a node. One at a time is in progress.
#[derive(Drop)]
pub(crate) struct CatchUps {
    /// The generator of the steps. The events of the exchange are drawn by another one, so renewals don't change them.
    random: Random,
    /// True if the node is renewed.
    is_due: bool,
    stage: Stage,
}

/// The progress of a renewal.
#[derive(Drop)]
enum Stage {
    /// None is in progress.
    None,
    /// It has the rows of a moment.
    Begun(RenewalStart, PlainRange),
    /// It has a new range.
    Made(Made),
}

/// A new range, and its expected state.
struct Made {
    renewal: Renewal,
    plain: PlainRenewal,
}

impl CatchUps {
    /// Draws whether a node is renewed, and begins the renewal. Some node is renewed in one of five lists.
    pub(crate) fn draw(
        alloc: Global,
        mut random: Random,
        here: &mut Closed,
    ) -> Result<CatchUps, Trouble> {
        let mut random = Random::new(random.below(u64::MAX));
        let is_due = random.once_in(14);
        let stage = if is_due {
            begin(alloc, &mut random, here)?
        } else {
            Stage::None
        };
        Ok(CatchUps {
            random,
            is_due,
            stage,
        })
    }

    /// Does the next step of the renewals, and compares its result.
    pub(crate) fn step(
        &mut self,
        alloc: Global,
        here: &mut Closed,
        tally: &mut Tally,
    ) -> Result<(), Trouble> {
        if self.is_due {
            let stage = replace(&mut self.stage, Stage::None);
            self.stage = stage.next(alloc, &mut self.random, here, tally)?;
        }
        Ok(())
    }

    /// Finishes the renewal in progress, if it has a new range.
    pub(crate) fn end(
        self,
        alloc: Global,
        here: &mut Closed,
        tally: &mut Tally,
    ) -> Result<(), Trouble> {
        let CatchUps { stage, .. } = self;
        match stage {
            Stage::Made(made) => {
                let _stage = made.finish(alloc, here, tally)?;
                Ok(())
            }
            Stage::Begun(_start, _moment) => Ok(()),
            Stage::None => Ok(()),
        }
    }
}

impl Stage {
    /// Does the next step, or has the node accept a random version instead.
    fn next(
        self,
        alloc: Global,
        random: &mut Random,
        here: &mut Closed,
        tally: &mut Tally,
    ) -> Result<Stage, Trouble> {
        if random.once_in(2) {
            let (key, version) = draw_copy(random);
            copy(alloc, here, key, version)?;
            return Ok(self);
        }
        match self {
            Stage::None => begin(alloc, random, here),
            Stage::Begun(start, moment) => make(alloc, random, start, moment),
            Stage::Made(made) => made.go_on(alloc, random, here, tally),
        }
    }
}

/// Begins a renewal from the last moment, which is hashed, or rarely from a new one.
fn begin(alloc: Global, random: &mut Random, here: &mut Closed) -> Result<Stage, Trouble> {
    if random.once_in(4) {
        here.hold(alloc)?;
    } else {
        here.range.hash_moment(alloc)?;
    }
    match (here.range.begin_renewal(alloc), here.mirror.moment) {
        (Ok(start), Some(_)) => Ok(Stage::Begun(start, here.mirror.at_moment()?)),
        (Err(refusal), None) => {
            expect(
                Fault::Dirty.is(&refusal),
                "the refusal of a renewal's beginning",
            )?;
            Ok(Stage::None)
        }
        _ => Err(Trouble::Differs("whether a renewal begins")),
    }
}

/// Makes the new range from the rows of the moment, with a limit that is rarely refused.
fn make(
    alloc: Global,
    random: &mut Random,
    start: RenewalStart,
    moment: PlainRange,
) -> Result<Stage, Trouble> {
    let limit = match random.below(16) {
        0 => 0,
        1 => 1_000_001,
        _ => random.limit(8),
    };
    match (
        start.renewal(alloc, SEAT, limit),
        moment.renewal_fault(alloc, limit)?,
    ) {
        (Ok(renewal), None) => {
            let plain = moment.renewal(alloc, SEAT, limit)?;
            let made = Made { renewal, plain };
            made.check()?;
            Ok(Stage::Made(made))
        }
        (Err(refusal), Some(fault)) => {
            expect(fault.is(&refusal), "the refusal of a new range")?;
            Ok(Stage::Begun(start, moment))
        }
        _ => Err(Trouble::Differs("whether a new range is made")),
    }
}

impl Made {
    /// Catches up with up to three entries, or finishes. Rarely tries one of these with a stranger.
    fn go_on(
        mut self,
        alloc: Global,
        random: &mut Random,
        here: &mut Closed,
        tally: &mut Tally,
    ) -> Result<Stage, Trouble> {
        match random.below(16) {
            0 => self.finish(alloc, here, tally),
            1 => {
                let mut stranger = draw_stranger(alloc, random, &here.mirror)?;
                let stage = if random.once_in(2) {
                    self.finish(alloc, &mut stranger, tally)?
                } else {
                    self.catch_up(alloc, &stranger, 1)?;
                    Stage::Made(self)
                };
                stranger.check(alloc)?;
                Ok(stage)
            }
            _ => {
                self.catch_up(alloc, here, random.below(4))?;
                Ok(Stage::Made(self))
            }
        }
    }

    /// Catches up with a node's next entries, at most this number of them.
    fn catch_up(&mut self, alloc: Global, here: &Closed, most: u64) -> Result<(), Trouble> {
        let reply = here.range.catch_up(alloc, &mut self.renewal, SEAT, most);
        match (reply, self.plain.catch_up(&here.mirror.plain, SEAT, most)?) {
            (Ok(left), Ok(wanted)) => expect(
                left == wanted,
                "the number of entries that are left",
            )?,
            (Err(refusal), Err(fault)) => expect(fault.is(&refusal), "the refusal of an entry")?,
            _ => return Err(Trouble::Differs("whether a new range catches up")),
        }
        self.check()
    }

    /// Replaces a node's range by the new one, and compares the old range that is returned.
    fn finish(
        mut self,
        alloc: Global,
        here: &mut Closed,
        tally: &mut Tally,
    ) -> Result<Stage, Trouble> {
        let began = self.renewal.began();
        let wanted = self.plain.catch_up(&here.mirror.plain, SEAT, u64::MAX)?;
        let Made { renewal, plain } = self;
        match (here.range.finish(alloc, renewal, SEAT), wanted) {
            (Ok(old), Ok(_)) => {
                check_old(&old, &here.mirror)?;
                tally.count_renewal((plain.front as u64).wrapping_sub(began));
                here.mirror.replace_range(alloc, plain.range);
                here.check(alloc)?;
                Ok(Stage::None)
            }
            (Err(unfinished), Err(fault)) => {
                let Unfinished { renewal, refusal } = unfinished;
                expect(fault.is(&refusal), "the refusal of a renewal's end")?;
                let made = Made { renewal, plain };
                made.check()?;
                Ok(Stage::Made(made))
            }
            _ => Err(Trouble::Differs("whether a renewal is finished")),
        }
    }

    /// Compares the number of entries.
    fn check(&self) -> Result<(), Trouble> {
        let entries = self.renewal.state().journal().len();
        expect(
            entries == self.plain.range.entries.len() as u64,
            "the number of a new range's entries",
        )
    }
}

/// Compares the journal and the sessions of a range that a new one replaced.
fn check_old(old: &Range, mirror: &Mirror) -> Result<(), Trouble> {
    let Mirror {
        plain,
        walks,
        sessions,
        ..
    } = mirror;
    old.check_journal(plain)?;
    old.check_walks(walks, sessions)
}

/// Draws a node that has accepted nothing: of another format, of another part, or neither.
fn draw_stranger(alloc: Global, random: &mut Random, here: &Mirror) -> Result<Closed, Trouble> {
    let (mut format, mut part) = (here.plain.format, here.plain.part);
    match random.below(3) {
        0 => format = if format == Format::One {
            Format::Two
        } else {
            Format::One
        },
        1 => part = if part == Part::Lower {
            Part::Upper
        } else {
            Part::Lower
        },
        _ => {}
    }
    let limit = here.plain.limit;
    let state = RangeState::new(alloc, config_of(format, part, limit)?)?;
    let plain = PlainRange {
        format,
        part,
        limit,
        entries: Vec::new(alloc),
    };
    Ok(Closed {
        range: Range::from(state),
        mirror: Mirror::new(alloc, here.at, plain),
    })
}

impl Drop for Made {
    /// Keeps the fields out of the proofs of callers that drop it.
    fn drop(self) {
        let Made {
            renewal: _renewal,
            plain: _plain,
        } = self;
    }
}
