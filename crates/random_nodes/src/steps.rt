//! The steps of a list, drawn by a seed before the list is run.
ghost use Rattle.std.specs.Prelude.{◌<◌};

use plain_model::plain::{Part, PlainVersion};
use plain_model::random::Random;
use std::alloc::Global;
use std::fmt;
use vclock::{Format, Refusal};
use version_set::Kind;

/// A node.
#[derive(Clone, Copy, PartialEq, Eq)]
pub(crate) enum Side {
    One,
    Two,
    Three,
}

impl Side {
    /// Draws a node.
    fn draw(random: &mut Random) -> Side {
        match random.below(3) {
            0 => Side::One,
            1 => Side::Two,
            _ => Side::Three,
        }
    }

    /// Draws another node.
    fn draw_other(self, random: &mut Random) -> Side {
        match (self, random.once_in(2)) {
            (Side::Two, true) | (Side::Three, false) => Side::One,
            (Side::Three, true) | (Side::One, false) => Side::Two,
            (Side::One, true) | (Side::Two, false) => Side::Three,
        }
    }
}

/// The context of a put.
#[derive(Clone, Copy)]
pub(crate) enum Seen {
    /// Nothing was read.
    Nothing,
    /// All versions held now.
    Now,
    /// The versions that an earlier read of the key returned, counted back from the last read.
    Earlier(u64),
}

/// A value or a tombstone that is put.
#[derive(Clone, Copy)]
pub(crate) struct Written {
    pub(crate) key: u64,
    pub(crate) seen: Seen,
    pub(crate) kind: Kind,
    pub(crate) value: Option<u8>,
    /// True if the put is refused unless its context has seen all that the node put.
    pub(crate) is_read: bool,
}

/// A range that is closed and opened again, or isn't.
#[derive(Clone, Copy)]
pub(crate) enum Renewal {
    /// Renews the range at a seat. The limit remains if it is `None`. Unless this is refused, the hints are renewed
    /// too.
    At { seat: u16, limit: Option<u64> },
    /// Closes the range without its last pass, which is refused.
    Short,
}

/// The deed of a step, at a node.
#[derive(Clone, Copy)]
pub(crate) enum Deed {
    /// Puts a value or a tombstone.
    Put(Written),
    /// Sends the node a version that some node made, counted back from the last one.
    Copy(u64),
    /// Sends the node a version of other nodes.
    Accept { key: u64, version: PlainVersion },
    /// Keeps a hint for the other node of the step, with such a version.
    Keep(u64),
    /// Delivers the other node's hints in this number of turns.
    Deliver(u64),
    /// Reads a key.
    Get(u64),
    /// Looks at a key, without a pass.
    Look(u64),
    /// Loads the rows of a leaf that the other node offers.
    Load(u64),
    /// Hashes dirty nodes in this number of turns.
    Rehash { skip: u64, turns: u64 },
    /// Publishes a snapshot this number of times.
    Publish(u8),
    /// Syncs with the other node in this number of turns. The link fails or lies once in `lies` calls.
    Sync { turns: u64, lies: u64 },
    /// Syncs in the same way, by the rows of the node's moment.
    SyncAtMoment { turns: u64, lies: u64 },
    /// Syncs with a forger.
    SyncForged { turns: u64 },
    /// Holds a moment, hashes it in this number of turns, and publishes it once it is whole.
    Hold(u64),
    /// Drops the moment.
    DropMoment,
    /// Migrates to format 2.
    Migrate,
    /// Keeps a sample of this number of microseconds, this number of milliseconds after the last one.
    Sample { after: u64, micros: u32 },
    /// Adjusts the slots, this number of milliseconds after the last sample.
    Adjust(u64),
    /// Brings the node down or up.
    Switch,
    /// Closes the range, or renews it. Done only between other steps.
    Renew(Renewal),
}

/// A step of a list.
#[derive(Clone, Copy)]
pub(crate) struct Step {
    pub(crate) side: Side,
    /// The other node of a hint, a delivery, a load or a sync.
    pub(crate) other: Side,
    pub(crate) deed: Deed,
    /// The pace: at each point of this step's worker, a next step is taken with probability 1 in `pace`.
    pub(crate) pace: u64,
    /// The seed of the random choices within the step.
    pub(crate) salt: u64,
    ghost once: { 0 < pace },
}

/// The conditions of a list.
#[derive(Clone, Copy)]
pub(crate) struct Setup {
    pub(crate) format: Format,
    pub(crate) part: Part,
    /// The limits of the journals.
    pub(crate) limits: [u64; 3],
    /// The number of versions of one key that each node has at first. Two nodes, or all three, may have too many
    /// together.
    pub(crate) crowd: u64,
    /// True if the nodes sync until they are at rest. Otherwise they are reconciled after their close.
    pub(crate) rests: bool,
    /// The seed of the exchanges after the close.
    pub(crate) salt: u64,
}

impl Setup {
    /// Draws the conditions of the list of a seed.
    pub(crate) fn draw(random: &mut Random, seed: u64) -> Setup {
        let format = if random.once_in(12) {
            Format::Two
        } else {
            Format::One
        };
        let part = match random.below(4) {
            0 => Part::Whole,
            1 => Part::Lower,
            _ => Part::Upper,
        };
        Setup {
            format,
            part,
            limits: [random.limit(8), random.limit(8), random.limit(8)],
            crowd: match random.below(32) {
                0 => 40,
                1 => 25,
                _ => 0,
            },
            rests: random.once_in(2),
            salt: !seed,
        }
    }

    /// Draws a key, rarely one of another range.
    fn key(&self, random: &mut Random) -> u64 {
        if random.once_in(40) {
            return random.below(2);
        }
        match self.part {
            Part::Upper => 8 + random.below(6),
            Part::Lower | Part::Whole => 3 + random.below(5),
        }
    }

    /// Draws the steps of a list. A quarter of the draws are a whole round of a sync, sometimes at moments. Rarely a
    /// load is drawn that a migration overtakes.
    pub(crate) fn draw_steps(
        &self,
        alloc: Global,
        random: &mut Random,
        count: u64,
    ) -> Result<Vec<Step>, Refusal> {
        let mut steps = Vec::new(alloc);
        for _ in 0..count {
            let here = Side::draw(random);
            let there = here.draw_other(random);
            if random.once_in(5) {
                steps.push(drawn(random, (there, here), WHOLE))?;
                steps.push(drawn(random, (there, here), Deed::Publish(1)))?;
                steps.push(drawn(random, (here, there), WHOLE))?;
                let deed = draw_sync(random);
                steps.push(drawn(random, (here, there), deed))?;
            } else if random.once_in(12) {
                steps.push(drawn(random, (there, here), Deed::Hold(40)))?;
                steps.push(drawn(random, (here, there), Deed::Hold(40)))?;
                let deed = draw_sync_at_moment(random);
                steps.push(drawn(random, (here, there), deed))?;
            } else if random.once_in(250) {
                steps.push(drawn(random, (there, here), WHOLE))?;
                steps.push(drawn(random, (there, here), Deed::Publish(1)))?;
                let deed = Deed::Load(self.key(random));
                steps.push(drawn(random, (here, there), deed))?;
                steps.push(drawn(random, (here, there), Deed::Migrate))?;
            } else {
                let deed = self.draw_deed(random);
                steps.push(drawn(random, (here, there), deed))?;
            }
        }
        steps.truncate(count as usize);
        Ok(steps)
    }

    /// Draws a deed. Migrations and renewals are rare.
    fn draw_deed(&self, random: &mut Random) -> Deed {
        match random.below(40) {
            0..=9 => self.draw_put(random),
            10..=12 => Deed::Copy(random.below(12)),
            13..=14 => Deed::Get(self.key(random)),
            15..=18 => draw_work(random),
            19..=20 => Deed::Hold(draw_turns(random)),
            21..=23 => Deed::Publish(if random.once_in(12) { 17 } else { 1 }),
            24..=29 => draw_sync(random),
            30..=31 => draw_sync_at_moment(random),
            32 => Deed::Keep(random.below(12)),
            33 => Deed::Deliver(if random.once_in(4) { 2 } else { 100 }),
            34 => draw_sample(random),
            35 => Deed::Look(self.key(random)),
            _ => self.draw_rare(random),
        }
    }

    /// Draws a put, in most cases with a context that was read.
    fn draw_put(&self, random: &mut Random) -> Deed {
        let seen = match random.below(8) {
            0 => Seen::Nothing,
            1..=2 => Seen::Earlier(random.below(4)),
            _ => Seen::Now,
        };
        let (kind, value) = if random.once_in(6) {
            (Kind::Tombstone, None)
        } else {
            (
                Kind::Live,
                Some(if random.once_in(2) { b'x' } else { b'y' }),
            )
        };
        Deed::Put(Written {
            key: self.key(random),
            seen,
            kind,
            value,
            is_read: random.once_in(2),
        })
    }

    /// Draws a rare deed.
    fn draw_rare(&self, random: &mut Random) -> Deed {
        match random.below(16) {
            0 => if random.once_in(2) {
                Deed::Migrate
            } else {
                Deed::DropMoment
            },
            1..=3 => Deed::Renew(draw_renewal(random)),
            4..=6 => Deed::Switch,
            7..=8 => Deed::Adjust(random.below(40_000)),
            9..=10 => Deed::Load(self.key(random)),
            11..=12 => Deed::Copy(random.below(40)),
            _ => Deed::Accept {
                key: self.key(random),
                version: random.version(),
            },
        }
    }
}

/// A rehash of the nodes made dirty by puts.
const WHOLE: Deed = Deed::Rehash { skip: 0, turns: 40 };

/// Returns a step at the first of two nodes, and draws its pace and its salt.
fn drawn(random: &mut Random, (side, other): (Side, Side), deed: Deed) -> Step {
    Step {
        side,
        other,
        deed,
        pace: pace(random),
        salt: random.below(u64::MAX),
    }
}

/// Draws a rehash.
fn draw_work(random: &mut Random) -> Deed {
    Deed::Rehash {
        skip: random.below(3),
        turns: draw_turns(random),
    }
}

/// Draws the number of turns of a hashing worker, rarely too few.
fn draw_turns(random: &mut Random) -> u64 {
    match random.below(8) {
        0 => random.below(6),
        _ => 40,
    }
}

/// Draws a sync by the rows of a moment, over a link that lies rarely or never.
fn draw_sync_at_moment(random: &mut Random) -> Deed {
    Deed::SyncAtMoment {
        turns: if random.once_in(8) {
            random.below(40)
        } else {
            300
        },
        lies: if random.once_in(4) { 6 } else { 0 },
    }
}

/// Draws a sync, over a link that lies often, rarely or never, or with a forger.
fn draw_sync(random: &mut Random) -> Deed {
    let turns = match random.below(8) {
        0 => random.below(6),
        1 => random.below(40),
        _ => 300,
    };
    match random.below(16) {
        0 => Deed::SyncForged { turns },
        1..=2 => Deed::Sync { turns, lies: 2 },
        3..=6 => Deed::Sync { turns, lies: 6 },
        _ => Deed::Sync { turns, lies: 0 },
    }
}

/// Draws a renewal, with another limit, which may be refused, at a seat that the range doesn't have, or with the same
/// limit; or a close that is refused.
fn draw_renewal(random: &mut Random) -> Renewal {
    let limit = match random.below(8) {
        0 => Some(0),
        1 => Some(1_000_001),
        2 => Some(random.limit(2)),
        _ => None,
    };
    match random.below(8) {
        0 => Renewal::Short,
        1 => Renewal::At { seat: 4, limit },
        2 => Renewal::At { seat: 2, limit },
        _ => Renewal::At { seat: 0, limit },
    }
}

/// Draws a sample of a latency.
fn draw_sample(random: &mut Random) -> Deed {
    let micros = match random.below(3) {
        0 => 10_000,
        1 => 40_000,
        _ => 90_000,
    };
    Deed::Sample {
        after: random.below(40_000),
        micros,
    }
}

/// Draws the pace of the steps at a worker's points.
fn pace(random: &mut Random) -> u64
    ensures { 0 < result }
{
    match random.below(4) {
        0 => 1,
        1 => 2,
        2 => 5,
        _ => 20,
    }
}

impl fmt::Display for Side {
    fn fmt<W: fmt::Write>(&self, f: &mut fmt::Formatter<W>) -> fmt::Result {
        match self {
            Side::One => write!(f, "one"),
            Side::Two => write!(f, "two"),
            Side::Three => write!(f, "three"),
        }
    }
}

impl fmt::Display for Seen {
    fn fmt<W: fmt::Write>(&self, f: &mut fmt::Formatter<W>) -> fmt::Result {
        match self {
            Seen::Nothing => write!(f, "nothing was read"),
            Seen::Now => write!(f, "all was read"),
            Seen::Earlier(back) => write!(f, "read {back} reads ago"),
        }
    }
}

impl fmt::Display for Deed {
    fn fmt<W: fmt::Write>(&self, f: &mut fmt::Formatter<W>) -> fmt::Result {
        match self {
            Deed::Put(
                Written {
                    key,
                    seen,
                    kind,
                    is_read,
                    ..
                },
            ) => {
                let what = if *kind == Kind::Live { "put" } else { "delete" };
                let test = if *is_read { ", checked" } else { "" };
                write!(f, "{what} of key {key}, {seen}{test}")
            }
            Deed::Copy(back) => write!(f, "copy of the version made {back} versions ago"),
            Deed::Accept { key, .. } => write!(f, "copy of another version of key {key}"),
            Deed::Keep(back) => write!(f, "hint with the version made {back} versions ago"),
            Deed::Deliver(turns) => write!(f, "delivery, {turns} turns"),
            Deed::Get(key) => write!(f, "get of key {key}"),
            Deed::Look(key) => write!(f, "look at key {key}"),
            Deed::Load(key) => write!(f, "load of the leaf of key {key}"),
            Deed::Rehash { skip, turns } => write!(f, "rehash, skip {skip}, {turns} turns"),
            Deed::Publish(times) => write!(f, "publish, {times} times"),
            Deed::Sync { turns, lies } => write!(f, "sync, {turns} turns, lies 1 in {lies}"),
            Deed::SyncAtMoment { turns, lies } => {
                write!(f, "sync at a moment, {turns} turns, lies 1 in {lies}")
            }
            Deed::SyncForged { turns } => write!(f, "sync with a forger, {turns} turns"),
            Deed::Hold(turns) => write!(f, "moment, {turns} turns"),
            Deed::DropMoment => write!(f, "no moment"),
            Deed::Migrate => write!(f, "migrate"),
            Deed::Sample { after, micros } => write!(f, "sample {micros} after {after}"),
            Deed::Adjust(after) => write!(f, "adjust after {after}"),
            Deed::Switch => write!(f, "down or up"),
            Deed::Renew(renewal) => write!(f, "{renewal}"),
        }
    }
}

impl fmt::Display for Renewal {
    fn fmt<W: fmt::Write>(&self, f: &mut fmt::Formatter<W>) -> fmt::Result {
        match self {
            Renewal::At {
                seat,
                limit: Some(limit),
            } => write!(f, "renew at seat {seat}, limit {limit}"),
            Renewal::At { seat, limit: None } => write!(f, "renew at seat {seat}"),
            Renewal::Short => write!(f, "close without a pass"),
        }
    }
}

impl fmt::Display for Step {
    fn fmt<W: fmt::Write>(&self, f: &mut fmt::Formatter<W>) -> fmt::Result {
        let Step {
            side,
            other,
            deed,
            pace,
            ..
        } = self;
        write!(f, "{side} ({other}): {deed}, steps 1 in {pace}")
    }
}
