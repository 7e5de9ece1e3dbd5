//! Exchanges: sessions whose answers arrive in any order, or not at all.
ghost use Rattle.std.specs.Prelude.{◌≤◌};

use crate::calls::{count_held, hold_moment, migrate, new_range, put};
use exchange::{Bounds, DryExchange, Exchange, Report, Stop, Verdict};
use key_ring::place;
use range_state::RangeState;
use snapshot::Snapshot;
use std::alloc::Global;
use std::sync::Arc;
use std::test::Fail;
use test_values::calls::node_at;
use test_values::checks::expect;
use tree_nodes::{NodeAt, Text};
use vclock::{Format, Refusal};
use walk_messages::{Answer, Ask, Message, encode};

/// Bounds that nothing here reaches.
const WIDE: Bounds = Bounds {
    asks: 64,
    bytes: 1_000_000,
    bad: 8,
    lost: 8,
};

/// Makes a range of format 1 that holds a value of each of these keys, put at a node, 1 to 65,535. Its journal takes
/// this number of entries.
fn range_of(alloc: Global, limit: u64, node: u16, keys: &[&[u8]]) -> Result<RangeState, Fail>
    requires { 1 ≤ node }
{
    let mut state = new_range(alloc, 1, limit)?;
    for key in keys {
        put(alloc, &mut state, node, &[], key, b"x")?;
    }
    Ok(state)
}

/// Makes a range of format 2 with 100,000 keys and values of 100 bytes. The newer range has newer values of 1,100 keys.
fn many(alloc: Global, is_newer: bool) -> Result<RangeState, Fail> {
    let mut state = new_range(alloc, 2, 200_000)?;
    for number in 0..100_000u32 {
        let key = number.to_be_bytes();
        put(alloc, &mut state, 2, &[], &key, &[b'x'; 100])?;
        if is_newer && number % 90 == 0 && number / 90 < 1_100 {
            put(alloc, &mut state, 2, &[(2, 1)], &key, &[b'y'; 100])?;
        }
    }
    Ok(state)
}

/// Returns the current rows of a range as a whole moment.
fn moment(alloc: Global, state: &mut RangeState) -> Result<Arc<Snapshot, Global>, Fail> {
    hold_moment(alloc, state)?;
    for _portion in 0..1_000 {
        if state.hash_moment(alloc, 1_000)? == 0 {
            break;
        }
    }
    Ok(state.moment(alloc)?)
}

/// Returns the answer of a partner's offer with a number for a node, that claims another node's text.
fn claim(
    alloc: Global,
    partner: &Snapshot,
    offer: u32,
    node: NodeAt,
    of: NodeAt,
) -> Result<Vec<u8>, Fail> {
    let text = Text::from(partner.answer(alloc, Ask { offer, node: of })?);
    Ok(encode(alloc, &Message::Answer(Answer { offer, node, text }))?)
}

/// An exchange of a range with a partner's rows.
#[derive(Drop)]
struct Pair {
    state: RangeState,
    partner: Arc<Snapshot, Global>,
    exchange: Exchange,
}

impl Pair {
    /// Makes an exchange, within some bounds, of a range with the rows of another one.
    fn new(
        alloc: Global,
        mut state: RangeState,
        mut other: RangeState,
        bounds: Bounds,
    ) -> Result<Pair, Fail> {
        let partner = moment(alloc, &mut other)?;
        moment(alloc, &mut state)?;
        let exchange = Exchange::open(alloc, &mut state, 2, partner.offer(7), bounds)?;
        Ok(Pair {
            state,
            partner,
            exchange,
        })
    }

    /// Returns all asks that may be sent now.
    fn asks(&mut self, alloc: Global) -> Result<Vec<NodeAt>, Fail> {
        let mut asks = Vec::new(alloc);
        for _ in 0..300 {
            match self.exchange.next(&self.state) {
                Some(ask) => asks.push(ask.node)?,
                None => return Ok(asks),
            }
        }
        Err("there is no end of asks")?
    }

    /// Returns the answer of an offer with a number for a node, that claims another node's text.
    fn claim(&self, alloc: Global, offer: u32, node: NodeAt, of: NodeAt) -> Result<Vec<u8>, Fail> {
        claim(alloc, &self.partner, offer, node, of)
    }

    /// Takes the bytes of an answer.
    fn take(&mut self, alloc: Global, answer: &[u8]) -> Verdict {
        self.exchange.take(alloc, &mut self.state, 0, answer)
    }

    /// Takes the true answer for a node.
    fn take_true(&mut self, alloc: Global, node: NodeAt) -> Result<Verdict, Fail> {
        let answer = self.claim(alloc, 7, node, node)?;
        Ok(self.take(alloc, &answer))
    }

    /// Answers all asks truly, the last one first, until no more are sent.
    fn answer_all(&mut self, alloc: Global) -> Result<(), Fail> {
        for _ in 0..4 {
            let asks = self.asks(alloc)?;
            for node in asks.iter().rev() {
                self.take_true(alloc, *node)?;
            }
        }
        Ok(())
    }

    /// Answers truly until only leaves are outstanding, and asks for them.
    fn leaves(&mut self, alloc: Global) -> Result<Vec<NodeAt>, Fail> {
        for _ in 0..2 {
            for node in &self.asks(alloc)? {
                self.take_true(alloc, *node)?;
            }
        }
        self.asks(alloc)
    }

    /// Returns the progress of the exchange.
    fn report(&self) -> Report {
        self.exchange.report(&self.state)
    }
}

/// Asserts that a verdict calls an answer bad for this cause.
fn expect_bad(verdict: Verdict, cause: Refusal) -> Result<(), Fail> {
    match verdict {
        Verdict::Bad(refusal) => expect(
            refusal.number() == cause.number(),
            "an answer is bad for its cause",
        ),
        _ => Err("an answer isn't bad")?,
    }
}

/// Returns the leaf of a key in a tree of format 1.
fn leaf_of(key: &[u8]) -> Result<NodeAt, Fail> {
    node_at(2, place(Format::One, 0, key).leaf)
}

/// Returns a range that holds 64 concurrent versions of `k`.
fn crowded(alloc: Global) -> Result<RangeState, Fail> {
    let mut state = new_range(alloc, 1, 1_000)?;
    for node in 1..=64 {
        put(alloc, &mut state, node, &[], b"k", b"x")?;
    }
    Ok(state)
}

/// Returns the exchange of a range whose `k` is crowded with a range that holds one more version of it, and other keys.
fn crowded_pair(alloc: Global, bounds: Bounds) -> Result<Pair, Fail> {
    let other = range_of(alloc, 1_000, 65, &[b"a", b"b", b"c", b"k"])?;
    Pair::new(alloc, crowded(alloc)?, other, bounds)
}

#[test]
fn an_exchange_takes_what_the_range_lacks(rt: HostRuntime) -> Result<(), Fail> {
    let alloc = rt.alloc();
    let state = range_of(alloc, 1_000, 1, &[b"a"])?;
    let other = range_of(alloc, 1_000, 2, &[b"b", b"c"])?;
    let mut pair = Pair::new(alloc, state, other, WIDE)?;
    expect(pair.report() == Report::Waiting, "the root is to be asked")?;
    pair.answer_all(alloc)?;
    expect(pair.report() == Report::Finished, "it is finished")?;
    let tally = pair.exchange.tally();
    expect(
        tally.accepted == 2 && tally.leaves == 3 && tally.bad == 0 && tally.lost == 0,
        "two versions were new, in three leaves that differ",
    )?;
    expect(
        count_held(&pair.state, b"b") == 1 && pair.state.open_sessions() == 0,
        "the range holds them",
    )
}

#[test]
fn an_exchange_with_the_same_rows_is_finished_at_once(rt: HostRuntime) -> Result<(), Fail> {
    let alloc = rt.alloc();
    let state = range_of(alloc, 1_000, 1, &[b"a"])?;
    let other = range_of(alloc, 1_000, 1, &[b"a"])?;
    let pair = Pair::new(alloc, state, other, WIDE)?;
    expect(
        pair.report() == Report::Finished && pair.state.records().is_empty(),
        "no session is opened",
    )
}

#[test]
fn an_exchange_leaves_the_leaf_of_a_crowded_key(rt: HostRuntime) -> Result<(), Fail> {
    let alloc = rt.alloc();
    let mut pair = crowded_pair(alloc, WIDE)?;
    pair.answer_all(alloc)?;
    expect(pair.report() == Report::Left, "a leaf is left")?;
    let left = pair.exchange.left(&pair.state, 0).ok_or("no leaf is left")?;
    expect(
        left == leaf_of(b"k")? && pair.exchange.left(&pair.state, 1).is_none(),
        "it is the leaf of the crowded key, and no other",
    )?;
    expect(
        pair.exchange.tally().accepted == 3 && count_held(&pair.state, b"k") == 64,
        "the other versions were taken",
    )
}

#[test]
fn an_answer_counts_for_the_node_that_it_names(rt: HostRuntime) -> Result<(), Fail> {
    let alloc = rt.alloc();
    let bounds = Bounds { lost: 2, ..WIDE };
    let mut pair = crowded_pair(alloc, bounds)?;
    let leaves = pair.leaves(alloc)?;
    let crowded = leaf_of(b"k")?;
    for _ in &leaves {
        pair.take_true(alloc, crowded)?;
    }
    expect(
        leaves.len() == 4 && pair.exchange.in_flight() == 3,
        "the three other asks are on their way still",
    )?;
    for node in &leaves {
        pair.exchange.lose(*node);
    }
    expect(
        pair.report() == Report::TooManyLost && pair.exchange.next(&pair.state).is_none(),
        "their owner gives them up",
    )?;
    let tally = pair.exchange.tally();
    expect(
        tally.bad == 0 && tally.lost == 3 && tally.accepted == 0,
        "nothing was taken",
    )
}

#[test]
fn bad_answers_count_and_late_ones_dont(rt: HostRuntime) -> Result<(), Fail> {
    let alloc = rt.alloc();
    let other = range_of(alloc, 1_000, 2, &[b"b"])?;
    let bounds = Bounds { bad: 2, ..WIDE };
    let mut pair = Pair::new(alloc, new_range(alloc, 1, 1_000)?, other, bounds)?;
    let root = node_at(0, 0)?;
    let child = node_at(1, 3)?;
    pair.asks(alloc)?;
    let foreign = pair.claim(alloc, 8, root, root)?;
    expect(
        matches!(pair.take(alloc, &foreign), Verdict::Late),
        "an answer of another offer is late",
    )?;
    expect_bad(pair.take_true(alloc, child)?, Refusal::NotAsked)?;
    let forged = pair.claim(alloc, 7, root, child)?;
    expect_bad(pair.take(alloc, &forged), Refusal::WrongDigest)?;
    expect(
        pair.asks(alloc)?.as_slice() == [root].as_slice(),
        "the root is asked again",
    )?;
    pair.take_true(alloc, root)?;
    expect(
        matches!(pair.take_true(alloc, root)?, Verdict::Late),
        "a second answer is late",
    )?;
    expect_bad(pair.take(alloc, b""), Refusal::BadMessage)?;
    expect(
        pair.report() == Report::TooManyBad && pair.exchange.tally().bad == 3,
        "three are too many",
    )
}

#[test]
fn asks_stop_when_the_journal_is_full(rt: HostRuntime) -> Result<(), Fail> {
    let alloc = rt.alloc();
    let other = range_of(alloc, 1_000, 2, &[b"a", b"b", b"c"])?;
    let mut pair = Pair::new(alloc, new_range(alloc, 1, 2)?, other, WIDE)?;
    pair.answer_all(alloc)?;
    expect(
        pair.report() == Report::Stopped(Stop::JournalFull),
        "there is no room for the third version",
    )?;
    pair.exchange.go_on();
    expect(
        pair.asks(alloc)?.len() == 1 && pair.exchange.tally().lost == 1,
        "its leaf is asked again",
    )?;
    pair.exchange.close(&mut pair.state);
    pair.state.drop_ended_sessions();
    expect(
        pair.report() == Report::Closed && pair.state.records().is_empty(),
        "a closed exchange leaves no record",
    )
}

#[test]
fn an_exchange_goes_on_after_each_deadline(rt: HostRuntime) -> Result<(), Fail> {
    let alloc = rt.alloc();
    let mut pair = Pair::new(alloc, many(alloc, false)?, many(alloc, true)?, WIDE)?;
    // (the length of the offer)
    let mut bytes = 42usize;
    for tick in 0..200u8 {
        for node in pair.asks(alloc)? {
            let answer = pair.claim(alloc, 7, node, node)?;
            bytes = bytes.saturating_add(8).saturating_add(answer.len());
            pair.take(alloc, &answer);
        }
        put(alloc, &mut pair.state, 1, &[], &[tick], b"in between")?;
    }
    expect(
        pair.report() == Report::Finished && pair.exchange.tally().accepted == 1_100,
        "each newer value is taken",
    )?;
    expect(
        pair.state.records().len() == 1 && bytes <= 4_000_000,
        "in one session, and in at most 4.0 MB",
    )
}

#[test]
fn a_migration_ends_an_exchange(rt: HostRuntime) -> Result<(), Fail> {
    let alloc = rt.alloc();
    let other = range_of(alloc, 1_000, 2, &[b"b"])?;
    let mut pair = Pair::new(alloc, new_range(alloc, 1, 1_000)?, other, WIDE)?;
    pair.asks(alloc)?;
    migrate(alloc, &mut pair.state)?;
    expect(
        pair.report() == Report::Gone && count_held(&pair.state, b"b") == 0,
        "its session was cancelled",
    )
}

#[test]
fn a_dry_exchange_shows_what_a_range_lacks(rt: HostRuntime) -> Result<(), Fail> {
    let alloc = rt.alloc();
    let own = moment(alloc, &mut range_of(alloc, 1_000, 1, &[b"a"])?)?;
    let partner = moment(alloc, &mut range_of(alloc, 1_000, 2, &[b"b", b"c"])?)?;
    let bounds = WIDE;
    let mut exchange = DryExchange::open(alloc, own, partner.offer(7), bounds)?;
    expect(
        exchange.differing_keys() == None,
        "nothing is known of the first two levels",
    )?;
    let mut keys = Vec::new(alloc);
    for _ in 0..300 {
        let Some(ask) = exchange.next() else {
            break;
        };
        let answer = claim(alloc, &partner, 7, ask.node, ask.node)?;
        let shown = exchange.take(alloc, &answer);
        for row in &shown.news.ok_or("an answer wasn't taken")?.rows {
            keys.extend_from_slice(row.key.as_slice())?;
        }
    }
    expect(
        exchange.report() == Report::Finished && keys.len() == 2,
        "two rows are lacking",
    )?;
    expect(
        keys.contains(&b'b') && keys.contains(&b'c'),
        "they are the partner's",
    )?;
    // 256/256 + 256/255 + 256/254 of 256 nodes
    expect(exchange.differing_keys() == Some(3), "three keys differ")
}
