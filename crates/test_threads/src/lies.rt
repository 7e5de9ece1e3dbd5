//! Sync workers whose links lie or fail.

use crate::nodes::{Node, TURNS};
use crate::outcomes::{Outcome, finished, report};
use crate::partners::{Row, pool_of};
use crate::runs::{NodeTest, run_node};
use range_state::RangeState;
use ring_node::{Deed, Link, MemoryLink, OfferPool, Reached, ScriptedLink};
use std::alloc::Global;
use std::sync::Wait;
use std::sync::ledger::Ledger;
use std::test::Fail;
use std::thread::Threads;
use sync_session::SessionState;
use tree_nodes::{NodeAt, Text, hash};
use vclock::Refusal;
use walk_messages::{Answer, Message, Offer, decode, encode};

/// A sync of a range without rows with a partner, over a link that does the deeds.
#[derive(Clone, Copy)]
struct Scripted<'a> {
    /// The partner's pool.
    pool: &'a OfferPool,
    /// The deeds.
    deeds: &'a [Deed],
    /// The maximum number of turns.
    turns: u64,
    /// The expected outcome.
    outcome: Outcome<'a>,
}

impl<'a> NodeTest for Scripted<'a> {
    fn run<L: Ledger, C: Ledger, R: Threads + Wait + Sync>(
        &self,
        rt: &R,
        alloc: Global,
        node: &mut Node<L, C>,
    ) -> Result<(), Fail> {
        let deeds = Vec::from_slice(alloc, self.deeds)?;
        let mut link = ScriptedLink::new(alloc, MemoryLink::new(alloc, self.pool), deeds);
        self.outcome
            .expect_sync(rt, alloc, node, &mut link, self.turns)
    }

    fn check(&self, alloc: Global, state: &RangeState) -> Result<(), Fail> {
        self.outcome.expect_state(alloc, state)
    }
}

/// Syncs a range without rows with a partner that has these rows, over a link that does the deeds.
fn sync_by<R: Threads + Wait + Sync>(
    rt: &R,
    alloc: Global,
    rows: &[Row<'_>],
    deeds: &[Deed],
    turns: u64,
    outcome: Outcome<'_>,
) -> Result<(), Fail> {
    let pool = pool_of(rt, alloc, rows)?;
    let test = Scripted {
        pool: &pool,
        deeds,
        turns,
        outcome,
    };
    run_node(rt, alloc, 1_000, &test)
}

/// A true offer, then four bad answers among the true ones to three asks. The first answer has 529 bytes.
const LIES: [Deed; 8] = [
    Deed::Pass,
    Deed::Change(528),
    Deed::Cut(528),
    Deed::Renumber(2),
    Deed::Pass,
    Deed::Repeat,
    Deed::Pass,
    Deed::Pass,
];

#[test]
fn lies_are_counted_and_asked_again(rt: HostRuntime) -> Result<(), Fail> {
    let outcome = Outcome::reported(report(SessionState::Finished, 3, 1, 4), 1);
    sync_by(&rt, rt.alloc(), &[Row::new(b"a", 1)], &LIES, 7, outcome)
}

#[test]
fn a_session_is_cancelled_when_its_turns_are_used(rt: HostRuntime) -> Result<(), Fail> {
    let outcome = Outcome::reported(report(SessionState::Cancelled, 3, 0, 4), 0);
    sync_by(&rt, rt.alloc(), &[Row::new(b"a", 1)], &LIES, 6, outcome)
}

#[test]
fn the_node_of_the_answer_is_taken(rt: HostRuntime) -> Result<(), Fail> {
    let other = NodeAt::new(1, 9).ok_or("no such node")?;
    let rows = [Row::new(b"a", 1), Row::new(b"abc", 1)];
    let deeds = [Deed::Pass, Deed::Pass, Deed::Node(other)];
    let outcome = Outcome {
        asked: Some(&[(0, 0), (1, 0), (1, 9), (2, 144), (2, 12)]),
        ..Outcome::reported(finished(5, 2), 2)
    };
    sync_by(&rt, rt.alloc(), &rows, &deeds, 5, outcome)
}

/// Runs four syncs, whose links do the deed in the first to the fourth call. Expects this refusal, this number of
/// failures of the link, no entry, and a cancelled session unless the call is the first.
fn end_each<R: Threads + Wait + Sync>(
    rt: &R,
    alloc: Global,
    deed: Deed,
    refusal: u64,
    failures: u64,
) -> Result<(), Fail> {
    let all = [Deed::Pass, Deed::Pass, Deed::Pass, deed];
    let deeds: &[Deed] = &all;
    for passed in 0..4_usize {
        let session = if passed == 0 {
            None
        } else {
            Some(SessionState::Cancelled)
        };
        let outcome = Outcome::refused(refusal, failures, session);
        sync_by(
            rt,
            alloc,
            &[Row::new(b"a", 1)],
            &deeds[3 - passed..],
            TURNS,
            outcome,
        )?;
    }
    Ok(())
}

#[test]
fn a_lost_call_ends_the_sync(rt: HostRuntime) -> Result<(), Fail> {
    end_each(&rt, rt.alloc(), Deed::Lost, Refusal::LinkLost.number(), 1)
}

#[test]
fn a_call_that_is_gone_ends_the_sync(rt: HostRuntime) -> Result<(), Fail> {
    end_each(&rt, rt.alloc(), Deed::Gone, Refusal::Gone.number(), 0)
}

/// A link to a partner whose text of each node is `abc`, the root's too.
#[derive(Drop)]
struct Forger {
    alloc: Global,
}

impl Forger {
    /// Returns the offer's message.
    fn offered(&self) -> Result<Vec<u8>, Refusal> {
        let root = hash(Text::copy_of(self.alloc, b"abc")?).digest();
        encode(
            self.alloc,
            &Message::Offer(Offer {
                offer: 1,
                format: 1,
                range: 0,
                root,
            }),
        )
    }

    /// Returns the message of the answer to an ask.
    fn answered(&self, message: &[u8]) -> Result<Vec<u8>, Refusal> {
        let read = decode(self.alloc, message)?;
        let Message::Ask(ask) = &read else {
            return Err(Refusal::BadMessage);
        };
        encode(
            self.alloc,
            &Message::Answer(Answer {
                offer: ask.offer,
                node: ask.node,
                text: Text::copy_of(self.alloc, b"abc")?,
            }),
        )
    }
}

impl Link for Forger {
    ghost failed = { λ _. 0 };

    fn failures(&self) -> u64 {
        0
    }

    fn offer<R: Wait>(&mut self, _rt: &R) -> Reached {
        match self.offered() {
            Ok(bytes) => Reached::Bytes(bytes),
            Err(_) => Reached::Gone,
        }
    }

    fn ask<R: Wait>(&mut self, _rt: &R, message: &[u8]) -> Reached {
        match self.answered(message) {
            Ok(bytes) => Reached::Bytes(bytes),
            Err(_) => Reached::Gone,
        }
    }
}

/// A sync with such a partner, with this outcome.
#[derive(Clone, Copy)]
struct Forged<'a>(Outcome<'a>);

impl<'a> NodeTest for Forged<'a> {
    fn run<L: Ledger, C: Ledger, R: Threads + Wait + Sync>(
        &self,
        rt: &R,
        alloc: Global,
        node: &mut Node<L, C>,
    ) -> Result<(), Fail> {
        let mut link = Forger { alloc };
        self.0.expect_sync(rt, alloc, node, &mut link, TURNS)
    }

    fn check(&self, alloc: Global, state: &RangeState) -> Result<(), Fail> {
        self.0.expect_state(alloc, state)
    }
}

#[test]
fn a_text_of_no_node_fails_the_session(rt: HostRuntime) -> Result<(), Fail> {
    let test = Forged(Outcome::reported(report(SessionState::Failed, 1, 0, 0), 0));
    run_node(&rt, rt.alloc(), 1_000, &test)
}
