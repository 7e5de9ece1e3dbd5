//! Outcomes of syncs.

use crate::nodes::Node;
use range_state::RangeState;
use ring_node::{Link, SyncReport};
use std::alloc::Global;
use std::sync::Wait;
use std::sync::ledger::Ledger;
use std::test::Fail;
use sync_session::SessionState;
use test_values::checks::expect;
use test_values::versions::members;
use vclock::Refusal;

/// Returns the report of the first session of a range, if it knew no version.
pub fn report(state: SessionState, asked: u64, accepted: u64, bad: u64) -> SyncReport {
    SyncReport {
        id: 0,
        state,
        asked,
        accepted,
        known: 0,
        bad,
    }
}

/// Returns the report of the first session of a range, if it knew no version and received no bad answer.
pub fn finished(asked: u64, accepted: u64) -> SyncReport {
    report(SessionState::Finished, asked, accepted, 0)
}

/// The expected outcome of a sync, and of its range when it is closed.
#[derive(Clone, Copy)]
pub struct Outcome<'a> {
    /// The worker's report, or the number of its refusal.
    pub report: Result<SyncReport, u64>,
    /// The number of failures of the link.
    pub failures: u64,
    /// The number of entries in the journal.
    pub entries: u64,
    /// The state of the only session, if one was opened.
    pub session: Option<SessionState>,
    /// The depth and the index of each node that the session asked for, if they are compared.
    pub asked: Option<&'a [(u8, u16)]>,
    /// The versions of `a`, if they are compared.
    pub held: Option<&'a str>,
}

impl<'a> Outcome<'a> {
    /// Returns the outcome of a sync that ends with a report, over a link that doesn't fail.
    pub fn reported(report: SyncReport, entries: u64) -> Outcome<'a> {
        Outcome {
            report: Ok(report),
            failures: 0,
            entries,
            session: Some(report.state),
            asked: None,
            held: None,
        }
    }

    /// Returns the outcome of a sync that is refused before it accepts a version.
    pub fn refused(refusal: u64, failures: u64, session: Option<SessionState>) -> Outcome<'a> {
        Outcome {
            report: Err(refusal),
            failures,
            entries: 0,
            session,
            asked: None,
            held: None,
        }
    }

    /// Returns true if a worker's result is the expected one.
    fn is_result(&self, ended: &Result<SyncReport, Refusal>) -> bool {
        match (ended, self.report) {
            (Ok(report), Ok(wanted)) => *report == wanted,
            (Err(refusal), Err(wanted)) => refusal.number() == wanted,
            _ => false,
        }
    }

    /// Hashes and syncs a node over a link, in at most this number of turns. Expects the worker's result, and the
    /// number of failures of the link.
    pub fn expect_sync<L: Ledger, C: Ledger, K: Link, R: Wait>(
        &self,
        rt: &R,
        alloc: Global,
        node: &mut Node<L, C>,
        link: &mut K,
        turns: u64,
    ) -> Result<(), Fail> {
        node.rehash(rt, alloc)?;
        let ended = node.sync(rt, alloc, link, turns);
        expect(self.is_result(&ended), "the report is the expected one")?;
        expect(
            link.failures() == self.failures,
            "the link fails as often as expected",
        )
    }

    /// Expects the entries and the session of a closed range, and the nodes asked for and the versions of `a` if they
    /// are compared.
    pub fn expect_state(&self, alloc: Global, state: &RangeState) -> Result<(), Fail> {
        expect(
            state.journal().len() == self.entries,
            "the number of entries is the expected one",
        )?;
        expect_session(state, self.session)?;
        if let Some(asked) = self.asked {
            expect_asked(state, asked)?;
        }
        if let Some(held) = self.held {
            expect_held(alloc, state, held)?;
        }
        Ok(())
    }
}

/// Expects that a range has one session in this state, or no session.
fn expect_session(state: &RangeState, expected: Option<SessionState>) -> Result<(), Fail> {
    let records = state.records();
    let found = records.first().map(|record| record.session().state());
    expect(
        found == expected && records.len() <= 1,
        "the only session ends in the expected state",
    )
}

/// Expects the nodes that the last session of a range asked for, in order, by depth and index.
fn expect_asked(state: &RangeState, nodes: &[(u8, u16)]) -> Result<(), Fail> {
    let record = state.records().last().ok_or("no session")?;
    let asked = record.session().asked();
    expect(asked.len() == nodes.len(), "as many nodes are asked for")?;
    for (one, &(depth, index)) in asked.iter().zip(nodes) {
        expect(
            one.depth == depth && one.index == index,
            "the expected node is asked for",
        )?;
    }
    Ok(())
}

/// Expects the versions of `a`.
fn expect_held(alloc: Global, state: &RangeState, held: &str) -> Result<(), Fail> {
    let versions = members(alloc, &state.get(alloc, b"a")?)?;
    expect(versions.as_str() == held, "the expected versions are held")
}
