//! Answers of partners, true and forged.
ghost use Rattle.std.specs.Prelude.{◌≡◌};

use crate::locked::Locked;
use crate::partners::{Row, snapshot_of};
use snapshot::Snapshot;
use std::alloc::Global;
use std::marker::Brand;
use std::process::Abort;
use std::sync::ledger::{Blank, Ledger};
use std::test::Fail;
use sync_session::SessionState;
use test_values::checks::expect;
use test_values::refusals::is_refused;
use tree_nodes::{Digest, Hashed, NodeAt, Text, hash};
use vclock::Refusal;
use walk_messages::{Ask, Offer};

/// Returns the text `abc`, which no node can have.
fn abc(alloc: Global) -> Result<Hashed, Refusal> {
    Ok(hash(Text::copy_of(alloc, b"abc")?))
}

/// Returns the partner's text of a node with its last byte changed.
fn forged_text(alloc: Global, partner: &Snapshot, node: NodeAt) -> Result<Hashed, Fail> {
    let mut text = partner.answer(alloc, Ask { offer: 1, node })?;
    let last = text.pop().ok_or("no last byte")?;
    text.push(last ^ 1)?;
    Ok(hash(Text::from(text)))
}

/// Opens a session with a partner of format 1 and range 0, and returns its number.
fn open_session<L: Ledger>(
    alloc: Global,
    locked: &mut Locked<L>,
    root: Digest,
) -> Result<u64, Refusal> {
    let offer = Offer {
        offer: 1,
        format: 1,
        range: 0,
        root,
    };
    locked.range.open_session(alloc, 7, offer)
}

/// Takes the text of a node at seat 1, and returns the number of accepted versions and the session's state.
fn take<L: Ledger>(
    alloc: Global,
    locked: &mut Locked<L>,
    id: u64,
    node: NodeAt,
    text: Hashed,
) -> Result<(u64, SessionState), Refusal> {
    let Locked { range, one, .. } = locked;
    let taken = range.take_answer(alloc, one, id, node, text)?;
    Ok((taken.receipts, taken.state))
}

/// Takes the true text of a node for session 1, with the results of `take`.
fn take_true<L: Ledger>(
    alloc: Global,
    locked: &mut Locked<L>,
    partner: &Snapshot,
    node: NodeAt,
) -> Result<(u64, SessionState), Refusal> {
    let text = partner.answer(alloc, Ask { offer: 1, node })?;
    take(alloc, locked, 1, node, hash(Text::from(text)))
}

/// Returns the node that a session awaits first.
fn first<L: Ledger>(locked: &Locked<L>, id: u64) -> Result<NodeAt, Fail> {
    Ok(
        locked
            .range
            .outstanding(id)?
            .ok_or("nothing is outstanding")?,
    )
}

/// Expects that a session fails if its partner offers the digest of a text that no node can have.
fn expect_failure<L: Ledger>(alloc: Global, locked: &mut Locked<L>) -> Result<(), Fail> {
    let text = abc(alloc)?;
    let id = open_session(alloc, locked, text.digest())?;
    expect(id == 0, "the first session is number 0")?;
    let root = first(locked, 0)?;
    let failed = take(alloc, locked, 0, root, text);
    expect(
        is_refused(failed, Refusal::NotCanonical),
        "no node has the text",
    )?;
    let outstanding = locked.range.outstanding(0)?;
    expect(
        outstanding.is_none() && locked.one.receipts().is_empty(),
        "the session has failed, and accepted nothing",
    )
}

/// Expects that a session takes each true text once, and no forged one.
fn expect_true_texts<L: Ledger>(
    alloc: Global,
    locked: &mut Locked<L>,
    partner: &Snapshot,
) -> Result<(), Fail> {
    let id = open_session(alloc, locked, partner.root())?;
    expect(id == 1, "the second session is number 1")?;
    let root = first(locked, 1)?;
    let forged = forged_text(alloc, partner, root)?;
    let refused = take(alloc, locked, 1, root, forged);
    expect(
        is_refused(refused, Refusal::WrongDigest) && first(locked, 1)? == root,
        "a forged text is refused, and the root is still outstanding",
    )?;
    let (receipts, state) = take_true(alloc, locked, partner, root)?;
    expect(
        receipts == 0 && state == SessionState::Open,
        "the root has no versions",
    )?;
    let again = take_true(alloc, locked, partner, root);
    expect(
        is_refused(again, Refusal::NotAsked),
        "the root isn't taken twice",
    )?;
    let child = first(locked, 1)?;
    take_true(alloc, locked, partner, child)?;
    let leaf = first(locked, 1)?;
    let (receipts, state) = take_true(alloc, locked, partner, leaf)?;
    expect(
        receipts == 1 && state == SessionState::Finished,
        "the leaf has one version",
    )?;
    expect(
        locked.one.seen() == 1 && locked.one.receipts().len() == 1,
        "the pass has its receipt",
    )
}

/// Answers two sessions of a range, and cancels one that doesn't exist.
fn answer<L: Ledger>(
    alloc: Global,
    locked: &mut Locked<L>,
    partner: &Snapshot,
) -> Result<(), Fail> {
    expect_failure(alloc, locked)?;
    expect_true_texts(alloc, locked, partner)?;
    let refused = locked.range.cancel_session(2);
    expect(
        is_refused(refused, Refusal::UnknownSession),
        "there is no third session",
    )
}

/// Answers the sessions of a new range, with a partner that has `a`.
fn answer_all<L: Ledger>(_rt: &impl Abort, alloc: Global, blank: Blank) -> Result<(), Fail>
    requires name { blank.name ≡ L.name }
    requires parts { (blank.parts ≡ L.parts) × (L.parts ≡ 2) }
{
    let partner = snapshot_of(alloc, &[Row::new(b"a", 1)])?;
    let mut locked = Locked::<L>::open(alloc, blank)?;
    answer(alloc, &mut locked, &partner)
}

#[test]
fn a_pass_has_receipts_of_true_texts_alone(rt: HostRuntime) -> Result<(), Fail> {
    answer_all::<Brand>(&rt, rt.alloc(), Blank::new(2))
}
