//! Outlines and patches of a session: a partner then sends only the parts that are missing from the local snapshot.
ghost use Rattle.std.specs.Prelude.{◌≡◌, MatchOption};
ghost use Rattle.vclock.specs.Answer.{Answers, AnswersAtOnce};
ghost use Rattle.range_state.specs.Records.{record_of};
ghost use Rattle.range_state.specs.State.{IsRight};
ghost use Rattle.range_state.specs.Patches.{asked_fault, outline_fault, IsOutlineFor, Patches};

use crate::state::RangeState;
use std::alloc::Global;
use sync_session::Session;
use text_patch::{check_width, outline, parts_of, rebuild};
use tree_nodes::{NodeAt, Text};
use vclock::Refusal;
use walk_messages::Ask;

impl RangeState {
    /// Returns the bytes of an outline of a session's outstanding node: the ask for it, with the number of the
    /// partner's offer, and a mark of `width` bytes for each part of the node's text in the session's snapshot. Send it
    /// in place of the ask: the partner's patch has only the bytes that aren't in these parts.
    ///
    /// Refused, in order: BadMessage (the width isn't 1 to 8), UnknownSession (no record has that number), NotAsked
    /// (the node isn't outstanding), NoMemory.
    pub fn outline(
        &self,
        alloc: Global,
        session: u64,
        node: NodeAt,
        offer: u32,
        width: u8,
    ) -> Result<Text, Refusal>
        ensures { Answers result (outline_fault self.now session node width)
            (IsOutlineFor self.now session (record { offer = offer; node = node }) width) }
    {
        check_width(width)?;
        let session = self.asking(session, node)?;
        let Some(salt) = session.expected(node) else {
            return Err(Refusal::NotAsked);
        };
        let parts = parts_of(alloc, session.own(), node)?;
        let ask = Ask { offer, node };
        Ok(Text::from(outline(alloc, ask, &salt, width, &parts)?))
    }

    /// Returns the text that the steps of a patch make from the parts of a session's outstanding node, in the session's
    /// snapshot. It isn't trusted: hash it, and pass it to `take_answer`.
    ///
    /// Refused, in order: UnknownSession (no record has that number), NotAsked (the node isn't outstanding), BadMessage
    /// (the steps aren't well formed, copy a part that doesn't exist, or go back), NoMemory, which may replace
    /// BadMessage.
    pub fn patched(
        &self,
        alloc: Global,
        session: u64,
        node: NodeAt,
        steps: &[u8],
    ) -> Result<Text, Refusal>
        ensures { Patches self.now session node steps.now result }
    {
        rebuild(alloc, self.asking(session, node)?.own(), node, steps)
    }

    /// Returns the session with a number, if a node of it is outstanding. Doesn't allocate.
    ///
    /// Refused, in order: UnknownSession (no record has that number), NotAsked (the node isn't outstanding).
    pub fn asking(&self, id: u64, node: NodeAt) -> Result<&Session, Refusal>
        ensures session { AnswersAtOnce result (asked_fault self.now id node)
            (λ session. MatchOption (record_of id self.now.records) ⊥ (λ r. r.session ≡ session.now)) }
        ensures valid { IsRight self.now }
    {
        let session = self.record(id)?.session();
        if !session.is_outstanding(node) {
            return Err(Refusal::NotAsked);
        }
        Ok(session)
    }
}
