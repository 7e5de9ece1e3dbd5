//! The asks and the counts of an exchange, by the definitions.

use exchange::{Bounds, Report, Stop, Tally};
use plain_model::plain::Fault;
use plain_model::trouble::Trouble;
use plain_model::walks::Walk;
use std::alloc::Global;
use sync_session::SessionState;
use tree_nodes::NodeAt;

/// The size in bytes of the text of an inner node: a byte and 16 digests.
const INNER_LEN: u64 = 513;

/// The maximum number of asks in progress with one for a leaf, while no leaf was taken.
const FIRST_LEAVES: u64 = 16;

/// The number of consecutive misses, outlines that led to no text, after which no more outlines are sent.
const MISSES: u64 = 3;

/// The progress of the ask for a node.
#[derive(Clone, Copy, PartialEq, Eq)]
pub(crate) enum Way {
    /// It is in progress. Its answer is expected to have that many bytes.
    Open(u64),
    /// It is in progress as an outline.
    Outlined(u64),
    Lost,
    Left,
    Settled,
}

/// A node that was asked, and the progress of its last ask.
#[derive(Clone, Copy)]
struct Asked {
    node: NodeAt,
    way: Way,
    /// True if an outline of it was sent at any time.
    was_outlined: bool,
}

/// An answer that a session took: the numbers of its new and of its known versions, and the session's state after it.
#[derive(Clone, Copy)]
pub(crate) struct Took {
    pub(crate) accepted: u64,
    pub(crate) known: u64,
    pub(crate) state: SessionState,
}

/// The outcome of an answer.
#[derive(Clone, Copy)]
pub(crate) enum Ruling {
    Taken(Took),
    Left,
    Bad(Fault),
    Late,
    Refused,
    Failed,
}

/// The book of an exchange.
pub(crate) struct Book {
    bounds: Bounds,
    asked: Vec<Asked>,
    /// The number of consecutive outlines that led to no text.
    misses: u64,
    pub(crate) tally: Tally,
    is_stopped: bool,
    end: Option<Report>,
}

impl Book {
    /// Returns the book of an exchange that has asked nothing. `end` is its last report, if it has nothing to ask.
    pub(crate) fn new(alloc: Global, bounds: Bounds, end: Option<Report>) -> Book {
        Book {
            bounds,
            asked: Vec::new(alloc),
            misses: 0,
            tally: Tally {
                asks: 0,
                bad: 0,
                lost: 0,
                refused: 0,
                accepted: 0,
                known: 0,
                leaves: 0,
                leaf_bytes: 0,
            },
            is_stopped: false,
            end,
        }
    }

    /// Returns the progress of the ask for a node, or `None` if it was never asked.
    pub(crate) fn way(&self, node: NodeAt) -> Option<Way> {
        for asked in &self.asked {
            if asked.node == node {
                return Some(asked.way);
            }
        }
        None
    }

    /// Sets the progress of the ask for a node.
    fn set(&mut self, node: NodeAt, way: Way) -> Result<(), Trouble> {
        for place in 0..self.asked.len() {
            if self.asked[place].node == node {
                self.asked[place].way = way;
                return Ok(());
            }
        }
        self.asked.push(Asked {
            node,
            way,
            was_outlined: false,
        })?;
        Ok(())
    }

    /// Returns the number of asks in progress, and the expected size of their answers in bytes.
    pub(crate) fn in_flight(&self) -> (u64, u64) {
        let (mut count, mut bytes) = (0u64, 0u64);
        for asked in &self.asked {
            if let Way::Open(size) | Way::Outlined(size) = asked.way {
                count = count.wrapping_add(1);
                bytes = bytes.wrapping_add(size);
            }
        }
        (count, bytes)
    }

    /// Returns true if the exchange has ended, or too many answers were bad or asks lost.
    pub(crate) fn is_over(&self) -> bool {
        self.end.is_some() || self.has_too_many_bad() || self.has_too_many_lost()
    }

    /// Returns true if the exchange has ended.
    pub(crate) fn has_ended(&self) -> bool {
        self.end.is_some()
    }

    /// Returns true if too many answers were bad.
    fn has_too_many_bad(&self) -> bool {
        self.tally.bad > u64::from(self.bounds.bad)
    }

    /// Returns true if too many asks were lost.
    fn has_too_many_lost(&self) -> bool {
        self.tally.lost > u64::from(self.bounds.lost)
    }

    /// Returns the first of some outstanding nodes that may be asked: its ask isn't in progress, and it wasn't left.
    /// Returns `None` if asks have stopped, or the exchange is over.
    pub(crate) fn askable(&self, outstanding: &[NodeAt]) -> Option<NodeAt> {
        if self.is_stopped || self.is_over() {
            return None;
        }
        for node in outstanding {
            if matches!(self.way(*node), None | Some(Way::Lost)) {
                return Some(*node);
            }
        }
        None
    }

    /// Sends the ask for a node, if it is within the bounds, and returns true if it was sent. `local_leaf` is the
    /// length of a leaf's local text, or `None` for an inner node.
    pub(crate) fn send(&mut self, node: NodeAt, local_leaf: Option<u64>) -> Result<bool, Trouble> {
        let bytes = match local_leaf {
            Some(len) => self.leaf_size(len),
            None => INNER_LEN,
        };
        let has_room = self.has_room(local_leaf.is_some(), bytes);
        if has_room {
            self.set(node, Way::Open(bytes))?;
            self.tally.asks = self.tally.asks.wrapping_add(1);
        }
        Ok(has_room)
    }

    /// Returns the expected size of a leaf's text: the size of the local rows, which is the local text without its
    /// first byte, or the mean size of the taken leaves if that is more.
    fn leaf_size(&self, local_text: u64) -> u64 {
        let mean = self
            .tally
            .leaf_bytes
            .checked_div(self.tally.leaves)
            .unwrap_or(0);
        local_text.saturating_sub(1).max(mean)
    }

    /// Returns true if one more ask may be sent, whose answer has this number of bytes.
    fn has_room(&self, is_leaf: bool, bytes: u64) -> bool {
        let (count, sum) = self.in_flight();
        let mut most = u64::from(self.bounds.asks);
        if is_leaf && self.tally.leaves == 0 {
            most = most.min(FIRST_LEAVES);
        }
        count == 0 || (count < most && sum.saturating_add(bytes) <= self.bounds.bytes)
    }

    /// Marks the ask for a node as lost, if it is in progress. Returns true if it was.
    fn miss(&mut self, node: NodeAt) -> Result<bool, Trouble> {
        let is_open = matches!(self.way(node), Some(Way::Open(_) | Way::Outlined(_)));
        if is_open {
            self.set(node, Way::Lost)?;
        }
        Ok(is_open)
    }

    /// Counts the ask for a node as lost, if it is in progress.
    pub(crate) fn lose(&mut self, node: NodeAt) -> Result<(), Trouble> {
        if !self.is_over() && !self.miss_outline(node)? && self.miss(node)? {
            self.tally.lost = self.tally.lost.wrapping_add(1);
        }
        Ok(())
    }

    /// Returns true if an outline of a node may be sent: its ask is in progress, and no outline of it was ever sent.
    pub(crate) fn may_outline(&self, node: NodeAt) -> bool {
        for asked in &self.asked {
            if asked.node == node {
                let is_plain = matches!(asked.way, Way::Open(_)) && !asked.was_outlined;
                return is_plain && self.misses < MISSES;
            }
        }
        false
    }

    /// Sends an outline in place of an ask in progress.
    pub(crate) fn outline(&mut self, node: NodeAt) {
        for place in 0..self.asked.len() {
            if self.asked[place].node == node
                && let Way::Open(size) = self.asked[place].way
            {
                self.asked[place].way = Way::Outlined(size);
                self.asked[place].was_outlined = true;
            }
        }
    }

    /// Returns true if the ask for a node is in progress as an outline.
    pub(crate) fn awaits_patch(&self, node: NodeAt) -> bool {
        matches!(self.way(node), Some(Way::Outlined(_)))
    }

    /// Takes back the ask for a node, if it is in progress as an outline, which led to no text. Returns true if it was.
    pub(crate) fn miss_outline(&mut self, node: NodeAt) -> Result<bool, Trouble> {
        let is_out = self.awaits_patch(node);
        if is_out {
            self.set(node, Way::Lost)?;
            self.tally.asks = self.tally.asks.wrapping_sub(1);
            self.misses = self.misses.wrapping_add(1);
        }
        Ok(is_out)
    }

    /// Resets the count of misses, if the ask for a node is in progress as an outline, which led to a text. After three
    /// misses the count remains.
    fn end_outline(&mut self, node: NodeAt) {
        if self.awaits_patch(node) && self.misses < MISSES {
            self.misses = 0;
        }
    }

    /// Continues after the range was full. The asks whose answers were refused count as lost.
    pub(crate) fn go_on(&mut self) {
        if !self.is_over() {
            self.tally.lost = self.tally.lost.wrapping_add(self.tally.refused);
            self.tally.refused = 0;
            self.is_stopped = false;
        }
    }

    /// Closes the exchange, unless it has ended.
    pub(crate) fn close(&mut self) {
        self.end = self.end.or(Some(Report::Closed));
    }

    /// Counts a bad answer.
    pub(crate) fn count_bad(&mut self, fault: Fault) -> Ruling {
        self.tally.bad = self.tally.bad.wrapping_add(1);
        Ruling::Bad(fault)
    }

    /// Counts an answer that the session took: the text of a leaf of this length, or of an inner node.
    pub(crate) fn take(
        &mut self,
        node: NodeAt,
        leaf_len: Option<u64>,
        took: Took,
    ) -> Result<Ruling, Trouble> {
        self.end_outline(node);
        self.set(node, Way::Settled)?;
        self.tally.accepted = self.tally.accepted.wrapping_add(took.accepted);
        self.tally.known = self.tally.known.wrapping_add(took.known);
        if let Some(len) = leaf_len {
            self.tally.leaves = self.tally.leaves.wrapping_add(1);
            self.tally.leaf_bytes = self.tally.leaf_bytes.wrapping_add(len);
        }
        if took.state == SessionState::Finished {
            self.end = Some(Report::Finished);
        }
        Ok(Ruling::Taken(took))
    }

    /// Counts an answer that the session didn't take.
    pub(crate) fn refuse(&mut self, node: NodeAt, fault: Fault) -> Result<Ruling, Trouble> {
        if matches!(fault, Fault::WrongDigest) && self.miss_outline(node)? {
            return Ok(Ruling::Late);
        }
        self.end_outline(node);
        match fault {
            Fault::WrongDigest => {
                self.miss(node)?;
                Ok(self.count_bad(fault))
            }
            Fault::NotCanonical => {
                self.end = Some(Report::Failed);
                Ok(Ruling::Failed)
            }
            Fault::Crowded => {
                self.set(node, Way::Left)?;
                Ok(Ruling::Left)
            }
            Fault::JournalFull => {
                if self.miss(node)? {
                    self.tally.refused = self.tally.refused.wrapping_add(1);
                }
                self.is_stopped = true;
                Ok(Ruling::Refused)
            }
            _ => {
                self.set(node, Way::Settled)?;
                Ok(Ruling::Late)
            }
        }
    }

    /// Returns the progress of the exchange.
    pub(crate) fn report(&self, walk: Option<&Walk>) -> Report {
        if let Some(end) = self.end {
            return end;
        }
        match walk {
            Some(walk) if walk.state == SessionState::Open => self.open_report(walk),
            _ => Report::Gone,
        }
    }

    /// Returns the progress of the exchange of an open session.
    fn open_report(&self, walk: &Walk) -> Report {
        if self.has_too_many_bad() {
            return Report::TooManyBad;
        }
        if self.has_too_many_lost() {
            return Report::TooManyLost;
        }
        if self.is_stopped {
            return Report::Stopped(Stop::JournalFull);
        }
        for node in &walk.outstanding {
            if self.way(*node) != Some(Way::Left) {
                return Report::Waiting;
            }
        }
        Report::Left
    }

    /// Returns the outstanding nodes that were left.
    pub(crate) fn left(&self, alloc: Global, walk: Option<&Walk>) -> Result<Vec<NodeAt>, Trouble> {
        let mut left = Vec::new(alloc);
        if let Some(walk) = walk {
            for node in &walk.outstanding {
                if self.way(*node) == Some(Way::Left) {
                    left.push(*node)?;
                }
            }
        }
        Ok(left)
    }
}

impl Drop for Book {
    /// Keeps the fields out of the proofs of callers that drop a book.
    fn drop(self) {
        let Book {
            bounds: _bounds,
            asked: _asked,
            misses: _misses,
            tally: _tally,
            is_stopped: _is_stopped,
            end: _end,
        } = self;
    }
}
