//! Offers of a node's snapshots.
ghost use Rattle.std.specs.Prelude.{◌≡◌, ◌⊎◌, ◌==◌, IfOk, IfErr, MatchOption, find};
ghost use Rattle.std.specs.Option.{option_copied};
ghost use Rattle.std.specs.Arc.{arc_value};
ghost use Rattle.vclock.specs.Answer.{Answers};
ghost use Rattle.vclock.specs.Format.{format_number};
ghost use Rattle.vclock.specs.Outcome.{Does};
ghost use Rattle.snapshot.specs.RowMaps.{root_of};
ghost use Rattle.ring_node.specs.Moments.{FoundAtSomeMoment, ChangedAtSomeMoment};
ghost use Rattle.ring_node.specs.Offers.{Offered, AreOffers, unpublished, publish, latest, kept_under, serve_fault, IsAnswerIn, IsPatchIn, counts_of};

use snapshot::Snapshot;
use std::alloc::Global;
use std::marker::Model;
use std::sync::{Arc, Mutex, Wait};
use text_patch::{Marks, patch};
use tree_nodes::{Text, tree_depth};
use vclock::Refusal;
use vclock::limits::OFFERS_MAX;
use walk_messages::{Answer, Ask, Offer};

/// The counts of a node's offers at one moment.
#[derive(Clone, Copy, Debug, PartialEq, Eq)]
pub struct OfferCounts {
    /// The number of offers kept, at most 16.
    pub kept: u32,
    /// The number of the newest offer, 0 before the first.
    pub newest: u32,
}

/// A snapshot with the number of its offer.
#[derive(Drop)]
struct KeptOffer {
    number: u32,
    snapshot: Arc<Snapshot, Global>,
}

impl Model for KeptOffer {
    ghost use Rattle.std.specs.Arc.{arc_value};
    ghost use Rattle.ring_node.specs.Offers.{Offered};

    ghost Value = { Offered };

    ghost view = { λ p. record { number = p.number; rows = arc_value p.snapshot } };
}

/// The last snapshots that were published, the oldest first, and the number of the newest offer: 0 before the first.
#[derive(Drop)]
struct Offers {
    last: u32,
    kept: Vec<KeptOffer>,
}

impl Model for Offers {
    ghost use Rattle.ring_node.specs.Offers.{Offers, AreOffers};

    ghost Value = { Offers };

    ghost view = { λ o. record { last = o.last; kept = o.kept.items } };

    ghost invariant = { λ o. AreOffers (record { last = o.last; kept = o.kept.items }) };
}

impl Offers {
    /// Makes an empty list of offers. Doesn't allocate.
    fn new(alloc: Global) -> Offers
        ensures { result ≡ unpublished }
    {
        Offers {
            last: 0,
            kept: Vec::new(alloc),
        }
    }

    /// Keeps a snapshot, and returns its offer. If 16 are kept already, the oldest is moved to `oldest`.
    ///
    /// Refused, in order: SessionsFull, NoMemory. On error the snapshot isn't kept.
    fn publish(
        &mut self,
        snapshot: Arc<Snapshot, Global>,
        oldest: &mut Option<KeptOffer>,
    ) -> Result<Offer, Refusal>
        ensures { Does result self.old self.new (publish self.old (arc_value snapshot)) }
    {
        if self.last == u32::MAX {
            return Err(Refusal::SessionsFull);
        }
        if self.kept.len() < OFFERS_MAX {
            self.kept.reserve(1)?;
        } else {
            *oldest = Some(self.kept.remove(0));
        }
        let number = self.last + 1;
        let offer = snapshot.offer(number);
        self.kept.push_reserved(KeptOffer { number, snapshot });
        self.last = number;
        Ok(offer)
    }

    /// The newest offer, if any.
    fn latest(&self) -> Option<Offer>
        ensures newest { result ≡ latest self.now }
        ensures valid { AreOffers self.now }
    {
        let published = self.kept.last()?;
        Some(published.snapshot.offer(published.number))
    }

    /// Returns the number of offers kept, and the newest offer's number.
    fn counts(&self) -> OfferCounts
        ensures { result ≡ counts_of self.now }
    {
        OfferCounts {
            kept: self.kept.len() as u32,
            newest: self.last,
        }
    }

    /// Finds the snapshot that has the text of an ask, and shares it once more. Refused, in order: Gone, BadMessage,
    /// NoMemory.
    fn find(&self, ask: Ask) -> Result<Arc<Snapshot, Global>, Refusal>
        ensures { Answers result (serve_fault self.now ask)
            (λ snapshot. MatchOption (kept_under self.now ask.offer) ⊥ (λ p. p.rows ≡ arc_value snapshot)) }
    {
        let snapshot = &published_as(&self.kept, ask.offer)
            .ok_or(Refusal::Gone)?
            .snapshot;
        let node = ask.node;
        if node.depth > tree_depth(snapshot.format()) {
            return Err(Refusal::BadMessage);
        }
        Ok(Arc::try_clone(snapshot)?)
    }
}

/// Returns the snapshot under a number, if it is kept.
fn published_as(kept: &[KeptOffer], number: u32) -> Option<&KeptOffer>
    ensures { option_copied result ≡ find (λ (p : Offered). p.number == number) kept.now }
{
    for published in kept {
        if published.number == number {
            return Some(published);
        }
    }
    None
}

/// The offers that a node makes of its snapshots, which threads share (the Dynamo paper, section 4.7). Offers are
/// numbered from 1. The last 16 are kept, with their snapshots.
///
/// ```
/// rehash(rt, alloc, slots, &self.range, 0)?;
/// let snapshot = self.range.snapshot(rt, alloc)?;
/// self.offers.publish(rt, snapshot)
/// ```
#[derive(Drop)]
pub struct OfferPool {
    offers: Mutex<Offers>,
}

impl OfferPool {
    /// Makes a pool without offers. Doesn't allocate.
    pub fn new(alloc: Global) -> OfferPool {
        OfferPool {
            offers: Mutex::new(Offers::new(alloc)),
        }
    }

    /// Publishes a snapshot, and returns its offer. From the 17th on, the oldest offer is dropped.
    ///
    /// Refused, in order: SessionsFull (the last number, 2^32 - 1, was used), NoMemory. On error the snapshot isn't
    /// published.
    pub fn publish<R: Wait>(
        &self,
        rt: &R,
        snapshot: Arc<Snapshot, Global>,
    ) -> Result<Offer, Refusal>
        ensures format { IfOk result (λ offer. offer.format ≡ format_number (arc_value snapshot).format) }
        ensures range { IfOk result (λ offer. offer.range ≡ (arc_value snapshot).range) }
        ensures root { IfOk result (λ offer. offer.root ≡ root_of (arc_value snapshot)) }
        ensures refusal { IfErr result (λ e. (e ≡ Refusal.SessionsFull) ⊎ (e ≡ Refusal.NoMemory)) }
        ensures moment { ChangedAtSomeMoment AreOffers
            (λ before after. Does result before after (publish before (arc_value snapshot))) }
    {
        // Outlives the lock, since dropping a snapshot walks its leaves.
        let mut oldest = None;
        let mut offers = self.offers.lock(rt);
        // Called only for its clause `valid`: the offers' invariants hold.
        let _valid = offers.latest();
        offers.publish(snapshot, &mut oldest)
    }

    /// The newest offer, if any. Doesn't allocate.
    pub fn latest<R: Wait>(&self, rt: &R) -> Option<Offer>
        ensures { FoundAtSomeMoment AreOffers (λ offers. result ≡ latest offers) }
    {
        self.offers.lock(rt).latest()
    }

    /// Returns the number of offers kept, and the newest offer's number, at one moment. Doesn't allocate.
    pub fn counts<R: Wait>(&self, rt: &R) -> OfferCounts
        ensures { FoundAtSomeMoment AreOffers (λ offers. result ≡ counts_of offers) }
    {
        let offers = self.offers.lock(rt);
        // Called only for its clause `valid`: the offers' invariants hold.
        let _valid = offers.latest();
        offers.counts()
    }

    /// Returns the answer to an ask: the text of its node in the tree that was offered.
    ///
    /// Refused, in order: Gone (the offer isn't kept), BadMessage (its tree has no such node), NoMemory.
    pub fn serve<R: Wait>(&self, rt: &R, alloc: Global, ask: Ask) -> Result<Answer, Refusal>
        ensures asked { IfOk result (λ answer. (answer.offer ≡ ask.offer) × (answer.node ≡ ask.node)) }
        ensures refusal { IfErr result
            (λ e. (e ≡ Refusal.Gone) ⊎ (e ≡ Refusal.BadMessage) ⊎ (e ≡ Refusal.NoMemory)) }
        ensures moment { FoundAtSomeMoment AreOffers
            (λ offers. Answers result (serve_fault offers ask) (IsAnswerIn offers ask)) }
    {
        let Ask { offer, node } = ask;
        let snapshot = self.find(rt, Ask { offer, node })?;
        let text = snapshot.answer(alloc, Ask { offer, node })?;
        Ok(Answer {
            offer,
            node,
            text: Text::from(text),
        })
    }

    /// Returns the answer to an outline, which has an ask and an asker's marks: the bytes of the patch that makes the
    /// text of the node in the tree that was offered.
    ///
    /// Refused, in order: Gone (the offer isn't kept), BadMessage (its tree has no such node), NoMemory.
    pub fn patch<R: Wait>(
        &self,
        rt: &R,
        alloc: Global,
        ask: Ask,
        marks: &Marks<'_>,
    ) -> Result<Text, Refusal>
        ensures refusal { IfErr result
            (λ e. (e ≡ Refusal.Gone) ⊎ (e ≡ Refusal.BadMessage) ⊎ (e ≡ Refusal.NoMemory)) }
        ensures moment { FoundAtSomeMoment AreOffers
            (λ offers. Answers result (serve_fault offers ask) (IsPatchIn offers ask marks.now)) }
    {
        let snapshot = self.find(rt, ask)?;
        Ok(Text::from(patch(alloc, &snapshot, ask, marks)?))
    }

    /// Finds the snapshot that has the text of an ask, and shares it once more. Refused, in order: Gone, BadMessage,
    /// NoMemory.
    fn find<R: Wait>(&self, rt: &R, ask: Ask) -> Result<Arc<Snapshot, Global>, Refusal>
        ensures { FoundAtSomeMoment AreOffers (λ offers. Answers result (serve_fault offers ask)
            (λ snapshot. MatchOption (kept_under offers ask.offer) ⊥ (λ p. p.rows ≡ arc_value snapshot))) }
    {
        let offers = self.offers.lock(rt);
        // Called only for its clause `valid`: the offers' invariants hold.
        let _valid = offers.latest();
        offers.find(ask)
    }
}
