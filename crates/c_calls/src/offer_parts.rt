//! The parts of an offer.
ghost use Rattle.c_calls.specs.Reads.{Reads};
ghost use Rattle.c_calls.specs.OfferParts.{IsOffer, TellsParts};

use std::alloc::Global;
use vclock::Refusal;
use walk_messages::{Message, Offer, decode};

/// The parts of an offer.
#[repr(C)]
#[derive(Clone, Copy)]
pub struct OfferParts {
    /// The number of the offer at the replica that made it.
    pub number: u64,
    /// The number of the format as received; it may be unknown.
    pub format: u64,
    /// The number of the range as received; the ring may have no such range.
    pub range: u64,
    /// The digest of the root.
    pub root: [u8; 32],
}

/// Reads the bytes of an offer. Refused, in order: BadMessage (the bytes aren't an offer), NoMemory, which may replace
/// BadMessage if the bytes are an answer.
#[tactic(auto, using(crate::proofs::ReadLaws::reads))]
pub fn read_offer(alloc: Global, bytes: &[u8]) -> Result<Offer, Refusal>
    ensures { Reads bytes.now (IsOffer result) }
{
    let decoded = decode(alloc, bytes);
    offer_in(decoded)
}

/// Returns a decoded message, if it is an offer.
fn offer_in(decoded: Result<Message, Refusal>) -> Result<Offer, Refusal>
    ensures { IsOffer result decoded }
{
    match decoded {
        Ok(Message::Offer(offer)) => Ok(offer),
        Ok(Message::Ask(_) | Message::Answer(_)) => Err(Refusal::BadMessage),
        Err(refusal) => Err(refusal),
    }
}

/// Stores the parts of an offer, if it was not refused.
pub fn tell_parts(outcome: &Result<Offer, Refusal>, parts: &mut OfferParts)
    ensures { TellsParts outcome.now parts.old parts.new }
{
    if let Ok(offer) = outcome {
        *parts = OfferParts {
            number: u64::from(offer.offer),
            format: u64::from(offer.format),
            range: u64::from(offer.range),
            root: offer.root,
        };
    }
}
