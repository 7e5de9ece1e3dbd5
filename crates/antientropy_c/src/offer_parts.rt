//! The parts of an offer.
ghost use Rattle.std.specs.Prelude.{Result};
ghost use Rattle.vclock.specs.declared.refusal.Refusal.{Refusal};
ghost use Rattle.walk_messages.specs.declared.message.Offer.{Offer};
ghost use Rattle.c_calls.specs.Reads.{Reads};
ghost use Rattle.c_calls.specs.Numbers.{Returns};
ghost use Rattle.c_calls.specs.OfferParts.{IsOffer, TellsParts};

use c_calls::numbers::code;
use c_calls::offer_parts::{OfferParts, read_offer, tell_parts};
use std::alloc::Global;

/// Reads the bytes of an offer, and stores its parts. Refused, in order: BadMessage (the bytes aren't an offer),
/// NoMemory, which may replace BadMessage if the bytes are an answer. On error the parts are unchanged.
#[unsafe(no_mangle)]
#[tactic(auto, using(crate::proofs::CallLaws::returns))]
pub extern "C" fn antientropy_read_offer(alloc: Global, offer: &[u8], parts: &mut OfferParts) -> u32
    ensures { Returns result (λ (r : Result Offer Refusal). Reads offer.now (IsOffer r) × TellsParts r parts.old parts.new) }
{
    let outcome = read_offer(alloc, offer);
    tell_parts(&outcome, parts);
    code(&outcome)
}
