//! The replies of a pool of offers to messages.
ghost use Rattle.std.specs.Prelude.{◌≡◌, IfOk};
ghost use Rattle.walk_messages.specs.Messages.{message_text};
ghost use Rattle.ring_node.specs.Links.{CountsLosses};
ghost use Rattle.ring_node.specs.Replies.{RepliesOffer, RepliesAsk, IsEncoded};

use crate::link::{Reached, lose};
use crate::offers::OfferPool;
use std::alloc::Global;
use std::sync::Wait;
use vclock::Refusal;
use walk_messages::{Ask, Message, decode, encode};

/// The reply of a pool.
#[derive(Debug, Drop)]
pub(crate) enum ServerReply {
    /// The bytes of a message.
    Bytes(Vec<u8>),
    /// The pool doesn't have the offer.
    Gone,
    /// The bytes aren't an ask, or the tree doesn't have the node, or memory ran out.
    Refused,
}

impl ServerReply {
    /// Returns the reply as a link passes it on: a refused reply is a failure of the link.
    pub(crate) fn over(self, failures: &mut u64) -> Reached
        ensures { CountsLosses failures.old failures.new result }
    {
        match self {
            ServerReply::Bytes(bytes) => Reached::Bytes(bytes),
            ServerReply::Gone => Reached::Gone,
            ServerReply::Refused => lose(failures),
        }
    }
}

impl OfferPool {
    /// Replies with the message of the newest offer.
    pub(crate) fn reply_with_offer<R: Wait>(&self, rt: &R, alloc: Global) -> ServerReply
        ensures { RepliesOffer result }
    {
        match self.latest(rt) {
            Some(offer) => encoded(alloc, Message::Offer(offer)),
            None => ServerReply::Gone,
        }
    }

    /// Replies with the message of the answer to an ask.
    pub(crate) fn reply_to<R: Wait>(&self, rt: &R, alloc: Global, message: &[u8]) -> ServerReply
        ensures { RepliesAsk message.now result }
    {
        let Ok(ask) = ask_in(alloc, message) else {
            return ServerReply::Refused;
        };
        match self.serve(rt, alloc, ask) {
            Ok(answer) => encoded(alloc, Message::Answer(answer)),
            Err(Refusal::Gone) => ServerReply::Gone,
            Err(_) => ServerReply::Refused,
        }
    }
}

/// Reads the ask whose message has these bytes. Refused, in order: BadMessage (the bytes aren't the message of an ask),
/// NoMemory.
pub(crate) fn ask_in(alloc: Global, bytes: &[u8]) -> Result<Ask, Refusal>
    ensures { IfOk result (λ ask. message_text (Message.Ask ask) ≡ bytes.now) }
{
    let Message::Ask(ask) = decode(alloc, bytes)? else {
        return Err(Refusal::BadMessage);
    };
    Ok(ask)
}

/// Encodes a message.
fn encoded(alloc: Global, message: Message) -> ServerReply
    ensures { IsEncoded message result }
{
    match encode(alloc, &message) {
        Ok(bytes) => ServerReply::Bytes(bytes),
        Err(_) => ServerReply::Refused,
    }
}
