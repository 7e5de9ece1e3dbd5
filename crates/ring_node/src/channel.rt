//! Links over channels, and the servers at their other ends.
ghost use Rattle.std.specs.Prelude.{◌≡◌, IfOk, IfErr};
ghost use Rattle.ring_node.specs.Links.{CountsLosses};

use crate::link::{Link, Reached, lose};
use crate::offers::OfferPool;
use crate::server::ServerReply;
use crossbeam_channel::{Receiver, Sender, bounded};
use std::alloc::Global;
use std::sync::Wait;
use vclock::Refusal;

/// The capacity of a channel, in messages.
const CAPACITY: usize = 16;

/// A request of a link to its server.
#[derive(Drop)]
enum Request {
    /// A request for the newest offer.
    Offer,
    /// A request for the answer to the ask with these bytes.
    Ask(Vec<u8>),
    /// The end of the requests.
    Stop,
}

/// A link over channels, in any thread. It fails if its server fails or has ended.
///
/// ```
/// let (mut link, server) = channel_link(alloc)?;
/// let (offers, node) = (&partner.offers, partner.range.node());
/// thread::scope(thread::scope_env(), rt, |scope| {
///     let _served = scope.spawn(move || server.run(rt, offers));
///     let report = replica.sync(rt, alloc, slots, &mut link, node);
///     link.stop(rt);
///     report
/// })
/// ```
#[derive(Drop)]
pub struct ChannelLink {
    alloc: Global,
    requests: Sender<Request>,
    replies: Receiver<ServerReply>,
    failures: u64,
}

/// A server that replies to the asks of a link over channels, in another thread.
#[derive(Drop)]
pub struct ChannelServer {
    alloc: Global,
    requests: Receiver<Request>,
    replies: Sender<ServerReply>,
}

/// Makes a link that hasn't failed, and its server. Refused: NoMemory.
pub fn channel_link(alloc: Global) -> Result<(ChannelLink, ChannelServer), Refusal>
    ensures fresh { IfOk result (λ ends. ends.0.failures ≡ 0) }
    ensures refusal { IfErr result (λ e. e ≡ Refusal.NoMemory) }
{
    let (to_server, requests) = bounded(alloc, CAPACITY)?;
    let (to_link, replies) = bounded(alloc, CAPACITY)?;
    let link = ChannelLink {
        alloc,
        requests: to_server,
        replies,
        failures: 0,
    };
    let server = ChannelServer {
        alloc,
        requests,
        replies: to_link,
    };
    Ok((link, server))
}

impl ChannelLink {
    /// Stops the server.
    pub fn stop<R: Wait>(self, rt: &R) {
        // A server that has ended already needs no request.
        let _ = self.requests.send(rt, Request::Stop);
    }

    /// Sends a request to the server, and returns its reply.
    fn call<R: Wait>(&mut self, rt: &R, request: Request) -> Reached
        ensures { CountsLosses self.old.failures self.new.failures result }
    {
        if self.requests.send(rt, request).is_err() {
            return lose(&mut self.failures);
        }
        match self.replies.recv(rt) {
            Ok(reply) => reply.over(&mut self.failures),
            Err(_) => lose(&mut self.failures),
        }
    }
}

impl Link for ChannelLink {
    ghost failed = { λ l. l.failures };

    fn failures(&self) -> u64 {
        self.failures
    }

    fn offer<R: Wait>(&mut self, rt: &R) -> Reached {
        self.call(rt, Request::Offer)
    }

    fn ask<R: Wait>(&mut self, rt: &R, message: &[u8]) -> Reached {
        match Vec::from_slice(self.alloc, message) {
            Ok(bytes) => self.call(rt, Request::Ask(bytes)),
            Err(_) => lose(&mut self.failures),
        }
    }
}

impl ChannelServer {
    /// Replies from a pool of offers until the link stops the server, or is dropped.
    pub fn run<R: Wait>(&self, rt: &R, pool: &OfferPool) {
        for _ in rt.forever() {
            let reply = match self.requests.recv(rt) {
                Ok(Request::Offer) => pool.reply_with_offer(rt, self.alloc),
                Ok(Request::Ask(message)) => pool.reply_to(rt, self.alloc, &message),
                Ok(Request::Stop) | Err(_) => return,
            };
            if self.replies.send(rt, reply).is_err() {
                return;
            }
        }
    }
}
