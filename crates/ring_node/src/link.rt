//! Links, over which a node reaches a partner.
ghost use Rattle.std.specs.Prelude.{◌≡◌, ℕ};
ghost use Rattle.ring_node.specs.Links.{CountsLosses};

use std::sync::Wait;

/// The outcome of a call over a link.
#[derive(Debug, Drop)]
pub enum Reached {
    /// The bytes of a message, or other bytes that the link made of them.
    Bytes(Vec<u8>),
    /// Nothing: the link failed.
    Lost,
    /// Nothing: the partner doesn't have the offer.
    Gone,
}

/// A way to a partner. It isn't trusted: it may fail, and its bytes may be anything. A store implements it over its
/// network.
///
/// It counts its failures. A call is Lost if and only if that count rises. At 2^64 - 1 a link returns Gone in place of
/// Lost.
///
/// ```
/// fn ask<R: Wait>(&mut self, rt: &R, message: &[u8]) -> Reached {
///     self.asks = self.asks.saturating_add(1);
/// ```
pub trait Link {
    ghost failed: { Self → ℕ };

    /// The number of failures of the link.
    fn failures(&self) -> u64
        ensures { result ≡ failed self.now };

    /// Fetches the message of the partner's newest offer.
    fn offer<R: Wait>(&mut self, rt: &R) -> Reached
        ensures { CountsLosses (failed self.old) (failed self.new) result };

    /// Fetches the answer to an ask. The ask is sent as the bytes of its message.
    fn ask<R: Wait>(&mut self, rt: &R, message: &[u8]) -> Reached
        ensures { CountsLosses (failed self.old) (failed self.new) result };
}

/// Counts a failure of a link, unless the count is at its last value.
pub(crate) fn lose(failures: &mut u64) -> Reached
    ensures { CountsLosses failures.old failures.new result }
{
    match failures.checked_add(1) {
        Some(count) => {
            *failures = count;
            Reached::Lost
        }
        None => Reached::Gone,
    }
}
