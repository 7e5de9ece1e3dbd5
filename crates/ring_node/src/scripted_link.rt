//! Links that follow a script, for tests of faulty links.
ghost use Rattle.std.specs.Prelude.{◌≡◌};
ghost use Rattle.ring_node.specs.Links.{CountsLosses};

use crate::deed::Deed;
use crate::link::{Link, Reached, lose};
use crate::server::ask_in;
use std::alloc::Global;
use std::sync::Wait;
use tree_nodes::NodeAt;
use vclock::Refusal;
use walk_messages::{Ask, Message, encode};

/// A link around another one. In each call it does one deed of a list. After the list it passes each message on.
///
/// It fails if a deed or the other link fails, or if memory runs out. It counts its failures itself.
///
/// ```
/// let deeds = Vec::from_slice(alloc, deeds)?;
/// let link = MemoryLink::new(alloc, &partner.offers);
/// let mut link = ScriptedLink::new(alloc, link, deeds);
/// ```
#[derive(Drop)]
pub struct ScriptedLink<K: Link> {
    alloc: Global,
    link: K,
    deeds: Vec<Deed>,
    next: usize,
    last: Option<Vec<u8>>,
    failures: u64,
}

impl<K: Link> ScriptedLink<K> {
    /// Makes a link that follows the deeds, and hasn't failed. Doesn't allocate.
    pub fn new(alloc: Global, link: K, deeds: Vec<Deed>) -> ScriptedLink<K>
        ensures fresh { (result.next ≡ 0) × (result.failures ≡ 0) }
        ensures given { (result.link ≡ link) × (result.deeds ≡ deeds) }
    {
        ScriptedLink {
            alloc,
            link,
            deeds,
            next: 0,
            last: None,
            failures: 0,
        }
    }

    /// Returns the deed of this call.
    fn deed(&mut self) -> Deed
        ensures { self.new.failures ≡ self.old.failures }
    {
        match self.deeds.get(self.next) {
            Some(deed) => {
                self.next += 1;
                *deed
            }
            None => Deed::Pass,
        }
    }

    /// Applies a deed to the outcome of the other link, and passes it on.
    fn hand_on(&mut self, deed: Deed, reached: Reached) -> Reached
        ensures { CountsLosses self.old.failures self.new.failures result }
    {
        let mut bytes = match reached {
            Reached::Bytes(bytes) => bytes,
            Reached::Gone => return Reached::Gone,
            Reached::Lost => return lose(&mut self.failures),
        };
        deed.work(&mut bytes);
        match bytes.clone() {
            Ok(copy) => {
                self.last = Some(copy);
                Reached::Bytes(bytes)
            }
            Err(_) => lose(&mut self.failures),
        }
    }

    /// Passes the last message on again.
    fn repeat(&mut self) -> Reached
        ensures { CountsLosses self.old.failures self.new.failures result }
    {
        match &self.last {
            Some(bytes) => match bytes.clone() {
                Ok(copy) => Reached::Bytes(copy),
                Err(_) => lose(&mut self.failures),
            },
            None => lose(&mut self.failures),
        }
    }
}

impl<K: Link> Link for ScriptedLink<K> {
    ghost failed = { λ l. l.failures };

    fn failures(&self) -> u64 {
        self.failures
    }

    fn offer<R: Wait>(&mut self, rt: &R) -> Reached {
        match self.deed() {
            Deed::Lost => lose(&mut self.failures),
            Deed::Gone => Reached::Gone,
            Deed::Repeat => self.repeat(),
            deed => {
                let reached = self.link.offer(rt);
                self.hand_on(deed, reached)
            }
        }
    }

    fn ask<R: Wait>(&mut self, rt: &R, message: &[u8]) -> Reached {
        match self.deed() {
            Deed::Lost => lose(&mut self.failures),
            Deed::Gone => Reached::Gone,
            Deed::Repeat => self.repeat(),
            Deed::Node(node) => match ask_for(self.alloc, message, node) {
                Ok(other) => {
                    let reached = self.link.ask(rt, &other);
                    self.hand_on(Deed::Pass, reached)
                }
                Err(_) => lose(&mut self.failures),
            },
            deed => {
                let reached = self.link.ask(rt, message);
                self.hand_on(deed, reached)
            }
        }
    }
}

/// Makes the message of an ask for another node. Refused, in order: BadMessage (the bytes aren't the message of an
/// ask), NoMemory.
fn ask_for(alloc: Global, message: &[u8], node: NodeAt) -> Result<Vec<u8>, Refusal> {
    let Ask { offer, node: _ } = ask_in(alloc, message)?;
    encode(alloc, &Message::Ask(Ask { offer, node }))
}
