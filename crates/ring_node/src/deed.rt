//! The deeds of a scripted link.
ghost use Rattle.std.specs.Prelude.{◌≡◌};
ghost use Rattle.ring_node.specs.Deeds.{done_to, renumbered};

use tree_nodes::NodeAt;

/// The deed of a scripted link in one call.
///
/// ```
/// let deeds = [Deed::Pass, Deed::Change(BYTE_OF_THE_TEXT)];
/// let report = sync_over_deeds(rt, alloc, slots, first, second, &deeds)?;
/// ```
#[derive(Clone, Copy, Debug)]
pub enum Deed {
    /// Passes the message on.
    Pass,
    /// Raises the byte at that place by one, 255 to 0.
    Change(usize),
    /// Keeps this number of bytes, from the front.
    Cut(usize),
    /// Puts this number in the message's place for the number of an offer, which is the same in all messages.
    Renumber(u32),
    /// Passes the last message on again: Lost if no message was passed on before.
    Repeat,
    /// Asks for this node in place of the requested one.
    Node(NodeAt),
    /// Loses the call: the partner isn't reached.
    Lost,
    /// Returns Gone, as if the partner had no such offer: the partner isn't reached.
    Gone,
}

impl Deed {
    /// Applies the deed to the bytes of a message. Doesn't allocate.
    pub(crate) fn work(self, bytes: &mut Vec<u8>)
        ensures { bytes.new.items ≡ done_to self bytes.old.items }
    {
        match self {
            Deed::Change(at) => {
                if let Some(byte) = bytes.get_mut(at) {
                    *byte = byte.wrapping_add(1);
                }
            }
            Deed::Cut(len) => bytes.truncate(len),
            Deed::Renumber(number) => renumber(bytes, number),
            Deed::Pass | Deed::Repeat | Deed::Node(_) | Deed::Lost | Deed::Gone => {}
        }
    }
}

/// Puts another number in the place of a message's offer, if the message is long enough.
fn renumber(bytes: &mut [u8], number: u32)
    ensures { bytes.new ≡ renumbered bytes.old number }
{
    if bytes.len() >= 5 {
        bytes[1..5].copy_from_slice(&number.to_be_bytes());
    }
}
