//! Counts of the failures of links.
ghost use Rattle.ring_node.specs.Links.{CountsLosses};

use ring_node::Reached;

/// Counts a call that was lost.
pub(crate) fn counted(failures: &mut u64, reached: Reached) -> Reached
    ensures { CountsLosses failures.old failures.new result }
{
    match reached {
        Reached::Lost => match failures.checked_add(1) {
            Some(count) => {
                *failures = count;
                Reached::Lost
            }
            None => Reached::Gone,
        },
        Reached::Bytes(bytes) => Reached::Bytes(bytes),
        Reached::Gone => Reached::Gone,
    }
}
