//! Moments of a range.
use range_tree::Tree;

/// The rows that a range had at a moment, and the digests of their tree. They are unchanged while the range changes, so
/// their nodes can be hashed in parallel with it.
pub struct Moment {
    /// The rows, and the digests of the clean nodes of their tree.
    pub(crate) tree: Tree,
    /// The number of entries that the journal had.
    pub(crate) front: u64,
}

impl Drop for Moment {
    /// Keeps the fields out of the proofs of callers that drop a moment.
    fn drop(self) {
        let Moment {
            tree: _tree,
            front: _front,
        } = self;
    }
}
