//! The place of a replica.

/// The place of a node's replica of a range in the cluster.
#[derive(Clone, Copy)]
pub(crate) struct Home {
    /// The node.
    pub(crate) node: u16,
    /// The number of the range.
    pub(crate) range: usize,
    /// The index among the replicas of the range.
    pub(crate) place: usize,
}
