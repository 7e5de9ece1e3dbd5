//! The tests of a put's context.

/// The test of a put's context against the held versions of its key.
#[derive(Clone, Copy, Debug, PartialEq, Eq)]
pub enum ContextTest {
    /// No held version has seen everything that the raised clock has.
    Fresh,
    /// No held version has a greater counter of the node than the context: the client has read all that the node put.
    Read,
}
