//! What a frame notes about a read.

/// What a frame notes about a read.
#[derive(Clone, Copy)]
pub enum FrameKind {
    /// A read comes next.
    Asks,
    /// A read has just failed.
    Failed,
    /// A read has just given no byte, which counts as the end of the input.
    Ended,
    /// Anything else, for example that a read has just given bytes.
    Between,
}
