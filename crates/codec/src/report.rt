//! What is told of an accepted frame.
use crate::faults::FrameFault;

/// What a receive tells of an accepted frame.
#[derive(Clone, Copy, PartialEq, Eq, Debug)]
pub struct Report {
    /// The management symbol.
    pub symbol: u16,
    /// How many groups differ.
    // A number beside the buffer of places: that one is the caller's, of a fixed length, and padded.
    pub places: usize,
    /// The invalid blocks: weight 2^k for block k.
    // A number, as a caller is told the set.
    pub invalid: u64,
    /// The fault of the first invalid block.
    pub fault: Option<FrameFault>,
}

/// What is told of the blocks of a frame.
// A Report repeats these two fields and doesn't hold this struct: its fields are public, and callers read them directly.
#[derive(Clone, Copy, PartialEq, Eq, Debug)]
pub struct BlockReport {
    /// The invalid blocks: weight 2^k for block k.
    // A number, as the report hands it on.
    pub invalid: u64,
    /// The fault of the first invalid block.
    pub fault: Option<FrameFault>,
}
