//! Chunks, their limits, and how far a text was cut into them.

use crate::cut::Place;

/// The limits of a chunk.
#[repr(C)]
#[derive(Clone, Copy)]
pub struct Limits {
    /// The most bytes, 1 or more.
    pub most: usize,
    /// The most words; 0 for any number.
    pub words: usize,
    /// A chunk may end early, at a required break, once so many of its bytes are in no earlier chunk; at most `most`.
    pub least: usize,
    /// The most bytes of a chunk that the next one repeats; at most half of `most`.
    pub overlap: usize,
}

/// A chunk of a text: the bytes from `start` up to and without `end`.
#[repr(C)]
#[derive(Clone, Copy)]
pub struct Chunk {
    /// The offset of its first byte.
    pub start: usize,
    /// The offset of the byte after it.
    pub end: usize,
    /// How many words it has.
    pub words: usize,
    /// Whether a line may or must end there: 1 for May, 2 for Must.
    pub kind: u8,
    /// The number of the rule that decided there.
    pub rule: u8,
    /// Whether it exceeds the limits, because it has no cut within them.
    pub alone: bool,
}

/// Where a chunk starts.
#[derive(Clone, Copy)]
pub struct Here {
    /// The offset of its first byte.
    pub start: usize,
    /// How many words are before it.
    pub words: usize,
    /// The end of the chunk before it.
    pub told: usize,
}

/// How far a text was cut into chunks. All zeros mean the start of a text, in the first profile.
#[repr(C)]
#[derive(Clone, Copy)]
pub struct ChunkState {
    /// The place of the cut at which the next chunk starts.
    pub place: Place,
    /// The offset of that cut.
    pub start: usize,
    /// Where the last chunk ended.
    pub told: usize,
}
