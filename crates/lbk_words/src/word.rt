//! A word of a text.

/// A word: the bytes of the text from `start` up to `end`, not counting that one.
#[repr(C)]
#[derive(Clone, Copy)]
pub struct Word {
    /// The byte that it begins with, counted from the text's start.
    pub start: usize,
    /// The byte after its last one: the text's length at its end.
    pub end: usize,
}

/// How far a block was filled.
#[derive(Clone, Copy)]
pub struct Filled {
    /// How many words are at the front of the block.
    pub count: usize,
    /// The byte from which the other words come.
    pub at: usize,
}
