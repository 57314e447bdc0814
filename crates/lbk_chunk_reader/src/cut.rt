//! Cuts and chunks, with the kind and the rule of a break.

use lbk_rules::{Kind, Rule};

/// A cut of a text: a break outside words.
#[derive(Clone, Copy)]
pub struct Cut {
    /// The offset of the byte after it.
    pub at: usize,
    /// How many words are before it.
    pub words: usize,
    /// Whether a line may or must end there.
    pub kind: Kind,
    /// The rule that decided there.
    pub rule: Rule,
}

/// A chunk of a text: the bytes from `start` up to and without `end`.
#[derive(Clone, Copy, PartialEq, Eq, Debug)]
pub struct Chunk {
    /// The offset of its first byte.
    pub start: usize,
    /// The offset of the byte after it.
    pub end: usize,
    /// How many words it has.
    pub words: usize,
    /// Whether a line may or must end there.
    pub kind: Kind,
    /// The rule that decided there.
    pub rule: Rule,
    /// Whether it exceeds the limits, because it has no cut within them.
    pub alone: bool,
}
