//! Cuts of a text, and the places after them.

use lbk_calls::State;
use lbk_words::Word;

/// A cut of a text: a break outside words.
#[derive(Clone, Copy)]
pub struct Cut {
    /// The offset of the byte after it.
    pub at: usize,
    /// How many words are before it.
    pub words: usize,
    /// Whether a line may or must end there: 1 for May, 2 for Must.
    pub kind: u8,
    /// The number of the rule that decided there.
    pub rule: u8,
}

/// A block without cuts, to be copied: a new array of them is filled one by one.
pub(crate) static NO_CUTS: [Cut; 64] = [Cut {
    at: 0,
    words: 0,
    kind: 0,
    rule: 0,
}; 64];

/// How far the breaks and the words of a text were read. All zeros mean the start of a text.
#[repr(C)]
#[derive(Clone, Copy)]
pub struct Place {
    /// The state after the last break that was read.
    pub breaks: State,
    /// The offset from which the words were not read.
    pub from: usize,
    /// The word that was read and not passed, if its end is not 0.
    pub word: Word,
    /// How many words were passed.
    pub words: usize,
}

/// A place, and the byte of the cut before it.
#[derive(Clone, Copy)]
pub(crate) struct Mark {
    pub(crate) place: Place,
    pub(crate) at: usize,
}
