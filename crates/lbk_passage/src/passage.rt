//! What a segmenter gives.

use lbk_rules::{Kind, Rule, Verdict};

/// A passage: the text up to and with a position where a line must end (UAX #14, section 6.1), or up to the end of
/// the whole text. It is never empty. Its words are those of its pieces that are one:
///
/// ```rust
/// for piece in passage.pieces {
///     if piece.word {
///         let word = passage.text.get(piece.start as usize..piece.end as usize);
///         seen.push(' ')?;
///         seen.push_str(word.unwrap_or(""))?;
///     }
/// }
/// ```
#[derive(Clone, Copy, Debug)]
pub struct Passage<'a> {
    /// The number of bytes of the whole text before it.
    pub start: u64,
    /// Its text.
    pub text: &'a str,
    /// Its cutting at the positions where a line may or must end.
    pub segments: &'a [Segment],
    /// Its cutting at word boundaries (UAX #29, section 4), as a text of its own.
    pub pieces: &'a [Piece],
    /// What the rules say of the position after its last scalar.
    pub end: Verdict,
}

/// The text of a passage, without its segments and words.
#[derive(Clone, Copy, Debug)]
pub struct PassageText<'a> {
    /// The number of bytes of the whole text before it.
    pub start: u64,
    /// Its text.
    pub text: &'a str,
    /// What the rules say of the position after its last scalar.
    pub end: Verdict,
}

/// A part of a passage that ends at a line break (UAX #14, section 3). Offsets count bytes of the passage's text.
#[derive(Clone, Copy, PartialEq, Eq, Debug)]
pub struct Segment {
    /// Where it begins.
    pub start: u32,
    /// The offset of the break.
    pub end: u32,
    /// The kind of the break at its end.
    pub kind: Kind,
    /// The rule that decided there.
    pub rule: Rule,
}

/// A part of a passage between two word boundaries (UAX #29, section 4). Offsets count bytes of the passage's text.
#[derive(Clone, Copy, PartialEq, Eq, Debug)]
pub struct Piece {
    /// Where it begins.
    pub start: u32,
    /// Where it ends, and the next one begins.
    pub end: u32,
    /// Whether it has a letter or a number: a scalar with `letter` in its cell.
    pub word: bool,
}
