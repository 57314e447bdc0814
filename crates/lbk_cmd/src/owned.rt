//! A passage of a text with its breaks and its words, as an owned value.

ghost use Rattle.std.specs.Prelude.{◌≡◌, ◌+◌, ◌^◌, ◌≤◌, filter, map, IfOk};
ghost use Rattle.lbk_passage.specs.Laws.{break_at};
ghost use Rattle.lbk_passage.specs.Next.{IsPlaced};
ghost use Rattle.lbk_cmd.specs.Owned.{lent_as, word_at};

use lbk_passage::{Passage, Piece, Segment};
use lbk_rules::Break;
use std::alloc::{AllocError, Global};
use std::marker::Model;

/// A word of a text (UAX #29, section 4). Offsets count bytes of the whole text.
#[derive(Clone, Copy, PartialEq, Eq, Debug)]
pub struct Word {
    /// Its offset.
    pub start: usize,
    /// The byte after its last one.
    pub end: usize,
}

/// A passage: the text up to a required break (UAX #14, section 6.1), or up to the end of the whole text. It is never
/// empty. Offsets count bytes of the whole text.
///
/// ```rust
/// let passages = read_passages(rt.alloc(), SAMPLE_FILES, &mut reader, 65_536, profile)?;
/// ```
#[derive(Drop)]
pub struct OwnedPassage {
    start: usize,
    text: String,
    breaks: Vec<Break>,
    words: Vec<Word>,
}

impl Model for OwnedPassage {
    ghost use Rattle.std.specs.Prelude.{string_bytes};
    ghost use Rattle.lbk_cmd.specs.Owned.{Owned};

    ghost Value = { Owned };

    ghost view = { λ p. record {
      start = p.start;
      text = string_bytes p.text;
      breaks = p.breaks.items;
      words = p.words.items;
    } };
}

impl OwnedPassage {
    /// Copies a passage that a segmenter lends. Returns an error if memory could not grow.
    pub(crate) fn of(alloc: Global, passage: &Passage<'_>) -> Result<OwnedPassage, AllocError>
        requires { IsPlaced passage.now }
        ensures { IfOk result (λ owned. owned ≡ lent_as passage.now) }
    {
        let start = passage.start as usize;
        Ok(OwnedPassage {
            start,
            text: String::from_str(alloc, passage.text)?,
            breaks: breaks_from(alloc, start, passage.segments)?,
            words: words_from(alloc, start, passage.pieces)?,
        })
    }

    /// Its offset.
    pub fn start(&self) -> usize
        ensures { result ≡ self.now.start }
    {
        self.start
    }

    /// Its text.
    pub fn text(&self) -> &str
        ensures { result.now ≡ self.now.text }
    {
        &self.text
    }

    /// Its breaks; the last one is its end.
    pub fn breaks(&self) -> &[Break]
        ensures { result.now ≡ self.now.breaks }
    {
        &self.breaks
    }

    /// Its words.
    pub fn words(&self) -> &[Word]
        ensures { result.now ≡ self.now.words }
    {
        &self.words
    }
}

/// The breaks at the ends of segments of a passage that begins at byte `start`.
fn breaks_from(alloc: Global, start: usize, segments: &[Segment]) -> Result<Vec<Break>, AllocError>
    requires { start ≤ 2 ^ 62 }
    ensures { IfOk result (λ breaks. breaks.items ≡ map (break_at start) segments.now) }
{
    let breaks = segments.iter().map(|segment| Break {
        at: start + segment.end as usize,
        kind: segment.kind,
        rule: segment.rule,
    });
    breaks.collect(alloc)
}

/// The words among pieces of a passage that begins at byte `start`.
fn words_from(alloc: Global, start: usize, pieces: &[Piece]) -> Result<Vec<Word>, AllocError>
    requires { start ≤ 2 ^ 62 }
    ensures { IfOk result (λ words. words.items ≡ map (word_at start) (filter (λ p. p.word) pieces.now)) }
{
    let words = pieces.iter().filter(|piece| piece.word);
    let placed = words.map(|piece| Word {
        start: start + piece.start as usize,
        end: start + piece.end as usize,
    });
    placed.collect(alloc)
}
