//! The cuts of a passage.

ghost use Rattle.std.specs.Prelude.{◌≡◌, ◌≤◌, ◌<◌, ◌+◌, ◌^◌, ◌++◌, ℕ, IfOk, OnOk, length, map, vec_len};
ghost use Rattle.lbk_chunks.specs.Cuts.{is_within, words_before};
ghost use Rattle.lbk_chunk_reader.specs.PassageWords.{words_in_pieces};
ghost use Rattle.lbk_chunk_reader.specs.Cuts.{cuts_between};
ghost use Rattle.lbk_chunk_reader.specs.Numbered.{numbered};
ghost use Rattle.lbk_chunk_reader.specs.Pieces.{AreJoined, ArePassed, EndsPast, IsRegular};

use crate::cut::Cut;
use lbk_passage::{Piece, Segment};
use std::alloc::AllocError;

/// The words of a passage: how many were passed, including earlier passages, and the pieces that are left.
#[derive(Clone, Copy)]
pub(crate) struct Words<'a> {
    pub(crate) count: usize,
    pub(crate) left: &'a [Piece],
}

/// Appends the cuts of a passage that begins at byte `start`, after `words` words. Returns how many words are before
/// its end.
pub(crate) fn push_cuts(
    cuts: &mut Vec<Cut>,
    start: usize,
    words: usize,
    segments: &[Segment],
    pieces: &[Piece],
) -> Result<usize, AllocError>
    requires { start ≤ 2 ^ 62 }
    ensures cuts { IsRegular start words segments.now pieces.now
        → OnOk result (map numbered cuts.new.items ≡ map numbered cuts.old.items
        ++ cuts_between start words segments.now pieces.now) }
    ensures words { IsRegular start words segments.now pieces.now
        → IfOk result (λ n. n ≡ words + length (words_in_pieces start pieces.now)) }
    ensures grows { vec_len cuts.old ≤ vec_len cuts.new }
{
    let mut here = Words {
        count: words,
        left: pieces,
    };
    let mut left = segments;
    while let Some((segment, rest)) = left.split_first() {
        here = pass_words(segment.end, here.count, here.left);
        if !is_within(segment.end, here.left) {
            cuts.push(Cut {
                at: start + segment.end as usize,
                words: here.count,
                kind: segment.kind,
                rule: segment.rule,
            })?;
        }
        left = rest;
    }
    Ok(words_behind(here.count, here.left))
}

/// Passes the pieces that end at a byte of the passage or before it.
fn pass_words(end: u32, count: usize, pieces: &[Piece]) -> Words<'_>
    ensures past { (start : ℕ) → EndsPast start (start + end) result.left.now }
    ensures passed { (start from : ℕ) → AreJoined from pieces.now
        → count + length (words_in_pieces start pieces.now) < 2 ^ 64
        → ArePassed start (start + end) count pieces.now result.count result.left.now }
{
    let mut count = count;
    let mut left = pieces;
    while let Some((piece, rest)) = left.split_first() {
        if end < piece.end {
            break;
        }
        if piece.word {
            count = count.saturating_add(1);
        }
        left = rest;
    }
    Words { count, left }
}

/// How many words there are, with those of some pieces.
fn words_behind(count: usize, pieces: &[Piece]) -> usize
    ensures { (start : ℕ) → count + length (words_in_pieces start pieces.now) < 2 ^ 64 → result ≡ count
        + length (words_in_pieces start pieces.now) }
{
    let mut count = count;
    let mut left = pieces;
    while let Some((piece, rest)) = left.split_first() {
        if piece.word {
            count = count.saturating_add(1);
        }
        left = rest;
    }
    count
}

/// Whether a byte of the passage is inside the first of some pieces, and that is a word.
fn is_within(end: u32, pieces: &[Piece]) -> bool
    ensures { (start from : ℕ) → AreJoined from pieces.now → EndsPast start (start + end) pieces.now
        → (result ≡ is_within (words_in_pieces start pieces.now) (start + end))
        × (words_before (words_in_pieces start pieces.now) (start + end) ≡ 0) }
{
    match pieces.split_first() {
        None => false,
        Some((piece, _)) => piece.word && piece.start < end,
    }
}
