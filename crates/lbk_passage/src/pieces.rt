//! The pieces of a passage.

ghost use Rattle.std.specs.Prelude.{◌≡◌, ◌+◌, ◌*◌, ◌<◌, ◌≤◌, ◌^◌, Bool, drop, length, max, take};
ghost use Rattle.std.specs.Prelude.{IfOk, IsUtf8, OnErr, OnOk, vec_capacity};
ghost use Rattle.lbk_passage.specs.Pieces.{CutsOn, IsCutOn, is_word, letter_by, piece_of, pieces_of};
ghost use Rattle.lbk_passage.specs.Front.{items_of};
ghost use Rattle.lbk_words.specs.Ends.{AreTold};
ghost use Rattle.lbk_words.specs.Near.{AreMet};
ghost use Rattle.lbk_words.specs.Places.{IsFirstPiece};

use crate::front::Front;
use crate::known::KnownCells;
use crate::passage::Piece;
use lbk_masks::{first_set, without_first};
use lbk_rules::CellSource;
use lbk_words::{Filled, NearScalars, PartSlot, ends_from, fill_parts};
use std::alloc::AllocError;

/// A piece that stands where none was put yet.
const NO_PIECE: Piece = Piece {
    start: 0,
    end: 0,
    word: false,
};

/// Writes the pieces of a text in place of what the list held (UAX #29, section 4). `near`: the scalars that were met.
/// Where memory could not grow the list holds some of them.
pub fn cut_words<C: CellSource>(
    known: &KnownCells<'_, C>,
    near: &mut NearScalars,
    text: &str,
    pieces: &mut Front<Piece>,
) -> Result<(), AllocError>
    requires few { length text.now < 2 ^ 32 }
    requires met { AreMet (letter_by (C.cell_of known.now.cells.now)) near.old }
    ensures met { AreMet (letter_by (C.cell_of known.now.cells.now)) near.new }
    ensures cut { OnOk result (items_of pieces.new ≡ pieces_of (C.cell_of known.now.cells.now) text.now) }
    ensures room { vec_capacity pieces.old.items ≤ vec_capacity pieces.new.items }
    ensures most { vec_capacity pieces.new.items ≤ max (vec_capacity pieces.old.items) (2 * pieces.new.count) }
    ensures full { OnErr result (vec_capacity pieces.old.items
        < length (pieces_of (C.cell_of known.now.cells.now) text.now)) }
{
    pieces.clear();
    let bytes = text.as_bytes();
    let mut start = 0;
    while start < bytes.len() {
        start = cut_next(known, near, text, start, pieces)?;
    }
    Ok(())
}

/// Puts the next pieces after those in the list, the first from `start` on, and returns where the others begin.
#[inline(always)]
fn cut_next<C: CellSource>(
    known: &KnownCells<'_, C>,
    near: &mut NearScalars,
    text: &str,
    start: usize,
    pieces: &mut Front<Piece>,
) -> Result<usize, AllocError>
    requires few { length text.now < 2 ^ 32 }
    requires within { start < length text.now }
    requires utf8 { IsUtf8 (drop start text.now) }
    requires met { AreMet (letter_by (C.cell_of known.now.cells.now)) near.old }
    ensures met { AreMet (letter_by (C.cell_of known.now.cells.now)) near.new }
    ensures cuts { CutsOn (C.cell_of known.now.cells.now) text.now start pieces.old pieces.new result }
    ensures onward { IfOk result (λ next. start < next) }
{
    let bytes = text.as_bytes();
    // Most lines end with a piece of one byte.
    if bytes.len() - start == 1 && bytes[start] < 0x80 {
        pieces.make_room(1, NO_PIECE)?;
        let count = pieces.count;
        put_piece(
            known,
            text,
            start,
            start + 1,
            pieces.items.as_mut_slice(),
            count,
        );
        pieces.count = count + 1;
        return Ok(start + 1);
    }
    let ends = ends_from(bytes, start);
    if ends == 0 {
        return cut_by_steps(known, near, text, start, pieces);
    }
    cut_told(known, text, start, ends, pieces)
}

/// Puts the next pieces after those in the list, scalar by scalar, where bits tell no end: as many as there is room for,
/// and one at least.
#[inline(always)]
fn cut_by_steps<C: CellSource>(
    known: &KnownCells<'_, C>,
    near: &mut NearScalars,
    text: &str,
    start: usize,
    pieces: &mut Front<Piece>,
) -> Result<usize, AllocError>
    requires few { length text.now < 2 ^ 32 }
    requires within { start < length text.now }
    requires utf8 { IsUtf8 (drop start text.now) }
    requires met { AreMet (letter_by (C.cell_of known.now.cells.now)) near.old }
    ensures met { AreMet (letter_by (C.cell_of known.now.cells.now)) near.new }
    ensures cuts { CutsOn (C.cell_of known.now.cells.now) text.now start pieces.old pieces.new result }
    ensures onward { IfOk result (λ next. start < next) }
{
    pieces.make_room(1, NO_PIECE)?;
    let from = Filled {
        count: pieces.count,
        at: start,
    };
    let slots = pieces.items.as_mut_slice();
    let filled = fill_parts(known, near, text, from, slots);
    pieces.count = filled.count;
    Ok(filled.at)
}

impl PartSlot for Piece {
    ghost made = { piece_of };

    /// Its fields are written one by one: a whole piece would be made elsewhere, and then be copied with the bytes between
    /// its fields.
    #[inline(always)]
    fn put(&mut self, start: usize, end: usize, has_letter: bool) {
        self.start = start as u32;
        self.end = end as u32;
        self.word = has_letter;
    }
}

/// Puts the pieces whose ends bits tell after those in the list, the first from `base` on, and returns where the next
/// begins. The lowest bit stands for the byte `base`.
#[inline(always)]
fn cut_told<C: CellSource>(
    known: &KnownCells<'_, C>,
    text: &str,
    base: usize,
    ends: u64,
    pieces: &mut Front<Piece>,
) -> Result<usize, AllocError>
    requires few { length text.now < 2 ^ 32 }
    requires within { base ≤ length text.now }
    requires utf8 { IsUtf8 (drop base text.now) }
    requires some { 0 < ends }
    requires told { AreTold text.now base ends }
    ensures cuts { CutsOn (C.cell_of known.now.cells.now) text.now base pieces.old pieces.new result }
    ensures onward { IfOk result (λ next. base < next) }
{
    pieces.make_room(ends.count_ones() as usize, NO_PIECE)?;
    let mut count = pieces.count;
    let slots = pieces.items.as_mut_slice();
    let mut left = ends;
    let mut start = base;
    while 0 < left {
        let end = base + first_set(left);
        left = without_first(left);
        put_piece(known, text, start, end, slots, count);
        start = end;
        count += 1;
    }
    pieces.count = count;
    Ok(start)
}

/// Writes the piece between two bytes over the item at this place.
#[inline(always)]
fn put_piece<C: CellSource>(
    known: &KnownCells<'_, C>,
    text: &str,
    start: usize,
    end: usize,
    pieces: &mut [Piece],
    at: usize,
)
    requires few { length text.now < 2 ^ 32 }
    requires utf8 { IsUtf8 (drop start text.now) }
    requires within { (start < end) × (end ≤ length text.now) }
    requires piece { (is_word : Bool) × IsFirstPiece text.now start end is_word }
    requires room { at < length pieces.old }
    ensures { IsCutOn (C.cell_of known.now.cells.now) text.now start (take at pieces.old) (take (at + 1) pieces.new) end }
{
    let word = is_word(known, &text[start..end]);
    pieces[at].put(start, end, word);
}

/// Whether a piece holds a letter or a number. Its first byte tells where it is one, or is all of the piece. One
/// comparison stands for both, since where most scalars have one byte nearly every piece is a word or a single mark.
#[inline(always)]
fn is_word<C: CellSource>(known: &KnownCells<'_, C>, piece: &str) -> bool
    requires some { 0 < length piece.now }
    ensures { result ≡ is_word (C.cell_of known.now.cells.now) piece.now }
{
    let bytes = piece.as_bytes();
    let told = known.flags.length_told(bytes[0]);
    if bytes.len() <= told as usize {
        return 1 < told;
    }
    piece.chars().any(|c| known.cells.cell(c).letter)
}
