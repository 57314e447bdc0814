//! Blocks of 64 bytes whose bits the sets of their bytes tell at once.

ghost use Rattle.std.specs.Prelude.{◌≡◌, ℕ, ◌+◌, ◌*◌, ◌<◌, ◌≤◌, ◌++◌, List, length};
ghost use Rattle.lbk_bytes.specs.Terms.{AreFlatKinds, AreTold, Cell, IsPlace, Profile, Step, steps_in};
ghost use Rattle.lbk_bytes.specs.Blocks.{AreEnded, AreMarks};
ghost use Rattle.lbk_bytes.specs.Marking.{Marked, MarksOn, MayMark};
ghost use Rattle.lbk_bytes.specs.Marks.{is_marked};
ghost use Rattle.lbk_bytes.specs.Reached.{Ahead};

use crate::block_marks::{BLOCK, Marks, behind_byte, is_told_behind, kept_up_to, marks_ahead};
use crate::fill_state::FillState;
use crate::marks::mark_bits;
use crate::stepping::runs;
use crate::target::Bits;
use crate::tries::{SEEN, are_left};
use lbk_masks::kept_from;
use lbk_rules::{KindSource, Neighbours, Rows};

/// Takes blocks of bytes, as many as come one after the other, up to a scalar that no step takes, or from which on
/// few bytes are left, or many of them to steps. Where the next bytes are of scalars that blocks leave to
/// steps, it takes none.
#[inline(always)]
pub(crate) fn mark_blocks<K: KindSource>(
    table: &K,
    steps: &Rows,
    start: FillState,
    from: usize,
    text: &[u8],
    words: &mut [u64],
) -> FillState
    requires { MayMark steps.now text.now from words.old start }
    ensures { MarksOn (K.kinds_of table.now) (K.pairs_of table.now) steps.now text.now from words.old start words.new
        result }
{
    if !are_told(&text[start.at..]) {
        return start;
    }
    let mut here = start;
    loop {
        let behind = here.at;
        here = mark_block(table, steps, here, from, text, words);
        if here.at - behind < BLOCK {
            return here;
        }
    }
}

/// Whether a block at the front of a text seems to be of use: whether the bytes are not few, nor mostly of scalars that
/// blocks leave to steps.
#[inline(always)]
pub(crate) fn are_told(text: &[u8]) -> bool {
    SEEN <= text.len() && !are_left(text)
}

/// Takes the bytes of one block: those that its marks tell by them, and the others by steps.
#[inline(never)]
pub(crate) fn mark_block<K: KindSource>(
    table: &K,
    steps: &Rows,
    start: FillState,
    from: usize,
    text: &[u8],
    words: &mut [u64],
) -> FillState
    requires { MayMark steps.now text.now from words.old start }
    ensures { MarksOn (K.kinds_of table.now) (K.pairs_of table.now) steps.now text.now from words.old start words.new
        result }
{
    let pairs = table.pairs();
    let Some(marks) = marks_ahead(pairs, start.at, text) else {
        return start;
    };
    let end = start.at + BLOCK.min(text.len() - start.at);
    let mut here = start;
    while here.at < end {
        let there = mark_masked(pairs, start.at, marks, here, from, text, words);
        if end <= there.at {
            return there;
        }
        let untold = there.at == here.at;
        let stop = steps_end(untold, marks.stops, start.at, there.at, end);
        here = runs::<false, Bits, K>(Bits { from }, table, steps, there, stop, text, words);
        if here.at == there.at {
            return here;
        }
    }
    here
}

/// How many bytes are taken by steps where the marks tell nothing. After a byte of which they know no row, as among
/// control characters, they tell nothing of the next.
const UNTOLD: usize = 6;

/// Up to where bytes of a block are taken by steps. Where its marks told nothing of those before, that is some bytes
/// on, and else behind those that are left to steps and such as go on with a scalar: the next byte, or a later one.
#[inline(always)]
fn steps_end(told_nothing: bool, stops: u64, at: usize, here: usize, end: usize) -> usize
    requires { (at ≤ here) × (here < at + 64) × (here < end) }
    ensures { (here < result) × (result ≤ end) }
{
    if told_nothing {
        return here.saturating_add(UNTOLD).min(end);
    }
    let told = !(stops | (stops << 1));
    let many = (told >> (here - at)).trailing_zeros() as usize;
    (here + 1).max(here.saturating_add(many)).min(end)
}

/// Takes bytes of a block up to the first that is left to steps, if the row here is that of the byte before.
#[inline(always)]
fn mark_masked(
    pairs: &Neighbours,
    at: usize,
    marks: Marks,
    here: FillState,
    from: usize,
    text: &[u8],
    words: &mut [u64],
) -> FillState
    requires place { IsPlace here.row × (0 < at) × (from ≤ at) × (at ≤ here.at) × (here.at < at + 64)
        × (here.at < length text.now) × (length text.now ≤ from + 64 * length words.old) }
    requires ends { AreEnded text.now at marks.stops }
    ensures within { IsPlace result.row × (here.at ≤ result.at) × (result.at ≤ length text.now) }
    ensures after { (i : ℕ) → result.at ≤ from + i → is_marked words.new i ≡ is_marked words.old i }
    ensures marked { (profile : Profile) (cell : ℕ → Cell) (steps : List (List Step))
        (kinds : List ℕ) (more : List ℕ) (all : Ahead) → steps ≡ steps_in profile
        → AreFlatKinds kinds cell → AreTold steps kinds pairs.now
        → AreMarks pairs.now text.now at marks
        → Marked profile cell (text.now ++ more) all from (length text.now) here words.old
        → Marked profile cell (text.now ++ more) all from (length text.now) result words.new }
{
    if !is_told_behind(pairs, here, text) {
        return here;
    }
    let begin = here.at - at;
    let taken = marks.taken_from(begin);
    mark_bits(
        words,
        at - from,
        kept_up_to(kept_from(marks.standing, begin), taken),
    );
    behind_byte(pairs, 0, at + taken, text)
}
