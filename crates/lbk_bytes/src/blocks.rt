//! Breaks in blocks of up to 64 bytes from the sets of their bytes, so that no step waits for the one before it.

ghost use Rattle.std.specs.Prelude.{◌≡◌, ℕ, ◌+◌, ◌-◌, ◌<◌, ◌≤◌, ◌++◌, List, length};
ghost use Rattle.lbk_bytes.specs.Terms.{AreFlatKinds, AreSteps, AreTold, Cell, IsLowest, IsPlace, Profile, steps_in};
ghost use Rattle.lbk_bytes.specs.Blocks.{AreEnded, AreInside, AreLeft, AreMarks, IsAhead, IsBlock, place_in};
ghost use Rattle.lbk_bytes.specs.Blocks.{row_before};
ghost use Rattle.lbk_bytes.specs.Reached.{Ahead, IsInOrder, Reached};
ghost use Rattle.lbk_bytes.specs.Shown.{given_in};
ghost use Rattle.lbk_bytes.specs.Steps.{FillsOn, GoesIn, IsInText, IsSure, MayFill};

use crate::block_marks::{BLOCK, Marks, behind_byte, is_told_behind, kept_up_to, marks_ahead};
use crate::fill_state::FillState;
use crate::filling::put;
use crate::raw_break::RawBreak;
use crate::stepping::runs;
use crate::strays::stray;
use crate::target::Breaks;
use lbk_masks::{first_set, kept_from, without_first};
use lbk_rules::{KindSource, Neighbours, Rows, place_by, step_at};

/// How far a block of bytes was taken.
#[derive(Clone, Copy)]
pub(crate) struct BlockState {
    /// How many breaks are at the front of the block of breaks.
    pub(crate) count: usize,
    /// Up to here the bytes were taken.
    pub(crate) past: usize,
    /// Before which of the block's bytes a break is still to be written, a bit each.
    pub(crate) left: u64,
}

/// Takes blocks of bytes, as many as come one after the other, up to a scalar that no step takes, or from which on
/// few bytes are left, or many of them to steps. Without masks it takes none. It stands apart, so that what single
/// scalars need stays in registers. `SURE`: the text is well-formed and the steps are those of the first profile.
#[inline(never)]
pub(crate) fn blocks<const MASKS: bool, const SURE: bool, K: KindSource>(
    kinds: &K,
    steps: &Rows,
    start: FillState,
    text: &[u8],
    out: &mut [RawBreak],
) -> FillState
    requires stands { MayFill steps.now text.now out.old start }
    requires sure { IsSure SURE steps.now text.now }
    ensures { FillsOn steps.now (K.kinds_of kinds.now) (K.pairs_of kinds.now) text.now out.old start out.new result }
{
    if !MASKS {
        return start;
    }
    let mut here = start;
    // No byte stands before the first scalar of a text.
    if start.at == 0 && !text.is_empty() {
        here = runs::<false, Breaks, K>(Breaks, kinds, steps, start, 1, text, out);
    }
    loop {
        let from = here.at;
        here = block::<SURE, K>(kinds, steps, here, text, out);
        if here.at - from < BLOCK {
            return here;
        }
    }
}

/// Takes the bytes of one block: those that its marks tell by them, and the others by steps.
#[inline(always)]
fn block<const SURE: bool, K: KindSource>(
    kinds: &K,
    steps: &Rows,
    start: FillState,
    text: &[u8],
    out: &mut [RawBreak],
) -> FillState
    requires stands { MayFill steps.now text.now out.old start }
    requires sure { IsSure SURE steps.now text.now }
    ensures { FillsOn steps.now (K.kinds_of kinds.now) (K.pairs_of kinds.now) text.now out.old start out.new result }
{
    let Some(marks) = marks_ahead(kinds.pairs(), start.at, text) else {
        return start;
    };
    let end = start.at + BLOCK.min(text.len() - start.at);
    let mut here = start;
    while here.at < end {
        let there = take_masked(kinds, steps, start.at, marks, here, text, out);
        if end <= there.at {
            return there;
        }
        here = stray::<SURE, Breaks, K>(Breaks, kinds, steps, there, text, out);
        if here.at == there.at {
            return here;
        }
    }
    here
}

/// Takes bytes of a block up to the first that is left to steps, if the row here is that of the byte before.
#[inline(always)]
fn take_masked<K: KindSource>(
    kinds: &K,
    steps: &Rows,
    at: usize,
    marks: Marks,
    here: FillState,
    text: &[u8],
    out: &mut [RawBreak],
) -> FillState
    requires place { (here.count ≤ length out.old) × IsPlace here.row × (0 < at) × (at ≤ here.at)
        × (here.at < at + 64) × (here.at < length text.now) × AreSteps steps.now
        × AreEnded text.now at marks.stops }
    ensures goes { GoesIn text.now out.old here out.new result }
    ensures reached { (profile : Profile) (cell : ℕ → Cell) (more : List ℕ) (all : Ahead)
        → steps.now ≡ steps_in profile → AreFlatKinds (K.kinds_of kinds.now) cell
        → AreTold steps.now (K.kinds_of kinds.now) (K.pairs_of kinds.now) → AreMarks (K.pairs_of kinds.now) text.now at marks
        → Reached profile cell (text.now ++ more) all here (given_in out.old here.count)
        → Reached profile cell (text.now ++ more) all result (given_in out.new result.count) }
{
    if !is_told_behind(kinds.pairs(), here, text) {
        return here;
    }
    let begin = here.at - at;
    let taken = marks.taken_from(begin);
    let marked = BlockState {
        count: here.count,
        past: here.at,
        left: kept_up_to(kept_from(marks.standing, begin), taken),
    };
    finish(kinds, steps, at, taken, marked, text, out)
}

/// Writes the breaks that are left in the first bytes of a block, and takes these.
#[inline(always)]
fn finish<K: KindSource>(
    kinds: &K,
    steps: &Rows,
    at: usize,
    taken: usize,
    start: BlockState,
    text: &[u8],
    out: &mut [RawBreak],
) -> FillState
    requires place { (start.count ≤ length out.old) × (0 < at) × (at + taken ≤ length text.now) × (taken ≤ 64)
        × (at ≤ start.past) × AreSteps steps.now }
    requires ahead { IsAhead at taken start }
    ensures within { IsInText result (length text.now) (length out.old) }
    ensures onward { (start.past ≤ result.at) × (start.count ≤ result.count) }
    ensures in_order { (from : ℕ) → IsInOrder out.old start.count from start.past
        → IsInOrder out.new result.count from result.at }
    ensures reached { (profile : Profile) (cell : ℕ → Cell) (more : List ℕ) (all : Ahead)
        (begin : ℕ)
        → IsBlock profile cell steps.now (K.kinds_of kinds.now) (K.pairs_of kinds.now) text.now at begin taken
        → AreLeft (K.pairs_of kinds.now) text.now at begin taken start
        → Reached profile cell (text.now ++ more) all (place_in (K.pairs_of kinds.now) text.now start)
        (given_in out.old start.count)
        → Reached profile cell (text.now ++ more) all result (given_in out.new result.count) }
{
    let mut here = start;
    while here.left != 0 && here.count < out.len() {
        here = take_break(kinds, steps, at, here, text, out);
    }
    stopped(kinds.pairs(), at, taken, here, text)
}

/// Where a block was left: after its first bytes, or before the next break that is left in them.
#[inline(always)]
fn stopped(pairs: &Neighbours, at: usize, taken: usize, here: BlockState, text: &[u8]) -> FillState
    requires { (0 < at) × (at + taken ≤ length text.now) × AreInside text.now at here.left }
    ensures within { IsPlace result.row × (at ≤ result.at) × (result.at ≤ length text.now) }
    ensures count { result.count ≡ here.count }
    ensures row { result.row ≡ row_before pairs.now text.now result.at }
    ensures all { here.left ≡ 0 → result.at ≡ at + taken }
    ensures some { 0 < here.left → IsLowest here.left (result.at - at) × (result.at < at + 64) }
{
    if here.left == 0 {
        return behind_byte(pairs, here.count, at + taken, text);
    }
    behind_byte(pairs, here.count, at + first_set(here.left), text)
}

/// Writes the next break that is left, as its step says: where the sets are made up and a line does not break there,
/// nothing.
#[inline(always)]
fn take_break<K: KindSource>(
    kinds: &K,
    steps: &Rows,
    at: usize,
    here: BlockState,
    text: &[u8],
    out: &mut [RawBreak],
) -> BlockState
    requires place { (here.count < length out.old) × (0 < here.left) × (0 < at) × AreSteps steps.now }
    requires inside { AreInside text.now at here.left }
    ensures ahead { (taken : ℕ) → IsAhead at taken here → IsAhead at taken result × (here.past ≤ result.past) }
    ensures in_order { (taken from : ℕ) → IsAhead at taken here → IsInOrder out.old here.count from here.past
        → IsInOrder out.new result.count from result.past }
    ensures within { (result.count ≤ length out.old) × (at ≤ result.past) }
    ensures onward { (here.count ≤ result.count) × (result.left < here.left) }
    ensures reached { (profile : Profile) (cell : ℕ → Cell) (more : List ℕ) (all : Ahead)
        (begin taken : ℕ)
        → IsBlock profile cell steps.now (K.kinds_of kinds.now) (K.pairs_of kinds.now) text.now at begin taken
        → AreLeft (K.pairs_of kinds.now) text.now at begin taken here
        → Reached profile cell (text.now ++ more) all (place_in (K.pairs_of kinds.now) text.now here)
        (given_in out.old here.count)
        → AreLeft (K.pairs_of kinds.now) text.now at begin taken result
        × Reached profile cell (text.now ++ more) all (place_in (K.pairs_of kinds.now) text.now result)
        (given_in out.new result.count) }
{
    let index = first_set(here.left);
    let place = at + index;
    let row = place_by(kinds.pairs().rows[text[place - 1] as usize]);
    let step = step_at(steps, row, kinds.kind_of_byte(text[place]));
    BlockState {
        count: put(out, here.count, place, step.shown),
        past: place + 1,
        left: without_first(here.left),
    }
}
