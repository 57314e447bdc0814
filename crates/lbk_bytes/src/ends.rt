//! The end of a text, or of a part of one.

ghost use Rattle.std.specs.Prelude.{◌≡◌, ℕ, ◌+◌, ◌<◌, ◌≤◌, ◌++◌, [], false, List, length};
ghost use Rattle.lbk_bytes.specs.Terms.{Cell, IsPlace, IsShown, KnowsTaken, Profile, verdict_shown};
ghost use Rattle.lbk_bytes.specs.Bytes.{end_in, with_break};
ghost use Rattle.lbk_bytes.specs.Order.{AreBreaks, AreInOrder};
ghost use Rattle.lbk_bytes.specs.Reached.{IsInOrder};
ghost use Rattle.lbk_bytes.specs.Shown.{given_in};

use crate::filling::put;
use crate::raw_break::RawBreak;
use lbk_rules::{Profile, step_in};

/// The kind of a letter.
const LETTER: u8 = 0;

/// The number of a kind of verdicts: a line must end.
const MUST: u16 = 2;

/// The number of a verdict by which no line breaks: that at a text's start, by rule 2.
pub const START: u16 = 256 * 16;

/// The number of the verdict at a text's end, by rule 3.
pub const END: u16 = 256 * 24 + MUST;

/// Writes what comes at an end after the breaks in the front of the block, and returns how many these are now. Where
/// the text ends, that is the break by rule 3, if any scalars were taken; where it goes on, a break by rule 4 or 5,
/// if a line must end whatever follows.
pub fn put_end(goes_on: bool, row: usize, out: &mut [RawBreak], count: usize, at: usize) -> usize
    requires { (count < length out.old) × IsPlace row }
    ensures within { (result ≤ length out.old) × (count ≤ result) × (result ≤ count + 1) }
    ensures breaks { AreBreaks out.old count → AreBreaks out.new result }
    ensures in_order { (from to : ℕ) → at < to → IsInOrder out.old count from at → AreInOrder out.new result from to }
    ensures front { (profile : Profile) (cell : ℕ → Cell) (taken : List ℕ)
        → KnowsTaken cell row taken
        → (0 < row → 0 < length taken) → given_in out.new result ≡ given_in out.old count
        ++ end_in goes_on profile cell taken at }
{
    if goes_on {
        return put(out, count, at, end_shown(true, row));
    }
    put_last(row, out, count, at)
}

/// Does the same where the text ends.
fn put_last(row: usize, out: &mut [RawBreak], count: usize, at: usize) -> usize
    requires { (count < length out.old) × IsPlace row }
    ensures within { (result ≤ length out.old) × (count ≤ result) × (result ≤ count + 1) }
    ensures breaks { AreBreaks out.old count → AreBreaks out.new result }
    ensures in_order { (from to : ℕ) → at < to → IsInOrder out.old count from at → AreInOrder out.new result from to }
    ensures front { (profile : Profile) (cell : ℕ → Cell) (taken : List ℕ)
        → KnowsTaken cell row taken
        → (0 < row → 0 < length taken) → given_in out.new result ≡ given_in out.old count
        ++ end_in false profile cell taken at }
{
    if row == 0 {
        return count;
    }
    put(out, count, at, END)
}

/// The number of the verdict at an end, or one by which no line breaks. Where the text goes on, that is the verdict
/// before a letter, if it is a must.
pub fn end_shown(goes_on: bool, row: usize) -> u16
    requires { IsPlace row }
    ensures shown { IsShown result }
    ensures ends { (profile : Profile) (cell : ℕ → Cell) (taken : List ℕ) (at : ℕ)
        → KnowsTaken cell row taken
        → (0 < row → 0 < length taken)
        → with_break at (verdict_shown result) [] ≡ end_in goes_on profile cell taken at }
{
    if !goes_on {
        return if row == 0 { START } else { END };
    }
    // Before a letter a line must end just where it must whatever follows.
    let shown = step_in(Profile::First, row, LETTER).shown;
    if shown % 256 == MUST {
        return shown;
    }
    START
}
