//! What one more scalar makes of a part of a text, by tables.

ghost use Rattle.std.specs.Prelude.{◌≡◌, ℕ, ◌<◌, false, length};
ghost use Rattle.ucd_breaks.specs.declared.WordBreak.{WordBreak};
ghost use Rattle.unicode_segmentation.specs.Word.{significant, value_at};
ghost use Rattle.lbk_words.specs.Filling.{IsNextStep};
ghost use Rattle.lbk_words.specs.Near.{IsOfKind};
ghost use Rattle.lbk_words.specs.Rows.{IsFirstRow, IsStep, row_word, step_number, told};
ghost use Rattle.lbk_words.specs.Words.{scalars_on};

use crate::kinds::kind_of;
use crate::scalars::{ScalarAt, answer_ahead, scalar_at};
use crate::step_table::{ARE_WORDS, FIRST_ROWS, STEPS};

/// How many rows there are. A row is what the rules ask of a part so far, and whether the part has a letter or a
/// number.
const ROWS: usize = 43;

/// What one more scalar makes of a part.
#[derive(Clone, Copy)]
pub(crate) struct Step {
    /// The row of the part with the scalar, or of the one that the scalar begins.
    pub(crate) next: usize,
    /// Whether there is a boundary before the scalar, so that the part ends there.
    pub(crate) cuts: bool,
    /// Whether it ends there and is a word.
    pub(crate) counts: bool,
    /// Whether the step may be another one by what is after the scalar.
    pub(crate) asks: bool,
}

/// A step, and the scalar that makes it.
#[derive(Clone, Copy)]
pub(crate) struct NextStep {
    /// The number of the scalar.
    pub(crate) code: u32,
    pub(crate) step: Step,
    /// The byte after the scalar.
    pub(crate) end: usize,
}

/// The row of a part of one scalar.
#[inline(always)]
pub(crate) fn first_row(first: ScalarAt) -> usize
    ensures { IsFirstRow first.code result }
{
    first_row_of(kind_of(first.code) as usize)
}

/// The row of a part of one scalar of this kind.
#[inline(always)]
pub(crate) fn first_row_of(kind: usize) -> usize
    requires { kind < 32 }
    ensures { (code : ℕ) → IsOfKind code kind → IsFirstRow code result }
{
    FIRST_ROWS[kind] as usize
}

/// Whether a part of this row is a word.
#[inline(always)]
pub(crate) fn is_word(row: usize) -> bool
    requires { row < 43 }
    ensures { result ≡ row_word row }
{
    ARE_WORDS[row]
}

/// What the scalar at a byte makes of a part of this row.
#[inline(always)]
pub(crate) fn next_step(row: usize, text: &[u8], at: usize) -> NextStep
    requires { (row < 43) × (at < length text.now) }
    ensures { IsNextStep text.now row at result }
{
    let next = scalar_at(text, at);
    NextStep {
        code: next.code,
        step: step_of(row, next, text),
        end: next.end,
    }
}

/// What the next scalar of a text makes of a part of this row.
#[inline(always)]
pub(crate) fn step_of(row: usize, next: ScalarAt, text: &[u8]) -> Step
    requires { row < 43 }
    ensures { IsStep row next.code (value_at (significant (scalars_on text.now next.end)) 0) result }
{
    step_by_kind(row, kind_of(next.code) as usize, text, next.end)
}

/// What a scalar of this kind makes of a part of this row, where the text goes on at the byte `end`.
#[inline(always)]
pub(crate) fn step_by_kind(row: usize, kind: usize, text: &[u8], end: usize) -> Step
    requires { (row < 43) × (kind < 32) }
    ensures { (code : ℕ) → IsOfKind code kind
        → IsStep row code (value_at (significant (scalars_on text.now end)) 0) result }
{
    let step = step_at(0, row, kind);
    if !step.asks {
        return step;
    }
    step_at(answer_ahead(text, end), row, kind)
}

/// What a scalar of one byte makes of a part of this row. It is right where the step does not ask.
#[inline(always)]
pub(crate) fn step_of_byte(row: usize, byte: u8) -> Step
    requires { (row < 43) × (byte < 128) }
    ensures { result.asks ≡ false → (far : WordBreak) → IsStep row byte far result }
{
    step_unasked(row, u32::from(byte))
}

/// What a scalar makes of a part of this row. It is right where the step does not ask.
#[inline(always)]
pub(crate) fn step_unasked(row: usize, code: u32) -> Step
    requires { (row < 43) × (code < 0x11_0000) }
    ensures { result.asks ≡ false → (far : WordBreak) → IsStep row code far result }
{
    step_of_kind(row, kind_of(code) as usize)
}

/// What a scalar of this kind makes of a part of this row. It is right where the step does not ask.
#[inline(always)]
pub(crate) fn step_of_kind(row: usize, kind: usize) -> Step
    requires { (row < 43) × (kind < 32) }
    ensures { result.asks ≡ false → (code : ℕ) (far : WordBreak) → IsOfKind code kind → IsStep row code far result }
{
    step_at(0, row, kind)
}

/// The step that the table has for a row and a kind, and an answer to what is after the scalar.
#[inline(always)]
fn step_at(answer: usize, row: usize, kind: usize) -> Step
    requires { (answer < 4) × (row < 43) × (kind < 32) }
    ensures { result ≡ told (step_number answer row kind) }
{
    let number = STEPS[answer * ROWS + row][kind];
    Step {
        next: (number % 64) as usize,
        cuts: number / 64 % 2 == 1,
        counts: number / 128 % 2 == 1,
        asks: number / 256 % 2 == 1,
    }
}
