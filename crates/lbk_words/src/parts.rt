//! Words found scalar by scalar.

ghost use Rattle.std.specs.Prelude.{◌≡◌, ◌<◌, ◌≤◌, ◌+◌, ℕ, List, true, length, IfSome, if◌then◌else◌};
ghost use Rattle.unicode_segmentation.specs.Word.{significant, value_at};
ghost use Rattle.lbk_words.specs.Filling.{FillsOn, FillsUpTo, IsFilled, IsFilling};
ghost use Rattle.lbk_words.specs.Places.{IsReadAt};
ghost use Rattle.lbk_words.specs.Rows.{IsStep};
ghost use Rattle.lbk_words.specs.Words.{scalars_on};

use crate::scalars::{ScalarAt, scalar_at, three_at, wide_at};
use crate::steps::{Step, first_row, is_word, next_step, step_of, step_of_byte, step_unasked};
use crate::word::{Filled, Word};

/// How far a block is filled, and the part of the text that is being read.
#[derive(Clone, Copy)]
pub(crate) struct Filling {
    /// The words before the part, and the boundary at which it begins.
    pub(crate) filled: Filled,
    /// The byte after the scalars of the part so far.
    pub(crate) at: usize,
    /// The row of the part so far.
    pub(crate) row: usize,
}

/// Goes on filling a block from a boundary, up to the first boundary from `stop` on, or as far as there is room. With
/// `FOURS` it is fast where scalars of three bytes and of four are mixed, and without where few take four. Neither form
/// is put in line, so that the code of a block stays as it is.
#[inline(never)]
pub(crate) fn fill_by_scalars<const FOURS: bool>(
    text: &[u8],
    here: Filled,
    stop: usize,
    out: &mut [Word],
) -> Filled
    requires { (here.count < length out.old) × (here.at < stop) × (stop ≤ length text.now) }
    ensures fills { FillsOn text.now here out.old result out.new }
    ensures far { result.count < length out.old → stop ≤ result.at }
{
    let mut part = begun(text, here);
    let near = near_of::<FOURS>(text, stop);
    'scalars: while part.filled.count < out.len() && part.filled.at < stop && part.at < text.len() {
        let next = next_step(part.row, text, part.at);
        part = taken(part, next.step, next.end, out);
        let from = part.at;
        'quick: while part.filled.count < out.len() && part.at < near {
            let byte = text[part.at];
            if byte < 0x80 {
                let step = step_of_byte(part.row, byte);
                if step.asks {
                    break;
                }
                part = taken(part, step, part.at + 1, out);
                continue;
            }
            let Some(next) = quick_at::<FOURS>(text, part.at) else {
                break;
            };
            let step = step_unasked(part.row, next.code);
            if step.asks {
                part = taken(part, step_of(part.row, next, text), next.end, out);
                continue 'scalars;
            }
            part = taken(part, step, next.end, out);
        }
    }
    if part.filled.count < out.len() && part.filled.at < stop {
        return ended(part, out);
    }
    part.filled
}

/// Up to where scalars are read quickly: `stop`, and with `FOURS`, which reads four bytes for each, no byte of the last
/// three.
#[inline(always)]
fn near_of<const FOURS: bool>(text: &[u8], stop: usize) -> usize
    requires { stop ≤ length text.now }
    ensures within { result ≤ stop }
    ensures enough { FOURS ≡ true → (at : ℕ) → at < result → at + 4 ≤ length text.now }
{
    if FOURS {
        stop.min(text.len().saturating_sub(3))
    } else {
        stop
    }
}

/// The scalar at a byte, where it takes three bytes, or with `FOURS` three or four.
#[inline(always)]
fn quick_at<const FOURS: bool>(text: &[u8], at: usize) -> Option<ScalarAt>
    requires here { at < length text.now }
    requires enough { FOURS ≡ true → at + 4 ≤ length text.now }
    ensures { IfSome result (λ scalar. IsReadAt text.now at scalar.code scalar.end) }
{
    if FOURS {
        return wide_at(text, at);
    }
    if text.len() - at < 3 {
        return None;
    }
    three_at(text, at)
}

/// The part of the scalar at a boundary.
#[inline(always)]
fn begun(text: &[u8], here: Filled) -> Filling
    requires { here.at < length text.now }
    ensures { (out : List Word) → here.count < length out → FillsUpTo text.now here out result out }
{
    let first = scalar_at(text, here.at);
    Filling {
        filled: here,
        at: first.end,
        row: first_row(first),
    }
}

/// Takes one more scalar, which ends at a byte. It writes the part so far whether the part ends there or not, so that
/// no branch depends on it.
#[inline(always)]
fn taken(part: Filling, step: Step, end: usize, out: &mut [Word]) -> Filling
    requires { part.filled.count < length out.old }
    ensures fills { (text : List ℕ) (from : Filled) (old : List Word) (code : ℕ)
        → FillsUpTo text from old part out.old → IsReadAt text part.at code end
        → IsStep part.row code (value_at (significant (scalars_on text end)) 0) step
        → FillsUpTo text from old result out.new }
    ensures at { result.at ≡ end }
{
    out[part.filled.count] = Word {
        start: part.filled.at,
        end: part.at,
    };
    Filling {
        filled: Filled {
            count: part.filled.count + usize::from(step.counts),
            at: one_of(step.cuts, part.at, part.filled.at),
        },
        at: end,
        row: step.next,
    }
}

/// Ends the part where the text ends.
#[inline(always)]
fn ended(part: Filling, out: &mut [Word]) -> Filled
    requires { (part.filled.count < length out.old) × (part.row < 43) }
    ensures filled { (text : List ℕ) (start : ℕ) → IsFilling text start part out.old → length text ≤ part.at
        → IsFilled text start result.at result.count out.new }
    ensures at { result.at ≡ part.at }
    ensures count { (part.filled.count ≤ result.count) × (result.count ≤ part.filled.count + 1) }
{
    out[part.filled.count] = Word {
        start: part.filled.at,
        end: part.at,
    };
    Filled {
        count: part.filled.count + usize::from(is_word(part.row)),
        at: part.at,
    }
}

/// One of two places.
#[inline(always)]
pub(crate) fn one_of(is_first: bool, first: usize, second: usize) -> usize
    ensures { result ≡ (if is_first then first else second) }
{
    if is_first { first } else { second }
}
