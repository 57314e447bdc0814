//! The scalars of a text, read from its bytes.

ghost use Rattle.std.specs.Prelude.{◌≡◌, ◌+◌, ◌<◌, ◌≤◌, ◌⊎◌, length, slice_range, IfSome};
ghost use Rattle.bstr.specs.Utf8.{decoded, good, or_replacement};
ghost use Rattle.unicode_segmentation.specs.Word.{significant, value_at};
ghost use Rattle.lbk_words.specs.Places.{IsReadAt};
ghost use Rattle.lbk_words.specs.Rows.{answer_number};
ghost use Rattle.lbk_words.specs.Words.{scalars_on};

use crate::decoding::{scalar_of_few, scalar_of_led};
use crate::kinds::kind_of;
use crate::step_table::ANSWERS;
use bstr::decode_lossy;
use lbk_scalars::{Scalar, scalar_of_three, scalar_of_wide};

/// A scalar of a text.
#[derive(Clone, Copy)]
pub(crate) struct ScalarAt {
    /// Its number.
    pub(crate) code: u32,
    /// The byte after it.
    pub(crate) end: usize,
    ghost few: { code < 0x11_0000 },
}

/// The scalar at a byte of a text: U+FFFD for the longest piece there that begins none (Unicode Standard, section 3.9).
#[inline(always)]
pub(crate) fn scalar_at(text: &[u8], at: usize) -> ScalarAt
    requires { at < length text.now }
    ensures { IsReadAt text.now at result.code result.end }
{
    if let Some(one) = one_at(text, at) {
        return one;
    }
    let rest = &text[at..];
    let Some(scalar) = scalar_of_few(rest) else {
        let scalar = any_scalar(rest);
        return ScalarAt {
            code: scalar.code,
            end: at + scalar.size,
        };
    };
    placed(text, at, scalar)
}

/// The scalar at a byte of a text, where it takes one byte, two or three (`SIZE`), as its first byte tells, or, where
/// `SIZE` is 4, three or four.
#[inline(always)]
pub(crate) fn scalar_of_size<const SIZE: usize>(text: &str, at: usize) -> Option<ScalarAt>
    requires size { (SIZE ≡ 1) ⊎ (SIZE ≡ 2) ⊎ (SIZE ≡ 3) ⊎ (SIZE ≡ 4) }
    requires place { at + SIZE ≤ length text.now }
    ensures { IfSome result (λ scalar. IsReadAt text.now at scalar.code scalar.end) }
{
    if SIZE == 1 {
        return one_at(text.as_bytes(), at);
    }
    led_at::<SIZE>(text, at)
}

/// The same of a scalar of more than one byte.
#[inline(always)]
fn led_at<const SIZE: usize>(text: &str, at: usize) -> Option<ScalarAt>
    requires size { (SIZE ≡ 2) ⊎ (SIZE ≡ 3) ⊎ (SIZE ≡ 4) }
    requires place { at + SIZE ≤ length text.now }
    ensures { IfSome result (λ scalar. IsReadAt text.now at scalar.code scalar.end) }
{
    let bytes = text.as_bytes();
    let scalar = scalar_of_led::<SIZE>(&bytes[at..])?;
    Some(placed(bytes, at, scalar))
}

/// The scalar at a byte of a text, where it takes one.
#[inline(always)]
fn one_at(text: &[u8], at: usize) -> Option<ScalarAt>
    requires { at < length text.now }
    ensures reads { IfSome result (λ scalar. IsReadAt text.now at scalar.code scalar.end) }
    ensures end { IfSome result (λ scalar. scalar.end ≡ at + 1) }
{
    let byte = text[at];
    if 0x80 <= byte {
        return None;
    }
    Some(ScalarAt {
        code: u32::from(byte),
        end: at + 1,
    })
}

/// The scalar at a byte of a text, where it takes three.
#[inline(always)]
pub(crate) fn three_at(text: &[u8], at: usize) -> Option<ScalarAt>
    requires { at + 3 ≤ length text.now }
    ensures reads { IfSome result (λ scalar. IsReadAt text.now at scalar.code scalar.end) }
    ensures end { IfSome result (λ scalar. scalar.end ≡ at + 3) }
{
    let scalar = scalar_of_three(&text[at..])?;
    Some(placed(text, at, scalar))
}

/// The scalar at a byte of a text, where it takes three or four, with no jump on which.
#[inline(always)]
pub(crate) fn wide_at(text: &[u8], at: usize) -> Option<ScalarAt>
    requires { at + 4 ≤ length text.now }
    ensures { IfSome result (λ scalar. IsReadAt text.now at scalar.code scalar.end) }
{
    let scalar = scalar_of_wide(&text[at..])?;
    Some(placed(text, at, scalar))
}

/// The scalar that stands at a byte of a text.
#[inline(always)]
fn placed(text: &[u8], at: usize, scalar: Scalar) -> ScalarAt
    requires inside { at < length text.now }
    requires stands { decoded (slice_range text.now at (length text.now)) ≡ good scalar.code scalar.size }
    ensures reads { IsReadAt text.now at result.code result.end }
    ensures end { result.end ≡ at + scalar.size }
{
    ScalarAt {
        code: scalar.code,
        end: at + scalar.size,
    }
}

/// The scalar at the front of some bytes, by a call, which serves scalars of four bytes and ill-formed text.
#[inline(never)]
fn any_scalar(bytes: &[u8]) -> Scalar
    requires { 0 < length bytes.now }
    ensures code { result.code ≡ or_replacement (decoded bytes.now).char }
    ensures size { result.size ≡ (decoded bytes.now).size }
{
    let (c, size) = decode_lossy(bytes);
    Scalar {
        code: c as u32,
        size,
    }
}

/// The answer of a kind that rule WB4 passes over.
const PASSED_OVER: u8 = 4;

/// What the rules ask of the first scalar from a byte on that rule WB4 does not pass over: 1 for an ALetter, 2 for a
/// Hebrew_Letter, 3 for a Numeric, and 0 for any other or where none is left.
#[inline(never)]
pub(crate) fn answer_ahead(text: &[u8], start: usize) -> usize
    ensures number { result ≡ answer_number (value_at (significant (scalars_on text.now start)) 0) }
    ensures few { result < 4 }
{
    let mut at = start;
    while at < text.len() {
        let scalar = scalar_at(text, at);
        let answer = ANSWERS[kind_of(scalar.code) as usize];
        if answer != PASSED_OVER {
            return answer as usize;
        }
        at = scalar.end;
    }
    0
}
