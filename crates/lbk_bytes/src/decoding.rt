//! Scalars and ill-formed bytes, read without a call.

ghost use Rattle.std.specs.Prelude.{◌≡◌, ◌<◌, ◌≤◌, true, length, IfSome};
ghost use Rattle.bstr.specs.Utf8.{code_of_3, code_of_4, continues, decoded, good, or_replacement, second};
ghost use Rattle.lbk_bytes.specs.Widths.{longer_by};
ghost use Rattle.lbk_scalars.specs.Stands.{StandsFrom};

use lbk_scalars::{Scalar, code_of_two, is_continuation, joined};

/// The scalar of one byte at the front of some (Unicode Standard, table 3-7). None comes where none stands there.
#[inline(always)]
pub(crate) fn scalar_of_one(bytes: &[u8]) -> Option<Scalar>
    requires { 0 < length bytes.now }
    ensures reads { IfSome result (λ scalar. decoded bytes.now ≡ good scalar.code scalar.size) }
    ensures size { IfSome result (λ scalar. scalar.size ≡ 1) }
{
    let first = bytes[0];
    if 0x7F < first {
        return None;
    }
    Some(Scalar {
        code: u32::from(first),
        size: 1,
    })
}

/// The same of two bytes of well-formed text, where the first byte alone is looked at.
#[inline(always)]
pub(crate) fn scalar_of_led_two(bytes: &[u8]) -> Option<Scalar>
    requires enough { 1 < length bytes.now }
    requires stands { StandsFrom 0xC0 bytes.now }
    ensures reads { IfSome result (λ scalar. decoded bytes.now ≡ good scalar.code scalar.size) }
    ensures size { IfSome result (λ scalar. scalar.size ≡ 2) }
{
    let first = bytes[0];
    if first < 0xC2 || 0xDF < first {
        return None;
    }
    Some(Scalar {
        code: code_of_two(first, bytes[1]),
        size: 2,
    })
}

/// The same of three. The compiler knows the code to be one of the first plane by its 16 bits, so it leaves out what is
/// done for others.
#[inline(always)]
pub(crate) fn scalar_of_led_three(bytes: &[u8]) -> Option<Scalar>
    requires enough { 2 < length bytes.now }
    requires stands { StandsFrom 0xC0 bytes.now }
    ensures reads { IfSome result (λ scalar. decoded bytes.now ≡ good scalar.code scalar.size) }
    ensures size { IfSome result (λ scalar. scalar.size ≡ 3) }
{
    let first = bytes[0];
    if first < 0xE0 || 0xEF < first {
        return None;
    }
    Some(Scalar {
        code: u32::from(code_of_three(first, bytes[1], bytes[2]) as u16),
        size: 3,
    })
}

/// The same of four bytes, which are joined before they are looked at, as three are.
#[inline(always)]
pub(crate) fn scalar_of_four(bytes: &[u8]) -> Option<Scalar>
    requires { 3 < length bytes.now }
    ensures reads { IfSome result (λ scalar. decoded bytes.now ≡ good scalar.code scalar.size) }
    ensures size { IfSome result (λ scalar. scalar.size ≡ 4) }
{
    let (first, next, third, last) = (bytes[0], bytes[1], bytes[2], bytes[3]);
    let spelled = joined(joined(joined(u32::from(first), next), third), last);
    if !is_continuation(next) || !is_continuation(third) || !is_continuation(last) {
        return None;
    }
    if !takes_four(spelled) {
        return None;
    }
    Some(Scalar {
        code: spelled - MARKS_OF_FOUR,
        size: 4,
    })
}

/// What ill-formed bytes are read as: U+FFFD.
pub(crate) const REPLACEMENT: u32 = 0xFFFD;

/// How many bytes decide what stands at their front.
pub(crate) const ENOUGH: usize = 4;

/// The scalar at the front of some bytes, or U+FFFD for the longest piece that begins none (Unicode Standard, section
/// 3.9, table 3-7).
#[inline(always)]
pub(crate) fn piece_of(bytes: &[u8]) -> Scalar
    requires { 3 < length bytes.now }
    ensures code { result.code ≡ or_replacement (decoded bytes.now).char }
    ensures size { result.size ≡ (decoded bytes.now).size }
{
    let first = bytes[0];
    if first < 0xC2 || 0xF4 < first {
        let code = if first < 0x80 {
            u32::from(first)
        } else {
            REPLACEMENT
        };
        return Scalar { code, size: 1 };
    }
    let next = bytes[1];
    if !is_second(first, next) {
        return ill_formed(1);
    }
    if first < 0xE0 {
        return Scalar {
            code: code_of_two(first, next),
            size: 2,
        };
    }
    longer_piece(first, next, bytes[2], bytes[3])
}

/// The same where the first two bytes begin a scalar of more.
#[inline(always)]
fn longer_piece(first: u8, next: u8, third: u8, last: u8) -> Scalar
    requires first { (0xE0 ≤ first) × (first ≤ 0xF4) }
    requires next { second first next ≡ true }
    ensures code { result.code ≡ or_replacement (longer_by first next third last).char }
    ensures size { result.size ≡ (longer_by first next third last).size }
{
    if !is_continuation(third) {
        return ill_formed(2);
    }
    if first < 0xF0 {
        return Scalar {
            code: code_of_three(first, next, third),
            size: 3,
        };
    }
    if !is_continuation(last) {
        return ill_formed(3);
    }
    Scalar {
        code: code_of_four(first, next, third, last),
        size: 4,
    }
}

/// So many bytes that begin no scalar.
#[inline(always)]
fn ill_formed(size: usize) -> Scalar
    ensures { (result.code ≡ 0xFFFD) × (result.size ≡ size) }
{
    Scalar {
        code: REPLACEMENT,
        size,
    }
}

/// Whether a byte may stand second after this first of a scalar (Unicode Standard, section 3.9, table 3-7).
#[inline(always)]
pub fn is_second(first: u8, next: u8) -> bool
    ensures { result ≡ second first next }
{
    match first {
        0xE0 => 0x9F < next && next < 0xC0,
        0xED => 0x7F < next && next < 0xA0,
        0xF0 => 0x8F < next && next < 0xC0,
        0xF4 => 0x7F < next && next < 0x90,
        _ => is_continuation(next),
    }
}

/// What four joined bytes that spell a scalar are more than its code: the joined F0 80 80 80.
const MARKS_OF_FOUR: u32 = 0x3C8_2080;

/// Whether four joined bytes spell a scalar that takes four: it is of no fewer, and a code. So the first byte need not be
/// looked at.
#[inline(always)]
fn takes_four(spelled: u32) -> bool
    ensures { result ≡ true → (0x3C9_2080 ≤ spelled) × (spelled < 0x3D9_2080) }
{
    0x3C9_207F < spelled && spelled < 0x3D9_2080
}

#[inline(always)]
fn code_of_three(first: u8, next: u8, last: u8) -> u32
    requires { (0xE0 ≤ first) × (first < 0xF0) × (0x80 ≤ next) × (continues last ≡ true) }
    ensures { result ≡ code_of_3 first next last }
{
    ((u32::from(first) - 0xE0) * 64 + (u32::from(next) - 0x80)) * 64 + (u32::from(last) - 0x80)
}

#[inline(always)]
fn code_of_four(first: u8, next: u8, third: u8, last: u8) -> u32
    requires { (0xF0 ≤ first) × (first ≤ 0xF4) × (0x80 ≤ next) × (continues third ≡ true) × (continues last ≡ true) }
    ensures { result ≡ code_of_4 first next third last }
{
    (((u32::from(first) - 0xF0) * 64 + (u32::from(next) - 0x80)) * 64 + (u32::from(third) - 0x80))
        * 64
        + (u32::from(last) - 0x80)
}
