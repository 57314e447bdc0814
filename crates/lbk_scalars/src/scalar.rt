//! The scalars of two bytes and of three, where any bytes may stand (Unicode Standard, table 3-7).

ghost use Rattle.std.specs.Prelude.{◌≡◌, ℕ, ◌<◌, ◌≤◌, true, length, IfSome};
ghost use Rattle.bstr.specs.Utf8.{code_of_2, continues, decoded, good};

use crate::{MARKS_OF_THREE, is_continuation, joined, takes_three};

/// A scalar value and how many bytes it takes.
#[derive(Clone, Copy)]
pub struct Scalar {
    pub code: u32,
    pub size: usize,
    ghost few: { code < 0x11_0000 },
}

/// The scalar of two bytes at the front of some. None comes where none stands there.
#[inline(always)]
pub fn scalar_of_two(bytes: &[u8]) -> Option<Scalar>
    requires { 2 ≤ length bytes.now }
    ensures reads { IfSome result (λ scalar. decoded bytes.now ≡ good scalar.code scalar.size) }
    ensures size { IfSome result (λ scalar. scalar.size ≡ 2) }
    ensures none { result ≡ None → (code : ℕ) → ¬ (decoded bytes.now ≡ good code 2) }
{
    let first = bytes[0];
    if first < 0xC2 || 0xDF < first || !is_continuation(bytes[1]) {
        return None;
    }
    Some(Scalar {
        code: code_of_two(first, bytes[1]),
        size: 2,
    })
}

/// The same of three bytes. They are joined before they are looked at, since then the compiler widens each as it is
/// read.
#[inline(always)]
pub fn scalar_of_three(bytes: &[u8]) -> Option<Scalar>
    requires { 3 ≤ length bytes.now }
    ensures reads { IfSome result (λ scalar. decoded bytes.now ≡ good scalar.code scalar.size) }
    ensures size { IfSome result (λ scalar. scalar.size ≡ 3) }
    ensures none { result ≡ None → (code : ℕ) → ¬ (decoded bytes.now ≡ good code 3) }
{
    let (first, next, last) = (bytes[0], bytes[1], bytes[2]);
    let spelled = joined(joined(u32::from(first), next), last);
    if !is_continuation(next) || !is_continuation(last) || !takes_three(spelled) {
        return None;
    }
    Some(Scalar {
        code: spelled - MARKS_OF_THREE,
        size: 3,
    })
}

/// The scalar that two bytes are.
#[inline(always)]
pub fn code_of_two(first: u8, next: u8) -> u32
    requires first { (0xC0 ≤ first) × (first < 0xE0) }
    requires next { continues next ≡ true }
    ensures { result ≡ code_of_2 first next }
{
    (u32::from(first) - 0xC0) * 64 + (u32::from(next) - 0x80)
}
