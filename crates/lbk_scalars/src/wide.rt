//! The scalars of three bytes and of four, read alike.

ghost use Rattle.std.specs.Prelude.{◌≡◌, ℕ, ◌<◌, ◌≤◌, get_or, length, IfSome};
ghost use Rattle.bstr.specs.Utf8.{decoded, good};
ghost use Rattle.lbk_scalars.specs.Stands.{StandsFrom};
ghost use Rattle.lbk_scalars.specs.Widths.{IsPlainLead, IsWidth};

use crate::is_continuation;
use crate::scalar::Scalar;

/// How the bytes of a scalar count in its code, by how many they are.
#[derive(Clone, Copy)]
pub(crate) struct Width {
    /// How much the third one counts.
    pub(crate) third: u32,
    /// How much the fourth counts, from 80 on: 1, or nothing where there is none.
    pub(crate) fourth: u32,
    /// What they come to, as they count, in the code 0.
    pub(crate) marks: u32,
    /// How many they are.
    pub(crate) size: u32,
}

/// Scalars of three bytes, and of four.
#[rattlefmt::skip]
static WIDTHS: [Width; 2] = [
    Width { third: 1, fourth: 0, marks: 0xE_2080, size: 3 },
    Width { third: 64, fourth: 1, marks: 0x3C8_2000, size: 4 },
];

/// The scalar of three bytes or four at the front of some, where any continuation bytes may follow its first two. No
/// jump depends on which it is: where both stand side by side, a processor seldom expects the right one.
#[inline(always)]
pub fn scalar_of_wide(bytes: &[u8]) -> Option<Scalar>
    requires { 4 ≤ length bytes.now }
    ensures reads { IfSome result (λ scalar. decoded bytes.now ≡ good scalar.code scalar.size) }
    ensures size { IfSome result (λ scalar. 3 ≤ scalar.size) }
    ensures none { result ≡ None → IsPlainLead (get_or bytes.now 0 0) → (code size : ℕ)
        → ¬ (decoded bytes.now ≡ good code size) }
{
    let (first, next, third) = (bytes[0], bytes[1], bytes[2]);
    if first < 0xE1 || 0xF3 < first || first == 0xED {
        return None;
    }
    let width = width_of(first);
    let fourth = u32::from(bytes[3].wrapping_sub(0x80)) * width.fourth;
    if !is_continuation(next) || !is_continuation(third) || 0x3F < fourth {
        return None;
    }
    let two = u32::from(first) * 64 + u32::from(next);
    if OVERLONG <= two && two < LEAST_FOUR {
        return None;
    }
    Some(Scalar {
        code: (two * 64 + u32::from(third)) * width.third + fourth - width.marks,
        size: width.size as usize,
    })
}

/// The same of bytes that begin with a scalar, as its first byte tells.
#[inline(always)]
pub fn scalar_of_led_wide(bytes: &[u8]) -> Option<Scalar>
    requires enough { 4 ≤ length bytes.now }
    requires stands { StandsFrom 0xDF bytes.now }
    ensures reads { IfSome result (λ scalar. decoded bytes.now ≡ good scalar.code scalar.size) }
    ensures size { IfSome result (λ scalar. 3 ≤ scalar.size) }
    ensures none { result ≡ None → get_or bytes.now 0 0 < 0xE0 }
{
    let first = bytes[0];
    if first < 0xE0 {
        return None;
    }
    let width = width_of(first);
    let fourth = u32::from(bytes[3].wrapping_sub(0x80)) * width.fourth;
    let two = u32::from(first) * 64 + u32::from(bytes[1]);
    Some(Scalar {
        code: (two * 64 + u32::from(bytes[2])) * width.third + fourth - width.marks,
        size: width.size as usize,
    })
}

/// The first two bytes F0 80, joined: from here on four bytes spell scalars that take fewer.
const OVERLONG: u32 = 0x3C80;

/// The bytes F0 90, joined: from here on they spell those that take four.
const LEAST_FOUR: u32 = 0x3C90;

/// How the bytes of a scalar with this first one count, which takes three or four.
#[inline(always)]
fn width_of(first: u8) -> &'static Width
    ensures { 0xE0 ≤ first → IsWidth first result.now }
{
    &WIDTHS[usize::from(first / 16 % 2)]
}
