//! The scalars of two to four bytes, by what is known of the text.

ghost use Rattle.std.specs.Prelude.{◌≡◌, ◌⊎◌, ◌≤◌, length, IfSome};
ghost use Rattle.bstr.specs.Utf8.{decoded, good};
ghost use Rattle.lbk_scalars.specs.Stands.{StandsFrom};

use lbk_scalars::{
    Scalar, scalar_of_led_three, scalar_of_led_wide, scalar_of_three, scalar_of_two,
};

/// The scalar of two or three bytes at the front of three bytes or more.
#[inline(always)]
pub(crate) fn scalar_of_few(bytes: &[u8]) -> Option<Scalar>
    ensures { IfSome result (λ scalar. decoded bytes.now ≡ good scalar.code scalar.size) }
{
    let first = *bytes.first()?;
    if first < 0xC2 || bytes.len() < 3 {
        return None;
    }
    if 0xE0 <= first {
        return scalar_of_three(bytes);
    }
    scalar_of_two(bytes)
}

/// The scalar at the front of bytes that begin with one, if its first byte begins one of two bytes or three (`SIZE`), or,
/// where `SIZE` is 4, one of three or four.
#[inline(always)]
pub(crate) fn scalar_of_led<const SIZE: usize>(bytes: &[u8]) -> Option<Scalar>
    requires size { (SIZE ≡ 2) ⊎ (SIZE ≡ 3) ⊎ (SIZE ≡ 4) }
    requires enough { SIZE ≤ length bytes.now }
    requires stands { StandsFrom 0xDF bytes.now }
    ensures { IfSome result (λ scalar. decoded bytes.now ≡ good scalar.code scalar.size) }
{
    if SIZE == 2 {
        return scalar_of_two(bytes);
    }
    if SIZE == 4 {
        return scalar_of_led_wide(bytes);
    }
    let code = scalar_of_led_three(bytes)?;
    Some(Scalar { code, size: 3 })
}
