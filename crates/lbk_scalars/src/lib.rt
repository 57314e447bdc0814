//! The scalars of two to four bytes, read without a call.
#![tactic(auto)]

ghost use Rattle.std.specs.Prelude.{◌≡◌, ℕ, ◌+◌, ◌*◌, ◌<◌, ◌≤◌, ◌⊎◌, false, true, length, IfSome};
ghost use Rattle.bstr.specs.Utf8.{continues, decoded, good};
ghost use Rattle.lbk_scalars.specs.Stands.{StandsFrom};

mod scalar;
mod wide;

pub use scalar::{Scalar, code_of_two, scalar_of_three, scalar_of_two};
pub use wide::{scalar_of_led_wide, scalar_of_wide};

/// The code of the scalar at the front of some bytes, which begin with one, if it has three. What they spell tells it: no
/// scalar of two bytes or of four spells as much.
#[inline(always)]
pub fn scalar_of_led_three(bytes: &[u8]) -> Option<u32>
    requires enough { 3 ≤ length bytes.now }
    requires stands { StandsFrom 0xDF bytes.now }
    ensures reads { IfSome result (λ code. decoded bytes.now ≡ good code 3) }
    ensures none { result ≡ None → (code : ℕ) → ¬ (decoded bytes.now ≡ good code 3) }
    ensures few { IfSome result (λ code. code < 0x1_0000) }
{
    let spelled = joined(joined(u32::from(bytes[0]), bytes[1]), bytes[2]);
    let more = spelled.wrapping_sub(MARKS_OF_THREE + LEAST_OF_THREE);
    if MORE_OF_THREE < more {
        return None;
    }
    Some(more + LEAST_OF_THREE)
}

/// The least code of a scalar that takes three bytes.
const LEAST_OF_THREE: u32 = 0x800;

/// How much the greatest is more.
const MORE_OF_THREE: u32 = 0xF7FF;

/// Whether a byte may follow the first byte of a scalar.
#[inline(always)]
pub fn is_continuation(byte: u8) -> bool
    ensures { result ≡ continues byte }
{
    0x7F < byte && byte < 0xC0
}

/// A number with the bits of one byte more of a scalar behind it.
#[inline(always)]
pub fn joined(before: u32, byte: u8) -> u32
    requires { before < 0x100_0000 }
    ensures { result ≡ before * 64 + byte }
{
    before * 64 + u32::from(byte)
}

/// What three joined bytes that spell a scalar are more than its code: the joined E0 80 80.
pub const MARKS_OF_THREE: u32 = 0xE_2080;

/// Whether three joined bytes spell a scalar that takes three: it is of no fewer and no more, and no surrogate. The
/// bounds are those of its code, and `MARKS_OF_THREE` more. So the first byte need not be looked at.
#[inline(always)]
pub fn takes_three(spelled: u32) -> bool
    ensures takes { result ≡ true → (0xE_2880 ≤ spelled) × (spelled < 0xF_2080)
        × (spelled < 0xE_F880 ⊎ 0xF_0080 ≤ spelled) }
    ensures others { result ≡ false → (spelled < 0xE_2880) ⊎ (0xF_2080 ≤ spelled)
        ⊎ ((0xE_F880 ≤ spelled) × (spelled < 0xF_0080)) }
{
    0xE_287F < spelled && spelled < 0xF_2080 && (spelled < 0xE_F880 || 0xF_007F < spelled)
}
