//! Units of 32 bits.

ghost use Rattle.std.specs.Prelude.{refl};
ghost use Rattle.lbk_bytes.specs.Pieces.{pieces_of_utf32};

use crate::unit::{Unit, UnitScalar, code_of};

impl Unit for u32 {
    ghost pieces_of = { pieces_of_utf32 };

    ghost ends = { refl };

    /// A unit is its scalar (Unicode Standard, section 3.9, D90). A surrogate and a number above 10FFFF are none.
    #[inline(always)]
    fn front(units: &[u32]) -> UnitScalar {
        UnitScalar {
            scalar: char::from_u32(units[0]).unwrap_or('\u{FFFD}'),
            size: 1,
        }
    }

    /// A number that is no scalar is left to the other call.
    #[inline(always)]
    fn alone(units: &[u32]) -> Option<u32> {
        code_of(units[0])
    }
}
