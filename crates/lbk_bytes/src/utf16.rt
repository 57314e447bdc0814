//! Units of 16 bits.

ghost use Rattle.std.specs.Prelude.{◌<◌, ◌≤◌, map, slice_index_or};
ghost use Rattle.std.proofs.Common.{ap};
ghost use Rattle.std.proofs.lemmas.Str.{utf16_chars-nil};
ghost use Rattle.lbk_bytes.specs.Front.{IsFront};
ghost use Rattle.lbk_bytes.specs.Pieces.{pieces_of_utf16, utf16_piece};

use crate::unit::{Unit, UnitScalar, code_of};

/// A surrogate without its other half.
const LONE: UnitScalar = UnitScalar {
    scalar: '\u{FFFD}',
    size: 1,
};

impl Unit for u16 {
    ghost pieces_of = { pieces_of_utf16 };

    ghost ends = { ap (map utf16_piece) utf16_chars-nil };

    /// A unit that is no surrogate is its scalar (Unicode Standard, section 3.9, D91).
    #[inline(always)]
    fn front(units: &[u16]) -> UnitScalar {
        match char::from_u32(u32::from(units[0])) {
            Some(scalar) => UnitScalar { scalar, size: 1 },
            None => front_surrogate(units),
        }
    }

    /// A surrogate is left to the other call, whatever follows it.
    #[inline(always)]
    fn alone(units: &[u16]) -> Option<u32> {
        code_of(u32::from(units[0]))
    }
}

/// The scalar at the front of units that begin with a surrogate: that of a pair (Unicode Standard, table 3-5), or none.
fn front_surrogate(units: &[u16]) -> UnitScalar
    requires { (0xD800 ≤ slice_index_or units.now 0 0) × (slice_index_or units.now 0 0 < 0xE000) }
    ensures { IsFront pieces_of_utf16 units.now result }
{
    let high = u32::from(units[0]);
    if 0xDBFF < high || units.len() < 2 {
        return LONE;
    }
    let low = u32::from(units[1]);
    if low < 0xDC00 || 0xDFFF < low {
        return LONE;
    }
    match char::from_u32(0x1_0000 + (high - 0xD800) * 0x400 + (low - 0xDC00)) {
        Some(scalar) => UnitScalar { scalar, size: 2 },
        None => LONE,
    }
}
