//! Code units, and the scalars that they spell.

ghost use Rattle.std.specs.Prelude.{◌≡◌, ℕ, ◌<◌, List, [], IfSome, length};
ghost use Rattle.std.specs.Char.{IsScalar};
ghost use Rattle.std.specs.Option.{SomeIff};
ghost use Rattle.bstr.specs.Utf8.{Decoded};
ghost use Rattle.lbk_bytes.specs.Front.{IsFront};

/// The scalar that some units begin with, and how many of them spell it.
#[derive(Clone, Copy)]
pub struct UnitScalar {
    /// The scalar, or U+FFFD where none is spelled.
    pub scalar: char,
    /// How many units it takes: where none is spelled, one, or in UTF-8 all that could have begun one.
    pub size: usize,
}

/// A code unit of an encoding form (Unicode Standard, section 3.9).
pub trait Unit: Copy {
    ghost pieces_of: { List Self → List Decoded };

    /// The scalar at the front of some units, which are not empty.
    fn front(units: &[Self]) -> UnitScalar
        requires { 0 < length units.now }
        ensures { IsFront pieces_of units.now result };

    /// The code of that scalar, if the first of the units spells it by itself. Where this is not seen at once there may
    /// be none.
    #[inline(always)]
    fn alone(units: &[Self]) -> Option<u32>
        requires { 0 < length units.now }
        ensures { IfSome result (λ code. IsScalar code
            × IsFront pieces_of units.now (record { scalar = code; size = 1 })) }
    {
        let found = Self::front(units);
        if found.size == 1 {
            Some(found.scalar as u32)
        } else {
            None
        }
    }

    ghost ends: { pieces_of [] ≡ [] };
}

/// The code of a scalar, if a number is one, as `char::from_u32` tells, by tests that take fewer instructions.
#[inline(always)]
pub(crate) fn code_of(number: u32) -> Option<u32>
    ensures { SomeIff result (IsScalar number) number }
{
    if number / 0x800 == 0xD800 / 0x800 || 0x10_FFFF < number {
        None
    } else {
        Some(number)
    }
}
