//! How many bytes scalars take. Each width is a type, so that a loop for one holds no code for the others: the compiler
//! drops `inline(always)` of a function that would grow very large.

ghost use Rattle.std.specs.Prelude.{◌≡◌, ℕ, ◌+◌, ◌<◌, ◌≤◌, List, IfSome, IsUtf8, length, slice_range};
ghost use Rattle.bstr.specs.Utf8.{decoded, good};

use crate::decoding::{scalar_of_four, scalar_of_led_three, scalar_of_led_two, scalar_of_one};
use lbk_scalars::{Scalar, scalar_of_led_wide, scalar_of_three, scalar_of_two, scalar_of_wide};

/// How many bytes a scalar takes.
pub(crate) trait Width {
    // How many bytes at most a scalar has after its first.
    ghost most_more: { ℕ };

    // How many it has at least.
    ghost least_size: { ℕ };

    // What must be known of a text.
    ghost known: { List ℕ → Type 0 };

    /// How many bytes at most a scalar of this width has after its first.
    fn more() -> usize
        ensures { result ≡ most_more };

    /// How many bytes it has at least.
    fn least() -> usize
        ensures { (result ≡ least_size) × (0 < result) × (result ≤ 4) };

    /// The scalar of this width at a byte of a text (Unicode Standard, table 3-7). None comes where none stands there.
    fn scalar_at(text: &[u8], at: usize) -> Option<Scalar>
        requires enough { at + most_more < length text.now }
        requires known { known text.now }
        ensures reads { IfSome result (λ scalar. decoded (slice_range text.now at (length text.now))
            ≡ good scalar.code scalar.size) }
        ensures size { IfSome result (λ scalar. least_size ≤ scalar.size) };
}

/// One byte.
pub(crate) struct One;

impl Width for One {
    ghost most_more = { 0 };

    ghost least_size = { 1 };

    ghost known = { λ text. Unit {0} };

    #[inline(always)]
    fn more() -> usize {
        0
    }

    #[inline(always)]
    fn least() -> usize {
        1
    }

    #[inline(always)]
    fn scalar_at(text: &[u8], at: usize) -> Option<Scalar> {
        scalar_of_one(&text[at..])
    }
}

/// Two.
pub(crate) struct Two;

impl Width for Two {
    ghost most_more = { 1 };

    ghost least_size = { 2 };

    ghost known = { λ text. Unit {0} };

    #[inline(always)]
    fn more() -> usize {
        1
    }

    #[inline(always)]
    fn least() -> usize {
        2
    }

    #[inline(always)]
    fn scalar_at(text: &[u8], at: usize) -> Option<Scalar> {
        scalar_of_two(&text[at..])
    }
}

/// Two, in well-formed text, where the first byte alone is looked at.
pub(crate) struct LedTwo;

impl Width for LedTwo {
    ghost most_more = { 1 };

    ghost least_size = { 2 };

    ghost known = { λ text. IsUtf8 text };

    #[inline(always)]
    fn more() -> usize {
        1
    }

    #[inline(always)]
    fn least() -> usize {
        2
    }

    #[inline(always)]
    fn scalar_at(text: &[u8], at: usize) -> Option<Scalar> {
        scalar_of_led_two(&text[at..])
    }
}

/// Three.
pub(crate) struct Three;

impl Width for Three {
    ghost most_more = { 2 };

    ghost least_size = { 3 };

    ghost known = { λ text. Unit {0} };

    #[inline(always)]
    fn more() -> usize {
        2
    }

    #[inline(always)]
    fn least() -> usize {
        3
    }

    #[inline(always)]
    fn scalar_at(text: &[u8], at: usize) -> Option<Scalar> {
        scalar_of_three(&text[at..])
    }
}

/// Three, in well-formed text, where the first byte alone is looked at.
pub(crate) struct LedThree;

impl Width for LedThree {
    ghost most_more = { 2 };

    ghost least_size = { 3 };

    ghost known = { λ text. IsUtf8 text };

    #[inline(always)]
    fn more() -> usize {
        2
    }

    #[inline(always)]
    fn least() -> usize {
        3
    }

    #[inline(always)]
    fn scalar_at(text: &[u8], at: usize) -> Option<Scalar> {
        scalar_of_led_three(&text[at..])
    }
}

/// Four.
pub(crate) struct Four;

impl Width for Four {
    ghost most_more = { 3 };

    ghost least_size = { 4 };

    ghost known = { λ text. Unit {0} };

    #[inline(always)]
    fn more() -> usize {
        3
    }

    #[inline(always)]
    fn least() -> usize {
        4
    }

    #[inline(always)]
    fn scalar_at(text: &[u8], at: usize) -> Option<Scalar> {
        scalar_of_four(&text[at..])
    }
}

/// Three or four, whichever the first byte says, with no jump on it.
pub(crate) struct ThreeOrFour;

impl Width for ThreeOrFour {
    ghost most_more = { 3 };

    ghost least_size = { 3 };

    ghost known = { λ text. Unit {0} };

    #[inline(always)]
    fn more() -> usize {
        3
    }

    #[inline(always)]
    fn least() -> usize {
        3
    }

    #[inline(always)]
    fn scalar_at(text: &[u8], at: usize) -> Option<Scalar> {
        scalar_of_wide(&text[at..])
    }
}

/// Three or four, in well-formed text, where the first byte alone is looked at.
pub(crate) struct LedThreeOrFour;

impl Width for LedThreeOrFour {
    ghost most_more = { 3 };

    ghost least_size = { 3 };

    ghost known = { λ text. IsUtf8 text };

    #[inline(always)]
    fn more() -> usize {
        3
    }

    #[inline(always)]
    fn least() -> usize {
        3
    }

    #[inline(always)]
    fn scalar_at(text: &[u8], at: usize) -> Option<Scalar> {
        scalar_of_led_wide(&text[at..])
    }
}
