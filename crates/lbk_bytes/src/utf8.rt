//! Units of 8 bits.

ghost use Rattle.bstr.specs.Utf8.{pieces};
ghost use Rattle.bstr.proofs.lemmas.PieceLemmas.{pieces-nil};

use crate::unit::{Unit, UnitScalar};
use bstr::decode_lossy;

impl Unit for u8 {
    ghost pieces_of = { pieces };

    ghost ends = { pieces-nil };

    /// One to four units are a scalar (Unicode Standard, section 3.9, table 3-7). The longest piece that begins none
    /// is read as one U+FFFD.
    #[inline(always)]
    fn front(units: &[u8]) -> UnitScalar {
        let (scalar, size) = decode_lossy(units);
        UnitScalar { scalar, size }
    }
}
