//! The kind of a scalar: what the rules and words ask of it.

ghost use Rattle.std.specs.Prelude.{◌≡◌, ◌<◌};
ghost use Rattle.lbk_words.specs.Kinds.{kind_at};

use crate::kind_table::{KIND_INDEX, KIND_TAIL, KIND_WORDS};

/// The kind of a scalar.
#[inline(always)]
pub(crate) fn kind_of(code: u32) -> u32
    requires { code < 0x11_0000 }
    ensures kind { result ≡ kind_at code }
    ensures few { result < 32 }
{
    ucd_table::get::<8, 16>(&KIND_INDEX, &KIND_WORDS, &KIND_TAIL, code)
}
