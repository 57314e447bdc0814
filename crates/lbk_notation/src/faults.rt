//! Why a line of the notation could not be read.

ghost use Rattle.std.specs.Prelude.{◌≡◌};
ghost use Rattle.lbk_notation.specs.declared.faults.LineFault.TheVariants.{Memory};

use std::alloc::AllocError;

/// Why a line could not be read.
#[derive(Clone, Copy, PartialEq, Eq, Debug, Drop)]
pub enum LineFault {
    /// It has more than 268,435,456 bytes.
    LineTooLong,
    /// It is not a line of the notation: no line begins with its bytes up to and including the one at `at`, counted
    /// from 0. If `at` is its length, it ends too early.
    Bad { at: u32 },
    /// An allocation failed.
    Memory,
}

impl From<AllocError> for LineFault {
    ghost from_gives = { λ _ fault. fault ≡ Memory };

    fn from(_: AllocError) -> LineFault {
        LineFault::Memory
    }
}
