//! The cells of a source, and what bytes tell of them.

ghost use Rattle.std.specs.Prelude.{◌≡◌};
ghost use Rattle.lbk_passage.specs.Flags.{AreLetters, AreQuiet};

use crate::flags::ByteFlags;
use lbk_rules::CellSource;
use lbk_words::Letters;

/// The cells of a source, with what is found out about them once, so that loops have it at hand.
#[derive(Drop)]
pub struct KnownCells<'a, C: CellSource> {
    pub(crate) cells: &'a C,
    pub(crate) flags: ByteFlags,
    ghost quiet: { AreQuiet (C.cell_of cells.now) flags.is_quiet },
    ghost letters: { AreLetters (C.cell_of cells.now) flags.lengths_told },
}

impl<'a, C: CellSource> KnownCells<'a, C> {
    /// The cells of this source.
    pub fn of(cells: &'a C) -> KnownCells<'a, C>
        ensures { result.cells.now ≡ cells.now }
    {
        KnownCells {
            cells,
            flags: ByteFlags::of(cells),
        }
    }
}

impl<'a, C: CellSource> Letters for KnownCells<'a, C> {
    ghost letter_of = { λ known code. (C.cell_of known.cells.now code).letter };

    /// Whether the cell of a scalar says that it is a letter or a number.
    #[inline(always)]
    fn is_letter(&self, code: u32) -> bool {
        // (what any bytes are read as is a scalar)
        let c = unsafe { char::from_u32_unchecked(code) };
        self.cells.cell(c).letter
    }
}
