//! Sources of cells: what knows the cell of each scalar value.

ghost use Rattle.std.specs.Prelude.{◌≡◌, ℕ};

use crate::kinds::kind_of;
use crate::neighbours::{NO_NEIGHBOURS, Neighbours};
use lbk_uax14::{Cell, resolve};
use lbk_ucd::Tables;

/// How many codes the planes 0 to 3 have, in which nearly all text lies.
pub const FOUR_PLANES: usize = 0x4_0000;

/// Of no first byte anything is known.
const NONE_KNOWN: [bool; 256] = [false; 256];

/// Something that knows the cell of each scalar value.
pub trait CellSource {
    ghost use Rattle.lbk_rules.specs.FirstBytes.{AreLetters, AreQuiet};
    ghost use Rattle.lbk_rules.specs.Kinds.{kinds_of_cells};
    ghost use Rattle.lbk_rules.specs.Kinds.{AreKindsOf, kind_of};
    ghost use Rattle.lbk_rules.specs.Neighbours.{AreTold};
    ghost use Rattle.lbk_rules.specs.Rows.{steps_in};
    ghost use Rattle.lbk_rules.specs.Terms.{Cell, Profile};

    ghost cell_of: { Self → ℕ → Cell };

    /// The cell of `c` (UAX #14, section 6.1, rule LB1).
    fn cell(&self, c: char) -> Cell
        ensures { result ≡ cell_of self.now c };

    /// The kind of `c`: a number for all that the rules ask of its cell.
    #[inline]
    fn kind(&self, c: char) -> u8
        ensures { result ≡ kind_of (cell_of self.now c) }
    {
        kind_of(self.cell(c))
    }

    /// The kinds of the first codes, as many as the source keeps, or none. Where it keeps those of [`FOUR_PLANES`] a
    /// loop finds the kinds of nearly all text by one read each.
    #[inline]
    fn kinds(&self) -> &[u8]
        ensures { AreKindsOf (cell_of self.now) result.now }
    {
        &[]
    }

    /// What the steps tell of bytes side by side, where the source keeps it: by that breaks are found many bytes at a
    /// time.
    #[inline]
    fn neighbours(&self) -> &Neighbours
        ensures { (profile : Profile) → AreTold (steps_in profile) (kinds_of_cells (cell_of self.now)) result.now }
    {
        &NO_NEIGHBOURS
    }

    /// For each byte whether it is known that a line must end after no scalar that begins with it (UAX #14, rules LB4
    /// and LB5). A text is cut into paragraphs without it too, only slower.
    fn quiet_first_bytes(&self) -> [bool; 256]
        ensures { AreQuiet (cell_of self.now) result }
    {
        NONE_KNOWN
    }

    /// For each byte whether it is known that each scalar that begins with it is a letter or a number. A text is cut
    /// into words without it too, only slower.
    fn letter_first_bytes(&self) -> [bool; 256]
        ensures { AreLetters (cell_of self.now) result }
    {
        NONE_KNOWN
    }
}

impl CellSource for Tables {
    ghost use Rattle.lbk_rules.specs.CellOfTables.{cell_of_tables};

    ghost cell_of = { cell_of_tables };

    #[tactic(auto, unfolding(crate::specs::CellOfTables::cell_of_tables))]
    fn cell(&self, c: char) -> Cell {
        let code = u32::from(c);
        resolve(
            self.line_break(code),
            self.east_asian(code),
            self.category(code),
            self.is_pictographic(code),
        )
    }
}
