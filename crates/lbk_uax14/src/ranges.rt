//! Ranges of codes that have one cell.

ghost use Rattle.std.specs.Prelude.{◌≡◌, ℕ, ◌+◌, ◌<◌, ◌≤◌, IfOk};

use crate::cells::Cell;
use std::alloc::AllocError;

/// The cell of all codes from `first` to `last`.
#[derive(Clone, Copy)]
pub struct CellRange {
    pub first: u32,
    pub last: u32,
    pub cell: Cell,
}

/// A walk over the cells of all codes up to 10FFFF, range by range.
pub trait CellWalk {
    ghost use Rattle.lbk_uax14.specs.declared.cells.Cell.{Cell};
    ghost use Rattle.lbk_uax14.specs.declared.ranges.CellRange.{CellRange};
    ghost use Rattle.lbk_uax14.specs.Pages.{AreSame};

    // The cell of each code.
    ghost cell_at: { Self → ℕ → Cell };

    // The range that the walk is at.
    ghost at: { Self → CellRange };

    /// The range that the walk is at.
    fn range(&self) -> CellRange
        ensures at { result ≡ at self.now }
        ensures rises { (result.first ≤ result.last) × (result.last ≤ 0x10FFFF) }
        ensures same { AreSame (cell_at self.now) result.first result.last result.cell };

    /// Goes on to the next range. Returns an error only if an allocation fails.
    fn go_on(&mut self) -> Result<(), AllocError>
        requires { (at self.old).last < 0x10FFFF }
        ensures cells { cell_at self.new ≡ cell_at self.old }
        ensures next { IfOk result (λ _. (at self.new).first ≡ (at self.old).last + 1) };
}
