//! Ranges of codes that have one cell.

ghost use Rattle.std.specs.Prelude.{ℕ, ◌≤◌};

use lbk_uax14::{Cell, resolve};
use lbk_ucd::{Places, Tables};

/// The cell that all codes from a given one to `last` have, and where it was found.
#[derive(Clone, Copy)]
pub(crate) struct CellRun {
    pub(crate) last: u32,
    pub(crate) cell: Cell,
    pub(crate) places: Places,
}

/// Something that knows the cells of ranges of codes.
pub(crate) trait CellRuns {
    ghost use Rattle.lbk_uax14.specs.declared.cells.Cell.{Cell};
    ghost use Rattle.lbk_uax14.specs.Pages.{AreSame};

    ghost cell_at: { Self → ℕ → Cell };

    /// The cell of a code, and a last code up to which all codes have it. It is found soon near the places of the
    /// range before.
    fn cell_run(&self, code: u32, near: Places) -> CellRun
        requires { code ≤ 0x10FFFF }
        ensures ends { (code ≤ result.last) × (result.last ≤ 0x10FFFF) }
        ensures same { AreSame (cell_at self.now) code result.last result.cell };
}

impl CellRuns for Tables {
    ghost use Rattle.lbk_rules.specs.CellOfTables.{cell_of_tables};

    ghost cell_at = { cell_of_tables };

    #[tactic(auto, unfolding(crate::specs::CellOfTables::cell_of_tables))]
    fn cell_run(&self, code: u32, near: Places) -> CellRun {
        let run = self.run(code, near);
        CellRun {
            last: run.last,
            cell: resolve(
                run.line_break,
                run.east_asian,
                run.category,
                run.is_pictographic,
            ),
            places: run.places,
        }
    }
}
