//! The cells of property files.

ghost use Rattle.std.specs.Prelude.{◌≡◌, IfOk, IfErr, OnOk, MatchResult};
ghost use Rattle.lbk_ucd.specs.Files.{AreLawful};
ghost use Rattle.lbk_rules.specs.CellPages.{page_cell};
ghost use Rattle.lbk_files.specs.Cells.{AreCellsOf};
ghost use Rattle.lbk_files.specs.CellsRefusal.{IsCellsRefusal};
ghost use Rattle.lbk_files.specs.SampleFiles.{AreSampleCells, IsSampleFault};

use super::faults::CellsFault;
use lbk_rules::CellPages;
use lbk_ucd::{Files, SAMPLE_CATEGORY, SAMPLE_EAST_ASIAN, SAMPLE_EMOJI, SAMPLE_LINE_BREAK, Tables};
use std::alloc::Global;

/// The sample files, small files of this project; the program uses them if it is given no others.
pub const SAMPLE_FILES: Files<'static> = Files {
    line_break: SAMPLE_LINE_BREAK,
    east_asian: SAMPLE_EAST_ASIAN,
    category: SAMPLE_CATEGORY,
    emoji: SAMPLE_EMOJI,
};

/// The cells of all scalar values, by four property files (UAX #14, section 6.1, rule LB1).
///
/// Returns `Tables` for the first fault of the files, or for the line at which their tables could not grow, and
/// `Memory` if the pages could not grow.
///
/// ```rust
/// let cells = read_cells(rt.alloc(), SAMPLE_FILES)?;
/// ```
pub fn read_cells(alloc: Global, files: Files<'_>) -> Result<CellPages, CellsFault>
    ensures lawful { OnOk result (AreLawful files.entry) }
    ensures cells { IfOk result (λ pages. AreCellsOf files.entry (page_cell pages)) }
    ensures refused { IfErr result (IsCellsRefusal files.entry) }
{
    let tables = Tables::read(alloc, files).map_err(CellsFault::Tables)?;
    CellPages::build(alloc, &tables).map_err(|_| CellsFault::Memory)
}

/// The cells of the sample files. Fails only if memory runs out.
pub fn sample_cells(alloc: Global) -> Result<CellPages, CellsFault>
    ensures { MatchResult result (λ pages. AreSampleCells (page_cell pages)) IsSampleFault }
{
    read_cells(alloc, SAMPLE_FILES)
}
