//! The cells of a task.

use lbk_rules::{Cell, CellPages, CellSource, Neighbours, UnicodeCells};

/// The cells of a task: those that are built in, or those of property files.
#[derive(Drop)]
pub enum TaskCells {
    BuiltIn(UnicodeCells),
    OfFiles(CellPages),
}

impl CellSource for TaskCells {
    ghost use Rattle.lbk_files.specs.TaskCells.{cell_of_task};

    ghost cell_of = { cell_of_task };

    fn cell(&self, c: char) -> Cell {
        match self {
            TaskCells::BuiltIn(cells) => cells.cell(c),
            TaskCells::OfFiles(pages) => pages.cell(c),
        }
    }

    fn kind(&self, c: char) -> u8 {
        match self {
            TaskCells::BuiltIn(cells) => cells.kind(c),
            TaskCells::OfFiles(pages) => pages.kind(c),
        }
    }

    fn kinds(&self) -> &[u8] {
        match self {
            TaskCells::BuiltIn(cells) => cells.kinds(),
            TaskCells::OfFiles(pages) => pages.kinds(),
        }
    }

    fn neighbours(&self) -> &Neighbours {
        match self {
            TaskCells::BuiltIn(cells) => cells.neighbours(),
            TaskCells::OfFiles(pages) => pages.neighbours(),
        }
    }

    fn quiet_first_bytes(&self) -> [bool; 256] {
        match self {
            TaskCells::BuiltIn(cells) => cells.quiet_first_bytes(),
            TaskCells::OfFiles(pages) => pages.quiet_first_bytes(),
        }
    }

    fn letter_first_bytes(&self) -> [bool; 256] {
        match self {
            TaskCells::BuiltIn(cells) => cells.letter_first_bytes(),
            TaskCells::OfFiles(pages) => pages.letter_first_bytes(),
        }
    }
}
