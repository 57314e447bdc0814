//! The result of a line of a test file.

ghost use Rattle.std.specs.Prelude.{IfOk, OnErr};
ghost use Rattle.lbk_notation.specs.Fault.{HasMarks};
ghost use Rattle.lbk_notation.specs.Findings.{IsFinding};

use super::faults::LineFault;
use super::findings::Finding;
use super::line_reading::read_line;
use super::marks::Form;
use super::outcome::replay_line;
use lbk_rules::{CellSource, Profile};
use std::alloc::{AllocError, Global};

/// The rules and the form for comparing the lines of a file.
#[derive(Drop)]
pub struct Replayer<'a, C: CellSource> {
    pub cells: &'a C,
    pub form: Form,
    pub profile: Profile,
}

impl<C: CellSource> Replayer<'_, C> {
    /// The result of a line without its line end. An error comes only for a line with marks.
    pub fn finding(&self, alloc: Global, line: &[u8]) -> Result<Finding, AllocError>
        ensures finding { IfOk result
            (IsFinding (C.cell_of self.now.cells.now) self.now.form self.now.profile line.now) }
        ensures memory { OnErr result (HasMarks self.now.form line.now) }
    {
        match read_line(alloc, line, self.form) {
            Ok(None) => Ok(Finding::NoLine),
            Ok(Some(line)) => Ok(Finding::Replayed(replay_line(
                self.cells,
                &line,
                self.form,
                self.profile,
            ))),
            Err(LineFault::LineTooLong) => Ok(Finding::Long),
            Err(LineFault::Bad { at }) => Ok(Finding::Bad { at }),
            Err(LineFault::Memory) => Err(AllocError),
        }
    }
}
