//! The scalars and marks of a line that is read.

ghost use Rattle.std.specs.Prelude.{ℕ, ◌++◌, ◌∷◌, [], ◌<◌, ◌^◌, List};
ghost use Rattle.lbk_notation.specs.Content.{Holds, IsAnswer};
ghost use Rattle.lbk_notation.specs.declared.marks.Mark as specs;

use super::faults::LineFault;
use super::marks::Mark;
use super::test_line::TestLine;
use std::alloc::Global;

/// The scalars and marks read of a line. Where memory could not grow for one of them they are only counted.
#[derive(Drop)]
pub(crate) struct Content {
    scalars: Vec<char>,
    marks: Vec<Mark>,
    is_short: bool,
    scalar_count: usize,
    mark_count: usize,
}

impl Content {
    /// Nothing read.
    pub(crate) fn new(alloc: Global) -> Content
        ensures { Holds result [] [] }
    {
        Content {
            scalars: Vec::new(alloc),
            marks: Vec::new(alloc),
            is_short: false,
            scalar_count: 0,
            mark_count: 0,
        }
    }

    /// Adds a scalar.
    pub(crate) fn add_scalar(&mut self, scalar: char)
        requires { self.old.scalar_count < 2 ^ 32 }
        ensures { (scalars : List ℕ) (marks : List specs.Mark) → Holds self.old scalars marks
            → Holds self.new (scalars ++ scalar ∷ []) marks }
    {
        if !self.is_short {
            self.is_short = self.scalars.push(scalar).is_err();
        }
        self.scalar_count += 1;
    }

    /// Adds a mark.
    pub(crate) fn add_mark(&mut self, mark: Mark)
        requires { self.old.mark_count < 2 ^ 32 }
        ensures { (scalars : List ℕ) (marks : List specs.Mark) → Holds self.old scalars marks
            → Holds self.new scalars (marks ++ mark ∷ []) }
    {
        if !self.is_short {
            self.is_short = self.marks.push(mark).is_err();
        }
        self.mark_count += 1;
    }

    /// The line of these, or `None` where there are no marks. `Memory` is returned instead of a line if memory could not
    /// grow for it.
    pub(crate) fn line(self) -> Result<Option<TestLine>, LineFault>
        requires { self.scalar_count < 2 ^ 32 }
        ensures { (scalars : List ℕ) (marks : List specs.Mark) → Holds self scalars marks
            → IsAnswer scalars marks result }
    {
        if !self.is_short {
            return Ok(TestLine::new(self.scalars, self.marks));
        }
        if self.mark_count == self.scalar_count + 1 {
            return Err(LineFault::Memory);
        }
        Ok(None)
    }
}
