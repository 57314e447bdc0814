//! The breaks of a text as numbers.

ghost use Rattle.std.specs.Prelude.{◌≡◌, length, min, take, drop};
ghost use Rattle.std.specs.Str.{chars};
ghost use Rattle.lbk_rules.specs.Breaks.{breaks};
ghost use Rattle.lbk_bytes.specs.Order.{AreBreaks};
ghost use Rattle.lbk_bytes.specs.Shown.{given_in};

use crate::found::{Progress, START, find};
use lbk_bytes::RawBreak;
use lbk_rules::{CellSource, Profile};
use std::marker::Model;

/// The breaks of a text as numbers, a block at a time: those of `Breaks`, found into the caller's block.
#[derive(Drop)]
pub struct RawBreaks<'a, C: CellSource> {
    cells: &'a C,
    profile: Profile,
    text: &'a str,
    progress: Progress,
}

// Its value is the list of the breaks that are left.
impl<'a, C: CellSource> Model for RawBreaks<'a, C> {
    ghost use Rattle.std.specs.Prelude.{List};
    ghost use Rattle.lbk_rules.specs.declared.Break.{Break};
    ghost use Rattle.lbk_passage.specs.Found.{IsFound, left_after};

    ghost Value = { List Break };

    ghost view = { λ b. left_after b.profile (C.cell_of b.cells.now) b.text.now b.progress };

    ghost invariant = { λ b. IsFound b.profile (C.cell_of b.cells.now) b.text.now b.progress };
}

impl<'a, C: CellSource> RawBreaks<'a, C> {
    /// All breaks of a text by these cells and the rules of the profile (UAX #14, section 6).
    pub fn new(cells: &'a C, text: &'a str, profile: Profile) -> RawBreaks<'a, C>
        ensures { result ≡ breaks profile (C.cell_of cells.now) (chars text.now) }
    {
        RawBreaks {
            cells,
            profile,
            text,
            progress: START,
        }
    }

    /// Writes the next breaks to the front of the block, as many as it holds or all that are left, and returns how
    /// many: 0 at the end, or if the block has no room. The entries of the block after them are unspecified.
    pub fn fill(&mut self, block: &mut [RawBreak]) -> usize
        ensures count { result ≡ min (length block.old) (length self.old) }
        ensures breaks { AreBreaks block.new result }
        ensures front { given_in block.new result ≡ take result self.old }
        ensures rest { self.new ≡ drop result self.old }
    {
        let found = find(self.cells, self.profile, self.text, self.progress, block);
        let count = found.state.count - self.progress.state.count;
        self.progress = found;
        count
    }
}
