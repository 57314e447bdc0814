//! A walk over the cells of all codes, range by range.

ghost use Rattle.std.specs.Prelude.{◌≡◌, ℕ, ◌+◌, ◌<◌, ◌≤◌, length, IfOk};
ghost use Rattle.lbk_rules.specs.FirstBytes.{AreTold};
ghost use Rattle.lbk_rules.specs.KindTable.{kind_at};
ghost use Rattle.lbk_rules.specs.Kinds.{kind_of};
ghost use Rattle.lbk_uax14.specs.Pages.{AreSame};

use crate::first_bytes::FirstBytes;
use crate::kind_table::KindTable;
use crate::runs::{CellRun, CellRuns};
use lbk_uax14::{CellRange, CellWalk};
use lbk_ucd::Places;
use std::alloc::{AllocError, Global};

/// The range that a walk is at, and what is known by kind alone of the codes up to its end. At most `MOST` codes have
/// their kinds told.
#[derive(Drop)]
pub(crate) struct Walk<'a, C: CellRuns, const MOST: usize> {
    source: &'a C,
    /// The first code of the range.
    pub(crate) first: u32,
    pub(crate) run: CellRun,
    pub(crate) kinds: KindTable,
    /// What the first bytes of scalars tell of those up to the end of the range.
    pub(crate) first_bytes: FirstBytes,
    ghost rises: { (first ≤ run.last) × (run.last ≤ 0x10FFFF) },
    ghost same: { AreSame (C.cell_at source.now) first run.last run.cell },
    ghost counted: { (length kinds.kinds.items ≤ run.last + 1) × (length kinds.kinds.items ≤ MOST) },
    ghost complete: { length kinds.kinds.items < MOST → length kinds.kinds.items ≡ run.last + 1 },
    ghost of_cells: { (code : ℕ) → code < length kinds.kinds.items
        → kind_at kinds code ≡ kind_of (C.cell_at source.now code) },
    ghost told: { AreTold (C.cell_at source.now) first_bytes (run.last + 1) },
}

impl<'a, C: CellRuns, const MOST: usize> Walk<'a, C, MOST> {
    /// At the first range.
    pub(crate) fn begin(alloc: Global, source: &'a C) -> Result<Walk<'a, C, MOST>, AllocError>
        ensures source { IfOk result (λ walk. walk.source.now ≡ source.now) }
        ensures first { IfOk result (λ walk. walk.first ≡ 0) }
    {
        let mut kinds = KindTable::with_room(alloc, MOST)?;
        let run = source.cell_run(0, Places::START);
        kinds.fill_to(MOST.min(run.last as usize + 1), run.cell)?;
        let mut first_bytes = FirstBytes::of_none();
        first_bytes.add(0, run.last, run.cell);
        Ok(Walk {
            source,
            first: 0,
            run,
            kinds,
            first_bytes,
        })
    }
}

impl<'a, C: CellRuns, const MOST: usize> CellWalk for Walk<'a, C, MOST> {
    ghost use Rattle.lbk_uax14.specs.declared.ranges.CellRange.{CellRange};

    ghost cell_at = { λ walk. C.cell_at walk.source.now };

    ghost at = { λ walk. record { first = walk.first; last = walk.run.last; cell = walk.run.cell } };

    #[inline(always)]
    fn range(&self) -> CellRange {
        CellRange {
            first: self.first,
            last: self.run.last,
            cell: self.run.cell,
        }
    }

    /// Goes on to the next range. On an error it stays where it is.
    fn go_on(&mut self) -> Result<(), AllocError>
        requires { self.old.run.last < 0x10FFFF }
        ensures source { self.new.source.now ≡ self.old.source.now }
        ensures next { IfOk result (λ _. self.new.first ≡ self.old.run.last + 1) }
    {
        let first = self.run.last + 1;
        let run = self.source.cell_run(first, self.run.places);
        let end = MOST.min(run.last as usize + 1);
        self.kinds.fill_to(end, run.cell)?;
        self.first_bytes.add(first, run.last, run.cell);
        self.first = first;
        self.run = run;
        Ok(())
    }
}
