//! The cells of all scalar values in pages, with the kinds of the first ones.

ghost use Rattle.std.specs.Prelude.{◌≡◌, ℕ, ◌<◌, length, IfOk, Some};
ghost use Rattle.std.specs.Char.{IsScalar};
ghost use Rattle.lbk_uax14.specs.PageCells.{cell_of_pages};
ghost use Rattle.lbk_rules.specs.FirstBytes.{AreLetters, AreQuiet};
ghost use Rattle.lbk_rules.specs.KindTable.{kind_at};
ghost use Rattle.lbk_rules.specs.Kinds.{AreKindsOf, kind_of, kinds_of_cells};
ghost use Rattle.lbk_rules.specs.Neighbours.{AreNeighboursOf};
ghost use Rattle.lbk_rules.specs.declared.neighbours.Neighbours.{Neighbours};
ghost use Rattle.lbk_rules.specs.declared.source.TheConstants.{FOUR_PLANES};

use crate::cell_table::CellTable;
use crate::first_bytes::FirstBytes;
use crate::kind_table::KindTable;
use crate::kinds::kind_of;
use crate::neighbours::{NO_NEIGHBOURS, Neighbours};
use crate::runs::CellRuns;
use crate::source::{CellSource, FOUR_PLANES};
use crate::walk::Walk;
use lbk_uax14::{Cell, Pages};
use lbk_ucd::Tables;
use std::alloc::{AllocError, Global};

/// The cells of all scalar values, for a look-up of two reads: the number of a page, and a cell in
/// it. Equal pages are kept once. Beside them the kinds of the cells of four planes, by which positions are
/// decided fast.
#[derive(Debug, Drop)]
pub struct CellPages {
    pages: Pages,
    kinds: KindTable,
    /// What the first bytes of scalars tell.
    first_bytes: FirstBytes,
    /// What the steps tell of bytes side by side, once it was found.
    neighbours: Option<Neighbours>,
    ghost near: { length kinds.kinds.items ≡ FOUR_PLANES },
    ghost same: { (code : ℕ) → IsScalar code → code < length kinds.kinds.items
        → kind_at kinds code ≡ kind_of (cell_of_pages pages code) },
    ghost quiet: { AreQuiet (cell_of_pages pages) first_bytes.are_quiet },
    ghost letters: { AreLetters (cell_of_pages pages) first_bytes.are_letters },
    ghost told: { (found : Neighbours) → neighbours ≡ Some found
        → AreNeighboursOf (kinds_of_cells (cell_of_pages pages)) found },
}

impl CellPages {
    ghost use Rattle.lbk_rules.specs.CellPages.{page_cell};
    ghost use Rattle.lbk_rules.specs.CellOfTables.{cell_of_tables};

    /// The pages of these tables: each scalar value has its cell of the tables. Returns an error only if an allocation
    /// fails.
    pub fn build(alloc: Global, tables: &Tables) -> Result<CellPages, AllocError>
        ensures { IfOk result (λ pages. (code : ℕ) → IsScalar code
            → page_cell pages code ≡ cell_of_tables tables.now code) }
    {
        let mut pages = CellPages::build_over(alloc, tables)?;
        pages.find_neighbours();
        Ok(pages)
    }

    /// Finds what the steps tell of bytes side by side, and keeps it.
    fn find_neighbours(&mut self)
        ensures { page_cell self.new ≡ page_cell self.old }
    {
        let found = Neighbours::of_kinds(&CellTable::new(&*self));
        self.neighbours = Some(found);
    }

    /// The pages of any source.
    fn build_over<C: CellRuns>(alloc: Global, source: &C) -> Result<CellPages, AllocError>
        ensures { IfOk result (λ pages. (code : ℕ) → IsScalar code
            → page_cell pages code ≡ C.cell_at source.now code) }
    {
        let mut walk = Walk::<C, FOUR_PLANES>::begin(alloc, source)?;
        let pages = Pages::build(alloc, &mut walk)?;
        Ok(CellPages {
            pages,
            kinds: walk.kinds,
            first_bytes: walk.first_bytes,
            neighbours: None,
        })
    }
}

impl CellSource for CellPages {
    ghost use Rattle.lbk_rules.specs.CellPages.{page_cell};

    ghost cell_of = { page_cell };

    #[tactic(auto, unfolding(crate::specs::CellPages::page_cell))]
    fn cell(&self, c: char) -> Cell {
        self.pages.cell(c)
    }

    #[inline(always)]
    #[tactic(auto, unfolding(crate::specs::CellPages::page_cell))]
    fn kind(&self, c: char) -> u8 {
        match self.kinds.of(c) {
            Some(kind) => kind,
            None => kind_of(self.cell(c)),
        }
    }

    #[inline]
    #[tactic(auto, unfolding(crate::specs::CellPages::page_cell, crate::specs::KindTable::kind_at))]
    fn kinds(&self) -> &[u8]
        ensures count { length result.now ≡ FOUR_PLANES }
        ensures kinds { AreKindsOf (page_cell self.now) result.now }
    {
        &self.kinds.kinds
    }

    #[inline(always)]
    fn neighbours(&self) -> &Neighbours {
        match &self.neighbours {
            Some(found) => found,
            None => &NO_NEIGHBOURS,
        }
    }

    #[tactic(auto, unfolding(crate::specs::CellPages::page_cell))]
    fn quiet_first_bytes(&self) -> [bool; 256] {
        self.first_bytes.are_quiet
    }

    #[tactic(auto, unfolding(crate::specs::CellPages::page_cell))]
    fn letter_first_bytes(&self) -> [bool; 256] {
        self.first_bytes.are_letters
    }
}
