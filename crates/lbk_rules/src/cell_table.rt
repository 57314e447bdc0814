//! The cells of a source as kinds, with what the steps tell of bytes side by side.

ghost use Rattle.std.specs.Prelude.{◌≡◌};
ghost use Rattle.std.specs.Char.{IsScalar};
ghost use Rattle.lbk_rules.specs.Kinds.{AreKindsOf, kind_of};

use crate::kind_source::KindSource;
use crate::neighbours::Neighbours;
use crate::source::CellSource;

/// What a [`FlatTable`](crate::FlatTable) is, over the cells of a source: it asks the source for the kind of each
/// scalar but the first ones, and keeps nothing itself.
#[derive(Drop)]
pub struct CellTable<'a, C: CellSource> {
    cells: &'a C,
    /// The kinds of the first codes, kept here so that a loop reads them without asking the source where they are.
    kinds: &'a [u8],
    /// What the steps tell of bytes side by side.
    pairs: &'a Neighbours,
    ghost same: { AreKindsOf (C.cell_of cells.now) kinds.now },
}

impl<'a, C: CellSource> CellTable<'a, C> {
    ghost use Rattle.lbk_rules.specs.FlatTable.{IsFlatBy};
    ghost use Rattle.lbk_rules.specs.CellTable.{cell_in, kinds_in, pairs_in};

    /// The table of these cells.
    #[inline(always)]
    pub fn new(cells: &'a C) -> CellTable<'a, C>
        ensures cells { cell_in C.cell_of result ≡ C.cell_of cells.now }
        ensures table { IsFlatBy (kinds_in C.cell_of result) (pairs_in result) (C.cell_of cells.now) }
    {
        CellTable {
            cells,
            kinds: cells.kinds(),
            pairs: cells.neighbours(),
        }
    }
}

impl<'a, C: CellSource> KindSource for CellTable<'a, C> {
    ghost use Rattle.lbk_rules.specs.CellTable.{kinds_in, pairs_in};

    ghost kinds_of = { kinds_in C.cell_of };

    ghost pairs_of = { pairs_in };

    #[inline(always)]
    fn kind_at(&self, code: u32) -> u8 {
        match self.kinds.get(code as usize) {
            Some(kind) => *kind,
            None => kind_in(self.cells, code),
        }
    }

    #[inline(always)]
    fn pairs(&self) -> &Neighbours {
        self.pairs
    }
}

/// The kind of a code by the source itself, out of the way of a loop that reads kinds.
#[cold]
#[inline(never)]
fn kind_in<C: CellSource>(cells: &C, code: u32) -> u8
    ensures { IsScalar code → result ≡ kind_of (C.cell_of cells.now code) }
{
    match char::from_u32(code) {
        Some(c) => cells.kind(c),
        None => 0,
    }
}
