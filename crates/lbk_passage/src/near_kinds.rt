//! The cells of a source as kinds, where it keeps those of four planes side by side.

ghost use Rattle.std.specs.Prelude.{◌≡◌, ◌≤◌, ◌<◌, ◌↔◌, length, IfSome, IsNone};
ghost use Rattle.lbk_rules.specs.CellTable.{cell_in};
ghost use Rattle.lbk_rules.specs.FlatTable.{IsFlatBy};
ghost use Rattle.lbk_rules.specs.Kinds.{AreKindsOf};
ghost use Rattle.lbk_rules.specs.declared.source.TheConstants.{FOUR_PLANES};

use lbk_rules::{CellSource, CellTable, FOUR_PLANES, KindSource, Neighbours};

/// What a [`CellTable`] is, over a source that keeps the kinds of [`FOUR_PLANES`]. How many these are is known before the
/// program runs: so a loop over scalars of up to three bytes neither asks whether a kind is kept nor calls the source.
#[derive(Drop)]
pub(crate) struct NearKinds<'a, C: CellSource> {
    table: CellTable<'a, C>,
    kinds: &'a [u8],
    ghost same: { AreKindsOf (cell_in C.cell_of table) kinds.now },
    ghost near: { FOUR_PLANES ≤ length kinds.now },
}

impl<'a, C: CellSource> NearKinds<'a, C> {
    ghost use Rattle.lbk_passage.specs.NearKinds.{kinds_in, pairs_in};

    /// The kinds of these cells, or `None` where those that their source keeps are fewer than those of four planes.
    #[inline(always)]
    pub(crate) fn of(cells: &'a C, kinds: &'a [u8]) -> Option<NearKinds<'a, C>>
        requires { AreKindsOf (C.cell_of cells.now) kinds.now }
        ensures none { IsNone result ↔ (length kinds.now < FOUR_PLANES) }
        ensures table { IfSome result (λ table. IsFlatBy (kinds_in C.cell_of table) (pairs_in table) (C.cell_of cells.now)
            × (cell_in C.cell_of table.table ≡ C.cell_of cells.now)) }
    {
        if kinds.len() < FOUR_PLANES {
            return None;
        }
        Some(NearKinds {
            table: CellTable::new(cells),
            kinds,
        })
    }
}

impl<'a, C: CellSource> KindSource for NearKinds<'a, C> {
    ghost use Rattle.lbk_passage.specs.NearKinds.{kinds_in, pairs_in};

    ghost kinds_of = { kinds_in C.cell_of };

    ghost pairs_of = { pairs_in };

    #[inline(always)]
    fn kind_at(&self, code: u32) -> u8 {
        let place = code as usize;
        if place < FOUR_PLANES {
            self.kinds[place]
        } else {
            self.table.kind_at(code)
        }
    }

    #[inline(always)]
    fn pairs(&self) -> &Neighbours {
        self.table.pairs()
    }
}
