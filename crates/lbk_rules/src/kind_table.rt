//! The kinds of the first codes, for a look-up of one read.

ghost use Rattle.std.specs.Prelude.{◌≡◌, ℕ, ◌<◌, ◌≤◌, [], length, slice_index, IfOk, IfSome, OnErr};
ghost use Rattle.lbk_rules.specs.Kinds.{kind_of};

use crate::flat_table::CODES;
use crate::kinds::{KINDS, kind_of};
use crate::runs::CellRuns;
use crate::walk::Walk;
use lbk_uax14::{Cell, CellWalk};
use std::alloc::{AllocError, Global};

/// The kind of each of the first codes.
#[derive(Debug, Drop)]
pub(crate) struct KindTable {
    pub(crate) kinds: Vec<u8>,
    ghost few: { (code : ℕ) → slice_index kinds.items code < 84 },
}

impl KindTable {
    ghost use Rattle.lbk_rules.specs.KindTable.{kind_at};

    /// No kinds yet, with room for so many.
    pub(crate) fn with_room(alloc: Global, most: usize) -> Result<KindTable, AllocError>
        ensures { IfOk result (λ table. table.kinds.items ≡ []) }
    {
        let kinds = Vec::with_capacity(alloc, most)?;
        Ok(KindTable { kinds })
    }

    /// The kinds of all codes' cells in the source. Returns an error only if an allocation fails.
    pub(crate) fn build<C: CellRuns>(alloc: Global, source: &C) -> Result<KindTable, AllocError>
        ensures complete { IfOk result (λ table. length table.kinds.items ≡ 0x11_0000) }
        ensures kinds { IfOk result (λ table. (code : ℕ) → code < 0x11_0000
            → kind_at table code ≡ kind_of (C.cell_at source.now code)) }
    {
        let mut walk = Walk::<C, CODES>::begin(alloc, source)?;
        while walk.kinds.kinds.len() < CODES {
            walk.go_on()?;
        }
        Ok(walk.kinds)
    }

    /// Gives all codes before `end` that have no kind yet that of this cell. On an error it stays as it was.
    #[tactic(auto, unfolding(crate::specs::KindTable::kind_at))]
    pub(crate) fn fill_to(&mut self, end: usize, cell: Cell) -> Result<(), AllocError>
        ensures longer { length self.old.kinds.items ≤ length self.new.kinds.items }
        ensures filled { IfOk result (λ _. end ≤ length self.new.kinds.items) }
        ensures no_more { length self.old.kinds.items < length self.new.kinds.items → length self.new.kinds.items ≡ end }
        ensures kept { (code : ℕ) → code < length self.old.kinds.items → kind_at self.new code
            ≡ kind_at self.old code }
        ensures added { (code : ℕ) → length self.old.kinds.items ≤ code → code < length self.new.kinds.items
            → kind_at self.new code ≡ kind_of cell }
        ensures untouched { OnErr result (self.new.kinds.items ≡ self.old.kinds.items) }
    {
        if self.kinds.len() < end {
            self.kinds.resize(end, kind_of(cell))?;
        }
        Ok(())
    }

    /// The kind of `c`, if it is among the first codes.
    #[inline(always)]
    #[tactic(auto, unfolding(crate::specs::KindTable::kind_at))]
    pub(crate) fn of(&self, c: char) -> Option<u8>
        ensures kind { IfSome result (λ kind. (c < length self.now.kinds.items) × (kind ≡ kind_at self.now c)) }
        ensures few { IfSome result (λ kind. kind < KINDS) }
    {
        self.kinds.get(c as usize).copied()
    }
}
