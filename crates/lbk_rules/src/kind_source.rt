//! Sources of kinds: what knows the kind of each scalar value's cell, and what the steps tell of bytes side by side.

ghost use Rattle.std.specs.Prelude.{◌≡◌, ℕ, List, slice_index};
ghost use Rattle.std.specs.Char.{IsScalar};

use crate::kinds::{KINDS, cell_of_kind};
use crate::neighbours::Neighbours;
use crate::steps::WIDTH;
use lbk_uax14::Cell;

/// Something that knows the kind of each scalar value's cell: a [`FlatTable`](crate::FlatTable), or the cells of a
/// source.
pub trait KindSource {
    ghost use Rattle.lbk_rules.specs.declared.neighbours.Neighbours.{Neighbours};
    ghost use Rattle.lbk_rules.specs.FlatTable.{AreFlatKinds};
    ghost use Rattle.lbk_rules.specs.Terms.{Cell, normal};

    // The kinds of all codes.
    ghost kinds_of: { Self → List ℕ };

    // What it has of bytes side by side.
    ghost pairs_of: { Self → Neighbours };

    /// The kind of a scalar value's cell.
    fn kind_at(&self, code: u32) -> u8
        requires { IsScalar code }
        ensures { result ≡ slice_index (kinds_of self.now) code };

    /// What the steps tell of bytes side by side.
    fn pairs(&self) -> &Neighbours
        ensures { result.now ≡ pairs_of self.now };

    /// The kind of the scalar value that is this byte.
    #[inline(always)]
    fn kind_of_byte(&self, byte: u8) -> u8
        ensures { result ≡ slice_index (kinds_of self.now) byte }
    {
        self.kind_at(u32::from(byte))
    }

    /// The cell of the kind of `c`, with nothing that no rule asks of it. A number that is no kind's is masked, as
    /// steps mask it.
    #[inline(always)]
    fn cell_by_kind(&self, c: char) -> Cell
        ensures { (cell : ℕ → Cell) → AreFlatKinds (kinds_of self.now) cell → result ≡ normal (cell c) }
    {
        cell_of_kind(self.kind_at(c as u32) % WIDTH as u8 % KINDS as u8)
    }
}
