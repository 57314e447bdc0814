//! The position before one scalar, whatever it is.

ghost use Rattle.std.specs.Prelude.{ℕ, ◌+◌, ◌<◌, ◌≤◌, List, length};
ghost use Rattle.lbk_bytes.specs.Terms.{Cell, IsFlatBy, IsPlace, IsShown, KnowsTaken};
ghost use Rattle.lbk_bytes.specs.Decided.{IsUnitDecided, on_from};

use crate::ahead::shown_ahead;
use crate::unit::Unit;
use lbk_rules::{KindSource, Profile, step_in};

/// What is decided before a scalar, and where a call stands after it.
#[derive(Clone, Copy)]
pub struct Decided {
    /// The number of the verdict before the scalar.
    pub shown: u16,
    /// The place of the table's row that knows of the scalar too.
    pub row: usize,
    /// The unit after the scalar.
    pub at: usize,
}

/// Decides the position before this unit, by the row there and by what follows, and takes the scalar that begins there.
#[inline(always)]
pub fn decide_one<U: Unit, K: KindSource>(
    table: &K,
    profile: Profile,
    row: usize,
    at: usize,
    text: &[U],
) -> Decided
    requires { IsPlace row × (at < length text.now) }
    ensures within { IsPlace result.row × (at < result.at) × (result.at ≤ length text.now) }
    ensures shown { IsShown result.shown }
    ensures near { result.at ≤ at + 4 }
    ensures decided { (cell : ℕ → Cell) (taken : List ℕ) → IsFlatBy (K.kinds_of table.now) (K.pairs_of table.now) cell
        → KnowsTaken cell row taken
        → IsUnitDecided profile cell (on_from U.pieces_of text.now) at taken result }
{
    let found = U::front(&text[at..]);
    let next = at + found.size;
    let shown = shown_ahead(table, profile, row, found.scalar, &text[next..]);
    let step = step_in(Profile::First, row, table.kind_at(found.scalar as u32));
    Decided {
        shown,
        row: step.next as usize,
        at: next,
    }
}
