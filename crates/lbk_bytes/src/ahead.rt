//! Positions that what follows decides.

ghost use Rattle.std.specs.Prelude.{◌≡◌, ℕ, ◌<◌, ◌∷◌, List, map};
ghost use Rattle.lbk_bytes.specs.Terms.{AreFlatKinds, Cell, IsFlatBy, IsPlace, IsShown, KnowsTaken, hard};
ghost use Rattle.lbk_bytes.specs.Terms.{leaves_closed, normal, units_after, verdict_between_in, verdict_shown};
ghost use Rattle.lbk_bytes.specs.Reached.{scalars_of};

use crate::unit::Unit;
use lbk_rules::{HELD, KindSource, Profile, step_in};

/// The number of the verdict before `c`, by the table's row at this place, where `rest` is the text after `c` up to its
/// end.
pub(crate) fn shown_ahead<U: Unit, K: KindSource>(
    table: &K,
    profile: Profile,
    row: usize,
    c: char,
    rest: &[U],
) -> u16
    requires { IsPlace row }
    ensures shown { IsShown result }
    ensures decides { (cell : ℕ → Cell) (taken : List ℕ) → IsFlatBy (K.kinds_of table.now) (K.pairs_of table.now) cell
        → KnowsTaken cell row taken
        → verdict_shown result
        ≡ verdict_between_in profile (map cell taken) (cell c ∷ map cell (scalars_of (U.pieces_of rest.now))) }
{
    let kind = table.kind_at(c as u32);
    match profile {
        Profile::First => step_in(Profile::First, row, kind).shown,
        Profile::Second => {
            let second = step_in(Profile::Second, row, kind);
            if second.shown != HELD {
                return second.shown;
            }
            if closes_ahead(table, c, rest) {
                return second.shown;
            }
            step_in(Profile::First, row, kind).shown
        }
    }
}

/// Whether the unit of the rules after `c` leaves a closing quotation mark closed, where `rest` is the text after
/// `c`: also where none comes.
fn closes_ahead<U: Unit, K: KindSource>(table: &K, c: char, rest: &[U]) -> bool
    ensures { (cell : ℕ → Cell) → AreFlatKinds (K.kinds_of table.now) cell
        → result ≡ leaves_closed (units_after (hard (normal (cell c)).class)
        (map normal (map cell (scalars_of (U.pieces_of rest.now))))) }
{
    let mut fresh = table.cell_by_kind(c).leaves_fresh();
    let mut at = 0;
    while at < rest.len() {
        let found = U::front(&rest[at..]);
        let cell = table.cell_by_kind(found.scalar);
        if let Some(closes) = cell.unit_closes(fresh) {
            return closes;
        }
        fresh = cell.leaves_fresh();
        at += found.size;
    }
    true
}
