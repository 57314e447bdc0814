//! Where a text in UTF-16 may be cut into parts.

ghost use Rattle.std.specs.Prelude.{◌≡◌, ◌↔◌, ℕ, ◌+◌, ◌<◌, ◌≤◌, true, List, [], ◌∷◌, ◌++◌, length, slice_index_or, take};
ghost use Rattle.lbk_rules.specs.declared.Cell.{Cell};
ghost use Rattle.lbk_rules.specs.FlatTable.{AreFlatKinds};
ghost use Rattle.lbk_bytes.specs.Reached.{scalars_of};
ghost use Rattle.lbk_units.specs.Units.{pieces_of_utf16};
ghost use Rattle.lbk_streams.specs.Cuts.{BeginsIn, CutsAfter, CutsBefore, IsSafeIn};
ghost use Rattle.lbk_streams.specs.Looking.{EndsInScalar, is_pair};

use crate::safe_cuts::must_end;
use lbk_rules::KindSource;
use lbk_units::Unit;

/// The first unit at or after `at` at which a part of a text in UTF-16 may begin: one before which a line must end
/// (UAX #14, section 6.1, rules LB4 and LB5), or the end of the text. A place past the text counts as its end, and 0
/// is its start, at which the first part begins.
pub fn cut_utf16<K: KindSource>(table: &K, text: &[u16], at: usize) -> usize
    ensures { CutsAfter pieces_of_utf16 (K.kinds_of table.now) (K.pairs_of table.now) text.now at result }
{
    if text.len() <= at {
        return text.len();
    }
    let mut place = at;
    while place < text.len() {
        if may_begin(table, text, place) {
            return place;
        }
        place += 1;
    }
    place
}

/// The last unit at or before `at` at which a part of a text in UTF-16 may begin. A place past the text counts as its
/// end.
pub fn cut_before_utf16<K: KindSource>(table: &K, text: &[u16], at: usize) -> usize
    ensures { CutsBefore pieces_of_utf16 (K.kinds_of table.now) (K.pairs_of table.now) text.now at result }
{
    if text.len() <= at {
        return text.len();
    }
    let mut place = at;
    while 0 < place {
        if may_begin(table, text, place) {
            return place;
        }
        place -= 1;
    }
    0
}

/// Whether a part of a text may begin at this unit.
fn may_begin<K: KindSource>(table: &K, text: &[u16], place: usize) -> bool
    requires { place < length text.now }
    ensures begins { result ≡ true → BeginsIn pieces_of_utf16 text.now place }
    ensures safe { (cell : ℕ → Cell) → AreFlatKinds (K.kinds_of table.now) cell
        → (result ≡ true ↔ IsSafeIn pieces_of_utf16 cell text.now place) }
    ensures start { place ≡ 0 → result ≡ true }
{
    if place == 0 {
        return true;
    }
    if is_pair(text[place - 1], text[place]) {
        return false;
    }
    let last = scalar_before(text, place);
    let next = u16::front(&text[place..]).scalar;
    must_end(
        table.cell_by_kind(last).class,
        table.cell_by_kind(next).class,
    )
}

/// The last scalar before a unit, where no surrogate pair stands around that place.
fn scalar_before(text: &[u16], place: usize) -> char
    requires { (0 < place) × (place ≤ length text.now) }
    ensures { EndsInScalar text.now place result }
{
    if 1 < place {
        if is_pair(text[place - 2], text[place - 1]) {
            return u16::front(&text[place - 2..place]).scalar;
        }
    }
    u16::front(&text[place - 1..place]).scalar
}

/// Whether two units are a surrogate pair (Unicode Standard, section 3.9, D91).
fn is_pair(high: u16, low: u16) -> bool
    ensures { result ≡ is_pair high low }
{
    0xD800 <= high && high < 0xDC00 && 0xDC00 <= low && low < 0xE000
}
