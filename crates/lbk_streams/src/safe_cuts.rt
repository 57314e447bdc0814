//! Where a text may be cut into parts.

ghost use Rattle.std.specs.Prelude.{◌≡◌, ℕ, ◌+◌, ◌-◌, ◌<◌, ◌≤◌, length, drop};
ghost use Rattle.bstr.specs.Utf8.{decoded, pieces};
ghost use Rattle.lbk_rules.specs.declared.Cell.{Cell};
ghost use Rattle.lbk_rules.specs.Ends.{ends_between};
ghost use Rattle.lbk_rules.specs.FlatTable.{AreFlatKinds};
ghost use Rattle.lbk_streams.specs.Cuts.{CutsAfter, CutsBefore, IsPieceStart};
ghost use Rattle.lbk_streams.specs.Looking.{LastIs, NextIs};

use bstr::{decode_last_lossy, decode_lossy};
use lbk_rules::{Class, KindSource};

/// The first byte at or after `at` at which a part of a text may begin: one before which a line must end (UAX #14,
/// section 6.1, rules LB4 and LB5), or the end of the text. A place past the text counts as its end, and 0 is its
/// start, at which the first part begins.
///
/// The breaks of the parts are those of the whole: the places of a later part count from its start, and where another
/// part follows a part, its end is by rule 4 or 5, in the place of 3.
pub fn cut<K: KindSource>(table: &K, text: &[u8], at: usize) -> usize
    ensures { CutsAfter pieces (K.kinds_of table.now) (K.pairs_of table.now) text.now at result }
{
    if text.len() <= at {
        return text.len();
    }
    if at == 0 {
        return 0;
    }
    let start = piece_start(text, at);
    let (mut last, size) = class_at(table, text, start);
    let mut place = start + size;
    while place < text.len() {
        let (next, size) = class_at(table, text, place);
        if must_end(last, next) {
            return place;
        }
        last = next;
        place += size;
    }
    place
}

/// The last byte at or before `at` at which a part of a text may begin. A place past the text counts as its end.
pub fn cut_before<K: KindSource>(table: &K, text: &[u8], at: usize) -> usize
    ensures { CutsBefore pieces (K.kinds_of table.now) (K.pairs_of table.now) text.now at result }
{
    if text.len() <= at {
        return text.len();
    }
    let start = piece_start(text, at + 1);
    let (mut next, _) = class_at(table, text, start);
    let mut place = start;
    while 0 < place {
        let (last, size) = class_before(table, text, place);
        if must_end(last, next) {
            return place;
        }
        next = last;
        place -= size;
    }
    0
}

/// Where the piece begins that holds the byte before `end`.
fn piece_start(text: &[u8], end: usize) -> usize
    requires some { 0 < end }
    requires within { end ≤ length text.now }
    ensures before { result < end }
    ensures begins { IsPieceStart text.now result }
    ensures holds { end ≤ result + (decoded (drop result text.now)).size }
{
    let (_, size) = decode_last_lossy(&text[..end]);
    end - size
}

/// The class of the piece that begins at `place`, and how many bytes it has.
fn class_at<K: KindSource>(table: &K, text: &[u8], place: usize) -> (Class, usize)
    requires { place < length text.now }
    ensures class { (cell : ℕ → Cell) → AreFlatKinds (K.kinds_of table.now) cell → NextIs cell text.now place result.0 }
    ensures size { result.1 ≡ (decoded (drop place text.now)).size }
{
    let (c, size) = decode_lossy(&text[place..]);
    (table.cell_by_kind(c).class, size)
}

/// The class of the piece before `place`, where another begins or the text ends, and how many bytes it has.
fn class_before<K: KindSource>(table: &K, text: &[u8], place: usize) -> (Class, usize)
    requires some { 0 < place }
    requires within { place ≤ length text.now }
    requires begins { IsPieceStart text.now place }
    ensures last { (cell : ℕ → Cell) → AreFlatKinds (K.kinds_of table.now) cell → LastIs cell text.now place result.0 }
    ensures first { (cell : ℕ → Cell) → AreFlatKinds (K.kinds_of table.now) cell
        → NextIs cell text.now (place - result.1) result.0 }
    ensures some { 0 < result.1 }
    ensures fits { result.1 ≤ place }
    ensures begins { IsPieceStart text.now (place - result.1) }
    ensures size { (decoded (drop (place - result.1) text.now)).size ≡ result.1 }
{
    let (c, size) = decode_last_lossy(&text[..place]);
    (table.cell_by_kind(c).class, size)
}

/// Whether a line must end between scalars of these classes (rules LB4 and LB5).
pub(crate) fn must_end(last: Class, next: Class) -> bool
    ensures { result ≡ ends_between last next }
{
    last.ends_line() && !(last.is(Class::CarriageReturn) && next.is(Class::LineFeed))
}
