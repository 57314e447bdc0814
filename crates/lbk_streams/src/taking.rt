//! One scalar of a stream.

ghost use Rattle.std.specs.Prelude.{◌≡◌, ℕ, min, ◌+◌, ◌<◌, ◌≤◌, ◌%◌, ◌^◌, ◌∷◌, true, false, List, length};
ghost use Rattle.std.specs.Prelude.{if◌then◌else◌};
ghost use Rattle.bstr.specs.Utf8.{Decoded, or_replacement};
ghost use Rattle.lbk_rules.specs.declared.Cell.{Cell};
ghost use Rattle.lbk_values.specs.declared.profile.Profile.{Profile};
ghost use Rattle.lbk_values.specs.declared.profile.Profile.TheVariants.{Second};
ghost use Rattle.lbk_rules.specs.Breaks.{is_no};
ghost use Rattle.lbk_rules.specs.Classes.{mark};
ghost use Rattle.lbk_rules.specs.Normal.{normal};
ghost use Rattle.lbk_rules.specs.FlatTable.{AreFlatKinds, IsFlatBy};
ghost use Rattle.lbk_rules.specs.Rows.{IsShown, verdict_shown};
ghost use Rattle.lbk_bytes.specs.Shown.{given_in};
ghost use Rattle.lbk_streams.specs.Stands.{Ahead, Stands};
ghost use Rattle.lbk_streams.specs.Taking.{Steps};

use crate::stream::StreamPosition;
use lbk_bytes::{RawBreak, put};
use lbk_rules::{HELD, KindSource, Profile, place_by, shown_by, shows_break, step_in};
use lbk_units::UnitScalar;

/// A place, and how many breaks stand in the front of the block.
#[derive(Clone, Copy)]
pub(crate) struct Step {
    pub(crate) place: StreamPosition,
    pub(crate) count: usize,
    /// Whether the scalar was taken. It was not where the block is full before.
    pub(crate) passed: bool,
}

/// Takes a scalar: first it decides the position that waits, and then the one before the scalar.
pub(crate) fn take_scalar<K: KindSource>(
    table: &K,
    profile: Profile,
    place: StreamPosition,
    next: UnitScalar,
    out: &mut [RawBreak],
    count: usize,
) -> Step
    requires { count < length out.old }
    ensures steps { Steps next.size out.old count place out.new result }
    ensures full { result.passed ≡ false → result.count ≡ length out.old }
    ensures stands { (cell : ℕ → Cell) (p : Decoded) (ps : List Decoded) (all : Ahead)
        → IsFlatBy (K.kinds_of table.now) (K.pairs_of table.now) cell
        → next.scalar ≡ or_replacement p.char → next.size ≡ p.size → 0 < next.size → place.at + next.size < 2 ^ 64
        → Stands profile cell place (p ∷ ps) all (given_in out.old count)
        → Stands profile cell result.place (if result.passed then ps else p ∷ ps) all
        (given_in out.new result.count) }
{
    let (met, before) = meet(table, place, next.scalar, out, count);
    if before == out.len() {
        return Step {
            place: met,
            count: before,
            passed: false,
        };
    }
    let (past, count) = pass(table, profile, met, next.scalar, next.size, out, before);
    Step {
        place: past,
        count,
        passed: true,
    }
}

/// Decides the position that waits, if `c` heads a unit.
fn meet<K: KindSource>(
    table: &K,
    place: StreamPosition,
    c: char,
    out: &mut [RawBreak],
    count: usize,
) -> (StreamPosition, usize)
    requires { count < length out.old }
    ensures joins { (cell : ℕ → Cell) → AreFlatKinds (K.kinds_of table.now) cell → 0 < result.0.held_code
        → mark (normal (cell c)).class ≡ true }
    ensures steps { Steps 0 out.old count place out.new
        (record { place = result.0; count = result.1; passed = false }) }
    ensures stands { (profile : Profile) (cell : ℕ → Cell) (p : Decoded) (ps : List Decoded) (all : Ahead)
        → IsFlatBy (K.kinds_of table.now) (K.pairs_of table.now) cell
        → c ≡ or_replacement p.char
        → Stands profile cell place (p ∷ ps) all (given_in out.old count)
        → Stands profile cell result.0 (p ∷ ps) all (given_in out.new result.1) }
{
    if place.held_code == 0 {
        return (place, count);
    }
    let cell = table.cell_by_kind(c);
    let Some(closes) = cell.unit_closes(false) else {
        return (place, count);
    };
    let free = StreamPosition {
        at: place.at,
        held_at: place.held_at,
        row: place.row,
        held_code: 0,
    };
    if closes {
        return (free, count);
    }
    let shown = shown_by(place.held_code);
    let more = put(out, count, place.held_at as usize, shown);
    (free, more)
}

/// Takes the scalar. Where a position waits yet, the scalar is a mark that joins what is before it.
fn pass<K: KindSource>(
    table: &K,
    profile: Profile,
    place: StreamPosition,
    c: char,
    size: usize,
    out: &mut [RawBreak],
    count: usize,
) -> (StreamPosition, usize)
    requires { count < length out.old }
    ensures steps { Steps size out.old count place out.new
        (record { place = result.0; count = result.1; passed = true }) }
    ensures stands { (cell : ℕ → Cell) (p : Decoded) (ps : List Decoded) (all : Ahead)
        → IsFlatBy (K.kinds_of table.now) (K.pairs_of table.now) cell
        → c ≡ or_replacement p.char → size ≡ p.size → 0 < size → place.at + size < 2 ^ 64
        → (0 < place.held_code → mark (normal (cell c)).class ≡ true)
        → Stands profile cell place (p ∷ ps) all (given_in out.old count)
        → Stands profile cell result.0 ps all (given_in out.new result.1) }
{
    let kind = table.kind_at(c as u32);
    let row = place_by(place.row);
    let first = step_in(Profile::First, row, kind);
    let at = place.at.wrapping_add(size as u64);
    let mut next = place;
    next.at = at;
    next.row = first.next;
    if place.held_code != 0 {
        return (next, count);
    }
    let step = step_in(profile, row, kind);
    if waits(profile, step.shown, first.shown) {
        next.held_at = place.at;
        next.held_code = first.shown;
        return (next, count);
    }
    let more = put(out, count, place.at as usize, step.shown);
    (next, more)
}

/// Whether a position waits for what follows: by rule 15b it is no break where the quotation is closed, and where it
/// stays open the first profile decides.
fn waits(profile: Profile, shown: u16, otherwise: u16) -> bool
    requires { IsShown otherwise }
    ensures held { result ≡ true
        → (profile ≡ Second) × (shown ≡ HELD) × (is_no (verdict_shown otherwise).kind ≡ false) }
    ensures decided { result ≡ false → profile ≡ Second → shown ≡ HELD → is_no (verdict_shown otherwise).kind ≡ true }
{
    match profile {
        Profile::First => false,
        Profile::Second => shown == HELD && shows_break(otherwise),
    }
}
