//! The breaks of a piece of a text.

ghost use Rattle.std.specs.Prelude.{◌≡◌, ◌⊎◌, ℕ, ◌+◌, ◌-◌, ◌<◌, ◌≤◌, ◌++◌, [], true, false, List, drop, length};
ghost use Rattle.lbk_rules.specs.declared.Cell.{Cell};
ghost use Rattle.lbk_rules.specs.FlatTable.{IsFlatBy};
ghost use Rattle.lbk_streams.specs.Stands.{front_of};
ghost use Rattle.lbk_streams.specs.Taking.{FeedsOn, IsOpen, Takes, TakesOf, TakesSome};

use crate::cutting::{behind, kept, with_unit};
use crate::skimming::skim;
use crate::stream::{Cut, Feeding};
use crate::stream_unit::StreamUnit;
use crate::taking::take_scalar;
use lbk_bytes::RawBreak;
use lbk_rules::{KindSource, Profile};

/// Takes a piece, until the block is full.
pub(crate) fn take_piece<U: StreamUnit, K: KindSource>(
    table: &K,
    profile: Profile,
    start: Feeding<U>,
    piece: &[U],
    out: &mut [RawBreak],
) -> Feeding<U>
    requires { (start.cut.size ≤ U.widest) × (start.count ≤ length out.old) × (start.taken ≤ length piece.now) }
    ensures takes { TakesOf U.pieces_of U.widest (K.kinds_of table.now) (K.pairs_of table.now) profile piece.now out.old
        start out.new result }
    ensures settled { result.count < length out.old
        → (result.taken ≡ length piece.now) × IsOpen U.could_go_on U.widest result.cut }
{
    let mut here = drain(table, profile, start, false, out);
    while here.count < out.len() && here.taken < piece.len() {
        here = take_more(table, profile, here, piece, out);
    }
    here
}

/// Takes the scalars that are whole out of the units that were cut, until the block is full. Where `last`, nothing
/// follows them, and all are.
pub(crate) fn drain<U: StreamUnit, K: KindSource>(
    table: &K,
    profile: Profile,
    start: Feeding<U>,
    last: bool,
    out: &mut [RawBreak],
) -> Feeding<U>
    requires { (start.cut.size ≤ U.widest) × (start.count ≤ length out.old) }
    ensures takes { Takes U.widest start.taken out.old start out.new result }
    ensures taken { result.taken ≡ start.taken }
    ensures unfinished { last ≡ false → result.count < length out.old → IsOpen U.could_go_on U.widest result.cut }
    ensures done { last ≡ true → result.count < length out.old → result.cut.size ≡ 0 }
    ensures full { start.count ≡ length out.old → (result ≡ start) × (out.new ≡ out.old) }
    ensures feeds { (cell : ℕ → Cell) (piece more : List U)
        → IsFlatBy (K.kinds_of table.now) (K.pairs_of table.now) cell
        → (last ≡ true → start.count < length out.old → drop start.taken piece ++ more ≡ [])
        → FeedsOn U.pieces_of profile cell piece more out.old start out.new result }
{
    let mut here = start;
    while here.count < out.len() && is_whole(&here.cut, last) {
        here = take_cut(table, profile, here, out);
    }
    here
}

/// Whether a scalar or ill-formed units stand in the front, whatever follows, or where `last`, with nothing to follow.
fn is_whole<U: StreamUnit>(cut: &Cut<U>, last: bool) -> bool
    requires { cut.now.size ≤ U.widest }
    ensures whole { result ≡ true
        → (0 < cut.now.size) × ((U.could_go_on (front_of cut.now) ≡ false) ⊎ (last ≡ true)) }
    ensures unfinished { result ≡ false → last ≡ false → IsOpen U.could_go_on U.widest cut.now }
    ensures done { result ≡ false → last ≡ true → cut.now.size ≡ 0 }
{
    if cut.size == 0 {
        return false;
    }
    last || !U::cut_could_go_on(cut)
}

/// Takes one scalar out of the units that were cut.
fn take_cut<U: StreamUnit, K: KindSource>(
    table: &K,
    profile: Profile,
    here: Feeding<U>,
    out: &mut [RawBreak],
) -> Feeding<U>
    requires { (0 < here.cut.size) × (here.cut.size ≤ U.widest) × (here.count < length out.old) }
    ensures takes { Takes U.widest here.taken out.old here out.new result }
    ensures taken { result.taken ≡ here.taken }
    ensures onward { result.cut.size + (length out.old - result.count) < here.cut.size + (length out.old - here.count) }
    ensures feeds { (cell : ℕ → Cell) (piece more : List U)
        → IsFlatBy (K.kinds_of table.now) (K.pairs_of table.now) cell
        → (U.could_go_on (front_of here.cut) ≡ false) ⊎ (drop here.taken piece ++ more ≡ [])
        → FeedsOn U.pieces_of profile cell piece more out.old here out.new result }
{
    let first = U::first_of_cut(&here.cut);
    let step = take_scalar(table, profile, here.place, first, out, here.count);
    if step.passed {
        let cut = behind(here.cut, first.size);
        return Feeding {
            place: step.place,
            cut,
            taken: here.taken,
            count: step.count,
        };
    }
    Feeding {
        place: step.place,
        cut: here.cut,
        taken: here.taken,
        count: step.count,
    }
}

/// Takes a unit of the piece, or many.
fn take_more<U: StreamUnit, K: KindSource>(
    table: &K,
    profile: Profile,
    here: Feeding<U>,
    piece: &[U],
    out: &mut [RawBreak],
) -> Feeding<U>
    requires { (here.cut.size < U.widest) × (here.count < length out.old) × (here.taken < length piece.now) }
    ensures { TakesSome U.could_go_on U.pieces_of U.widest (K.kinds_of table.now) (K.pairs_of table.now) profile
        piece.now out.old here out.new result }
{
    if here.cut.size == 0 {
        if !U::could_go_on(&piece[here.taken..]) {
            return take_run(table, profile, here, piece, out);
        }
    }
    let cut = with_unit(here.cut, piece[here.taken]);
    let next = Feeding {
        place: here.place,
        cut,
        taken: here.taken + 1,
        count: here.count,
    };
    drain(table, profile, next, false, out)
}

/// Takes a scalar of the piece, and then those that need no care.
fn take_run<U: StreamUnit, K: KindSource>(
    table: &K,
    profile: Profile,
    here: Feeding<U>,
    piece: &[U],
    out: &mut [RawBreak],
) -> Feeding<U>
    requires { (here.cut.size ≡ 0) × (here.count < length out.old) × (here.taken < length piece.now)
        × (U.could_go_on (drop here.taken piece.now) ≡ false) }
    ensures { TakesSome U.could_go_on U.pieces_of U.widest (K.kinds_of table.now) (K.pairs_of table.now) profile
        piece.now out.old here out.new result }
{
    let rest = &piece[here.taken..];
    let first = U::first(rest);
    let step = take_scalar(table, profile, here.place, first, out, here.count);
    let taken = here.taken + first.size;
    if !step.passed {
        let cut = kept(here.cut, &rest[..first.size]);
        return Feeding {
            place: step.place,
            cut,
            taken,
            count: step.count,
        };
    }
    let past = Feeding {
        place: step.place,
        cut: here.cut,
        taken,
        count: step.count,
    };
    if past.place.held_code != 0 {
        return past;
    }
    skim(table, profile, past, piece, out)
}
