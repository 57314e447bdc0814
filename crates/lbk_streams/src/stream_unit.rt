//! The code units of a stream.

ghost use Rattle.std.specs.Prelude.{◌≡◌, ℕ, ◌<◌, ◌≤◌, ◌++◌, Bool, true, false, List, length, take};
ghost use Rattle.lbk_rules.specs.declared.Cell.{Cell};
ghost use Rattle.lbk_rules.specs.FlatTable.{IsFlatBy};
ghost use Rattle.lbk_bytes.specs.Order.{IsBreak};
ghost use Rattle.lbk_bytes.specs.Reached.{onward_to};
ghost use Rattle.lbk_units.specs.Filling.{GivesOf, GoesOn, IsInText};
ghost use Rattle.lbk_units.specs.Front.{IsFront};
ghost use Rattle.lbk_units.specs.Reached.{on_from};
ghost use Rattle.lbk_streams.specs.Stands.{HoldsCut, front_of};

use crate::stream::{Cut, Stream};
use lbk_bytes::{FillState, RawBreak};
use lbk_rules::{KindSource, Profile};
use lbk_units::{Unit, UnitScalar};

/// A code unit of a text that arrives in pieces.
pub trait StreamUnit: Unit {
    ghost could_go_on: { List Self → Bool };

    /// The most units that make a scalar, as many as the bytes of a stream hold.
    ghost widest: { ℕ };

    /// The units that the bytes of a stream hold.
    ghost carried: { List ℕ → List Self };

    /// Whether more units could make a scalar of these, which do not end it.
    fn could_go_on(units: &[Self]) -> bool
        requires { 0 < length units.now }
        ensures tells { result ≡ could_go_on units.now }
        ensures few { result ≡ true → length units.now < widest };

    /// The same of units that were cut.
    fn cut_could_go_on(cut: &Cut<Self>) -> bool
        requires { (0 < cut.now.size) × (cut.now.size ≤ widest) }
        ensures tells { result ≡ could_go_on (front_of cut.now) }
        ensures few { result ≡ true → cut.now.size < widest };

    /// The units of a stream that are not taken as scalars.
    fn cut_of(stream: &Stream) -> Cut<Self>
        ensures { HoldsCut carried widest stream.now result };

    /// The bytes that hold the units that were cut.
    fn bytes_of(cut: Cut<Self>) -> [u8; 4]
        requires { cut.size ≤ widest }
        ensures { take cut.size (carried result) ≡ front_of cut };

    /// The scalar at the front of some units, whatever follows them, if they could not go on.
    fn first(units: &[Self]) -> UnitScalar
        requires { 0 < length units.now }
        ensures front { IsFront Self.pieces_of units.now result }
        ensures whole { (more : List Self) → could_go_on units.now ≡ false
            → IsFront Self.pieces_of (units.now ++ more) result }
        ensures few { result.size ≤ widest };

    /// The same of units that were cut.
    fn first_of_cut(cut: &Cut<Self>) -> UnitScalar
        requires { (0 < cut.now.size) × (cut.now.size ≤ widest) }
        ensures front { IsFront Self.pieces_of (front_of cut.now) result }
        ensures whole { (more : List Self) → could_go_on (front_of cut.now) ≡ false
            → IsFront Self.pieces_of (front_of cut.now ++ more) result };

    /// Takes scalars of a piece until a held position comes, the block is full or the last units of the piece come,
    /// whatever may follow it.
    fn fill_piece<K: KindSource>(
        table: &K,
        profile: Profile,
        start: FillState,
        piece: &[Self],
        out: &mut [RawBreak],
    ) -> FillState
        requires { IsInText start (length piece.now) (length out.old) }
        ensures goes_on { GoesOn IsBreak (length piece.now) out.old start out.new result }
        ensures gives { (cell : ℕ → Cell) (more : List Self)
            → IsFlatBy (K.kinds_of table.now) (K.pairs_of table.now) cell
            → GivesOf onward_to profile cell (on_from Self.pieces_of (piece.now ++ more)) out.old start out.new
            result };

    ghost narrow: { (0 < widest) × (widest ≤ 4) };
}
