//! The part of a piece that needs no care: scalars before which no position waits.

ghost use Rattle.std.specs.Prelude.{◌≡◌, ℕ, ◌+◌, ◌-◌, ◌^◌, ◌<◌, ◌≤◌, ◌++◌, [], List, drop, length, map};
ghost use Rattle.lbk_rules.specs.declared.Cell.{Cell};
ghost use Rattle.lbk_rules.specs.FlatTable.{IsFlatBy};
ghost use Rattle.lbk_rules.specs.Rows.{IsPlace};
ghost use Rattle.lbk_streams.specs.declared.stream.StreamPosition.{StreamPosition};
ghost use Rattle.lbk_bytes.specs.Order.{AreBreaks, AreInOrder};
ghost use Rattle.lbk_bytes.specs.Shown.{given_in};
ghost use Rattle.lbk_rules.specs.Joins.{moved};
ghost use Rattle.lbk_streams.specs.Stands.{Ahead, Stands};
ghost use Rattle.lbk_streams.specs.Taking.{TakesOf};

use crate::stream::{Feeding, StreamPosition};
use crate::stream_unit::StreamUnit;
use lbk_bytes::{FillState, RawBreak};
use lbk_rules::{KindSource, Profile, place_by};

/// Goes on until a scalar needs care, the block is full or the piece ends.
pub(crate) fn skim<U: StreamUnit, K: KindSource>(
    table: &K,
    profile: Profile,
    here: Feeding<U>,
    piece: &[U],
    out: &mut [RawBreak],
) -> Feeding<U>
    requires { (here.cut.size ≡ 0) × (here.place.held_code ≡ 0) × (here.count ≤ length out.old) × (0 < here.taken)
        × (here.taken ≤ length piece.now) }
    ensures takes { TakesOf U.pieces_of U.widest (K.kinds_of table.now) (K.pairs_of table.now) profile piece.now out.old
        here out.new result }
    ensures none_cut { result.cut.size ≡ 0 }
{
    let end = skim_into(
        table,
        profile,
        here.place,
        here.taken,
        piece,
        &mut out[here.count..],
    );
    Feeding {
        place: StreamPosition {
            at: here.place.at.wrapping_add((end.at - here.taken) as u64),
            held_at: here.place.held_at,
            row: end.row as u16,
            held_code: here.place.held_code,
        },
        cut: here.cut,
        taken: end.at,
        count: here.count + end.count,
    }
}

/// The same from a unit of the piece, into what is left of the block.
fn skim_into<U: StreamUnit, K: KindSource>(
    table: &K,
    profile: Profile,
    place: StreamPosition,
    from: usize,
    piece: &[U],
    room: &mut [RawBreak],
) -> FillState
    requires { from ≤ length piece.now }
    ensures within { (result.count ≤ length room.old) × IsPlace result.row × (from ≤ result.at)
        × (result.at ≤ length piece.now) }
    ensures breaks { AreBreaks room.new result.count }
    ensures few { result.count + from ≤ result.at }
    ensures in_order { from ≤ place.at → place.at + (result.at - from) < 2 ^ 64
        → AreInOrder room.new result.count place.at (place.at + (result.at - from)) }
    ensures stands { (cell : ℕ → Cell) (more : List U) (all : Ahead) (next : StreamPosition)
        → IsFlatBy (K.kinds_of table.now) (K.pairs_of table.now) cell
        → place.held_code ≡ 0 → 0 < from → from ≤ place.at
        → next.at ≡ place.at + (result.at - from) → next.row ≡ result.row → next.held_code ≡ 0
        → place.at + (result.at - from) < 2 ^ 64
        → Stands profile cell place (U.pieces_of (drop from piece.now ++ more)) all []
        → Stands profile cell next (U.pieces_of (drop result.at piece.now ++ more)) all
        (given_in room.new result.count) }
{
    let start = FillState {
        count: 0,
        row: place_by(place.row),
        at: from,
    };
    let end = U::fill_piece(table, profile, start, piece, room);
    move_by(room, end.count, place.at.wrapping_sub(from as u64));
    end
}

/// Moves the places of the breaks in the front of a block.
fn move_by(out: &mut [RawBreak], count: usize, by: u64)
    requires { count ≤ length out.old }
    ensures moved { (from to : ℕ) → to + by ≤ 2 ^ 64 → AreInOrder out.old count from to
        → given_in out.new count ≡ map (moved by) (given_in out.old count) }
    ensures breaks { AreBreaks out.old count → AreBreaks out.new count }
    ensures in_order { (from to : ℕ) → to + by ≤ 2 ^ 64 → AreInOrder out.old count from to
        → AreInOrder out.new count (from + by) (to + by) }
{
    let mut k = 0;
    while k < count {
        out[k].at = out[k].at.wrapping_add(by as usize);
        k += 1;
    }
}
