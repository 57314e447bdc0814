//! A text that comes in pieces.

ghost use Rattle.std.specs.Prelude.{◌≡◌, ◌⊎◌, ℕ, Bool, suc, min, ◌+◌, ◌-◌, ◌^◌, ◌<◌, ◌≤◌, ◌++◌, true, false, []};
ghost use Rattle.std.specs.Prelude.{List, MatchOption, None, Some, drop, length, map, take};
ghost use Rattle.lbk_rules.specs.declared.Break.{Break};
ghost use Rattle.lbk_rules.specs.declared.Cell.{Cell};
ghost use Rattle.lbk_values.specs.declared.profile.Profile.{Profile};
ghost use Rattle.lbk_rules.specs.Joins.{moved};
ghost use Rattle.lbk_rules.specs.FlatTable.{IsFlatBy, KnowsTaken};
ghost use Rattle.lbk_bytes.specs.Bytes.{end_in};
ghost use Rattle.lbk_bytes.specs.Order.{AreBreaks, AreInOrder};
ghost use Rattle.lbk_bytes.specs.Shown.{given_in};
ghost use Rattle.lbk_bytes.specs.Profiles.{goes_on, plain_number, profile_numbered};
ghost use Rattle.lbk_units.specs.Units.{breaks_of_part_of, breaks_of_pieces};
ghost use Rattle.lbk_streams.specs.Stands.{HoldsCut, IsOrdered, IsPlaced, StreamsIn, front_of};
ghost use Rattle.lbk_streams.specs.Streams.{AreUnsettledIn, IsSoundIn, cut_units, most_left_in, next_place};
ghost use Rattle.lbk_streams.specs.Streams.{part_stream, place_of, stream_start};

use crate::feeding::{drain, take_piece};
use crate::stream::{Fed, Feeding, Stream, StreamPosition};
use crate::stream_unit::StreamUnit;
use lbk_bytes::{RawBreak, goes_on, plain_number, profile_numbered, put_end};
use lbk_rules::{KindSource, Profile, place_by};

/// Takes the next piece of a stream, and writes the breaks that it settles (UAX #14, section 3) to the front of the
/// block, as many as it holds. It takes all units of the piece, unless the block is full. If `last` is set, nothing
/// follows the piece: then all breaks are settled, and the end is the last one.
///
/// The units may be any. The breaks of all calls are those of `lbk_breaks` for the joined pieces, with offsets from the
/// start of the stream, or of the text that it is a part of. If the block has no room, nothing is taken and the stream
/// is unchanged. If the stream has ended or its profile is unknown, all is taken and no break is returned. With any
/// table and stream, the breaks are breaks of rules, and a loop of calls while the block is full terminates. With any
/// table, the offsets of a stream rise from its start.
pub fn feed<U: StreamUnit, K: KindSource>(
    table: &K,
    stream: &mut Stream,
    piece: &[U],
    last: bool,
    out: &mut [RawBreak],
) -> Fed
    ensures within { (result.count ≤ length out.old) × (result.taken ≤ length piece.now) }
    ensures all_taken { result.count < length out.old → result.taken ≡ length piece.now }
    ensures profile_same { stream.new.profile ≡ stream.old.profile }
    // Of any table and stream: at most one break for each unit, one that waited and the end.
    ensures breaks { AreBreaks out.new result.count }
    ensures few { result.count + most_left_in U.carried stream.new + (length piece.now - result.taken)
        ≤ most_left_in U.carried stream.old
        + length piece.now }
    // And of any table, from a stream's start on: their places rise, in a call and from one call to the next.
    ensures in_order { IsSoundIn U.carried stream.old (length piece.now)
        → AreInOrder out.new result.count (next_place (place_of stream.old)) (suc stream.new.at) }
    ensures before_stream { IsSoundIn U.carried stream.old (length piece.now) → stream.new.ended ≡ 0
        → (next_place (place_of stream.old) ≤ next_place (place_of stream.new))
        × AreInOrder out.new result.count (next_place (place_of stream.old)) (next_place (place_of stream.new)) }
    ensures sound { IsSoundIn U.carried stream.old (length piece.now)
        → IsSoundIn U.carried stream.new (length piece.now - result.taken) }
    ensures place { IsSoundIn U.carried stream.old (length piece.now) → stream.old.ended ≡ 0 → stream.old.profile ≤ 3
        → stream.new.at + length (cut_units U.carried stream.new)
        ≡ stream.old.at + length (cut_units U.carried stream.old) + result.taken }
    ensures only_last { last ≡ false → stream.new.ended ≡ stream.old.ended }
    ensures start { (cell : ℕ → Cell) (profile : Profile) (text : List U)
        → IsFlatBy (K.kinds_of table.now) (K.pairs_of table.now) cell
        → length text < 2 ^ 64
        → stream.old ≡ stream_start profile
        → StreamsIn U.pieces_of U.carried cell (K.kinds_of table.now) (K.pairs_of table.now) stream.old text
        (breaks_of_pieces profile cell (U.pieces_of
        text)) }
    // A part of a text: places count from the text's start, if the part's place is given, and the text may go on
    // after it.
    ensures part { (cell : ℕ → Cell) (profile : Profile) (goes_on : Bool) (at : ℕ) (text : List U)
        → IsFlatBy (K.kinds_of table.now) (K.pairs_of table.now) cell → at + length text < 2 ^ 64
        → stream.old ≡ part_stream goes_on profile at
        → StreamsIn U.pieces_of U.carried cell (K.kinds_of table.now) (K.pairs_of table.now) stream.old text
        (map (moved at) (breaks_of_part_of goes_on profile cell (U.pieces_of text))) }
    // Whatever units follow the piece (none, where it is the last): what comes of all of them comes first of this call.
    ensures front { (cell : ℕ → Cell) (more : List U) (to_come : List Break)
        → StreamsIn U.pieces_of U.carried cell (K.kinds_of table.now) (K.pairs_of table.now) stream.old
        (piece.now ++ more) to_come
        → (last ≡ true → more ≡ []) → given_in out.new result.count ≡ take result.count to_come }
    ensures rest { (cell : ℕ → Cell) (more : List U) (to_come : List Break)
        → StreamsIn U.pieces_of U.carried cell (K.kinds_of table.now) (K.pairs_of table.now) stream.old
        (piece.now ++ more) to_come
        → (last ≡ true → more ≡ [])
        → StreamsIn U.pieces_of U.carried cell (K.kinds_of table.now) (K.pairs_of table.now) stream.new
        (drop result.taken piece.now ++ more) (drop
        result.count to_come) }
    ensures settled { (cell : ℕ → Cell) (more : List U) (to_come : List Break)
        → StreamsIn U.pieces_of U.carried cell (K.kinds_of table.now) (K.pairs_of table.now) stream.old
        (piece.now ++ more) to_come
        → last ≡ false → stream.old.ended ≡ 0 → result.count < length out.old
        → AreUnsettledIn U.pieces_of U.carried U.could_go_on cell stream.new more (drop result.count to_come) }
    ensures seen { (cell : ℕ → Cell) (more : List U) (to_come : List Break)
        → StreamsIn U.pieces_of U.carried cell (K.kinds_of table.now) (K.pairs_of table.now) stream.old
        (piece.now ++ more) to_come
        → (last ≡ true → more ≡ []) → stream.old.ended ≡ 0
        → stream.new.at + length (cut_units U.carried stream.new)
        ≡ stream.old.at + length (cut_units U.carried stream.old) + result.taken }
    ensures cut { stream.old.cut_size ≤ U.widest → stream.new.cut_size ≤ U.widest }
    ensures closed { last ≡ true → stream.old.ended ≡ 0 → stream.old.profile ≤ 3 → result.count < length out.old
        → (stream.new.cut_size ≡ 0) × (stream.new.held_code ≡ 0) }
    ensures end { (cell : ℕ → Cell) (to_come : List Break) → StreamsIn U.pieces_of U.carried cell (K.kinds_of table.now)
        (K.pairs_of table.now) stream.old
        piece.now to_come
        → last ≡ true → result.count < length out.old → result.count ≡ length to_come }
    ensures ended { last ≡ true → result.count < length out.old → 0 < stream.new.ended ⊎ (3 < stream.old.profile) }
    ensures stays { 0 < stream.old.ended ⊎ ((3 < stream.old.profile) ⊎ (length out.old ≡ 0)) → (result.count ≡ 0)
        × (stream.new ≡ stream.old) }
    ensures no_room { length out.old ≡ 0 → result.taken ≡ 0 }
{
    if out.is_empty() {
        return Fed { taken: 0, count: 0 };
    }
    let Some(profile) = live_profile(stream) else {
        return Fed {
            taken: piece.len(),
            count: 0,
        };
    };
    let start = start_of(stream);
    let here = take_piece(table, profile, start, piece, out);
    if last {
        let done = drain(table, profile, here, true, out);
        return close(stream, done, out);
    }
    keep(stream, here);
    Fed {
        taken: here.taken,
        count: here.count,
    }
}

/// The profile of a stream from which breaks may come: none where it has ended, or names none.
fn live_profile(stream: &Stream) -> Option<Profile>
    ensures { MatchOption result ((0 < stream.now.ended) ⊎ (profile_numbered (plain_number stream.now.profile) ≡ None))
        (λ profile. (stream.now.ended ≡ 0) × (profile_numbered (plain_number stream.now.profile) ≡ Some profile)) }
{
    if stream.ended != 0 {
        return None;
    }
    profile_numbered(plain_number(stream.profile))
}

/// Where a call begins.
fn start_of<U: StreamUnit>(stream: &Stream) -> Feeding<U>
    ensures place { result.place ≡ place_of stream.now }
    ensures cut { HoldsCut U.carried U.widest stream.now result.cut }
    ensures fresh { (result.taken ≡ 0) × (result.count ≡ 0) }
{
    Feeding {
        place: StreamPosition {
            at: stream.at,
            held_at: stream.held_at,
            row: stream.row,
            held_code: stream.held_code,
        },
        cut: U::cut_of(stream),
        taken: 0,
        count: 0,
    }
}

/// Writes how far a call has come into the stream.
fn keep<U: StreamUnit>(stream: &mut Stream, here: Feeding<U>)
    requires { here.cut.size ≤ U.widest }
    ensures place { place_of stream.new ≡ here.place }
    ensures cut { (cut_units U.carried stream.new ≡ front_of here.cut) × (length (cut_units U.carried stream.new)
        ≡ here.cut.size)
        × (stream.new.cut_size ≡ here.cut.size) }
    ensures same { (stream.new.profile ≡ stream.old.profile) × (stream.new.ended ≡ stream.old.ended) }
{
    stream.at = here.place.at;
    stream.held_at = here.place.held_at;
    stream.row = here.place.row;
    stream.held_code = here.place.held_code;
    stream.cut = U::bytes_of(here.cut);
    stream.cut_size = here.cut.size as u8;
}

/// Writes how far a call has come into the stream, and the break at its end, where the block has room for it.
fn close<U: StreamUnit>(stream: &mut Stream, here: Feeding<U>, out: &mut [RawBreak]) -> Fed
    requires { (here.cut.size ≤ U.widest) × (here.count ≤ length out.old) }
    ensures within { (result.count ≤ length out.old) × (result.taken ≡ here.taken) }
    ensures breaks { AreBreaks out.old here.count → AreBreaks out.new result.count }
    ensures few { result.count + most_left_in U.carried stream.new
        ≤ here.count + min here.place.held_code 1 + here.cut.size + 1 }
    ensures in_order { (base from : ℕ) → IsOrdered out.old base from here
        → AreInOrder out.new result.count from (suc here.place.at) }
    ensures placed { (base from : ℕ) → IsOrdered out.old base from here → stream.new.ended ≡ 0
        → IsPlaced out.new result.count from (place_of stream.new) }
    ensures waits { (base from : ℕ) → IsOrdered out.old base from here → 0 < stream.new.held_code
        → stream.new.held_at < stream.new.at }
    ensures profile_same { stream.new.profile ≡ stream.old.profile }
    ensures full { here.count ≡ length out.old → (result.count ≡ here.count) × (out.new ≡ out.old)
        × (place_of stream.new ≡ here.place)
        × (cut_units U.carried stream.new ≡ front_of here.cut) × (stream.new.ended ≡ stream.old.ended) }
    ensures ended { here.count < length out.old → (stream.new.ended ≡ 1) × (stream.new.held_code ≡ 0) }
    ensures seen { (stream.new.at ≡ here.place.at) × (length (cut_units U.carried stream.new) ≡ here.cut.size)
        × (stream.new.cut_size ≡ here.cut.size) }
    ensures end { here.count < length out.old
        → (profile : Profile) (cell : ℕ → Cell) (taken : List ℕ)
        → KnowsTaken cell here.place.row taken → (0 < here.place.row → 0 < length taken)
        → given_in out.new result.count ≡ given_in out.old here.count
        ++ end_in (goes_on stream.old.profile) profile cell taken here.place.at }
{
    let goes_on = goes_on(stream.profile);
    keep(stream, here);
    if here.count == out.len() {
        return Fed {
            taken: here.taken,
            count: here.count,
        };
    }
    stream.ended = 1;
    stream.held_code = 0;
    let row = place_by(here.place.row);
    let count = put_end(goes_on, row, out, here.count, here.place.at as usize);
    Fed {
        taken: here.taken,
        count,
    }
}
