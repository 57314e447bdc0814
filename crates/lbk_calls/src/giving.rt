//! The next breaks or positions of a text, a block at a time.

ghost use Rattle.std.specs.Prelude.{◌≡◌, ℕ, Bool, ◌+◌, ◌<◌, ◌≤◌, [], false, List, length};
ghost use Rattle.lbk_calls.specs.Terms.{AreInOrderBy, AtEnd, Break, Cell, Decoded, IsInOrderBy, IsInText, IsPlace};
ghost use Rattle.lbk_calls.specs.Terms.{First, Profile, end_in, position_end_in};
ghost use Rattle.lbk_bytes.specs.Steps.{FillsIn};
ghost use Rattle.lbk_calls.specs.Calls.{AreGivenWhole, GivesBreaks, GivesBy, GoesOver};
ghost use Rattle.lbk_calls.specs.Coming.{IsGoing, PutsEnd, UnitsGoOn, from_state, start_by};
ghost use Rattle.lbk_calls.specs.State.{goes_on, plain};

use crate::breaking::{going_profile, plain};
use crate::interface::State;
use lbk_bytes::{
    END, FEW, FillState, RawBreak, START, begins_emoji, end_shown, fill_few, fill_on, goes_on,
    put_end,
};
use lbk_rules::{KindSource, Profile, number_at, place_by, shows_break};
use lbk_units::{Breaks, Positions, Target, Unit, fill, put_position};

/// What a call gives of a text: its breaks, or all its positions.
pub trait Given: Target {
    // What comes at an end: of a part of a text after which the text goes on, or of the text.
    ghost end_in: { Bool → AtEnd };

    /// Writes what comes at an end after what stands in the front of the block, and returns how many these are now.
    fn put_end(goes_on: bool, row: usize, out: &mut [RawBreak], count: usize, at: usize) -> usize
        requires { (count < length out.old) × IsPlace row }
        ensures { PutsEnd Self.entry (λ profile cell taken at. Self.onward (end_in goes_on) profile cell taken at [])
            row out.old out.new count at result };
}

impl Given for Breaks {
    ghost end_in = { end_in };

    #[inline(always)]
    fn put_end(goes_on: bool, row: usize, out: &mut [RawBreak], count: usize, at: usize) -> usize {
        put_end(goes_on, row, out, count, at)
    }
}

impl Given for Positions {
    ghost end_in = { position_end_in };

    /// If the text ends, its last position comes; if it goes on, a position by rule 4 or 5, if a line must end there
    /// whatever follows.
    fn put_end(goes_on: bool, row: usize, out: &mut [RawBreak], count: usize, at: usize) -> usize {
        if goes_on {
            let shown = end_shown(true, row);
            if shows_break(shown) {
                return put_position(out, count, at, shown);
            }
            return count;
        }
        let last = if row == 0 { START } else { END };
        put_position(out, count, at, last)
    }
}

/// Puts the next of what is given of a text into the front of the block, and returns how many: of what pieces have as
/// a whole text and as a part of one, if that is what is given from their first on.
pub fn next_of<T: Given, U: Unit, K: KindSource>(
    table: &K,
    state: &mut State,
    text: &[U],
    out: &mut [RawBreak],
) -> usize
    ensures { (whole : Profile → (ℕ → Cell) → List Decoded → List Break)
        (part_of : Bool → Profile → (ℕ → Cell) → List Decoded → List Break)
        → AreGivenWhole T.onward T.end_in whole part_of
        → GivesBy T.entry T.onward T.end_in whole part_of U.pieces_of (K.kinds_of table.now) (K.pairs_of table.now)
        text.now state.old state.new
        (length out.old) out.new result }
{
    let Some(profile) = going_profile(&plain(state), text.len()) else {
        return 0;
    };
    let start = start_of(state);
    let here = fill::<U, T, K>(table, profile, start, text, out);
    settle::<T, U>(state, here, text, out)
}

/// Puts the next breaks of a text into the front of the block, as `lbk_breaks` does, and returns how many. They are
/// found by masks or without them.
pub fn give_breaks<const MASKS: bool, K: KindSource>(
    table: &K,
    state: &mut State,
    text: &[u8],
    out: &mut [RawBreak],
) -> usize
    ensures { GivesBreaks (K.kinds_of table.now) (K.pairs_of table.now) text.now state.old state.new (length out.old)
        out.new result }
{
    // A target that has no vectors is one where the size of the code counts, as in a page.
    if MASKS && state.at <= text.len() {
        let left = text.len() - state.at;
        if left < FEW && left < out.len() {
            if state.profile == 0 && state.ended == 0 {
                return give_plain::<MASKS, K>(table, state, text, out);
            }
            return give_few::<MASKS, K>(table, state, text, out);
        }
        if begins_emoji(&text[state.at..]) {
            return give_many::<MASKS, true, K>(table, state, text, out);
        }
    }
    give_many::<MASKS, false, K>(table, state, text, out)
}

/// Does the same where fewer bytes are left than the block has room for, in the first profile, in which no position is
/// held, and where the text ends with its last byte. It stands apart, as `give_few` and `give_many` do, so that what
/// one of them needs costs the others nothing.
#[inline(never)]
fn give_plain<const MASKS: bool, K: KindSource>(
    table: &K,
    state: &mut State,
    text: &[u8],
    out: &mut [RawBreak],
) -> usize
    requires plain { (state.old.profile ≡ 0) × (state.old.ended ≡ 0) }
    requires room { (state.old.at ≤ length text.now) × (length text.now < state.old.at + length out.old) }
    ensures { GivesBreaks (K.kinds_of table.now) (K.pairs_of table.now) text.now state.old state.new (length out.old)
        out.new result }
{
    give_in::<MASKS, false, K>(table, Profile::First, state, text, out)
}

/// Does the same in either profile, whether the text ends there or goes on.
#[inline(never)]
fn give_few<const MASKS: bool, K: KindSource>(
    table: &K,
    state: &mut State,
    text: &[u8],
    out: &mut [RawBreak],
) -> usize
    requires { (state.old.at ≤ length text.now) × (length text.now < state.old.at + length out.old) }
    ensures { GivesBreaks (K.kinds_of table.now) (K.pairs_of table.now) text.now state.old state.new (length out.old)
        out.new result }
{
    let Some(profile) = going_profile(&plain(state), text.len()) else {
        return 0;
    };
    give_in::<MASKS, true, K>(table, profile, state, text, out)
}

/// Does the same in a profile, by one loop for any state and one for those of `give_plain`.
#[inline(always)]
fn give_in<const MASKS: bool, const ANY: bool, K: KindSource>(
    table: &K,
    profile: Profile,
    state: &mut State,
    text: &[u8],
    out: &mut [RawBreak],
) -> usize
    requires going { IsGoing profile (plain state.old) (length text.now) }
    requires room { length text.now < state.old.at + length out.old }
    requires settled { ANY ≡ false → (profile ≡ First) × (state.old.profile ≡ 0) }
    ensures { GivesBreaks (K.kinds_of table.now) (K.pairs_of table.now) text.now state.old state.new (length out.old)
        out.new result }
{
    let start = start_of(state);
    let begun = fill_few::<ANY, K>(table, profile, start, text, out);
    if begun.at < text.len() {
        let FillState { count, row, at } = begun;
        return give_rest::<MASKS, K>(table, profile, state, count, row, at, text, out);
    }
    let continues = ANY && goes_on(state.profile);
    settle_end::<Breaks, u8>(continues, state, begun, text, out)
}

/// Goes on from where few bytes were taken, and moves the state. It takes that place field by field: a state that a call
/// takes stands in memory, which each call over few bytes would pay for.
#[inline(never)]
fn give_rest<const MASKS: bool, K: KindSource>(
    table: &K,
    profile: Profile,
    state: &mut State,
    count: usize,
    row: usize,
    at: usize,
    text: &[u8],
    out: &mut [RawBreak],
) -> usize
    requires going { IsGoing profile (plain state.old) (length text.now) }
    requires some { 0 < length out.old }
    requires within { IsInText (record { count = count; row = row; at = at }) (length text.now) (length out.old) }
    ensures { (start : FillState) (old : List RawBreak) → start ≡ start_by state.old
        → (IsPlace state.old.row → start ≡ from_state state.old) → length old ≡ length out.old
        → FillsIn profile (K.kinds_of table.now) (K.pairs_of table.now) text.now old start out.old
        (record { count = count; row = row; at = at })
        → GivesBreaks (K.kinds_of table.now) (K.pairs_of table.now) text.now state.old state.new (length old) out.new
        result }
{
    let begun = FillState { count, row, at };
    let here = fill_on::<MASKS, false, K>(table, profile, begun, text, out);
    settle::<Breaks, u8>(state, here, text, out)
}

/// Does the same of any text, in which emoji may be expected at the front (`EMOJI`).
#[inline(never)]
fn give_many<const MASKS: bool, const EMOJI: bool, K: KindSource>(
    table: &K,
    state: &mut State,
    text: &[u8],
    out: &mut [RawBreak],
) -> usize
    ensures { GivesBreaks (K.kinds_of table.now) (K.pairs_of table.now) text.now state.old state.new (length out.old)
        out.new result }
{
    let Some(profile) = going_profile(&plain(state), text.len()) else {
        return 0;
    };
    let start = start_of(state);
    let here = lbk_bytes::fill::<MASKS, EMOJI, false, K>(table, profile, start, text, out);
    settle::<Breaks, u8>(state, here, text, out)
}

/// Where a call starts.
#[inline(always)]
pub fn start_of(state: &State) -> FillState
    ensures place { IsPlace result.row }
    ensures starts { result ≡ start_by state.now }
    ensures same { IsPlace state.now.row → result ≡ from_state state.now }
{
    FillState {
        count: 0,
        row: place_by(state.row),
        at: state.at,
    }
}

/// Moves the state to where a call got, puts what comes at the end if the text ends there and the block has room, and
/// returns how many the block has.
#[inline(always)]
fn settle<T: Given, U: Unit>(
    state: &mut State,
    here: FillState,
    text: &[U],
    out: &mut [RawBreak],
) -> usize
    requires within { IsInText here (length text.now) (length out.old) }
    requires stops { here.count < length out.old → here.at ≡ length text.now }
    requires unended { state.old.ended ≡ 0 }
    ensures goes_over { (profile : Profile) → IsGoing profile (plain state.old) (length text.now)
        → IsInOrderBy T.entry out.old here.count state.old.at here.at
        → (length out.old ≡ 0 → here ≡ start_by state.old)
        → GoesOver (AreInOrderBy T.entry) state.old state.new (length text.now) (length out.old) out.new result }
    ensures goes { UnitsGoOn (T.onward (T.end_in (goes_on state.old.profile))) U.pieces_of text.now state.old here
        out.old state.new out.new result }
{
    state.row = number_at(here.row, state.row);
    state.at = here.at;
    if here.count == out.len() {
        return here.count;
    }
    end::<T>(goes_on(state.profile), state, here, text.len(), out)
}

/// Moves the state to the end of a text that was all taken, puts what comes there, and returns how many the block has.
#[inline(always)]
fn settle_end<T: Given, U: Unit>(
    continues: bool,
    state: &mut State,
    here: FillState,
    text: &[U],
    out: &mut [RawBreak],
) -> usize
    requires within { IsInText here (length text.now) (length out.old) }
    requires ends { (here.at ≡ length text.now) × (here.count < length out.old) }
    requires continues { continues ≡ goes_on state.old.profile }
    ensures goes_over { (profile : Profile) → IsGoing profile (plain state.old) (length text.now)
        → IsInOrderBy T.entry out.old here.count state.old.at here.at
        → GoesOver (AreInOrderBy T.entry) state.old state.new (length text.now) (length out.old) out.new result }
    ensures goes { UnitsGoOn (T.onward (T.end_in (goes_on state.old.profile))) U.pieces_of text.now state.old here
        out.old state.new out.new result }
{
    state.row = here.row as u16;
    state.at = text.len();
    end::<T>(continues, state, here, text.len(), out)
}

/// Puts what comes at the end of a text, after which nothing comes from the state on, and returns how many the block
/// has.
#[inline(always)]
fn end<T: Given>(
    continues: bool,
    state: &mut State,
    here: FillState,
    at: usize,
    out: &mut [RawBreak],
) -> usize
    requires room { (here.count < length out.old) × IsPlace here.row }
    requires continues { continues ≡ goes_on state.old.profile }
    ensures ended { state.new ≡ record {
      at = state.old.at;
      row = state.old.row;
      profile = state.old.profile;
      ended = 1;
    } }
    ensures puts { PutsEnd T.entry
        (λ profile cell taken at. T.onward (T.end_in (goes_on state.old.profile)) profile cell taken at [])
        here.row out.old out.new here.count at result }
{
    state.ended = 1;
    T::put_end(continues, here.row, out, here.count, at)
}
