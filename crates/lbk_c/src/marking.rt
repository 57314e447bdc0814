//! The breaks of a text as bits, one for each byte.

ghost use Rattle.std.specs.Prelude.{◌≡◌, ℕ, false, suc, ◌+◌, ◌-◌, ◌*◌, ◌<◌, ◌≤◌, ◌⊎◌, [], List, length, min};
ghost use Rattle.lbk_calls.specs.Terms.{Break, Cell, IsFlatBy, UnitsReachedBy, is_marked, on_from, pieces};
ghost use Rattle.lbk_calls.specs.Calls.{BreaksComeAtStart};
ghost use Rattle.lbk_calls.specs.Coming.{Comes, IsGoing, MarksBy, from_state, onward_in};
ghost use Rattle.lbk_calls.specs.State.{plain};
ghost use Rattle.lbk_c.specs.Marks.{MarksNext, MarksOver, MarksWords};

use lbk_bytes::{FillState, clear, fill_marks, goes_on, mark_end};
use lbk_calls::{State, going_profile, plain};
use lbk_rules::{FlatTable, KindSource, Profile, number_at, place_by};

/// How many bits a word has.
const BITS: usize = 64;

/// Sets a bit for each of the next offsets of a text, from the state's on, at which `lbk_breaks` returns a break, and
/// clears all other bits. The lowest bit of the first word is for the state's offset. Returns how many offsets the
/// words cover, including the text's end: as many as they have bits, or all that are left. The state advances to the
/// first scalar after those.
///
/// Returns 0, clears all bits and leaves the state unchanged if there are no words, if the end was covered, if the
/// state is past it, or if the profile is unknown. With any table and state, no bit after the covered offsets is set,
/// and the state advances at most three bytes past them.
#[unsafe(no_mangle)]
pub extern "C" fn lbk_marks(
    table: &FlatTable,
    state: &mut State,
    text: &[u8],
    words: &mut [u64],
) -> usize
    ensures marks_over { MarksOver state.old state.new (length text.now) (length words.old) words.new result }
    ensures begins { BreaksComeAtStart table.now.kinds table.now.pairs text.now state.old }
    ensures marks_next { (cell : ℕ → Cell) (to_come : List Break)
        → Comes cell table.now.kinds table.now.pairs text.now state.old to_come
        → MarksNext cell table.now.kinds table.now.pairs text.now state.old state.new (length words.old) words.new
        to_come }
{
    if words.len() == 1 {
        return marks_of_one(table, state, text, words);
    }
    marks_of_many(table, state, text, words)
}

/// Does the same for one word. It stands apart, as `marks_of_many` does, so that what one of them needs costs the other
/// nothing.
#[inline(never)]
fn marks_of_one<K: KindSource>(
    table: &K,
    state: &mut State,
    text: &[u8],
    words: &mut [u64],
) -> usize
    requires { length words.old ≡ 1 }
    ensures { MarksWords (K.kinds_of table.now) (K.pairs_of table.now) text.now state.old state.new (length words.old)
        words.new result }
{
    // (so that the compiler knows the length)
    marks_of::<true, K>(table, state, text, &mut words[..1])
}

/// Does the same for any words.
#[inline(never)]
fn marks_of_many<K: KindSource>(
    table: &K,
    state: &mut State,
    text: &[u8],
    words: &mut [u64],
) -> usize
    ensures { MarksWords (K.kinds_of table.now) (K.pairs_of table.now) text.now state.old state.new (length words.old)
        words.new result }
{
    marks_of::<false, K>(table, state, text, words)
}

/// Does the same, by the loop for one word where there is one and it is asked for.
#[inline(always)]
fn marks_of<const ONE: bool, K: KindSource>(
    table: &K,
    state: &mut State,
    text: &[u8],
    words: &mut [u64],
) -> usize
    ensures { MarksWords (K.kinds_of table.now) (K.pairs_of table.now) text.now state.old state.new (length words.old)
        words.new result }
{
    let Some(profile) = going_profile(&plain(state), text.len()) else {
        clear(words);
        return 0;
    };
    go_on::<ONE, K>(table, profile, state, text, words)
}

/// Sets the bits from a state from which breaks may be left, and returns how many offsets they cover.
#[inline(always)]
fn go_on<const ONE: bool, K: KindSource>(
    table: &K,
    profile: Profile,
    state: &mut State,
    text: &[u8],
    words: &mut [u64],
) -> usize
    requires { IsGoing profile (plain state.old) (length text.now) }
    ensures told { result ≡ min (64 * length words.old) (suc (length text.now) - state.old.at) }
    ensures after { (i : ℕ) → result ≤ i → is_marked words.new i ≡ false }
    ensures profile_same { state.new.profile ≡ state.old.profile }
    ensures forward { 0 < result → (state.old.at < state.new.at) ⊎ (0 < state.new.ended) }
    ensures onward { (state.old.at ≤ state.new.at) × (state.new.at ≤ length text.now) }
    ensures near { state.new.at ≤ state.old.at + 64 * length words.old + 3 }
    ensures at_end { 0 < state.new.ended → state.new.at ≡ length text.now }
    ensures all { length text.now < state.old.at + 64 * length words.old → 0 < state.new.ended }
    ensures more { state.old.at + 64 * length words.old ≤ length text.now
        → (state.new.ended ≡ 0) × (state.old.at + 64 * length words.old ≤ state.new.at) }
    ensures marks { (cell : ℕ → Cell) (to_come : List Break)
        → IsFlatBy (K.kinds_of table.now) (K.pairs_of table.now) cell
        → UnitsReachedBy (onward_in state.old.profile) profile cell (on_from pieces text.now) to_come
        (from_state (plain state.old)) []
        → MarksBy (onward_in state.old.profile) profile cell text.now to_come state.old.at (plain state.new)
        words.new }
    ensures no_room { length words.old ≡ 0 → state.new ≡ state.old }
{
    let from = state.at;
    let start = FillState {
        count: 0,
        row: place_by(state.row),
        at: from,
    };
    let here = fill_marks::<ONE, K>(table, profile, start, text, words);
    state.row = number_at(here.row, state.row);
    state.at = here.at;
    let left = text.len() - from;
    if words.len() <= left / BITS {
        return BITS * words.len();
    }
    state.ended = 1;
    mark_end(goes_on(state.profile), here.row, words, left);
    left + 1
}
