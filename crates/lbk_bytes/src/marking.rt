//! Words that are filled with a bit for each byte of a text.

ghost use Rattle.std.specs.Prelude.{◌≡◌, ℕ, ◌+◌, ◌*◌, ◌<◌, ◌≤◌, ◌||◌, [], List, false, length, min};
ghost use Rattle.lbk_bytes.specs.Terms.{Cell, IsFlatBy, IsPlace, KnowsTaken, Profile};
ghost use Rattle.lbk_bytes.specs.Bytes.{end_in};
ghost use Rattle.lbk_bytes.specs.Marking.{Marked, MarksFurther, uncounted};
ghost use Rattle.lbk_bytes.specs.Marks.{is_marked, stands_among};
ghost use Rattle.lbk_bytes.specs.Reached.{Ahead, Reached};

use crate::ends::end_shown;
use crate::fill_state::FillState;
use crate::held::take_ones;
use crate::mark_blocks::mark_blocks;
use crate::marks::{BITS, clear, mark};
use crate::one_word::one_word;
use crate::stepping::{emoji, quick};
use crate::target::Bits;
use crate::tries::{begins_emoji, next_try};
use lbk_rules::{KindSource, Profile, rows_of, shows_break};

/// Sets a bit for each break from the start on, the first for the byte there, and clears all other bits of the words.
/// Goes on until each byte with a bit was taken, or the text ends. What comes at the end is not set. A caller that asks
/// for one word is one that often has one: then it is taken apart, with little done before its first byte.
#[inline(always)]
pub fn fill_marks<const ONE: bool, K: KindSource>(
    table: &K,
    profile: Profile,
    start: FillState,
    text: &[u8],
    words: &mut [u64],
) -> FillState
    requires { IsPlace start.row × (start.at ≤ length text.now) }
    ensures within { IsPlace result.row × (start.at ≤ result.at) × (result.at ≤ length text.now) }
    ensures near { result.at ≤ start.at + 64 * length words.old + 3 }
    ensures stops { min (length text.now) (start.at + 64 * length words.old) ≤ result.at }
    ensures no_room { length words.old ≡ 0 → result ≡ start }
    ensures after { (i : ℕ) → result.at ≤ start.at + i → is_marked words.new i ≡ false }
    ensures marked { (cell : ℕ → Cell) (all : Ahead) → IsFlatBy (K.kinds_of table.now) (K.pairs_of table.now) cell
        → Reached profile cell text.now all (uncounted start) []
        → Marked profile cell text.now all start.at (min (length text.now) (start.at + 64 * length words.old))
        result words.new }
{
    let stop = stop_of(start.at, text, words.len());
    if ONE && words.len() == 1 {
        let found = one_word(table, profile, start, stop, text);
        words[0] = found.word;
        return found.here;
    }
    clear(words);
    let mut here = start;
    while here.at < stop {
        here = mark_further(table, profile, here, start.at, stop, text, words);
    }
    here
}

/// The byte after the last that has a bit.
fn stop_of(from: usize, text: &[u8], words: usize) -> usize
    requires { from ≤ length text.now }
    ensures { result ≡ min (length text.now) (from + 64 * words) }
{
    if (text.len() - from) / BITS < words {
        return text.len();
    }
    from + BITS * words
}

/// Takes scalars, at least one, that begin before a byte: emoji, or blocks of bytes and then others.
fn mark_further<K: KindSource>(
    table: &K,
    profile: Profile,
    here: FillState,
    from: usize,
    stop: usize,
    text: &[u8],
    words: &mut [u64],
) -> FillState
    requires { IsPlace here.row × (from ≤ here.at) × (here.at < stop) × (stop ≤ length text.now)
        × (stop ≤ from + 64 * length words.old) }
    ensures { MarksFurther (K.kinds_of table.now) (K.pairs_of table.now) profile text.now from stop words.old here
        words.new result }
{
    if begins_emoji(&text[here.at..]) {
        return mark_emoji(table, profile, here, from, stop, text, words);
    }
    mark_usual(table, profile, here, from, stop, text, words)
}

/// Takes emoji, or one scalar whatever it is.
fn mark_emoji<K: KindSource>(
    table: &K,
    profile: Profile,
    here: FillState,
    from: usize,
    stop: usize,
    text: &[u8],
    words: &mut [u64],
) -> FillState
    requires { IsPlace here.row × (from ≤ here.at) × (here.at < stop) × (stop ≤ length text.now)
        × (stop ≤ from + 64 * length words.old) }
    ensures { MarksFurther (K.kinds_of table.now) (K.pairs_of table.now) profile text.now from stop words.old here
        words.new result }
{
    let target = Bits { from };
    let past = emoji(target, table, rows_of(profile), here, stop, text, words);
    if here.at < past.at {
        return past;
    }
    take_ones(target, table, profile, past, stop, text, words)
}

/// Takes blocks of bytes and then scalars, at least one, that begin before a byte.
fn mark_usual<K: KindSource>(
    table: &K,
    profile: Profile,
    here: FillState,
    from: usize,
    stop: usize,
    text: &[u8],
    words: &mut [u64],
) -> FillState
    requires { IsPlace here.row × (from ≤ here.at) × (here.at < stop) × (stop ≤ length text.now)
        × (stop ≤ from + 64 * length words.old) }
    ensures { MarksFurther (K.kinds_of table.now) (K.pairs_of table.now) profile text.now from stop words.old here
        words.new result }
{
    let steps = rows_of(profile);
    let front = &text[..stop];
    let there = mark_blocks(table, steps, here, from, front, words);
    if there.at == stop {
        return there;
    }
    let until = next_try::<true>(there.at, front);
    let past = quick::<false, Bits, K>(Bits { from }, table, steps, there, until, text, words);
    if until <= past.at {
        return past;
    }
    take_ones(Bits { from }, table, profile, past, stop, text, words)
}

/// Sets the bit of a text's end, or of the end of a part of one, if a line may or must end there.
pub fn mark_end(goes_on: bool, row: usize, words: &mut [u64], index: usize)
    requires { (index < 64 * length words.old) × IsPlace row }
    ensures after { (i : ℕ) → index < i → is_marked words.new i ≡ is_marked words.old i }
    ensures marked { (profile : Profile) (cell : ℕ → Cell) (taken : List ℕ) (from : ℕ)
        → KnowsTaken cell row taken → (0 < row → 0 < length taken)
        → (i : ℕ) → is_marked words.new i
        ≡ (is_marked words.old i || stands_among (from + i) (end_in goes_on profile cell taken (from + index))) }
{
    let shown = end_shown(goes_on, row);
    mark(words, index, shows_break(shown));
}
