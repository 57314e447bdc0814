//! One word of bits, which a caller may ask for again and again: little is done before its first byte.

ghost use Rattle.std.specs.Prelude.{◌≡◌, ℕ, ◌+◌, ◌<◌, ◌≤◌, ◌∷◌, [], get_or, length};
ghost use Rattle.lbk_bytes.specs.Terms.{Cell, IsFlatBy, IsPlace, Profile};
ghost use Rattle.lbk_bytes.specs.Marking.{AreClear, GathersFurther, Marked, MarksFurther, uncounted};
ghost use Rattle.lbk_bytes.specs.Reached.{Ahead, Reached};

use crate::fill_state::FillState;
use crate::held::take_ones;
use crate::mark_blocks::{are_told, mark_block};
use crate::marks::BITS;
use crate::pieces::pieces;
use crate::stepping::{emoji_and_scalars, run};
use crate::target::{Bits, BreakKinds};
use crate::width::Two;
use lbk_masks::nonzero;
use lbk_rules::{KindSource, Profile, rows_of};

/// A word of bits, and how far the call got that set them.
#[derive(Clone, Copy)]
pub(crate) struct OneWord {
    /// A bit for each break from the start on.
    pub(crate) word: u64,
    /// How far the call got. It counts no breaks.
    pub(crate) here: FillState,
}

/// A bit for each break from the start on, before a byte that is at most 64 further.
#[inline(always)]
pub(crate) fn one_word<K: KindSource>(
    table: &K,
    profile: Profile,
    start: FillState,
    stop: usize,
    text: &[u8],
) -> OneWord
    requires { IsPlace start.row × (start.at ≤ stop) × (stop ≤ start.at + 64) × (stop ≤ length text.now) }
    ensures within { IsPlace result.here.row × (stop ≤ result.here.at) × (result.here.at ≤ length text.now)
        × (result.here.at ≤ stop + 3) }
    ensures none { AreClear start.at result.here.at (result.word ∷ []) }
    ensures marked { (cell : ℕ → Cell) (all : Ahead) → IsFlatBy (K.kinds_of table.now) (K.pairs_of table.now) cell
        → Reached profile cell text.now all (uncounted start) []
        → Marked profile cell text.now all start.at stop result.here (result.word ∷ []) }
{
    let begun = by_block(table, profile, start, stop, text);
    if begun.here.at < stop {
        return gathered(table, profile, begun, start.at, stop, text);
    }
    begun
}

/// The same of the bytes that a block takes, if one seems to be of use.
#[inline(always)]
fn by_block<K: KindSource>(
    table: &K,
    profile: Profile,
    start: FillState,
    stop: usize,
    text: &[u8],
) -> OneWord
    requires { IsPlace start.row × (start.at ≤ stop) × (stop ≤ start.at + 64) × (stop ≤ length text.now) }
    ensures within { IsPlace result.here.row × (start.at ≤ result.here.at) × (result.here.at ≤ length text.now)
        × (result.here.at ≤ stop + 3) }
    ensures none { AreClear start.at result.here.at (result.word ∷ []) }
    ensures marked { (cell : ℕ → Cell) (all : Ahead) → IsFlatBy (K.kinds_of table.now) (K.pairs_of table.now) cell
        → Reached profile cell text.now all (uncounted start) []
        → Marked profile cell text.now all start.at stop result.here (result.word ∷ []) }
{
    let front = &text[..stop];
    if !are_told(&front[start.at..]) {
        return OneWord {
            word: 0,
            here: start,
        };
    }
    let mut word = [0];
    let steps = rows_of(profile);
    let there = mark_block(table, steps, start, start.at, front, &mut word);
    if there.at + 1 != stop {
        return with_bits(there, &word);
    }
    // A scalar of two bytes that begins in the last byte goes on behind it, so no block has it.
    let bits = Bits { from: start.at };
    let past = run::<true, Two, Bits, K>(bits, table, steps, there, stop, text, &mut word);
    with_bits(past, &word)
}

/// How far a call got, with the bits of a word.
#[inline(always)]
fn with_bits(here: FillState, word: &[u64; 1]) -> OneWord
    ensures { result ≡ record { word = get_or word.now 0 0; here = here } }
{
    OneWord {
        word: word[0],
        here,
    }
}

/// Takes scalars and ill-formed bytes, at least one of them, that begin before a byte. What is decided before each is
/// kept in a byte of its own, and then the bits of all are made.
#[inline(always)]
fn gathered<K: KindSource>(
    table: &K,
    profile: Profile,
    start: OneWord,
    from: usize,
    stop: usize,
    text: &[u8],
) -> OneWord
    requires { IsPlace start.here.row × (from ≤ start.here.at) × (start.here.at < stop) × (stop ≤ length text.now)
        × (stop ≤ from + 64) }
    ensures stops { stop ≤ result.here.at }
    ensures further { MarksFurther (K.kinds_of table.now) (K.pairs_of table.now) profile text.now from stop
        (start.word ∷ []) start.here (result.word ∷ []) result.here }
{
    let word = start.word;
    let mut kinds = [0; BITS];
    let mut here = start.here;
    while here.at < stop {
        here = gather_further(
            table,
            profile,
            here,
            BreakKinds { from, word },
            stop,
            text,
            &mut kinds,
        );
    }
    OneWord {
        word: word | nonzero(&kinds),
        here,
    }
}

/// Takes scalars and ill-formed bytes, at least one of them, that begin before a byte.
#[inline(always)]
fn gather_further<K: KindSource>(
    table: &K,
    profile: Profile,
    here: FillState,
    target: BreakKinds,
    stop: usize,
    text: &[u8],
    kinds: &mut [u8],
) -> FillState
    requires { IsPlace here.row × (target.from ≤ here.at) × (here.at < stop) × (stop ≤ length text.now)
        × (stop ≤ target.from + length kinds.old) }
    ensures { GathersFurther (K.kinds_of table.now) (K.pairs_of table.now) profile text.now target.from stop target.word
        kinds.old here kinds.new result }
{
    let steps = rows_of(profile);
    let common = emoji_and_scalars(target, table, steps, here, stop, text, kinds);
    if stop <= common.at {
        return common;
    }
    let past = pieces(target, table, steps, common, stop, text, kinds);
    if common.at < past.at {
        return past;
    }
    take_ones(target, table, profile, past, stop, text, kinds)
}
