//! Words among ASCII, letters of two bytes and some of three, found by bits of 64 bytes at a time. Those of three are
//! U+1E00 to U+1EFF (Latin Extended Additional) and the Hangul syllables U+AC00 to U+D77F.

ghost use Rattle.std.specs.Prelude.{◌≡◌, ◌⊎◌, ℕ, ◌+◌, ◌-◌, ◌<◌, ◌≤◌, ◌^◌, ◌&&◌, List, drop, length, nat_lt, true};
ghost use Rattle.lbk_masks.specs.Sets.{is_set};
ghost use Rattle.lbk_words.specs.Blocks.{AreEdges, AreMarks, AreWides, is_long};
ghost use Rattle.lbk_words.specs.Filling.{FillsOn, IsFilled};

use crate::letter_table::{FIRSTS, SECONDS};
use crate::parts::fill_by_scalars;
use crate::word::{Filled, Word};
use lbk_masks::{HalfSets, equal, first_set, kept_below, kept_from, wide, without_first};

/// How many bytes are examined together.
pub(crate) const BLOCK: usize = 64;

/// The last of them, whose next byte is not looked at.
const LAST: usize = 63;

/// The first byte that may be left to steps for the last one: the letter before a letter that the block's end cuts, where
/// both have three bytes.
const NEAR_LAST: usize = 59;

/// Where more of 64 bytes than this are left to steps, a block costs more than it saves.
const MANY: u32 = 20;

/// How often steps go on up to a byte that is none of these. A block that is left more often costs more than it saves.
const TURNS: u32 = 3;

/// How many bytes then go by steps before a block is tried again.
const PAUSE: usize = 512;

/// The first byte of emoji and of most other scalars of four bytes.
const EMOJI: u8 = 0xF0;

/// Where more of 64 bytes than this are such, scalars of three bytes and of four are read alike.
const FEW: u32 = 3;

/// The sets of bytes that are asked for.
const HALVES: HalfSets = HalfSets {
    low: [6, 7, 7, 7, 7, 7, 7, 23, 7, 7, 67, 129, 33, 1, 17, 9],
    high: [0, 0, 48, 196, 1, 10, 1, 2, 0, 0, 0, 0, 0, 0, 0, 0],
};

const LETTERS: u8 = 3;

const DIGITS: u8 = 4;

const LOW_LINES: u8 = 8;

const MID_LETTERS: u8 = 80;

const MID_DIGITS: u8 = 176;

/// The first bytes of letters of three, by the sets of those that follow: of U+1E00 to U+1EFF (E1), and of the Hangul
/// syllables U+AC00 to U+D77F (EA to ED).
const LEADS: HalfSets = HalfSets {
    low: [0, 1, 0, 0, 0, 0, 0, 0, 0, 0, 2, 4, 4, 24, 0, 0],
    high: [0, 0, 0, 0, 0, 0, 0, 0, 0, 0, 0, 0, 0, 0, 31, 0],
};

/// The sets of the bytes that follow them: B8 to BB, B0 to BF, 80 to BF, 80 to 8F, and 90 to 9D.
const TAILS: HalfSets = HalfSets {
    low: [
        30, 30, 30, 30, 30, 30, 30, 30, 31, 31, 31, 31, 30, 30, 14, 14,
    ],
    high: [0, 0, 0, 0, 0, 0, 0, 0, 12, 20, 4, 7, 0, 0, 0, 0],
};

/// The set of the last bytes of three.
const LASTS: u8 = 4;

/// What is known of those of 64 bytes that are from 128 on, a bit each.
#[derive(Clone, Copy)]
pub(crate) struct Wides {
    /// Which are of letters of two bytes, or of those of three.
    pub(crate) letters: u64,
    /// Which of these go on with a letter that began before them.
    pub(crate) inner: u64,
    /// Which are left to steps: strays, which are of no such letter, the last byte, and what is before one of these.
    pub(crate) stops: u64,
}

/// What is known of 64 bytes, a bit each.
#[derive(Clone, Copy)]
pub(crate) struct Marks {
    /// Which are of runs of letters, digits and low lines, or of a mark within one.
    pub(crate) runs: u64,
    /// Which begin letters or digits.
    pub(crate) begins: u64,
    /// Which are left to steps.
    pub(crate) stops: u64,
}

/// Where runs begin and end among some bytes.
#[derive(Clone, Copy)]
pub(crate) struct Edges {
    /// A bit for the first byte of each run, and for the first after it.
    pub(crate) edges: u64,
    /// The first byte that is left to steps.
    pub(crate) stop: usize,
}

/// What is known of the first 64 bytes from 128 on.
#[inline(always)]
pub(crate) fn wides_of(bytes: &[u8]) -> Wides
    requires { 64 ≤ length bytes.now }
    ensures { AreWides bytes.now result }
{
    let wide = wide(bytes);
    if wide == 0 {
        return Wides {
            letters: 0,
            inner: 0,
            stops: 1 << LAST,
        };
    }
    let firsts = FIRSTS.pairs(&SECONDS, bytes);
    let longs = longs_among(wide & !(firsts | (firsts << 1)), bytes);
    // Those whose letter goes on with the next byte.
    let opens = (firsts | longs) | (longs << 1);
    let inner = opens << 1;
    let letters = opens | inner;
    let strays = wide & !letters;
    let near = strays | (strays >> 1) | (1 << LAST);
    let cut = near | (opens & (near >> 1));
    Wides {
        letters,
        inner,
        stops: cut | (longs & (cut >> 1)),
    }
}

/// Which of the first 64 bytes begin letters of three. `others`: those from 128 on that are of no letter of two.
#[inline(always)]
fn longs_among(others: u64, bytes: &[u8]) -> u64
    requires length { 64 ≤ length bytes.now }
    requires others { (i : ℕ) → i < 64 → is_long bytes.now i ≡ true → (j : ℕ) → j < 3 → is_set others (i + j) ≡ true }
    ensures { (i : ℕ) → i < 64 → is_set result i ≡ is_long bytes.now i }
{
    // Most of the others are of scalars of two bytes, or are few.
    if others & (others >> 1) & (others >> 2) == 0 {
        return 0;
    }
    let leads = LEADS.pairs(&TAILS, bytes);
    // Most text has none.
    if leads == 0 {
        return 0;
    }
    leads & (TAILS.members(LASTS, bytes) >> 2)
}

/// The marks of the first 64 bytes, those from the byte `N` on as for `ends_in`.
#[inline(always)]
pub(crate) fn marks_of<const N: usize>(bytes: &[u8], wides: Wides) -> Marks
    requires length { 64 ≤ length bytes.now }
    requires wides { AreWides bytes.now wides }
    ensures { AreMarks bytes.now result }
{
    let letters = HALVES.members(LETTERS, bytes) | wides.letters;
    let digits = HALVES.members(DIGITS, bytes);
    let low_lines = HALVES.members(LOW_LINES, bytes);
    let mid_letters = between(HALVES.members(MID_LETTERS, bytes), letters);
    let mid_digits = between(HALVES.members(MID_DIGITS, bytes), digits);
    Marks {
        runs: letters | digits | low_lines | (mid_letters | mid_digits),
        begins: (letters | digits) & !wides.inner,
        stops: wides.stops,
    }
}

/// Those of some bits that are between two of the others.
#[inline(always)]
fn between(bits: u64, others: u64) -> u64
    ensures { (i : ℕ) → i < 63 → is_set result i
        ≡ (is_set bits i && ((nat_lt 0 i && is_set others (i - 1)) && is_set others (i + 1))) }
{
    bits & ((others << 1) & (others >> 1))
}

/// Where runs begin and end from a byte on, which begins none with what is before it.
#[inline(always)]
fn edges_from(marks: Marks, first: usize) -> Edges
    requires { first < 64 }
    ensures stop { result.stop < 64 }
    ensures edges { (bytes : List ℕ) → AreMarks bytes marks → AreEdges bytes first result }
{
    let runs = kept_from(marks.runs, first);
    let before = runs << 1;
    let others = (runs & !before) & !marks.begins;
    let stop = first_set(kept_from(marks.stops, first) | others);
    Edges {
        edges: kept_below(runs ^ before, stop),
        stop,
    }
}

/// Writes each run as a word that has an end.
#[inline(always)]
fn fill_runs(base: usize, found: Edges, here: Filled, out: &mut [Word]) -> Filled
    requires { (base ≤ here.at) × (base + 64 < 2 ^ 64) × (here.count ≤ length out.old) }
    ensures filled { (text : List ℕ) (start : ℕ) → base + 64 ≤ length text
        → AreEdges (drop base text) (here.at - base) found
        → IsFilled text start here.at here.count out.old → IsFilled text start result.at result.count out.new }
    ensures onward { (bytes : List ℕ) → AreEdges bytes (here.at - base) found → here.at ≤ result.at }
    ensures count { (here.count ≤ result.count) × (result.count ≤ length out.old) }
    ensures within { (result.at ≡ here.at) ⊎ (result.at < base + 64) }
{
    let mut here = here;
    let mut left = found.edges;
    while here.count < out.len() && 0 < left {
        let begin = first_set(left);
        let behind = without_first(left);
        if behind == 0 {
            break;
        }
        let end = first_set(behind);
        out[here.count] = Word {
            start: base + begin,
            end: base + end,
        };
        here = Filled {
            count: here.count + 1,
            at: base + end,
        };
        left = without_first(behind);
    }
    here
}

/// Goes on filling a block of words from a boundary, by the next 64 bytes: runs by the marks of the bytes, and the rest
/// scalar by scalar.
pub(crate) fn fill_by_marks(text: &[u8], start: Filled, out: &mut [Word]) -> Filled
    requires { (start.count < length out.old) × (start.at + 64 ≤ length text.now) }
    ensures fills { FillsOn text.now start out.old result out.new }
    ensures further { result.count < length out.old → start.at < result.at }
{
    let base = start.at;
    let pause = text.len().min(base.saturating_add(PAUSE));
    let wides = wides_of(&text[base..]);
    if MANY < wides.stops.count_ones() {
        return fill_by_steps(text, start, pause, out);
    }
    let marks = marks_of::<BLOCK>(&text[base..], wides);
    let mut here = start;
    let mut turns = TURNS;
    while here.count < out.len() && here.at < base + LAST {
        let found = edges_from(marks, here.at - base);
        let there = fill_runs(base, found, here, out);
        if there.count == out.len() {
            return there;
        }
        if NEAR_LAST <= found.stop && base < there.at {
            return there;
        }
        if turns == 0 {
            return fill_by_scalars::<false>(text, there, pause, out);
        }
        turns -= 1;
        let next = (base + behind_stops(marks.stops, found.stop)).max(there.at + 1);
        here = fill_by_scalars::<false>(text, there, next, out);
    }
    here
}

/// Goes on filling scalar by scalar, in the way that is fast for scalars as in the next 64 bytes.
#[inline(always)]
fn fill_by_steps(text: &[u8], here: Filled, stop: usize, out: &mut [Word]) -> Filled
    requires room { (here.count < length out.old) × (here.at + 64 ≤ length text.now) }
    requires stop { (here.at < stop) × (stop ≤ length text.now) }
    ensures fills { FillsOn text.now here out.old result out.new }
    ensures far { result.count < length out.old → stop ≤ result.at }
{
    if FEW < equal(EMOJI, &text[here.at..]).count_ones() {
        return fill_by_scalars::<true>(text, here, stop, out);
    }
    fill_by_scalars::<false>(text, here, stop, out)
}

/// The first byte after one that is not left to steps, or the first after the block.
#[inline(always)]
fn behind_stops(stops: u64, stop: usize) -> usize
    requires { stop < 64 }
    ensures { (stop < result) × (result ≤ 64) }
{
    if stop == LAST {
        return BLOCK;
    }
    let others = kept_from(!stops, stop + 1);
    if others == 0 {
        return BLOCK;
    }
    first_set(others)
}
