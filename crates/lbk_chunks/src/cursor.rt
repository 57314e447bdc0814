//! The cuts of a text, a block at a time.

ghost use Rattle.std.specs.Prelude.{◌≡◌, ◌⊎◌, ℕ, ◌+◌, ◌-◌, ◌<◌, ◌≤◌, List, [], ◌∷◌, ◌++◌, drop, length, map};
ghost use Rattle.std.specs.Prelude.{slice_index_or, take};
ghost use Rattle.lbk_bytes.specs.Order.{no_break};
ghost use Rattle.lbk_bytes.specs.Shown.{raw_of};
ghost use Rattle.lbk_rules.specs.declared.Break.{Break};
ghost use Rattle.lbk_rules.specs.declared.Cell.{Cell};
ghost use Rattle.lbk_calls.specs.Coming.{Comes};
ghost use Rattle.lbk_chunks.specs.declared.cut.Cut.{Cut};
ghost use Rattle.lbk_chunks.specs.declared.word_block.WordBlock.{WordBlock};
ghost use Rattle.lbk_chunks.specs.Coming.{AreAmong, AreFirst, AreNext, AreRead, IsAhead, StandWithin};
ghost use Rattle.lbk_chunks.specs.Coming.{breaks_left, no_cut, words_ahead};

use crate::cut::{Cut, Place};
use crate::word_block::WordBlock;
use crate::words_behind::{pass_known, pass_words};
use lbk_bytes::RawBreak;
use lbk_calls::{State, give_breaks};
use lbk_rules::KindSource;

/// How far a block is filled with cuts.
#[derive(Clone, Copy)]
pub(crate) struct Filled {
    /// How many cuts are at the front of the block.
    pub(crate) count: usize,
    /// The place after the breaks that were read.
    pub(crate) place: Place,
}

/// A block without breaks, to be copied: a new array of them is filled one by one.
static NO_BREAKS: [RawBreak; 64] = [RawBreak {
    at: 0,
    kind: 0,
    rule: 0,
}; 64];

/// Writes the first cuts from a place on to the front of a block: as many as there is room for, or all.
pub(crate) fn fill_cuts<K: KindSource>(
    table: &K,
    text: &[u8],
    place: Place,
    words: &mut WordBlock,
    room: usize,
    out: &mut [Cut; 64],
) -> Filled
    requires room { room ≤ 64 }
    ensures first { (cell : ℕ → Cell) (cuts : List Cut) → AreRead text.now words.old
        → IsAhead cell (K.kinds_of table.now) (K.pairs_of table.now) text.now place cuts
        → AreFirst cell (K.kinds_of table.now) (K.pairs_of table.now) text.now cuts room out.new result
        × AreRead text.now words.new }
    ensures room { result.count ≤ room }
    ensures within { StandWithin (length text.now) result.count out.new }
    ensures counted { 0 < result.count → result.count ≡ room → result.place.words
        ≡ (slice_index_or out.new (result.count - 1) no_cut).words }
    ensures shorter { (result.count ≡ 0)
        ⊎ (breaks_left text.now result.place.breaks < breaks_left text.now place.breaks) }
    ensures onward { breaks_left text.now result.place.breaks ≤ breaks_left text.now place.breaks }
{
    let mut here = Filled { count: 0, place };
    let mut breaks = NO_BREAKS;
    while here.count < room {
        let block = &mut breaks[..room - here.count];
        let next = next_breaks(table, text, here.place.breaks, block);
        if next.count == 0 {
            return here;
        }
        let place = Place {
            breaks: next.state,
            ..here.place
        };
        here = add_cuts(
            text,
            block,
            next.count,
            Filled { place, ..here },
            words,
            room,
            out,
        );
    }
    here
}

/// How many breaks were read, and the state after them.
#[derive(Clone, Copy)]
pub(crate) struct NextBreaks {
    pub(crate) count: usize,
    pub(crate) state: State,
}

/// Writes the first breaks from a state on to the front of a block.
fn next_breaks<K: KindSource>(
    table: &K,
    text: &[u8],
    state: State,
    block: &mut [RawBreak],
) -> NextBreaks
    ensures first { (cell : ℕ → Cell) (breaks : List Break)
        → Comes cell (K.kinds_of table.now) (K.pairs_of table.now) text.now state breaks
        → AreNext cell (K.kinds_of table.now) (K.pairs_of table.now) text.now breaks (length block.old) block.new
        result }
    ensures few { result.count ≤ length block.old }
    ensures within { (k : ℕ) → k < result.count → (slice_index_or block.new k no_break).at ≤ length text.now }
    ensures shorter { (result.count ≡ 0) ⊎ (breaks_left text.now result.state < breaks_left text.now state) }
    ensures onward { breaks_left text.now result.state ≤ breaks_left text.now state }
{
    let mut state = state;
    let count = give_breaks::<true, K>(table, &mut state, text, block);
    NextBreaks { count, state }
}

/// Adds the cuts among the first of some breaks to those at the front of a block.
fn add_cuts(
    text: &[u8],
    breaks: &[RawBreak],
    count: usize,
    start: Filled,
    words: &mut WordBlock,
    room: usize,
    out: &mut [Cut; 64],
) -> Filled
    requires count { count ≤ length breaks.now }
    requires room { (start.count + count ≤ room) × (room ≤ 64) }
    ensures among { (cuts : List Cut) (found rest : List Break) → map raw_of found ≡ take count breaks.now
        → AreAmong text.now cuts (found ++ rest) start words.old out.old
        → AreAmong text.now cuts rest result words.new out.new }
    ensures same { result.place.breaks ≡ start.place.breaks }
    ensures few { (start.count ≤ result.count) × (result.count ≤ room) }
    ensures within { (size : ℕ) → ((k : ℕ) → k < count → (slice_index_or breaks.now k no_break).at ≤ size)
        → StandWithin size start.count out.old
        → StandWithin size result.count out.new }
    ensures counted { 0 < count → result.count ≡ room → result.place.words
        ≡ (slice_index_or out.new (result.count - 1) no_cut).words }
{
    let mut here = start;
    let mut k = 0;
    while k < count {
        let first = add_cut(text, breaks[k], here, words, out);
        let more = add_known(breaks, k + 1, count, first, words, out);
        here = more.filled;
        k = more.next;
    }
    here
}

/// How far a block is filled with cuts, and the index of the next break.
#[derive(Clone, Copy)]
pub(crate) struct Added {
    pub(crate) filled: Filled,
    pub(crate) next: usize,
}

/// Adds the cuts among the breaks from an index on, as far as the words read suffice. Because it makes no call, the
/// loop keeps its numbers in registers.
fn add_known(
    breaks: &[RawBreak],
    from: usize,
    count: usize,
    start: Filled,
    words: &mut WordBlock,
    out: &mut [Cut; 64],
) -> Added
    requires count { (from ≤ count) × (count ≤ length breaks.now) }
    requires room { start.count + count ≤ 64 + from }
    ensures among { (text : List ℕ) (cuts : List Cut) (found rest : List Break)
        → map raw_of found ≡ take count breaks.now
        → AreAmong text cuts (drop from found ++ rest) start words.old out.old
        → AreAmong text cuts (drop result.next found ++ rest) result.filled words.new out.new }
    ensures same { result.filled.place.breaks ≡ start.place.breaks }
    ensures next { (from ≤ result.next) × (result.next ≤ count) }
    ensures few { (start.count ≤ result.filled.count) × (result.filled.count + from ≤ start.count + result.next) }
    ensures within { (size : ℕ) → ((k : ℕ) → k < count → (slice_index_or breaks.now k no_break).at ≤ size)
        → StandWithin size start.count out.old
        → StandWithin size result.filled.count out.new }
    ensures counted { result.next ≡ count → result.filled.count + from ≡ start.count + count
        → start.place.words ≡ (slice_index_or out.old (start.count - 1) no_cut).words
        → result.filled.place.words ≡ (slice_index_or out.new (result.filled.count - 1) no_cut).words }
{
    let mut here = start;
    let mut k = from;
    while k < count {
        let found = breaks[k];
        // The state is the one at the start, so it stays out of the loop.
        let place = Place {
            breaks: start.place.breaks,
            ..pass_known(found.at, here.place, words)
        };
        let passed = Filled { place, ..here };
        if place.word.end <= found.at {
            return Added {
                filled: passed,
                next: k,
            };
        }
        here = put_cut(found, passed, out);
        k += 1;
    }
    Added {
        filled: here,
        next: k,
    }
}

/// Adds the cut at a break to those at the front of a block, if the break is outside words.
#[inline(never)]
fn add_cut(
    text: &[u8],
    found: RawBreak,
    start: Filled,
    words: &mut WordBlock,
    out: &mut [Cut; 64],
) -> Filled
    requires room { start.count < 64 }
    ensures among { (cuts : List Cut) (first : Break) (rest : List Break) → raw_of first ≡ found
        → AreAmong text.now cuts (first ∷ rest) start words.old out.old
        → AreAmong text.now cuts rest result words.new out.new }
    ensures same { result.place.breaks ≡ start.place.breaks }
    ensures few { (start.count ≤ result.count) × (result.count ≤ start.count + 1) }
    ensures within { (size : ℕ) → found.at ≤ size → StandWithin size start.count out.old
        → StandWithin size result.count out.new }
    ensures counted { result.count ≡ start.count + 1 → result.place.words
        ≡ (slice_index_or out.new (result.count - 1) no_cut).words }
{
    let place = pass_words(text, found.at, start.place, words);
    put_cut(found, Filled { place, ..start }, out)
}

/// Adds the cut at a break to those at the front of a block, if the break is not inside the first word that ends past
/// it.
#[inline(always)]
fn put_cut(found: RawBreak, here: Filled, out: &mut [Cut; 64]) -> Filled
    requires room { here.count < 64 }
    ensures among { (text : List ℕ) (cuts : List Cut) (first : Break) (rest : List Break) (words : WordBlock)
        → raw_of first ≡ found
        → AreAmong text cuts (first ∷ rest) here words out.old
        → (here.place.word.end ≡ 0 → words_ahead text here.place ≡ [])
        → (here.place.word.end ≡ 0) ⊎ (found.at < here.place.word.end) → AreAmong text cuts rest result words out.new }
    ensures same { result.place ≡ here.place }
    ensures few { (here.count ≤ result.count) × (result.count ≤ here.count + 1) }
    ensures within { (size : ℕ) → found.at ≤ size → StandWithin size here.count out.old
        → StandWithin size result.count out.new }
    ensures counted { result.count ≡ here.count + 1 → here.place.words
        ≡ (slice_index_or out.new (result.count - 1) no_cut).words }
{
    if here.place.word.end == 0 || found.at <= here.place.word.start {
        out[here.count] = Cut {
            at: found.at,
            words: here.place.words,
            kind: found.kind,
            rule: found.rule,
        };
        return Filled {
            count: here.count + 1,
            ..here
        };
    }
    here
}
