//! The words of a text, read a block at a time.

ghost use Rattle.std.specs.Prelude.{◌≡◌, ℕ, ◌-◌, ◌<◌, ◌≤◌, List, [], ◌++◌, IfNone, IfSome, MatchOption, drop, length, take};
ghost use Rattle.lbk_words.specs.Words.{AreRising, words_on};
ghost use Rattle.lbk_chunks.specs.Blocks.{AreRising-prop};

use lbk_words::{Filled, Word, fill};

/// How many words are read first. Each further block has four times as many, up to the most that a block holds.
const FIRST: usize = 4;

/// How many words a block holds.
const BLOCK: usize = 64;

/// The words from a byte on, as far as they were read.
#[derive(Clone, Copy)]
pub(crate) struct WordBlock {
    /// The offset from which they were read.
    from: usize,
    /// The index of the first of them in the block.
    next: usize,
    /// How many words were put into the block.
    count: usize,
    /// The offset from which the words after the block are left.
    rest: usize,
    /// How many words are read next.
    room: usize,
    /// The block.
    words: [Word; 64],
    ghost some: { 0 < room },
    ghost most: { room ≤ 64 },
    ghost size: { length words ≡ 64 },
    ghost within: { count ≤ 64 },
    ghost few: { next ≤ count },
    ghost rising: { AreRising from rest (drop next (take count words)) } by { AreRising-prop from rest (drop next (take count words)) },
}

impl WordBlock {
    ghost use Rattle.lbk_chunks.specs.Coming.{AreRead, IsFirstWord};

    /// None is read yet.
    pub(crate) fn none() -> WordBlock
        ensures { (text : List ℕ) → AreRead text result }
    {
        WordBlock {
            from: 0,
            next: 0,
            count: 0,
            rest: 0,
            room: FIRST,
            words: [Word { start: 0, end: 0 }; 64],
        }
    }

    /// Reads the words from a byte on.
    #[inline(never)]
    fn read(&mut self, text: &[u8], from: usize)
        ensures read { AreRead text.now self.new }
        ensures from { self.new.from ≡ from }
        ensures none { self.new.next ≡ self.new.count → words_on text.now from ≡ [] }
    {
        let room = self.room;
        let filled = fill_front(text, from, room, &mut self.words);
        self.from = from;
        self.next = 0;
        self.count = filled.count;
        self.rest = filled.at;
        self.room = (room * 4).min(BLOCK);
    }

    /// The first word from a byte on.
    #[inline(always)]
    pub(crate) fn first_from(&mut self, text: &[u8], from: usize) -> Option<Word>
        ensures read { AreRead text.now self.old → AreRead text.now self.new }
        ensures first { AreRead text.now self.old
            → MatchOption result (words_on text.now from ≡ []) (IsFirstWord text.now from) }
        ensures past { IfSome result (λ word. from < word.end) }
    {
        if let Some(word) = self.known_from(from) {
            return Some(word);
        }
        if self.from == from && text.len() <= self.rest {
            return None;
        }
        self.read(text, from);
        self.known_from(from)
    }

    /// The first word from a byte on, if it was read.
    #[inline(always)]
    pub(crate) fn known_from(&mut self, from: usize) -> Option<Word>
        ensures read { (text : List ℕ) → AreRead text self.old → AreRead text self.new }
        ensures first { (text : List ℕ) → AreRead text self.old → IfSome result (IsFirstWord text from) }
        ensures past { IfSome result (λ word. from < word.end) }
        ensures fewer { IfSome result (λ _. self.new.count - self.new.next < self.old.count - self.old.next) }
        ensures none { IfNone result ((self.new ≡ self.old)
            × (self.old.from ≡ from → self.old.next ≡ self.old.count)) }
    {
        if self.from != from || self.count <= self.next {
            return None;
        }
        let word = self.words[self.next];
        self.next += 1;
        self.from = word.end;
        Some(word)
    }
}

/// Puts the first words from a byte on into the front of a block, as many as there is room for.
fn fill_front(text: &[u8], from: usize, room: usize, words: &mut [Word; 64]) -> Filled
    requires { room ≤ 64 }
    ensures few { result.count ≤ room }
    ensures size { length words.new ≡ 64 }
    ensures joined { words_on text.now from ≡ take result.count words.new ++ words_on text.now result.at }
    ensures rising { AreRising from result.at (take result.count words.new) }
    ensures within { from ≤ length text.now → result.at ≤ length text.now }
    ensures none { 0 < room → result.count ≡ 0 → words_on text.now from ≡ [] }
{
    fill::<true>(text, from, &mut words[..room])
}
