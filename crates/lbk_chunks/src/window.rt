//! The cuts of a text around an offset, kept so that few are read twice.

ghost use Rattle.std.specs.Prelude.{◌≡◌, ◌⊎◌, ℕ, ◌<◌, ◌≤◌, [], ◌∷◌, false, true, List, IfSome, MatchOption, length};
ghost use Rattle.lbk_rules.specs.declared.Cell.{Cell};
ghost use Rattle.lbk_rules.specs.declared.neighbours.Neighbours.{Neighbours};
ghost use Rattle.lbk_chunks.specs.declared.cut.Cut.{Cut};
ghost use Rattle.lbk_chunks.specs.Chunks.{cuts_past};
ghost use Rattle.lbk_chunks.specs.Coming.{AreKept, AreRead, IsAhead, IsBlock, IsKept, IsMark, IsStanding, KeepsCuts};
ghost use Rattle.lbk_chunks.specs.Coming.{StandWithin, breaks_left};
ghost use Rattle.lbk_chunks.specs.Cuts.{AreCutsPast};

use crate::cursor::fill_cuts;
use crate::cut::{Cut, Mark, NO_CUTS, Place};
use crate::cut_block::{BLOCK, CutBlock};
use crate::word_block::WordBlock;
use lbk_rules::KindSource;

/// How many cuts are read first. Each further block has twice as many, up to the most that a block holds.
const FIRST: usize = 4;

/// Two blocks of cuts, and a place from which others are read again.
#[derive(Drop)]
pub(crate) struct Window {
    /// A place after which all cuts can be read.
    home: Mark,
    /// The cuts that were read before the newer ones.
    older: CutBlock,
    /// The cuts that were read last.
    newer: CutBlock,
    /// Where the search in a block begins.
    pub(crate) next: usize,
    /// The words after the newer cuts, as far as they were read.
    words: WordBlock,
}

impl Window {
    /// The cuts from a place on.
    pub(crate) fn new<K: KindSource>(table: &K, text: &[u8], home: Mark) -> Window
        ensures kept { IsKept text.now result }
        ensures home { result.home ≡ home }
        ensures are { (cell : ℕ → Cell) (cuts : List Cut) → AreCutsPast 0 cuts
            → IsMark cell (K.kinds_of table.now) (K.pairs_of table.now) text.now cuts home
            → AreKept cell (K.kinds_of table.now) (K.pairs_of table.now) text.now cuts result }
    {
        let mut words = WordBlock::none();
        let mut newer = CutBlock::none(home);
        newer.read(table, text, home, FIRST, &mut words);
        Window {
            home,
            older: newer,
            newer,
            next: 0,
            words,
        }
    }

    /// The first cut past a byte.
    #[inline(always)]
    pub(crate) fn first_past<K: KindSource>(
        &mut self,
        table: &K,
        text: &[u8],
        at: usize,
    ) -> Option<Cut>
        ensures keeps { KeepsCuts (K.kinds_of table.now) (K.pairs_of table.now) text.now self.old self.new }
        ensures first { (cell : ℕ → Cell) (cuts : List Cut) → AreCutsPast 0 cuts
            → AreKept cell (K.kinds_of table.now) (K.pairs_of table.now) text.now cuts self.old → self.old.home.at ≤ at
            → MatchOption result (cuts_past at cuts ≡ []) (λ cut. cuts_past at cuts ≡ cut ∷ cuts_past cut.at cuts) }
        ensures past { IfSome result (λ cut. at < cut.at) }
        ensures within { IsKept text.now self.old → IfSome result (λ cut. cut.at ≤ length text.now) }
    {
        if self.newer.reaches(at) {
            let k = self.newer.first_past(at, self.next);
            self.next = k + 1;
            return Some(self.newer.cuts[k]);
        }
        if self.older.reaches(at) {
            let k = self.older.first_past(at, self.next);
            self.next = k + 1;
            return Some(self.older.cuts[k]);
        }
        if !self.read_past(table, text, at) {
            return None;
        }
        let k = self.newer.first_past(at, 0);
        self.next = k + 1;
        Some(self.newer.cuts[k])
    }

    /// The block that has the cut after the one at a byte, if either has.
    #[inline(always)]
    pub(crate) fn block_past(&self, at: usize) -> &CutBlock
        ensures within { (text : List ℕ) → IsKept text self.now
            → StandWithin (length text) result.now.count result.now.cuts }
        ensures block { (cell : ℕ → Cell) (kinds : List ℕ) (pairs : Neighbours) (text : List ℕ) (cuts : List Cut)
            → AreKept cell kinds pairs text cuts self.now → IsBlock cell kinds pairs text cuts result.now }
    {
        if self.older.reaches(at) {
            return &self.older;
        }
        &self.newer
    }

    /// Reads the cuts again from the place that is kept, if the newer ones are past a byte.
    fn reread<K: KindSource>(&mut self, table: &K, text: &[u8], at: usize)
        ensures keeps { KeepsCuts (K.kinds_of table.now) (K.pairs_of table.now) text.now self.old self.new }
        ensures before { self.old.home.at ≤ at → self.new.newer.before.at ≤ at }
    {
        if self.newer.before.at <= at {
            return;
        }
        self.newer
            .read(table, text, self.home, BLOCK, &mut self.words);
    }

    /// Reads the cuts after the newer ones.
    fn read_on<K: KindSource>(&mut self, table: &K, text: &[u8])
        requires { self.old.newer.count ≡ self.old.newer.room }
        ensures keeps { KeepsCuts (K.kinds_of table.now) (K.pairs_of table.now) text.now self.old self.new }
        ensures before { self.new.newer.before ≡ self.old.newer.behind }
        ensures shorter { (self.new.newer.count ≡ 0)
            ⊎ (breaks_left text.now self.new.newer.behind.place.breaks < breaks_left text.now
            self.old.newer.behind.place.breaks) }
        ensures onward { breaks_left text.now self.new.newer.behind.place.breaks ≤ breaks_left text.now
            self.old.newer.behind.place.breaks }
    {
        self.older = self.newer;
        let behind = self.older.behind;
        let room = (self.older.room * 2).min(BLOCK);
        self.newer.read(table, text, behind, room, &mut self.words);
    }

    /// Reads cuts until the newer reach past a byte, and returns whether they do.
    #[inline(never)]
    fn read_past<K: KindSource>(&mut self, table: &K, text: &[u8], at: usize) -> bool
        ensures keeps { KeepsCuts (K.kinds_of table.now) (K.pairs_of table.now) text.now self.old self.new }
        ensures reaches { result ≡ true → (self.new.newer.before.at ≤ at) × (at < self.new.newer.behind.at) }
        ensures none { (cell : ℕ → Cell) (cuts : List Cut) → AreCutsPast 0 cuts
            → AreKept cell (K.kinds_of table.now) (K.pairs_of table.now) text.now cuts self.old → self.old.home.at ≤ at
            → result ≡ false → cuts_past at cuts ≡ [] }
    {
        self.reread(table, text, at);
        while self.newer.behind.at <= at {
            if self.newer.count < self.newer.room {
                return false;
            }
            self.read_on(table, text);
        }
        self.newer.before.at <= at
    }

    /// Keeps the place of the nearest known cut at a byte or before it.
    pub(crate) fn settle(&mut self, at: usize)
        ensures kept { (text : List ℕ) → IsKept text self.old → IsKept text self.new }
        ensures home { self.old.home.at ≤ at → self.new.home.at ≤ at }
        ensures are { (cell : ℕ → Cell) (kinds : List ℕ) (pairs : Neighbours) (text : List ℕ) (cuts : List Cut)
            → AreKept cell kinds pairs text cuts self.old → AreKept cell kinds pairs text cuts self.new }
    {
        if self.newer.before.at <= at {
            self.home = self.newer.before;
        } else if self.older.before.at <= at {
            self.home = self.older.before;
        }
    }

    /// The place of the cut at the offset of a state.
    pub(crate) fn place_of<K: KindSource>(&mut self, table: &K, text: &[u8], at: usize) -> Place
        ensures { (cell : ℕ → Cell) (cuts : List Cut) (words : ℕ) → AreCutsPast 0 cuts
            → AreKept cell (K.kinds_of table.now) (K.pairs_of table.now) text.now cuts self.old → self.old.home.at ≤ at
            → IsStanding cuts at words → IsAhead cell (K.kinds_of table.now) (K.pairs_of table.now) text.now result
            (cuts_past at cuts)
            × (result.words ≡ words) }
    {
        let mut here = self.near(table, text, at);
        let mut block = NO_CUTS;
        while here.at < at {
            let filled = fill_cuts(table, text, here.place, &mut self.words, 1, &mut block);
            if filled.count == 0 {
                return filled.place;
            }
            here = Mark {
                place: filled.place,
                at: block[0].at,
            };
        }
        here.place
    }

    /// The nearest known place at a byte or before it.
    fn near<K: KindSource>(&mut self, table: &K, text: &[u8], at: usize) -> Mark
        ensures before { self.old.home.at ≤ at → result.at ≤ at }
        ensures mark { (cell : ℕ → Cell) (cuts : List Cut) → AreCutsPast 0 cuts
            → AreKept cell (K.kinds_of table.now) (K.pairs_of table.now) text.now cuts self.old
            → IsMark cell (K.kinds_of table.now) (K.pairs_of table.now) text.now cuts result
            × AreRead text.now self.new.words }
    {
        let many = self.many_up_to(at);
        let mut cuts = NO_CUTS;
        let filled = fill_cuts(
            table,
            text,
            self.home.place,
            &mut self.words,
            many,
            &mut cuts,
        );
        if filled.count == many && many != 0 && cuts[many - 1].at <= at {
            return Mark {
                place: filled.place,
                at: cuts[many - 1].at,
            };
        }
        self.home
    }

    /// How many cuts are at a byte or before it, in the block of the place that is kept.
    fn many_up_to(&self, at: usize) -> usize
        ensures { result ≤ 64 }
    {
        if self.newer.reaches(at) {
            return self.newer.first_past(at, 0);
        }
        if self.older.reaches(at) {
            return self.older.first_past(at, 0);
        }
        BLOCK
    }
}
