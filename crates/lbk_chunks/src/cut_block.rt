//! Successive cuts of a text.

ghost use Rattle.std.specs.Prelude.{◌≡◌, ◌⊎◌, ℕ, ◌-◌, ◌<◌, ◌≤◌, ◌&&◌, nat_le, nat_lt, length, List, slice_index_or};
ghost use Rattle.lbk_rules.specs.declared.Cell.{Cell};
ghost use Rattle.lbk_chunks.specs.declared.cut.Cut.{Cut};
ghost use Rattle.lbk_chunks.specs.Blocks.{last_or, no_cut};

use crate::cursor::fill_cuts;
use crate::cut::{Cut, Mark, NO_CUTS};
use crate::word_block::WordBlock;
use lbk_rules::KindSource;

/// How many cuts a block holds.
pub(crate) const BLOCK: usize = 64;

/// The cuts from a place on: as many as there was room for, or all.
#[derive(Clone, Copy)]
pub(crate) struct CutBlock {
    /// The place before the first.
    pub(crate) before: Mark,
    /// The cuts.
    pub(crate) cuts: [Cut; 64],
    /// How many there are.
    pub(crate) count: usize,
    /// For how many there was room.
    pub(crate) room: usize,
    /// The place after the last.
    pub(crate) behind: Mark,
    ghost some: { 0 < room },
    ghost most: { room ≤ 64 },
    ghost size: { length cuts ≡ 64 },
    ghost few: { count ≤ room },
    ghost end: { behind.at ≡ last_or cuts count before.at },
}

impl CutBlock {
    ghost use Rattle.lbk_chunks.specs.Coming.{AreCutsPast, AreRead, IsBlock, IsFirstPast, IsMark, StandWithin};
    ghost use Rattle.lbk_chunks.specs.Coming.{breaks_left, early_in, last_in};

    /// No cuts, at a place.
    pub(crate) fn none(mark: Mark) -> CutBlock {
        CutBlock {
            before: mark,
            cuts: NO_CUTS,
            count: 0,
            room: BLOCK,
            behind: mark,
        }
    }

    /// Reads the cuts from a place on, which replace those that it has.
    pub(crate) fn read<K: KindSource>(
        &mut self,
        table: &K,
        text: &[u8],
        mark: Mark,
        room: usize,
        words: &mut WordBlock,
    )
        requires room { (0 < room) × (room ≤ 64) }
        ensures within { StandWithin (length text.now) self.new.count self.new.cuts }
        ensures before { (self.new.before ≡ mark) × (self.new.room ≡ room) }
        ensures block { (cell : ℕ → Cell) (cuts : List Cut) → AreCutsPast 0 cuts → AreRead text.now words.old
            → IsMark cell (K.kinds_of table.now) (K.pairs_of table.now) text.now cuts mark
            → IsBlock cell (K.kinds_of table.now) (K.pairs_of table.now) text.now cuts self.new
            × AreRead text.now words.new }
        ensures shorter { (self.new.count ≡ 0)
            ⊎ (breaks_left text.now self.new.behind.place.breaks < breaks_left text.now mark.place.breaks) }
        ensures onward { breaks_left text.now self.new.behind.place.breaks ≤ breaks_left text.now mark.place.breaks }
    {
        let filled = fill_cuts(table, text, mark.place, words, room, &mut self.cuts);
        self.before = mark;
        self.room = room;
        self.count = filled.count;
        self.behind = Mark {
            place: filled.place,
            at: last_or(&self.cuts, filled.count, mark.at),
        };
    }

    /// Whether the first cut past a byte is one of them.
    #[inline(always)]
    pub(crate) fn reaches(&self, at: usize) -> bool
        ensures { result ≡ (nat_le self.now.before.at at && nat_lt at self.now.behind.at) }
    {
        self.before.at <= at && at < self.behind.at
    }

    /// Where a search for the first cut past a byte may begin: there or at the first.
    #[inline(always)]
    fn begin(&self, at: usize, from: usize) -> usize
        requires { 0 < self.now.count }
        ensures few { result < self.now.count }
        ensures first { (result ≡ 0) ⊎ ((slice_index_or self.now.cuts (result - 1) no_cut).at ≤ at) }
    {
        if 0 < from && from < self.count && self.cuts[from - 1].at <= at {
            return from;
        }
        0
    }

    /// This place, if the cut before it is at the byte, or else the end.
    #[inline(always)]
    pub(crate) fn behind_cut(&self, at: usize, place: usize) -> usize
        ensures few { result ≤ self.now.count }
        ensures found { (result ≡ self.now.count) ⊎ ((0 < result)
            × ((slice_index_or self.now.cuts (result - 1) no_cut).at ≡ at)) }
    {
        if 0 < place && place <= self.count && self.cuts[place - 1].at == at {
            return place;
        }
        self.count
    }

    /// The cut before a place, if that is past the one from which a search began, or else this.
    #[inline(always)]
    pub(crate) fn cut_before(&self, place: usize, from: usize, first: Cut) -> Cut
        requires { (place ≤ 64) × (from ≤ place) }
        ensures { result ≡ last_in self.now.cuts from first place }
    {
        if from == place {
            return first;
        }
        self.cuts[place - 1]
    }

    /// The cut before a place, if that is not 0, or else this.
    #[inline(always)]
    pub(crate) fn cut_or(&self, place: usize, early: Option<Cut>) -> Option<Cut>
        requires { place ≤ 64 }
        ensures { result ≡ early_in self.now.cuts early place }
    {
        if place == 0 {
            return early;
        }
        Some(self.cuts[place - 1])
    }

    /// Which of them is the first past a byte. The search begins at one of them if that is not past the first.
    #[inline(always)]
    pub(crate) fn first_past(&self, at: usize, from: usize) -> usize
        requires { (self.now.before.at ≤ at) × (at < self.now.behind.at) }
        ensures { IsFirstPast self.now at result }
    {
        let mut k = self.begin(at, from);
        while self.cuts[k].at <= at {
            k += 1;
        }
        k
    }
}

/// The offset of the last of some cuts, if there is one.
fn last_or(cuts: &[Cut], count: usize, at: usize) -> usize
    requires { count ≤ length cuts.now }
    ensures { result ≡ last_or cuts.now count at }
{
    if count == 0 {
        return at;
    }
    cuts[count - 1].at
}
