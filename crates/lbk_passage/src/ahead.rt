//! Breaks of the bytes that are ready, found ahead of the passages that they end, and the segments between them.

ghost use Rattle.std.specs.Prelude.{◌≡◌, ◌<◌, ◌^◌, ◌↔◌, false, length};
ghost use Rattle.lbk_passage.specs.Ahead.{AreWhole, EndsFirst, HasAhead, HasSizes, IsAhead, TakesTold, Tells};
ghost use Rattle.lbk_passage.specs.Ahead.{segments_told};

use crate::found::{NO_BREAK, START, find};
use crate::known::KnownCells;
use crate::paragraph::{Paragraph, Told};
use crate::passage::Segment;
use crate::segments::{NO_SEGMENT, cut_passages};
use lbk_bytes::RawBreak;
use lbk_rules::{CellSource, Profile, Verdict};

/// How many breaks are found at a time.
pub(crate) const AHEAD: usize = 1024;

/// Where fewer bytes are ready, most belong to a passage that does not end among them.
const FEW: usize = 64;

/// Where more bytes are ready, nothing is found ahead: a segment's offsets have 32 bits.
const MOST: usize = 1 << 24;

/// After a passage of more segments nothing is found ahead: the next one could have more than the block.
const MANY: usize = 96;

/// Breaks of the bytes that are ready, as many as were found, and the segments that end at them.
#[derive(Drop)]
pub(crate) struct Ahead {
    /// Where breaks are found into.
    block: [RawBreak; AHEAD],
    /// The segments that end at these breaks. Their offsets count from the first byte of their passage.
    segments: [Segment; AHEAD],
    /// The places in the block of the breaks at which a line must end.
    ends: [u16; AHEAD],
    /// How many these are.
    ends_count: usize,
    /// Which of these is the first of the bytes that are ready.
    next_end: usize,
    /// The place in the block of the first break of the bytes that are ready.
    next: usize,
    /// How many there are from there on.
    left: usize,
    /// How many there are before it that are of the passage taken last.
    told: usize,
}

/// No break was found.
pub(crate) const NOTHING: Ahead = Ahead {
    block: [NO_BREAK; AHEAD],
    segments: [NO_SEGMENT; AHEAD],
    ends: [0; AHEAD],
    ends_count: 0,
    next_end: 0,
    next: 0,
    left: 0,
    told: 0,
};

impl Ahead {
    ghost use Rattle.std.specs.Prelude.{[], List, ℕ, IsUtf8};
    ghost use Rattle.lbk_rules.specs.declared.Break.{Break};
    ghost use Rattle.lbk_rules.specs.declared.Cell.{Cell};
    ghost use Rattle.lbk_values.specs.declared.profile.Profile.{Profile};

    /// Forgets the breaks of the bytes that are ready.
    pub(crate) fn forget(&mut self)
        ensures { self.new ≡ record self.old { ends_count = 0; next_end = 0; left = 0; told = 0 } }
    {
        self.left = 0;
        self.told = 0;
        self.next_end = 0;
        self.ends_count = 0;
    }

    /// The passage at the front of the bytes that are ready, where breaks tell that a line must end behind it, before
    /// the last of these bytes, unless the next passage is held already. It passes over the breaks of that passage.
    /// `listed`: how many segments the passage before has, where it was not taken by breaks.
    #[inline(always)]
    pub(crate) fn tell<C: CellSource>(
        &mut self,
        known: &KnownCells<'_, C>,
        profile: Profile,
        paragraph: &Paragraph,
        listed: usize,
    ) -> Option<Told>
        requires { IsAhead profile (C.cell_of known.now.cells.now) paragraph.now.feed.ready self.old }
        ensures { Tells profile (C.cell_of known.now.cells.now) paragraph.now self.old self.new result }
    {
        if paragraph.is_in_hand() {
            return None;
        }
        let ready = paragraph.ready();
        let count = self.first_end(ready.len());
        if 0 < count {
            return self.take(count, paragraph.limit());
        }
        let segments = if self.has_told() { self.told } else { listed };
        if MANY < segments || ready.len() < FEW || MOST < ready.len() {
            self.forget();
            return None;
        }
        self.find(known.cells, profile, ready);
        let count = self.first_end(ready.len());
        if count == 0 {
            self.forget();
            return None;
        }
        self.take(count, paragraph.limit())
    }

    /// Finds the first breaks of the bytes that are ready, and the segments that end at them.
    fn find<C: CellSource>(&mut self, cells: &C, profile: Profile, ready: &str)
        requires { AreWhole self.old × (length ready.now < 2 ^ 32) }
        ensures { IsAhead profile (C.cell_of cells.now) ready.now self.new }
    {
        let found = find(cells, profile, ready, START, &mut self.block);
        let count = found.state.count;
        let (segments, ends) = (&mut self.segments, &mut self.ends);
        self.ends_count = cut_passages(&self.block, count, segments, ends);
        self.next_end = 0;
        self.next = 0;
        self.left = count;
        self.told = 0;
    }

    /// How many breaks there are up to the first at which a line must end, or 0 where none of them is such, or it does
    /// not stand before the byte `len`.
    #[inline(always)]
    fn first_end(&self, len: usize) -> usize
        requires { (found : List Break) × HasAhead self.now found }
        ensures { (found : List Break) → HasAhead self.now found → 0 < result → EndsFirst found len result }
    {
        if self.next_end == self.ends_count {
            return 0;
        }
        let k = usize::from(self.ends[self.next_end]);
        if (self.segments[k].end as usize) < len {
            return k + 1 - self.next;
        }
        0
    }

    /// Takes the passage of the first `count` breaks, if it has at most `limit` bytes.
    #[inline(always)]
    fn take(&mut self, count: usize, limit: usize) -> Option<Told>
        requires { (found : List Break) × (len : ℕ) × HasAhead self.old found × EndsFirst found len count }
        ensures { TakesTold self.old self.new count limit result }
    {
        let last = self.segments[self.next + count - 1];
        let len = last.end as usize;
        if limit < len {
            self.forget();
            return None;
        }
        self.next += count;
        self.left -= count;
        self.told = count;
        self.next_end += 1;
        Some(Told {
            len,
            end: Verdict {
                kind: last.kind,
                rule: last.rule,
            },
        })
    }

    /// The segments of the passage taken last, if it was taken by breaks, else none.
    #[inline(always)]
    pub(crate) fn found(&self) -> &[Segment]
        requires { HasSizes self.now }
        ensures { result.now ≡ segments_told self.now }
    {
        &self.segments[self.next - self.told..self.next]
    }

    /// Whether a passage was taken last by breaks.
    #[inline(always)]
    pub(crate) fn has_told(&self) -> bool
        ensures { result ≡ false ↔ (self.now.told ≡ 0) }
    {
        self.told != 0
    }
}
